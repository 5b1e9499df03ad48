//! Searches all schedules of workers over the rule of `sts_waits` for one that never ends. The word of
//! the command line says which searches are made: `small` or `large` ones.
#![tactic(auto)]

mod run;
mod search;
mod searches;
mod state;

use searches::{Case, LARGE, SMALL};
use std::process::ExitCode;
use std::{env, io};

/// The status if a search isn't well, or memory ran out.
const WRONG: u8 = 1;

/// The status if the word names no searches.
const NO_WORD: u8 = 2;

/// Prints a line for each search. Answers whether all are well.
fn tell(rt: &HostRuntime, cases: &[Case]) -> io::Result<bool> {
    let mut is_well = true;
    for case in cases {
        let (states, wrong) = case.run(rt.alloc())?;
        is_well &= wrong.is_none();
        let (name, verdict) = (case.name, wrong.unwrap_or("well"));
        println!(rt; "{name}: {states} states, {verdict}")?;
    }
    Ok(is_well)
}

fn status(rt: &HostRuntime, cases: &[Case]) -> u8 {
    match tell(rt, cases) {
        Ok(true) => 0,
        _ => WRONG,
    }
}

fn main(rt: HostRuntime) -> ExitCode {
    let Ok(words) = env::args(&(&rt, rt.alloc())) else {
        return ExitCode::from(WRONG);
    };
    let mut done = NO_WORD;
    for word in words.skip(1) {
        done = match word.as_str() {
            "small" => status(&rt, SMALL),
            "large" => status(&rt, LARGE),
            _ => NO_WORD,
        };
    }
    ExitCode::from(done)
}
