//! Tests of what the programs answer, and of calls by themselves. Each word of the command line names
//! a part, and the parts are done in order.
//!
//! - `rows` walks the tables of rows that the file `tables` names.
//! - `calls` makes single calls on the row that standard input has.
//!
//! The file `stdout` has what both parts must print, so a wrong row and a lost row fail the gate.
#![tactic(auto)]

mod calls;
mod failure;
mod notation;
mod table;
mod walking;

use crate::failure::{Failure, status};
use std::env;
use std::process::ExitCode;

/// Does the part of a name.
fn done(rt: &HostRuntime, part: &str) -> Result<(), Failure> {
    match part {
        "rows" => walking::walk_all(rt),
        "calls" => calls::answer_all(rt),
        _ => Err(Failure::Unfit("there is no such part")),
    }
}

/// Does the parts that the command line names.
fn done_all(rt: &HostRuntime) -> Result<(), Failure> {
    let Ok(words) = env::args(&(rt, rt.alloc())) else {
        return Err(Failure::Memory("words"));
    };
    for part in words.skip(1) {
        done(rt, part.as_str())?;
    }
    Ok(())
}

fn main(rt: HostRuntime) -> ExitCode {
    ExitCode::from(status(&rt, done_all(&rt)))
}
