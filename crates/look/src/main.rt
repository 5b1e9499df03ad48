//! The program `look`: shows runs of the plain machine, what is wrong with a text, and every end of
//! a program.
#![tactic(auto)]

pub mod ends;
pub mod piped;
pub mod program;

use crate::program::start;
use look_host::Terminal;
use std::io::IsTerminal;
use std::process::ExitCode;

fn main(rt: HostRuntime) -> ExitCode {
    let is_terminal = rt.stderr().is_terminal();
    let mut progress = Terminal::new(&rt, rt.alloc(), rt.stderr(), is_terminal);
    let status = start(
        &rt,
        rt.alloc(),
        &mut progress,
        &mut rt.stdout(),
        &mut rt.stderr(),
    );
    ExitCode::from(status)
}
