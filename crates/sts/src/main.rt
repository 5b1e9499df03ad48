//! The program `sts`: `sts_cli` does all of it.
#![tactic(auto)]

use std::io::IsTerminal;
use std::process::ExitCode;
use sts_cli::start;

fn main(rt: HostRuntime) -> ExitCode {
    let at_terminal = rt.stdin().is_terminal();
    let status = start(
        &rt,
        rt.alloc(),
        at_terminal,
        &mut rt.stdout(),
        &mut rt.stderr(),
    );
    ExitCode::from(status)
}
