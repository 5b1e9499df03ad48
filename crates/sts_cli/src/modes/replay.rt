//! Mode `replay`: prints the state of the fast machine, after the events of a trace, if the program
//! is accepted.

ghost use Rattle.std.specs.Prelude.{◌≡◌, IfOk};
ghost use Rattle.sts_asm.specs.Text.{judged};
ghost use Rattle.sts_plain.specs.Seen.{ended_or_running};
ghost use Rattle.sts_output.specs.Kept.{KeepsProgram};
ghost use Rattle.sts_output.specs.Output as def;
ghost use Rattle.sts_output.specs.Stops.{Keeps, Prints};

use std::alloc::{AllocError, Global};
use sts_machine::replay;
use sts_model::{End, Event};
use sts_output::{Assembled, Output, Stopped, events_of, output, program_of, verified_of};
use sts_plain::PlainState;
use sts_verify::Verified;

/// The state of a machine that doesn't fault.
fn state_of(root_end: Option<End>) -> PlainState
    ensures { result ≡ ended_or_running root_end }
{
    match root_end {
        None => PlainState::Running,
        Some(end) => PlainState::Ended(end),
    }
}

/// Runs the events on the fast machine. The compiler would make its loop slower inside `replayed`, so
/// it is a call of its own.
#[inline(never)]
fn run(alloc: Global, verified: &Verified, events: &[Event]) -> Result<Output, AllocError>
    ensures { IfOk result (λ o. def.IsReplay verified.now events.now o) }
{
    let machine = replay(alloc, verified, events)?;
    let state = state_of(machine.root_end());
    let steps = machine.steps();
    drop(machine);
    output::state_output(alloc, verified.program(), state, steps)
}

/// Assembles the text, reads the trace, verifies the program and runs the events. `assembled` gets
/// the program, or the fault of the text.
///
/// # Errors
///
/// The text or the trace has a fault, the program is refused, or memory ran out.
pub fn replayed(
    alloc: Global,
    text: &[u8],
    trace: &[u8],
    assembled: &mut Assembled,
) -> Result<Output, Stopped>
    ensures output { Prints result (def.ReplayShows (judged text.now) trace.now) }
    ensures fault { Keeps result (judged text.now) assembled.old assembled.new }
    ensures program { IfOk result (λ _. KeepsProgram (judged text.now) assembled.new) }
{
    let program = program_of(alloc, text, assembled)?;
    let events = events_of(alloc, trace)?;
    let verified = verified_of(alloc, program)?;
    let output = run(alloc, &verified, events.as_slice())?;
    *assembled = Assembled::Program(verified.into_program());
    Ok(output)
}
