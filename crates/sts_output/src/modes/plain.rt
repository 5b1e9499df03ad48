//! Mode `plain`: prints the state of the plain machine, after the events of a trace.

ghost use Rattle.std.specs.Prelude.{◌≡◌, IfOk};
ghost use Rattle.sts_asm.specs.Text.{judged};
ghost use Rattle.sts_output.specs.Kept.{KeepsProgram};
ghost use Rattle.sts_output.specs.Output as def;
ghost use Rattle.sts_output.specs.Stops.{Keeps, Prints};

use crate::assembled::Assembled;
use crate::output;
use crate::output::Output;
use crate::stopped::{Stopped, events_of, program_of};
use std::alloc::{AllocError, Global};
use sts_code::Program;
use sts_model::Event;
use sts_plain::Plain;

/// Runs the events on the plain machine.
fn run(alloc: Global, program: &Program, events: &[Event]) -> Result<Output, AllocError>
    ensures { IfOk result (λ o. o ≡ def.run_output program.now events.now) }
{
    let mut plain = Plain::start(alloc, program)?;
    plain.apply_all(alloc, events)?;
    output::state_output(alloc, program, plain.state(), plain.steps())
}

/// Assembles the text and runs the trace on the plain machine. `assembled` gets the program, or the
/// fault of the text.
///
/// # Errors
///
/// The text or the trace has a fault, or memory ran out.
pub fn after_trace(
    alloc: Global,
    text: &[u8],
    trace: &[u8],
    assembled: &mut Assembled,
) -> Result<Output, Stopped>
    ensures output { Prints result (λ o. o ≡ def.plain_output (judged text.now) trace.now) }
    ensures fault { Keeps result (judged text.now) assembled.old assembled.new }
    ensures program { IfOk result (λ _. KeepsProgram (judged text.now) assembled.new) }
{
    let program = program_of(alloc, text, assembled)?;
    let events = events_of(alloc, trace)?;
    let output = run(alloc, &program, events.as_slice())?;
    *assembled = Assembled::Program(program);
    Ok(output)
}
