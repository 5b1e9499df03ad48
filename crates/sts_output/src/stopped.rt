//! Why a mode or an explanation goes no further, and the steps that modes share.

ghost use Rattle.std.specs.Prelude.{◌≡◌, IfOk, Ok};
ghost use Rattle.sts_asm.specs.Text.{judged};
ghost use Rattle.sts_trace.specs.Reading.{trace_read};
ghost use Rattle.sts_output.specs.Output.{Output as AnyOutput, Writes};
ghost use Rattle.sts_output.specs.Stops as def;

use crate::assembled::Assembled;
use crate::output::{Output, text_fault, trace_fault};
use crate::taking::TakeError;
use crate::writing::{Status, failed, written};
use std::alloc::{AllocError, Global};
use std::io::Write;
use sts_asm::assemble;
use sts_code::Program;
use sts_model::Event;
use sts_trace::read_trace;

/// Why a mode or an explanation goes no further.
#[derive(Drop)]
pub enum Stopped {
    /// This output says why: a fault of a text or a trace, or a refusal.
    Shown(Output),
    /// Memory ran out.
    Memory,
}

impl From<AllocError> for Stopped {
    ghost use Rattle.std.specs.Prelude.{◌≡◌};
    ghost use Rattle.sts_output.specs.declared.stopped.Stopped.TheVariants.{Memory};

    ghost from_gives = { λ _ e. e ≡ Memory };

    fn from(_error: AllocError) -> Stopped {
        Stopped::Memory
    }
}

/// Returns the program that a text spells. `assembled` gets the fault, if the text has one.
///
/// # Errors
///
/// The text has a fault, or memory ran out.
pub fn program_of(alloc: Global, text: &[u8], assembled: &mut Assembled) -> Result<Program, Stopped>
    ensures program { def.Gives result (λ p. judged text.now ≡ Ok p)
        (def.IsTextFault (judged text.now)) }
    ensures fault { def.Keeps result (judged text.now) assembled.old assembled.new }
{
    match assemble(alloc, text) {
        Ok(program) => Ok(program),
        Err(error) => {
            let output = text_fault(alloc, error)?;
            *assembled = Assembled::Fault(error);
            Err(Stopped::Shown(output))
        }
    }
}

/// Returns the events of a trace.
///
/// # Errors
///
/// The trace has a fault, or memory ran out.
pub fn events_of(alloc: Global, trace: &[u8]) -> Result<Vec<Event>, Stopped>
    ensures { def.Gives result (λ events. trace_read trace.now ≡ Ok events.items)
        (def.IsTraceFault (trace_read trace.now)) }
{
    match read_trace(alloc, trace) {
        Ok(events) => Ok(events),
        Err(error) => Err(Stopped::Shown(trace_fault(alloc, error)?)),
    }
}

/// Writes the output of a mode, or the output that says why it went no further, and returns the
/// status.
///
/// # Errors
///
/// A write failed.
pub fn write_shown<W: Write>(output: Result<Output, Stopped>, out: &mut W) -> Status
    ensures { IfOk result (λ s. (o : AnyOutput) × def.IsShown output o
        × Writes (W.contents out.old) (W.contents out.new) s o) }
{
    match output {
        Ok(output) => written(out, output.bytes.as_slice(), output.status),
        Err(Stopped::Shown(output)) => written(out, output.bytes.as_slice(), output.status),
        Err(Stopped::Memory) => failed(TakeError::Memory, out),
    }
}
