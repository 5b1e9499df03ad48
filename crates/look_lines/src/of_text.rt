//! What is shown of a text and a trace, in any form.

ghost use Rattle.std.specs.Prelude.{◌≡◌, IfOk};
ghost use Rattle.sts_asm.specs.Text.{judged};
ghost use Rattle.sts_trace.specs.Reading.{trace_read};
ghost use Rattle.sts_output.specs.Output.{Output as AnyOutput, Writes};
ghost use Rattle.sts_output.specs.Kept.{KeepsFault};
ghost use Rattle.sts_output.specs.Stops.{Keeps, Prints};
ghost use Rattle.sts_output.specs.declared.assembled.Assembled.TheVariants.{Program as Kept};
ghost use Rattle.look_lines.specs.Form as def;

use crate::form::{Form, Run};
use std::alloc::{AllocError, Global};
use std::io::Write;
use sts_asm::{Source, read};
use sts_code::Program;
use sts_output::{Assembled, Output, Status, Stopped, write_shown};
use sts_trace::read_trace;

/// Reads the trace, and returns what is shown of the run of the program.
fn traced<F: Form>(
    alloc: Global,
    form: &F,
    program: &Program,
    trace: &[u8],
) -> Result<Output, AllocError>
    ensures { IfOk result (λ o. o
        ≡ def.traced_output (F.shows form.now) program.now (trace_read trace.now)) }
{
    match read_trace(alloc, trace) {
        Ok(events) => form.of_run(
            alloc,
            Run {
                program,
                events: events.as_slice(),
            },
        ),
        Err(error) => form.of_trace_fault(alloc, error),
    }
}

/// Reads the trace, and returns what is shown of the run of the program, or of the fault of the
/// trace. `assembled` gets the program.
///
/// # Errors
///
/// Memory ran out.
pub fn shown<F: Form>(
    alloc: Global,
    form: &F,
    program: Program,
    trace: &[u8],
    assembled: &mut Assembled,
) -> Result<Output, AllocError>
    ensures shown { IfOk result (λ o. o
        ≡ def.traced_output (F.shows form.now) program (trace_read trace.now)) }
    ensures program { IfOk result (λ _. assembled.new ≡ Kept program) }
{
    let shown = traced(alloc, form, &program, trace)?;
    *assembled = Assembled::Program(program);
    Ok(shown)
}

fn shown_of_text<F: Form>(
    alloc: Global,
    form: &F,
    text: &[u8],
    trace: &[u8],
    assembled: &mut Assembled,
) -> Result<Output, Stopped>
    ensures output { Prints result (λ o. o
        ≡ def.text_output (F.shows form.now) (judged text.now) trace.now) }
    ensures fault { Keeps result (judged text.now) assembled.old assembled.new }
{
    let Source { program, .. } = read(alloc, text)?;
    match program {
        Ok(program) => Ok(shown(alloc, form, program, trace, assembled)?),
        Err(error) => {
            let shown = form.of_text_fault(alloc, error)?;
            *assembled = Assembled::Fault(error);
            Ok(shown)
        }
    }
}

/// Writes what is shown of a text and a trace, in a form without names, and returns the status.
/// `assembled` gets the program, or the fault of the text.
///
/// It takes all its memory before the first byte is written.
///
/// # Errors
///
/// A write failed.
pub fn write_run<F: Form, W: Write>(
    alloc: Global,
    form: &F,
    text: &[u8],
    trace: &[u8],
    out: &mut W,
    assembled: &mut Assembled,
) -> Status
    ensures output { IfOk result (λ s. (o : AnyOutput)
        × def.IsShownOf (F.shows form.now) text.now trace.now o
        × Writes (W.contents out.old) (W.contents out.new) s o) }
    ensures fault { IfOk result (λ s. s ≡ 3
        → KeepsFault (judged text.now) assembled.old assembled.new) }
{
    write_shown(shown_of_text(alloc, form, text, trace, assembled), out)
}
