//! The lines of a fault of a trace.

ghost use Rattle.std.specs.Prelude.{◌≡◌, ◌≢◌, ◌++◌, IfOk, OnOk, length};
ghost use Rattle.std.specs.Option.{option_copied};
ghost use Rattle.sts_text.specs.Words.{lines};
ghost use Rattle.sts_trace.specs.declared.error.TraceError.TheVariants.{Memory};
ghost use Rattle.look_run.specs.Lines as def;
ghost use Rattle.look_run.specs.Output.{trace_fault_output};

use crate::sentences::trace_sentence;
use look_names::Said;
use look_refusal::Made;
use look_text::say;
use std::alloc::{AllocError, Global};
use sts_output::{Output, line_at, say_shown};
use sts_trace::TraceError;

/// The number of lines of a text. The last line comes after the last newline.
fn line_count(text: &[u8]) -> usize
    ensures { result ≡ length (lines text.now) }
{
    text.split(|b| *b == b'\n').count()
}

fn trace_number(error: TraceError) -> u8
    ensures { result ≡ def.trace_number error }
{
    match error {
        TraceError::BadLine(_) => 1,
        TraceError::BadNumber(_) => 2,
        TraceError::NoNewline => 3,
        TraceError::Memory => 4,
    }
}

/// The number of the line that a fault is of.
fn line_number(text: &[u8], error: TraceError) -> u64
    ensures { result ≡ def.line_number text.now error }
{
    match error {
        TraceError::BadLine(n) | TraceError::BadNumber(n) => n,
        TraceError::NoNewline => line_count(text) as u64,
        TraceError::Memory => 0,
    }
}

/// The bytes of a line, as they are shown.
fn say_line(out: &mut Vec<u8>, line: Option<&[u8]>) -> Said
    ensures { OnOk result (out.new.items ≡ out.old.items
        ++ def.shown_line (option_copied line.entry)) }
{
    match line {
        None => Ok(()),
        Some(line) => say_shown(out, line),
    }
}

/// The lines of a fault of a trace: where it is, the line itself, and what is wrong.
fn say_fault(alloc: Global, out: &mut Vec<u8>, text: &[u8], error: TraceError) -> Said
    ensures { OnOk result (out.new.items ≡ out.old.items ++ def.trace_fault_lines text.now error) }
{
    let number = trace_number(error);
    let line = line_number(text, error);
    let head = format!(in alloc; "error T{number}, line {line}: \"")?;
    say(out, head.as_str())?;
    say_line(out, line_at(text, line))?;
    say(out, "\"\n")?;
    say(out, trace_sentence(error))?;
    say(out, "\n")
}

/// The output for a fault of a trace. Running out of memory is no fault of it.
///
/// # Errors
///
/// Memory ran out.
pub fn trace_fault(alloc: Global, text: &[u8], error: TraceError) -> Made
    ensures { IfOk result (λ o. (error ≢ Memory) × (o ≡ trace_fault_output text.now error)) }
{
    if matches!(error, TraceError::Memory) {
        return Err(AllocError);
    }
    let mut bytes = Vec::new(alloc);
    say_fault(alloc, &mut bytes, text, error)?;
    Ok(Output { bytes, status: 3 })
}
