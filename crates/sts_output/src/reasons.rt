//! Lines for standard error that say where a text has its fault.

ghost use Rattle.std.specs.Prelude.{◌≡◌, ◌≢◌, ◌++◌, IfOk, OnOk, Some, None, option_map, Ok};
ghost use Rattle.sts_asm.specs.declared.fault.AsmKind.TheVariants.{Memory};
ghost use Rattle.std.specs.Option.{option_copied};
ghost use Rattle.sts_asm.specs.Source.{outlined as outlined_of};
ghost use Rattle.sts_trace.specs.Reading.{outside_read, trace_read};
ghost use Rattle.sts_output.specs.Reasons as def;

use crate::shown::{line_at, say_shown};
use std::alloc::{AllocError, Global};
use sts_asm::{AsmError, AsmKind, Outline, outlined};
use sts_code::{CodeCause, CodeError};
use sts_trace::{TraceError, read_outside, read_trace};

/// A text that was read, and the name that a person knows it by.
#[derive(Clone, Copy)]
pub struct Named<'a> {
    pub name: &'a str,
    pub text: &'a [u8],
}

impl<'a> Named<'a> {
    /// Returns the text of this name.
    pub fn new(name: &'a str, text: &'a [u8]) -> Named<'a>
        ensures name { result.name ≡ name.entry }
        ensures text { result.text ≡ text.entry }
    {
        Named { name, text }
    }
}

/// The bytes of a line that are shown.
const SHOWN: usize = 100;

pub(crate) fn say(out: &mut Vec<u8>, text: &str) -> Result<(), AllocError>
    ensures { OnOk result (out.new.items ≡ out.old.items ++ text.now) }
{
    out.extend_from_slice(text.as_bytes())
}

/// Appends the bytes of a line, at most the first hundred.
fn say_line(out: &mut Vec<u8>, line: Option<&[u8]>) -> Result<(), AllocError>
    ensures { OnOk result (out.new.items ≡ out.old.items
        ++ def.shown_line (option_copied line.entry)) }
{
    match line {
        Some(line) => say_shown(out, &line[..SHOWN.min(line.len())]),
        None => Ok(()),
    }
}

/// Appends the number of a line and its bytes; nothing if the number is 0.
fn say_place(alloc: Global, out: &mut Vec<u8>, text: &[u8], number: u64) -> Result<(), AllocError>
    ensures { OnOk result (out.new.items ≡ out.old.items ++ def.place text.now number) }
{
    if number == 0 {
        return Ok(());
    }
    let head = format!(in alloc; ", line {number}: \"")?;
    say(out, head.as_str())?;
    say_line(out, line_at(text, number))?;
    say(out, "\"")
}

/// Returns the number of the line of an instruction of an outline, or 0 if there is none.
fn line_in(outline: &Outline, code: CodeError) -> u32
    ensures { result ≡ def.code_line (Ok outline.now) code }
{
    match outline.sentence(code.function, code.pc) {
        Some(sentence) => sentence.line(),
        None => 0,
    }
}

/// Returns the number of the line of an instruction, or 0 if there is none.
fn code_line(alloc: Global, text: &[u8], code: CodeError) -> Result<u32, AllocError>
    ensures { IfOk result (λ n. n ≡ def.code_line (outlined_of text.now) code) }
{
    match outlined(alloc, text) {
        Ok(outline) => Ok(line_in(&outline, code)),
        Err(error) => {
            if matches!(error.kind, AsmKind::Memory) {
                return Err(AllocError);
            }
            Ok(0)
        }
    }
}

/// Returns the number of the line of a fault of a text, or 0 if it has none.
fn fault_line(alloc: Global, text: &[u8], error: AsmError) -> Result<u32, AllocError>
    ensures { IfOk result (λ n. n ≡ def.fault_line text.now error) }
{
    match error.kind {
        AsmKind::Code(code) => code_line(alloc, text, code),
        _ => Ok(error.line),
    }
}

/// Returns a line for standard error; what is wrong follows the name of the text.
fn line_of(
    alloc: Global,
    program: &str,
    name: &str,
    place: &[u8],
    hint: &str,
) -> Result<Vec<u8>, AllocError>
    ensures { IfOk result (λ line. line.items
        ≡ def.reason_line program.now name.now place.now hint.now) }
{
    let mut line = Vec::new(alloc);
    say(&mut line, program)?;
    say(&mut line, ": ")?;
    say(&mut line, name)?;
    line.extend_from_slice(place)?;
    say(&mut line, hint)?;
    say(&mut line, "\n")?;
    Ok(line)
}

/// Returns what is wrong, if a check fails that no line shows.
fn check_words(cause: CodeCause) -> &'static str
    ensures { result.now ≡ def.check_words cause }
{
    match cause {
        CodeCause::NoMain => ": the text must end with a function main 0, without needs",
        CodeCause::TooManyFunctions => ": the text has more than 64 functions",
        _ => "",
    }
}

/// Returns what is wrong, if no line shows it.
fn fault_words(kind: AsmKind) -> &'static str
    ensures { result.now ≡ def.fault_words kind }
{
    match kind {
        AsmKind::TextTooLong => ": the text has more than 1048576 bytes",
        AsmKind::Code(code) => check_words(code.cause),
        _ => "",
    }
}

/// Returns the line about a fault of the text of a program.
fn fault_reason(
    alloc: Global,
    program: &str,
    named: Named<'_>,
    error: AsmError,
) -> Result<Vec<u8>, AllocError>
    ensures { IfOk result (λ line. line.items
        ≡ def.fault_reason program.now named.entry.name.now named.entry.text.now error) }
{
    let number = fault_line(alloc, named.text, error)?;
    let mut place = Vec::new(alloc);
    say_place(alloc, &mut place, named.text, u64::from(number))?;
    say(&mut place, fault_words(error.kind))?;
    let hint = "; ./look explain FILE says more";
    line_of(alloc, program, named.name, place.as_slice(), hint)
}

/// Returns the line that says where the text of a program has this fault. The line begins with the
/// name of `program`.
///
/// # Errors
///
/// Memory ran out, which is no fault of the text.
pub fn text_reason(
    alloc: Global,
    program: &str,
    named: Named<'_>,
    error: AsmError,
) -> Result<Vec<u8>, AllocError>
    ensures { IfOk result (λ line. (error.kind ≢ Memory) × (line.items
        ≡ def.fault_reason program.now named.entry.name.now named.entry.text.now error)) }
{
    if matches!(error.kind, AsmKind::Memory) {
        return Err(AllocError);
    }
    fault_reason(alloc, program, named, error)
}

/// Returns what is often wrong with a line: it ends as on Windows, or it is short for several lines.
fn line_words(line: &[u8]) -> &'static str
    ensures { result.now ≡ def.line_words line.now }
{
    if line.ends_with(b"\r".as_slice()) {
        ": a carriage return comes before its newline"
    } else if line.contains(&b'*') {
        ": checks/write_trace.py writes short traces in full"
    } else {
        ""
    }
}

fn say_line_words(out: &mut Vec<u8>, line: Option<&[u8]>) -> Result<(), AllocError>
    ensures { OnOk result (out.new.items ≡ out.old.items
        ++ def.maybe_line_words (option_copied line.entry)) }
{
    match line {
        Some(line) => say(out, line_words(line)),
        None => Ok(()),
    }
}

/// Appends the number of a line, its bytes, and what is often wrong with such a line.
fn say_line_place(
    alloc: Global,
    out: &mut Vec<u8>,
    text: &[u8],
    number: u64,
) -> Result<(), AllocError>
    ensures { OnOk result (out.new.items ≡ out.old.items ++ def.line_place text.now number) }
{
    say_place(alloc, out, text, number)?;
    say_line_words(out, line_at(text, number))
}

/// Appends where a trace or an outside text has its fault.
fn say_events_place(
    alloc: Global,
    out: &mut Vec<u8>,
    text: &[u8],
    error: TraceError,
) -> Result<(), AllocError>
    ensures { OnOk result (out.new.items ≡ out.old.items ++ def.events_place text.now error) }
{
    match error {
        TraceError::BadLine(n) | TraceError::BadNumber(n) => say_line_place(alloc, out, text, n),
        TraceError::NoNewline => say(out, ": no newline ends its last line"),
        TraceError::Memory => Ok(()),
    }
}

/// Returns the line about a fault of a trace or an outside text.
fn events_line(
    alloc: Global,
    program: &str,
    named: Named<'_>,
    error: TraceError,
    hint: &str,
) -> Result<Vec<u8>, AllocError>
    ensures { IfOk result (λ line. line.items
        ≡ def.events_line program.now named.entry.name.now named.entry.text.now error hint.now) }
{
    let mut place = Vec::new(alloc);
    say_events_place(alloc, &mut place, named.text, error)?;
    line_of(alloc, program, named.name, place.as_slice(), hint)
}

/// Returns the line that says where a trace has its fault, or `None` if it has none.
///
/// # Errors
///
/// Memory ran out.
pub fn trace_reason(
    alloc: Global,
    program: &str,
    named: Named<'_>,
) -> Result<Option<Vec<u8>>, AllocError>
    ensures { IfOk result (λ r. option_map (λ line. line.items) r
        ≡ def.trace_reason program.now named.entry.name.now named.entry.text.now
        (trace_read named.entry.text.now)) }
{
    match read_trace(alloc, named.text) {
        Ok(_) => Ok(None),
        Err(TraceError::Memory) => Err(AllocError),
        Err(error) => {
            let hint = "; ./look explain FILE TRACE says more";
            Ok(Some(events_line(alloc, program, named, error, hint)?))
        }
    }
}

/// Returns the line that says where an outside text has its fault, or `None` if it has none.
///
/// # Errors
///
/// Memory ran out.
pub fn outside_reason(
    alloc: Global,
    program: &str,
    named: Named<'_>,
) -> Result<Option<Vec<u8>>, AllocError>
    ensures { IfOk result (λ r. option_map (λ line. line.items) r
        ≡ def.outside_reason program.now named.entry.name.now named.entry.text.now
        (outside_read named.entry.text.now)) }
{
    match read_outside(alloc, named.text) {
        Ok(_) => Ok(None),
        Err(TraceError::Memory) => Err(AllocError),
        Err(error) => {
            let hint = "; docs/LANGUAGE.md#outside-events says more";
            Ok(Some(events_line(alloc, program, named, error, hint)?))
        }
    }
}
