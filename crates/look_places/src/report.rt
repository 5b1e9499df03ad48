//! Reports what is wrong with a text, if anything is, by its lines.

ghost use Rattle.std.specs.Prelude.{◌≡◌, IfOk, Ok};
ghost use Rattle.sts_asm.specs.Text.{judged};
ghost use Rattle.sts_output.specs.Output as cli;
ghost use Rattle.sts_output.specs.Stops.{Prints};
ghost use Rattle.sts_rules.specs.Refusal.{IsRefusal};
ghost use Rattle.sts_text.specs.Words.{lines};
ghost use Rattle.look_text.specs.Lines.{fault_lines as lines_of_fault};
ghost use Rattle.look_places.specs.Faults.{code, refusal_code};
ghost use Rattle.look_places.specs.Marks.{line_of};
ghost use Rattle.look_places.specs.Reports as def;

use crate::faults::{Finding, Problem, fault_line};
use crate::marks::Source;
use look_accepted::all_notes;
use look_names::Names;
use look_refusal::refused as explained;
use look_text::fault_lines;
use std::alloc::{AllocError, Global};
use std::io::Write;
use sts_asm::{AsmError, read};
use sts_code::Program;
use sts_output::{Output, Refusal, Status, Stopped, judge, write_shown};
use sts_verify::Verified;

/// The lines of a problem whose explanation is known.
fn problem_lines(
    alloc: Global,
    source: &Source<'_, '_>,
    found: Finding,
    explained: &[u8],
) -> Result<Vec<u8>, AllocError>
    ensures { IfOk result (λ b. b.items
        ≡ def.reported source.now found.line (code found.problem) (lines explained.now)) }
{
    let mut bytes = Vec::new(alloc);
    source.say_reported(alloc, &mut bytes, found, explained)?;
    Ok(bytes)
}

/// The explanation of a fault.
fn fault_words(alloc: Global, error: AsmError, text: &[u8]) -> Result<Vec<u8>, AllocError>
    ensures { IfOk result (λ b. b.items ≡ lines_of_fault error text.now) }
{
    let mut words = Vec::new(alloc);
    fault_lines(alloc, &mut words, error, text)?;
    Ok(words)
}

/// The lines of a fault.
fn fault_report(
    alloc: Global,
    source: &Source<'_, '_>,
    error: AsmError,
) -> Result<Vec<u8>, AllocError>
    ensures { IfOk result (λ b. b.items ≡ def.fault_bytes source.now error) }
{
    let line = fault_line(alloc, source, error)?;
    let problem = Problem::Fault(error.kind);
    let words = fault_words(alloc, error, source.text())?;
    problem_lines(alloc, source, Finding { line, problem }, words.as_slice())
}

/// The report of a fault of a text.
fn faulty(alloc: Global, source: &Source<'_, '_>, error: AsmError) -> Result<Output, AllocError>
    ensures { IfOk result (λ o. o ≡ def.fault_report source.now error) }
{
    let bytes = fault_report(alloc, source, error)?;
    Ok(Output { bytes, status: 3 })
}

/// The lines of an explanation of a refusal.
fn refusal_lines(
    alloc: Global,
    source: &Source<'_, '_>,
    refusal: &Refusal,
    told: &Output,
) -> Result<Vec<u8>, AllocError>
    ensures { IfOk result (λ b. b.items ≡ def.reported source.now
        (line_of source.now refusal.now.function refusal.now.pc) (refusal_code refusal.now.cause)
        (lines told.now.bytes)) }
{
    let line = source.line_of(refusal.function, refusal.pc);
    let problem = Problem::Refusal(refusal.cause);
    problem_lines(
        alloc,
        source,
        Finding { line, problem },
        told.bytes.as_slice(),
    )
}

/// The report of a refusal: the lines of its explanation, and the notes on two ways that meet.
fn refused(alloc: Global, source: &Source<'_, '_>, refusal: &Refusal) -> Result<Output, AllocError>
    requires refusal { IsRefusal refusal.now.program refusal.now.function refusal.now.pc
        refusal.now.cause }
    requires program { judged source.now.text ≡ Ok refusal.now.program }
    ensures { IfOk result (λ o. def.IsRefused source.now refusal.now.program o) }
{
    let told = explained(alloc, source.outline(), refusal)?;
    let mut bytes = refusal_lines(alloc, source, refusal, &told)?;
    source.say_ways(alloc, &mut bytes, refusal)?;
    Ok(Output { bytes, status: 4 })
}

/// The report on an accepted program.
fn accepted(
    alloc: Global,
    source: &Source<'_, '_>,
    verified: &Verified,
) -> Result<Output, AllocError>
    ensures { IfOk result (λ o. def.IsVerdict source.now verified.now o) }
{
    let notes = all_notes(alloc, verified)?;
    let mut bytes = Vec::new(alloc);
    source.say_rules(alloc, &mut bytes, verified.program(), notes.as_slice())?;
    Ok(Output { bytes, status: 0 })
}

fn verdict(alloc: Global, source: &Source<'_, '_>, program: Program) -> Result<Output, AllocError>
    requires { judged source.now.text ≡ Ok program }
    ensures { IfOk result (λ o. def.IsVerdict source.now program o) }
{
    match judge(alloc, program)? {
        Ok(verified) => accepted(alloc, source, &verified),
        Err(refusal) => refused(alloc, source, &refusal),
    }
}

fn reported(
    alloc: Global,
    source: &Source<'_, '_>,
    read: Result<Program, AsmError>,
) -> Result<Output, AllocError>
    requires { read ≡ judged source.now.text }
    ensures { IfOk result (λ o. def.Reports source.now read o) }
{
    match read {
        Ok(program) => verdict(alloc, source, program),
        Err(error) => faulty(alloc, source, error),
    }
}

fn report(alloc: Global, file: &str, text: &[u8]) -> Result<Output, Stopped>
    ensures { Prints result (def.Reports (record { file = file.now; text = text.now })
        (judged text.now)) }
{
    let sts_asm::Source { outline, program } = read(alloc, text)?;
    let names = Names::new(alloc, text, outline)?;
    let source = Source::new(file, text, &names);
    Ok(reported(alloc, &source, program)?)
}

/// Writes what is wrong with the text of a file, if anything is, in lines that editors jump by, and
/// gives the status that `sts verify` gives.
///
/// It takes all its memory before the first byte is written.
///
/// # Errors
///
/// A write failed.
pub fn write_places<W: Write>(alloc: Global, file: &str, text: &[u8], out: &mut W) -> Status
    ensures { IfOk result (λ s. (o : cli.Output)
        × def.IsReport (record { file = file.now; text = text.now }) o
        × cli.Writes (W.contents out.old) (W.contents out.new) s o) }
{
    write_shown(report(alloc, file, text), out)
}
