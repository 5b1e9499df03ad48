//! What is wrong with a text, as lines of JSON.

ghost use Rattle.std.specs.Prelude.{◌≡◌, ◌≢◌, ◌++◌, IfErr, IfOk, OnOk, Ok, Err, false};
ghost use Rattle.std.specs.String.{string_bytes};
ghost use Rattle.serde_json.specs.View.{view};
ghost use Rattle.serde_json.specs.Written.{has_float};
ghost use Rattle.sts_asm.specs.Source.{outline_or_empty, outlined};
ghost use Rattle.sts_asm.specs.Text.{judged as judged_text};
ghost use Rattle.sts_asm.specs.declared.fault.AsmKind.TheVariants.{Memory};
ghost use Rattle.sts_output.specs.Output as cli;
ghost use Rattle.sts_output.specs.Stops.{IsReported, program_in};
ghost use Rattle.sts_text.specs.Words.{lines};
ghost use Rattle.look_views.specs.Views.{line};
ghost use Rattle.look_json.specs.Explained as def;

use crate::lines::text_of;
use look_cases::{Case, Made, answer_faulty, answer_judged};
use look_lines::Said;
use look_refusal::{text_fault, verdict};
use look_views::{VERSION, push_line, push_made};
use serde_json::{Value, json};
use std::alloc::{AllocError, Global};
use std::io::Write;
use sts_asm::{AsmError, Outline, Source, read};
use sts_output::{Output, Refusal, Status, TakeError, failed, judge, written};
use sts_text::cut_at_newline;
use sts_verify::Verified;

fn said(alloc: Global, words: &[u8]) -> Made
    ensures { IfOk result (λ v. view v ≡ def.said words.now) }
{
    let words = text_of(words)?;
    json!(in alloc; {"says": words, "version": VERSION})
}

fn say_filled(alloc: Global, out: &mut String, words: &[u8]) -> Said
    ensures { OnOk result (string_bytes out.new
        ≡ string_bytes out.old ++ line (def.said words.now)) }
{
    let value = said(alloc, words);
    push_made(alloc, out, value)
}

fn say_said(alloc: Global, out: &mut String, words: &[u8]) -> Said
    ensures { OnOk result (string_bytes out.new ≡ string_bytes out.old ++ def.said_line words.now) }
{
    if words.is_empty() {
        Ok(())
    } else {
        say_filled(alloc, out, words)
    }
}

fn say_each(alloc: Global, out: &mut String, words: &[u8]) -> Said
    ensures { OnOk result (string_bytes out.new
        ≡ string_bytes out.old ++ def.each_said (lines words.now)) }
{
    let mut rest = words;
    while let Some((one, after)) = cut_at_newline(rest) {
        say_said(alloc, out, one)?;
        rest = after;
    }
    say_said(alloc, out, rest)
}

/// The lines of an explanation, without the first.
fn say_explained(alloc: Global, out: &mut String, words: &[u8]) -> Said
    ensures { OnOk result (string_bytes out.new
        ≡ string_bytes out.old ++ def.said_lines (lines words.now)) }
{
    match cut_at_newline(words) {
        None => Ok(()),
        Some((_, rest)) => say_each(alloc, out, rest),
    }
}

/// These lines, with the status of an output.
pub(crate) fn with_status(text: String, told: &Output) -> Output
    ensures { result ≡ record { bytes = string_bytes text; status = told.now.status } }
{
    Output::of(text, told.status)
}

/// The line of an answer, which has no floats, and the lines of an explanation.
fn said_by(alloc: Global, answer: &Value, told: &Output) -> Result<String, AllocError>
    ensures { has_float (view answer.now) ≡ false → IfOk result (λ s. string_bytes s
        ≡ line (view answer.now) ++ def.said_lines (lines told.now.bytes)) }
{
    let mut out = String::new(alloc);
    push_line(alloc, &mut out, answer)?;
    say_explained(alloc, &mut out, told.bytes.as_slice())?;
    Ok(out)
}

/// The answer, and the lines of the explanation, of a program that was judged.
fn of_judged(
    alloc: Global,
    outline: &Outline<'_>,
    judged: &Result<Verified, Refusal>,
    text: &[u8],
) -> Result<Output, AllocError>
    requires outline { outline.now ≡ outline_or_empty (outlined text.now) }
    requires program { judged_text text.now ≡ Ok (program_in judged.now) }
    requires refusal { IfErr judged.now IsReported }
    ensures { IfOk result (λ o. def.IsExplained text.now o) }
{
    let value = answer_judged(alloc, 1, Case { text, trace: None }, judged)?;
    let told = verdict(alloc, outline, judged)?;
    let said = said_by(alloc, &value, &told)?;
    Ok(with_status(said, &told))
}

/// The answer, and the lines of the explanation, of a text with this fault.
fn of_fault(alloc: Global, text: &[u8], error: AsmError) -> Result<Output, AllocError>
    requires fault { error.kind ≢ Memory }
    requires text { judged_text text.now ≡ Err error }
    ensures { IfOk result (λ o. def.IsExplained text.now o) }
{
    let value = answer_faulty(alloc, 1, Case { text, trace: None }, error)?;
    let told = text_fault(alloc, error, text)?;
    let said = said_by(alloc, &value, &told)?;
    Ok(with_status(said, &told))
}

fn said_of(alloc: Global, text: &[u8]) -> Result<Output, AllocError>
    ensures { IfOk result (λ o. def.IsExplained text.now o) }
{
    let Source { outline, program } = read(alloc, text)?;
    match program {
        Ok(program) => of_judged(alloc, &outline, &judge(alloc, program)?, text),
        Err(error) => of_fault(alloc, text, error),
    }
}

/// Writes what is wrong with a text, if anything is, as lines of JSON, and gives the status that
/// `explain` gives.
///
/// It takes all its memory before the first byte is written.
///
/// # Errors
///
/// A write failed.
pub fn write_explained<W: Write>(alloc: Global, text: &[u8], out: &mut W) -> Status
    ensures { IfOk result (λ s. (o : cli.Output) × def.IsExplainedBy text.now o
        × cli.Writes (W.contents out.old) (W.contents out.new) s o) }
{
    match said_of(alloc, text) {
        Ok(output) => written(out, output.bytes.as_slice(), output.status),
        Err(_) => failed(TakeError::Memory, out),
    }
}
