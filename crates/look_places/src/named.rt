//! An explanation with the names of the lines that it mentions.

ghost use Rattle.std.specs.Prelude.{◌≡◌, ◌++◌, IfOk, OnOk, false};
ghost use Rattle.std.specs.List.{before_first, position};
ghost use Rattle.sts_output.specs.Output as cli;
ghost use Rattle.sts_output.specs.Stops.{Prints};
ghost use Rattle.sts_text.specs.Words.{lines};
ghost use Rattle.look_names.specs.Names.{outline_of};
ghost use Rattle.look_places.specs.Named as def;

use look_names::{Names, Said};
use look_refusal::explained_by;
use look_text::say;
use std::alloc::{AllocError, Global};
use std::io::Write;
use sts_asm::{Outline, Source, read};
use sts_output::{Output, Status, Stopped, write_shown};
use sts_text::{Words, cut_at_newline, digits_up_to};

/// The status for a fault of a text.
const FAULTY: u8 = 3;

fn is_other(b: u8) -> bool
    ensures { result ≡ def.is_other b }
{
    !b.is_ascii_digit()
}

fn other_in(word: &[u8]) -> Option<usize>
    ensures { result ≡ position def.is_other word.now }
{
    word.iter().position(|b| is_other(*b))
}

/// The digits that a word begins with.
#[tactic(auto, using(sts_text::proofs::WordLemmas::positions))]
fn digits_in(word: &[u8]) -> &[u8]
    ensures { result.now ≡ before_first def.is_other word.now }
{
    match other_in(word) {
        Some(end) => &word[..end],
        None => word,
    }
}

fn number_in(word: &[u8]) -> Option<u32>
    ensures { result ≡ def.number_in word.now }
{
    digits_up_to(digits_in(word), u32::MAX)
}

/// ` (NAME)`, if the line of the number that a word begins with has a name.
fn say_name(out: &mut Vec<u8>, names: &Names<'_>, word: &[u8]) -> Said
    ensures { OnOk result (out.new.items ≡ out.old.items ++ def.name_by names.now word.now) }
{
    let Some(line) = number_in(word) else {
        return Ok(());
    };
    let Some(name) = names.line(line) else {
        return Ok(());
    };
    say(out, " (")?;
    say(out, name)?;
    say(out, ")")
}

fn say_name_if(out: &mut Vec<u8>, names: &Names<'_>, is_number: bool, word: &[u8]) -> Said
    ensures { OnOk result (out.new.items
        ≡ out.old.items ++ def.name_if names.now is_number word.now) }
{
    if is_number {
        say_name(out, names, word)
    } else {
        Ok(())
    }
}

/// Appends the names of the lines that these words mention.
fn say_names<'a>(out: &mut Vec<u8>, names: &Names<'_>, words: Words<'a>) -> Said
    ensures { OnOk result (out.new.items
        ≡ out.old.items ++ def.names_in names.now false words.entry) }
{
    let mut left = words;
    let mut is_number = false;
    while let Some(word) = left.word() {
        say_name_if(out, names, is_number, word)?;
        is_number = word == b"line".as_slice();
    }
    Ok(())
}

fn say_line(out: &mut Vec<u8>, names: &Names<'_>, line: &[u8]) -> Said
    ensures { OnOk result (out.new.items ≡ out.old.items ++ def.named_line names.now line.now) }
{
    out.extend_from_slice(line)?;
    say_names(out, names, Words::new(line))?;
    say(out, "\n")
}

fn say_line_if(out: &mut Vec<u8>, names: &Names<'_>, line: &[u8]) -> Said
    ensures { OnOk result (out.new.items ≡ out.old.items ++ def.named_if names.now line.now) }
{
    if line.is_empty() {
        Ok(())
    } else {
        say_line(out, names, line)
    }
}

/// Appends lines, each with the names of the lines that it mentions.
fn say_lines(out: &mut Vec<u8>, names: &Names<'_>, told: &[u8]) -> Said
    ensures { OnOk result (out.new.items
        ≡ out.old.items ++ def.named_lines names.now (lines told.now)) }
{
    let mut rest = told;
    while let Some((line, after)) = cut_at_newline(rest) {
        say_line_if(out, names, line)?;
        rest = after;
    }
    say_line_if(out, names, rest)
}

/// The lines of an explanation with names.
fn with_names(alloc: Global, names: &Names<'_>, told: &[u8]) -> Result<Vec<u8>, AllocError>
    ensures { IfOk result (λ b. b.items ≡ def.named_lines names.now (lines told.now)) }
{
    let mut bytes = Vec::new(alloc);
    say_lines(&mut bytes, names, told)?;
    Ok(bytes)
}

/// An explanation with these names.
fn named_by(alloc: Global, names: &Names<'_>, told: &Output) -> Result<Output, AllocError>
    ensures { IfOk result (λ o. o ≡ def.with_names names.now told.now) }
{
    let bytes = with_names(alloc, names, told.bytes.as_slice())?;
    Ok(Output {
        bytes,
        status: told.status,
    })
}

/// An explanation with the names of its text.
fn named<'t>(
    alloc: Global,
    text: &'t [u8],
    outline: Outline<'t>,
    told: &Output,
) -> Result<Output, AllocError>
    requires { outline ≡ outline_of text.now }
    ensures { IfOk result (λ o. o ≡ def.with_names text.now told.now) }
{
    let names = Names::new(alloc, text, outline)?;
    named_by(alloc, &names, told)
}

/// An explanation with names; a fault of the text has none.
fn named_if<'t>(
    alloc: Global,
    text: &'t [u8],
    outline: Outline<'t>,
    told: Output,
) -> Result<Output, AllocError>
    requires { outline ≡ outline_of text.now }
    ensures { IfOk result (λ o. o ≡ def.named text.now told) }
{
    if told.status == FAULTY {
        Ok(told)
    } else {
        named(alloc, text, outline, &told)
    }
}

fn named_of(alloc: Global, text: &[u8]) -> Result<Output, Stopped>
    ensures { Prints result (def.IsNamed text.now) }
{
    let Source { outline, program } = read(alloc, text)?;
    let told = explained_by(alloc, &outline, program, text)?;
    Ok(named_if(alloc, text, outline, told)?)
}

/// Writes what is wrong with a text, if anything is, with the names of the lines that it mentions,
/// and gives the status that `sts verify` gives.
///
/// It takes all its memory before the first byte is written.
///
/// # Errors
///
/// A write failed.
pub fn write_named<W: Write>(alloc: Global, text: &[u8], out: &mut W) -> Status
    ensures { IfOk result (λ s. (o : cli.Output) × def.IsNamedExplanation text.now o
        × cli.Writes (W.contents out.old) (W.contents out.new) s o) }
{
    write_shown(named_of(alloc, text), out)
}
