//! The place of an instruction, and the lines that explain a fault of a text.

ghost use Rattle.std.specs.Prelude.{◌≡◌, ◌++◌, OnOk};
ghost use Rattle.std.specs.Fmt.{decimal};
ghost use Rattle.std.specs.Option.{option_copied};
ghost use Rattle.look_text.specs.Checks.{line_words};
ghost use Rattle.look_text.specs.Lines as def;

use crate::functions::{Source, functions_of};
use std::alloc::{AllocError, Global};
use sts_asm::{AsmError, AsmKind, Sentence, words_at};
use sts_list::write_words;
use sts_text::Words;

/// What a call that appends words returns: memory may run out.
pub type Said = Result<(), AllocError>;

/// Appends a text.
///
/// # Errors
///
/// Memory ran out.
pub fn say(out: &mut Vec<u8>, text: &str) -> Said
    ensures { OnOk result (out.new.items ≡ out.old.items ++ text.now) }
{
    out.extend_from_slice(text.as_bytes())
}

/// Appends bytes between two texts.
pub(crate) fn say_between(out: &mut Vec<u8>, before: &str, bytes: &[u8], after: &str) -> Said
    ensures { OnOk result (out.new.items
        ≡ out.old.items ++ (before.now ++ (bytes.now ++ after.now))) }
{
    say(out, before)?;
    out.extend_from_slice(bytes)?;
    say(out, after)
}

/// Appends words and a number.
///
/// # Errors
///
/// Memory ran out.
pub fn say_number(alloc: Global, out: &mut Vec<u8>, words: &str, number: u128) -> Said
    ensures { OnOk result (out.new.items ≡ out.old.items ++ words.now ++ decimal number) }
{
    let said = format!(in alloc; "{words}{number}")?;
    say(out, said.as_str())
}

pub(crate) fn say_line<'a>(alloc: Global, out: &mut Vec<u8>, line: u32, words: Words<'a>) -> Said
    ensures { OnOk result (out.new.items ≡ out.old.items ++ line_words line words.entry) }
{
    say_number(alloc, out, ", line ", line as u128)?;
    say(out, ":")?;
    write_words(out, words)
}

/// The line of an instruction and its words, or that there is none.
///
/// # Errors
///
/// Memory ran out; `out` may then have a part of it.
pub fn say_place(alloc: Global, out: &mut Vec<u8>, sentence: Option<&Sentence<'_>>) -> Said
    ensures { OnOk result (out.new.items
        ≡ out.old.items ++ def.place_words (option_copied sentence.entry)) }
{
    match sentence {
        None => say(out, ", at its end"),
        Some(sentence) => say_line(alloc, out, sentence.line(), sentence.words()),
    }
}

/// The words of the line of a fault, unless the line has a byte that isn't allowed.
fn fault_words(kind: AsmKind, text: &[u8], line: u32) -> Words<'_>
    ensures { result ≡ def.fault_words kind text.now line }
{
    match kind {
        AsmKind::NotAscii => Words::new(&[]),
        _ => words_at(text, line),
    }
}

fn say_line_place(alloc: Global, out: &mut Vec<u8>, kind: AsmKind, line: u32, text: &[u8]) -> Said
    ensures { OnOk result (out.new.items ≡ out.old.items ++ def.line_place kind line text.now) }
{
    if line == 0 {
        return Ok(());
    }
    let words = fault_words(kind, text, line);
    say_line(alloc, out, line, words)
}

/// Appends the number of a failed check, as ` C4`, if the fault is one.
///
/// # Errors
///
/// Memory ran out.
pub fn say_check(alloc: Global, out: &mut Vec<u8>, kind: AsmKind) -> Said
    ensures { OnOk result (out.new.items ≡ out.old.items ++ def.check_words kind) }
{
    match kind {
        AsmKind::Code(code) => say_number(alloc, out, " C", code.cause.number() as u128),
        _ => Ok(()),
    }
}

impl Source<'_, '_> {
    fn say_fault_place(&self, alloc: Global, out: &mut Vec<u8>, error: AsmError) -> Said
        ensures { OnOk result (out.new.items
            ≡ out.old.items ++ def.fault_place error.kind error.line self.now) }
    {
        match error.kind {
            AsmKind::Code(code) => self.say_code_place(alloc, out, code),
            kind => say_line_place(alloc, out, kind, error.line, self.text()),
        }
    }

    fn say_fault_head(&self, alloc: Global, out: &mut Vec<u8>, error: AsmError) -> Said
        ensures { OnOk result (out.new.items ≡ out.old.items ++ def.fault_head error self.now) }
    {
        say_number(alloc, out, "error A", error.kind.number() as u128)?;
        say_check(alloc, out, error.kind)?;
        self.say_fault_place(alloc, out, error)
    }

    fn say_fault_part(&self, alloc: Global, out: &mut Vec<u8>, error: AsmError) -> Said
        ensures { OnOk result (out.new.items
            ≡ out.old.items ++ def.fault_part error.kind self.now error.line) }
    {
        match error.kind {
            AsmKind::Code(code) => self.check_lines(out, code),
            _ => self.wrong_part(alloc, out, error),
        }
    }

    /// The lines of a fault.
    fn say_fault(&self, alloc: Global, out: &mut Vec<u8>, error: AsmError) -> Said
        ensures { OnOk result (out.new.items ≡ out.old.items ++ def.fault_lines error self.now) }
    {
        self.say_fault_head(alloc, out, error)?;
        say(out, "\n")?;
        say(out, self.fault_sentence(error))?;
        say(out, "\n")?;
        self.say_fault_part(alloc, out, error)
    }
}

/// The lines of a fault of a text: where it is, what is wrong, and the wrong word or byte in its
/// place.
///
/// # Errors
///
/// Memory ran out; `out` may then have a part of them.
pub fn fault_lines(alloc: Global, out: &mut Vec<u8>, error: AsmError, text: &[u8]) -> Said
    ensures { OnOk result (out.new.items ≡ out.old.items ++ def.fault_lines error text.now) }
{
    let functions = functions_of(alloc, text)?;
    Source::new(text, functions.as_ref()).say_fault(alloc, out, error)
}
