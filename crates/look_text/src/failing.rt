//! The word at which a text's functions fail a program check.

ghost use Rattle.std.specs.Prelude.{◌≡◌, ◌++◌, ◌≤◌, Ok, OnOk, length, option_map};
ghost use Rattle.std.specs.Option.{option_copied};
ghost use Rattle.look_text.specs.declared.wanted.Expected.TheVariants.{First};
ghost use Rattle.look_text.specs.Failing as def;
ghost use Rattle.look_text.specs.Functions.{functions_of};
ghost use Rattle.look_text.specs.Labels.{is_named};
ghost use Rattle.look_text.specs.Wrong.{wrong_line};

use crate::checks::{failing_head, is_of_head};
use crate::functions::Source;
use crate::labels::is_behind;
use crate::lines::{Said, say};
use crate::wanted::Expected;
use crate::wrong::{form_line, say_word};
use sts_asm::{Outline, Sentence, handle, slot, words_at};
use sts_code::{CodeCause, CodeError, LAST_SLOT, MAX_ARGS, MAX_ENDS, MAX_TURNS};
use sts_text::{Words, number_up_to};

fn is_named(name: Option<&str>, word: &[u8]) -> bool
    ensures { result ≡ is_named (option_map (λ n. n.now) name.entry) word.now }
{
    match name {
        None => false,
        Some(name) => name.as_bytes() == word,
    }
}

fn is_earlier(outline: &Outline<'_>, function: u32, word: &[u8]) -> bool
    ensures { result ≡ def.is_earlier outline.now function word.now }
{
    for earlier in 0..function {
        if is_named(outline.name(earlier), word) {
            return true;
        }
    }
    false
}

fn is_slot(slot: Option<u8>) -> bool
    ensures { result ≡ def.is_slot slot }
{
    match slot {
        None => false,
        Some(slot) => slot <= LAST_SLOT,
    }
}

fn is_handle(handle: Option<Option<u8>>) -> bool
    ensures { result ≡ def.is_handle handle }
{
    match handle {
        None => false,
        Some(None) => true,
        Some(Some(slot)) => slot <= LAST_SLOT,
    }
}

fn is_positive(number: Option<u32>) -> bool
    ensures { result ≡ def.is_positive number }
{
    match number {
        None => false,
        Some(number) => 0 < number,
    }
}

fn is_in_range(wanted: Expected, word: &[u8]) -> bool
    ensures { result ≡ def.is_in_range wanted word.now }
{
    match wanted {
        Expected::Byte => number_up_to(word, u32::from(LAST_SLOT)).is_some(),
        Expected::Turns => is_positive(number_up_to(word, u32::from(MAX_TURNS))),
        Expected::Count => is_positive(number_up_to(word, MAX_ENDS)),
        Expected::Slot
        | Expected::OpenSlot
        | Expected::ForkSlot
        | Expected::JoinSlot
        | Expected::CaseSlot
        | Expected::TallySlot => is_slot(slot(word)),
        Expected::Handle => is_handle(handle(word)),
        Expected::Args => number_up_to(word, u32::from(MAX_ARGS)).is_some(),
        _ => true,
    }
}

fn is_label(wanted: Expected) -> bool
    ensures { result ≡ def.is_label wanted }
{
    matches!(
        wanted,
        Expected::Label
            | Expected::JoinFailed
            | Expected::JoinTimeout
            | Expected::JoinInterrupted
            | Expected::CaseSuccess
            | Expected::CaseFailed
    )
}

fn passes(
    outline: &Outline<'_>,
    error: CodeError,
    text: &[u8],
    wanted: Expected,
    word: &[u8],
) -> bool
    ensures { result
        ≡ def.passes text.now outline.now error.function error.cause wanted word.now }
{
    match (error.cause, wanted) {
        (CodeCause::BadTarget, _) => {
            !(is_label(wanted) && is_behind(outline, error.function, text, word))
        }
        (CodeCause::LaterFunction, Expected::Function) => is_earlier(outline, error.function, word),
        (CodeCause::DuplicateName, Expected::Name) => !is_earlier(outline, error.function, word),
        (CodeCause::BadRange, _) => is_in_range(wanted, word),
        _ => true,
    }
}

fn wanted_there(wanted: Expected) -> Expected
    ensures { result ≡ def.wanted_there wanted }
{
    match wanted {
        Expected::Function => Expected::KnownFunction,
        _ => if is_label(wanted) {
            Expected::KnownLabel
        } else {
            wanted
        },
    }
}

/// Appends the words up to the first that doesn't pass the check, and what is expected there.
fn say_failing<'a>(
    out: &mut Vec<u8>,
    outline: &Outline<'_>,
    error: CodeError,
    text: &[u8],
    words: Words<'a>,
) -> Said
    ensures { OnOk result (out.new.items ≡ out.old.items ++ wrong_line
        (def.first_failing (def.passes text.now outline.now error.function error.cause)
        First words.entry)) }
{
    let start = out.len();
    let mut wanted = Expected::First;
    let mut left = words;
    say(out, "at")?;
    while let Some(word) = left.word() {
        if !passes(outline, error, text, wanted, word) {
            return say_word(out, word, wanted_there(wanted));
        }
        out.push(b' ')?;
        out.extend_from_slice(word)?;
        wanted = wanted.after(word);
    }
    out.truncate(start);
    Ok(())
}

fn head_words(text: &[u8], line: Option<u32>) -> Words<'_>
    ensures { result ≡ def.head_words text.now line }
{
    match line {
        None => Words::new(&[]),
        Some(line) => words_at(text, line),
    }
}

fn instr_words<'a>(sentence: Option<&Sentence<'a>>) -> Words<'a>
    ensures { result ≡ def.instr_words (option_copied sentence.entry) }
{
    match sentence {
        None => Words::new(&[]),
        Some(sentence) => sentence.words(),
    }
}

fn check_words<'a>(outline: &Outline<'a>, error: CodeError, text: &'a [u8]) -> Words<'a>
    requires { length text.now ≤ 1048576 }
    ensures { result ≡ def.check_words text.now outline.now error }
{
    if is_of_head(outline, error) {
        head_words(text, failing_head(outline, text, error))
    } else {
        instr_words(outline.sentence(error.function, error.pc))
    }
}

/// The word at which a program check fails, in its place, and the form of the line.
fn check_part<'a>(
    out: &mut Vec<u8>,
    outline: &Outline<'a>,
    error: CodeError,
    text: &'a [u8],
) -> Said
    requires { length text.now ≤ 1048576 }
    ensures { OnOk result (out.new.items
        ≡ out.old.items ++ def.check_part text.now outline.now error) }
{
    let words = check_words(outline, error, text);
    say_failing(out, outline, error, text, words)?;
    form_line(out, check_words(outline, error, text))
}

impl Source<'_, '_> {
    /// The line of the word at which a program check fails, and the form of the line.
    ///
    /// # Errors
    ///
    /// Memory ran out; `out` may then have a part of them.
    #[tactic(auto, using(crate::proofs::HeadLemmas::functions_short))]
    pub(crate) fn check_lines(&self, out: &mut Vec<u8>, error: CodeError) -> Said
        ensures { OnOk result (out.new.items
            ≡ out.old.items ++ def.check_lines self.now (functions_of self.now) error) }
    {
        match self.functions() {
            None => Ok(()),
            Some(outline) => check_part(out, outline, error, self.text()),
        }
    }
}
