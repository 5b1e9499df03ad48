//! The operands of a line, one reader for each kind.

ghost use Rattle.std.specs.Prelude.{◌≡◌, ◌-◌, ◌≤◌, IfOk, true};
ghost use Rattle.std.specs.Option.{option_copied};
ghost use Rattle.std.specs.Str.{bytes_eq};
ghost use Rattle.sts_asm.specs.Fault.{Reads};
ghost use Rattle.sts_asm.specs.Operand.{number_at, value_at, slot, slot_at, handle, handle_at};
ghost use Rattle.sts_asm.specs.Operand.{name_at, target_at, function_at, maybe_target_at};
ghost use Rattle.sts_asm.specs.Operand.{looked_up, joiners, until_count_at, until_value_at};
ghost use Rattle.sts_asm.specs.Operand.{until_at, joiner_at, timed_at, kinds_counted, kind_at};
ghost use Rattle.sts_asm.specs.Operand.{finished};
ghost use Rattle.sts_code.specs.Name as def_name;
ghost use Rattle.sts_code.specs.declared.instr.Pred.TheVariants as pred;

use crate::fault::{LineFault, LineKind};
use crate::marks::{Names, function_in, label_in};
use std::str;
use sts_code::{Instr, Joiner, Kind, Pred, is_name};
use sts_text::{Words, digits_up_to, number, number_up_to};

/// Is the word spelled like this?
#[inline(always)]
pub fn is_word(word: &[u8], spelled: &[u8]) -> bool
    ensures { result ≡ bytes_eq word.now spelled.now }
{
    word == spelled
}

/// A number from 0 to `most`.
///
/// # Errors
///
/// No word is left (A4), or the next one is no number up to `most` (A3).
pub fn number_at(words: &mut Words<'_>, most: u32) -> Result<u32, LineFault>
    ensures read { Reads (λ n. n) result words.new (number_at most words.old) }
    ensures at_most { IfOk result (λ n. n ≤ most) }
{
    let Some(word) = words.word() else {
        return Err(LineFault(LineKind::BadOperands));
    };
    match number_up_to(word, most) {
        Some(n) => Ok(n),
        None => Err(LineFault(LineKind::BadNumber)),
    }
}

/// A number of a byte's range.
///
/// # Errors
///
/// No word is left (A4), or the next one is no number up to 255 (A3).
pub fn byte_at(words: &mut Words<'_>) -> Result<u8, LineFault>
    ensures { Reads (λ n. n) result words.new (number_at 255 words.old) }
{
    let n = number_at(words, 255)?;
    Ok(n as u8)
}

/// A value.
///
/// # Errors
///
/// No word is left (A4), or the next one spells no `i64` (A3).
pub fn value_at(words: &mut Words<'_>) -> Result<i64, LineFault>
    ensures { Reads (λ v. v) result words.new (value_at words.old) }
{
    let Some(word) = words.word() else {
        return Err(LineFault(LineKind::BadOperands));
    };
    match number(word) {
        Some(value) => Ok(value),
        None => Err(LineFault(LineKind::BadNumber)),
    }
}

/// The slot that a word spells: `s` and digits up to 255.
pub fn slot(word: &[u8]) -> Option<u8>
    ensures { result ≡ slot word.now }
{
    match word {
        [b's', digits @ ..] => match digits_up_to(digits, 255) {
            Some(n) => Some(n as u8),
            None => None,
        },
        _ => None,
    }
}

/// `s` and digits.
///
/// # Errors
///
/// No word is left, or the next one spells no slot.
pub fn slot_at(words: &mut Words<'_>) -> Result<u8, LineFault>
    ensures { Reads (λ s. s) result words.new (slot_at words.old) }
{
    let Some(word) = words.word() else {
        return Err(LineFault(LineKind::BadOperands));
    };
    match slot(word) {
        Some(slot) => Ok(slot),
        None => Err(LineFault(LineKind::BadOperands)),
    }
}

/// The slot of a subtask that a word spells; `_` spells none.
pub fn handle(word: &[u8]) -> Option<Option<u8>>
    ensures { result ≡ handle word.now }
{
    if is_word(word, b"_") {
        return Some(None);
    }
    match slot(word) {
        Some(slot) => Some(Some(slot)),
        None => None,
    }
}

/// The slot of a subtask, or `_` for none.
///
/// # Errors
///
/// No word is left, or the next one is neither a slot nor `_`.
pub fn handle_at(words: &mut Words<'_>) -> Result<Option<u8>, LineFault>
    ensures { Reads (λ h. h) result words.new (handle_at words.old) }
{
    let Some(word) = words.word() else {
        return Err(LineFault(LineKind::BadOperands));
    };
    match handle(word) {
        Some(handle) => Ok(handle),
        None => Err(LineFault(LineKind::BadOperands)),
    }
}

/// A name.
///
/// # Errors
///
/// No word is left, or the next one is no name.
pub fn name_at<'a>(words: &mut Words<'a>) -> Result<&'a [u8], LineFault>
    ensures read { Reads (λ name. name.now) result words.new (name_at words.old) }
    ensures name { IfOk result (λ name. def_name.is_name name.now ≡ true) }
{
    let Some(word) = words.word() else {
        return Err(LineFault(LineKind::BadOperands));
    };
    if is_name(word) {
        Ok(word)
    } else {
        Err(LineFault(LineKind::BadOperands))
    }
}

/// A name as text, since it is ASCII.
#[tactic(auto, using(crate::proofs::NameLemmas::name_is_text))]
pub fn name_text(name: &[u8]) -> &str
    requires { def_name.is_name name.now ≡ true }
    ensures { result.now ≡ name.now }
{
    match str::from_utf8(name) {
        Ok(text) => text,
        Err(_) => "",
    }
}

/// The instruction that a label names.
///
/// # Errors
///
/// No word is left or the next one is no name (A4), or no label has this name (A5).
pub fn target_at(words: &mut Words<'_>, names: Option<&Names<'_, '_>>) -> Result<u32, LineFault>
    ensures { Reads (λ to. to) result words.new (target_at (option_copied names.entry) words.old) }
{
    let name = name_at(words)?;
    match label_in(names, name) {
        Some(to) => Ok(to),
        None => Err(LineFault(LineKind::UnknownLabel)),
    }
}

/// The index of the function that a name names.
///
/// # Errors
///
/// No word is left or the next one is no name (A4), or no function has this name (A5).
pub fn function_at(words: &mut Words<'_>, names: Option<&Names<'_, '_>>) -> Result<u32, LineFault>
    ensures { Reads (λ f. f) result words.new (function_at (option_copied names.entry) words.old) }
{
    let name = name_at(words)?;
    match function_in(names, name) {
        Some(function) => Ok(function),
        None => Err(LineFault(LineKind::UnknownLabel)),
    }
}

/// A label, or `-` for none.
///
/// # Errors
///
/// No word is left or the next one is no name (A4), or no label has this name (A5).
pub fn maybe_target_at(
    words: &mut Words<'_>,
    names: Option<&Names<'_, '_>>,
) -> Result<Option<u32>, LineFault>
    ensures { Reads (λ to. to) result words.new (maybe_target_at
        (option_copied names.entry) words.old) }
{
    let Some(word) = words.word() else {
        return Err(LineFault(LineKind::BadOperands));
    };
    if is_word(word, b"-") {
        return Ok(None);
    }
    if !is_name(word) {
        return Err(LineFault(LineKind::BadOperands));
    }
    match label_in(names, word) {
        Some(to) => Ok(Some(to)),
        None => Err(LineFault(LineKind::UnknownLabel)),
    }
}

fn until_failed_at(words: &mut Words<'_>) -> Result<Joiner, LineFault>
    ensures { Reads (λ j. j) result words.new (until_count_at (λ n. pred.Failed n) words.old) }
{
    let n = number_at(words, u32::MAX)?;
    Ok(Joiner::Until(Pred::Failed(n)))
}

fn until_success_at(words: &mut Words<'_>) -> Result<Joiner, LineFault>
    ensures { Reads (λ j. j) result words.new (until_count_at (λ n. pred.Success n) words.old) }
{
    let n = number_at(words, u32::MAX)?;
    Ok(Joiner::Until(Pred::Success(n)))
}

fn until_value_at(words: &mut Words<'_>) -> Result<Joiner, LineFault>
    ensures { Reads (λ j. j) result words.new (until_value_at words.old) }
{
    let value = value_at(words)?;
    Ok(Joiner::Until(Pred::AtLeast(value)))
}

fn until_at(words: &mut Words<'_>) -> Result<Joiner, LineFault>
    ensures { Reads (λ j. j) result words.new (until_at words.old) }
{
    let Some(word) = words.word() else {
        return Err(LineFault(LineKind::BadOperands));
    };
    if is_word(word, b"failed") {
        until_failed_at(words)
    } else if is_word(word, b"success") {
        until_success_at(words)
    } else if is_word(word, b"atleast") {
        until_value_at(words)
    } else {
        Err(LineFault(LineKind::BadOperands))
    }
}

/// The joiner that is spelled by this one word.
pub fn one_word_joiner(word: &[u8]) -> Option<Joiner>
    ensures { result ≡ looked_up joiners word.now }
{
    if is_word(word, b"all") {
        Some(Joiner::AllSucceed)
    } else if is_word(word, b"any") {
        Some(Joiner::AnySucceeds)
    } else if is_word(word, b"awaitok") {
        Some(Joiner::AwaitOk)
    } else if is_word(word, b"awaitall") {
        Some(Joiner::AwaitAll)
    } else {
        None
    }
}

/// The joiner of a scope.
///
/// # Errors
///
/// No word is left, or the words spell no joiner.
pub fn joiner_at(words: &mut Words<'_>) -> Result<Joiner, LineFault>
    ensures { Reads (λ j. j) result words.new (joiner_at words.old) }
{
    let Some(word) = words.word() else {
        return Err(LineFault(LineKind::BadOperands));
    };
    if is_word(word, b"until") {
        return until_at(words);
    }
    match one_word_joiner(word) {
        Some(joiner) => Ok(joiner),
        None => Err(LineFault(LineKind::BadOperands)),
    }
}

/// `timed`, or nothing.
///
/// # Errors
///
/// The next word isn't `timed`.
pub fn timed_at(words: &mut Words<'_>) -> Result<bool, LineFault>
    ensures { Reads (λ t. t) result words.new (timed_at words.old) }
{
    let Some(word) = words.word() else {
        return Ok(false);
    };
    if is_word(word, b"timed") {
        Ok(true)
    } else {
        Err(LineFault(LineKind::BadOperands))
    }
}

/// The state of a subtask that `tally` counts, by its letter.
pub fn kind_counted(word: &[u8]) -> Option<Kind>
    ensures { result ≡ looked_up kinds_counted word.now }
{
    if is_word(word, b"S") {
        Some(Kind::S)
    } else if is_word(word, b"F") {
        Some(Kind::F)
    } else if is_word(word, b"U") {
        Some(Kind::U)
    } else {
        None
    }
}

/// The state that `tally` counts.
///
/// # Errors
///
/// No word is left, or the next one is none of `S`, `F` and `U`.
pub fn kind_at(words: &mut Words<'_>) -> Result<Kind, LineFault>
    ensures { Reads (λ k. k) result words.new (kind_at words.old) }
{
    let Some(word) = words.word() else {
        return Err(LineFault(LineKind::BadOperands));
    };
    match kind_counted(word) {
        Some(kind) => Ok(kind),
        None => Err(LineFault(LineKind::BadOperands)),
    }
}

/// The instruction, if no word is left over.
///
/// # Errors
///
/// A word is left over.
pub fn finished(words: &mut Words<'_>, instr: Instr) -> Result<Instr, LineFault>
    ensures { result ≡ finished instr words.old }
{
    match words.word() {
        None => Ok(instr),
        Some(_) => Err(LineFault(LineKind::BadOperands)),
    }
}
