//! The word of a line that names nothing: a label that isn't in its function, or a function that
//! isn't in the text.

ghost use Rattle.std.specs.Prelude.{◌≡◌, is_some};
ghost use Rattle.sts_asm.specs.Source.{names_at};
ghost use Rattle.look_text.specs.Names as def;

use crate::wanted::{Expected, operand};
use sts_asm::Outline;
use sts_text::Words;

fn is_maybe_label(outline: &Outline<'_>, function: usize, word: &[u8]) -> bool
    ensures { result ≡ def.is_maybe_label (names_at outline.now function) word.now }
{
    word == b"-".as_slice() || outline.has_label(function, word)
}

/// Does the word name what is expected there, in this function? If no name is expected, any word
/// does.
pub fn names_some(outline: &Outline<'_>, function: usize, wanted: Expected, word: &[u8]) -> bool
    ensures { result ≡ def.names_some (names_at outline.now function) wanted word.now }
{
    match wanted {
        Expected::Label
        | Expected::JoinInterrupted
        | Expected::CaseSuccess
        | Expected::CaseFailed => { outline.has_label(function, word) }
        Expected::JoinFailed | Expected::JoinTimeout => is_maybe_label(outline, function, word),
        Expected::Function => outline.has_function(word),
        _ => true,
    }
}

/// What is expected instead of a name that isn't in the text.
pub fn known(wanted: Expected) -> Expected
    ensures { result ≡ def.known wanted }
{
    match wanted {
        Expected::Function => Expected::KnownFunction,
        _ => Expected::KnownLabel,
    }
}

#[tactic(auto, using(crate::proofs::NameLemmas::is_some_mapped))]
fn has_stop<'a>(outline: &Outline<'_>, function: usize, wanted: Expected, words: Words<'a>) -> bool
    ensures { result
        ≡ is_some (def.name_stop (names_at outline.now function) wanted words.entry) }
{
    let mut wanted = wanted;
    let mut left = words;
    while let Some(word) = left.word() {
        if !names_some(outline, function, wanted, word) {
            return true;
        }
        wanted = wanted.after(word);
    }
    false
}

/// Does some word of a line of this function name nothing?
#[tactic(auto, using(crate::proofs::NameLemmas::is_some_mapped))]
pub fn names_nothing<'a>(outline: &Outline<'_>, function: usize, words: Words<'a>) -> bool
    ensures { result ≡ is_some (def.line_stop (names_at outline.now function) words.entry) }
{
    let mut left = words;
    match left.word() {
        None => false,
        Some(first) => has_stop(outline, function, operand(first), left),
    }
}
