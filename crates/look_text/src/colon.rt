//! A label that lacks its colon.

ghost use Rattle.std.specs.Prelude.{◌≡◌, ◌++◌, OnOk};
ghost use Rattle.sts_text.specs.Words.{lines};
ghost use Rattle.look_text.specs.Colon as def;

use crate::inside::is_inside;
use crate::lines::{Said, say_between};
use sts_asm::{AsmKind, words_at};
use sts_text::{Words, cut_at_newline};

/// Is this name one of the words?
fn is_among<'a>(name: &[u8], words: Words<'a>) -> bool
    ensures { result ≡ def.is_among name.now words.entry }
{
    let mut left = words;
    while let Some(word) = left.word() {
        if name == word {
            return true;
        }
    }
    false
}

/// Is this name one of the words after the first?
fn comes_later<'a>(name: &[u8], words: Words<'a>) -> bool
    ensures { result ≡ def.comes_later name.now words.entry }
{
    let mut left = words;
    match left.word() {
        None => false,
        Some(_) => is_among(name, left),
    }
}

/// Does a line of the text have the name after its first word?
fn is_named_in(text: &[u8], name: &[u8]) -> bool
    ensures { result ≡ def.is_named_in (lines text.now) name.now }
{
    let mut rest = text;
    while let Some((_, after)) = cut_at_newline(rest) {
        if comes_later(name, words_at(rest, 1)) {
            return true;
        }
        rest = after;
    }
    comes_later(name, words_at(rest, 1))
}

fn say_colon(out: &mut Vec<u8>, name: &[u8]) -> Said
    ensures { OnOk result (out.new.items ≡ out.old.items ++ def.colon_words name.now) }
{
    say_between(out, "a label ends with a colon: ", name, ":\n")
}

fn colon_line<'a>(out: &mut Vec<u8>, text: &[u8], words: Words<'a>) -> Said
    ensures { OnOk result (out.new.items
        ≡ out.old.items ++ def.colon_line text.now words.entry) }
{
    let mut words = words;
    let Some(name) = words.word() else {
        return Ok(());
    };
    if words.word().is_none() && is_named_in(text, name) {
        say_colon(out, name)
    } else {
        Ok(())
    }
}

/// Appends how a label is written, if a line begins with a word that may be one.
///
/// # Errors
///
/// Memory ran out; `out` may then have a part of it.
pub(crate) fn colon_part(out: &mut Vec<u8>, kind: AsmKind, text: &[u8], line: u32) -> Said
    ensures { OnOk result (out.new.items ≡ out.old.items ++ def.colon_part kind text.now line) }
{
    match kind {
        AsmKind::UnknownWord => {
            if is_inside(text, line) {
                colon_line(out, text, words_at(text, line))
            } else {
                Ok(())
            }
        }
        _ => Ok(()),
    }
}
