//! The labels that come after the last instruction of a function.

ghost use Rattle.std.specs.Prelude.{◌≡◌, option_copied, slice_get};
ghost use Rattle.sts_text.specs.Words.{lines};
ghost use Rattle.sts_asm.specs.Source.{sentences_of};
ghost use Rattle.sts_asm.specs.Outline.{label_of};
ghost use Rattle.look_text.specs.Labels as def;

use crate::heads::begins_with;
use sts_asm::{Outline, Sentence, label_of, words_at};
use sts_text::{Words, after_lines, cut_at_newline};

fn is_end<'a>(words: Words<'a>) -> bool
    ensures { result ≡ def.is_end words.entry }
{
    begins_with(words, b"end")
}

fn is_label(word: &[u8], name: &[u8]) -> bool
    ensures { result ≡ def.is_named (label_of word.now) name.now }
{
    match label_of(word) {
        None => false,
        Some(label) => label == name,
    }
}

fn gives<'a>(words: Words<'a>, name: &[u8]) -> bool
    ensures { result ≡ def.gives words.entry name.now }
{
    let mut words = words;
    words.word().is_some_and(|word| is_label(word, name))
}

/// Does a line of the text give this label, before one ends the function?
fn are_giving(text: &[u8], name: &[u8]) -> bool
    ensures { result ≡ def.are_giving (lines text.now) name.now }
{
    let mut rest = text;
    while let Some((_, after)) = cut_at_newline(rest) {
        if is_end(words_at(rest, 1)) {
            return false;
        }
        if gives(words_at(rest, 1), name) {
            return true;
        }
        rest = after;
    }
    !is_end(words_at(rest, 1)) && gives(words_at(rest, 1), name)
}

fn number_of(sentence: Option<&Sentence<'_>>) -> u32
    ensures { result ≡ def.number_of (option_copied sentence.entry) }
{
    match sentence {
        None => 0,
        Some(sentence) => sentence.line(),
    }
}

fn last_line(outline: &Outline<'_>, function: u32) -> u32
    ensures { result ≡ def.last_line (sentences_of (slice_get outline.now.done function)) }
{
    let function = function as usize;
    if function >= outline.function_count() {
        return 0;
    }
    let code = outline.sentences(function);
    number_of(code.get(code.len().saturating_sub(1)))
}

/// Does this label of a function come after the last of its instructions?
pub(crate) fn is_behind(outline: &Outline<'_>, function: u32, text: &[u8], name: &[u8]) -> bool
    ensures { result ≡ def.is_behind text.now outline.now function name.now }
{
    match after_lines(text, last_line(outline, function)) {
        None => false,
        Some(rest) => are_giving(rest, name),
    }
}
