//! The name that a person may have meant by one that names nothing.

ghost use Rattle.std.specs.Prelude.{◌≡◌, option_map, find};
ghost use Rattle.sts_text.specs.Words.{lines};
ghost use Rattle.sts_asm.specs.Source.{names_at};
ghost use Rattle.look_text.specs.Names.{line_stop, name_stop};
ghost use Rattle.look_text.specs.Near.{is_near, near_of};
ghost use Rattle.look_text.specs.NearName as def;

use crate::names::{known, names_some};
use crate::near::{Nearness, is_near};
use crate::wanted::{Expected, operand};
use sts_asm::{Outline, label_of, words_at};
use sts_text::{Words, cut_at_newline};

/// Returns the name of the function that words begin.
fn function_given<'a>(words: Words<'a>) -> Option<&'a [u8]>
    ensures { option_map (λ n. n.now) result ≡ def.function_given words.entry }
{
    let mut words = words;
    let first = words.word()?;
    if first == b"func".as_slice() {
        words.word()
    } else {
        None
    }
}

/// Returns the label that words give, if the function has it.
fn label_given<'a>(outline: &Outline<'_>, function: usize, words: Words<'a>) -> Option<&'a [u8]>
    ensures { option_map (λ n. n.now) result
        ≡ def.label_given (names_at outline.now function) words.entry }
{
    let mut words = words;
    let label = label_of(words.word()?)?;
    if outline.has_label(function, label) {
        Some(label)
    } else {
        None
    }
}

/// A place of a text where a name is expected.
#[derive(Clone, Copy)]
struct Place<'o, 't> {
    outline: &'o Outline<'t>,
    function: usize,
    wanted: Expected,
}

/// Returns the name that words give: that of a function, or a label of the place's function.
fn name_given<'a>(place: Place<'_, '_>, words: Words<'a>) -> Option<&'a [u8]>
    ensures { option_map (λ n. n.now) result
        ≡ def.name_given (names_at place.entry.outline.now place.entry.function)
        place.entry.wanted words.entry }
{
    match place.wanted {
        Expected::KnownFunction => function_given(words),
        _ => label_given(place.outline, place.function, words),
    }
}

/// Returns the name that words give, if it is near in this way.
fn near_given<'a>(
    place: Place<'_, '_>,
    nearness: Nearness,
    word: &[u8],
    words: Words<'a>,
) -> Option<&'a [u8]>
    ensures { option_map (λ n. n.now) result ≡ find (is_near nearness word.now)
        (def.listed (def.name_given (names_at place.entry.outline.now place.entry.function)
        place.entry.wanted words.entry)) }
{
    let name = name_given(place, words)?;
    if is_near(nearness, word, name) {
        Some(name)
    } else {
        None
    }
}

/// Returns the first name of a text that is near in this way.
fn first_near<'a>(
    place: Place<'_, '_>,
    nearness: Nearness,
    word: &[u8],
    text: &'a [u8],
) -> Option<&'a [u8]>
    ensures { option_map (λ n. n.now) result ≡ find (is_near nearness word.now)
        (def.names_given (names_at place.entry.outline.now place.entry.function) place.entry.wanted
        (lines text.now)) }
{
    let mut rest = text;
    while let Some((_, after)) = cut_at_newline(rest) {
        if let Some(name) = near_given(place, nearness, word, words_at(rest, 1)) {
            return Some(name);
        }
        rest = after;
    }
    near_given(place, nearness, word, words_at(rest, 1))
}

/// Returns the first name of a text that is one letter apart, or else the first that begins the
/// word or begins with it.
fn first_similar<'a>(place: Place<'_, '_>, word: &[u8], text: &'a [u8]) -> Option<&'a [u8]>
    ensures { option_map (λ n. n.now) result ≡ def.similar_of
        (def.names_given (names_at place.entry.outline.now place.entry.function) place.entry.wanted
        (lines text.now)) word.now }
{
    match first_near(place, Nearness::OneApart, word, text) {
        Some(name) => Some(name),
        None => first_near(place, Nearness::Begins, word, text),
    }
}

/// Returns the name of a text that is near to a word.
fn near_name<'a>(place: Place<'_, '_>, word: &[u8], text: &'a [u8]) -> Option<&'a [u8]>
    ensures { option_map (λ n. n.now) result ≡ near_of
        (def.names_given (names_at place.entry.outline.now place.entry.function) place.entry.wanted
        (lines text.now)) word.now }
{
    match first_near(place, Nearness::OtherCase, word, text) {
        Some(name) => Some(name),
        None => first_similar(place, word, text),
    }
}

/// Returns the first of these words that names nothing, and what is expected there.
fn missing_in<'a>(
    outline: &Outline<'_>,
    function: usize,
    wanted: Expected,
    words: Words<'a>,
) -> Option<(Expected, &'a [u8])>
    ensures { option_map (λ m. (m.0, m.1.now)) result
        ≡ def.missing (name_stop (names_at outline.now function) wanted words.entry) }
{
    let mut wanted = wanted;
    let mut left = words;
    while let Some(word) = left.word() {
        if !names_some(outline, function, wanted, word) {
            return Some((known(wanted), word));
        }
        wanted = wanted.after(word);
    }
    None
}

/// Returns the name that may be meant by the first word of a line that names nothing.
pub(crate) fn near_in_line<'a>(
    outline: &Outline<'_>,
    function: usize,
    words: Words<'_>,
    text: &'a [u8],
) -> Option<&'a [u8]>
    ensures { option_map (λ n. n.now) result ≡ def.near_name text.now
        (names_at outline.now function) (line_stop (names_at outline.now function) words.entry) }
{
    let mut left = words;
    let first = left.word()?;
    let (wanted, word) = missing_in(outline, function, operand(first), left)?;
    let place = Place {
        outline,
        function,
        wanted,
    };
    near_name(place, word, text)
}
