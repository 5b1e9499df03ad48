//! The wrong word or byte of a line, in its place.

ghost use Rattle.std.specs.Prelude.{◌≡◌, ◌<◌, ◌++◌, [], OnOk, IfSome, MatchOption, Some, None, length};
ghost use Rattle.std.specs.Prelude.{slice_get, option_map, codes};
ghost use Rattle.std.specs.Option.{option_copied};
ghost use Rattle.sts_asm.specs.Source.{line_at, names_at, sentences_of, words_at};
ghost use Rattle.look_text.specs.Inside.{is_inside};
ghost use Rattle.look_text.specs.Sentences.{join_form};
ghost use Rattle.look_text.specs.Names.{line_stop, lines_stop, name_stop};
ghost use Rattle.look_text.specs.Wanted.{stop, first_wrong, wrong_place};
ghost use Rattle.look_text.specs.Functions.{functions_of};
ghost use Rattle.look_text.specs.Wrong as def;

use crate::colon::colon_part;
use crate::functions::Source;
use crate::inside::is_inside;
use crate::java::java_word;
use crate::lines::{Said, say, say_between, say_number};
use crate::names::{known, names_nothing, names_some};
use crate::near::meant;
use crate::near_name::near_in_line;
use crate::sentences::{join_form, wanted_sentence};
use crate::wanted::{Expected, in_place_of, operand};
use std::alloc::Global;
use sts_asm::{AsmError, AsmKind, Outline, Sentence, is_allowed, line_at, words_at};
use sts_text::Words;

fn say_question(out: &mut Vec<u8>, known: &[u8]) -> Said
    ensures { OnOk result (out.new.items ≡ out.old.items ++ def.meant_line (Some known.now)) }
{
    say_between(out, "did you mean ", known, "?\n")
}

/// The line of the name that may be meant.
fn say_near(out: &mut Vec<u8>, name: Option<&[u8]>) -> Said
    ensures { OnOk result (out.new.items
        ≡ out.old.items ++ def.meant_line (option_map (λ n. n.now) name.entry)) }
{
    match name {
        None => Ok(()),
        Some(name) => say_question(out, name),
    }
}

/// The line of the word that may be meant.
fn say_meant(out: &mut Vec<u8>, known: Option<&'static str>) -> Said
    ensures { OnOk result (out.new.items
        ≡ out.old.items ++ def.meant_line (option_map (λ w. w.now) known.entry)) }
{
    match known {
        None => Ok(()),
        Some(known) => say_question(out, known.as_bytes()),
    }
}

/// Appends the line of the word here for a word of Java.
fn say_java(out: &mut Vec<u8>, word: &[u8], known: &str) -> Said
    ensures { OnOk result (out.new.items ≡ out.old.items ++ def.java_line word.now known.now) }
{
    say(out, "Java's ")?;
    out.extend_from_slice(word)?;
    say(out, " is ")?;
    say(out, known)?;
    say(out, " here\n")
}

/// Appends the line of the word here for a word of Java, or else of the word that may be meant.
fn say_guess(out: &mut Vec<u8>, wanted: Expected, word: &[u8]) -> Said
    ensures { OnOk result (out.new.items
        ≡ out.old.items ++ def.meant_words wanted (Some word.now)) }
{
    match java_word(wanted, word) {
        Some(known) => say_java(out, word, known),
        None => say_meant(out, meant(wanted, word)),
    }
}

fn say_wanted(out: &mut Vec<u8>, wanted: Expected) -> Said
    ensures { OnOk result (out.new.items ≡ out.old.items ++ def.expected_words wanted) }
{
    say(out, ": expected ")?;
    say(out, wanted_sentence(wanted))?;
    say(out, "\n")
}

fn say_bracketed(out: &mut Vec<u8>, word: &[u8]) -> Said
    ensures { OnOk result (out.new.items ≡ out.old.items ++ def.bracketed (Some word.now)) }
{
    say_between(out, " [", word, "]")
}

pub(crate) fn say_word(out: &mut Vec<u8>, word: &[u8], wanted: Expected) -> Said
    ensures { OnOk result (out.new.items ≡ out.old.items
        ++ def.stop_words (first_wrong wanted word.now)) }
{
    say_bracketed(out, word)?;
    say_wanted(out, wanted)?;
    say_guess(out, wanted, word)
}

#[tactic(auto, using(crate::proofs::LineLemmas::missing_words))]
fn say_missing(out: &mut Vec<u8>, wanted: Expected) -> Said
    ensures { OnOk result (out.new.items ≡ out.old.items ++ def.stop_words (stop wanted [])) }
{
    say(out, " []")?;
    say_wanted(out, wanted)
}

/// Appends the words up to the first one that isn't what is expected there, and what is expected.
fn say_stop<'a>(out: &mut Vec<u8>, wanted: Expected, words: Words<'a>) -> Said
    ensures { OnOk result (out.new.items ≡ out.old.items
        ++ def.stop_words (stop wanted words.entry)) }
{
    let mut wanted = wanted;
    let mut left = words;
    while let Some(word) = left.word() {
        if !wanted.fits(word) {
            return say_word(out, word, wanted);
        }
        out.push(b' ')?;
        out.extend_from_slice(word)?;
        wanted = wanted.after(word);
    }
    say_missing(out, wanted)
}

/// Appends the words up to the first one that names nothing, and what is expected there.
fn say_name_stop<'a>(
    out: &mut Vec<u8>,
    outline: &Outline<'_>,
    function: usize,
    wanted: Expected,
    words: Words<'a>,
) -> Said
    ensures { OnOk result (IfSome (name_stop (names_at outline.now function) wanted words.entry)
        (λ s. out.new.items ≡ out.old.items ++ def.stop_words s)) }
{
    let mut wanted = wanted;
    let mut left = words;
    while let Some(word) = left.word() {
        if !names_some(outline, function, wanted, word) {
            return say_word(out, word, known(wanted));
        }
        out.push(b' ')?;
        out.extend_from_slice(word)?;
        wanted = wanted.after(word);
    }
    Ok(())
}

/// The line of the first word of these that names nothing.
fn say_line_stop<'a>(
    out: &mut Vec<u8>,
    outline: &Outline<'_>,
    function: usize,
    words: Words<'a>,
) -> Said
    ensures { OnOk result (IfSome (line_stop (names_at outline.now function) words.entry)
        (λ s. out.new.items ≡ out.old.items ++ def.named_line s)) }
{
    let mut left = words;
    let Some(first) = left.word() else {
        return Ok(());
    };
    say(out, "at ")?;
    out.extend_from_slice(first)?;
    say_name_stop(out, outline, function, operand(first), left)
}

/// The first line of a function with a word that names nothing.
fn line_of_no_name<'o, 'a>(outline: &'o Outline<'a>, function: usize) -> Option<&'o Sentence<'a>>
    requires { function < length outline.now.done }
    ensures { MatchOption result
        (lines_stop (names_at outline.now function)
        (sentences_of (slice_get outline.now.done function)) ≡ None)
        (λ s. def.StopsAt (names_at outline.now function)
        (sentences_of (slice_get outline.now.done function)) s.now) }
{
    for sentence in outline.sentences(function) {
        if names_nothing(outline, function, sentence.words()) {
            return Some(sentence);
        }
    }
    None
}

/// The first function of a text, and its first line, with a word that names nothing.
fn no_name_in<'o, 'a>(outline: &'o Outline<'a>) -> Option<(usize, &'o Sentence<'a>)>
    ensures { MatchOption result (def.AllNamed outline.now)
        (λ at. def.IsFirst outline.now at.0 at.1.now) }
{
    for function in 0..outline.function_count() {
        if let Some(sentence) = line_of_no_name(outline, function) {
            return Some((function, sentence));
        }
    }
    None
}

/// The line of the first word that names nothing, and that of the name that may be meant.
fn say_unknown(out: &mut Vec<u8>, outline: &Outline<'_>, text: &[u8]) -> Said
    ensures { OnOk result (out.new.items
        ≡ out.old.items ++ def.unknown_line text.now (Some outline.now)) }
{
    match no_name_in(outline) {
        None => Ok(()),
        Some((function, sentence)) => {
            say_line_stop(out, outline, function, sentence.words())?;
            say_near(out, near_in_line(outline, function, sentence.words(), text))
        }
    }
}

/// Returns what a byte in this column may be.
fn byte_hint(column: usize, byte: u8) -> &'static str
    ensures { result.now ≡ def.byte_hint column byte }
{
    if column == 1 && byte == 239 {
        " (perhaps a byte order mark: save the text as UTF-8 without one)"
    } else {
        ""
    }
}

fn say_byte(alloc: Global, out: &mut Vec<u8>, column: usize, byte: u8) -> Said
    ensures { OnOk result (out.new.items ≡ out.old.items ++ def.byte_words column byte) }
{
    say_number(alloc, out, "at column ", column as u128)?;
    say_number(alloc, out, ": byte ", byte as u128)?;
    say(out, byte_hint(column, byte))?;
    say(out, "\n")
}

/// The line of the first byte of a line that isn't allowed.
fn byte_line(alloc: Global, out: &mut Vec<u8>, line: &[u8]) -> Said
    ensures { OnOk result (out.new.items ≡ out.old.items ++ def.byte_line 1 line.now) }
{
    for at in 0..line.len() {
        if !is_allowed(line[at]) {
            return say_byte(alloc, out, at + 1, line[at]);
        }
    }
    Ok(())
}

fn byte_line_of(alloc: Global, out: &mut Vec<u8>, line: Option<&[u8]>) -> Said
    ensures { OnOk result (out.new.items
        ≡ out.old.items ++ def.byte_line_of (option_copied line.entry)) }
{
    match line {
        None => Ok(()),
        Some(line) => byte_line(alloc, out, line),
    }
}

/// The line of the first word, if there is one: something else is expected there.
fn say_first<'a>(out: &mut Vec<u8>, words: Words<'a>, wanted: Expected) -> Said
    ensures { OnOk result (out.new.items ≡ out.old.items
        ++ def.wrong_line (option_map (first_wrong wanted) (slice_get words.entry 0))) }
{
    let mut words = words;
    match words.word() {
        None => Ok(()),
        Some(word) => {
            say(out, "at")?;
            say_word(out, word, wanted)
        }
    }
}

/// The line of the wrong or missing word, if the fault is about a word.
#[tactic(auto, using(crate::proofs::LineLemmas::unknown_first, crate::proofs::LineLemmas::duplicate_first))]
fn wrong_line(out: &mut Vec<u8>, kind: AsmKind, text: &[u8], line: u32) -> Said
    ensures { OnOk result (out.new.items ≡ out.old.items
        ++ def.wrong_line (wrong_place kind (is_inside text.now line) (words_at text.now line))) }
{
    let words = words_at(text, line);
    match kind {
        AsmKind::BadNumber | AsmKind::BadOperands => {
            say(out, "at")?;
            say_stop(out, Expected::First, words)
        }
        AsmKind::UnknownWord => say_first(out, words, in_place_of(is_inside(text, line))),
        AsmKind::DuplicateLabel => say_first(out, words, Expected::NewLabel),
        _ => Ok(()),
    }
}

fn say_join_form(out: &mut Vec<u8>) -> Said
    ensures { OnOk result (out.new.items ≡ out.old.items ++ (join_form ++ codes "\n")) }
{
    say(out, join_form())?;
    say(out, "\n")
}

/// The form of a line that begins with these words.
pub(crate) fn form_line<'a>(out: &mut Vec<u8>, words: Words<'a>) -> Said
    ensures { OnOk result (out.new.items ≡ out.old.items ++ def.form_line words.entry) }
{
    let mut words = words;
    match words.word() {
        None => Ok(()),
        Some(word) => {
            if word == b"join".as_slice() {
                say_join_form(out)
            } else {
                Ok(())
            }
        }
    }
}

/// The form of the line, for the fault of an operand or of a name.
fn form_part<'a>(out: &mut Vec<u8>, kind: AsmKind, words: Words<'a>) -> Said
    ensures { OnOk result (out.new.items ≡ out.old.items ++ def.form_part kind words.entry) }
{
    match kind {
        AsmKind::BadOperands | AsmKind::UnknownLabel => form_line(out, words),
        _ => Ok(()),
    }
}

impl Source<'_, '_> {
    /// The lines of a name that there isn't.
    fn unknown_line(&self, out: &mut Vec<u8>) -> Said
        ensures { OnOk result (out.new.items
            ≡ out.old.items ++ def.unknown_line self.now (functions_of self.now)) }
    {
        match self.functions() {
            None => Ok(()),
            Some(outline) => say_unknown(out, outline, self.text()),
        }
    }

    /// The wrong word or byte of a fault in its place.
    fn place_part(&self, alloc: Global, out: &mut Vec<u8>, error: AsmError) -> Said
        ensures { OnOk result (out.new.items
            ≡ out.old.items ++ def.place_part error.kind self.now error.line) }
    {
        match error.kind {
            AsmKind::UnknownLabel => self.unknown_line(out),
            AsmKind::NotAscii => byte_line_of(alloc, out, line_at(self.text(), error.line)),
            kind => wrong_line(out, kind, self.text(), error.line),
        }
    }

    /// What is wrong in the line of a fault, if it is a word or a byte, and the form of the line or
    /// of a label.
    ///
    /// # Errors
    ///
    /// Memory ran out; `out` may then have a part of it.
    pub(crate) fn wrong_part(&self, alloc: Global, out: &mut Vec<u8>, error: AsmError) -> Said
        ensures { OnOk result (out.new.items
            ≡ out.old.items ++ def.wrong_part error.kind self.now error.line) }
    {
        self.place_part(alloc, out, error)?;
        form_part(out, error.kind, words_at(self.text(), error.line))?;
        colon_part(out, error.kind, self.text(), error.line)
    }
}
