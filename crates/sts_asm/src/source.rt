//! The line of each instruction of a text, and the words of a line.

ghost use Rattle.std.specs.Prelude.{◌≡◌, ◌<◌, Some, slice_get, option_map, is_some, length};
ghost use Rattle.std.specs.Option.{option_copied};
ghost use Rattle.sts_text.specs.Words.{lines};
ghost use Rattle.sts_asm.specs.Fault.{Judges};
ghost use Rattle.sts_asm.specs.Marks.{marked};
ghost use Rattle.sts_asm.specs.Source.{outlined, sentence_at, name_at, args_at, names_at};
ghost use Rattle.sts_asm.specs.Source.{sentences_of, line_at, words_at};

use crate::fault::{AsmError, AsmKind};
use crate::outline::{Outline, Sentence, uncommented};
use crate::text::outline_of;
use std::alloc::Global;
use sts_text::{Words, after_lines, cut_at_newline};

/// The functions of a text with the lines of their instructions, before names are looked up.
///
/// # Errors
///
/// The first fault that is found without looking up a name, or memory ran out.
pub fn outlined<'a>(alloc: Global, text: &'a [u8]) -> Result<Outline<'a>, AsmError>
    ensures { Judges (λ o. o) result (outlined text.now) }
{
    if text.len() > 1048576 {
        return Err(AsmError {
            line: 0,
            kind: AsmKind::TextTooLong,
        });
    }
    outline_of(alloc, text)
}

impl<'a> Outline<'a> {
    /// The line of the instruction at a place of a function.
    pub fn sentence(&self, function: u32, pc: u32) -> Option<&Sentence<'a>>
        ensures { option_copied result ≡ sentence_at self.now function pc }
    {
        match self.done.get(function as usize) {
            Some(draft) => draft.code.sentences.get(pc as usize),
            None => None,
        }
    }

    /// The name of a function.
    pub fn name(&self, function: u32) -> Option<&'a str>
        ensures { option_map (λ name. name.now) result ≡ name_at self.now function }
    {
        match self.done.get(function as usize) {
            Some(draft) => Some(draft.name),
            None => None,
        }
    }

    /// How many arguments a function takes.
    pub fn args(&self, function: u32) -> Option<u8>
        ensures { result ≡ args_at self.now function }
    {
        match self.done.get(function as usize) {
            Some(draft) => Some(draft.args),
            None => None,
        }
    }

    /// How many functions there are.
    pub fn function_count(&self) -> usize
        ensures { result ≡ length self.now.done }
    {
        self.done.len()
    }

    /// The lines of the instructions of a function.
    pub fn sentences(&self, function: usize) -> &[Sentence<'a>]
        requires { function < length self.now.done }
        ensures { result.now ≡ sentences_of (slice_get self.now.done function) }
    {
        self.done[function].code.sentences.as_slice()
    }

    /// Has a function this label?
    pub fn has_label(&self, function: usize, name: &[u8]) -> bool
        ensures { result ≡ is_some (marked (names_at self.now function).labels name.now) }
    {
        match self.done.get(function) {
            Some(draft) => draft.labels.find(name).is_some(),
            None => false,
        }
    }

    /// Is there a function of this name?
    pub fn has_function(&self, name: &[u8]) -> bool
        ensures { result ≡ is_some (marked self.now.functions name.now) }
    {
        self.functions.find(name).is_some()
    }
}

impl<'a> Sentence<'a> {
    /// The number of the line, from 1.
    pub fn line(&self) -> u32
        ensures { result ≡ self.now.line }
    {
        self.line
    }

    /// The words of the line, its comment left out.
    pub fn words(&self) -> Words<'a>
        ensures { result ≡ self.now.words }
    {
        Words::new(self.text)
    }
}

fn first_line(text: &[u8]) -> &[u8]
    ensures { Some result.now ≡ slice_get (lines text.now) 0 }
{
    match cut_at_newline(text) {
        Some((line, _)) => line,
        None => text,
    }
}

/// The line of this number, counted from 0.
#[tactic(auto, using(crate::proofs::SourceLemmas::line_after, crate::proofs::SourceLemmas::line_past))]
fn line_in(text: &[u8], number: u32) -> Option<&[u8]>
    ensures { option_copied result ≡ slice_get (lines text.now) number }
{
    match after_lines(text, number) {
        Some(rest) => Some(first_line(rest)),
        None => None,
    }
}

/// The line of this number, counted from 1.
pub fn line_at(text: &[u8], number: u32) -> Option<&[u8]>
    ensures { option_copied result ≡ line_at text.now number }
{
    line_in(text, number.saturating_sub(1))
}

/// The words of the line of this number, without its comment. Lines count from 1.
pub fn words_at(text: &[u8], number: u32) -> Words<'_>
    ensures { result ≡ words_at text.now number }
{
    match line_at(text, number) {
        Some(line) => Words::new(uncommented(line)),
        None => Words::new(&[]),
    }
}
