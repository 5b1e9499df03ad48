//! A line of a text in the form that editors, `make` and CI jump by.

ghost use Rattle.std.specs.Prelude.{◌≡◌, ◌++◌, OnOk, option_map};
ghost use Rattle.std.specs.List.{position};
ghost use Rattle.std.specs.Option.{option_copied};
ghost use Rattle.sts_asm.specs.Source.{line_at as line_of_text};
ghost use Rattle.look_names.specs.Names.{line_name, outline_of};
ghost use Rattle.look_places.specs.Marks as def;

use look_names::{Names, Said};
use look_text::say;
use std::alloc::Global;
use std::marker::Model;
use sts_asm::Outline;
use sts_output::line_at;
use sts_text::{cut_at, digits_up_to};

/// A text with its names, and the name of its file.
#[derive(Drop)]
pub(crate) struct Source<'a, 't> {
    file: &'a str,
    text: &'t [u8],
    names: &'a Names<'t>,
}

impl<'a, 't> Model for Source<'a, 't> {
    ghost use Rattle.std.specs.Prelude.{◌≡◌};
    ghost use Rattle.look_places.specs.Marks.{Source};

    ghost Value = { Source };

    ghost view = { λ s. record { file = s.file.now; text = s.text.now } };

    ghost invariant = { λ s. s.names.now ≡ s.text.now };
}

impl<'a, 't> Source<'a, 't> {
    /// A text of these names, in the file of this name.
    pub(crate) fn new(file: &'a str, text: &'t [u8], names: &'a Names<'t>) -> Source<'a, 't>
        requires { names.now ≡ text.now }
        ensures { result ≡ record { file = file.now; text = text.now } }
    {
        Source { file, text, names }
    }

    pub(crate) fn file(&self) -> &str
        ensures { result.now ≡ self.now.file }
    {
        self.file
    }

    pub(crate) fn text(&self) -> &'t [u8]
        ensures { result.now ≡ self.now.text }
    {
        self.text
    }

    /// The functions of the text with their lines, or none if a line has a fault.
    pub(crate) fn outline(&self) -> &Outline<'t>
        ensures { result.now ≡ outline_of self.now.text }
    {
        self.names.outline()
    }

    fn name(&self, line: u32) -> Option<&'t str>
        ensures { option_map (λ n. n.now) result ≡ line_name self.now.text line }
    {
        self.names.line(line)
    }

    /// The line of the instruction at a place of a function; at its end that of its last one.
    pub(crate) fn line_of(&self, function: u32, pc: u32) -> u32
        ensures { result ≡ def.line_of self.now function pc }
    {
        match self.names.sentence(function, pc) {
            Some(sentence) => sentence.line(),
            None => match self.names.sentence(function, pc.saturating_sub(1)) {
                Some(last) => last.line(),
                None => 1,
            },
        }
    }
}

fn is_inked(b: u8) -> bool
    ensures { result ≡ def.is_inked b }
{
    !matches!(b, b' ' | b'\t' | b'\r')
}

fn ink_in(line: &[u8]) -> Option<usize>
    ensures { result ≡ position def.is_inked line.now }
{
    line.iter().position(|b| is_inked(*b))
}

/// The column of the first word of a line.
#[tactic(auto, using(sts_text::proofs::WordLemmas::positions))]
fn column_in(line: &[u8]) -> usize
    ensures { result ≡ def.column_by (position def.is_inked line.now) }
{
    match ink_in(line) {
        Some(before) if before < line.len() => before + 1,
        _ => 1,
    }
}

fn column_of(line: Option<&[u8]>) -> usize
    ensures { result ≡ def.column_of (option_copied line.entry) }
{
    match line {
        None => 1,
        Some(line) => column_in(line),
    }
}

/// The column of the first word of the line of this number.
fn column_at(text: &[u8], line: u32) -> usize
    ensures { result ≡ def.column_of (line_of_text text.now line) }
{
    column_of(line_at(text, u64::from(line)))
}

fn is_place(name: &[u8]) -> bool
    ensures { result ≡ def.is_place name.now }
{
    let (file, line) = cut_at(name, b':');
    !file.is_empty() && digits_up_to(line, u32::MAX).is_some()
}

impl Source<'_, '_> {
    /// `FILE:LINE:COLUMN`
    fn say_plain_mark(&self, alloc: Global, out: &mut Vec<u8>, line: u32) -> Said
        ensures { OnOk result (out.new.items ≡ out.old.items ++ def.plain_mark self.now line) }
    {
        let column = column_at(self.text(), line);
        let place = format!(in alloc; ":{line}:{column}")?;
        say(out, self.file())?;
        say(out, place.as_str())
    }

    /// Appends the place of the line of this number: its name, if that is a place.
    ///
    /// # Errors
    ///
    /// Memory ran out; `out` may then have a part of it.
    pub(crate) fn say_mark(&self, alloc: Global, out: &mut Vec<u8>, line: u32) -> Said
        ensures { OnOk result (out.new.items ≡ out.old.items ++ def.mark self.now line) }
    {
        match self.name(line) {
            None => self.say_plain_mark(alloc, out, line),
            Some(name) => if is_place(name.as_bytes()) {
                say(out, name)
            } else {
                self.say_plain_mark(alloc, out, line)
            }
        }
    }
}
