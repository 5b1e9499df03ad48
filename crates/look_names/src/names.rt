//! The names of a text's lines, functions and values.

ghost use Rattle.std.specs.Prelude.{◌≡◌, IfOk, ℤ, filter, map, option_copied, option_map};
ghost use Rattle.std.specs.BTreeMap.{get};
ghost use Rattle.std.specs.Ordering.{int_cmp};
ghost use Rattle.sts_asm.specs.Source.{sentence_at};
ghost use Rattle.sts_text.specs.Words.{lines};
ghost use Rattle.look_names.specs.Marked as marks;
ghost use Rattle.look_names.specs.Names as def;

use crate::marked::{begins_function, name_in, value_in};
use std::alloc::{AllocError, Global};
use std::collections::BTreeMap;
use std::marker::Model;
use sts_asm::{Outline, Sentence};
use sts_text::cut_at_newline;

/// The functions of a text with their lines, and the names that its marked comments give. To
/// contracts it is the text.
#[derive(Drop)]
pub struct Names<'t> {
    text: &'t [u8],
    lines: Vec<Option<&'t str>>,
    functions: Vec<Option<&'t str>>,
    values: BTreeMap<i64, &'t str>,
    outline: Outline<'t>,
}

impl<'t> Model for Names<'t> {
    ghost use Rattle.std.specs.Prelude.{◌≡◌, ℕ, ℤ, List, filter, map, option_map};
    ghost use Rattle.std.specs.BTreeMap.{get};
    ghost use Rattle.std.specs.Ordering.{int_cmp};
    ghost use Rattle.sts_text.specs.Words.{lines as lines_of};
    ghost use Rattle.look_names.specs.Marked.{begins_function, name_in};
    ghost use Rattle.look_names.specs.Names.{outline_of, value_name};

    ghost Value = { List ℕ };

    ghost view = { λ n. n.text.now };

    ghost invariant = { λ n.
        (map (λ x. option_map (λ s. s.now) x) n.lines.items ≡ map name_in (lines_of n.text.now))
        × (map (λ x. option_map (λ s. s.now) x) n.functions.items
        ≡ map name_in (filter begins_function (lines_of n.text.now)))
        × ((v : ℤ) → option_map (λ s. s.now) (get int_cmp n.values v) ≡ value_name n.text.now v)
        × (n.outline ≡ outline_of n.text.now) };
}

/// Returns the lines of a text.
fn lines_of<'t>(alloc: Global, text: &'t [u8]) -> Result<Vec<&'t [u8]>, AllocError>
    ensures { IfOk result (λ found. map (λ l. l.now) found.items ≡ lines text.now) }
{
    let mut found = Vec::new(alloc);
    let mut rest = text;
    while let Some((line, after)) = cut_at_newline(rest) {
        found.push(line)?;
        rest = after;
    }
    found.push(rest)?;
    Ok(found)
}

/// Returns the name of each of these lines.
fn line_names<'t>(
    alloc: Global,
    text_lines: &[&'t [u8]],
) -> Result<Vec<Option<&'t str>>, AllocError>
    ensures { IfOk result (λ names. map (λ x. option_map (λ s. s.now) x) names.items
        ≡ map marks.name_in (map (λ l. l.now) text_lines.now)) }
{
    let mut names = Vec::new(alloc);
    for line in text_lines {
        names.push(name_in(line))?;
    }
    Ok(names)
}

/// Returns those of these lines that begin a function.
fn function_lines<'t>(alloc: Global, text_lines: &[&'t [u8]]) -> Result<Vec<&'t [u8]>, AllocError>
    ensures { IfOk result (λ found. map (λ l. l.now) found.items
        ≡ filter marks.begins_function (map (λ l. l.now) text_lines.now)) }
{
    let mut found = Vec::new(alloc);
    for line in text_lines {
        if begins_function(line) {
            found.push(*line)?;
        }
    }
    Ok(found)
}

/// Returns the name of each value that one of these lines names. They are read from the last to the
/// first, so that the first name of a value stays.
fn value_names<'t>(
    alloc: Global,
    text_lines: &[&'t [u8]],
) -> Result<BTreeMap<i64, &'t str>, AllocError>
    ensures { IfOk result (λ names. (v : ℤ) → option_map (λ s. s.now) (get int_cmp names v)
        ≡ def.value_among (map (λ l. l.now) text_lines.now) v) }
{
    let mut names = BTreeMap::new(alloc);
    let mut left = text_lines.len();
    while left > 0 {
        left -= 1;
        if let Some((value, name)) = value_in(text_lines[left]) {
            names.insert(value, name)?;
        }
    }
    Ok(names)
}

impl<'t> Names<'t> {
    /// Returns the names of a text, also of one with a fault. `outline` has its functions with their
    /// lines, or none if a line has a fault.
    ///
    /// # Errors
    ///
    /// Memory ran out.
    pub fn new(alloc: Global, text: &'t [u8], outline: Outline<'t>) -> Result<Names<'t>, AllocError>
        requires { outline ≡ def.outline_of text.now }
        ensures { IfOk result (λ n. n ≡ text.now) }
    {
        let text_lines = lines_of(alloc, text)?;
        let begun = function_lines(alloc, text_lines.as_slice())?;
        Ok(Names {
            text,
            lines: line_names(alloc, text_lines.as_slice())?,
            functions: line_names(alloc, begun.as_slice())?,
            values: value_names(alloc, text_lines.as_slice())?,
            outline,
        })
    }

    /// Returns the functions of the text with their lines, or none if a line has a fault.
    pub fn outline(&self) -> &Outline<'t>
        ensures { result.now ≡ def.outline_of self.now }
    {
        &self.outline
    }

    /// Returns the name of the line of this number, if it has one. Lines count from 1.
    pub fn line(&self, number: u32) -> Option<&'t str>
        ensures { option_map (λ s. s.now) result ≡ def.line_name self.now number }
    {
        *self.lines.get(number.saturating_sub(1) as usize)?
    }

    /// Returns the name of a function, if it has one.
    pub fn function(&self, function: u32) -> Option<&'t str>
        ensures { option_map (λ s. s.now) result ≡ def.function_name self.now function }
    {
        *self.functions.get(function as usize)?
    }

    /// Returns the name of a value, if it has one.
    pub fn value(&self, value: i64) -> Option<&'t str>
        ensures { option_map (λ s. s.now) result ≡ def.value_name self.now value }
    {
        self.values.get(&value).copied()
    }

    /// Returns the line of the instruction at a place of a function.
    pub fn sentence(&self, function: u32, pc: u32) -> Option<&Sentence<'t>>
        ensures { option_copied result ≡ sentence_at (def.outline_of self.now) function pc }
    {
        self.outline.sentence(function, pc)
    }
}
