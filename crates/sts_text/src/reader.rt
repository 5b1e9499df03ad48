//! The words of a line, in order.

ghost use Rattle.std.specs.Prelude.{◌≡◌, MatchOption, [], ◌∷◌};
ghost use Rattle.sts_text.specs.Words.{words};

use crate::cutting::next_word;
use std::marker::Model;

/// The words of a line that are still to be read, separated by spaces, tabs and carriage returns.
#[derive(Drop)]
pub struct Words<'a> {
    line: &'a [u8],
}

impl<'a> Model for Words<'a> {
    ghost use Rattle.std.specs.Prelude.{List, ℕ};
    ghost use Rattle.sts_text.specs.Words.{words};

    ghost Value = { List (List ℕ) };

    ghost view = { λ w. words w.line.now };
}

impl<'a> Words<'a> {
    /// The words of the line. No word is read yet.
    pub fn new(line: &'a [u8]) -> Words<'a>
        ensures { result ≡ words line.now }
    {
        Words { line }
    }

    /// Takes the next word, or answers `None` if none is left.
    pub fn word(&mut self) -> Option<&'a [u8]>
        ensures { MatchOption result ((self.old ≡ []) × (self.new ≡ []))
            (λ word. self.old ≡ word.now ∷ self.new) }
    {
        let (word, rest) = next_word(self.line)?;
        self.line = rest;
        Some(word)
    }
}
