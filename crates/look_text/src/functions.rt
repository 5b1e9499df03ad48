//! The functions of a text, if they can be read.

ghost use Rattle.std.specs.Prelude.{◌≡◌, IfOk, Ok, None, Some};
ghost use Rattle.std.specs.Option.{option_copied};
ghost use Rattle.look_text.specs.Functions as def;

use std::alloc::{AllocError, Global};
use std::marker::Model;
use sts_asm::{AsmError, AsmKind, Outline, outlined};

/// A text, and its functions if they can be read. To contracts it is the text.
#[derive(Drop)]
pub(crate) struct Source<'o, 'a> {
    text: &'a [u8],
    functions: Option<&'o Outline<'a>>,
}

impl<'o, 'a> Model for Source<'o, 'a> {
    ghost use Rattle.std.specs.Prelude.{◌≡◌, ℕ, List};
    ghost use Rattle.std.specs.Option.{option_copied};
    ghost use Rattle.look_text.specs.Functions.{functions_of};

    ghost Value = { List ℕ };

    ghost view = { λ s. s.text.now };

    ghost invariant = { λ s. functions_of s.text.now ≡ option_copied s.functions };
}

impl<'o, 'a> Source<'o, 'a> {
    /// A text that has these functions.
    pub(crate) fn new(text: &'a [u8], functions: Option<&'o Outline<'a>>) -> Source<'o, 'a>
        requires { def.functions_of text.now ≡ option_copied functions }
        ensures { result ≡ text.now }
    {
        Source { text, functions }
    }

    pub(crate) fn text(&self) -> &'a [u8]
        ensures { result.now ≡ self.now }
    {
        self.text
    }

    pub(crate) fn functions(&self) -> Option<&'o Outline<'a>>
        ensures { option_copied result ≡ def.functions_of self.now }
    {
        self.functions
    }
}

/// Returns the functions of a text, or none if a fault is found before any name is looked up.
///
/// # Errors
///
/// Memory ran out.
pub fn functions_of<'a>(alloc: Global, text: &'a [u8]) -> Result<Option<Outline<'a>>, AllocError>
    ensures { IfOk result (λ found. def.functions_of text.now ≡ found) }
{
    match outlined(alloc, text) {
        Ok(outline) => Ok(Some(outline)),
        Err(
            AsmError {
                kind: AsmKind::Memory,
                ..
            },
        ) => Err(AllocError),
        Err(_) => Ok(None),
    }
}
