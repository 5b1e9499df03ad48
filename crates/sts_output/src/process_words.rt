//! The words that the process was given.

use std::alloc::Global;
use std::env;
use std::env::FillError;
use std::io::ErrorKind;
use std::rt::Env;

/// Why the words could not be read.
#[derive(Clone, Copy)]
pub enum WordsError {
    /// Memory ran out.
    Memory,
    /// A word after the program's name is no UTF-8.
    NotText,
}

/// An environment with a fixed name for the program, whatever it was started as.
#[derive(Drop)]
struct Named<'a, R> {
    rt: &'a R,
    name: &'static [u8],
}

impl<R: Env> Env for Named<'_, R> {
    fn arg(&self, i: usize, buf: &mut [u8]) -> Result<usize, FillError> {
        if i > 0 {
            return self.rt.arg(i, buf);
        }
        if buf.len() < self.name.len() {
            return Err(FillError::TooLong);
        }
        buf[..self.name.len()].copy_from_slice(self.name);
        Ok(self.name.len())
    }

    fn var(&self, name: &str, buf: &mut [u8]) -> Result<usize, FillError> {
        self.rt.var(name, buf)
    }

    fn var_at(&self, i: usize, buf: &mut [u8]) -> Result<usize, FillError> {
        self.rt.var_at(i, buf)
    }
}

/// The words of the command line. The first is the name that the program goes by.
///
/// # Errors
///
/// Memory ran out, or a word after the program's name is no UTF-8.
pub fn words<R: Env>(
    rt: &R,
    alloc: Global,
    name: &'static [u8],
) -> Result<Vec<String>, WordsError> {
    match env::args(&(Named { rt, name }, alloc)) {
        Ok(words) => match words.collect(alloc) {
            Ok(words) => Ok(words),
            Err(_) => Err(WordsError::Memory),
        },
        Err(error) => match error.kind() {
            ErrorKind::InvalidData => Err(WordsError::NotText),
            _ => Err(WordsError::Memory),
        },
    }
}
