//! The sources of the program's bytes: files by their names, and the input stream.

ghost use Rattle.std.specs.Prelude.{◌≡◌, false, IfOk};
ghost use Rattle.sts_output.specs.Taking.{Gives, IsTakenOf};

use crate::taking::bytes_of;
use std::alloc::Global;
use std::io::Read;
use std::rt::Files;
use std::{fs, io};

/// Opens the files that a command line names. A test may implement its own.
pub trait Sources {
    ghost use Rattle.std.specs.Prelude.{List, ℕ, Option, None};

    type Source: Read + Drop;

    type Input: Read + Drop;

    /// The bytes of the file of a name, if they are known.
    ghost held: { Self → List ℕ → Option (List ℕ) } = { λ _ _. None };

    /// The bytes of the input stream, if they are known.
    ghost offered: { Self → Option (List ℕ) } = { λ _. None };

    fn open(&self, path: &str) -> io::Result<Self::Source>
        ensures bytes { IfOk result (λ s. Gives (held self.now path.now)
            (Self.Source.remaining s)) };

    fn input(&self) -> Self::Input
        ensures bytes { Gives (offered self.now) (Self.Input.remaining result) };
}

/// The files and the standard input of the process.
#[derive(Drop)]
pub struct Host<'a, R> {
    pub rt: &'a R,
    /// Whether the system said of two names that they are of the same file.
    pub said_yes: bool,
}

impl<'a, R> Host<'a, R> {
    /// Returns the files of the process, before the first question.
    pub fn new(rt: &'a R) -> Host<'a, R>
        ensures { result.said_yes ≡ false }
    {
        Host {
            rt,
            said_yes: false,
        }
    }
}

impl<R: Files + io::Input> Sources for Host<'_, R> {
    type Source = R::File;

    type Input = R::Reader;

    fn open(&self, path: &str) -> io::Result<R::File> {
        fs::open(self.rt, path)
    }

    fn input(&self) -> R::Reader {
        self.rt.reader()
    }
}

/// Returns the first `most` bytes of a file.
///
/// # Errors
///
/// Memory ran out, or the file could not be opened or read.
pub fn file<S: Sources>(alloc: Global, sources: &S, path: &str, most: u64) -> io::Result<Vec<u8>>
    ensures { IfOk result (λ taken. IsTakenOf (S.held sources.now path.now) most taken.items) }
{
    let mut source = sources.open(path)?;
    bytes_of(alloc, &mut source, most)
}
