//! The files of the process, with `-` for its standard input.

ghost use Rattle.std.specs.Prelude.{◌≡◌, false};

use std::io::{Input, Read};
use std::rt::Files;
use std::{fs, io};
use sts_output::{Host, Sinks, Sources};

/// What the system calls the standard input.
const STANDARD_INPUT: &str = "/dev/stdin";

/// The files of the process; the name `-` is its standard input.
#[derive(Drop)]
pub struct Dashed<'a, R> {
    pub host: Host<'a, R>,
}

impl<'a, R> Dashed<'a, R> {
    /// Returns the files of the process, before the first question.
    pub fn new(rt: &'a R) -> Dashed<'a, R>
        ensures { result.host.said_yes ≡ false }
    {
        Dashed {
            host: Host::new(rt),
        }
    }
}

/// A file or the input stream.
#[derive(Drop)]
pub enum Stream<F, I> {
    File(F),
    Input(I),
}

impl<F: Read, I: Read> Read for Stream<F, I> {
    fn read(&mut self, buf: &mut [u8]) -> io::Result<usize> {
        match self {
            Stream::File(file) => file.read(buf),
            Stream::Input(input) => input.read(buf),
        }
    }
}

impl<R: Files + Input> Sources for Dashed<'_, R> {
    type Source = Stream<R::File, R::Reader>;

    type Input = R::Reader;

    fn open(&self, path: &str) -> io::Result<Stream<R::File, R::Reader>> {
        if path == "-" {
            return Ok(Stream::Input(self.host.rt.reader()));
        }
        match fs::open(self.host.rt, path) {
            Ok(file) => Ok(Stream::File(file)),
            Err(error) => Err(error),
        }
    }

    fn input(&self) -> R::Reader {
        self.host.rt.reader()
    }
}

impl<R: Files> Sinks for Dashed<'_, R> {
    type Sink = R::File;

    ghost said_yes = { λ dashed. dashed.host.said_yes };

    fn create(&self, path: &str) -> io::Result<R::File> {
        self.host.create(path)
    }

    /// The name `-` is that of the file that standard input is.
    fn is_same(&mut self, path: &str, other: &str) -> io::Result<bool> {
        let read = if other == "-" { STANDARD_INPUT } else { other };
        self.host.is_same(path, read)
    }
}
