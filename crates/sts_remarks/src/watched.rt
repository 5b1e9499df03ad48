//! A writer that knows why a write failed, and the line that says it.

ghost use Rattle.std.specs.Prelude.{◌≡◌, IfOk, option_map};
ghost use Rattle.sts_remarks.specs.Unwritten as def;

use std::alloc::{AllocError, Global};
use std::io;
use std::io::{ErrorKind, Write};
use sts_output::FileError;

/// A writer that knows why its last failed write failed.
#[derive(Drop)]
pub struct Watched<W> {
    writer: W,
    failure: Option<ErrorKind>,
}

impl<W> Watched<W> {
    /// Returns the writer, before its first write.
    pub fn new(writer: W) -> Watched<W>
        ensures { result ≡ record { writer = writer; failure = None } }
    {
        Watched {
            writer,
            failure: None,
        }
    }

    /// Returns why the last failed write failed, if one failed.
    pub fn failure(&self) -> Option<ErrorKind>
        ensures { result ≡ self.now.failure }
    {
        self.failure
    }
}

impl<W: Write> Write for Watched<W> {
    ghost contents = { λ w. W.contents w.writer };

    fn write(&mut self, buf: &[u8]) -> io::Result<usize> {
        let written = self.writer.write(buf);
        if let Err(error) = &written {
            self.failure = Some(error.kind());
        }
        written
    }

    fn flush(&mut self) -> io::Result<()> {
        self.writer.flush()
    }
}

/// Returns the line that says why standard output was not written, or `None` if its reader has gone.
/// It begins with the name of `program`.
///
/// # Errors
///
/// Memory ran out.
pub fn unwritten_line(
    alloc: Global,
    program: &str,
    kind: ErrorKind,
) -> Result<Option<Vec<u8>>, AllocError>
    ensures { IfOk result (λ r. option_map (λ line. line.items) r
        ≡ def.unwritten_line program.now kind) }
{
    match kind {
        ErrorKind::BrokenPipe => Ok(None),
        _ => {
            let path = "standard output";
            Ok(Some(FileError::Unwritten { path, kind }.line(alloc, program)?))
        }
    }
}
