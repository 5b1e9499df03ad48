//! Writes what is printed.

ghost use Rattle.std.specs.Prelude.{◌≡◌, IfOk};
ghost use Rattle.sts_output.specs.Output as def;
ghost use Rattle.sts_output.specs.declared.taking.TakeError.{TakeError as Failure};

use crate::file_error::FileError;
use crate::notes::Notes;
use crate::taking::TakeError;
use std::io::Write;

/// Writing what is printed failed; some of it may have been written.
#[derive(Clone, Copy)]
pub struct WriteFailed;

/// The status of a program, if all that it wrote could be written.
pub type Status = Result<u8, WriteFailed>;

/// The status if memory, a file or a stream failed.
pub const STATUS_OUTSIDE: u8 = 6;

/// Writes all of these bytes, and gives the status.
///
/// # Errors
///
/// A write failed.
pub fn written<W: Write>(out: &mut W, bytes: &[u8], status: u8) -> Status
    ensures { IfOk result (λ s. (o : def.Output)
        × (o ≡ record { bytes = bytes.now; status = status })
        × def.Writes (W.contents out.old) (W.contents out.new) s o) }
{
    match out.write_all(bytes) {
        Ok(()) => Ok(status),
        Err(_) => Err(WriteFailed),
    }
}

/// Writes the output for a failure of memory, a file or a stream, and gives the status.
///
/// # Errors
///
/// A write failed.
pub fn failed<W: Write>(error: TakeError, out: &mut W) -> Status
    ensures { IfOk result (λ s.
        def.Writes (W.contents out.old) (W.contents out.new) s (def.failure_output error)) }
{
    match error {
        TakeError::Memory => written(out, b"error memory\n", STATUS_OUTSIDE),
        TakeError::Read => written(out, b"error file\n", STATUS_OUTSIDE),
    }
}

/// Writes the output for a file that was not read or written, notes which file, and returns the
/// status.
///
/// # Errors
///
/// A write failed.
pub fn file_failed<W: Write>(error: FileError<'_>, out: &mut W, notes: &mut Notes) -> Status
    ensures { IfOk result (λ s. (e : Failure)
        × def.Writes (W.contents out.old) (W.contents out.new) s (def.failure_output e)) }
{
    notes.file(error);
    failed(error.take_error(), out)
}
