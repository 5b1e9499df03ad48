//! Why a file that a command line names was not read or written.

ghost use Rattle.std.specs.Prelude.{◌≡◌, ◌++◌, IfOk, codes};
ghost use Rattle.std.specs.IoError.{error_kind};
ghost use Rattle.sts_output.specs.Reasons as def;
ghost use Rattle.sts_output.specs.declared.file_error.FileError.TheVariants as file_error;

use crate::taking::TakeError;
use std::alloc::{AllocError, Global};
use std::io;
use std::io::ErrorKind;

/// A file that was not read or written, and why.
#[derive(Clone, Copy)]
pub enum FileError<'a> {
    /// The file could not be opened or read.
    Unread { path: &'a str, kind: ErrorKind },
    /// The file could not be made or written.
    Unwritten { path: &'a str, kind: ErrorKind },
    /// The file is to be written, but it is one of those that are read.
    Overwrites { path: &'a str },
}

impl<'a> FileError<'a> {
    /// Returns why a file was not read.
    pub fn unread(path: &'a str, error: &io::Error) -> FileError<'a>
        ensures { result ≡ file_error.Unread path.entry (error_kind error.now) }
    {
        FileError::Unread {
            path,
            kind: error.kind(),
        }
    }

    /// Returns why a file was not written.
    pub fn unwritten(path: &'a str, error: &io::Error) -> FileError<'a>
        ensures { result ≡ file_error.Unwritten path.entry (error_kind error.now) }
    {
        FileError::Unwritten {
            path,
            kind: error.kind(),
        }
    }

    /// Returns what standard output reports of it.
    pub fn take_error(self) -> TakeError {
        match self {
            FileError::Unread { kind, .. } | FileError::Unwritten { kind, .. } => {
                TakeError::of(kind)
            }
            FileError::Overwrites { .. } => TakeError::Read,
        }
    }

    /// Returns the line that says which file it is and what failed; it begins with the program's
    /// name.
    ///
    /// # Errors
    ///
    /// Memory ran out.
    pub fn line(self, alloc: Global, program: &str) -> Result<Vec<u8>, AllocError>
        ensures { IfOk result (λ line. line.items ≡ def.file_line program.now self.entry) }
    {
        match self {
            FileError::Unread { path, kind } => {
                unread_line(alloc, program, path, kind_words(kind), input_words(path))
            }
            FileError::Unwritten { path, kind } => {
                unwritten_line(alloc, program, path, kind_words(kind))
            }
            FileError::Overwrites { path } => {
                unwritten_line(alloc, program, path, "this run reads that file")
            }
        }
    }
}

/// Returns the line about a file that was not read: what failed, and a hint.
fn unread_line<'a>(
    alloc: Global,
    program: &'a str,
    path: &'a str,
    words: &'a str,
    hint: &'a str,
) -> Result<Vec<u8>, AllocError>
    ensures { IfOk result (λ line. line.items ≡ program.now ++ codes ": cannot read " ++ path.now
        ++ codes ": " ++ words.now ++ hint.now ++ codes "\n") }
{
    let parts = [program, ": cannot read ", path, ": ", words, hint, "\n"];
    Ok(parts.concat(alloc)?.into_bytes())
}

/// Returns the line about a file that was not written: what failed.
fn unwritten_line<'a>(
    alloc: Global,
    program: &'a str,
    path: &'a str,
    words: &'a str,
) -> Result<Vec<u8>, AllocError>
    ensures { IfOk result (λ line. line.items
        ≡ def.unwritten_line program.now path.now words.now) }
{
    let parts = [program, ": cannot write ", path, ": ", words, "\n"];
    Ok(parts.concat(alloc)?.into_bytes())
}

/// Returns what failed, in words.
fn kind_words(kind: ErrorKind) -> &'static str
    ensures { result.now ≡ def.kind_words kind }
{
    match kind {
        ErrorKind::NotFound => "there is no such file",
        ErrorKind::PermissionDenied => "permission is denied",
        ErrorKind::IsADirectory => "it is a directory",
        ErrorKind::NotADirectory => "a part of its path is no directory",
        ErrorKind::ReadOnlyFilesystem => "its file system is read-only",
        ErrorKind::StorageFull => "no space is left",
        ErrorKind::OutOfMemory => "out of memory",
        _ => "the system reports an error",
    }
}

/// Returns a hint for a person who names a file `-`.
fn input_words(path: &str) -> &'static str
    ensures { result.now ≡ def.input_words path.now }
{
    if path == "-" {
        " (standard input is /dev/stdin)"
    } else {
        ""
    }
}
