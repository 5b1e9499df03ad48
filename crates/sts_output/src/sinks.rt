//! The places that the bytes of a trace go to: files by name.

ghost use Rattle.std.specs.Prelude.{◌≡◌, ◌↔◌, ◌||◌, true, false, IfOk};
ghost use Rattle.sts_output.specs.Streams.{Differ, DifferFrom};

use crate::file_error::FileError;
use crate::sources::Host;
use std::alloc::Global;
use std::fs::Metadata;
use std::io::{BufWriter, ErrorKind, Write};
use std::os::unix::fs::MetadataExt;
use std::rt::Files;
use std::{fs, io};

/// Makes the files that a command line names. A test may implement its own.
pub trait Sinks {
    ghost use Rattle.std.specs.Prelude.{◌≡◌, ◌||◌, List, ℕ, Bool, Option, None, IfOk, IfSome};

    type Sink: Write + Drop;

    /// Whether two names are of the same file, if that is known.
    ghost same: { Self → List ℕ → List ℕ → Option Bool } = { λ _ _ _. None };

    /// Whether some answer of `is_same` was yes.
    ghost said_yes: { Self → Bool };

    /// Makes a file of this name without a byte. A file that exists loses its bytes.
    fn create(&self, path: &str) -> io::Result<Self::Sink>;

    /// Returns whether both names are of the same file. Then making the first empties the second.
    ///
    /// # Errors
    ///
    /// The system doesn't say which file a name is of.
    fn is_same(&mut self, path: &str, other: &str) -> io::Result<bool>
        ensures known { IfOk result (λ answer.
            IfSome (same self.old path.now other.now) (λ known. answer ≡ known)) }
        ensures kept { same self.new ≡ same self.old }
        ensures said { IfOk result (λ answer. said_yes self.new ≡ (said_yes self.old || answer)) };
}

impl<R: Files> Sinks for Host<'_, R> {
    type Sink = R::File;

    ghost said_yes = { λ host. host.said_yes };

    fn create(&self, path: &str) -> io::Result<R::File> {
        fs::create(self.rt, path)
    }

    /// Devices and pipes have no bytes to lose, so they are the same as no file.
    fn is_same(&mut self, path: &str, other: &str) -> io::Result<bool> {
        let made = match fs::metadata(self.rt, path) {
            Ok(made) => made,
            Err(error) if error.kind() == ErrorKind::NotFound => return Ok(false),
            Err(error) => return Err(error),
        };
        let read = fs::metadata(self.rt, other)?;
        let is_same = made.is_file() && is_one_file(FileId::of(&made), FileId::of(&read));
        self.said_yes = self.said_yes || is_same;
        Ok(is_same)
    }
}

/// The number of a file system, and that of a file in it.
#[derive(Clone, Copy)]
struct FileId {
    device: u64,
    inode: u64,
}

impl FileId {
    fn of(found: &Metadata) -> FileId {
        FileId {
            device: found.dev(),
            inode: found.ino(),
        }
    }
}

/// Returns whether both are numbers of one file.
fn is_one_file(made: FileId, read: FileId) -> bool
    ensures { (result ≡ true) ↔ (made ≡ read) }
{
    made.device == read.device && made.inode == read.inode
}

/// Returns whether a name is of one of the files that a run reads.
fn is_read<S: Sinks>(
    sinks: &mut S,
    path: &str,
    file: &str,
    outside: Option<&str>,
) -> io::Result<bool>
    ensures file { IfOk result (λ is. is ≡ false
        → Differ (S.same sinks.old path.now file.now)) }
    ensures outside { IfOk result (λ is. is ≡ false
        → DifferFrom (S.same sinks.old path.now) outside.entry) }
    ensures said { IfOk result (λ is. S.said_yes sinks.new ≡ (S.said_yes sinks.old || is)) }
{
    if sinks.is_same(path, file)? {
        return Ok(true);
    }
    match outside {
        Some(outside) => sinks.is_same(path, outside),
        None => Ok(false),
    }
}

/// Passes the name of a file that may be made: a run doesn't read it.
///
/// # Errors
///
/// The file is `file` or `outside`, or the system doesn't say which file it is.
pub fn spared<'a, S: Sinks>(
    sinks: &mut S,
    path: &'a str,
    file: &str,
    outside: Option<&str>,
) -> Result<(), FileError<'a>>
    ensures file { IfOk result (λ _. Differ (S.same sinks.old path.now file.now)) }
    ensures outside { IfOk result (λ _. DifferFrom (S.same sinks.old path.now) outside.entry) }
    ensures said { IfOk result (λ _. S.said_yes sinks.new ≡ S.said_yes sinks.old) }
{
    match is_read(sinks, path, file, outside) {
        Ok(false) => Ok(()),
        Ok(true) => Err(FileError::Overwrites { path }),
        Err(error) => Err(FileError::unwritten(path, &error)),
    }
}

/// Makes a file for many small writes, unless it is a file that a run reads.
///
/// # Errors
///
/// Memory ran out, the file could not be made, or it is `file` or `outside`: then nothing was
/// opened for writing.
pub fn made<'a, S: Sinks>(
    alloc: Global,
    sinks: &mut S,
    path: &'a str,
    file: &str,
    outside: Option<&str>,
) -> Result<BufWriter<S::Sink>, FileError<'a>>
    ensures file { IfOk result (λ _. Differ (S.same sinks.old path.now file.now)) }
    ensures outside { IfOk result (λ _. DifferFrom (S.same sinks.old path.now) outside.entry) }
    ensures said { IfOk result (λ _. S.said_yes sinks.new ≡ S.said_yes sinks.old) }
{
    spared(sinks, path, file, outside)?;
    match sinks.create(path) {
        Ok(sink) => {
            BufWriter::new(alloc, sink).map_err(|error| FileError::unwritten(path, &error))
        }
        Err(error) => Err(FileError::unwritten(path, &error)),
    }
}
