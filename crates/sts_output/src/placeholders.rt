//! A placeholder for a stream that the process was started without.

use std::rt::Files;
use std::{fs, io};

/// Opens a folder, which can be neither read nor written. While it is open in the place of a
/// missing stream, no file that is made later is taken for that stream. A use of the stream still
/// fails.
pub fn placeholder<R: Files>(rt: &R) -> io::Result<R::File> {
    fs::open(rt, "/")
}
