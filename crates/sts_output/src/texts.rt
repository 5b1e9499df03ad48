//! The texts that a command line names, read whole.

ghost use Rattle.std.specs.Prelude.{◌≡◌, IfOk, map};
ghost use Rattle.std.specs.String.{string_bytes};
ghost use Rattle.sts_output.specs.Streams as def;
ghost use Rattle.sts_output.specs.Taking.{IsTakenOf};

use crate::file_error::FileError;
use crate::sources::{Sources, file};
use crate::taking::bytes_of;
use std::alloc::{AllocError, Global};

/// One byte more than a text may have, so that an endless file is a text too long.
pub const MOST_OF_A_TEXT: u64 = 1_048_577;

/// The limit for a trace or the input stream: memory ends first.
pub const MOST_OF_A_STREAM: u64 = u64::MAX;

/// The message for a word that is no text.
pub const NOT_TEXT: &[u8] = b"error: a word of the command line is not UTF-8\n";

/// Returns the first `most` bytes of a file, or which file failed.
fn named_file<'a, S: Sources>(
    alloc: Global,
    sources: &S,
    path: &'a str,
    most: u64,
) -> Result<Vec<u8>, FileError<'a>>
    ensures { IfOk result (λ taken. IsTakenOf (S.held sources.now path.now) most taken.items) }
{
    match file(alloc, sources, path, most) {
        Ok(taken) => Ok(taken),
        Err(error) => Err(FileError::unread(path, &error)),
    }
}

/// Returns the text of a program.
///
/// # Errors
///
/// Memory ran out, or the file could not be opened or read.
pub fn read_text<'a, S: Sources>(
    alloc: Global,
    sources: &S,
    path: &'a str,
) -> Result<Vec<u8>, FileError<'a>>
    ensures { IfOk result (λ taken. IsTakenOf (S.held sources.now path.now)
        def.most_of_a_text taken.items) }
{
    named_file(alloc, sources, path, MOST_OF_A_TEXT)
}

/// Returns the bytes of a file of events, which are empty if no file is named.
fn events_text<'a, S: Sources>(
    alloc: Global,
    sources: &S,
    path: Option<&'a str>,
) -> Result<Vec<u8>, FileError<'a>>
    ensures { IfOk result (λ taken. IsTakenOf (def.events_of (S.held sources.now) path.entry)
        def.most_of_a_stream taken.items) }
{
    match path {
        Some(path) => named_file(alloc, sources, path, MOST_OF_A_STREAM),
        None => Ok(Vec::new(alloc)),
    }
}

/// A program's text, and the text of its events: a trace or an outside text.
#[derive(Drop)]
pub struct Texts {
    pub program: Vec<u8>,
    pub events: Vec<u8>,
}

/// Reads a text and then that of the events, which is empty if no file is named.
///
/// # Errors
///
/// Memory ran out, or a file could not be opened or read.
pub fn read_texts<'a, S: Sources>(
    alloc: Global,
    sources: &S,
    path: &'a str,
    events: Option<&'a str>,
) -> Result<Texts, FileError<'a>>
    ensures program { IfOk result (λ t. IsTakenOf (S.held sources.now path.now)
        def.most_of_a_text t.program.items) }
    ensures events { IfOk result (λ t. IsTakenOf (def.events_of (S.held sources.now) events.entry)
        def.most_of_a_stream t.events.items) }
{
    let program = read_text(alloc, sources, path)?;
    let events = events_text(alloc, sources, events)?;
    Ok(Texts { program, events })
}

/// Returns all that the input stream has.
///
/// # Errors
///
/// Memory ran out, or a read failed.
pub fn read_input<S: Sources>(alloc: Global, sources: &S) -> Result<Vec<u8>, FileError<'static>>
    ensures { IfOk result (λ taken. IsTakenOf (S.offered sources.now)
        def.most_of_a_stream taken.items) }
{
    match bytes_of(alloc, &mut sources.input(), MOST_OF_A_STREAM) {
        Ok(taken) => Ok(taken),
        Err(error) => Err(FileError::unread("standard input", &error)),
    }
}

/// The words as texts that are borrowed.
///
/// # Errors
///
/// Memory ran out.
pub fn borrowed(alloc: Global, words: &[String]) -> Result<Vec<&str>, AllocError>
    ensures { IfOk result (λ ws. map (λ w. w.now) ws.items ≡ map string_bytes words.now) }
{
    let mut texts = Vec::new(alloc);
    for i in 0..words.len() {
        texts.push(words[i].as_str())?;
    }
    Ok(texts)
}
