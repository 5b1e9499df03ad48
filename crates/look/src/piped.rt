//! The trace of an end on standard output.

ghost use Rattle.std.specs.Prelude.{◌≡◌, IfOk};
ghost use Rattle.look.specs.Piping as def;

use crate::ends::listed_by;
use look_args::asked::{Asked, Kept};
use look_ends::write_listing;
use look_host::Progress;
use look_options::EndsOptions;
use std::alloc::Global;
use std::io::Write;
use sts_output::{Notes, Sources, Status, TakeError, failed, file_failed, read_text};

/// A file, what is asked of its ends, whether they are lines of JSON, and the number of the end with
/// the trace.
#[derive(Clone, Copy)]
pub struct Piped<'a> {
    pub file: &'a str,
    pub wanted: EndsOptions,
    pub json: bool,
    pub number: u32,
}

/// The end whose trace goes to standard output, if the file of the trace is named `-`.
fn piped_by<'a>(
    file: &'a str,
    wanted: EndsOptions,
    json: bool,
    kept: Option<Kept<'_>>,
) -> Option<Piped<'a>>
    ensures { result ≡ def.piped_by file.entry wanted json kept.entry }
{
    let kept = kept?;
    if kept.file == "-" {
        Some(Piped {
            file,
            wanted,
            json,
            number: kept.number,
        })
    } else {
        None
    }
}

/// The end whose trace a line asks for on standard output, if it does.
pub fn piped_of<'a>(asked: Asked<'a>) -> Option<Piped<'a>>
    ensures { result ≡ def.piped_of asked.entry }
{
    match asked {
        Asked::Ends { file, ends } => piped_by(file, ends.wanted, ends.json, ends.kept),
        _ => None,
    }
}

/// Writes the trace of an end of a text to `out`, and what is printed of the ends to `err`.
fn on_piped_text<P: Progress, W: Write, E: Write>(
    alloc: Global,
    piped: Piped<'_>,
    text: &[u8],
    progress: &mut P,
    out: &mut W,
    err: &mut E,
    notes: &mut Notes,
) -> Status
    ensures { IfOk result (def.IsPipedText piped.entry text.now (record {
      out_old = W.contents out.old;
      out_new = W.contents out.new;
      err_old = E.contents err.old;
      err_new = E.contents err.new;
    })) }
{
    let number = Some(piped.number);
    match listed_by(alloc, piped.json, piped.wanted, number, text, progress) {
        Ok(listing) => {
            let mut failure = None;
            let status = write_listing(&listing, out, err, &mut failure)?;
            notes.written("-", failure);
            Ok(status)
        }
        Err(_) => failed(TakeError::Memory, err),
    }
}

/// Does the same for the text of a file.
///
/// # Errors
///
/// A write failed.
pub fn on_piped<S: Sources, P: Progress, W: Write, E: Write>(
    alloc: Global,
    sources: &S,
    piped: Piped<'_>,
    progress: &mut P,
    out: &mut W,
    err: &mut E,
    notes: &mut Notes,
) -> Status
    ensures { IfOk result (def.IsPiped piped.entry (S.held sources.now piped.entry.file.now)
        (record {
          out_old = W.contents out.old;
          out_new = W.contents out.new;
          err_old = E.contents err.old;
          err_new = E.contents err.new;
        })) }
{
    match read_text(alloc, sources, piped.file) {
        Ok(text) => on_piped_text(alloc, piped, text.as_slice(), progress, out, err, notes),
        Err(error) => file_failed(error, err, notes),
    }
}
