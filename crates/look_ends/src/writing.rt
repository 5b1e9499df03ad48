//! Writes what is printed of the ends of a text, and the trace of one of them.

ghost use Rattle.std.specs.Prelude.{IfOk, OnOk, None};
ghost use Rattle.std.specs.Io.KnownBytes.{Appends};
ghost use Rattle.sts_output.specs.Output as cli;
ghost use Rattle.sts_trace.specs.Spelling.{trace_text};
ghost use Rattle.look_ends.specs.Listing as def;

use crate::listing::{Listing, listed_in};
use look_end_lines::{EndLines, EndsForm};
use look_host::Progress;
use look_options::EndsOptions;
use std::alloc::Global;
use std::io;
use std::io::Write;
use sts_model::Event;
use sts_output::{Status, TakeError, failed, written};
use sts_trace::write_trace;

/// Finds the ends of a text, writes what is shown of them in a form, and returns the status.
///
/// It takes all its memory before the first byte is written.
///
/// # Errors
///
/// A write failed.
pub fn write_ends_in<F: EndsForm, P: Progress, W: Write>(
    alloc: Global,
    form: &F,
    wanted: EndsOptions,
    text: &[u8],
    progress: &mut P,
    out: &mut W,
) -> Status
    ensures { IfOk result (λ s. (o : def.Listing)
        × def.IsListingIn (F.shows form.now) wanted None text.now o
        × cli.Writes (W.contents out.old) (W.contents out.new) s o.output) }
{
    match listed_in(alloc, form, wanted, None, text, progress) {
        Ok(listing) => written(out, listing.output.bytes.as_slice(), listing.output.status),
        Err(_) => failed(TakeError::Memory, out),
    }
}

/// Finds the ends of a text, writes the lines that are printed of them, and returns the status.
///
/// # Errors
///
/// A write failed.
pub fn write_ends<P: Progress, W: Write>(
    alloc: Global,
    wanted: EndsOptions,
    text: &[u8],
    progress: &mut P,
    out: &mut W,
) -> Status
    ensures { IfOk result (λ s. (o : def.Listing) × def.IsListingOf wanted None text.now o
        × cli.Writes (W.contents out.old) (W.contents out.new) s o.output) }
{
    write_ends_in(alloc, &EndLines, wanted, text, progress, out)
}

/// Writes all of a trace.
fn traced<T: Write>(events: &[Event], trace: &mut T) -> io::Result<()>
    ensures { OnOk result (Appends (T.contents trace.old) (T.contents trace.new)
        (trace_text events.now)) }
{
    write_trace(events, trace)?;
    trace.flush()
}

/// Writes the trace of a listing, and then what is printed. If the trace can't be written,
/// `unwritten` gets the reason, and only `error file` is printed.
///
/// # Errors
///
/// A write to `out` failed.
pub fn write_listing<T: Write, W: Write>(
    listing: &Listing,
    trace: &mut T,
    out: &mut W,
    unwritten: &mut Option<io::Error>,
) -> Status
    ensures { IfOk result (λ s. def.ListingWrites (record {
      trace_old = T.contents trace.old;
      trace_new = T.contents trace.new;
      out_old = W.contents out.old;
      out_new = W.contents out.new;
    }) s listing.now) }
{
    match traced(listing.trace.as_slice(), trace) {
        Ok(()) => written(out, listing.output.bytes.as_slice(), listing.output.status),
        Err(error) => {
            *unwritten = Some(error);
            failed(TakeError::Read, out)
        }
    }
}
