//! What is found of the ends of a text, in lines or as JSON.

ghost use Rattle.std.specs.Prelude.{IfOk, None};
ghost use Rattle.sts_asm.specs.Text.{judged};
ghost use Rattle.sts_output.specs.Output.{Writes};
ghost use Rattle.look_ends.specs.Listing.{IsListingIn, Listing as AnyListing, ListsIn};
ghost use Rattle.look.specs.Piping.{form_of};

use look_ends::{Listing, listed, listed_in, write_ends, write_ends_in};
use look_ends_json::JsonEnds;
use look_host::Progress;
use look_options::EndsOptions;
use std::alloc::{AllocError, Global};
use std::io::Write;
use sts_output::Status;

/// Finds the ends of a text, and keeps the trace of the end of a number, if one is named.
///
/// # Errors
///
/// Memory was refused.
pub fn listed_by<P: Progress>(
    alloc: Global,
    json: bool,
    wanted: EndsOptions,
    number: Option<u32>,
    text: &[u8],
    progress: &mut P,
) -> Result<Listing, AllocError>
    ensures { IfOk result (ListsIn (form_of json) (judged text.now) text.now wanted number) }
{
    if json {
        listed_in(alloc, &JsonEnds, wanted, number, text, progress)
    } else {
        listed(alloc, wanted, number, text, progress)
    }
}

/// Finds the ends of a text, writes them, and returns the status.
///
/// # Errors
///
/// A write failed.
pub fn write_ends_by<P: Progress, W: Write>(
    alloc: Global,
    json: bool,
    wanted: EndsOptions,
    text: &[u8],
    progress: &mut P,
    out: &mut W,
) -> Status
    ensures { IfOk result (λ s. (o : AnyListing) × IsListingIn (form_of json) wanted None text.now o
        × Writes (W.contents out.old) (W.contents out.new) s o.output) }
{
    if json {
        write_ends_in(alloc, &JsonEnds, wanted, text, progress, out)
    } else {
        write_ends(alloc, wanted, text, progress, out)
    }
}
