//! The ends of a text, and the trace of one of them.

ghost use Rattle.std.specs.Prelude.{◌≡◌, IfOk, Some};
ghost use Rattle.sts_trace.specs.Spelling.{trace_text};
ghost use Rattle.look_ends.specs.Listing.{IsListingOf, Listing};
ghost use Rattle.look_page.specs.Ends.{ends_wanted};

use look_ends::{Listing, listed};
use look_host::Silent;
use look_options::{EndsOptions, Limits, Manner};
use std::alloc::{AllocError, Global};
use sts_trace::write_trace;

/// What is printed of the ends, and the trace of one of them.
#[derive(Drop)]
pub(crate) struct Ending {
    pub(crate) printed: Vec<u8>,
    pub(crate) status: u8,
    pub(crate) trace: Vec<u8>,
}

/// All schedules, as long as the search keeps no more than `most` states.
pub(crate) fn wanted(most: u32, expiries: bool, interrupts: u32) -> EndsOptions
    ensures { result ≡ ends_wanted most expiries interrupts }
{
    EndsOptions {
        expiries,
        interrupts,
        manner: Manner::All {
            limits: Limits {
                states: Some(most),
                seconds: None,
            },
        },
    }
}

/// The trace of a listing as a text.
fn spelled(alloc: Global, listing: Listing) -> Result<Ending, AllocError>
    ensures { IfOk result (λ e. (e.printed.items ≡ listing.output.bytes)
        × (e.status ≡ listing.output.status) × (e.trace.items ≡ trace_text listing.trace)) }
{
    let mut trace = Vec::new(alloc);
    if write_trace(listing.trace.as_slice(), &mut trace).is_err() {
        return Err(AllocError);
    }
    Ok(Ending {
        printed: listing.output.bytes,
        status: listing.output.status,
        trace,
    })
}

/// Finds the ends of a text, and keeps the trace of the one of this number.
///
/// # Errors
///
/// Memory ran out.
pub(crate) fn traced(
    alloc: Global,
    wanted: EndsOptions,
    number: u32,
    text: &[u8],
) -> Result<Ending, AllocError>
    ensures { IfOk result (λ e. (r : Listing)
        × IsListingOf wanted (Some number) text.now r
        × (e.printed.items ≡ r.output.bytes) × (e.status ≡ r.output.status)
        × (e.trace.items ≡ trace_text r.trace)) }
{
    let listing = listed(alloc, wanted, Some(number), text, &mut Silent)?;
    spelled(alloc, listing)
}
