//! The calls of a web page: they give what `sts` and `look` print for bytes that the page has put
//! into memory.
#![tactic(auto)]

ghost use Rattle.std.specs.Prelude.{[], None, false};
ghost use Rattle.sts_output.specs.Output.{IsOutputOf};
ghost use Rattle.look_picture.specs.Picture.{IsPictureOf};
ghost use Rattle.look_places.specs.Named.{IsNamedExplanation};
ghost use Rattle.look_run.specs.Output.{IsRunExplanation};
ghost use Rattle.look_lines.specs.View.{IsViewOf};
ghost use Rattle.look_view.specs.View.{IsNamedViewOf};
ghost use Rattle.look_page.specs.Ends.{HandsEnds, IsListing, ends_wanted};
ghost use Rattle.look_page.specs.Handed.{Hands, IsHanded};
ghost use Rattle.look_page.specs.Printed.{Prints, all_events};

mod ending;
mod printing;

use crate::ending::{traced, wanted};
use crate::printing::{Asked, print};
use look_options::ViewOptions;
use std::alloc::Global;
use sts_output::{Mode, STATUS_OUTSIDE};

/// The output if memory ran out.
const OUT_OF_MEMORY: &[u8] = b"error memory\n";

/// Hands over the front of the bytes, as far as there is room, and the number of all bytes.
fn hand(bytes: &[u8], status: u8, out: &mut [u8], size: &mut usize) -> u8
    ensures { IsHanded bytes.now status (record {
      status = result;
      size = size.new;
      before = out.old;
      after = out.new;
    }) }
{
    let n = bytes.len().min(out.len());
    out[..n].copy_from_slice(&bytes[..n]);
    *size = bytes.len();
    status
}

/// Hands over what is printed.
fn shown(
    alloc: Global,
    asked: Asked,
    text: &[u8],
    trace: &[u8],
    out: &mut [u8],
    size: &mut usize,
) -> u8
    ensures { Hands (Prints asked text.now trace.now)
        (record { status = result; size = size.new; before = out.old; after = out.new }) }
{
    let mut printed = Vec::new(alloc);
    match print(alloc, asked, text, trace, &mut printed) {
        Ok(status) => hand(printed.as_slice(), status, out, size),
        Err(_) => hand(OUT_OF_MEMORY, STATUS_OUTSIDE, out, size),
    }
}

/// What `sts verify` prints, and its status. `out` gets the front as far as it has room, and `size`
/// the number of all bytes.
#[unsafe(no_mangle)]
pub extern "C" fn sts_verify(alloc: Global, text: &[u8], out: &mut [u8], size: &mut usize) -> u8
    ensures { Hands (IsOutputOf Mode.Verify text.now [])
        (record { status = result; size = size.new; before = out.old; after = out.new }) }
{
    shown(alloc, Asked::Verify, text, &[], out, size)
}

/// What `sts list` prints, handed over as by `sts_verify`.
#[unsafe(no_mangle)]
pub extern "C" fn sts_list(alloc: Global, text: &[u8], out: &mut [u8], size: &mut usize) -> u8
    ensures { Hands (IsOutputOf Mode.List text.now [])
        (record { status = result; size = size.new; before = out.old; after = out.new }) }
{
    shown(alloc, Asked::List, text, &[], out, size)
}

/// What `sts plain` prints, handed over as by `sts_verify`.
#[unsafe(no_mangle)]
pub extern "C" fn sts_plain(
    alloc: Global,
    text: &[u8],
    trace: &[u8],
    out: &mut [u8],
    size: &mut usize,
) -> u8
    ensures { Hands (IsOutputOf Mode.Plain text.now trace.now)
        (record { status = result; size = size.new; before = out.old; after = out.new }) }
{
    shown(alloc, Asked::Plain, text, trace, out, size)
}

/// What `look view` prints, with `--each` and `--full` by choice, but without lines and names of the
/// text. It is handed over as by `sts_verify`.
#[unsafe(no_mangle)]
pub extern "C" fn sts_view(
    alloc: Global,
    each: bool,
    full: bool,
    text: &[u8],
    trace: &[u8],
    out: &mut [u8],
    size: &mut usize,
) -> u8
    ensures { Hands
        (IsViewOf (record { each = each; full = full; living = false }) text.now trace.now)
        (record { status = result; size = size.new; before = out.old; after = out.new }) }
{
    shown(
        alloc,
        Asked::View(ViewOptions {
            each,
            full,
            living: false,
        }),
        text,
        trace,
        out,
        size,
    )
}

/// What `look view` prints, with `--each` and `--full` by choice, handed over as by `sts_verify`.
#[unsafe(no_mangle)]
pub extern "C" fn sts_named_view(
    alloc: Global,
    each: bool,
    full: bool,
    text: &[u8],
    trace: &[u8],
    out: &mut [u8],
    size: &mut usize,
) -> u8
    ensures { Hands
        (IsNamedViewOf (record { each = each; full = full; living = false }) text.now trace.now)
        (record { status = result; size = size.new; before = out.old; after = out.new }) }
{
    shown(
        alloc,
        Asked::NamedView(ViewOptions {
            each,
            full,
            living: false,
        }),
        text,
        trace,
        out,
        size,
    )
}

/// Why a text is no program or a program is refused, handed over as by `sts_verify`.
#[unsafe(no_mangle)]
pub extern "C" fn sts_explain(alloc: Global, text: &[u8], out: &mut [u8], size: &mut usize) -> u8
    ensures { Hands (IsNamedExplanation text.now)
        (record { status = result; size = size.new; before = out.old; after = out.new }) }
{
    shown(alloc, Asked::Explanation, text, &[], out, size)
}

/// The state of a run after a trace, with the line numbers of the text, handed over as by
/// `sts_verify`.
#[unsafe(no_mangle)]
pub extern "C" fn sts_explain_run(
    alloc: Global,
    text: &[u8],
    trace: &[u8],
    out: &mut [u8],
    size: &mut usize,
) -> u8
    ensures { Hands (IsRunExplanation text.now trace.now)
        (record { status = result; size = size.new; before = out.old; after = out.new }) }
{
    shown(alloc, Asked::RunExplanation, text, trace, out, size)
}

/// What `look draw` prints with all events drawn, with `--brief` by choice, handed over as by
/// `sts_verify`.
#[unsafe(no_mangle)]
pub extern "C" fn sts_draw(
    alloc: Global,
    brief: bool,
    text: &[u8],
    trace: &[u8],
    out: &mut [u8],
    size: &mut usize,
) -> u8
    ensures { Hands (IsPictureOf (all_events brief) None text.now trace.now)
        (record { status = result; size = size.new; before = out.old; after = out.new }) }
{
    shown(alloc, Asked::Picture { brief }, text, trace, out, size)
}

/// Every end that a text can come to, as `look ends --most N --interrupts M` prints them, with
/// `--no-expiries` by choice. It is handed over as by `sts_verify`.
#[unsafe(no_mangle)]
pub extern "C" fn sts_ends(
    alloc: Global,
    most: u32,
    expiries: bool,
    interrupts: u32,
    text: &[u8],
    out: &mut [u8],
    size: &mut usize,
) -> u8
    ensures { Hands (IsListing (ends_wanted most expiries interrupts) text.now)
        (record { status = result; size = size.new; before = out.old; after = out.new }) }
{
    let asked = Asked::Ends(wanted(most, expiries, interrupts));
    shown(alloc, asked, text, &[], out, size)
}

/// The lines of `sts_ends`, and in the same way the trace of the end of this number, which goes to
/// `trace` and `trace_size`: what `look ends --trace K` prints and writes.
#[unsafe(no_mangle)]
pub extern "C" fn sts_ends_and_trace(
    alloc: Global,
    most: u32,
    expiries: bool,
    interrupts: u32,
    number: u32,
    text: &[u8],
    out: &mut [u8],
    size: &mut usize,
    trace: &mut [u8],
    trace_size: &mut usize,
) -> u8
    ensures { HandsEnds (ends_wanted most expiries interrupts) number text.now
        (record { status = result; size = size.new; before = out.old; after = out.new })
        (record { status = result; size = trace_size.new; before = trace.old; after = trace.new }) }
{
    match traced(alloc, wanted(most, expiries, interrupts), number, text) {
        Ok(end) => {
            hand(end.trace.as_slice(), end.status, trace, trace_size);
            hand(end.printed.as_slice(), end.status, out, size)
        }
        Err(_) => {
            hand(&[], STATUS_OUTSIDE, trace, trace_size);
            hand(OUT_OF_MEMORY, STATUS_OUTSIDE, out, size)
        }
    }
}
