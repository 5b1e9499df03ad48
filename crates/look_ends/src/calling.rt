//! What is shown of the ends of calls.

ghost use Rattle.std.specs.Prelude.{◌≡◌, [], true, IfOk, option_map};
ghost use Rattle.look_calls.specs.Calls.{AreCallEnds};
ghost use Rattle.look_end_lines.specs.Calls as calls;
ghost use Rattle.look_ends.specs.Listing as def;

use crate::by_calls::MOST_STATES;
use crate::listing::{Listed, STATUS_PART, listing_of};
use ends_plain::config::Setting;
use look_calls::{CallEnd, CallsFound, call_ends, no_calls};
use look_end_lines::{Called, EndsForm, found_at};
use look_names::Names;
use look_run::Told;
use std::alloc::{AllocError, Global};
use sts_model::Event;

/// The ends of the calls of an accepted program, and none of a refused one.
fn calls_of(
    alloc: Global,
    setting: &Setting,
    is_refused: bool,
    states: Option<u32>,
) -> Result<CallsFound, AllocError>
    ensures sound { IfOk result (λ r. AreCallEnds setting.now r.found.items) }
    ensures unsearched { IfOk result (λ r. is_refused ≡ true → r.found.items ≡ []) }
{
    if is_refused {
        return Ok(no_calls(alloc, 0, false));
    }
    call_ends(alloc, setting, states.unwrap_or(MOST_STATES) as usize)
}

/// A copy of the trace of an end, if there is one.
fn copied_trace(alloc: Global, one: Option<&CallEnd>) -> Result<Vec<Event>, AllocError>
    ensures { IfOk result (λ es. es.items
        ≡ calls.events_of_call (option_map (λ c. c.now) one.entry)) }
{
    match one {
        None => Ok(Vec::new(alloc)),
        Some(one) => Vec::from_slice(alloc, one.trace.as_slice()),
    }
}

/// The trace of the end whose number is asked for; no event if there is no such end.
fn trace_of_call(
    alloc: Global,
    number: Option<u32>,
    found: &[CallEnd],
) -> Result<Vec<Event>, AllocError>
    ensures { IfOk result (λ es. es.items ≡ calls.trace_of_call number found.now) }
{
    match number {
        None => Ok(Vec::new(alloc)),
        Some(k) => copied_trace(alloc, found_at(found, k)),
    }
}

/// What is shown of these ends of calls.
fn shown<F: EndsForm>(alloc: Global, form: &F, called: Called<'_, '_>) -> Listed
    ensures { IfOk result (λ l. l ≡ def.calls_listing (F.shows form.now)
        called.entry.told.names.now called.entry.told.program.now called.entry.is_refused
        called.entry.number called.entry.calls.now.found.items called.entry.calls.now.states
        called.entry.calls.now.is_cut_off) }
{
    let bytes = form.of_calls(alloc, called);
    let trace = trace_of_call(alloc, called.number, called.calls.found.as_slice());
    listing_of(bytes, STATUS_PART, trace)
}

/// The listing of what each call of a program can come to.
pub(crate) fn of_calls<F: EndsForm>(
    alloc: Global,
    form: &F,
    names: &Names<'_>,
    setting: &Setting,
    is_refused: bool,
    states: Option<u32>,
    number: Option<u32>,
) -> Listed
    requires { def.IsVerdict setting.now.program is_refused }
    ensures { IfOk result (def.IsCallsListing (F.shows form.now) names.now setting.now number) }
{
    let calls = calls_of(alloc, setting, is_refused, states)?;
    let program = &setting.program;
    let called = Called {
        told: Told { program, names },
        is_refused,
        number,
        calls: &calls,
    };
    shown(alloc, form, called)
}
