//! The ends that a search by calls finds before a search over all schedules.

ghost use Rattle.std.specs.Prelude.{◌≡◌, true, false, IfOk, OnOk};
ghost use Rattle.ends_whole.specs.Whole.{AreAllOf, AreWhole};
ghost use Rattle.ends_plain.specs.Listed.{AreEnds, IsEndOf};
ghost use Rattle.ends_plain.specs.declared.config.Setting.{Setting};
ghost use Rattle.laws_runs.specs.Runs.{NeverFaults};

use ends_faults::never_faults;
use ends_plain::config::{EndsFound, Found, Setting};
use ends_whole::{EndsByCalls, Room, ends_by_calls};
use look_end_lines::Answer;
use look_host::Progress;
use look_options::Limits;
use std::alloc::{AllocError, Global};
use sts_plain::PlainState;

/// The most states of a search, if no other number is named.
pub(crate) const MOST_STATES: u32 = 1_000_000;

/// The most states of the first try of a search by calls.
const FIRST_TRY: usize = 2_000;

/// Each further try may have this many times the states of the one before.
const MORE: usize = 8;

/// No further try begins after this part of the seconds: it may take as many times as long.
const PART_OF_SECONDS: u32 = 8;

/// No trace of an accepted program has more events. Each of its 1,000,000 steps may follow an
/// interrupt and an expiry.
const LONGEST: usize = 3_000_000;

/// A trace of a refused program is cut off after this number of events. Its run may have no end.
const LONGEST_OF_REFUSED: usize = 100_000;

/// The most states of a search over all schedules, times the events of the longest trace that is
/// known, if no number of states is named. A state of a longer run is larger.
const STATES_TIMES_EVENTS: usize = 10_000_000;

/// The most states that a search may keep.
fn most_of(limits: Limits) -> u32 {
    limits.states.unwrap_or(MOST_STATES)
}

/// Is it known that no run of the program faults? If it is refused, a table has to show it.
fn is_faultless(
    alloc: Global,
    setting: &Setting,
    is_refused: bool,
    limits: Limits,
) -> Result<bool, AllocError>
    requires never { is_refused ≡ false → NeverFaults setting.now.program }
    ensures { IfOk result (λ yes. yes ≡ true → NeverFaults setting.now.program) }
{
    if !is_refused {
        return Ok(true);
    }
    never_faults(alloc, &setting.program, most_of(limits) as usize)
}

/// Ends of a program whose runs may fault. There may be more.
fn some_ends(alloc: Global, setting: &Setting, limits: Limits) -> Result<EndsByCalls, AllocError>
    ensures sound { IfOk result (λ r. AreEnds setting.now r.found.items) }
    ensures part { IfOk result (λ r. r.whole ≡ false) }
{
    let room = Room {
        states: (most_of(limits) as usize).min(FIRST_TRY),
        longest: LONGEST_OF_REFUSED,
    };
    let mut calls = ends_by_calls(alloc, setting, room, 0)?;
    calls.is_closed = false;
    calls.whole = false;
    Ok(calls)
}

/// May a search by calls begin again with more states?
fn has_time<P: Progress>(limits: Limits, progress: &mut P) -> bool {
    match limits.seconds {
        None => true,
        Some(seconds) => progress.goes_on(Some(seconds / PART_OF_SECONDS)),
    }
}

/// Searches by calls again with more states, until the search has found all its ends, has no more
/// room or no more time.
fn try_again<P: Progress>(
    alloc: Global,
    setting: &Setting,
    first: Room,
    limits: Limits,
    progress: &mut P,
    calls: &mut EndsByCalls,
) -> Result<(), AllocError>
    requires sound { AreEnds setting.now calls.old.found.items }
    requires complete { AreWhole calls.old.whole setting.now calls.old.found.items }
    ensures sound { OnOk result (AreEnds setting.now calls.new.found.items) }
    ensures complete { OnOk result (AreWhole calls.new.whole setting.now calls.new.found.items) }
{
    let most = most_of(limits) as usize;
    let mut room = first;
    for _ in 0..u64::MAX {
        let is_cut_off = calls.states > room.states;
        if !is_cut_off || room.states >= most || !has_time(limits, progress) {
            break;
        }
        room.states = room.states.saturating_mul(MORE).min(most);
        *calls = ends_by_calls(alloc, setting, room, most)?;
    }
    Ok(())
}

/// The ends that a search by calls finds. It may begin again with more states.
fn tried<P: Progress>(
    alloc: Global,
    setting: &Setting,
    longest: usize,
    limits: Limits,
    progress: &mut P,
) -> Result<EndsByCalls, AllocError>
    ensures sound { IfOk result (λ r. AreEnds setting.now r.found.items) }
    ensures complete { IfOk result (λ r. AreWhole r.whole setting.now r.found.items) }
{
    let most = most_of(limits) as usize;
    let room = Room {
        states: most.min(FIRST_TRY),
        longest,
    };
    let mut calls = ends_by_calls(alloc, setting, room, most)?;
    try_again(alloc, setting, room, limits, progress, &mut calls)?;
    Ok(calls)
}

/// The ends that a search by calls finds. If the program is refused, a table has to show first that
/// no run faults: else there may be more ends.
pub(crate) fn by_calls<P: Progress>(
    alloc: Global,
    setting: &Setting,
    is_refused: bool,
    limits: Limits,
    progress: &mut P,
) -> Result<EndsByCalls, AllocError>
    requires never { is_refused ≡ false → NeverFaults setting.now.program }
    ensures sound { IfOk result (λ r. AreEnds setting.now r.found.items) }
    ensures complete { IfOk result (λ r. r.whole ≡ true → AreAllOf setting.now r.found.items) }
{
    let faultless = is_faultless(alloc, setting, is_refused, limits)?;
    if !faultless {
        return some_ends(alloc, setting, limits);
    }
    let longest = if is_refused {
        LONGEST_OF_REFUSED
    } else {
        LONGEST
    };
    tried(alloc, setting, longest, limits, progress)
}

/// The number of events of the longest trace.
fn longest(found: &[Found]) -> usize {
    let mut most = 0;
    for one in found {
        most = one.trace.len().max(most);
    }
    most
}

/// The most states of a search over all schedules, once these ends are known.
pub(crate) fn room_after(limits: Limits, is_refused: bool, calls: &EndsByCalls) -> usize {
    let most = most_of(limits) as usize;
    if limits.states.is_some() || (is_refused && !calls.whole) {
        return most;
    }
    match STATES_TIMES_EVENTS.checked_div(longest(calls.found.as_slice())) {
        Some(room) => most.min(room),
        None => most,
    }
}

/// Is the end among these?
fn is_listed(found: &[Found], end: PlainState) -> bool {
    found.iter().any(|one| one.end == end)
}

/// Adds an end to the others, unless it is there.
fn add_end(found: &mut Vec<Found>, one: Found) -> Result<(), AllocError>
    ensures { (g : Setting) → AreEnds g found.old.items → IsEndOf g one
        → OnOk result (AreEnds g found.new.items) }
{
    if is_listed(found.as_slice(), one.end) {
        return Ok(());
    }
    found.push(one)?;
    Ok(())
}

/// Adds the ends of a second list to those of a first one, and empties the second one.
fn add_ends(
    setting: &Setting,
    found: &mut Vec<Found>,
    more: &mut Vec<Found>,
) -> Result<(), AllocError>
    requires first { AreEnds setting.now found.old.items }
    requires second { AreEnds setting.now more.old.items }
    ensures { OnOk result (AreEnds setting.now found.new.items) }
{
    let _ = setting;
    more.reverse();
    for _ in 0..more.len() {
        let Some(one) = more.pop() else {
            break;
        };
        add_end(found, one)?;
    }
    Ok(())
}

/// The ends of a search by calls, and those of a search over all schedules that stopped.
fn joined(setting: &Setting, calls: EndsByCalls, ends: EndsFound) -> Result<Answer, AllocError>
    requires calls { AreEnds setting.now calls.found.items }
    requires ends { AreEnds setting.now ends.found.items }
    ensures sound { IfOk result (λ a. AreEnds setting.now a.found.items) }
    ensures part { IfOk result (λ a. a.whole ≡ false) }
{
    let count = calls.found.len();
    let (mut found, mut more) = (calls.found, ends.found);
    add_ends(setting, &mut found, &mut more)?;
    let by_calls = if calls.is_closed && found.len() == count {
        Some(calls.states)
    } else {
        None
    };
    Ok(Answer {
        found,
        states: ends.states,
        whole: false,
        by_calls,
    })
}

/// The ends of all schedules.
fn whole(found: Vec<Found>, states: usize) -> Answer
    ensures { (result.found ≡ found) × (result.whole ≡ true) }
{
    Answer {
        found,
        states,
        whole: true,
        by_calls: None,
    }
}

/// The ends of a search over all schedules. If it stopped, those of a search by calls are there,
/// too; and these alone, if they are all ends.
pub(crate) fn answered(
    setting: &Setting,
    calls: EndsByCalls,
    ends: EndsFound,
) -> Result<Answer, AllocError>
    requires calls { AreEnds setting.now calls.found.items }
    requires called { calls.whole ≡ true → AreAllOf setting.now calls.found.items }
    requires ends { AreEnds setting.now ends.found.items }
    requires all { ends.whole ≡ true → AreAllOf setting.now ends.found.items }
    ensures sound { IfOk result (λ a. AreEnds setting.now a.found.items) }
    ensures complete { IfOk result (λ a. a.whole ≡ true → AreAllOf setting.now a.found.items) }
{
    if ends.whole {
        return Ok(whole(ends.found, ends.states));
    }
    if calls.whole {
        return Ok(whole(calls.found, calls.states));
    }
    joined(setting, calls, ends)
}
