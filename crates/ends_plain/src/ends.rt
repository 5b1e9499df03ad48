//! The ends among the states of a search.

ghost use Rattle.std.specs.Prelude.{◌≡◌, ◌<◌, ◌+◌, true, false, IfOk, OnOk, length};
ghost use Rattle.std.specs.List.{Contains, list_any};
ghost use Rattle.ends_search.specs.Search.{IsSpace, state_at, states_of};
ghost use Rattle.ends_plain.specs.Configs.{next_kept, tries, is_last, IsLike};
ghost use Rattle.ends_plain.specs.Ends.{is_end};
ghost use Rattle.sts_plain.specs.Seen.{shown};
ghost use Rattle.ends_plain.specs.Listed.{ends_of, AreShown, HasShown, is_fault_end, is_faulty};

use crate::config::{Asked, Config, Found};
use crate::full_trace::with_own_steps;
use crate::shorter::shortened;
use ends_search::search::{Space, restored, trace};
use std::alloc::{AllocError, Global};
use sts_plain::PlainState;

/// Is the end among these?
pub fn is_found(found: &[Found], end: PlainState) -> bool
    ensures yes { result ≡ true → Contains (ends_of found.now) end }
    ensures all { Contains (ends_of found.now) end → result ≡ true }
{
    for one in found {
        if one.end == end {
            return true;
        }
    }
    false
}

/// Is it an end?
pub fn is_end_at(end: PlainState) -> bool
    ensures { result ≡ is_end end }
{
    !matches!(end, PlainState::Running)
}

/// Is it an end that is not among these yet?
fn is_new(found: &[Found], end: PlainState) -> bool
    ensures yes { result ≡ true → is_end end ≡ true }
    ensures no { result ≡ false → is_end end ≡ true → Contains (ends_of found.now) end }
{
    is_end_at(end) && !is_found(found, end)
}

/// Is the end a fault?
pub fn is_fault(end: PlainState) -> bool
    ensures { result ≡ is_fault_end end }
{
    matches!(end, PlainState::Fault { .. })
}

/// Is one of the ends a fault?
pub fn has_fault(found: &[Found]) -> bool
    ensures { result ≡ list_any is_faulty found.now }
{
    found.iter().any(|one| is_fault(one.end))
}

/// What the state at this place shows.
pub fn shown_at(
    alloc: Global,
    asked: &Asked,
    space: &Space<Config>,
    place: usize,
) -> Result<PlainState, AllocError>
    requires within { place < length space.now.origins.items }
    requires space { IsSpace (next_kept asked.now) (tries asked.now.setting) (IsLike asked.now)
        is_last space.now.first space.now.origins.items space.now.closed space.now.kept.items
        space.now.marks.items }
    ensures { IfOk result (λ end. end ≡ shown
        (state_at (next_kept asked.now) space.now.first space.now.origins.items place).position) }
{
    let config = restored(alloc, asked, space, place)?;
    Ok(config.position.state())
}

/// Adds the end that the state at this place shows, if it shows one that is not there yet, with a
/// way to it.
fn list_end(
    alloc: Global,
    asked: &Asked,
    space: &Space<Config>,
    place: usize,
    found: &mut Vec<Found>,
) -> Result<(), AllocError>
    requires within { place < length space.now.origins.items }
    requires space { IsSpace (next_kept asked.now) (tries asked.now.setting) (IsLike asked.now)
        is_last space.now.first space.now.origins.items space.now.closed space.now.kept.items
        space.now.marks.items }
    requires shown { AreShown asked.now.setting space.now.first found.old.items }
    requires before { HasShown
        (states_of (next_kept asked.now) space.now.first space.now.origins.items) place
        (ends_of found.old.items) }
    ensures shown { OnOk result (AreShown asked.now.setting space.now.first found.new.items) }
    ensures all { OnOk result (HasShown
        (states_of (next_kept asked.now) space.now.first space.now.origins.items) (place + 1)
        (ends_of found.new.items)) }
{
    let marked = space.origins[place].is_last;
    if !marked {
        return Ok(());
    }
    let end = shown_at(alloc, asked, space, place)?;
    if !is_new(found.as_slice(), end) {
        return Ok(());
    }
    let events = trace(alloc, asked, space, place)?;
    let trace = with_own_steps(alloc, asked, &space.first, events.as_slice())?;
    let one = shortened(alloc, &asked.setting, &space.first, Found { end, trace })?;
    found.push(one)?;
    Ok(())
}

/// The ends among the states of a search, each with a way to the first state that shows it.
pub fn list(alloc: Global, asked: &Asked, space: &Space<Config>) -> Result<Vec<Found>, AllocError>
    requires { IsSpace (next_kept asked.now) (tries asked.now.setting) (IsLike asked.now)
        is_last space.now.first space.now.origins.items space.now.closed space.now.kept.items
        space.now.marks.items }
    ensures shown { IfOk result (λ found.
        AreShown asked.now.setting space.now.first found.items) }
    ensures all { IfOk result (λ found.
        HasShown (states_of (next_kept asked.now) space.now.first space.now.origins.items)
        (length space.now.origins.items) (ends_of found.items)) }
{
    let mut found = Vec::new(alloc);
    for place in 0..space.origins.len() {
        list_end(alloc, asked, space, place, &mut found)?;
    }
    Ok(found)
}
