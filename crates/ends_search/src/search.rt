//! The search.

ghost use Rattle.std.specs.Prelude.{◌≡◌, ◌<◌, length, true, IfOk, IfSome, IsNone, OnOk};
ghost use Rattle.std.specs.Prelude.{None, [], ◌∷◌};
ghost use Rattle.ends_search.specs.Search.{IsAmong, IsSpace, IsKept, Grows, LeadsInto, Follows};
ghost use Rattle.ends_search.specs.Search.{CanAt, FoundMore, IsWay, no_origin, state_at, states_of};

use crate::index::Index;
use crate::machine::StateMachine;
use crate::origin::Origin;
use std::alloc::{AllocError, Global};
use sts_model::Event;

/// At least this number of events lead from a state that is kept whole to the next one. The states
/// between are made again from the whole one when they are needed.
const LEAST_EVENTS: u64 = 12;

/// Any of this number of events more, by the state's hash. So the whole ones are spread evenly.
const MORE_EVENTS: u64 = 16;

/// A search so far.
///
/// Its states are the first one, and those that events lead to from older ones. Most of them are
/// kept only by their origins, which takes far less memory than a whole state.
#[derive(Drop)]
pub struct Space<S> {
    /// The first state.
    pub first: S,
    /// How each of the states was found, in the order of their discovery.
    pub origins: Vec<Origin>,
    /// The number of states that were expanded, the first ones: any event leads from them to one of
    /// the states.
    pub closed: usize,
    /// No more states are kept.
    pub most: usize,
    /// Was a state found for which there was no room?
    pub is_full: bool,
    /// The states that are kept whole.
    pub kept: Vec<S>,
    /// For each state, its place among those that are kept whole, if it is one of them.
    pub marks: Vec<Option<u32>>,
    /// For each state, the number of events from the last state before it that is kept whole.
    events_behind: Vec<u8>,
    index: Index,
}

impl<S> Space<S> {
    /// The number of events from the last whole state to one that comes after that at this place.
    fn events_to_next(&self, place: usize) -> u8 {
        self.events_behind
            .get(place)
            .copied()
            .unwrap_or(0)
            .saturating_add(1)
    }
}

/// The state at a place, if it is kept whole. The first one is.
fn whole<'s, S: StateMachine>(
    setting: &S::Setting,
    space: &'s Space<S>,
    place: usize,
) -> Option<&'s S>
    requires within { place < length space.now.origins.items }
    requires space { IsSpace (S.next setting.now) (S.can setting.now)
        (S.alike setting.now) S.last space.now.first space.now.origins.items space.now.closed
        space.now.kept.items space.now.marks.items }
    ensures some { IfSome result (λ s.
        s.now ≡ state_at (S.next setting.now) space.now.first space.now.origins.items place) }
    ensures none { IsNone result → 0 < place }
{
    let _ = setting;
    if place == 0 {
        return Some(&space.first);
    }
    match space.marks[place] {
        Some(mark) => Some(&space.kept[mark as usize]),
        None => None,
    }
}

/// The state at a place.
///
/// # Errors
///
/// There is no memory.
pub fn restored<S: StateMachine>(
    alloc: Global,
    setting: &S::Setting,
    space: &Space<S>,
    place: usize,
) -> Result<S, AllocError>
    requires within { place < length space.now.origins.items }
    requires space { IsSpace (S.next setting.now) (S.can setting.now)
        (S.alike setting.now) S.last space.now.first space.now.origins.items space.now.closed
        space.now.kept.items space.now.marks.items }
    ensures { IfOk result (λ s.
        s ≡ state_at (S.next setting.now) space.now.first space.now.origins.items place) }
{
    match whole(setting, space, place) {
        Some(state) => state.copied(alloc),
        None => {
            let origin = space.origins[place];
            let mut state = restored(alloc, setting, space, origin.parent)?;
            state.apply(alloc, setting, origin.event)?;
            Ok(state)
        }
    }
}

/// Is the state alike to that at a place?
fn is_at<S: StateMachine>(
    alloc: Global,
    setting: &S::Setting,
    space: &Space<S>,
    place: usize,
    state: &S,
) -> Result<bool, AllocError>
    requires within { place < length space.now.origins.items }
    requires space { IsSpace (S.next setting.now) (S.can setting.now)
        (S.alike setting.now) S.last space.now.first space.now.origins.items space.now.closed
        space.now.kept.items space.now.marks.items }
    ensures { IfOk result (λ r. r ≡ true → IsAmong (S.alike setting.now)
        (states_of (S.next setting.now) space.now.first space.now.origins.items) state.now) }
{
    let other = restored(alloc, setting, space, place)?;
    state.is_like(alloc, setting, &other)
}

/// Is the state alike to one of those that were found?
fn is_known<S: StateMachine>(
    alloc: Global,
    setting: &S::Setting,
    space: &Space<S>,
    state: &S,
    hash: u64,
) -> Result<bool, AllocError>
    requires { IsSpace (S.next setting.now) (S.can setting.now)
        (S.alike setting.now) S.last space.now.first space.now.origins.items space.now.closed
        space.now.kept.items space.now.marks.items }
    ensures { IfOk result (λ r. r ≡ true → IsAmong (S.alike setting.now)
        (states_of (S.next setting.now) space.now.first space.now.origins.items) state.now) }
{
    let mut place = space.index.first(hash);
    for _ in 0..space.origins.len() {
        if place >= space.origins.len() {
            return Ok(false);
        }
        if is_at(alloc, setting, space, place, state)? {
            return Ok(true);
        }
        place = space.index.behind(place, hash);
    }
    Ok(false)
}

/// Keeps a state whole if enough events lead to it from the last whole one, and returns its place.
fn keep<S: StateMachine>(
    kept: &mut Vec<S>,
    state: S,
    hash: u64,
    events: u8,
) -> Result<Option<u32>, AllocError>
    ensures grows { OnOk result (Grows kept.old.items kept.new.items) }
    ensures is_kept { IfOk result (λ mark. IsKept kept.new.items mark state) }
{
    if u64::from(events) < LEAST_EVENTS + hash % MORE_EVENTS {
        return Ok(None);
    }
    let mark = u32::try_from(kept.len()).ok();
    if mark.is_some() {
        kept.push(state)?;
    }
    Ok(mark)
}

/// Notes how many events lead to one more state from the last whole one: none if it is one.
fn note_events(
    events_behind: &mut Vec<u8>,
    mark: Option<u32>,
    events: u8,
) -> Result<(), AllocError> {
    events_behind.push(if mark.is_some() { 0 } else { events })?;
    Ok(())
}

/// Adds a state, which an event leads to from the state at a place, unless it is there already.
/// Returns `false` if there is no room for it.
fn add<S: StateMachine>(
    alloc: Global,
    setting: &S::Setting,
    space: &mut Space<S>,
    state: S,
    place: usize,
    event: Event,
) -> Result<bool, AllocError>
    requires within { place < length space.old.origins.items }
    requires can { CanAt (S.can setting.now)
        (states_of (S.next setting.now) space.old.first space.old.origins.items)
        place event }
    requires comes { state ≡ S.next setting.now (state_at (S.next setting.now)
        space.old.first space.old.origins.items place) event }
    requires space { IsSpace (S.next setting.now) (S.can setting.now)
        (S.alike setting.now) S.last space.old.first space.old.origins.items space.old.closed
        space.old.kept.items space.old.marks.items }
    ensures more { OnOk result (FoundMore (S.next setting.now) (S.can setting.now)
        (S.alike setting.now) S.last space.old space.new) }
    ensures there { IfOk result (λ there. there ≡ true
        → Follows (S.next setting.now) (S.alike setting.now)
        (states_of (S.next setting.now) space.old.first space.old.origins.items)
        place event
        (states_of (S.next setting.now) space.new.first space.new.origins.items)) }
{
    let hash = state.hash(alloc, setting)?;
    if is_known(alloc, setting, space, &state, hash)? {
        return Ok(true);
    }
    if space.origins.len() >= space.most {
        return Ok(false);
    }
    space.index.add(alloc, hash)?;
    let origin = Origin {
        parent: place,
        event,
        is_last: state.is_last(),
    };
    let events = space.events_to_next(place);
    let mark = keep(&mut space.kept, state, hash, events)?;
    note_events(&mut space.events_behind, mark, events)?;
    space.marks.push(mark)?;
    space.origins.push(origin)?;
    Ok(true)
}

/// The state after an event.
fn after<S: StateMachine>(
    alloc: Global,
    setting: &S::Setting,
    state: &S,
    event: Event,
) -> Result<S, AllocError>
    ensures { IfOk result (λ s. s ≡ S.next setting.now state.now event) }
{
    let mut next = state.copied(alloc)?;
    next.apply(alloc, setting, event)?;
    Ok(next)
}

/// Adds all states that an event leads to from the first state that was not expanded. Returns
/// `false` if there is no room for one of them.
fn expand<S: StateMachine>(
    alloc: Global,
    setting: &S::Setting,
    space: &mut Space<S>,
) -> Result<bool, AllocError>
    requires within { space.old.closed < length space.old.origins.items }
    requires space { IsSpace (S.next setting.now) (S.can setting.now)
        (S.alike setting.now) S.last space.old.first space.old.origins.items space.old.closed
        space.old.kept.items space.old.marks.items }
    ensures more { OnOk result (FoundMore (S.next setting.now) (S.can setting.now)
        (S.alike setting.now) S.last space.old space.new) }
    ensures all { IfOk result (λ all. all ≡ true → LeadsInto (S.next setting.now)
        (S.can setting.now) (S.alike setting.now)
        (states_of (S.next setting.now) space.old.first space.old.origins.items) space.old.closed
        (states_of (S.next setting.now) space.new.first space.new.origins.items)) }
{
    let place = space.closed;
    let state = restored(alloc, setting, space, place)?;
    let mut events = state.events(alloc, setting)?;
    let Some(last) = events.pop() else {
        return Ok(true);
    };
    for event in &events {
        let next = after(alloc, setting, &state, *event)?;
        let there = add(alloc, setting, space, next, place, *event)?;
        if !there {
            return Ok(false);
        }
    }
    let mut next = state;
    next.apply(alloc, setting, last)?;
    let is_there = add(alloc, setting, space, next, place, last)?;
    Ok(is_there)
}

/// Notes how the first state was found, in a search that has noted nothing.
fn note_first<S: StateMachine>(
    alloc: Global,
    setting: &S::Setting,
    space: &mut Space<S>,
) -> Result<(), AllocError>
    requires origins { space.old.origins.items ≡ [] }
    requires marks { space.old.marks.items ≡ [] }
    ensures first { OnOk result (space.new.first ≡ space.old.first) }
    ensures closed { OnOk result (space.new.closed ≡ space.old.closed) }
    ensures kept { OnOk result (space.new.kept.items ≡ space.old.kept.items) }
    ensures marks { OnOk result (space.new.marks.items ≡ None ∷ []) }
    ensures origins { OnOk result (space.new.origins.items
        ≡ record no_origin { is_last = S.last space.old.first } ∷ []) }
{
    let hash = space.first.hash(alloc, setting)?;
    space.index.add(alloc, hash)?;
    space.events_behind.push(0)?;
    space.marks.push(None)?;
    space.origins.push(Origin {
        parent: 0,
        event: Event::Step(0),
        is_last: space.first.is_last(),
    })?;
    Ok(())
}

/// A search that has found its first state. It keeps at most `most` states, and at least this one.
///
/// # Errors
///
/// There is no memory.
pub fn begin<S: StateMachine>(
    alloc: Global,
    setting: &S::Setting,
    first: S,
    most: usize,
) -> Result<Space<S>, AllocError>
    ensures first { IfOk result (λ r. r.first ≡ first) }
    ensures space { IfOk result (λ r. IsSpace (S.next setting.now) (S.can setting.now)
        (S.alike setting.now) S.last r.first r.origins.items r.closed
        r.kept.items r.marks.items) }
{
    let mut space = Space {
        first,
        origins: Vec::new(alloc),
        closed: 0,
        most,
        is_full: false,
        kept: Vec::new(alloc),
        marks: Vec::new(alloc),
        events_behind: Vec::new(alloc),
        index: Index::new(alloc)?,
    };
    note_first(alloc, setting, &mut space)?;
    Ok(space)
}

/// The search after `count` more states were expanded. It stops earlier if no state or no room is
/// left.
///
/// # Errors
///
/// Memory ran out. The states found so far are given back to the allocator.
pub fn advance<S: StateMachine>(
    alloc: Global,
    setting: &S::Setting,
    space: Space<S>,
    count: usize,
) -> Result<Space<S>, AllocError>
    requires { IsSpace (S.next setting.now) (S.can setting.now)
        (S.alike setting.now) S.last space.first space.origins.items space.closed
        space.kept.items space.marks.items }
    ensures first { IfOk result (λ r. r.first ≡ space.first) }
    ensures space { IfOk result (λ r. IsSpace (S.next setting.now) (S.can setting.now)
        (S.alike setting.now) S.last r.first r.origins.items r.closed
        r.kept.items r.marks.items) }
{
    let mut space = space;
    for _ in 0..count {
        let place = space.closed;
        if space.is_full || place >= space.origins.len() {
            break;
        }
        if expand(alloc, setting, &mut space)? {
            space.closed = place + 1;
        } else {
            space.is_full = true;
        }
    }
    Ok(space)
}

/// A list of events that leads from the first state to the state at this place.
///
/// # Errors
///
/// There is no memory.
pub fn trace<S: StateMachine>(
    alloc: Global,
    setting: &S::Setting,
    space: &Space<S>,
    place: usize,
) -> Result<Vec<Event>, AllocError>
    requires within { place < length space.now.origins.items }
    requires space { IsSpace (S.next setting.now) (S.can setting.now)
        (S.alike setting.now) S.last space.now.first space.now.origins.items space.now.closed
        space.now.kept.items space.now.marks.items }
    ensures { IfOk result (λ es. IsWay (S.next setting.now) (S.can setting.now)
        space.now.first es.items
        (state_at (S.next setting.now) space.now.first space.now.origins.items place)) }
{
    let _ = setting;
    let mut back = Vec::new(alloc);
    let mut at = place;
    while at > 0 {
        let origin = space.origins[at];
        back.push(origin.event)?;
        at = origin.parent;
    }
    back.reverse();
    Ok(back)
}
