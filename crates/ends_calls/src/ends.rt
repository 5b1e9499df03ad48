//! The ends that a search by calls finds.

ghost use Rattle.std.specs.Prelude.{◌≡◌, true, IfOk, IfSome};
ghost use Rattle.ends_plain.specs.Configs.{can};
ghost use Rattle.ends_calls.specs.Stops.{IsStop, IsMarked, IsTraced};
ghost use Rattle.ends_plain.specs.Listed.{AreEnds, IsEndOf};
ghost use Rattle.ends_plain.specs.declared.config.Setting.{Setting};

use crate::stop::{Shared, Stop, Traced};
use ends_explored::search::{Search, explored};
use ends_known::call::number;
use ends_known::outside::Outside;
use ends_known::table::Explored;
use ends_plain::config::{Config, Found, Setting};
use ends_plain::ends::is_end_at;
use ends_plain::shorter::can_come;
use ends_plain::trace::Trace;
use ends_player::basis::Basis;
use ends_player::player::Player;
use std::alloc::{AllocError, Global};
use sts_model::Event;
use sts_plain::PlainState;

/// Traces are made as long as those before have no more than this number of events together. A
/// trace that comes to no end counts as the longest one.
const MOST_EVENTS: usize = 64_000_000;

/// And no more than this number of runs of equal events, which are kept.
const MOST_RUNS: usize = 4_000_000;

/// How far a search goes.
#[derive(Clone, Copy)]
pub struct Room {
    /// It stops once it has more states.
    pub states: usize,
    /// The most events of a trace.
    pub longest: usize,
}

/// Ends that were found by calls, each once.
#[derive(Drop)]
pub struct FoundByCalls {
    pub found: Vec<Found>,
    /// The number of states that the search found.
    pub states: usize,
    /// Was each state expanded, and has each end that the search found a trace?
    pub is_closed: bool,
}

/// The event, if there is one and it can come.
fn coming(config: &Config, setting: &Setting, next: Option<Event>) -> Option<Event>
    ensures { IfSome result (λ e. can setting.now config.now e ≡ true) }
{
    let event = next?;
    if can_come(config, setting, event) {
        Some(event)
    } else {
        None
    }
}

/// The state that a player comes to. It stops at an event that can't come, too, and after `longest`
/// events.
fn walked(
    alloc: Global,
    setting: &Setting,
    from: Stop,
    player: &mut Player<'_>,
    longest: usize,
) -> Result<Stop, AllocError>
    requires { IsStop setting.now from }
    ensures { IfOk result (IsStop setting.now) }
{
    let mut config = from.config;
    let mut trace = from.trace;
    for _ in 0..longest {
        let next = player.next(alloc, config.position.world())?;
        let Some(event) = coming(&config, setting, next) else {
            break;
        };
        config.apply_event(alloc, setting, event)?;
        trace.push(event)?;
    }
    Ok(Stop { config, trace })
}

/// The end that a player comes to, with its trace.
fn played(
    alloc: Global,
    setting: &Setting,
    from: Stop,
    player: &mut Player<'_>,
    longest: usize,
) -> Result<Option<Found>, AllocError>
    requires { IsStop setting.now from }
    ensures { IfOk result (λ found. IfSome found (IsEndOf setting.now)) }
{
    let last = walked(alloc, setting, from, player, longest)?;
    let end = last.config.position.state();
    if is_end_at(end) {
        return Ok(Some(Found {
            end,
            trace: last.trace,
        }));
    }
    Ok(None)
}

/// The end of one of the root's ways, after a run that goes on from a mark.
fn played_on(
    alloc: Global,
    setting: &Setting,
    basis: Basis<'_>,
    way: u32,
    shared: &Shared,
    longest: usize,
) -> Result<Option<Found>, AllocError>
    requires { IsStop setting.now shared.now.stop }
    ensures { IfOk result (λ found. IfSome found (IsEndOf setting.now)) }
{
    let Some(player) = Player::resume(alloc, basis, way, &shared.mark)? else {
        return Ok(None);
    };
    let mut player = player;
    let stop = shared.stop.copied(alloc)?;
    played(alloc, setting, stop, &mut player, longest)
}

/// The state at which a player has stopped, if it is at a mark.
fn marked(alloc: Global, stop: &Stop, player: &mut Player<'_>) -> Result<Option<Shared>, AllocError>
    ensures { IfOk result (λ shared. IfSome shared (λ s. s.stop ≡ stop.now)) }
{
    match player.mark(alloc)? {
        None => Ok(None),
        Some(mark) => Ok(Some(Shared {
            stop: stop.copied(alloc)?,
            mark,
        })),
    }
}

/// The end of one of the root's ways, after a run from the first state, which may be marked.
fn played_first(
    alloc: Global,
    setting: &Setting,
    basis: Basis<'_>,
    way: u32,
    longest: usize,
) -> Result<Traced, AllocError>
    ensures { IfOk result (IsTraced setting.now) }
{
    let mut player = Player::begin(alloc, basis, way)?;
    let first = Stop {
        config: Config::start(alloc, setting)?,
        trace: Trace::new(alloc),
    };
    let stop = walked(alloc, setting, first, &mut player, longest)?;
    let shared = marked(alloc, &stop, &mut player)?;
    let found = played(alloc, setting, stop, &mut player, longest)?;
    Ok(Traced { found, shared })
}

/// Did this run come to the end of one of the root's ways?
fn is_right(root: &Explored, way: u32, found: &Option<Found>) -> bool {
    match found {
        Some(one) => is_end_of(root, way as usize, one.end),
        None => false,
    }
}

/// The end of one of the root's ways, after a trace of it. The run goes on from a mark of another one,
/// if it can.
fn traced(
    alloc: Global,
    setting: &Setting,
    basis: Basis<'_>,
    way: u32,
    known: Option<Shared>,
    longest: usize,
) -> Result<Traced, AllocError>
    requires { IsMarked setting.now known }
    ensures { IfOk result (IsTraced setting.now) }
{
    let Some(shared) = known else {
        return played_first(alloc, setting, basis, way, longest);
    };
    let found = played_on(alloc, setting, basis, way, &shared, longest)?;
    if is_right(basis.root, way, &found) {
        return Ok(Traced {
            found,
            shared: Some(shared),
        });
    }
    played_first(alloc, setting, basis, way, longest)
}

/// Is this the end of one of the root's ways?
fn is_end_of(root: &Explored, way: usize, end: PlainState) -> bool {
    match root.ways.get(way) {
        Some(way) => end == PlainState::Ended(way.end),
        None => false,
    }
}

/// Is the end among these?
fn is_listed(found: &[Found], end: PlainState) -> bool {
    found.iter().any(|one| one.end == end)
}

/// The ends with one more, unless it is there.
fn with_end(found: Vec<Found>, one: Found) -> Result<Vec<Found>, AllocError>
    ensures { (g : Setting) → AreEnds g found.items → IsEndOf g one
        → IfOk result (λ all. AreEnds g all.items) }
{
    if is_listed(found.as_slice(), one.end) {
        return Ok(found);
    }
    let mut found = found;
    found.push(one)?;
    Ok(found)
}

/// The ends of the root's ways.
fn listed(
    alloc: Global,
    setting: &Setting,
    search: &Search,
    root: &Explored,
    longest: usize,
) -> Result<FoundByCalls, AllocError>
    ensures { IfOk result (λ r. AreEnds setting.now r.found.items) }
{
    let basis = Basis {
        program: &setting.program,
        outside: search.outside,
        table: &search.table,
        root,
    };
    let mut is_closed = search.is_closed();
    let mut found = Vec::new(alloc);
    let mut events: usize = 0;
    let mut runs: usize = 0;
    let mut shared: Option<Shared> = None;
    for way in 0..root.ways.len() {
        if events > MOST_EVENTS || runs > MOST_RUNS {
            is_closed = false;
            break;
        }
        let next = traced(alloc, setting, basis, number(way), shared, longest)?;
        shared = next.shared;
        match next.found {
            Some(one) => {
                is_closed = is_closed && is_end_of(root, way, one.end);
                events = events.saturating_add(one.trace.len());
                runs = runs.saturating_add(one.trace.runs());
                found = with_end(found, one)?;
            }
            None => {
                is_closed = false;
                events = events.saturating_add(longest);
            }
        }
    }
    Ok(FoundByCalls {
        found,
        states: search.states,
        is_closed,
    })
}

/// Ends of a program, found call by call.
///
/// # Errors
///
/// There is no memory.
pub fn found_by_calls(
    alloc: Global,
    setting: &Setting,
    room: Room,
) -> Result<FoundByCalls, AllocError>
    ensures { IfOk result (λ r. AreEnds setting.now r.found.items) }
{
    let outside = Outside {
        expiries: setting.expiries,
        interrupts: setting.interrupts,
    };
    let search = explored(alloc, &setting.program, outside, room.states)?;
    match search.root() {
        Some(root) => listed(alloc, setting, &search, root, room.longest),
        None => Ok(FoundByCalls {
            found: Vec::new(alloc),
            states: search.states,
            is_closed: false,
        }),
    }
}
