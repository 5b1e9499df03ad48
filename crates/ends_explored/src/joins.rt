//! The next states of a `join`.

use crate::frames::next_place;
use crate::learned::{Cancelled, cancelled_by, heard, may_go_on, only_way};
use crate::next::{At, Looked, Move, Steps};
use crate::subtasks::{came, value_of};
use ends_known::own::Own;
use ends_known::part::{Run, count_open, count_parts, none_open_early};
use ends_known::pick::if_fits;
use ends_known::seen::{Facts, Seen};
use ends_known::table::{Label, Table};
use laws_calls::joiners::limit;
use laws_calls::table::Knowledge;
use std::alloc::{AllocError, Global};
use sts_code::Joiner;
use sts_model::Phase;

/// Where a `join` goes: on a failure, on a timeout, and on an interrupt.
#[derive(Clone, Copy)]
pub struct Targets {
    pub failed: u32,
    pub timeout: u32,
    pub interrupted: u32,
}

/// Adds the state after a timeout.
fn late(at: At<'_>, to: u32, steps: &mut Steps<'_>) {
    let knowledge = match at.scope.facts.knowledge {
        Knowledge::Unseen => Knowledge::Late,
        known => known,
    };
    let facts = Facts {
        phase: Phase::Joined,
        expired: true,
        knowledge,
        ..at.scope.facts
    };
    steps.add_facts(at, facts, Move::jumps(to, Label::Plain));
}

/// What a `join` does after the joiner has cancelled the scope.
fn after_cancel(own: &Own, one: &Cancelled, failed: u32) -> Move {
    let next = next_place(&own.frame);
    let value = match one.end {
        Some(end) => value_of(end),
        None => 0,
    };
    match one.scope.facts.joiner {
        Joiner::AllSucceed | Joiner::AwaitOk => Move::pushes(failed, value, Label::Plain),
        Joiner::AnySucceeds => Move::pushes(next, value, Label::Plain),
        Joiner::AwaitAll | Joiner::Until(_) => {
            let count = i64::from(count_parts(one.scope.runs.as_slice()));
            Move::pushes(next, count, Label::Plain)
        }
    }
}

/// The same scope after its `join`.
fn joined_scope(scope: Seen) -> Seen {
    Seen {
        facts: Facts {
            phase: Phase::Joined,
            ..scope.facts
        },
        runs: scope.runs,
    }
}

/// Adds the state after the joiner has cancelled the scope, for each way in which it has, the last one
/// first.
fn cut_off(place: u32, failed: u32, found: &mut Vec<Cancelled>, steps: &mut Steps<'_>) {
    for _ in 0..found.len() {
        if let Some(one) = found.pop() {
            let step = after_cancel(steps.own, &one, failed);
            steps.add_with(place, Ok(joined_scope(one.scope)), step);
        }
    }
}

/// The ways in which the joiner may have cancelled the scope, or has if that is known.
fn cut_offs(scope: &Seen, steps: &Steps<'_>) -> Result<Vec<Cancelled>, AllocError> {
    let alloc = steps.alloc;
    let is_known = scope.facts.knowledge == Knowledge::ByJoiner;
    if is_known && limit(scope.facts.joiner) > 1 {
        return only_way(alloc, scope.copied(alloc)?);
    }
    if is_known || scope.facts.knowledge == Knowledge::Unseen {
        return cancelled_by(alloc, steps.around.table, scope, steps.left());
    }
    Ok(Vec::new(alloc))
}

/// Adds a state for each way of each part of a run that may have been the first to fail. The first part
/// is at this place.
fn push_firsts(at: At<'_>, first: u32, run: &Run, failed: u32, steps: &mut Steps<'_>) {
    if !run.part.is_early && at.scope.facts.has_failure {
        return;
    }
    for k in 0..run.count {
        let child = first.saturating_add(k);
        let looked = Looked {
            scope: at.scope,
            place: at.place,
            part: run.part,
            child,
        };
        let label = Label::First {
            scope: at.place,
            part: child,
        };
        came(&looked, true, failed, label, steps);
    }
}

/// Adds the states in which all subtasks of an `any` have failed, with the code of the first one.
fn all_failed(at: At<'_>, failed: u32, steps: &mut Steps<'_>) {
    if at.scope.runs.is_empty() {
        let step = Move::pushes(failed, -1, Label::Plain);
        steps.add_facts(at, at.scope.facts, step);
        return;
    }
    let mut first: u32 = 0;
    for run in at.scope.runs.as_slice() {
        push_firsts(at, first, run, failed, steps);
        first = first.saturating_add(run.count);
    }
}

/// What a `join` does after all subtasks of this scope were heard, unless they have to have failed.
fn after_heard(own: &Own, scope: &Seen) -> Option<Move> {
    let to = next_place(&own.frame);
    match scope.facts.joiner {
        Joiner::AnySucceeds => None,
        Joiner::AllSucceed | Joiner::Until(_) => {
            let count = i64::from(count_parts(scope.runs.as_slice()));
            Some(Move::pushes(to, count, Label::Plain))
        }
        Joiner::AwaitOk | Joiner::AwaitAll => Some(Move::jumps(to, Label::Plain)),
    }
}

/// Adds the states after all subtasks were heard, as this scope is then.
fn all_heard(place: u32, scope: Seen, failed: u32, steps: &mut Steps<'_>) {
    match after_heard(steps.own, &scope) {
        Some(step) => steps.add_with(place, Ok(scope), step),
        None => {
            let at = At {
                scope: &scope,
                place,
            };
            all_failed(at, failed, steps);
        }
    }
}

/// The scope after its `join` and after all subtasks were heard, if that fits.
fn heard_scope(scope: &Seen, steps: &Steps<'_>) -> Result<Option<Seen>, AllocError> {
    let facts = Facts {
        phase: Phase::Joined,
        ..scope.facts
    };
    let next = heard(steps.alloc, scope, facts)?;
    if_fits(steps.alloc, steps.around.table, next, steps.left())
}

/// The parts of a scope whose `join` waits.
fn waiting_parts(alloc: Global, scope: &Seen) -> Result<Vec<Run>, AllocError> {
    let runs = scope.runs.as_slice();
    // (the only one that lives isn't the first that failed)
    if scope.facts.has_failure && count_open(runs) == 1 {
        none_open_early(alloc, runs)
    } else {
        Vec::from_slice(alloc, runs)
    }
}

/// May a `join` wait?
fn may_wait(table: &Table, scope: &Seen) -> bool {
    may_go_on(table, scope) && count_open(scope.runs.as_slice()) > 0
}

/// The state after a `join` that waited was interrupted.
fn cut_short(alloc: Global, own: &Own, at: At<'_>, to: u32) -> Result<Own, AllocError> {
    let facts = Facts {
        phase: Phase::Attempted,
        ..at.scope.facts
    };
    let runs = waiting_parts(alloc, at.scope)?;
    let mut next = own.with_scope(alloc, at.place, Seen { facts, runs })?;
    next.frame.goes(to, 0);
    next.used = next.used.saturating_add(1);
    Ok(next)
}

/// Adds the states after a `join` of a scope of whose cancel the owner doesn't know: all subtasks were
/// heard, or an interrupt came.
fn undecided(at: At<'_>, targets: Targets, steps: &mut Steps<'_>) -> Result<(), AllocError> {
    if let Some(next) = heard_scope(at.scope, steps)? {
        all_heard(at.place, next, targets.failed, steps);
    }
    if may_wait(steps.around.table, at.scope) && steps.left() > 0 {
        let next = cut_short(steps.alloc, steps.own, at, targets.interrupted);
        steps.add(next, Label::Pays);
    }
    Ok(())
}

/// Adds the states after a `join` of a scope that hasn't expired.
fn in_time(at: At<'_>, targets: Targets, steps: &mut Steps<'_>) -> Result<(), AllocError> {
    let mut found = cut_offs(at.scope, steps)?;
    found.reverse();
    cut_off(at.place, targets.failed, &mut found, steps);
    if at.scope.facts.knowledge != Knowledge::Unseen {
        return Ok(());
    }
    undecided(at, targets, steps)
}

/// Adds the states after a `join`.
pub fn joined(at: At<'_>, targets: Targets, steps: &mut Steps<'_>) -> Result<(), AllocError> {
    let expired = at.scope.facts.expired;
    if expired || steps.around.may_expire(at.scope) {
        late(at, targets.timeout, steps);
    }
    if expired {
        return Ok(());
    }
    in_time(at, targets, steps)
}
