//! The next states of a task that looks at a subtask.

use crate::frames::next_place;
use crate::learned::decided;
use crate::next::{Looked, Move, Steps};
use ends_known::part::{Filter, Part, narrowed, with_part};
use ends_known::pick::{if_fits, with_fitting};
use ends_known::seen::{Facts, Seen};
use ends_known::table::{Label, Table};
use laws_calls::joiners::is_success;
use laws_calls::table::Knowledge;
use std::alloc::AllocError;
use sts_code::Joiner;
use sts_model::End;

/// What a `case` shows that finds an end of one kind, if the part may have one.
fn heard_by(
    table: &Table,
    scope: &Seen,
    part: Part,
    kind: Filter,
    fails: bool,
) -> Option<(Facts, Part)> {
    let facts = scope.facts;
    let filter = narrowed(facts.joiner, part, table.ways_of(part), kind)?;
    let is_first = fails
        && facts.knowledge == Knowledge::Unseen
        && matches!(facts.joiner, Joiner::AnySucceeds);
    let part = Part {
        filter,
        is_open: false,
        ..part
    };
    let facts = Facts {
        has_failure: facts.has_failure || is_first,
        ..facts
    };
    Some((facts, part))
}

/// The scope in which its owner knows this of a part, if that fits.
fn with_heard(
    at: &Looked<'_>,
    facts: Facts,
    part: Part,
    steps: &Steps<'_>,
) -> Result<Option<Seen>, AllocError> {
    let table = steps.around.table;
    let runs = with_part(steps.alloc, at.scope.runs.as_slice(), at.child, part)?;
    let next = decided(table, Seen { facts, runs });
    if_fits(steps.alloc, table, next, steps.left())
}

/// Adds the state after a `case` that finds an end of one kind and goes to a place.
fn cased_by(at: &Looked<'_>, succeeds: bool, triggers: bool, to: u32, steps: &mut Steps<'_>) {
    let kind = Filter::Kind { succeeds, triggers };
    let found = heard_by(steps.around.table, at.scope, at.part, kind, !succeeds);
    if let Some((facts, part)) = found {
        let next = with_heard(at, facts, part, steps);
        steps.add_if(at.place, next, Move::jumps(to, Label::Plain));
    }
}

/// The part that a `case` found unavailable.
fn unavailable(facts: &Facts, part: Part) -> Part {
    if facts.knowledge != Knowledge::Unseen {
        return Part {
            filter: Filter::Nothing,
            ..part
        };
    }
    Part {
        is_early: part.is_early && !facts.has_failure,
        ..part
    }
}

/// Adds the state after a step, if the part may be as this one.
fn add_if_fits(at: &Looked<'_>, part: Part, step: Move, steps: &mut Steps<'_>) {
    let (table, facts, left) = (steps.around.table, at.scope.facts, steps.left());
    let next = with_fitting(steps.alloc, table, at.scope, left, facts, at.child, part);
    steps.add_if(at.place, next, step);
}

/// Adds the state after a `case` that finds its part unavailable.
fn passed(at: &Looked<'_>, steps: &mut Steps<'_>) {
    if !at.part.is_open {
        return;
    }
    let label = Label::Lives {
        scope: at.place,
        part: at.child,
    };
    let step = Move::jumps(next_place(&steps.own.frame), label);
    let part = unavailable(&at.scope.facts, at.part);
    add_if_fits(at, part, step, steps);
}

/// Adds the states after a `case`, which goes to one of two places if the subtask has ended.
pub fn cased(at: &Looked<'_>, success: u32, failed: u32, steps: &mut Steps<'_>) {
    for triggers in [true, false] {
        cased_by(at, true, triggers, success, steps);
        cased_by(at, false, triggers, failed, steps);
    }
    passed(at, steps);
}

/// The value of a success, or the code of a failure.
pub fn value_of(end: End) -> i64 {
    match end {
        End::Success(value) => value,
        End::Failed(code) => code,
    }
}

/// Adds a state for each way that the part may have come to, or for those that are failures alone. The
/// step pushes the value of the end.
pub fn came(at: &Looked<'_>, fails: bool, to: u32, label: Label, steps: &mut Steps<'_>) {
    let part = at.part;
    let mut way: u32 = 0;
    for it in steps.around.table.ways_of(part) {
        let is_such = !(fails && is_success(it.end));
        if is_such && part.filter.allows(at.scope.facts.joiner, way, it.end) {
            let only = Part {
                filter: Filter::Only(way),
                ..part
            };
            let step = Move::pushes(to, value_of(it.end), label);
            add_if_fits(at, only, step, steps);
        }
        way = way.saturating_add(1);
    }
}
