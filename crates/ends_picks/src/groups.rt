//! Groups of states of a subtask: how many subtasks of a scope are in one.

ghost use Rattle.std.specs.Prelude.{◌≡◌, List, Option, count_by, not};
ghost use Rattle.std.specs.List.{list_any};
ghost use Rattle.ends_picks.specs.Groups as groups;
ghost use Rattle.ends_picks.specs.Ranges.{IsIn};
ghost use Rattle.laws_calls.specs.Tasks.{Picks};
ghost use Rattle.laws_calls.specs.declared.table.Way.{Way};
ghost use Rattle.laws_runs.specs.Tallies as tallies;
ghost use Rattle.sts_model.specs.declared.event.End.{End};

use crate::ranges::Range;
use laws_calls::joiners::{is_failure, is_success, is_trigger};
use laws_calls::table::{Part, Way};
use sts_code::{Joiner, Kind};
use sts_model::End;
use sts_repeats::repeats::Repeats;

/// A group of states of a subtask.
#[derive(Clone, Copy)]
pub enum Group {
    /// Its end counts towards a cancel.
    Counting,
    /// It is of this kind.
    Of(Kind),
    /// It succeeded, or failed, and its end counts.
    Counted(bool),
    /// It succeeded, or failed, and its end doesn't count.
    Uncounted(bool),
}

/// Is the end a success, or a failure?
fn ends_well(succeeds: bool, end: End) -> bool
    ensures { result ≡ groups.ends_well succeeds end }
{
    if succeeds {
        is_success(end)
    } else {
        is_failure(end)
    }
}

/// Is the end of this kind?
fn is_of_kind(kind: Kind, end: End) -> bool
    ensures { result ≡ tallies.is_kind kind (Option.Some end) }
{
    match kind {
        Kind::S => is_success(end),
        Kind::F => is_failure(end),
        Kind::U => false,
    }
}

/// Is the end in the group?
fn has_end(joiner: Joiner, group: Group, end: End) -> bool
    ensures { result ≡ groups.has_end joiner group end }
{
    match group {
        Group::Counting => is_trigger(joiner, end),
        Group::Of(kind) => is_of_kind(kind, end),
        Group::Counted(succeeds) => ends_well(succeeds, end) && is_trigger(joiner, end),
        Group::Uncounted(succeeds) => ends_well(succeeds, end) && !is_trigger(joiner, end),
    }
}

/// Is a subtask that is unavailable in the group?
fn has_unavailable(group: Group) -> bool
    ensures { result ≡ groups.has_unavailable group }
{
    matches!(group, Group::Of(Kind::U))
}

/// Is the state in the group?
pub fn is_in(joiner: Joiner, group: Group, state: Option<End>) -> bool
    ensures { result ≡ groups.is_in joiner group state }
{
    match state {
        Some(end) => has_end(joiner, group, end),
        None => has_unavailable(group),
    }
}

/// Is one of the ends in the group?
fn has_one(joiner: Joiner, group: Group, ways: &[Way]) -> bool
    ensures { result ≡ list_any (λ (way : Way). groups.has_end joiner group way.end) ways.now }
{
    ways.iter().any(|way| has_end(joiner, group, way.end))
}

/// Is one of the ends out of the group?
fn lacks_one(joiner: Joiner, group: Group, ways: &[Way]) -> bool
    ensures { result
        ≡ list_any (λ (way : Way). not (groups.has_end joiner group way.end)) ways.now }
{
    ways.iter().any(|way| !has_end(joiner, group, way.end))
}

/// May the part be in the group?
fn may_be_in(joiner: Joiner, group: Group, part: &Part) -> bool
    ensures { result ≡ groups.may_be_in joiner group part.now }
{
    part.is_open && has_unavailable(group) || has_one(joiner, group, part.ways.as_slice())
}

/// May the part be out of the group?
fn may_be_out(joiner: Joiner, group: Group, part: &Part) -> bool
    ensures { result ≡ groups.may_be_out joiner group part.now }
{
    part.is_open && !has_unavailable(group) || lacks_one(joiner, group, part.ways.as_slice())
}

/// How many parts may be in the group.
fn count_in(joiner: Joiner, group: Group, parts: &Repeats<Part>) -> usize
    ensures { result ≡ count_by (groups.may_be_in joiner group) parts.now }
{
    parts.count(|part| may_be_in(joiner, group, part))
}

/// How many parts may be out of the group.
fn count_out(joiner: Joiner, group: Group, parts: &Repeats<Part>) -> usize
    ensures { result ≡ count_by (groups.may_be_out joiner group) parts.now }
{
    parts.count(|part| may_be_out(joiner, group, part))
}

/// How many parts are in the group, at least and at most.
pub fn range_of(joiner: Joiner, group: Group, parts: &Repeats<Part>) -> Range
    ensures { (pick : List (Option End)) → Picks parts.now pick
        → IsIn result (count_by (groups.is_in joiner group) pick) }
{
    let out = count_out(joiner, group, parts);
    let greatest = count_in(joiner, group, parts);
    let least = parts.len().saturating_sub(out);
    Range { least, greatest }
}
