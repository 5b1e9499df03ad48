//! What became of a subtask, whatever became of the others.

ghost use Rattle.std.specs.Prelude.{◌≡◌, Some, OnOk, IfOk, not, slice_get};
ghost use Rattle.std.specs.List.{filter};
ghost use Rattle.ends_faults.specs.Safe as def;
ghost use Rattle.laws_calls.specs.declared.table.Way.{Way};
ghost use Rattle.laws_runs.specs.Tallies.{is_kind};

use ends_picks::possible::has_pick;
use ends_table::places::with_part;
use ends_table::stop::Stop;
use laws_calls::joiners::{is_failure, is_success};
use laws_calls::shared::Shared;
use laws_calls::table::{Part, Seen, Way};
use std::alloc::{AllocError, Global};
use sts_code::Kind;
use sts_model::{End, Items};

/// Is the end of this kind?
fn is_of_kind(kind: Kind, end: End) -> bool
    ensures { result ≡ is_kind kind (Some end) }
{
    match kind {
        Kind::S => is_success(end),
        Kind::F => is_failure(end),
        Kind::U => false,
    }
}

/// The ways of other kinds.
fn other_ways(alloc: Global, kind: Kind, ways: &[Way]) -> Result<Items<Way>, AllocError>
    ensures { IfOk result (λ xs. xs ≡ filter
        (λ (way : Way). not (is_kind kind (Some way.end))) ways.now) }
{
    let mut kept = Items::new(alloc);
    for way in ways {
        if !is_of_kind(kind, way.end) {
            kept.push(*way)?;
        }
    }
    Ok(kept)
}

/// The part, if it has not ended by an end of this kind.
fn without(alloc: Global, kind: Kind, part: &Part) -> Result<Part, AllocError>
    ensures { IfOk result (λ x. x ≡ def.without (is_kind kind) part.now) }
{
    let ways = other_ways(alloc, kind, part.ways.as_slice())?;
    Ok(Part {
        ways: Shared::new(alloc, ways)?,
        is_open: part.is_open,
        is_early: part.is_early,
    })
}

/// Whatever became of the subtasks, the state of this one is of this kind.
pub fn always(alloc: Global, seen: &Seen, i: u32, part: &Part, kind: Kind) -> Result<(), Stop>
    requires { slice_get seen.now.parts i ≡ Some part.now }
    ensures { OnOk result (def.Always (is_kind kind) seen.now i) }
{
    let other = without(alloc, kind, part)?;
    let after = with_part(alloc, seen, i, other)?;
    if has_pick(&after) {
        return Err(Stop::Unknown);
    }
    Ok(())
}
