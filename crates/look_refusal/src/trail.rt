//! A trail. It is found by one pass, and names for each place the place before it on the way that
//! adds most.

ghost use Rattle.std.specs.Prelude.{◌≡◌, ◌<◌, ◌+◌, ℕ, length, get_or, IfOk, IsTrue, IsFalse};
ghost use Rattle.std.specs.Prelude.{MatchOption, None};
ghost use Rattle.look_refusal.specs.Leads.{AreLeads};
ghost use Rattle.look_refusal.specs.Search as def;
ghost use Rattle.look_refusal.specs.Trail as trails;

use crate::leads::find_leads;
use crate::search::{CostLoop, Search, Spot, added_at, depth_at, depth_before, ends_turn, loop_to};
use std::alloc::{AllocError, Global};

/// The greatest sum over the first entries at a place, counted from the start of the innermost
/// loop's turn, and the place before it on that way.
#[derive(Clone, Copy)]
pub(crate) struct Best {
    sum: u128,
    from: Option<u32>,
}

/// The best way for each number of entries.
type Row = [Best; 17];

/// A row for each place.
#[derive(Drop)]
pub(crate) struct Trail {
    rows: Vec<Row>,
}

/// The entry if no way was found.
fn no_way() -> Best
    ensures { result ≡ trails.no_way }
{
    Best { sum: 0, from: None }
}

fn in_row(row: &[Best], depth: usize) -> Best
    ensures { result ≡ get_or row.now depth trails.no_way }
{
    if depth < row.len() {
        row[depth]
    } else {
        no_way()
    }
}

fn best_at(trail: &Trail, place: usize, depth: usize) -> Best
    ensures { result ≡ trails.best_in trail.now place depth }
{
    if place < trail.rows.len() {
        in_row(&trail.rows[place], depth)
    } else {
        no_way()
    }
}

/// The sum that the trail has at a place over the first `depth` entries.
pub(crate) fn sum_at(trail: &Trail, place: usize, depth: usize) -> u128
    ensures { result ≡ trails.sum_in trail.now place depth }
{
    best_at(trail, place, depth).sum
}

/// The place before a spot.
pub(crate) fn before(trail: &Trail, at: Spot) -> Option<u32>
    ensures { result ≡ (trails.best_in trail.now at.place at.depth).from }
{
    best_at(trail, at.place as usize, at.depth).from
}

/// The sum after `turns` turns of a loop, if it was `before` at its `times`, and if 128 bits hold
/// it.
pub(crate) fn after_turns(
    search: &Search<'_>,
    trail: &Trail,
    around: CostLoop,
    turns: u128,
    depth: usize,
    before: u128,
) -> Option<u128>
    requires ready { def.IsReady search.now }
    requires around { def.IsLoop search.now around }
    ensures { MatchOption result
        (trails.greatest_number < trails.looped search.now (trails.sum_in trail.now)
        around.head around.end turns before depth)
        (λ sum. sum ≡ trails.looped search.now (trails.sum_in trail.now)
        around.head around.end turns before depth) }
{
    let opened = before.checked_add(added_at(search, around.head as usize, depth))?;
    if turns == 0 {
        return Some(opened);
    }
    let end = around.end as usize;
    let turn = sum_at(trail, end, depth).checked_add(added_at(search, end, depth))?;
    opened.checked_add(turns.checked_mul(turn)?)
}

/// The sum that an instruction hands on, if 128 bits hold it.
fn handed(search: &Search<'_>, trail: &Trail, pc: u32, depth: usize) -> Option<u128>
    requires ready { def.IsReady search.now }
    requires in_code { pc < length search.now.code.now }
    ensures { MatchOption result
        (trails.greatest_number < trails.handed search.now (trails.sum_in trail.now) pc depth)
        (λ sum. sum ≡ trails.handed search.now (trails.sum_in trail.now) pc depth) }
{
    if ends_turn(search.code[pc as usize]) {
        let around = loop_to(search, pc);
        let before = sum_at(trail, around.head as usize, depth);
        return after_turns(search, trail, around, around.turns as u128, depth, before);
    }
    let before = sum_at(trail, pc as usize, depth_before(search, pc as usize, depth));
    before.checked_add(added_at(search, pc as usize, depth))
}

/// Returns the new one if it adds more, otherwise the old one.
fn better(old: Best, new: Best) -> Best
    ensures { result ≡ trails.better old new }
{
    if old.from.is_none() || old.sum < new.sum {
        new
    } else {
        old
    }
}

/// Keeps the ways from one place to another. The answer is false if 128 bits don't hold a sum.
fn keep_ways(search: &Search<'_>, trail: &Trail, from: u32, to: u32, row: &mut Row) -> bool
    requires ready { def.IsReady search.now }
    requires from_in_code { from < length search.now.code.now }
    requires to_in_code { to < length search.now.code.now }
    ensures kept { IsTrue result →
        trails.KeepsWays search.now (trails.sum_in trail.now) from to row.old row.new }
    ensures over { IsFalse result →
        trails.HandsTooMuch search.now (trails.sum_in trail.now) from to }
{
    for depth in 0..depth_at(search, to as usize) + 1 {
        match handed(search, trail, from, depth) {
            Some(sum) => {
                let way = Best {
                    sum,
                    from: Some(from),
                };
                row[depth] = better(row[depth], way);
            }
            None => return false,
        }
    }
    true
}

/// The best ways to a place, from the places that lead on to it and the trail of the places before
/// it; `None` if 128 bits don't hold a sum.
fn row_at(search: &Search<'_>, trail: &Trail, leads: &[u32], to: u32) -> Option<Row>
    requires ready { def.IsReady search.now }
    requires in_code { to < length search.now.code.now }
    requires leads { AreLeads search.now to leads.now }
    ensures { MatchOption result
        ((from : ℕ) × ((from < to) × def.LeadsOn search.now from to
        × trails.HandsTooMuch search.now (trails.sum_in trail.now) from to))
        (trails.IsRow search.now (trails.sum_in trail.now) to to) }
{
    let mut row = [no_way(); 17];
    for from in leads {
        if !keep_ways(search, trail, *from, to, &mut row) {
            return None;
        }
    }
    Some(row)
}

/// The trail of a function, or `None` if 128 bits don't hold a sum.
pub(crate) fn find_trail(alloc: Global, search: &Search<'_>) -> Result<Option<Trail>, AllocError>
    requires { def.IsReady search.now }
    ensures { IfOk result
        (λ o. MatchOption o (trails.IsTooWide search.now) (trails.IsTrail search.now)) }
{
    let leads = find_leads(alloc, search)?;
    let mut trail = Trail {
        rows: Vec::new(alloc),
    };
    for to in 0..search.code.len() as u32 {
        match row_at(search, &trail, leads[to as usize].as_slice(), to) {
            Some(row) => trail.rows.push(row)?,
            None => return Ok(None),
        }
    }
    Ok(Some(trail))
}
