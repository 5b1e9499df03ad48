//! The walk back along a trail, and the amount that each of its steps adds.

ghost use Rattle.std.specs.Prelude.{◌≡◌, ◌<◌, ◌≤◌, ◌+◌, ◌*◌, ◌-◌, ◌↔◌, length, IsTrue};
ghost use Rattle.look_refusal.specs.Search as def;
ghost use Rattle.look_refusal.specs.Trail as trails;
ghost use Rattle.look_refusal.specs.Walk as walks;

use crate::search::{
    CostLoop, Search, Spot, added_at, depth_before, ends_turn, loop_from, loop_to,
};
use crate::shares::{Shares, add};
use crate::trail::{Trail, before, sum_at};

/// One step back to a place. Its instruction's amount is added `times` times.
fn back_to(search: &Search<'_>, from: u32, to: Spot, times: u128, shares: &mut Shares) -> Spot
    requires ready { def.IsReady search.now }
    requires in_code { from < length search.now.code.now }
    requires places { length shares.old.places.items ≡ length search.now.code.now }
    requires parts { walks.AreParts shares.old }
    requires fits { shares.old.total + times * (def.flow search.now).added from to.depth
        ≤ trails.greatest_number }
    ensures step { walks.IsStepBack (def.flow search.now) from to times
        shares.old shares.new result }
    ensures parts { walks.AreParts shares.new }
{
    add(
        shares,
        from,
        added_at(search, from as usize, to.depth),
        times,
    );
    Spot {
        place: from,
        depth: depth_before(search, from as usize, to.depth),
    }
}

/// Does a turn of the loop that ends at a place add anything?
fn turn_adds(search: &Search<'_>, trail: &Trail, end: u32, depth: usize) -> bool
    requires ready { def.IsReady search.now }
    requires in_code { end < length search.now.code.now }
    ensures { IsTrue result ↔ (0 <
        trails.sum_in trail.now end depth + (def.flow search.now).added end depth) }
{
    sum_at(trail, end as usize, depth) > 0 || added_at(search, end as usize, depth) > 0
}

/// The walk back to the beginning of a turn, or of the function. It passes over a loop if its turns
/// add nothing.
fn back(search: &Search<'_>, trail: &Trail, to: Spot, times: u128, shares: &mut Shares) -> Spot
    requires ready { def.IsReady search.now }
    requires trail { trails.IsTrail search.now trail.now }
    requires spot { def.IsSpot search.now to }
    requires places { length shares.old.places.items ≡ length search.now.code.now }
    requires parts { walks.AreParts shares.old }
    requires fits { shares.old.total + times * trails.sum_in trail.now to.place to.depth
        ≤ trails.greatest_number }
    ensures { walks.IsWalkedBack search.now trail.now times result to shares.old shares.new }
{
    let mut at = to;
    while let Some(from) = before(trail, at) {
        at = if ends_turn(search.code[from as usize]) {
            let around = loop_to(search, from);
            if turn_adds(search, trail, from, at.depth) {
                let turns = times * around.turns as u128;
                let end = back_to(search, from, at, turns, shares);
                back(search, trail, end, turns, shares);
                back_to(search, around.head, at, times, shares)
            } else {
                back_to(search, around.head, at, times, shares)
            }
        } else {
            back_to(search, from, at, times, shares)
        };
    }
    at
}

/// From the beginning of the last turn of a loop back to its `times`, over all turns before it.
fn back_out(
    search: &Search<'_>,
    trail: &Trail,
    around: CostLoop,
    turn: Spot,
    shares: &mut Shares,
) -> Spot
    requires ready { def.IsReady search.now }
    requires trail { trails.IsTrail search.now trail.now }
    requires around { def.IsLoop search.now around }
    requires begins { turn.place ≡ around.head + 1 }
    requires spot { def.IsSpot search.now turn }
    requires places { length shares.old.places.items ≡ length search.now.code.now }
    requires parts { walks.AreParts shares.old }
    requires fits { trails.looped search.now (trails.sum_in trail.now) around.head around.end
        (around.turns - 1) shares.old.total turn.depth ≤ trails.greatest_number }
    ensures { walks.IsWalkedBackOut search.now trail.now around turn result
        shares.old shares.new }
{
    let turns = around.turns as u128 - 1;
    let end = back_to(search, around.end, turn, turns, shares);
    back(search, trail, end, turns, shares);
    back_to(search, around.head, turn, 1, shares)
}

/// The walk back to the beginning of the function, out of each open loop.
pub(crate) fn back_to_beginning(search: &Search<'_>, trail: &Trail, to: Spot, shares: &mut Shares)
    requires ready { def.IsReady search.now }
    requires trail { trails.IsTrail search.now trail.now }
    requires spot { def.IsSpot search.now to }
    requires places { length shares.old.places.items ≡ length search.now.code.now }
    requires parts { walks.AreParts shares.old }
    requires fits { shares.old.total + walks.rest_in search.now trail.now to
        ≤ trails.greatest_number }
    ensures walk { walks.IsWholeWalk (def.paths search.now) (def.flow search.now)
        to shares.old shares.new }
    ensures total { shares.new.total ≡
        shares.old.total + walks.rest_in search.now trail.now to }
{
    let mut at = to;
    loop {
        let turn = back(search, trail, at, 1, shares);
        match search.layout.typing.head(turn.place as usize) {
            Some(head) => at = back_out(search, trail, loop_from(search, head), turn, shares),
            None => return,
        }
    }
}
