//! The place with the greatest sum.

ghost use Rattle.std.specs.Prelude.{◌≡◌, ◌<◌, ◌+◌, length, IfOk, MatchOption};
ghost use Rattle.look_refusal.specs.Search as def;
ghost use Rattle.look_refusal.specs.Top as tops;
ghost use Rattle.look_refusal.specs.Trail as trails;

use crate::search::{Search, depth_at, loop_from, may_end};
use crate::trail::{Trail, after_turns, sum_at};
use std::alloc::{AllocError, Global};

/// A place, and the sum there.
#[derive(Clone, Copy)]
pub(crate) struct Top {
    pub place: u32,
    pub most: u128,
}

/// The full sum at a place, with each open loop in its last turn. `fulls` has the full sums at the
/// places before it. The answer is `None` if 128 bits don't hold it.
fn full_at(search: &Search<'_>, trail: &Trail, fulls: &[u128], pc: u32) -> Option<u128>
    requires ready { def.IsReady search.now }
    requires trail { trails.IsTrail search.now trail.now }
    requires in_code { pc < length search.now.code.now }
    requires fulls { tops.AreFulls search.now trail.now pc fulls.now }
    ensures { MatchOption result
        (trails.greatest_number < trails.full_in search.now trail.now pc)
        (λ full. full ≡ trails.full_in search.now trail.now pc) }
{
    let turn = sum_at(trail, pc as usize, depth_at(search, pc as usize));
    match search.layout.typing.head(pc as usize) {
        Some(head) => {
            let around = loop_from(search, head);
            let turns = around.turns as u128 - 1;
            let depth = depth_at(search, head as usize);
            let stands = fulls[head as usize];
            let base = after_turns(search, trail, around, turns, depth, stands)?;
            base.checked_add(turn)
        }
        None => Some(turn),
    }
}

/// The higher of the top so far and this place with its full sum. The top so far wins a tie.
fn higher(search: &Search<'_>, trail: &Trail, top: Top, pc: u32, full: u128) -> Top
    requires in_code { pc < length search.now.code.now }
    requires top { tops.IsTop search.now trail.now pc top.place top.most }
    requires full { full ≡ trails.full_in search.now trail.now pc }
    ensures { tops.IsTop search.now trail.now (pc + 1) result.place result.most }
{
    if may_end(search, pc as usize) && full > top.most {
        Top {
            place: pc,
            most: full,
        }
    } else {
        top
    }
}

/// The place of a function with the greatest full sum. For steps only the ends of paths are looked
/// at. The answer is `None` if 128 bits don't hold the sum at some place.
pub(crate) fn find_top(
    alloc: Global,
    search: &Search<'_>,
    trail: &Trail,
) -> Result<Option<Top>, AllocError>
    requires ready { def.IsReady search.now }
    requires trail { trails.IsTrail search.now trail.now }
    ensures { IfOk result (λ o. MatchOption o (trails.IsTooWide search.now)
        (λ top. tops.IsTop search.now trail.now (length search.now.code.now) top.place top.most)) }
{
    let mut fulls = Vec::new(alloc);
    let mut top = Top { place: 0, most: 0 };
    for pc in 0..search.code.len() as u32 {
        match full_at(search, trail, fulls.as_slice(), pc) {
            Some(full) => {
                top = higher(search, trail, top, pc, full);
                fulls.push(full)?;
            }
            None => return Ok(None),
        }
    }
    Ok(Some(top))
}
