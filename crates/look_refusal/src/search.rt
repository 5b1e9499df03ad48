//! The input of a search: the sums of one resource in one function.

ghost use Rattle.std.specs.Prelude.{◌≡◌, ◌<◌, ◌≤◌, length, true};
ghost use Rattle.sts_budget.specs.Ready.{head_in};
ghost use Rattle.sts_code.specs.Program.{instr_at};
ghost use Rattle.look_refusal.specs.Search as def;

use sts_budget::{
    Layout, Resource, SumChange, added_of, change_of, depth_of, end_of, source_of, turns_of,
};
use sts_code::{Instr, MAX_ENTRIES};
use sts_rules::Budgets;

/// A resource, the budgets of the functions before, the function's code and its layout.
#[derive(Clone, Copy)]
pub struct Search<'s> {
    pub resource: Resource,
    pub earlier: &'s [Budgets],
    pub code: &'s [Instr],
    pub layout: &'s Layout<'s>,
}

/// A place of the code, and the number of its open entries that the sum goes over, from the
/// outermost.
#[derive(Clone, Copy)]
pub struct Spot {
    pub place: u32,
    pub depth: usize,
}

/// A loop: the places of its `times` and its `next`, and the limit for its turns.
#[derive(Clone, Copy)]
pub struct CostLoop {
    pub head: u32,
    pub end: u32,
    pub turns: u16,
}

/// How many entries count at a place.
pub(crate) fn depth_at(search: &Search<'_>, pc: usize) -> usize
    requires ready { def.IsReady search.now }
    requires in_code { pc < length search.now.code.now }
    ensures value { result ≡ (def.flow search.now).depth pc }
    ensures bound { result ≤ MAX_ENTRIES }
{
    depth_of(search.resource, search.layout.typing.entries(pc))
}

/// How the instruction changes the sums.
fn change_at(search: &Search<'_>, pc: usize) -> SumChange
    requires ready { def.IsReady search.now }
    requires in_code { pc < length search.now.code.now }
    ensures { result ≡ def.change_at search.now pc }
{
    let entries = search.layout.typing.entries(pc);
    change_of(search.resource, search.earlier, search.code[pc], entries)
}

/// The number of entries that the sum goes over before the instruction.
pub(crate) fn depth_before(search: &Search<'_>, pc: usize, depth: usize) -> usize
    requires ready { def.IsReady search.now }
    requires in_code { pc < length search.now.code.now }
    ensures { result ≡ (def.flow search.now).source pc depth }
{
    source_of(change_at(search, pc), depth_at(search, pc), depth)
}

/// The amount that the instruction adds to the sum.
pub(crate) fn added_at(search: &Search<'_>, pc: usize, depth: usize) -> u128
    requires ready { def.IsReady search.now }
    requires in_code { pc < length search.now.code.now }
    ensures { result ≡ (def.flow search.now).added pc depth }
{
    added_of(change_at(search, pc), depth_at(search, pc), depth) as u128
}

/// Does the instruction end a loop's turn?
pub(crate) fn ends_turn(instr: Instr) -> bool
    ensures { result ≡ def.ends_turn instr }
{
    matches!(instr, Instr::Next)
}

/// Does the instruction end the path?
pub(crate) fn ends_path(instr: Instr) -> bool
    ensures { result ≡ def.ends_path instr }
{
    matches!(instr, Instr::Ret | Instr::Fail)
}

/// May the reported path end at this place? A path that is reported for its steps is a whole one.
pub(crate) fn may_end(search: &Search<'_>, pc: usize) -> bool
    requires { pc < length search.now.code.now }
    ensures { result ≡ def.may_end search.now pc }
{
    match search.resource {
        Resource::Steps => ends_path(search.code[pc]),
        _ => true,
    }
}

/// The loop that opens at a place.
pub(crate) fn loop_from(search: &Search<'_>, head: u32) -> CostLoop
    requires ready { def.IsReady search.now }
    requires opens { def.OpensLoop search.now head }
    ensures head { result.head ≡ head }
    ensures right { def.IsLoop search.now result }
{
    CostLoop {
        head,
        end: end_of(search.layout, head as usize),
        turns: turns_of(search.code[head as usize]),
    }
}

/// The loop that ends at a place.
pub(crate) fn loop_to(search: &Search<'_>, end: u32) -> CostLoop
    requires ready { def.IsReady search.now }
    requires in_code { end < length search.now.code.now }
    requires ends { def.ends_turn (instr_at search.now.code.now end) ≡ true }
    ensures head { result.head ≡ head_in search.now.layout.now end }
    ensures end { result.end ≡ end }
    ensures before { result.head < end }
    ensures right { def.IsLoop search.now result }
{
    match search.layout.typing.head(end as usize) {
        Some(head) => loop_from(search, head),
        None => unreachable!(),
    }
}
