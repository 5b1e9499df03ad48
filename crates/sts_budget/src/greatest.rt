//! The budget of one resource: the greatest sum of all places, with each loop in its last turn.

ghost use Rattle.std.specs.Prelude.{◌≡◌, ◌<◌, ◌≤◌, ◌+◌, ◌-◌, ◌*◌, ◌^◌, ℕ, IfOk, IfSome, IsTrue, IsFalse};
ghost use Rattle.std.specs.Prelude.{None, length, replicate, get_or};
ghost use Rattle.sts_code.specs.Program.{instr_at};
ghost use Rattle.sts_budget.specs.Change.{own_of, limit_of, depth_of as depth};
ghost use Rattle.sts_budget.specs.Pass.{IsBudgetOr, IsSet, flow, low_at, paths};
ghost use Rattle.sts_budget.specs.Last.{IsTopped};
ghost use Rattle.sts_budget.specs.Ready.{end_in};
ghost use Rattle.sts_budget.specs.Handing.{base_of, bases_after};
ghost use Rattle.sts_budget.specs.Table.{read, IsPartial, Passes};

use crate::change::{Resource, depth_of};
use crate::layout::end_of;
use crate::pass::{Pass, own_step, table};
use crate::row::Row;
use std::alloc::{AllocError, Global};
use sts_code::{Instr, MAX_STANDING, MAX_STEPS};
use sts_rules::filled;

/// The function's own part, outside the sums: the last step of a path, or the task itself.
pub fn own_of(resource: Resource) -> u32
    ensures { result ≡ own_of resource }
{
    match resource {
        Resource::Steps | Resource::Tasks => 1,
        Resource::Scopes | Resource::Binds => 0,
    }
}

/// The limit of a budget.
pub fn limit_of(resource: Resource) -> u32
    ensures { result ≡ limit_of resource }
{
    match resource {
        Resource::Steps => MAX_STEPS,
        _ => MAX_STANDING,
    }
}

/// The limit for the sums, after the function's own part is taken off.
pub(crate) fn most_of(resource: Resource) -> u32
    ensures { result ≡ limit_of resource - own_of resource }
{
    limit_of(resource) - own_of(resource)
}

/// The greatest sum before the last turn of the innermost loop around a place.
#[inline(always)]
fn base_at(bases: &[u64], head: Option<u32>) -> u64
    requires { IfSome head (λ h. h < length bases.now) }
    ensures { result ≡ base_of bases.now head }
{
    match head {
        Some(at) => bases[at as usize],
        None => 0,
    }
}

/// The greatest sum over the first `depth` entries at a place.
#[inline(always)]
fn sum_at<const N: usize>(best: &[Row<N>], pc: usize, depth: usize) -> u32
    requires in_code { pc < length best.now }
    requires few { depth < N }
    ensures { result ≡ read best.now pc depth }
{
    best[pc][depth]
}

/// Opens a loop if the instruction at `pc` is a `times`. The greatest sum before it is `full`, and
/// that of one turn is `end`.
#[inline(always)]
fn open_loop(bases: &mut Vec<u64>, instr: Instr, pc: usize, own: u32, full: u64, end: u32)
    requires in_code { pc < length bases.old.items }
    requires small { full < 2 ^ 32 }
    ensures { bases.new.items ≡ bases_after instr pc own full end bases.old.items }
{
    if let Instr::Times(turns) = instr {
        bases[pc] = full
            + own as u64
            + (turns as u64).saturating_sub(1) * (end as u64 + own as u64);
    }
}

/// The sum at the end of a turn of the loop that a `times` opens.
#[inline(always)]
fn turn_end<const N: usize>(pass: &Pass<'_>, best: &[Row<N>], pc: usize, depth: usize) -> u32
    requires in_code { pc < length pass.now.code.now }
    requires ends { pc < length pass.now.layout.now.typing.now.loops.ends }
    requires inside { (n : ℕ) → instr_at pass.now.code.now pc ≡ Instr.Times n →
        end_in pass.now.layout.now pc < length best.now }
    requires few { depth < N }
    ensures { (n : ℕ) → instr_at pass.now.code.now pc ≡ Instr.Times n →
        result ≡ read best.now (end_in pass.now.layout.now pc) depth }
{
    match pass.code[pc] {
        Instr::Times(_) => sum_at(best, end_of(pass.layout, pc) as usize, depth),
        _ => 0,
    }
}

/// The greatest sum of the places so far. For each loop that opens among them, the sum that its last
/// turn starts from.
#[derive(Drop)]
pub(crate) struct Top {
    bases: Vec<u64>,
    pub(crate) greatest: u64,
}

/// No place so far.
pub(crate) fn no_top(alloc: Global, places: usize) -> Result<Top, AllocError>
    ensures { IfOk result (λ t. (t.bases.items ≡ replicate places 0) × (t.greatest ≡ 0)) }
{
    let bases = filled(alloc, places, 0)?;
    Ok(Top { bases, greatest: 0 })
}

/// Adds a place, at which the sums go over `depth` entries. `head` is the `times` of the innermost
/// loop around it. The answer is false if its sum is over the limit.
#[inline(always)]
pub(crate) fn add_place<const N: usize>(
    pass: &Pass<'_>,
    best: &[Row<N>],
    top: &mut Top,
    pc: usize,
    depth: usize,
    head: Option<u32>,
) -> bool
    requires ready { IsSet pass.now }
    requires most { pass.now.most ≡ limit_of pass.now.resource - own_of pass.now.resource }
    requires small { N ≤ 17 }
    requires fits { (q : ℕ) → low_at pass.now q < N }
    requires in_code { pc < length pass.now.code.now }
    requires depth { depth ≡ low_at pass.now pc }
    requires head { head ≡ get_or pass.now.layout.now.typing.now.loops.heads pc None }
    requires whole { IsPartial (paths pass.now) (flow pass.now)
        (length pass.now.code.now) best.now }
    requires so_far { IsTopped pass.now best.now pc top.old }
    ensures next { IsTrue result → IsTopped pass.now best.now (pc + 1) top.new }
    ensures over { IsFalse result → Passes (paths pass.now) (flow pass.now) pass.now.most }
{
    let full = base_at(top.bases.as_slice(), head) + sum_at(best, pc, depth) as u64;
    if full > pass.most as u64 {
        return false;
    }
    top.greatest = full.max(top.greatest);
    let end = turn_end(pass, best, pc, depth);
    open_loop(
        &mut top.bases,
        pass.code[pc],
        pc,
        own_step(pass.resource),
        full,
        end,
    );
    true
}

/// The budget of this resource, found with rows of `N` sums, or `None` if it is over its limit.
fn greatest_by<const N: usize>(alloc: Global, pass: &Pass<'_>) -> Result<Option<u32>, AllocError>
    requires ready { IsSet pass.now }
    requires most { pass.now.most ≡ limit_of pass.now.resource - own_of pass.now.resource }
    requires small { N ≤ 17 }
    requires fits { (q : ℕ) → low_at pass.now q < N }
    ensures { IfOk result (IsBudgetOr pass.now) }
{
    let best = match table::<N>(alloc, pass)? {
        Some(best) => best,
        None => return Ok(None),
    };
    let mut top = no_top(alloc, pass.code.len())?;
    for pc in 0..pass.code.len() {
        let depth = depth_of(pass.resource, pass.layout.typing.entries(pc));
        let head = pass.layout.typing.head(pc);
        if !add_place(pass, best.as_slice(), &mut top, pc, depth, head) {
            return Ok(None);
        }
    }
    Ok(Some(own_of(pass.resource) + top.greatest as u32))
}

/// The budget of a resource other than steps, from what the open entries count. The rows are as
/// short as the entries allow. If nothing ever opens, no table is made.
fn peak(alloc: Global, pass: &Pass<'_>) -> Result<Option<u32>, AllocError>
    requires ready { IsSet pass.now }
    requires most { pass.now.most ≡ limit_of pass.now.resource - own_of pass.now.resource }
    requires no_steps { pass.now.resource ≡ Resource.Steps → ⊥ }
    ensures { IfOk result (IsBudgetOr pass.now) }
{
    if pass.layout.deepest == 0 {
        return Ok(Some(own_of(pass.resource)));
    }
    if pass.layout.deepest < 3 {
        return greatest_by::<3>(alloc, pass);
    }
    if pass.layout.deepest < 5 {
        return greatest_by::<5>(alloc, pass);
    }
    greatest_by::<17>(alloc, pass)
}

/// The budget of this resource, or `None` if it is over its limit. Steps are summed over zero
/// entries.
pub(crate) fn greatest(alloc: Global, pass: &Pass<'_>) -> Result<Option<u32>, AllocError>
    requires ready { IsSet pass.now }
    requires most { pass.now.most ≡ limit_of pass.now.resource - own_of pass.now.resource }
    ensures { IfOk result (IsBudgetOr pass.now) }
{
    match pass.resource {
        Resource::Steps => greatest_by::<1>(alloc, pass),
        _ => peak(alloc, pass),
    }
}
