//! One forward pass makes the table of greatest sums.

ghost use Rattle.std.specs.Prelude.{◌≡◌, ◌<◌, ◌≤◌, ◌+◌, ◌-◌, ◌*◌, ℕ, All, IsTrue, IsFalse};
ghost use Rattle.std.specs.Prelude.{IfOk, MatchOption, length, min, get_or};
ghost use Rattle.sts_code.specs.Program.{instr_at};
ghost use Rattle.sts_budget.specs.Change.{limit_of, own_of, own_step};
ghost use Rattle.sts_budget.specs.Pass.{IsSet, flow, leads, low_at, paths};
ghost use Rattle.sts_budget.specs.Ready.{head_in};
ghost use Rattle.sts_budget.specs.Row.{IsOver};
ghost use Rattle.sts_budget.specs.Table.{IsRaisedAt, IsSent, IsStopped, IsSpread, IsPartial};
ghost use Rattle.sts_budget.specs.Table.{HandsTooMuch, Passes, read};
ghost use Rattle.sts_budget.specs.Handing.{handed_value, is_quiet, is_ordinary, turns_of};

use crate::change::{Resource, change_of, depth_of};
use crate::layout::{Layout, next_places};
use crate::row::{Row, Values, raise, risen, values_after, values_of_loop};
use std::alloc::{AllocError, Global};
use sts_code::{Instr, MAX_INSTRUCTIONS, goes_straight_on};
use sts_rules::{Budgets, filled};

/// The input of one pass over a function: a resource, the budgets of the functions before, the
/// function's code and layout, and the limit for the sums.
#[derive(Clone, Copy)]
pub(crate) struct Pass<'p> {
    pub(crate) resource: Resource,
    pub(crate) earlier: &'p [Budgets],
    pub(crate) code: &'p [Instr],
    pub(crate) layout: &'p Layout<'p>,
    pub(crate) most: u32,
}

/// Raises the row at a place to the values, as far as `low` entries. The answer is false if a value
/// is over the limit.
#[inline(always)]
pub(crate) fn raise_row<const N: usize>(
    best: &mut Vec<Row<N>>,
    to: usize,
    values: &Values<N>,
    low: usize,
    most: u32,
) -> bool
    requires inside { to < length best.old.items }
    requires low { low < N }
    ensures raised { IsTrue result →
        IsRaisedAt values.now low most to best.old.items best.new.items }
    ensures over { IsFalse result → IsOver values.now low most }
{
    raise(&mut best[to], values, low, most)
}

/// Raises the row at a place to the values, as far as entries are open there. The answer is false
/// if a value is over the limit.
fn raise_at<const N: usize>(
    best: &mut Vec<Row<N>>,
    to: usize,
    values: &Values<N>,
    pass: &Pass<'_>,
) -> bool
    requires inside { to < length best.old.items }
    requires named { length pass.now.layout.now.typing.now.states ≡ length best.old.items }
    requires fits { (pc : ℕ) → low_at pass.now pc < N }
    ensures raised { IsTrue result →
        IsRaisedAt values.now (low_at pass.now to) pass.now.most to best.old.items best.new.items }
    ensures over { IsFalse result → IsOver values.now (low_at pass.now to) pass.now.most }
{
    let low = depth_of(pass.resource, pass.layout.typing.entries(to));
    raise_row(best, to, values, low, pass.most)
}

/// Raises the rows at these places to the values. The answer is false if a value is over the limit.
fn send<const N: usize>(
    best: &mut Vec<Row<N>>,
    places: &[u32],
    values: &Values<N>,
    pass: &Pass<'_>,
) -> bool
    requires inside { All (λ to. to < length best.old.items) places.now }
    requires named { length pass.now.layout.now.typing.now.states ≡ length best.old.items }
    requires fits { (pc : ℕ) → low_at pass.now pc < N }
    ensures sent { IsTrue result →
        IsSent values.now (low_at pass.now) pass.now.most places.now best.old.items best.new.items }
    ensures over { IsFalse result →
        IsStopped values.now (low_at pass.now) pass.now.most places.now }
{
    for i in 0..places.len() {
        if !raise_at(best, places[i] as usize, values, pass) {
            return false;
        }
    }
    true
}

/// Raises the rows at the places where an instruction goes on.
fn send_on<const N: usize>(
    best: &mut Vec<Row<N>>,
    instr: Instr,
    pc: usize,
    values: &Values<N>,
    pass: &Pass<'_>,
) -> bool
    requires short { pc < MAX_INSTRUCTIONS }
    requires inside { All (λ to. to < length best.old.items) (leads pc instr) }
    requires named { length pass.now.layout.now.typing.now.states ≡ length best.old.items }
    requires fits { (q : ℕ) → low_at pass.now q < N }
    ensures sent { IsTrue result →
        IsSent values.now (low_at pass.now) pass.now.most
        (leads pc instr) best.old.items best.new.items }
    ensures over { IsFalse result →
        IsStopped values.now (low_at pass.now) pass.now.most (leads pc instr) }
{
    if goes_straight_on(instr) {
        return raise_at(best, pc + 1, values, pass);
    }
    let places = next_places(instr, pc as u32);
    send(best, places.as_slice(), values, pass)
}

/// Does the instruction hand on nothing? It is the end of a path, or a `times`, after which sums
/// begin again.
#[inline(always)]
pub(crate) fn is_quiet(instr: Instr) -> bool
    ensures { result ≡ is_quiet instr }
{
    matches!(instr, Instr::Times(_) | Instr::Ret | Instr::Fail)
}

/// The most turns of the loop that the instruction opens, and 0 if it opens none.
pub fn turns_of(instr: Instr) -> u16
    ensures { result ≡ turns_of instr }
{
    match instr {
        Instr::Times(turns) => turns,
        _ => 0,
    }
}

/// The amount that a `times` or a `next` counts itself.
#[inline(always)]
pub(crate) fn own_step(resource: Resource) -> u32
    ensures { result ≡ own_step resource }
{
    match resource {
        Resource::Steps => 1,
        _ => 0,
    }
}

/// The sums that the end of a loop hands on.
#[inline(always)]
fn loop_values<const N: usize>(pass: &Pass<'_>, best: &[Row<N>], pc: usize) -> Values<N>
    requires in_code { pc < length pass.now.code.now }
    requires head { head_in pass.now.layout.now pc < length pass.now.code.now }
    requires heads { length pass.now.layout.now.typing.now.loops.heads ≡ length pass.now.code.now }
    requires rows { length best.now ≡ length pass.now.code.now }
    ensures { (d : ℕ) → d < N →
        get_or result d 0 ≡
        min (read best.now (head_in pass.now.layout.now pc) d + own_step pass.now.resource +
        turns_of (instr_at pass.now.code.now (head_in pass.now.layout.now pc)) *
        (read best.now pc d + own_step pass.now.resource)) 18446744073709551615 }
{
    let head = match pass.layout.typing.head(pc) {
        Some(at) => at as usize,
        None => 0,
    };
    values_of_loop(
        turns_of(pass.code[head]),
        own_step(pass.resource),
        &best[head],
        &best[pc],
    )
}

/// Does the instruction count one step, and change nothing else?
#[inline(always)]
pub(crate) fn is_ordinary(instr: Instr) -> bool
    ensures { result ≡ is_ordinary instr }
{
    !matches!(
        instr,
        Instr::Next | Instr::Open { .. } | Instr::Bind(_) | Instr::Fork { .. } | Instr::Close(_)
    )
}

/// The sums that an instruction hands on.
#[inline(always)]
pub(crate) fn values_of<const N: usize>(pass: &Pass<'_>, best: &[Row<N>], pc: usize) -> Values<N>
    requires ready { IsSet pass.now }
    requires fits { (q : ℕ) → low_at pass.now q < N }
    requires in_code { pc < length pass.now.code.now }
    requires rows { length best.now ≡ length pass.now.code.now }
    ensures { (d : ℕ) → d < N →
        get_or result d 0 ≡
        min (handed_value pass.now.resource pass.now.earlier.now pass.now.code.now
        pass.now.layout.now (read best.now) pc d) 18446744073709551615 }
{
    if is_ordinary(pass.code[pc]) {
        return risen(own_step(pass.resource) as u64, &best[pc]);
    }
    match pass.code[pc] {
        Instr::Next => loop_values(pass, best, pc),
        instr => {
            let entries = pass.layout.typing.entries(pc);
            let change = change_of(pass.resource, pass.earlier, instr, entries);
            values_after(change, depth_of(pass.resource, entries), &best[pc])
        }
    }
}

/// Hands on the sums of a place. The answer is false if a sum is over the limit.
fn hand_on<const N: usize>(pass: &Pass<'_>, best: &mut Vec<Row<N>>, pc: usize) -> bool
    requires ready { IsSet pass.now }
    requires most { pass.now.most ≡ limit_of pass.now.resource - own_of pass.now.resource }
    requires small { N ≤ 17 }
    requires fits { (q : ℕ) → low_at pass.now q < N }
    requires in_code { pc < length pass.now.code.now }
    requires rows { length best.old.items ≡ length pass.now.code.now }
    ensures spread { IsTrue result →
        IsSpread (paths pass.now) (flow pass.now)
        (head_in pass.now.layout.now) pc best.old.items best.new.items }
    ensures over { IsFalse result →
        HandsTooMuch (paths pass.now) (flow pass.now) (head_in pass.now.layout.now) pc
        (read best.old.items) pass.now.most }
{
    if is_quiet(pass.code[pc]) {
        return true;
    }
    let values = values_of(pass, best.as_slice(), pc);
    send_on(best, pass.code[pc], pc, &values, pass)
}

/// The table of the greatest sums, or `None` if a sum is over the limit.
pub(crate) fn table<const N: usize>(
    alloc: Global,
    pass: &Pass<'_>,
) -> Result<Option<Vec<Row<N>>>, AllocError>
    requires ready { IsSet pass.now }
    requires most { pass.now.most ≡ limit_of pass.now.resource - own_of pass.now.resource }
    requires small { N ≤ 17 }
    requires fits { (q : ℕ) → low_at pass.now q < N }
    ensures { IfOk result
        (λ o. MatchOption o (Passes (paths pass.now) (flow pass.now) pass.now.most)
        (λ t. IsPartial (paths pass.now) (flow pass.now) (length pass.now.code.now) t.items)) }
{
    let mut best = filled(alloc, pass.code.len(), [0; N])?;
    for pc in 0..pass.code.len() {
        if !hand_on(pass, &mut best, pc) {
            return Ok(None);
        }
    }
    Ok(Some(best))
}
