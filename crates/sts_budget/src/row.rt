//! Rows of the greatest sums over the first open entries.

ghost use Rattle.std.specs.Prelude.{◌≡◌, ◌<◌, ◌+◌, ◌*◌, ℕ, max, min, get_or, IsTrue, IsFalse};
ghost use Rattle.sts_budget.specs.Change.{source_of, added_of};
ghost use Rattle.sts_budget.specs.Row.{IsRaised, IsOver};

use crate::change::{SumChange, added_of, source_of};

/// For each d below `N` the greatest sum over the first d entries.
pub(crate) type Row<const N: usize> = [u32; N];

/// Sums that are handed on, before they are held to a limit.
pub(crate) type Values<const N: usize> = [u64; N];

/// The sums of a row, with `amount` added to each.
#[inline(always)]
pub(crate) fn risen<const N: usize>(amount: u64, row: &Row<N>) -> Values<N>
    ensures { (d : ℕ) → d < N →
        get_or result d 0 ≡ min (get_or row.now d 0 + amount) 18446744073709551615 }
{
    let mut values = [0; N];
    for d in 0..N {
        values[d] = (row[d] as u64).saturating_add(amount);
    }
    values
}

/// The sums after an instruction, one for each number of entries that can be open then.
#[inline(always)]
pub(crate) fn values_after<const N: usize>(
    change: SumChange,
    depth: usize,
    row: &Row<N>,
) -> Values<N>
    requires { depth < N }
    ensures { (d : ℕ) → d < N →
        get_or result d 0 ≡
        min (get_or row.now (source_of change depth d) 0 + added_of change depth d)
        18446744073709551615 }
{
    if let SumChange::Rises(amount) = change {
        return risen(amount, row);
    }
    let mut values = [0; N];
    for d in 0..N {
        values[d] = (row[source_of(change, depth, d)] as u64).saturating_add(added_of(
            change, depth, d,
        ));
    }
    values
}

/// The sums after a loop: those at its head, and `turns` times those of a turn.
#[inline(always)]
pub(crate) fn values_of_loop<const N: usize>(
    turns: u16,
    own: u32,
    head: &Row<N>,
    end: &Row<N>,
) -> Values<N>
    ensures { (d : ℕ) → d < N →
        get_or result d 0 ≡ min (get_or head.now d 0 + own + turns * (get_or end.now d 0 + own))
        18446744073709551615 }
{
    let mut values = [0; N];
    for d in 0..N {
        values[d] = (head[d] as u64 + own as u64).saturating_add(
            turns as u64 * (end[d] as u64 + own as u64),
        );
    }
    values
}

/// Raises each sum of a row to that of another row.
#[inline(always)]
pub(crate) fn raise_all<const N: usize>(row: &mut Row<N>, other: &Row<N>)
    ensures { (d : ℕ) → d < N →
        get_or row.new d 0 ≡ max (get_or row.old d 0) (get_or other.now d 0) }
{
    for d in 0..N {
        row[d] = row[d].max(other[d]);
    }
}

/// Raises the sums over the first `low` entries to the values. The answer is false if one of these
/// is over the limit.
#[inline(always)]
pub(crate) fn raise<const N: usize>(
    row: &mut Row<N>,
    values: &Values<N>,
    low: usize,
    most: u32,
) -> bool
    requires { low < N }
    ensures raised { IsTrue result → IsRaised values.now low most row.old row.new }
    ensures over { IsFalse result → IsOver values.now low most }
{
    for d in 0..low + 1 {
        if values[d] > most as u64 {
            return false;
        }
        row[d] = row[d].max(values[d] as u32);
    }
    true
}
