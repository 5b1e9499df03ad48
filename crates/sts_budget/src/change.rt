//! How an instruction changes the sums over the open entries.

ghost use Rattle.std.specs.Prelude.{◌≡◌, ◌<◌, ◌≤◌, ◌+◌, length};
ghost use Rattle.sts_rules.specs.Budget as budget;
ghost use Rattle.sts_budget.specs.Change as def;
ghost use Rattle.sts_budget.specs.TypedNames.{name_of, names};

use sts_code::{Instr, MAX_ENTRIES};
use sts_model::Stack;
use sts_rules::{Budgets, TypedEntry};

/// The resources with a budget.
#[derive(Clone, Copy)]
pub enum Resource {
    Steps,
    Tasks,
    Scopes,
    Binds,
}

/// How an instruction changes the sums over the first open entries, the outermost first.
#[derive(Clone, Copy)]
pub enum SumChange {
    /// Each sum rises by this amount.
    Rises(u64),
    /// An entry opens, which counts this amount itself.
    Opens(u64),
    /// The entry at this position counts `amount` more.
    Adds { position: usize, amount: u64 },
}

/// The number of entries that the sum over the first `d` depends on; `depth` entries are open
/// before the instruction.
pub fn source_of(change: SumChange, depth: usize, d: usize) -> usize
    ensures { result ≡ def.source_of change depth d }
{
    match change {
        SumChange::Opens(_) => d.min(depth),
        _ => d,
    }
}

/// The amount that the instruction adds to the sum over the first `d` entries.
pub fn added_of(change: SumChange, depth: usize, d: usize) -> u64
    ensures { result ≡ def.added_of change depth d }
{
    match change {
        SumChange::Rises(amount) => amount,
        SumChange::Opens(own) => { if depth < d { own } else { 0 } }
        SumChange::Adds { position, amount } => { if position < d { amount } else { 0 } }
    }
}

/// The slot of an entry, if it is a scope.
fn name_of(entry: TypedEntry) -> Option<u8>
    ensures { result ≡ name_of entry }
{
    match entry {
        TypedEntry::Scope(scope) => Some(scope.slot),
        TypedEntry::Binding(_) => None,
    }
}

/// The position, from the outermost, of the innermost scope in this slot.
fn position_of(slot: u8, entries: &Stack<TypedEntry, 16>) -> usize
    ensures { result ≡ def.position_of slot (names entries.now) }
{
    let len = entries.len();
    for i in 0..len {
        if name_of(entries.get_or(i, TypedEntry::default())) == Some(slot) {
            return len - 1 - i;
        }
    }
    0
}

/// How many steps an instruction counts.
fn steps_of(earlier: &[Budgets], instr: Instr) -> u64
    requires { def.ForksEarlier (length earlier.now) instr }
    ensures { result ≡ budget.steps_of earlier.now instr }
{
    match instr {
        Instr::Close(_) => 2,
        Instr::Fork { function, .. } => 1 + earlier[function as usize].steps as u64,
        _ => 1,
    }
}

/// The amount that a subtask of this function counts.
fn subtask_of(resource: Resource, earlier: &[Budgets], function: u32) -> u64
    requires { function < length earlier.now }
    ensures { result ≡ (def.measure_of resource earlier.now).subtask function }
{
    let child = earlier[function as usize];
    match resource {
        Resource::Steps => 0,
        Resource::Tasks => child.tasks as u64,
        Resource::Scopes => child.scopes as u64,
        Resource::Binds => child.binds as u64,
    }
}

/// The amount that a scope counts itself when it opens.
fn scope_of(resource: Resource, earlier: &[Budgets]) -> u64
    ensures { result ≡ (def.measure_of resource earlier.now).scope }
{
    match resource {
        Resource::Scopes => 1,
        _ => 0,
    }
}

/// The amount that a binding counts itself when it opens.
fn binding_of(resource: Resource, earlier: &[Budgets]) -> u64
    ensures { result ≡ (def.measure_of resource earlier.now).binding }
{
    match resource {
        Resource::Binds => 1,
        _ => 0,
    }
}

/// How the instruction changes the sums of this resource, if these entries are open.
#[inline(always)]
pub fn change_of(
    resource: Resource,
    earlier: &[Budgets],
    instr: Instr,
    entries: &Stack<TypedEntry, 16>,
) -> SumChange
    requires { def.ForksEarlier (length earlier.now) instr }
    ensures { result ≡ def.change_of resource earlier.now instr (names entries.now) }
{
    if let Resource::Steps = resource {
        return SumChange::Rises(steps_of(earlier, instr));
    }
    match instr {
        Instr::Open { .. } => SumChange::Opens(scope_of(resource, earlier)),
        Instr::Bind(_) => SumChange::Opens(binding_of(resource, earlier)),
        Instr::Fork { slot, function, .. } => SumChange::Adds {
            position: position_of(slot, entries),
            amount: subtask_of(resource, earlier, function),
        },
        _ => SumChange::Rises(0),
    }
}

/// The number of entries that the sums of this resource go over.
#[inline(always)]
pub fn depth_of(resource: Resource, entries: &Stack<TypedEntry, 16>) -> usize
    ensures value { result ≡ def.depth_of resource (names entries.now) }
    ensures bound { result ≤ MAX_ENTRIES }
{
    match resource {
        Resource::Steps => 0,
        _ => entries.len(),
    }
}
