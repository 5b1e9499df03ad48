//! Tests of slots, scopes and entries of a typestate.

ghost use Rattle.std.specs.Prelude.{◌≡◌, nat_le};
ghost use Rattle.std.specs.List.{list_any};
ghost use Rattle.sts_rules.specs.Causes as def;
ghost use Rattle.sts_rules.specs.TypeState as typed;

use crate::state::TypeState;
use sts_code::{Instr, Joiner, Profile};
use sts_model::Stack;
use sts_rules::{SlotKind, TypedEntry, TypedLoop, TypedPhase, TypedScope};

/// Does the slot hold nothing?
pub fn is_empty(kind: SlotKind) -> bool
    ensures { result ≡ def.is_empty kind }
{
    matches!(kind, SlotKind::Empty)
}

/// Does the slot hold a scope of the task's own?
pub fn is_own(kind: SlotKind) -> bool
    ensures { result ≡ def.is_own kind }
{
    matches!(kind, SlotKind::Own)
}

/// Does the slot hold the scope that the task is a subtask of?
pub fn is_lent(kind: SlotKind) -> bool
    ensures { result ≡ def.is_lent kind }
{
    matches!(kind, SlotKind::Lent)
}

/// Does the slot hold a subtask?
pub fn is_sub(kind: SlotKind) -> bool
    ensures { result ≡ def.is_sub kind }
{
    matches!(kind, SlotKind::Sub(_, _))
}

impl TypeState {
    /// The content of a slot.
    pub fn kind(&self, slot: u8) -> SlotKind
        ensures { result ≡ typed.kind self.now slot }
    {
        match self.slots.get(slot as usize) {
            Some(kind) => *kind,
            None => SlotKind::Empty,
        }
    }

    /// The innermost scope in this slot.
    pub fn scope_in(&self, slot: u8) -> Option<TypedScope>
        ensures { result ≡ typed.scope_in self.now.entries slot }
    {
        scope_in(&self.entries, slot)
    }
}

fn scope_in(entries: &Stack<TypedEntry, 16>, slot: u8) -> Option<TypedScope>
    ensures { result ≡ typed.scope_in entries.now slot }
{
    for i in 0..entries.len() {
        if let TypedEntry::Scope(scope) = entries.get_or(i, TypedEntry::Binding(0)) {
            if scope.slot == slot {
                return Some(scope);
            }
        }
    }
    None
}

/// Was no `join` of the scope tried yet?
pub fn is_opened(scope: TypedScope) -> bool
    ensures { result ≡ def.is_opened scope }
{
    matches!(scope.phase, TypedPhase::Opened)
}

/// May `join` be done?
pub fn can_join(scope: TypedScope) -> bool
    ensures { result ≡ def.can_join scope }
{
    matches!(scope.phase, TypedPhase::Opened | TypedPhase::Attempted)
}

/// May the subtasks be read?
pub fn is_readable(profile: Profile, scope: TypedScope) -> bool
    ensures { result ≡ def.is_readable profile scope }
{
    match scope.phase {
        TypedPhase::Joined => true,
        TypedPhase::Late => matches!(profile, Profile::Two),
        _ => false,
    }
}

/// Is the entry a binding?
pub fn is_binding(entry: TypedEntry) -> bool
    ensures { result ≡ def.is_binding entry }
{
    matches!(entry, TypedEntry::Binding(_))
}

/// Is the entry the scope of this slot?
pub fn is_scope_in(slot: u8, entry: TypedEntry) -> bool
    ensures { result ≡ def.is_scope_in slot entry }
{
    match entry {
        TypedEntry::Binding(_) => false,
        TypedEntry::Scope(scope) => scope.slot == slot,
    }
}

/// Is the entry a binding of this key?
pub fn binds(key: u8, entry: TypedEntry) -> bool
    ensures { result ≡ def.binds key entry }
{
    match entry {
        TypedEntry::Binding(bound) => bound == key,
        TypedEntry::Scope(_) => false,
    }
}

impl TypeState {
    /// Does a binding come after the scope in this slot?
    pub fn binds_after(&self, slot: u8) -> bool
        ensures { result ≡ def.binds_after slot self.now.entries }
    {
        binds_after(&self.entries, slot)
    }

    /// Was the innermost entry in the list before an open loop began?
    pub fn is_held(&self) -> bool
        ensures { result ≡ def.is_held self.now }
    {
        holds(&self.loops, self.entries.len())
    }

    /// Is a binding of this key in the structure list?
    pub fn has_binding(&self, key: u8) -> bool
        ensures { result ≡ list_any (def.binds key) self.now.entries }
    {
        has_binding(&self.entries, key)
    }
}

/// Did the structure list have at least this length at the `times` of one of these loops?
fn holds(loops: &Stack<TypedLoop, 8>, len: usize) -> bool
    ensures { result ≡ list_any (λ l. nat_le len l.entries) loops.now }
{
    for i in 0..loops.len() {
        let around = loops.get_or(i, TypedLoop::default());
        if len <= around.entries as usize {
            return true;
        }
    }
    false
}

fn has_binding(entries: &Stack<TypedEntry, 16>, key: u8) -> bool
    ensures { result ≡ list_any (def.binds key) entries.now }
{
    for i in 0..entries.len() {
        if binds(key, entries.get_or(i, TypedEntry::Binding(0))) {
            return true;
        }
    }
    false
}

fn binds_after(entries: &Stack<TypedEntry, 16>, slot: u8) -> bool
    ensures { result ≡ def.binds_after slot entries.now }
{
    for i in 0..entries.len() {
        match entries.get_or(i, TypedEntry::Binding(0)) {
            TypedEntry::Binding(_) => return true,
            TypedEntry::Scope(scope) => {
                if scope.slot == slot {
                    return false;
                }
            }
        }
    }
    false
}
