//! The causes of a refusal that one instruction and one typestate decide, each a test.

ghost use Rattle.std.specs.Prelude.{◌≡◌, not, ◌&&◌, ◌||◌, is_some};
ghost use Rattle.std.specs.List.{list_any, range_with_len};
ghost use Rattle.sts_rules.specs.Causes as def;
ghost use Rattle.sts_code.specs.Facts as facts;

use crate::slots::{
    can_join, is_binding, is_empty, is_lent, is_opened, is_own, is_readable, is_scope_in, is_sub,
};
use crate::state::TypeState;
use sts_code::{
    Instr, MAX_ENTRIES, MAX_LOOPS, MAX_OPERANDS, Profile, Program, can_fail, filled_slot,
    is_await_all, owners_slot, pops, pushes, subtask_slot,
};
use sts_rules::{Known, SlotKind, TypedEntry, TypedScope};

// ---- V1, V2 and V6

pub(crate) fn lacks_operands(program: &Program, instr: Instr, state: &TypeState) -> bool
    ensures { result ≡ def.lacks_operands program.now instr state.now }
{
    state.height() < pops(program, instr)
}

/// Does the answer of this scope's `join` take room?
fn answers(scope: Option<TypedScope>) -> bool
    ensures { result ≡ def.passes (λ scope. not (facts.is_await_all scope.joiner)) scope }
{
    match scope {
        None => false,
        Some(scope) => !is_await_all(scope.joiner),
    }
}

fn join_overflows(state: &TypeState, instr: Instr) -> bool
    ensures { result ≡ def.join_overflows state.now instr }
{
    match instr {
        Instr::Join { slot, .. } => {
            MAX_OPERANDS <= state.height()
                && is_own(state.kind(slot))
                && answers(state.scope_in(slot))
        }
        _ => false,
    }
}

pub(crate) fn overflows(program: &Program, instr: Instr, state: &TypeState) -> bool
    ensures { result ≡ def.overflows program.now instr state.now }
{
    let left = state.height().saturating_sub(pops(program, instr));
    MAX_OPERANDS < left + pushes(instr) || join_overflows(state, instr)
}

pub(crate) fn is_too_deep(instr: Instr, state: &TypeState) -> bool
    ensures { result ≡ def.is_too_deep instr state.now }
{
    matches!(instr, Instr::Times(_)) && MAX_LOOPS <= state.loops().len()
}

// ---- V9 to V11

/// Does the slot hold no scope, though only an owner may use it?
fn has_no_scope(instr: Instr, state: &TypeState) -> bool
    ensures { result ≡ def.at_slot state.now (facts.owners_slot instr)
        (λ k. not (def.is_own k || def.is_lent k)) }
{
    match owners_slot(instr) {
        None => false,
        Some(slot) => {
            let kind = state.kind(slot);
            !(is_own(kind) || is_lent(kind))
        }
    }
}

fn has_no_subtask(instr: Instr, state: &TypeState) -> bool
    ensures { result ≡ def.at_slot state.now (facts.subtask_slot instr) (λ k. not (def.is_sub k)) }
{
    match subtask_slot(instr) {
        None => false,
        Some(slot) => !is_sub(state.kind(slot)),
    }
}

pub(crate) fn has_wrong_slot(instr: Instr, state: &TypeState) -> bool
    ensures { result ≡ def.has_wrong_slot instr state.now }
{
    match instr {
        Instr::Cancelled(slot) => {
            let kind = state.kind(slot);
            !(is_own(kind) || is_lent(kind))
        }
        _ => has_no_scope(instr, state) || has_no_subtask(instr, state),
    }
}

pub(crate) fn has_busy_slot(instr: Instr, state: &TypeState) -> bool
    ensures { result ≡ def.has_busy_slot instr state.now }
{
    match filled_slot(instr) {
        None => false,
        Some(slot) => !is_empty(state.kind(slot)),
    }
}

pub(crate) fn is_strangers(instr: Instr, state: &TypeState) -> bool
    ensures { result ≡ def.is_strangers instr state.now }
{
    match owners_slot(instr) {
        None => false,
        Some(slot) => is_lent(state.kind(slot)),
    }
}

// ---- V12

fn may_fork(scope: Option<TypedScope>) -> bool
    ensures { result ≡ def.passes def.is_opened scope }
{
    match scope {
        None => false,
        Some(scope) => is_opened(scope),
    }
}

fn may_join(scope: Option<TypedScope>) -> bool
    ensures { result ≡ def.passes def.can_join scope }
{
    match scope {
        None => false,
        Some(scope) => can_join(scope),
    }
}

fn may_read(profile: Profile, scope: Option<TypedScope>) -> bool
    ensures { result ≡ def.passes (def.is_readable profile) scope }
{
    match scope {
        None => false,
        Some(scope) => is_readable(profile, scope),
    }
}

pub(crate) fn is_illegal(profile: Profile, instr: Instr, state: &TypeState) -> bool
    ensures { result ≡ def.is_illegal profile instr state.now }
{
    match instr {
        Instr::Fork { slot, .. } => is_own(state.kind(slot)) && !may_fork(state.scope_in(slot)),
        Instr::Join { slot, .. } => is_own(state.kind(slot)) && !may_join(state.scope_in(slot)),
        Instr::Close(slot) => is_own(state.kind(slot)) && may_fork(state.scope_in(slot)),
        Instr::Tally(slot, _) | Instr::Total(slot) => {
            is_own(state.kind(slot)) && !may_read(profile, state.scope_in(slot))
        }
        Instr::Get(handle) => match state.kind(handle) {
            SlotKind::Sub(slot, Known::Success) => !may_read(profile, state.scope_in(slot)),
            SlotKind::Sub(_, _) => true,
            _ => false,
        },
        Instr::Except(handle) => match state.kind(handle) {
            SlotKind::Sub(slot, Known::Failed) => !may_read(profile, state.scope_in(slot)),
            SlotKind::Sub(_, _) => true,
            _ => false,
        },
        _ => false,
    }
}

// ---- V13 to V16

fn is_innermost(state: &TypeState, slot: u8) -> bool
    ensures { result ≡ def.innermost (def.is_scope_in slot) state.now.entries }
{
    match state.entries().get(0) {
        None => false,
        Some(entry) => is_scope_in(slot, entry),
    }
}

fn has_binding_innermost(state: &TypeState) -> bool
    ensures { result ≡ def.innermost def.is_binding state.now.entries }
{
    match state.entries().get(0) {
        None => false,
        Some(entry) => is_binding(entry),
    }
}

pub(crate) fn breaks_structure(instr: Instr, state: &TypeState) -> bool
    ensures { result ≡ def.breaks_structure instr state.now }
{
    match instr {
        Instr::Fork { slot, .. } => is_own(state.kind(slot)) && state.binds_after(slot),
        Instr::Close(slot) => {
            is_own(state.kind(slot)) && (!is_innermost(state, slot) || state.is_held())
        }
        Instr::Unbind => !has_binding_innermost(state) || state.is_held(),
        Instr::Ret | Instr::Fail => 0 < state.entries().len(),
        _ => false,
    }
}

pub(crate) fn is_nested(instr: Instr, state: &TypeState) -> bool
    ensures { result ≡ def.is_nested instr state.now }
{
    matches!(instr, Instr::Open { .. } | Instr::Bind(_)) && MAX_ENTRIES <= state.entries().len()
}

fn needs(program: &Program, function: u32, key: u8) -> bool
    ensures { result ≡ def.needs program.now function key }
{
    match program.functions().get(function as usize) {
        None => false,
        Some(f) => match f.needs.get(key as usize) {
            None => false,
            Some(needed) => *needed,
        },
    }
}

fn is_bound(program: &Program, function: u32, state: &TypeState, key: u8) -> bool
    ensures { result ≡ def.is_bound program.now function state.now key }
{
    state.has_binding(key) || needs(program, function, key)
}

/// Does the child need this key, which may be unbound here?
fn lacks(program: &Program, function: u32, child: u32, state: &TypeState, key: u8) -> bool
    ensures { result ≡ (def.needs program.now child key &&
        not (def.is_bound program.now function state.now key)) }
{
    needs(program, child, key) && !is_bound(program, function, state, key)
}

fn lacks_key(program: &Program, function: u32, child: u32, state: &TypeState) -> bool
    ensures { result ≡ list_any (λ k. def.needs program.now child k &&
        not (def.is_bound program.now function state.now k)) (range_with_len 0 16) }
{
    for key in 0..16u8 {
        if lacks(program, function, child, state, key) {
            return true;
        }
    }
    false
}

pub(crate) fn is_unbound(program: &Program, function: u32, instr: Instr, state: &TypeState) -> bool
    ensures { result ≡ def.is_unbound program.now function instr state.now }
{
    match instr {
        Instr::Read(key) => !is_bound(program, function, state, key),
        Instr::Fork {
            function: child,
            ..
        } => lacks_key(program, function, child, state),
        _ => false,
    }
}

/// Do the targets not fit the scope?
fn misfits(failed: Option<u32>, timeout: Option<u32>, scope: Option<TypedScope>) -> bool
    ensures { result ≡
        def.passes (λ scope. not (facts.same (is_some failed) (facts.can_fail scope.joiner)) ||
        not (facts.same (is_some timeout) scope.timed)) scope }
{
    match scope {
        None => false,
        Some(scope) => {
            failed.is_some() != can_fail(scope.joiner) || timeout.is_some() != scope.timed
        }
    }
}

pub(crate) fn misjoins(instr: Instr, state: &TypeState) -> bool
    ensures { result ≡ def.misjoins instr state.now }
{
    match instr {
        Instr::Join {
            slot,
            failed,
            timeout,
            ..
        } => is_own(state.kind(slot)) && misfits(failed, timeout, state.scope_in(slot)),
        _ => false,
    }
}
