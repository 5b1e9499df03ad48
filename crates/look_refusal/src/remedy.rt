//! What to do about each cause of a refusal. It depends on the instruction, and on what is known of
//! the task there.

ghost use Rattle.std.specs.Prelude.{◌≡◌, ◌<◌, ◌≤◌, length, IfOk, None, slice_get, if◌then◌else◌};
ghost use Rattle.sts_code.specs.Program.{instr_at};
ghost use Rattle.sts_rules.specs.Causes as causes;
ghost use Rattle.sts_rules.specs.Refusal.{IsRefusal};
ghost use Rattle.look_refusal.specs.Remedies as def;

use crate::ways::state_at;
use std::alloc::{AllocError, Global};
use sts_code::{Instr, MAX_INSTRUCTIONS, Profile, can_fail, code_of, owners_slot, subtask_slot};
use sts_output::Refusal;
use sts_rules::{Cause, SlotKind, TypedEntry, TypedPhase, TypedScope};
use sts_types::TypeState;
use sts_types::loops::CodeLoops;
use sts_types::slots::{is_binding, is_readable, is_scope_in};

/// What is missing or too much at an instruction, with what to do about it.
#[derive(Clone, Copy)]
pub enum Remedy {
    /// Fewer operands are on the stack than it pops.
    TooFewOperands,
    /// More operands would be on the stack than it holds.
    TooManyOperands,
    /// It leads to the end of the function.
    RunsPastEnd,
    /// One of its labels isn't a later one.
    GoesBack,
    /// A `times` without its `next`.
    TimesWithoutNext,
    /// A `next` without its `times`.
    NextWithoutTimes,
    /// It enters or leaves a loop in the middle.
    LoopCrossed,
    /// It would open a ninth loop.
    TooManyLoops,
    /// Two ways meet with different typestates.
    WaysDiffer,
    /// No way leads to it.
    NeverReached,
    /// The slot should hold a scope, and is empty.
    NoScope,
    /// The slot should hold a scope, and holds a subtask.
    HoldsSubtask,
    /// The slot should hold a subtask, and is empty.
    NoSubtask,
    /// The slot should hold a subtask, and holds a scope.
    HoldsScope,
    /// The slot that it fills holds a scope of the task's own.
    FillsScope,
    /// The slot that it fills holds the scope that the task is a subtask of.
    FillsParentScope,
    /// The slot that it fills holds a subtask.
    FillsSubtask,
    /// The task is a subtask of this scope.
    ParentScope,
    /// A `fork` after a `join` of the scope was tried.
    ForkAfterJoin,
    /// A `join` of a scope that was joined.
    JoinedAlready,
    /// A `close` of a scope before any `join` of it was tried.
    CloseBeforeJoin,
    /// Subtasks are read before a `join`.
    ReadBeforeJoin,
    /// Subtasks are read after an interrupted `join`.
    ReadAfterInterrupt,
    /// Subtasks are read after a timeout, in profile 1.
    ReadAfterTimeout,
    /// A `get` of a subtask that isn't known as a success.
    NotKnownSuccess,
    /// An `except` of a subtask that isn't known as failed.
    NotKnownFailed,
    /// A scope or a binding is open at `ret` or `fail`.
    StillOpen,
    /// A `close` while a scope is open that was opened later.
    OpenedLater,
    /// A `close` while a binding is in force that was made later.
    BoundLater,
    /// A `close` in a loop of a scope that was opened before it.
    OpenedBeforeLoop,
    /// An `unbind`, though the task has nothing open.
    NothingBound,
    /// An `unbind` while a scope is open that was opened later.
    OpenedInBinding,
    /// An `unbind` in a loop of a binding that was made before it.
    BoundBeforeLoop,
    /// A `fork` while a binding is in force that was made after the scope was opened.
    ForkAfterBind,
    /// It would open a seventeenth scope or binding.
    TooManyOpen,
    /// A key that it reads may be unbound.
    KeyUnbound,
    /// A key that the subtask needs may be unbound.
    SubtaskKeyUnbound,
    /// A `join` without a label for failed, though it can fail.
    FailedLabelMissing,
    /// A `join` with a label for failed, though it can't fail.
    NoFailureHere,
    /// A `join` without a label for timeout, though the scope has a timeout.
    TimeoutLabelMissing,
    /// A `join` with a label for timeout, though the scope has none.
    NoTimeoutHere,
    /// A path takes too many steps.
    TooManySteps,
    /// A path has too many tasks at once.
    TooManyTasks,
    /// A path has too many scopes open at once.
    TooManyScopes,
    /// A path has too many bindings open at once.
    TooManyBindings,
    /// In a run, a `get` of a subtask that is no success.
    NotSuccess,
    /// In a run, an `except` of a subtask that didn't fail.
    NotFailed,
    /// In a run, a key that it reads isn't bound.
    KeyUnboundNow,
    /// In a run, a `fork` for which there is no room.
    NoRoomForTask,
    /// In a run, an `open` for which there is no room.
    NoRoomForScope,
}

// ---- V5

fn unmatched_remedy(instr: Instr) -> Remedy
    ensures { result ≡ def.unmatched_remedy instr }
{
    match instr {
        Instr::Next => Remedy::NextWithoutTimes,
        _ => Remedy::TimesWithoutNext,
    }
}

/// Is it a `times` without a match, or a `next` that isn't the match of the innermost open loop?
fn is_unmatched(code: &[Instr], pc: u32, instr: Instr, state: &TypeState) -> bool
    requires { length code.now ≤ MAX_INSTRUCTIONS }
    ensures { result ≡ causes.is_unmatched code.now pc instr state.now }
{
    let loops = CodeLoops::new(code);
    match instr {
        Instr::Times(_) => loops.end_of(pc).is_none(),
        Instr::Next => !loops.closes_loop(pc, state.loops()),
        _ => false,
    }
}

fn loop_remedy(code: &[Instr], pc: u32, instr: Instr, state: &TypeState) -> Remedy
    requires { length code.now ≤ MAX_INSTRUCTIONS }
    ensures { result ≡ def.loop_remedy code.now pc instr state.now }
{
    if is_unmatched(code, pc, instr, state) {
        unmatched_remedy(instr)
    } else {
        Remedy::LoopCrossed
    }
}

// ---- V9 and V10

fn no_scope(kind: SlotKind) -> Remedy
    ensures { result ≡ def.no_scope kind }
{
    match kind {
        SlotKind::Sub(_, _) => Remedy::HoldsSubtask,
        _ => Remedy::NoScope,
    }
}

fn no_subtask(kind: SlotKind) -> Remedy
    ensures { result ≡ def.no_subtask kind }
{
    match kind {
        SlotKind::Own | SlotKind::Lent => Remedy::HoldsScope,
        _ => Remedy::NoSubtask,
    }
}

fn slot_remedy(instr: Instr, state: &TypeState) -> Remedy
    ensures { result ≡ def.slot_remedy instr state.now }
{
    match (instr, owners_slot(instr), subtask_slot(instr)) {
        (Instr::Cancelled(slot), _, _) | (_, Some(slot), _) => no_scope(state.kind(slot)),
        (_, None, Some(handle)) => no_subtask(state.kind(handle)),
        (_, None, None) => Remedy::NoScope,
    }
}

fn not_empty(kind: SlotKind) -> Remedy
    ensures { result ≡ def.not_empty kind }
{
    match kind {
        SlotKind::Own => Remedy::FillsScope,
        SlotKind::Lent => Remedy::FillsParentScope,
        _ => Remedy::FillsSubtask,
    }
}

fn busy_remedy(instr: Instr, state: &TypeState) -> Remedy
    ensures { result ≡ def.busy_remedy instr state.now }
{
    match instr {
        Instr::Open { slot, .. } => not_empty(state.kind(slot)),
        Instr::Fork {
            handle: Some(handle),
            ..
        } => not_empty(state.kind(handle)),
        _ => Remedy::FillsSubtask,
    }
}

// ---- V12

fn unread(scope: Option<TypedScope>) -> Remedy
    ensures { result ≡ def.unread scope }
{
    let Some(scope) = scope else {
        return Remedy::ReadBeforeJoin;
    };
    match scope.phase {
        TypedPhase::Attempted => Remedy::ReadAfterInterrupt,
        TypedPhase::Late => Remedy::ReadAfterTimeout,
        _ => Remedy::ReadBeforeJoin,
    }
}

/// A subtask of this scope can't be read, or its state isn't known.
fn unknown_of(profile: Profile, scope: Option<TypedScope>, unknown: Remedy) -> Remedy
    ensures { result ≡ def.unknown_of profile scope unknown }
{
    match scope {
        Some(found) if is_readable(profile, found) => unknown,
        _ => unread(scope),
    }
}

fn unknown(profile: Profile, state: &TypeState, kind: SlotKind, remedy: Remedy) -> Remedy
    ensures { result ≡ def.unknown profile state.now kind remedy }
{
    match kind {
        SlotKind::Sub(slot, _) => unknown_of(profile, state.scope_in(slot), remedy),
        _ => remedy,
    }
}

fn state_remedy(profile: Profile, instr: Instr, state: &TypeState) -> Remedy
    ensures { result ≡ def.state_remedy profile instr state.now }
{
    match instr {
        Instr::Fork { .. } => Remedy::ForkAfterJoin,
        Instr::Join { .. } => Remedy::JoinedAlready,
        Instr::Tally(slot, _) | Instr::Total(slot) => unread(state.scope_in(slot)),
        Instr::Get(handle) => {
            unknown(profile, state, state.kind(handle), Remedy::NotKnownSuccess)
        }
        Instr::Except(handle) => {
            unknown(profile, state, state.kind(handle), Remedy::NotKnownFailed)
        }
        _ => Remedy::CloseBeforeJoin,
    }
}

// ---- V13

fn innermost(state: &TypeState) -> Option<TypedEntry>
    ensures { result ≡ slice_get state.now.entries 0 }
{
    state.entries().get(0)
}

fn close_remedy(slot: u8, state: &TypeState) -> Remedy
    ensures { result ≡ (if causes.innermost (causes.is_scope_in slot) state.now.entries
        then Remedy.OpenedBeforeLoop else def.close_remedy state.now.entries) }
{
    match innermost(state) {
        Some(entry) if is_scope_in(slot, entry) => Remedy::OpenedBeforeLoop,
        Some(TypedEntry::Binding(_)) => Remedy::BoundLater,
        _ => Remedy::OpenedLater,
    }
}

fn unbind_remedy(state: &TypeState) -> Remedy
    ensures { result ≡ (if causes.innermost causes.is_binding state.now.entries
        then Remedy.BoundBeforeLoop else def.unbind_remedy state.now.entries) }
{
    match innermost(state) {
        None => Remedy::NothingBound,
        Some(entry) if is_binding(entry) => Remedy::BoundBeforeLoop,
        Some(_) => Remedy::OpenedInBinding,
    }
}

fn order_remedy(instr: Instr, state: &TypeState) -> Remedy
    ensures { result ≡ def.order_remedy instr state.now }
{
    match instr {
        Instr::Fork { .. } => Remedy::ForkAfterBind,
        Instr::Close(slot) => close_remedy(slot, state),
        Instr::Unbind => unbind_remedy(state),
        _ => Remedy::StillOpen,
    }
}

// ---- V15 and V16

fn key_remedy(instr: Instr) -> Remedy
    ensures { result ≡ def.key_remedy instr }
{
    match instr {
        Instr::Read(_) => Remedy::KeyUnbound,
        _ => Remedy::SubtaskKeyUnbound,
    }
}

/// The labels of a `join` don't fit: it has one for failed or not, for timeout or not, and can fail
/// or not.
pub fn label_remedy(failed: bool, timeout: bool, can: bool) -> Remedy
    ensures { result ≡ def.label_remedy failed timeout can }
{
    match (failed == can, failed, timeout) {
        (true, _, true) => Remedy::NoTimeoutHere,
        (true, _, false) => Remedy::TimeoutLabelMissing,
        (false, true, _) => Remedy::NoFailureHere,
        (false, false, _) => Remedy::FailedLabelMissing,
    }
}

fn join_remedy(failed: bool, timeout: bool, scope: Option<TypedScope>) -> Remedy
    ensures { result ≡ def.join_remedy failed timeout scope }
{
    match scope {
        None => Remedy::FailedLabelMissing,
        Some(scope) => label_remedy(failed, timeout, can_fail(scope.joiner)),
    }
}

fn edges_remedy(instr: Instr, state: &TypeState) -> Remedy
    ensures { result ≡ def.edges_remedy instr state.now }
{
    match instr {
        Instr::Join {
            slot,
            failed,
            timeout,
            ..
        } => join_remedy(failed.is_some(), timeout.is_some(), state.scope_in(slot)),
        _ => Remedy::FailedLabelMissing,
    }
}

// ---- all causes

/// What to do about a cause with the same remedy everywhere.
fn fixed_remedy(cause: Cause) -> Option<Remedy>
    ensures { result ≡ def.fixed_remedy cause }
{
    match cause {
        Cause::StackUnder => Some(Remedy::TooFewOperands),
        Cause::StackOver => Some(Remedy::TooManyOperands),
        Cause::FallsOff => Some(Remedy::RunsPastEnd),
        Cause::BackJump => Some(Remedy::GoesBack),
        Cause::LoopDepth => Some(Remedy::TooManyLoops),
        Cause::StatesDiffer => Some(Remedy::WaysDiffer),
        Cause::DeadCode => Some(Remedy::NeverReached),
        Cause::WrongThread => Some(Remedy::ParentScope),
        Cause::Nesting => Some(Remedy::TooManyOpen),
        Cause::TooManySteps => Some(Remedy::TooManySteps),
        Cause::TooManyTasks => Some(Remedy::TooManyTasks),
        Cause::TooManyScopes => Some(Remedy::TooManyScopes),
        Cause::TooManyBinds => Some(Remedy::TooManyBindings),
        _ => None,
    }
}

/// What to do about any other cause, at the instruction at `pc` in a typestate.
fn typed_remedy(
    profile: Profile,
    code: &[Instr],
    pc: u32,
    instr: Instr,
    state: &TypeState,
    cause: Cause,
) -> Remedy
    requires { length code.now ≤ MAX_INSTRUCTIONS }
    ensures { result ≡ def.typed_remedy profile code.now pc instr state.now cause }
{
    match cause {
        Cause::LoopMismatch => loop_remedy(code, pc, instr, state),
        Cause::SlotKind => slot_remedy(instr, state),
        Cause::SlotBusy => busy_remedy(instr, state),
        Cause::IllegalState => state_remedy(profile, instr, state),
        Cause::Structure => order_remedy(instr, state),
        Cause::Unbound => key_remedy(instr),
        _ => edges_remedy(instr, state),
    }
}

/// The instruction at a place.
pub(crate) fn instr_here(code: &[Instr], pc: u32) -> Instr
    requires { pc < length code.now }
    ensures { result ≡ instr_at code.now pc }
{
    code[pc as usize]
}

/// What to do about the cause of a refusal. It may depend on the typestate that reaches its place.
///
/// # Errors
///
/// Memory ran out.
pub(crate) fn remedy_for(alloc: Global, refusal: &Refusal) -> Result<Remedy, AllocError>
    requires { IsRefusal refusal.now.program refusal.now.function refusal.now.pc
        refusal.now.cause }
    ensures { IfOk result (λ r. def.IsRemedy refusal.now.program refusal.now.function
        refusal.now.pc refusal.now.cause r) }
{
    let cause = refusal.cause;
    if let Some(remedy) = fixed_remedy(cause) {
        return Ok(remedy);
    }
    let program = &refusal.program;
    let pc = refusal.pc;
    let state = state_at(alloc, program, refusal.function, pc)?;
    let code = code_of(program, refusal.function as usize);
    let instr = instr_here(code, pc);
    Ok(typed_remedy(program.profile(), code, pc, instr, &state, cause))
}
