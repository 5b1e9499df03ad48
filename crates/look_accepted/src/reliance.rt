//! The rules that JDK 25 doesn't share.

ghost use Rattle.std.specs.Prelude.{◌≡◌, ◌<◌, length};
ghost use Rattle.look_accepted.specs.Points.{state_at};
ghost use Rattle.look_accepted.specs.Relying as def;

use crate::point::Point;
use sts_code::Instr;
use sts_model::Stack;
use sts_rules::{SlotKind, TypedEntry, TypedPhase, TypedScope};
use sts_types::{TypeState, Typing};

/// A rule that an instruction relies on, and that JDK 25 doesn't share.
#[derive(Clone, Copy, PartialEq, Eq)]
pub enum Reliance {
    /// A `join` comes after an interrupted one.
    SecondJoin,
    /// A `fork` comes after a thread's first binding, which was made after the scope was opened.
    FirstBinding,
    /// A value or a code is read after a timeout.
    LateRead,
}

/// Was a `join` of the scope interrupted?
fn second_join(scope: Option<TypedScope>) -> Option<Reliance>
    ensures { result ≡ def.second_join scope }
{
    match scope?.phase {
        TypedPhase::Attempted => Some(Reliance::SecondJoin),
        _ => None,
    }
}

/// Was the scope joined by a timeout?
fn late_read(scope: Option<TypedScope>) -> Option<Reliance>
    ensures { result ≡ def.late_read scope }
{
    match scope?.phase {
        TypedPhase::Late => Some(Reliance::LateRead),
        _ => None,
    }
}

fn late_subtask(state: &TypeState, kind: SlotKind) -> Option<Reliance>
    ensures { result ≡ def.late_subtask state.now kind }
{
    match kind {
        SlotKind::Sub(slot, _) => late_read(state.scope_in(slot)),
        _ => None,
    }
}

/// Is the scope in this slot one of the `outer` outermost entries?
fn is_outer(entries: &Stack<TypedEntry, 16>, slot: u8, outer: usize) -> bool
    ensures { result ≡ def.is_outer slot outer entries.now }
{
    for i in 0..entries.len() {
        if let TypedEntry::Scope(scope) = entries.get_or(i, TypedEntry::Binding(0)) {
            if scope.slot == slot {
                return entries.len() - i <= outer;
            }
        }
    }
    false
}

fn first_binding(state: &TypeState, slot: u8, mark: Option<usize>) -> Option<Reliance>
    ensures { result ≡ def.first_binding slot state.now mark }
{
    if is_outer(state.entries(), slot, mark?) {
        Some(Reliance::FirstBinding)
    } else {
        None
    }
}

/// The rule that the instruction of a point relies on. Only an instruction that can rely on one reads
/// the typestate.
pub fn relied_on(typing: &Typing, instr: Instr, point: Point) -> Option<Reliance>
    requires { point.pc < length typing.now.states }
    ensures { result ≡ def.relied_on instr (state_at typing.now point.pc) point.mark }
{
    match instr {
        Instr::Join { slot, .. } => second_join(typing.state(point.pc).scope_in(slot)),
        Instr::Fork { slot, .. } => first_binding(&typing.state(point.pc), slot, point.mark),
        Instr::Total(slot) => late_read(typing.state(point.pc).scope_in(slot)),
        Instr::Get(handle) | Instr::Except(handle) => {
            let state = typing.state(point.pc);
            late_subtask(&state, state.kind(handle))
        }
        _ => None,
    }
}
