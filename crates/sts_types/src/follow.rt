//! The places and typestates that follow an instruction, if no cause holds.

ghost use Rattle.std.specs.Prelude.{ℕ, List, ◌≡◌, ◌<◌, ◌≤◌, ◌-◌, ◌+◌, length, slice_get, IfSome};
ghost use Rattle.sts_rules.specs.Edges as def;
ghost use Rattle.sts_code.specs.Program.{Program};
ghost use Rattle.sts_code.specs.declared.instr.Instr.{Instr};
ghost use Rattle.sts_rules.specs.TypeState.{TypeState};
ghost use Rattle.sts_types.specs.Arrivals.{Goes};
ghost use Rattle.sts_types.specs.Site.{IsSite, HasRoomAt, follows_at, outcomes, states};

use crate::site::Site;
use crate::state::TypeState;
use arrayvec::ArrayVec;
use std::marker::Model;
use sts_code::{Instr, MAX_OPERANDS, falls_through};
use sts_rules::{Known, TypedPhase};

/// The places that follow an instruction, each with its typestate, at most four: contracts see the
/// list of them.
#[derive(Drop)]
pub struct Edges {
    edges: ArrayVec<(u32, TypeState), 4>,
}

impl Model for Edges {
    ghost use Rattle.std.specs.Prelude.{ℕ, List};
    ghost use Rattle.sts_rules.specs.TypeState.{TypeState};

    ghost Value = { List (ℕ × TypeState) };

    ghost view = { λ e. e.edges.items };
}

impl Edges {
    /// The places that follow, each with its typestate, in order.
    pub fn as_slice(&self) -> &[(u32, TypeState)]
        ensures { result.now ≡ self.now }
    {
        self.edges.as_slice()
    }
}

/// Follows the first edge of an instruction: the typestate becomes that at the place where the edge
/// ends.
fn first_edge(site: &Site<'_>, state: &mut TypeState) -> Option<u32>
    requires site { IsSite site.now }
    requires room { HasRoomAt site.now state.old }
    ensures { Goes (slice_get (follows_at site.now state.old) 0) state.old result state.new }
{
    if falls_through(site.instr) {
        state.step(site.program, site.pc, site.instr);
        return Some(site.loops.after(site.pc));
    }
    match site.instr {
        Instr::Jmp(to) => Some(to),
        _ => None,
    }
}

/// Follows an edge of a `join`, by number from 0, without that of ok.
fn join_edge(
    state: &mut TypeState,
    slot: u8,
    failed: Option<u32>,
    timeout: Option<u32>,
    interrupted: u32,
    number: usize,
) -> Option<u32>
    requires { IfSome failed (λ _. state.old.height < MAX_OPERANDS) }
    ensures { Goes (slice_get (outcomes slot failed timeout interrupted state.old) number)
        state.old result state.new }
{
    let mut number = number;
    if let Some(to) = failed {
        if number == 0 {
            state.join_failed(slot);
            return Some(to);
        }
        number -= 1;
    }
    if let Some(to) = timeout {
        if number == 0 {
            state.set_phase(slot, TypedPhase::Late);
            return Some(to);
        }
        number -= 1;
    }
    if number == 0 {
        state.set_phase(slot, TypedPhase::Attempted);
        Some(interrupted)
    } else {
        None
    }
}

/// Follows an edge of a `case`, by number from 0, without that of a subtask in neither state.
fn case_edge(
    state: &mut TypeState,
    handle: u8,
    success: u32,
    failed: u32,
    number: usize,
) -> Option<u32>
    ensures { Goes (slice_get (states handle success failed state.old) number)
        state.old result state.new }
{
    match number {
        0 => {
            state.set_known(handle, Known::Success);
            Some(success)
        }
        1 => {
            state.set_known(handle, Known::Failed);
            Some(failed)
        }
        _ => None,
    }
}

/// Follows an edge of an instruction after its first, by number from 0.
fn later_edge(site: &Site<'_>, state: &mut TypeState, number: usize) -> Option<u32>
    requires site { IsSite site.now }
    requires room { HasRoomAt site.now state.old }
    ensures { Goes (slice_get (follows_at site.now state.old) (number + 1))
        state.old result state.new }
{
    match site.instr {
        Instr::Div(to) if number == 0 => {
            state.pop(2);
            Some(to)
        }
        Instr::Jz(to) if number == 0 => {
            state.move_operands(site.program, site.instr);
            Some(to)
        }
        Instr::Times(_) if number == 0 && site.skip.is_some() => {
            state.move_operands(site.program, site.instr);
            site.skip
        }
        Instr::Join {
            slot,
            failed,
            timeout,
            interrupted,
        } => join_edge(state, slot, failed, timeout, interrupted, number),
        Instr::Case {
            handle,
            success,
            failed,
        } => case_edge(state, handle, success, failed, number),
        _ => None,
    }
}

/// Follows an edge of an instruction, by number from 0. Answers the place where it ends, and
/// changes the typestate to the one there. If there is no such edge, nothing changes.
pub(crate) fn edge(site: &Site<'_>, state: &mut TypeState, number: usize) -> Option<u32>
    requires site { IsSite site.now }
    requires room { HasRoomAt site.now state.old }
    ensures { Goes (slice_get (follows_at site.now state.old) number) state.old result state.new }
{
    if number == 0 {
        first_edge(site, state)
    } else {
        later_edge(site, state, number - 1)
    }
}

/// How many edges an instruction has at most.
pub(crate) fn edge_count(instr: Instr) -> usize
    ensures { (p : Program) (code : List Instr) (pc : ℕ) (s : TypeState) →
        length (def.follows p code pc instr s) ≤ result }
{
    match instr {
        Instr::Ret | Instr::Fail => 0,
        Instr::Div(_) | Instr::Jz(_) | Instr::Times(_) => 2,
        Instr::Case { .. } => 3,
        Instr::Join { .. } => 4,
        _ => 1,
    }
}

/// All edges of an instruction.
pub(crate) fn all_edges(site: &Site<'_>, state: &TypeState) -> Edges
    requires site { IsSite site.now }
    requires room { HasRoomAt site.now state.now }
    ensures { result ≡ follows_at site.now state.now }
{
    let mut edges = ArrayVec::new();
    for number in 0..4 {
        let mut after = state.copy();
        if let Some(to) = edge(site, &mut after, number) {
            edges.push((to, after));
        }
    }
    Edges { edges }
}
