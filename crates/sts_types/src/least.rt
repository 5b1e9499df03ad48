//! The lowest-numbered cause that holds at an instruction.

ghost use Rattle.std.specs.Prelude.{◌≡◌, ◌<◌, ◌+◌, length, if◌then◌else◌, Some};
ghost use Rattle.std.specs.Prelude.{None, nat_le, false, ◌-◌, ◌≤◌, IfSome};
ghost use Rattle.sts_code.specs.Facts as facts;
ghost use Rattle.sts_code.specs.Program.{routine};
ghost use Rattle.sts_types.specs.Simple.{is_simple, is_straight, only_asks, IsShort};
ghost use Rattle.sts_types.specs.Site.{IsSite};
ghost use Rattle.sts_rules.specs.Causes as def;
ghost use Rattle.sts_rules.specs.TypeState.{heads};

use crate::cause::{
    breaks_structure, has_busy_slot, has_wrong_slot, is_illegal, is_nested, is_strangers,
    is_too_deep, is_unbound, lacks_operands, misjoins, overflows,
};
use crate::leads::{falls_off, jumps_back, mismatches};
use crate::loops::CodeLoops;
use crate::site::Site;
use crate::state::TypeState;
use sts_code::{Instr, MAX_OPERANDS, Program, goes_straight_on, pops, pushes, targets};
use sts_model::is_local;
use sts_rules::Cause;

/// Does the instruction ask for a binding or an interrupt, and can't fail?
fn only_asks(instr: Instr) -> bool
    ensures { result ≡ only_asks instr }
{
    matches!(
        instr,
        Instr::Bound(_) | Instr::OrElse(_) | Instr::Interrupted
    )
}

/// Does the instruction only go on to the next place, and begin and end no loop?
fn is_straight(instr: Instr) -> bool
    ensures { result ≡ is_straight instr }
{
    goes_straight_on(instr) && !matches!(instr, Instr::Times(_) | Instr::Next)
}

/// Does the instruction only pop and push, and go on to the next place?
fn is_simple(instr: Instr) -> bool
    ensures { result ≡ is_simple instr }
{
    only_asks(instr) || (is_local(instr) && is_straight(instr))
}

/// The lowest-numbered cause from V3 to V5 of an instruction that only goes on to the next place.
fn straight_cause(loops: &CodeLoops<'_>, pc: u32, state: &TypeState) -> Option<Cause>
    requires { pc < length loops.now }
    ensures { result ≡
        (if nat_le (length loops.now) (pc + 1) then Some Cause.FallsOff
        else (if def.is_other_loop loops.now (heads state.now.loops) (pc + 1)
        then Some Cause.LoopMismatch else None)) }
{
    let next = loops.after(pc);
    if loops.len() <= next {
        return Some(Cause::FallsOff);
    }
    if !loops.are_around(next, state.loops(), 0) {
        return Some(Cause::LoopMismatch);
    }
    None
}

/// The number of operands after an instruction, if it finds the operands that it pops and there is
/// room for those that it pushes.
fn height_after(program: &Program, instr: Instr, state: &TypeState) -> Option<u8>
    ensures operands { IfSome result (λ _. def.lacks_operands program.now instr state.now ≡ false) }
    ensures room { IfSome result (λ h. h ≤ MAX_OPERANDS) }
    ensures height { IfSome result (λ h.
        h ≡ state.now.height - facts.pops program.now instr + facts.pushes instr) }
{
    let pops = pops(program, instr);
    if state.height() < pops {
        return None;
    }
    let height = state.height() - pops + pushes(instr);
    if MAX_OPERANDS < height {
        return None;
    }
    Some(height)
}

/// The number of operands at the next place, if the instruction only pops and pushes and no cause
/// holds. Most instructions are like this, and are judged by few tests.
pub(crate) fn short_way(
    program: &Program,
    function: u32,
    loops: &CodeLoops<'_>,
    pc: u32,
    instr: Instr,
    state: &TypeState,
) -> Option<u8>
    requires code { loops.now ≡ (routine program.now function).code }
    requires inside { pc < length loops.now }
    ensures { IfSome result (IsShort program.now function pc instr state.now) }
{
    let _ = function;
    if !is_simple(instr) {
        return None;
    }
    let height = height_after(program, instr, state)?;
    match straight_cause(loops, pc, state) {
        Some(_) => None,
        None => Some(height),
    }
}

/// The lowest-numbered cause from V3 to V5.
fn lead_cause(site: &Site<'_>, state: &TypeState) -> Option<Cause>
    requires { IsSite site.now }
    ensures { result ≡
        (if def.falls_off site.now.loops.now site.now.pc site.now.instr then Some Cause.FallsOff
        else (if def.jumps_back site.now.pc site.now.instr then Some Cause.BackJump else
        (if def.mismatches site.now.loops.now site.now.pc site.now.instr state.now
        then Some Cause.LoopMismatch else None))) }
{
    if is_straight(site.instr) {
        return straight_cause(site.loops, site.pc, state);
    }
    let targets = targets(site.instr);
    let targets = targets.as_slice();
    if falls_off(site, targets) {
        Some(Cause::FallsOff)
    } else if jumps_back(site.pc, site.instr, targets) {
        Some(Cause::BackJump)
    } else if mismatches(site, state, targets) {
        Some(Cause::LoopMismatch)
    } else {
        None
    }
}

/// The lowest-numbered cause from V9 to V11.
fn slot_cause(instr: Instr, state: &TypeState) -> Option<Cause>
    ensures { result ≡
        (if def.has_wrong_slot instr state.now then Some Cause.SlotKind else
        (if def.has_busy_slot instr state.now then Some Cause.SlotBusy else
        (if def.is_strangers instr state.now then Some Cause.WrongThread else None))) }
{
    if has_wrong_slot(instr, state) {
        Some(Cause::SlotKind)
    } else if has_busy_slot(instr, state) {
        Some(Cause::SlotBusy)
    } else if is_strangers(instr, state) {
        Some(Cause::WrongThread)
    } else {
        None
    }
}

/// The lowest-numbered cause from V14 to V16.
fn late_cause(program: &Program, function: u32, instr: Instr, state: &TypeState) -> Option<Cause>
    ensures { result ≡
        (if def.is_nested instr state.now then Some Cause.Nesting else
        (if def.is_unbound program.now function instr state.now then Some Cause.Unbound else
        (if def.misjoins instr state.now then Some Cause.JoinEdges else None))) }
{
    if is_nested(instr, state) {
        Some(Cause::Nesting)
    } else if is_unbound(program, function, instr, state) {
        Some(Cause::Unbound)
    } else if misjoins(instr, state) {
        Some(Cause::JoinEdges)
    } else {
        None
    }
}

/// The lowest-numbered cause that holds at the instruction, if one does.
pub(crate) fn least_cause(site: &Site<'_>, state: &TypeState) -> Option<Cause>
    requires site { IsSite site.now }
    ensures { result ≡ def.least_cause site.now.program.now site.now.function
        site.now.pc site.now.instr state.now }
{
    if lacks_operands(site.program, site.instr, state) {
        return Some(Cause::StackUnder);
    }
    if overflows(site.program, site.instr, state) {
        return Some(Cause::StackOver);
    }
    let lead = lead_cause(site, state);
    if lead.is_some() {
        return lead;
    }
    if is_simple(site.instr) {
        return None;
    }
    if is_too_deep(site.instr, state) {
        return Some(Cause::LoopDepth);
    }
    let slot = slot_cause(site.instr, state);
    if slot.is_some() {
        return slot;
    }
    if is_illegal(site.program.profile(), site.instr, state) {
        return Some(Cause::IllegalState);
    }
    if breaks_structure(site.instr, state) {
        return Some(Cause::Structure);
    }
    late_cause(site.program, site.function, site.instr, state)
}
