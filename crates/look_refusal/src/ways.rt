//! The ways that arrive at a place, and two of them that differ.

ghost use Rattle.std.specs.Prelude.{◌≡◌, ◌<◌, ◌↔◌, IfOk, IsTrue, MatchOption, Some, ℕ, length};
ghost use Rattle.std.specs.Option.{option_copied};
ghost use Rattle.sts_rules.specs.Edges as rules;
ghost use Rattle.sts_rules.specs.Flow.{IsAlone, Reaches, TurnKeeps};
ghost use Rattle.sts_rules.specs.Refusal.{IsTypeRefusal, size};
ghost use Rattle.sts_rules.specs.declared.typing.Cause.TheVariants.{StatesDiffer};
ghost use Rattle.sts_types.specs.Typing.{IsTypingTo};
ghost use Rattle.look_refusal.specs.Ways as def;

use crate::remedy::instr_here;
use std::alloc::{AllocError, Global};
use sts_code::{Program, code_of};
use sts_types::loops::CodeLoops;
use sts_types::{TypeState, Typing, back_to, edges_with_loops, entry, typed_before};

/// The place or edge that a way comes from.
#[derive(Clone, Copy)]
pub enum WayOrigin {
    /// The beginning of the function.
    Beginning,
    /// The instruction at a place, along its edge of this number.
    Edge(u32, usize),
    /// The turn of a loop that ends at this place.
    Turn(u32),
}

/// A way that arrives at a place, with the typestate there.
#[derive(Drop)]
pub struct Way {
    pub origin: WayOrigin,
    pub state: TypeState,
}

/// Two ways that arrive at a place.
#[derive(Drop)]
pub struct Meeting {
    pub at: u32,
    pub one: Way,
    pub other: Way,
}

/// Is this the known typestate?
fn is_known(known: Option<&TypeState>, state: &TypeState) -> bool
    ensures { IsTrue result ↔ (option_copied known.entry ≡ Some state.now) }
{
    match known {
        Some(known) => known.is_same(state),
        None => false,
    }
}

/// The first way along an edge of an instruction to a place, with a typestate other than `known`.
fn other_from(
    program: &Program,
    function: u32,
    typing: &Typing,
    from: u32,
    to: u32,
    known: Option<&TypeState>,
) -> Option<Way>
    requires function { function < length program.now.routines }
    requires from { from < to }
    requires to { to < size program.now function }
    requires typing { IsTypingTo program.now function to typing.now }
    ensures { MatchOption result
        (def.ArriveAlike program.now function to (option_copied known.entry) from)
        (def.IsOtherWay program.now function to (option_copied known.entry)) }
{
    let state = typing.state(from as usize);
    let loops = CodeLoops::with_tables(code_of(program, function as usize), typing.tables());
    let Ok(edges) = edges_with_loops(program, function, &loops, from, &state) else {
        return None;
    };
    let edges = edges.as_slice();
    for number in 0..edges.len() {
        let edge = &edges[number];
        if edge.0 == to && !is_known(known, &edge.1) {
            return Some(Way {
                origin: WayOrigin::Edge(from, number),
                state: edge.1.copy(),
            });
        }
    }
    None
}

/// The first way to a place from one before it, with a typestate other than `known`.
fn find_way(
    program: &Program,
    function: u32,
    typing: &Typing,
    to: u32,
    known: Option<&TypeState>,
) -> Option<Way>
    requires function { function < length program.now.routines }
    requires to { to < size program.now function }
    requires typing { IsTypingTo program.now function to typing.now }
    ensures { MatchOption result ((from : ℕ) → from < to
        → def.ArriveAlike program.now function to (option_copied known.entry) from)
        (def.IsOtherWay program.now function to (option_copied known.entry)) }
{
    for from in 0..to {
        if let Some(way) = other_from(program, function, typing, from, to, known) {
            return Some(way);
        }
    }
    None
}

/// The first way that arrives at a place.
fn first_way(program: &Program, function: u32, typing: &Typing, to: u32) -> Option<Way>
    requires function { function < length program.now.routines }
    requires to { to < size program.now function }
    requires typing { IsTypingTo program.now function to typing.now }
    ensures { MatchOption result (¬ def.IsReached program.now function to)
        (def.IsWayTo program.now function to) }
{
    if to == 0 {
        return Some(Way {
            origin: WayOrigin::Beginning,
            state: entry(program, function),
        });
    }
    find_way(program, function, typing, to, None)
}

/// The typestate that reaches a place, if no place before it has a cause.
///
/// # Errors
///
/// Memory ran out.
pub(crate) fn state_at(
    alloc: Global,
    program: &Program,
    function: u32,
    pc: u32,
) -> Result<TypeState, AllocError>
    requires function { function < length program.now.routines }
    requires pc { pc < size program.now function }
    requires reached { def.IsReached program.now function pc }
    requires clear { def.AreClear program.now function pc }
    ensures { IfOk result (λ s. Reaches (rules.typing program.now function) pc s) }
{
    let Some(typing) = typed_before(alloc, program, function, pc)? else {
        unreachable!()
    };
    match first_way(program, function, &typing, pc) {
        Some(way) => Ok(way.state),
        None => unreachable!(),
    }
}

/// The way to the beginning of the turn that ends at a place, and that turn, if their typestates
/// differ. No other typestate reaches the place.
fn turn_at(
    program: &Program,
    function: u32,
    typing: &Typing,
    pc: u32,
    last: &TypeState,
) -> Option<Meeting>
    requires function { function < length program.now.routines }
    requires pc { pc < size program.now function }
    requires typing { IsTypingTo program.now function pc typing.now }
    requires alone { IsAlone (rules.typing program.now function) pc last.now }
    ensures { MatchOption result (TurnKeeps (rules.typing program.now function) pc last.now)
        (def.Meets program.now function pc) }
{
    let instr = instr_here(code_of(program, function as usize), pc);
    let at = back_to(instr, last)?;
    let one = first_way(program, function, typing, at)?;
    if one.state.is_same(last) {
        return None;
    }
    let other = Way {
        origin: WayOrigin::Turn(pc),
        state: last.copy(),
    };
    Some(Meeting { at, one, other })
}

/// Two ways that meet with different typestates, at a place or at the beginning of the turn that
/// ends there. They are found whenever the function is refused for such a meeting.
///
/// # Errors
///
/// Memory ran out.
pub fn find_meeting(
    alloc: Global,
    program: &Program,
    function: u32,
    pc: u32,
) -> Result<Option<Meeting>, AllocError>
    requires function { function < length program.now.routines }
    requires pc { pc < size program.now function }
    ensures { IfOk result (λ found. MatchOption found
        (¬ IsTypeRefusal program.now function pc StatesDiffer)
        (def.Meets program.now function pc)) }
{
    let Some(typing) = typed_before(alloc, program, function, pc)? else {
        return Ok(None);
    };
    let Some(one) = first_way(program, function, &typing, pc) else {
        return Ok(None);
    };
    match find_way(program, function, &typing, pc, Some(&one.state)) {
        Some(other) => Ok(Some(Meeting { at: pc, one, other })),
        None => Ok(turn_at(program, function, &typing, pc, &one.state)),
    }
}
