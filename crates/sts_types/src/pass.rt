//! One forward pass over a function, which finds its least place with a cause.

ghost use Rattle.std.specs.Prelude.{◌≡◌, ◌≤◌, ◌<◌, ◌^◌, ◌↔◌, length, slice_index_or, IsTrue, OnOk};
ghost use Rattle.std.specs.Prelude.{IfOk, IfSome, MatchOption, MatchResult, Some, ◌+◌, ◌∷◌, []};
ghost use Rattle.sts_rules.specs.Edges as def;
ghost use Rattle.sts_rules.specs.Flow.{IsAccepted};
ghost use Rattle.sts_rules.specs.Refusal.{IsWellTyped, size};
ghost use Rattle.sts_code.specs.Program.{routine, instr_at};
ghost use Rattle.sts_types.specs.Arrivals.{Arrive, at_height};
ghost use Rattle.sts_types.specs.Passing.{PassedTo};
ghost use Rattle.sts_types.specs.Site.{IsSite, HasRoomAt, LeadInside, Followed, follows_at};
ghost use Rattle.sts_types.specs.Typing.{IsTyping, IsTypingTo, Tells, TellsTo};

use crate::arrival::Arrival;
use crate::arrivals::Arrivals;
use crate::follow::edge_count;
use crate::least::short_way;
use crate::loops::{CodeLoops, Tables};
use crate::site::{Site, tested};
use crate::state::{TypeState, entry};
use crate::typing::Typing;
use std::alloc::{AllocError, Global};
use sts_code::{Instr, MAX_INSTRUCTIONS, MAX_OPERANDS, Program, code_of};
use sts_rules::Cause;

/// Why a function is refused.
#[derive(Clone, Copy)]
pub enum TypeError {
    /// Memory ran out.
    Memory,
    /// The first place with a cause, and the cause that is named there.
    Refused { pc: u32, cause: Cause },
}

impl From<AllocError> for TypeError {
    ghost use Rattle.sts_types.specs.declared.pass.TypeError.{TypeError};

    ghost from_gives = { λ _ e. e ≡ TypeError.Memory };

    fn from(_: AllocError) -> Self {
        TypeError::Memory
    }
}

/// The place after the `times` of the loop whose turn a `next` ends.
pub fn back_to(instr: Instr, state: &TypeState) -> Option<u32>
    requires { IfSome (def.back_of instr state.now) (λ q. q < 2 ^ 32) }
    ensures { result ≡ def.back_of instr state.now }
{
    match instr {
        Instr::Next => match state.loops().get(0) {
            Some(innermost) => Some(innermost.at + 1),
            None => None,
        },
        _ => None,
    }
}

/// The typestates after an instruction arrive at their places.
fn spread(site: &Site<'_>, arrivals: &mut Arrivals) -> Result<(), AllocError>
    requires site { IsSite site.now }
    requires start { arrivals.old.start ≡ arrivals.old.state }
    requires room { HasRoomAt site.now arrivals.old.state }
    requires places { LeadInside site.now arrivals.old }
    ensures { OnOk result (Followed site.now arrivals.old arrivals.new.table) }
{
    for number in 0..edge_count(site.instr) {
        arrivals.go_back();
        arrivals.arrive_along(site, number)?;
    }
    Ok(())
}

/// The typestate after an instruction with at most one edge arrives at its place.
fn go_one_way(site: &Site<'_>, arrivals: &mut Arrivals) -> Result<(), AllocError>
    requires site { IsSite site.now }
    requires room { HasRoomAt site.now arrivals.old.state }
    requires places { LeadInside site.now arrivals.old }
    requires one { length (follows_at site.now arrivals.old.state) ≤ 1 }
    ensures { OnOk result (Followed site.now arrivals.old arrivals.new.table) }
{
    arrivals.arrive_along(site, 0)?;
    Ok(())
}

/// The typestates after an instruction arrive at their places. Instructions that only change the
/// number of operands take a short way.
fn follow(site: &Site<'_>, arrivals: &mut Arrivals) -> Result<(), AllocError>
    requires site { IsSite site.now }
    requires small { site.now.pc < MAX_INSTRUCTIONS }
    requires start { arrivals.old.start ≡ arrivals.old.state }
    requires room { HasRoomAt site.now arrivals.old.state }
    requires places { LeadInside site.now arrivals.old }
    ensures { OnOk result (Followed site.now arrivals.old arrivals.new.table) }
{
    match arrivals.state().moves_to(site.program, site.pc, site.instr) {
        Some((to, height)) => {
            arrivals.arrive_moved(to, height);
            Ok(())
        }
        None if edge_count(site.instr) == 1 => go_one_way(site, arrivals),
        None => spread(site, arrivals),
    }
}

/// The current typestate arrives at the next place, with another number of operands.
fn go_on(pc: u32, height: u8, arrivals: &mut Arrivals)
    requires place { pc + 1 < length arrivals.old.table }
    requires small { pc < MAX_INSTRUCTIONS }
    requires few { height ≤ MAX_OPERANDS }
    ensures { Arrive arrivals.old.table
        ((pc + 1, at_height height arrivals.old.state) ∷ []) arrivals.new.table }
{
    arrivals.arrive_moved(pc + 1, height);
}

/// Is the typestate at the beginning of the turn that a `next` ends the current one? Other
/// instructions end no turn.
fn keeps_turn(instr: Instr, arrivals: &Arrivals) -> bool
    requires { IfSome (def.back_of instr arrivals.now.state)
        (λ q. (q < 2 ^ 32) × (q < length arrivals.now.table)) }
    ensures { IsTrue result ↔ IfSome (def.back_of instr arrivals.now.state)
        (λ q. slice_index_or arrivals.now.table q Arrival.Nothing
        ≡ Arrival.One arrivals.now.state) }
{
    match back_to(instr, arrivals.state()) {
        Some(start) => arrivals.is_one(start),
        None => true,
    }
}

/// Goes on from a place by all tests of a cause. The current typestate is the only one that arrived
/// there.
#[inline(always)]
fn visit_in_full(
    program: &Program,
    function: u32,
    loops: &CodeLoops<'_>,
    pc: u32,
    instr: Instr,
    arrivals: &mut Arrivals,
) -> Result<(), TypeError>
    requires code { loops.now ≡ (routine program.now function).code }
    requires inside { pc < length loops.now }
    requires small { pc < MAX_INSTRUCTIONS }
    requires instr { instr ≡ instr_at loops.now pc }
    requires passed { PassedTo program.now function arrivals.old.table pc }
    requires one { slice_index_or arrivals.old.table pc Arrival.Nothing
        ≡ Arrival.One arrivals.old.state }
    requires start { arrivals.old.start ≡ arrivals.old.state }
    ensures { MatchResult result
        (λ _. PassedTo program.now function arrivals.new.table (pc + 1))
        (TellsTo program.now function (pc + 1)) }
{
    let site = match tested(program, function, loops, pc, instr, arrivals.state()) {
        Ok(site) => site,
        Err(cause) => return Err(refused(pc, cause)),
    };
    if !keeps_turn(instr, arrivals) {
        return Err(refused(pc, Cause::StatesDiffer));
    }
    follow(&site, arrivals)?;
    Ok(())
}

/// Goes on from a place, unless a cause holds there. Most instructions take a short way.
#[inline(always)]
fn visit(
    program: &Program,
    function: u32,
    code: &[Instr],
    loops: &CodeLoops<'_>,
    pc: u32,
    arrivals: &mut Arrivals,
) -> Result<(), TypeError>
    requires code { code.now ≡ (routine program.now function).code }
    requires loops { loops.now ≡ code.now }
    requires inside { pc < length code.now }
    requires small { pc < MAX_INSTRUCTIONS }
    requires passed { PassedTo program.now function arrivals.old.table pc }
    ensures { MatchResult result
        (λ _. PassedTo program.now function arrivals.new.table (pc + 1))
        (TellsTo program.now function (pc + 1)) }
{
    match arrivals.load(pc) {
        Arrival::Nothing => return Err(refused(pc, Cause::DeadCode)),
        Arrival::Several => return Err(refused(pc, Cause::StatesDiffer)),
        Arrival::One(()) => {}
    }
    let short = short_way(
        program,
        function,
        loops,
        pc,
        code[pc as usize],
        arrivals.state(),
    );
    match short {
        Some(height) => {
            go_on(pc, height, arrivals);
            Ok(())
        }
        None => visit_in_full(program, function, loops, pc, code[pc as usize], arrivals),
    }
}

/// Visits the first places of a function in order, up to the first with a cause.
fn visit_all(
    program: &Program,
    function: u32,
    code: &[Instr],
    loops: &CodeLoops<'_>,
    count: u32,
    arrivals: &mut Arrivals,
) -> Result<(), TypeError>
    requires code { code.now ≡ (routine program.now function).code }
    requires loops { loops.now ≡ code.now }
    requires count { count ≤ length code.now }
    requires small { count ≤ MAX_INSTRUCTIONS }
    requires begun { PassedTo program.now function arrivals.old.table 0 }
    ensures { MatchResult result
        (λ _. PassedTo program.now function arrivals.new.table count)
        (TellsTo program.now function count) }
{
    for pc in 0..count {
        visit(program, function, code, loops, pc, arrivals)?;
    }
    Ok(())
}

/// The typing of the first places of a function.
fn typed_to(
    alloc: Global,
    program: &Program,
    function: u32,
    count: u32,
) -> Result<Typing, TypeError>
    requires function { function < length program.now.routines }
    requires count { count ≤ size program.now function }
    ensures { MatchResult result (IsTypingTo program.now function count)
        (TellsTo program.now function count) }
{
    let code = code_of(program, function as usize);
    let tables = Tables::new(alloc, code)?;
    let loops = CodeLoops::with_tables(code, &tables);
    let mut arrivals = Arrivals::new(alloc, code.len(), entry(program, function))?;
    visit_all(program, function, code, &loops, count, &mut arrivals)?;
    Ok(arrivals.into_typing(tables))
}

/// Finds the typestate at each place of the function and its loops. If a place has a cause from V1
/// to V16, reports the first one, with the cause that is named there.
///
/// # Errors
///
/// The first place that has a cause, with the cause that is named there; or memory ran out.
pub fn typed_function(alloc: Global, program: &Program, function: u32) -> Result<Typing, TypeError>
    requires { function < length program.now.routines }
    ensures { MatchResult result (IsTyping program.now function) (Tells program.now function) }
{
    let count = code_of(program, function as usize).len();
    typed_to(alloc, program, function, count as u32)
}

/// The typing of the places before a place; none if one of these has a cause.
///
/// # Errors
///
/// Memory ran out.
pub fn typed_before(
    alloc: Global,
    program: &Program,
    function: u32,
    pc: u32,
) -> Result<Option<Typing>, AllocError>
    requires function { function < length program.now.routines }
    requires pc { pc ≤ size program.now function }
    ensures { IfOk result (λ found. MatchOption found
        (¬ IsAccepted (def.typing program.now function) pc)
        (IsTypingTo program.now function pc)) }
{
    match typed_to(alloc, program, function, pc) {
        Ok(typing) => Ok(Some(typing)),
        Err(TypeError::Memory) => Err(AllocError),
        Err(TypeError::Refused { .. }) => Ok(None),
    }
}

/// The typing of a function that is known to be well typed.
///
/// # Errors
///
/// Memory ran out.
pub fn typing_of(alloc: Global, program: &Program, function: u32) -> Result<Typing, AllocError>
    requires in_program { function < length program.now.routines }
    requires typed { IsWellTyped program.now function }
    ensures { IfOk result (IsTyping program.now function) }
{
    match typed_function(alloc, program, function) {
        Ok(typing) => Ok(typing),
        Err(TypeError::Memory) => Err(AllocError),
        Err(TypeError::Refused { .. }) => unreachable!(),
    }
}

/// Checks that each place of the function has one typestate and no cause from V1 to V16. If not,
/// reports the first place that has a cause, with the cause that is named there.
///
/// # Errors
///
/// The first place that has a cause, with the cause that is named there; or memory ran out.
pub fn type_function(alloc: Global, program: &Program, function: u32) -> Result<(), TypeError>
    requires { function < length program.now.routines }
    ensures { MatchResult result (λ _. IsWellTyped program.now function)
        (Tells program.now function) }
{
    typed_function(alloc, program, function)?;
    Ok(())
}

fn refused(pc: u32, cause: Cause) -> TypeError
    ensures { result ≡ TypeError.Refused pc cause }
{
    TypeError::Refused { pc, cause }
}
