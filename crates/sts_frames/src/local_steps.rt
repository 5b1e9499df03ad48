//! The instructions that stay in the frame.

ghost use Rattle.std.specs.Prelude.{◌≡◌, ◌<◌, ◌+◌, ◌^◌, length, true, false, pos, ◌+ℤ◌, ◌-ℤ◌, ◌*ℤ◌};
ghost use Rattle.std.specs.Prelude.{slice_index_or, slice_set, ◌≤◌, ◌&&◌, Some, None, is_some};
ghost use Rattle.std.specs.Prelude.{IfSome, IfNone};
ghost use Rattle.std.specs.Int.{int_wrap, w64};
ghost use Rattle.sts_code.specs.declared.limits.TheConstants.{MAX_INSTRUCTIONS, MAX_LOOPS};
ghost use Rattle.sts_frames.specs.Locals.{AreSafe, IsSafe, and_local, moved_to, local_at, locals};
ghost use Rattle.sts_model.specs.Local as def;
ghost use Rattle.sts_model.specs.Misuse.{overflows, breaks_loop};
ghost use Rattle.sts_model.specs.World as world;

use crate::other_steps::empties;
use sts_code::{Instr, LAST_SLOT, Program, match_of};
use sts_model::{Frame, Loop};

/// The sum, wrapping.
#[tactic(auto, using(std::proofs::lemmas::Int::wraps))]
fn sum(a: i64, b: i64) -> i64
    ensures { result ≡ int_wrap w64 (a +ℤ b) }
{
    a.wrapping_add(b)
}

#[tactic(auto, using(std::proofs::lemmas::Int::wraps))]
fn difference(a: i64, b: i64) -> i64
    ensures { result ≡ int_wrap w64 (a -ℤ b) }
{
    a.wrapping_sub(b)
}

#[tactic(auto, using(std::proofs::lemmas::Int::wraps))]
fn product(a: i64, b: i64) -> i64
    ensures { result ≡ int_wrap w64 (a *ℤ b) }
{
    a.wrapping_mul(b)
}

fn clipped(n: u16, value: i64) -> u16
    ensures { result ≡ def.clipped n value }
{
    if value <= 0 {
        0
    } else if value < i64::from(n) {
        value as u16
    } else {
        n
    }
}

fn local_at(locals: &[i64; 16], x: u8) -> i64
    ensures { result ≡ slice_index_or locals.now x (pos 0) }
{
    if x <= LAST_SLOT {
        locals[x as usize]
    } else {
        0
    }
}

fn set_local(locals: &mut [i64; 16], x: u8, value: i64)
    ensures { locals.new ≡ slice_set locals.old x value }
{
    if x <= LAST_SLOT {
        locals[x as usize] = value;
    }
}

/// Does an instruction at this place, if it is a local one, and answers the place to go to next.
/// The place that the frame keeps doesn't change.
#[inline(always)]
#[tactic(auto, using(crate::proofs::LoopLemmas::closes_loop_bounds))]
fn done_at(
    frame: &mut Frame,
    program: &Program,
    code: &[Instr],
    pc: usize,
    instr: &Instr,
) -> Option<usize>
    requires own_code { code.now ≡ world.code program.now frame.old }
    requires room { (def.is_local instr.now
        && overflows program.now (moved_to frame.old pc) instr.now) ≡ false }
    requires more { pc + 1 < 2 ^ 32 }
    requires inside { pc < length code.now }
    requires short { length code.now < 2 ^ 32 }
    requires loops { (def.is_local instr.now
        && breaks_loop program.now (moved_to frame.old pc) instr.now) ≡ false }
    ensures local { IfSome result (λ to. moved_to frame.new to
        ≡ def.local code.now instr.now (moved_to frame.old pc)) }
    ensures which { is_some result ≡ def.is_local instr.now }
    ensures fits { IfSome result (λ to. to < 2 ^ 32) }
    ensures other { IfNone result (frame.new ≡ frame.old) }
{
    let operands = &mut frame.operands;
    match *instr {
        Instr::Push(k) => operands.push(k),
        Instr::Pop => operands.drop_top(1),
        Instr::Dup => {
            let b = operands.get_or(0, 0);
            operands.push(b);
        }
        Instr::Swap => {
            let (a, b) = (operands.get_or(1, 0), operands.get_or(0, 0));
            operands.replace_top(2, b);
            operands.push(a);
        }
        Instr::Load(x) => {
            let value = local_at(&frame.locals, x);
            operands.push(value);
        }
        Instr::Store(x) => {
            let b = operands.get_or(0, 0);
            operands.drop_top(1);
            set_local(&mut frame.locals, x, b);
        }
        Instr::Add => {
            let value = sum(operands.get_or(1, 0), operands.get_or(0, 0));
            operands.replace_top(2, value);
        }
        Instr::Sub => {
            let value = difference(operands.get_or(1, 0), operands.get_or(0, 0));
            operands.replace_top(2, value);
        }
        Instr::Mul => {
            let value = product(operands.get_or(1, 0), operands.get_or(0, 0));
            operands.replace_top(2, value);
        }
        Instr::Lt => {
            let value = i64::from(operands.get_or(1, 0) < operands.get_or(0, 0));
            operands.replace_top(2, value);
        }
        Instr::Eq => {
            let value = i64::from(operands.get_or(1, 0) == operands.get_or(0, 0));
            operands.replace_top(2, value);
        }
        Instr::Div(to) => {
            let (a, b) = (operands.get_or(1, 0), operands.get_or(0, 0));
            if b == 0 {
                operands.drop_top(2);
                return Some(to as usize);
            }
            operands.replace_top(2, a.wrapping_div(b));
        }
        Instr::Jmp(to) => return Some(to as usize),
        Instr::Jz(to) => {
            let b = operands.get_or(0, 0);
            operands.drop_top(1);
            if b == 0 {
                return Some(to as usize);
            }
        }
        Instr::Times(n) => {
            let most = clipped(n, operands.get_or(0, 0));
            return Some(enters(frame, code, pc, most));
        }
        Instr::Next => return Some(turns(frame, pc)),
        _ => return None,
    }
    Some(pc + 1)
}

/// Does an instruction that stays in the frame.
#[inline(always)]
pub fn local(frame: &mut Frame, program: &Program, code: &[Instr], instr: Instr)
    requires own_code { code.now ≡ world.code program.now frame.old }
    requires stays { def.stays_in_frame instr ≡ true }
    requires room { overflows program.now frame.old instr ≡ false }
    requires more { frame.old.pc + 1 < 2 ^ 32 }
    requires inside { frame.old.pc < length code.now }
    requires short { length code.now < 2 ^ 32 }
    requires loops { breaks_loop program.now frame.old instr ≡ false }
    ensures { frame.new ≡ def.local code.now instr frame.old }
{
    let pc = frame.pc as usize;
    match done_at(frame, program, code, pc, &instr) {
        Some(to) => frame.pc = to as u32,
        None => empties(frame, instr),
    }
}

/// Pops the number of turns. Enters the loop at this `times`, or goes past it, and answers the
/// place to go to.
#[inline(never)]
fn enters(frame: &mut Frame, code: &[Instr], pc: usize, turns: u16) -> usize
    requires more { pc + 1 < 2 ^ 32 }
    requires inside { pc < length code.now }
    requires short { length code.now < 2 ^ 32 }
    requires few { length frame.old.loops < MAX_LOOPS }
    ensures place { moved_to frame.new result ≡ def.enters code.now (moved_to frame.old pc) turns }
    ensures fits { result < 2 ^ 32 }
{
    frame.operands.drop_top(1);
    let at = pc as u32;
    if turns == 0 {
        match_of(code, at).unwrap_or(0) as usize + 1
    } else {
        frame.loops.push(Loop { at, left: turns });
        pc + 1
    }
}

/// Ends a turn of the innermost loop, and answers the place to go to.
#[inline(always)]
fn turns(frame: &mut Frame, pc: usize) -> usize
    requires more { pc + 1 < 2 ^ 32 }
    requires some { 0 < length frame.old.loops }
    requires fits { (slice_index_or frame.old.loops 0 (record { at = 0; left = 0 })).at + 1
        < 2 ^ 32 }
    ensures place { moved_to frame.new result ≡ def.turns (moved_to frame.old pc) frame.old.loops }
    ensures fits { result < 2 ^ 32 }
{
    let innermost = frame.loops.get_or(0, Loop { at: 0, left: 0 });
    if innermost.left <= 1 {
        frame.loops.drop_top(1);
        pc + 1
    } else {
        // (the length is at most the capacity, so there is room for one in the place of another)
        let _ = frame.loops.len();
        let left = innermost.left - 1;
        frame.loops.replace_top(1, Loop { left, ..innermost });
        innermost.at as usize + 1
    }
}

/// Does the instruction at this place, if it is a local one, and answers the place to go to next.
/// The place that the frame keeps doesn't change.
#[inline(always)]
fn step_at(frame: &mut Frame, program: &Program, code: &[Instr], pc: usize) -> Option<usize>
    requires safe { IsSafe program.now code.now (moved_to frame.old pc) }
    requires short { length code.now ≤ MAX_INSTRUCTIONS }
    ensures local { IfSome result (λ to. and_local code.now (Some (moved_to frame.old pc))
        ≡ Some (moved_to frame.new to)) }
    ensures fits { IfSome result (λ to. to < 2 ^ 32) }
    ensures other { IfNone result (local_at code.now (moved_to frame.old pc) ≡ None) }
    ensures stays { IfNone result (frame.new ≡ frame.old) }
{
    done_at(frame, program, code, pc, &code[pc])
}

/// Does local instructions until the limit or the first other instruction, and answers how many.
pub fn run_local(frame: &mut Frame, program: &Program, code: &[Instr], limit: u32) -> u32
    requires safe { AreSafe program.now code.now frame.old }
    requires short { length code.now ≤ MAX_INSTRUCTIONS }
    ensures local { locals code.now frame.old result ≡ Some frame.new }
    ensures most { result ≤ limit }
    ensures stops { result < limit → local_at code.now frame.new ≡ None }
{
    let mut pc = frame.pc as usize;
    let mut left = limit;
    while left > 0 {
        let Some(to) = step_at(frame, program, code, pc) else {
            break;
        };
        pc = to;
        left -= 1;
    }
    frame.pc = pc as u32;
    limit - left
}
