//! Facts of one instruction: what it pops and pushes, the places and slots that it names, and the
//! answer of its joiner.

ghost use Rattle.std.specs.Prelude.{◌≡◌, ◌≤◌, length};
ghost use Rattle.sts_code.specs.Facts as def;
ghost use Rattle.sts_code.specs.Shape.{shape};

use crate::code::args;
use crate::instr::{Instr, Joiner};
use crate::program::Program;
use arrayvec::ArrayVec;

/// How many operands an instruction pops and how many it pushes, without the arguments that a
/// `fork` pops.
fn pops_and_pushes(instr: Instr) -> (u8, u8)
    ensures pops { result.0 ≡ (shape instr).pops }
    ensures pushes { result.1 ≡ (shape instr).pushes }
    ensures few_popped { result.0 ≤ 2 }
    ensures few_pushed { result.1 ≤ 2 }
{
    match instr {
        Instr::Push(_)
        | Instr::Load(_)
        | Instr::Cancelled(_)
        | Instr::Get(_)
        | Instr::Except(_)
        | Instr::Tally(_, _)
        | Instr::Total(_)
        | Instr::Read(_)
        | Instr::Bound(_)
        | Instr::Interrupted => (0, 1),
        Instr::Pop
        | Instr::Store(_)
        | Instr::Jz(_)
        | Instr::Times(_)
        | Instr::Bind(_)
        | Instr::Ret
        | Instr::Fail => (1, 0),
        Instr::OrElse(_) => (1, 1),
        Instr::Dup => (1, 2),
        Instr::Add | Instr::Sub | Instr::Mul | Instr::Lt | Instr::Eq | Instr::Div(_) => (2, 1),
        Instr::Swap => (2, 2),
        _ => (0, 0),
    }
}

/// How many operands an instruction pops.
pub fn pops(program: &Program, instr: Instr) -> u8
    ensures value { result ≡ def.pops program.now instr }
    ensures few { result ≤ 8 }
{
    match instr {
        Instr::Fork { function, .. } => args(program, function),
        _ => pops_and_pushes(instr).0,
    }
}

/// How many operands an instruction pushes.
pub fn pushes(instr: Instr) -> u8
    ensures value { result ≡ def.pushes instr }
    ensures few { result ≤ 2 }
{
    pops_and_pushes(instr).1
}

/// The places that an instruction names. There is room for one more.
pub fn targets(instr: Instr) -> ArrayVec<u32, 4>
    ensures value { result.items ≡ def.targets instr }
    ensures few { length result.items ≤ 3 }
{
    let mut places = ArrayVec::new();
    match instr {
        Instr::Div(to) | Instr::Jmp(to) | Instr::Jz(to) => places.push(to),
        Instr::Join {
            failed,
            timeout,
            interrupted,
            ..
        } => {
            if let Some(to) = failed {
                places.push(to);
            }
            if let Some(to) = timeout {
                places.push(to);
            }
            places.push(interrupted);
        }
        Instr::Case {
            success,
            failed,
            ..
        } => {
            places.push(success);
            places.push(failed);
        }
        _ => {}
    }
    places
}

/// May the next instruction follow?
pub fn falls_through(instr: Instr) -> bool
    ensures { result ≡ def.falls_through instr }
{
    !matches!(instr, Instr::Jmp(_) | Instr::Ret | Instr::Fail)
}

/// Does the instruction only go on to the next place?
#[inline(always)]
pub fn goes_straight_on(instr: Instr) -> bool
    ensures { result ≡ def.goes_straight_on instr }
{
    !matches!(
        instr,
        Instr::Div(_)
            | Instr::Jmp(_)
            | Instr::Jz(_)
            | Instr::Join { .. }
            | Instr::Case { .. }
            | Instr::Ret
            | Instr::Fail
    )
}

/// The slot of an instruction that only the owner of a scope may use.
pub fn owners_slot(instr: Instr) -> Option<u8>
    ensures { result ≡ def.owners_slot instr }
{
    match instr {
        Instr::Fork { slot, .. }
        | Instr::Join { slot, .. }
        | Instr::Close(slot)
        | Instr::Tally(slot, _)
        | Instr::Total(slot) => Some(slot),
        _ => None,
    }
}

/// The slot of an instruction on a subtask.
pub fn subtask_slot(instr: Instr) -> Option<u8>
    ensures { result ≡ def.subtask_slot instr }
{
    match instr {
        Instr::Case { handle, .. }
        | Instr::Get(handle)
        | Instr::Except(handle)
        | Instr::Forget(handle) => Some(handle),
        _ => None,
    }
}

/// The slot that an instruction fills.
pub fn filled_slot(instr: Instr) -> Option<u8>
    ensures { result ≡ def.filled_slot instr }
{
    match instr {
        Instr::Open { slot, .. } => Some(slot),
        Instr::Fork { handle, .. } => handle,
        _ => None,
    }
}

/// Is the joiner `awaitall`? Its `join` pushes nothing.
pub fn is_await_all(joiner: Joiner) -> bool
    ensures { result ≡ def.is_await_all joiner }
{
    matches!(joiner, Joiner::AwaitAll)
}

/// Is it an `until`?
pub fn is_until(joiner: Joiner) -> bool
    ensures { result ≡ def.is_until joiner }
{
    matches!(joiner, Joiner::Until(_))
}

/// Can `join` fail under this joiner?
pub fn can_fail(joiner: Joiner) -> bool
    ensures { result ≡ def.can_fail joiner }
{
    !(is_await_all(joiner) || is_until(joiner))
}
