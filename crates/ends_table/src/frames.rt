//! The frame of a state after an instruction.

ghost use Rattle.std.specs.Prelude.{◌≡◌, ◌+◌, [], ◌∷◌, IfOk, drop};
ghost use Rattle.sts_model.specs.Effect as effect;
ghost use Rattle.sts_model.specs.Local as locals;
ghost use Rattle.sts_model.specs.World as world;

use crate::stop::Stop;
use sts_code::{Instr, MAX_OPERANDS, Program};
use sts_frames::copy_frame;
use sts_model::{Frame, Verdict};
use sts_plain::does_local;

/// The frame at a place, after it popped operands.
pub fn jumped(frame: &Frame, to: u32, n: usize) -> Frame
    ensures { result ≡ locals.goes frame.now to n [] }
{
    let mut next = copy_frame(frame);
    next.goes(to, n);
    next
}

/// The same, after it also pushed a value.
pub fn jumped_with(frame: &Frame, to: u32, n: usize, value: i64) -> Result<Frame, Stop>
    ensures { IfOk result (λ f. f ≡ locals.goes frame.now to n (value ∷ [])) }
{
    if frame.operands.len().saturating_sub(n) >= usize::from(MAX_OPERANDS) {
        return Err(Stop::Unknown);
    }
    let mut next = copy_frame(frame);
    next.goes_with(to, n, value);
    Ok(next)
}

/// The place after this one.
pub fn next_place(frame: &Frame) -> Result<u32, Stop>
    ensures { IfOk result (λ to. to ≡ frame.now.pc + 1) }
{
    if frame.pc == u32::MAX {
        return Err(Stop::Unknown);
    }
    Ok(frame.pc + 1)
}

/// The frame at the next place, after it popped operands.
pub fn stepped(frame: &Frame, n: usize) -> Result<Frame, Stop>
    ensures { IfOk result (λ f. f ≡ locals.steps frame.now n []) }
{
    let to = next_place(frame)?;
    Ok(jumped(frame, to, n))
}

/// The same, after it also pushed a value.
pub fn pushed(frame: &Frame, n: usize, value: i64) -> Result<Frame, Stop>
    ensures { IfOk result (λ f. f ≡ locals.steps frame.now n (value ∷ [])) }
{
    let to = next_place(frame)?;
    jumped_with(frame, to, n, value)
}

/// The frame without its innermost entry, at the next place.
pub fn left(frame: &Frame) -> Result<Frame, Stop>
    ensures { IfOk result (λ f. f ≡ record (locals.steps frame.now 0 []) {
      entries = drop 1 frame.now.entries;
    }) }
{
    let mut next = stepped(frame, 0)?;
    next.entries.drop_top(1);
    Ok(next)
}

/// The frame after the answer of a `join`.
pub fn answered(frame: &Frame, answer: Verdict, failed: u32) -> Result<Frame, Stop>
    ensures { IfOk result (λ f. f ≡ effect.answered answer frame.now failed) }
{
    match answer {
        Verdict::Ok(None) => stepped(frame, 0),
        Verdict::Ok(Some(value)) => pushed(frame, 0, value),
        Verdict::Failed(code) => jumped_with(frame, failed, 0, code),
    }
}

/// The frame after an instruction that stays in the frame.
pub fn after_local(frame: &Frame, program: &Program, instr: Instr) -> Result<Frame, Stop>
    ensures { IfOk result (λ f. f
        ≡ locals.local (world.code program.now frame.now) instr frame.now) }
{
    let mut next = copy_frame(frame);
    if does_local(&mut next, program, instr) {
        Ok(next)
    } else {
        Err(Stop::Unknown)
    }
}
