//! The code of a frame's function, and the instruction that is next.

ghost use Rattle.std.specs.Prelude.{◌≡◌, ◌<◌, length, ◌≤◌, IfSome};
ghost use Rattle.sts_code.specs.declared.limits.TheConstants.{MAX_INSTRUCTIONS};
ghost use Rattle.sts_model.specs.World as def;

use sts_code::{Instr, Program, code_of};
use sts_model::Frame;

/// The instructions of the frame's function.
pub fn code<'a>(program: &'a Program, frame: &Frame) -> &'a [Instr]
    ensures value { result.now ≡ def.code program.now frame.now }
    ensures short { length result.now ≤ MAX_INSTRUCTIONS }
{
    code_of(program, frame.function as usize)
}

/// The next instruction, or `None` at the end of the function.
pub fn instr_at(program: &Program, frame: &Frame) -> Option<Instr>
    ensures value { result ≡ def.instr_at program.now frame.now }
    ensures within { IfSome result (λ _. frame.now.pc < length (def.code program.now frame.now)) }
    ensures short { length (def.code program.now frame.now) ≤ MAX_INSTRUCTIONS }
{
    code(program, frame).get(frame.pc as usize).copied()
}
