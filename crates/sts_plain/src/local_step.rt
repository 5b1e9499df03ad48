//! An instruction that stays in the frame, if it can be done.

ghost use Rattle.std.specs.Prelude.{◌≡◌, true, false};
ghost use Rattle.sts_model.specs.Local as locals;
ghost use Rattle.sts_model.specs.World as world;
ghost use Rattle.sts_plain.specs.Next.{frame_can_do};

use crate::frame_tests::{breaks_loop, overflows};
use sts_code::{Instr, Program};
use sts_frames::{code, local, stays_in_frame};
use sts_model::Frame;

/// Does an instruction that stays in the frame, if it can be done. Returns whether it did.
pub fn does_local(frame: &mut Frame, program: &Program, instr: Instr) -> bool
    ensures which { result ≡ frame_can_do program.now frame.old instr }
    ensures does { result ≡ true
        → frame.new ≡ locals.local (world.code program.now frame.old) instr frame.old }
    ensures unchanged { result ≡ false → frame.new ≡ frame.old }
{
    let code = code(program, frame);
    let can_be_done = stays_in_frame(instr)
        && !overflows(program, frame, instr)
        && !breaks_loop(program, frame, instr)
        && (frame.pc as usize) < code.len();
    if can_be_done {
        local(frame, program, code, instr);
    }
    can_be_done
}
