//! Own steps: nobody else can notice when they come.

ghost use Rattle.std.specs.Prelude.{◌≡◌};
ghost use Rattle.ends_plain.specs.Own as def;

use sts_code::{Instr, Program};
use sts_frames::{instr_at, stays_in_frame};
use sts_model::Frame;
use sts_plain::misuse;
use sts_world::World;

/// Does the instruction change the task's frame alone, and read besides only the scoped values?
fn is_own(frame: &Frame, instr: Instr) -> bool
    ensures { result ≡ def.is_own frame.now instr }
{
    match instr {
        Instr::Div(to) | Instr::Jmp(to) | Instr::Jz(to) => frame.pc < to,
        Instr::Bind(_) | Instr::Unbind => true,
        Instr::Read(_) | Instr::Bound(_) | Instr::OrElse(_) => true,
        _ => stays_in_frame(instr),
    }
}

/// Does the task live, and is its next step its own and no fault?
pub fn has_own_step(world: &World, program: &Program, t: u32) -> bool
    ensures { result ≡ def.has_own_step program.now world.now t }
{
    if !world.records().lives(t) {
        return false;
    }
    let frame = world.records().frame(t);
    match instr_at(program, frame) {
        None => false,
        Some(instr) => is_own(frame, instr) && misuse(world, program, t).is_none(),
    }
}

/// The first task that has an own step, if there is one.
pub fn own_task(world: &World, program: &Program) -> Option<u32>
    ensures { result ≡ def.own_task program.now world.now }
{
    let born = world.records().tasks_born() as u32;
    (0..born).find(|t| has_own_step(world, program, *t))
}
