//! The own state of a new subtask, written over that of an ended task where there is one.

ghost use Rattle.std.specs.Prelude.{◌≡◌, ◌<◌, ◌-◌, ◌++◌, ◌∷◌, [], length, Some};
ghost use Rattle.sts_code.specs.declared.limits.TheConstants.{MAX_BIRTHS};
ghost use Rattle.sts_model.specs.World as def;

use crate::running::Running;
use sts_env::Env;
use sts_frames::root_frame;
use sts_model::{Frame, KeptSlot, Slot};
use sts_records::Held;

/// A frame at place 0, with these locals, and this slot 0.
fn first_frame(function: u32, locals: &[i64; 16], slot: Slot) -> Frame
    ensures { result ≡ record (def.entry_frame function [] slot) { locals = locals.now } }
{
    let mut frame = root_frame(function);
    frame.locals = *locals;
    frame.slots[0] = KeptSlot::new(slot);
    frame
}

/// Writes the frame at place 0, with these locals and this slot 0, over another one.
#[inline(always)]
fn begin_over(frame: &mut Frame, function: u32, locals: &[i64; 16], slot: Slot)
    ensures { frame.new ≡ record (def.entry_frame function [] slot) { locals = locals.now } }
{
    frame.function = function;
    frame.pc = 0;
    frame.operands.drop_top(frame.operands.len());
    frame.loops.drop_top(frame.loops.len());
    frame.entries.drop_top(frame.entries.len());
    frame.locals = *locals;
    let mut slots = [KeptSlot::new(Slot::Empty); 16];
    slots[0] = KeptSlot::new(slot);
    frame.slots = slots;
}

/// Gives the next birth the frame at place 0, with these locals, this slot 0 and this environment.
#[inline(always)]
pub(crate) fn begin(
    frames: &mut Held<Running>,
    function: u32,
    locals: &[i64; 16],
    slot: Slot,
    env: Env,
)
    requires room { 0 < frames.old.room }
    requires births { length frames.old.slots < MAX_BIRTHS }
    ensures slots { frames.new.slots ≡ frames.old.slots ++ Some (record {
      frame = record (def.entry_frame function [] slot) { locals = locals.now };
      env = env;
    }) ∷ [] }
    ensures room { frames.new.room ≡ frames.old.room - 1 }
{
    let birth = frames.born();
    if frames.reuse() {
        let running = frames.at(birth);
        begin_over(&mut running.frame, function, locals, slot);
        running.env = env;
    } else {
        let frame = first_frame(function, locals, slot);
        frames.push(Running { frame, env });
    }
}
