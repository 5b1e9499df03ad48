//! Whether a task is at a `join` or a `close`, and whether it can step.

ghost use Rattle.std.specs.Prelude.{◌≡◌, ◌<◌, IfSome, is_some, length, true};
ghost use Rattle.sts_model.specs.Living as living;
ghost use Rattle.sts_model.specs.Waiting as waiting;
ghost use Rattle.sts_model.specs.World as def;
ghost use Rattle.sts_model.specs.declared.record.Slot.TheVariants.{Own};

use crate::misuses::misuse;
use sts_code::{Instr, Program};
use sts_frames::{instr_at, slot};
use sts_model::{Phase, Slot, Stand};
use sts_world::World;

/// Whether the task is at a `join`, at a `close` that has begun, or at neither.
pub fn stand_at(world: &World, program: &Program, t: u32) -> Stand
    requires born { t < length world.now.tasks }
    requires lives { living.lives (def.task_at world.now t) ≡ true }
    ensures { result ≡ waiting.stand_at program.now world.now t }
{
    let frame = world.records().frame(t);
    match instr_at(program, frame) {
        Some(Instr::Join { slot: x, .. }) => match (misuse(world, program, t), slot(frame, x)) {
            (None, Slot::Own(s)) => Stand::AtJoin(s),
            _ => Stand::Free,
        },
        Some(Instr::Close(x)) => match slot(frame, x) {
            Slot::Own(s) => stand_at_close(world, s),
            _ => Stand::Free,
        },
        _ => Stand::Free,
    }
}

/// Whether a task at the `close` of a scope of its own waits there.
fn stand_at_close(world: &World, s: u32) -> Stand
    ensures { result ≡ waiting.stands_at_close world.now (Own s) }
{
    if matches!(world.records().phase(s), Phase::Closing) {
        Stand::AtClose(s)
    } else {
        Stand::Free
    }
}

/// May the task take its next step?
fn can_go(world: &World, t: u32, stand: Stand) -> bool
    ensures { result ≡ waiting.can_go world.now (def.task_at world.now t) stand }
{
    let records = world.records();
    match stand {
        Stand::Free => true,
        Stand::AtJoin(s) => {
            records.is_expired(s)
                || records.is_cancelled(s)
                || !world.any_lives(s)
                || records.flag(t)
        }
        Stand::AtClose(s) => !world.any_lives(s),
    }
}

/// Returns what a task is at, or `None` if it can't step.
#[inline(always)]
pub(crate) fn step_stand(world: &World, program: &Program, t: u32) -> Option<Stand>
    ensures can { is_some result ≡ waiting.can_step program.now world.now t }
    ensures stand { IfSome result (λ stand. stand ≡ waiting.stand_at program.now world.now t) }
{
    if !world.records().lives(t) {
        return None;
    }
    let stand = stand_at(world, program, t);
    if can_go(world, t, stand) {
        Some(stand)
    } else {
        None
    }
}

/// Can the task step?
pub fn can_step(world: &World, program: &Program, t: u32) -> bool
    ensures { result ≡ waiting.can_step program.now world.now t }
{
    step_stand(world, program, t).is_some()
}
