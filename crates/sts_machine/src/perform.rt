//! Does one instruction on a store.

ghost use Rattle.std.specs.Prelude.{◌≡◌, ◌<◌, ◌≤◌, length, true, false, Some, option_copied};
ghost use Rattle.sts_code.specs.declared.limits.TheConstants.{MAX_INSTRUCTIONS};
ghost use Rattle.sts_machine.specs.Changing.{Changes, ends_task, may_wait, may_wait_next};
ghost use Rattle.sts_machine.specs.Room.{HasRoomLeft, HasRoomOf};
ghost use Rattle.sts_machine.specs.Standing.{AreStanding};
ghost use Rattle.sts_model.specs.Local as frames;
ghost use Rattle.sts_model.specs.World as world;
ghost use Rattle.sts_model.specs.declared.event.Stand.TheVariants.{Free};
ghost use Rattle.sts_model.specs.World.{instr_at};
ghost use Rattle.sts_rules.specs.declared.budget.Budgets.{Budgets as AnyBudgets};
ghost use Rattle.laws_live.specs.Effect.{live_effect};
ghost use Rattle.laws_live.specs.Reading.{lives_in};
ghost use Rattle.laws_live.specs.Waiting.{live_can_step, live_stand_at};
ghost use Rattle.laws_live.specs.Fine.{IsLiveFine};
ghost use Rattle.laws_live.specs.Order.{InOrder};
ghost use Rattle.sts_store.specs.Parts.{frame_of, live_of, stand_in, unseen_of};

use crate::effect::effect;
use crate::stands::{say_stand, say_stand_if_near};
use laws_live::{effects_move_one, idle_stand_free};
use sts_code::{Instr, Program};
use sts_frames::is_local;
use sts_store::Store;

/// May the task be recorded at a scope, before the instruction or after it?
fn may_wait(instr: &Instr) -> bool
    ensures { result ≡ may_wait instr.now }
{
    matches!(*instr, Instr::Join { .. } | Instr::Close(_))
}

/// May a task with this next instruction be recorded at a scope?
fn may_wait_next(instr: Option<&Instr>) -> bool
    ensures { result ≡ may_wait_next (option_copied instr.entry) }
{
    match instr {
        None => false,
        Some(next) => may_wait(next),
    }
}

/// Does the task end by the instruction?
fn ends_task(instr: &Instr) -> bool
    ensures { result ≡ ends_task instr.now }
{
    matches!(*instr, Instr::Ret | Instr::Fail)
}

/// Does the next instruction of a living task, which stays in the frame. Answers whether the task may
/// be at a scope now.
#[inline(always)]
fn local_step(store: &mut Store, program: &Program, code: &[Instr], t: u32, instr: &Instr) -> bool
    requires lives { lives_in (live_of store.old) t ≡ true }
    requires own_code { code.now ≡ world.code program.now (frame_of store.old t) }
    requires inside { (frame_of store.old t).pc < length code.now }
    requires short { length code.now ≤ MAX_INSTRUCTIONS }
    requires fine { IsLiveFine program.now (live_of store.old) t (frame_of store.old t) instr.now }
    requires in_frame { frames.stays_in_frame instr.now ≡ true }
    ensures live { live_of store.new
        ≡ live_effect program.now (live_of store.old) t (frame_of store.old t) instr.now }
    ensures rest { Changes (live_of store.old) (unseen_of store.old)
        (live_of store.new) (unseen_of store.new) t }
    ensures own { stand_in (unseen_of store.new) t ≡ stand_in (unseen_of store.old) t }
    ensures stays { lives_in (live_of store.new) t ≡ true }
    ensures free { result ≡ false → live_stand_at program.now (live_of store.new) t ≡ Free }
{
    let next = store.local(program, code, t, *instr);
    may_wait_next(next)
}

/// Does the next instruction of a living task, and answers whether the task can step then. It must
/// be no misuse, and there must be room for it.
#[inline(always)]
pub(crate) fn perform(
    store: &mut Store,
    program: &Program,
    code: &[Instr],
    t: u32,
    instr: &Instr,
) -> bool
    requires lives { lives_in (live_of store.old) t ≡ true }
    requires own_code { code.now ≡ world.code program.now (frame_of store.old t) }
    requires short { length code.now ≤ MAX_INSTRUCTIONS }
    requires at { instr_at program.now (frame_of store.old t) ≡ Some instr.now }
    requires fine { IsLiveFine program.now (live_of store.old) t (frame_of store.old t) instr.now }
    requires room { HasRoomLeft (unseen_of store.old) (frame_of store.old t) instr.now }
    requires order { InOrder (live_of store.old) }
    requires after { InOrder
        (live_effect program.now (live_of store.old) t (frame_of store.old t) instr.now) }
    requires standing { AreStanding program.now (live_of store.old) (unseen_of store.old) }
    ensures live { live_of store.new
        ≡ live_effect program.now (live_of store.old) t (frame_of store.old t) instr.now }
    ensures standing { AreStanding program.now (live_of store.new) (unseen_of store.new) }
    ensures room { (b : AnyBudgets) → HasRoomOf b (live_of store.old) (unseen_of store.old)
        → HasRoomOf b (live_of store.new) (unseen_of store.new) }
    ensures can_step { result ≡ live_can_step program.now (live_of store.new) t }
{
    effects_move_one();
    idle_stand_free();
    if is_local(*instr) {
        let is_near = local_step(store, program, code, t, instr);
        return say_stand_if_near(store, program, t, is_near);
    }
    effect(store, program, code, t, instr);
    if ends_task(instr) {
        return false;
    }
    say_stand(store, program, t, may_wait(instr))
}
