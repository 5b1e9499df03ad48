//! The effect of an instruction on a store, without recording at which scope its task is
//! afterwards.

ghost use Rattle.std.specs.Prelude.{◌≡◌, ◌<◌, ◌≤◌, length, true, false};
ghost use Rattle.sts_code.specs.declared.limits.TheConstants.{MAX_INSTRUCTIONS};
ghost use Rattle.sts_machine.specs.Changing.{Changes, ends_task, is_quiet, may_wait};
ghost use Rattle.sts_machine.specs.Room.{HasRoomLeft};
ghost use Rattle.sts_model.specs.Local.{is_local};
ghost use Rattle.sts_model.specs.World as world;
ghost use Rattle.laws_live.specs.Effect.{live_effect};
ghost use Rattle.laws_live.specs.Reading.{lives_in};
ghost use Rattle.sts_store.specs.Parts.{frame_of, live_of, stand_in, unseen_of};
ghost use Rattle.laws_live.specs.Fine.{IsLiveFine};
ghost use Rattle.laws_live.specs.Order.{InOrder};

use crate::slots::named;
use sts_code::{Instr, Program};
use sts_model::End;
use sts_store::Store;

/// Does the next instruction of a living task, which isn't a local one. It must be no misuse, and
/// there must be room for it.
pub(crate) fn effect(store: &mut Store, program: &Program, code: &[Instr], t: u32, instr: &Instr)
    requires lives { lives_in (live_of store.old) t ≡ true }
    requires own_code { code.now ≡ world.code program.now (frame_of store.old t) }
    requires inside { (frame_of store.old t).pc < length code.now }
    requires short { length code.now ≤ MAX_INSTRUCTIONS }
    requires fine { IsLiveFine program.now (live_of store.old) t (frame_of store.old t) instr.now }
    requires room { HasRoomLeft (unseen_of store.old) (frame_of store.old t) instr.now }
    requires order { InOrder (live_of store.old) }
    requires other { is_local instr.now ≡ false }
    ensures live { live_of store.new
        ≡ live_effect program.now (live_of store.old) t (frame_of store.old t) instr.now }
    ensures rest { Changes (live_of store.old) (unseen_of store.old)
        (live_of store.new) (unseen_of store.new) t }
    ensures own { may_wait instr.now ≡ false
        → stand_in (unseen_of store.new) t ≡ stand_in (unseen_of store.old) t }
    ensures stays { ends_task instr.now ≡ false → lives_in (live_of store.new) t ≡ true }
    ensures ended { ends_task instr.now ≡ true → lives_in (live_of store.new) t ≡ false }
{
    match *instr {
        Instr::Open {
            slot,
            joiner,
            timed,
        } => store.open(t, slot, joiner, timed),
        Instr::Fork {
            slot,
            function,
            handle,
        } => {
            let s = named(store.frame(t), slot);
            store.fork(program, t, s, function, handle);
        }
        Instr::Close(x) => {
            let s = named(store.frame(t), x);
            store.close(t, s);
        }
        Instr::Bind(k) => store.bind(t, k),
        Instr::Unbind => store.unbind(t),
        Instr::Ret => {
            let value = store.frame(t).operand(0);
            store.end(t, End::Success(value));
        }
        Instr::Fail => {
            let code = store.frame(t).operand(0);
            store.end(t, End::Failed(code));
        }
        _ => quiet(store, program, code, t, instr),
    }
}

/// Does an instruction that doesn't change the numbers of tasks, scopes and bindings.
fn quiet(store: &mut Store, program: &Program, code: &[Instr], t: u32, instr: &Instr)
    requires lives { lives_in (live_of store.old) t ≡ true }
    requires own_code { code.now ≡ world.code program.now (frame_of store.old t) }
    requires inside { (frame_of store.old t).pc < length code.now }
    requires short { length code.now ≤ MAX_INSTRUCTIONS }
    requires fine { IsLiveFine program.now (live_of store.old) t (frame_of store.old t) instr.now }
    requires order { InOrder (live_of store.old) }
    requires other { is_local instr.now ≡ false }
    requires is_quiet { is_quiet instr.now ≡ true }
    ensures live { live_of store.new
        ≡ live_effect program.now (live_of store.old) t (frame_of store.old t) instr.now }
    ensures unseen { unseen_of store.new ≡ unseen_of store.old }
{
    match *instr {
        Instr::Join {
            slot,
            failed,
            timeout,
            interrupted,
        } => {
            let s = named(store.frame(t), slot);
            let on_failure = failed.unwrap_or(0);
            let on_timeout = timeout.unwrap_or(0);
            store.join(t, s, on_failure, on_timeout, interrupted);
        }
        Instr::Cancelled(x) => store.push_cancelled(t, x),
        Instr::Case {
            handle,
            success,
            failed,
        } => store.case(t, handle, success, failed),
        Instr::Get(h) => store.push_value(t, h),
        Instr::Except(h) => store.push_value(t, h),
        Instr::Tally(x, kind) => store.push_tally(t, x, kind),
        Instr::Total(x) => store.push_total(t, x),
        Instr::Read(k) => store.push_bound(t, k),
        Instr::Bound(k) => store.push_is_bound(t, k),
        Instr::OrElse(k) => store.or_else(t, k),
        Instr::Interrupted => store.take_flag(t),
        // `effect` does the instructions that aren't quiet, and `perform` does the local ones.
        _ => store.empties(t, *instr),
    }
}
