//! Recording at which scope a task is.

ghost use Rattle.std.specs.Prelude.{◌≡◌, true, false};
ghost use Rattle.sts_machine.specs.Room.{HasRoomOf};
ghost use Rattle.sts_machine.specs.Standing.{AreStanding, AreStandingBut, is_free};
ghost use Rattle.sts_model.specs.declared.event.Stand.TheVariants.{Free as StandsFree};
ghost use Rattle.sts_rules.specs.declared.budget.Budgets.{Budgets as AnyBudgets};
ghost use Rattle.laws_live.specs.Reading.{lives_in};
ghost use Rattle.laws_live.specs.Waiting.{live_can_step, live_stand_at, live_stands_at_close};
ghost use Rattle.laws_live.specs.Waiting.{live_stands_at_join};
ghost use Rattle.sts_store.specs.Parts.{live_of, stand_in, unseen_of};
ghost use Rattle.laws_live.specs.Order.{InOrder};

use crate::slots::slot;
use laws_live::stands_are_owned;
use sts_code::{Instr, Program};
use sts_frames::code;
use sts_model::{Slot, Stand};
use sts_store::Store;

/// The `join` of a scope, if the slot owns one.
fn stands_at_join(slot: Slot) -> Stand
    ensures { result ≡ live_stands_at_join slot }
{
    match slot {
        Slot::Own(s) => Stand::AtJoin(s),
        _ => Stand::Free,
    }
}

/// The `close` of a scope, if the slot owns one and its close has begun.
fn stands_at_close(store: &Store, slot: Slot) -> Stand
    ensures { result ≡ live_stands_at_close (live_of store.now) slot }
{
    match slot {
        Slot::Own(s) => {
            if store.closing(s) {
                Stand::AtClose(s)
            } else {
                Stand::Free
            }
        }
        _ => Stand::Free,
    }
}

/// Whether the next instruction of a living task is a `join` or a `close` that it may have to wait
/// at.
#[inline(always)]
fn stand_at(store: &Store, program: &Program, t: u32) -> Stand
    requires { lives_in (live_of store.now) t ≡ true }
    ensures { result ≡ live_stand_at program.now (live_of store.now) t }
{
    let frame = store.frame(t);
    match code(program, frame).get(frame.pc as usize) {
        Some(Instr::Join { slot: x, .. }) => stands_at_join(slot(frame, *x)),
        Some(Instr::Close(x)) => stands_at_close(store, slot(frame, *x)),
        _ => Stand::Free,
    }
}

/// Is the task at no scope?
fn is_free(stand: Stand) -> bool
    ensures { result ≡ is_free stand }
{
    matches!(stand, Stand::Free)
}

/// Records at which scope a living task is, and answers whether it can step. For a task that can't
/// have waited no scope is recorded. If it is at none, it needs no new record, and can step.
#[inline(always)]
pub(crate) fn say_stand(store: &mut Store, program: &Program, t: u32, waited: bool) -> bool
    requires lives { lives_in (live_of store.old) t ≡ true }
    requires order { InOrder (live_of store.old) }
    requires others { AreStandingBut program.now (live_of store.old) (unseen_of store.old) t }
    requires free { waited ≡ false → stand_in (unseen_of store.old) t ≡ StandsFree }
    ensures live { live_of store.new ≡ live_of store.old }
    ensures unseen { unseen_of store.new
        ≡ record (unseen_of store.old) { stands = (unseen_of store.new).stands } }
    ensures standing { AreStanding program.now (live_of store.new) (unseen_of store.new) }
    ensures room { (b : AnyBudgets) → HasRoomOf b (live_of store.old) (unseen_of store.old)
        → HasRoomOf b (live_of store.new) (unseen_of store.new) }
    ensures can_step { result ≡ live_can_step program.now (live_of store.new) t }
{
    stands_are_owned();
    let stand = stand_at(store, program, t);
    if waited || !is_free(stand) {
        return store.stands(t, stand);
    }
    true
}

/// Records at which scope a living task is that was at none before, and answers whether it can step.
/// `is_near` says whether its next instruction may be a `join` or a `close`. If not, it is at none,
/// as is recorded already.
#[inline(always)]
pub(crate) fn say_stand_if_near(store: &mut Store, program: &Program, t: u32, is_near: bool) -> bool
    requires lives { lives_in (live_of store.old) t ≡ true }
    requires order { InOrder (live_of store.old) }
    requires others { AreStandingBut program.now (live_of store.old) (unseen_of store.old) t }
    requires free { stand_in (unseen_of store.old) t ≡ StandsFree }
    requires far { is_near ≡ false
        → live_stand_at program.now (live_of store.old) t ≡ StandsFree }
    ensures live { live_of store.new ≡ live_of store.old }
    ensures standing { AreStanding program.now (live_of store.new) (unseen_of store.new) }
    ensures room { (b : AnyBudgets) → HasRoomOf b (live_of store.old) (unseen_of store.old)
        → HasRoomOf b (live_of store.new) (unseen_of store.new) }
    ensures can_step { result ≡ live_can_step program.now (live_of store.new) t }
{
    if !is_near {
        return true;
    }
    say_stand(store, program, t, false)
}
