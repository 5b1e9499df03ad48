//! Scopes are closed.

ghost use Rattle.std.specs.Prelude.{◌≡◌, ◌<◌, ◌+◌, ◌^◌, true, false, is_some, if◌then◌else◌};
ghost use Rattle.sts_model.specs.Misuse.{innermost, is_entry_of};
ghost use Rattle.sts_model.specs.declared.event.Phase.TheVariants.{Closing};
ghost use Rattle.sts_model.specs.declared.event.Stand.TheVariants.{AtClose, Free};
ghost use Rattle.sts_model.specs.declared.record.Slot.TheVariants.{Empty};
ghost use Rattle.laws_live.specs.Cancelling.{live_cancel};
ghost use Rattle.laws_live.specs.Effect.{live_close, live_closed};
ghost use Rattle.laws_live.specs.Reading.{live_any_lives, lives_in, scope_in, with_live_phase};
ghost use Rattle.sts_store.specs.Closing.{close_unseen, gone_unseen, home_in, is_slot_of};
ghost use Rattle.sts_store.specs.Closing.{slots_cleared};
ghost use Rattle.sts_store.specs.Parts.{frame_of, live_of, stand_in, stood_unseen, unseen_of};
ghost use Rattle.laws_live.specs.Order.{InOrder, IsOwned};

use crate::store::Store;
use sts_cancel::cancel;
use sts_env::Env;
use sts_frames::{is_empty, leave_entry};
use sts_model::{KeptSlot, Phase, Slot, Stand};
use sts_tree::Tree;

/// The scope that a task is a subtask of, if the task counts and has one.
fn home(tree: &Tree<Env>, t: u32) -> Option<u32>
    ensures { result ≡ home_in tree.now t }
{
    match tree.task(t) {
        None => None,
        Some(task) => task.scope,
    }
}

/// Does the slot own the scope, or name a subtask of it?
fn is_of(tree: &Tree<Env>, s: u32, slot: Slot) -> bool
    ensures { result ≡ is_slot_of tree.now s slot }
{
    if let Slot::Own(r) = slot {
        return r == s;
    }
    if let Slot::Sub(t) = slot {
        return home(tree, t) == Some(s);
    }
    false
}

/// Empties a slot that owns the scope or names a subtask of it.
#[inline(never)]
fn clear_one(slot: &mut KeptSlot, tree: &Tree<Env>, s: u32)
    ensures { slot.new ≡ (if is_slot_of tree.now s slot.old then Empty else slot.old) }
{
    if is_of(tree, s, slot.get()) {
        *slot = KeptSlot::new(Slot::Empty);
    }
}

/// Empties the slots that own the scope or name a subtask of it.
fn clear(slots: &mut [KeptSlot; 16], tree: &Tree<Env>, s: u32)
    ensures { slots.new ≡ slots_cleared tree.now s slots.old }
{
    for x in slots.iter_mut() {
        if !is_empty(x.get()) {
            clear_one(x, tree, s);
        }
    }
}

impl Store {
    fn cancel(&mut self, s: u32)
        requires { is_some (scope_in (live_of self.old) s) ≡ true }
        ensures live { live_of self.new ≡ live_cancel (live_of self.old) s }
        ensures unseen { unseen_of self.new ≡ unseen_of self.old }
    {
        cancel(&mut self.tree, s);
    }

    /// Cancels a scope. From now on its owner waits at it.
    fn begin_close(&mut self, t: u32, s: u32)
        requires lives { lives_in (live_of self.old) t ≡ true }
        requires owned { IsOwned (live_of self.old) t s }
        ensures live { live_of self.new
            ≡ with_live_phase (live_cancel (live_of self.old) s) s Closing }
        ensures unseen { unseen_of self.new ≡ stood_unseen (unseen_of self.old) t (AtClose s) }
    {
        self.cancel(s);
        self.stand(t, Stand::AtClose(s));
        self.set_phase(s, Phase::Closing);
    }

    /// Takes out a scope and its subtasks. None of these may live. The owner, which is recorded as
    /// being at no scope, goes on.
    fn take_out(&mut self, t: u32, s: u32)
        requires lives { lives_in (live_of self.old) t ≡ true }
        requires more { (frame_of self.old t).pc + 1 < 2 ^ 32 }
        requires entry { innermost (is_entry_of s) (frame_of self.old t).entries ≡ true }
        requires order { InOrder (live_of self.old) }
        requires ended { live_any_lives (live_of self.old) s ≡ false }
        requires free { stand_in (unseen_of self.old) t ≡ Free }
        ensures live { live_of self.new
            ≡ live_closed (live_of self.old) t (frame_of self.old t) s }
        ensures unseen { unseen_of self.new
            ≡ gone_unseen (live_of self.old) (unseen_of self.old) s }
    {
        let frame = &mut self.frames.at(t as usize).frame;
        clear(&mut frame.slots, &self.tree, s);
        leave_entry(frame);
        self.tree.close_scope(s);
    }

    /// Does a step of the close of a scope, the innermost entry of its owner. While a subtask
    /// lives, the scope is cancelled and the owner waits. Otherwise the scope and its subtasks are
    /// taken out, and the owner goes on; a cancel would change nothing of what is left then.
    pub fn close(&mut self, t: u32, s: u32)
        requires lives { lives_in (live_of self.old) t ≡ true }
        requires more { (frame_of self.old t).pc + 1 < 2 ^ 32 }
        requires entry { innermost (is_entry_of s) (frame_of self.old t).entries ≡ true }
        requires order { InOrder (live_of self.old) }
        ensures live { live_of self.new ≡ live_close (live_of self.old) t (frame_of self.old t) s }
        ensures unseen { unseen_of self.new
            ≡ close_unseen (live_of self.old) (unseen_of self.old) t s }
    {
        if self.any_lives(s) {
            self.begin_close(t, s);
        } else {
            self.stand(t, Stand::Free);
            self.take_out(t, s);
        }
    }
}
