//! Recording at which scopes tasks are, which tasks may step, keys, and room.

ghost use Rattle.std.specs.Prelude.{◌≡◌, ℕ, Some, None, true, false, not, ◌&&◌, ◌==◌};
ghost use Rattle.std.specs.List.{list_any};
ghost use Rattle.sts_records.specs.Holes.{key_at};
ghost use Rattle.laws_live.specs.Reading.{lives_in};
ghost use Rattle.sts_store.specs.Parts.{can_go_on, live_of, stood_unseen, unseen_of};
ghost use Rattle.laws_live.specs.Order.{IsOwned};
ghost use Rattle.laws_live.specs.Stands.{is_stand_at};

use crate::store::Store;
use sts_model::Stand;

impl Store {
    /// Records whether a living task is at a scope of its own, or at none.
    #[inline(always)]
    pub fn stand(&mut self, t: u32, stand: Stand)
        requires lives { lives_in (live_of self.old) t ≡ true }
        requires owned { (s : ℕ) → is_stand_at s stand ≡ true → IsOwned (live_of self.old) t s }
        ensures live { live_of self.new ≡ live_of self.old }
        ensures unseen { unseen_of self.new ≡ stood_unseen (unseen_of self.old) t stand }
    {
        self.stands(t, stand);
    }

    /// Records whether a living task is at a scope of its own, or at none, and answers whether it may
    /// step then.
    #[inline(always)]
    pub fn stands(&mut self, t: u32, stand: Stand) -> bool
        requires lives { lives_in (live_of self.old) t ≡ true }
        requires owned { (s : ℕ) → is_stand_at s stand ≡ true → IsOwned (live_of self.old) t s }
        ensures live { live_of self.new ≡ live_of self.old }
        ensures unseen { unseen_of self.new ≡ stood_unseen (unseen_of self.old) t stand }
        ensures can_step { result ≡ can_go_on self.new t }
    {
        self.tree.stands(t, stand)
    }

    /// May the task step, by the scope that is recorded for it?
    pub fn can_step(&self, t: u32) -> bool
        ensures { result ≡ can_go_on self.now t }
    {
        self.tree.can_step(t)
    }

    /// A task that may step, or `None` if and only if there is no such task.
    pub fn ready_front(&self) -> Option<u32>
        ensures some { (t : ℕ) → result ≡ Some t → can_go_on self.now t ≡ true }
        ensures none { (t : ℕ) → result ≡ None → can_go_on self.now t ≡ false }
    {
        self.tree.ready_front()
    }

    /// A task that may step and is not in this list, or `None` if and only if there is no such
    /// task.
    pub fn ready_beside(&self, out: &[u32]) -> Option<u32>
        ensures some { (t : ℕ) → result ≡ Some t →
            (can_go_on self.now t && not (list_any (λ o. o == t) out.now)) ≡ true }
        ensures none { (t : ℕ) → result ≡ None →
            (can_go_on self.now t && not (list_any (λ o. o == t) out.now)) ≡ false }
    {
        self.tree.ready_beside(out)
    }

    /// The key of a task's record, if it exists.
    pub fn key_of(&self, t: u32) -> Option<usize>
        ensures { result ≡ key_at (live_of self.now).tasks (unseen_of self.now).task_keys t }
    {
        self.tree.key_of(t)
    }

    /// The key of a scope's record, if it exists.
    pub fn scope_key_of(&self, s: u32) -> Option<usize>
        ensures { result ≡ key_at (live_of self.now).scopes (unseen_of self.now).scope_keys s }
    {
        self.tree.scope_key_of(s)
    }

    /// How many more tasks fit.
    pub fn task_room(&self) -> u32
        ensures { result ≡ (unseen_of self.now).task_room }
    {
        self.tree.task_room()
    }

    /// How many more scopes fit.
    pub fn scope_room(&self) -> u32
        ensures { result ≡ (unseen_of self.now).scope_room }
    {
        self.tree.scope_room()
    }

    /// How many more bindings fit.
    pub fn binding_room(&self) -> u32
        ensures { result ≡ (unseen_of self.now).binding_room }
    {
        self.chains.room()
    }
}
