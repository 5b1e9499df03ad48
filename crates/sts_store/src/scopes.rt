//! Scopes open and expire.

ghost use Rattle.std.specs.Prelude.{◌≡◌, ◌<◌, ◌+◌, ◌-◌, ◌^◌, ℕ, [], ◌∷◌, ◌++◌, length, true};
ghost use Rattle.sts_code.specs.declared.limits.TheConstants.{MAX_BIRTHS};
ghost use Rattle.laws_live.specs.Effect.{live_open};
ghost use Rattle.laws_live.specs.Outside.{live_can_expire, live_expire};
ghost use Rattle.laws_live.specs.Reading.{live_scope_at, lives_in};
ghost use Rattle.sts_store.specs.Parts.{frame_of, live_of, unseen_of};
ghost use Rattle.laws_live.specs.Order.{InOrder};

use crate::store::Store;
use sts_cancel::expire;
use sts_code::Joiner;
use sts_frames::enter_scope;

impl Store {
    /// Opens a scope, and goes on. From now on the slot owns the scope.
    pub fn open(&mut self, t: u32, slot: u8, joiner: Joiner, timed: bool)
        requires lives { lives_in (live_of self.old) t ≡ true }
        requires more { (frame_of self.old t).pc + 1 < 2 ^ 32 }
        requires entries { length (frame_of self.old t).entries < 16 }
        requires room { 0 < (unseen_of self.old).scope_room }
        requires born { length (live_of self.old).scopes < MAX_BIRTHS }
        requires order { InOrder (live_of self.old) }
        ensures live { live_of self.new
            ≡ live_open (live_of self.old) t (frame_of self.old t) slot joiner timed }
        ensures unseen { (key : ℕ) × (unseen_of self.new ≡ record (unseen_of self.old) {
          scope_keys = (unseen_of self.old).scope_keys ++ key ∷ [];
          scope_room = (unseen_of self.old).scope_room - 1;
        }) }
    {
        let running = self.frames.at(t as usize);
        let env = running.env;
        let s = self.tree.open_scope(t, joiner, timed, env);
        enter_scope(&mut running.frame, slot, s);
    }

    /// Marks a scope that may expire as expired, and cancels it.
    pub fn expire(&mut self, s: u32)
        requires { live_can_expire (live_scope_at (live_of self.old) s) ≡ true }
        ensures live { live_of self.new ≡ live_expire (live_of self.old) s }
        ensures unseen { unseen_of self.new ≡ unseen_of self.old }
    {
        expire(&mut self.tree, s);
    }
}
