//! Bindings of a task.

ghost use Rattle.std.specs.Prelude.{◌≡◌, ◌<◌, ◌+◌, ◌-◌, ◌^◌, length, true};
ghost use Rattle.sts_model.specs.Misuse.{innermost, is_binding};
ghost use Rattle.laws_live.specs.Effect.{live_bind, live_unbind};
ghost use Rattle.laws_live.specs.Reading.{lives_in};
ghost use Rattle.sts_store.specs.Parts.{frame_of, live_of, unseen_of};
ghost use Rattle.laws_live.specs.Order.{InOrder};

use crate::store::Store;
use sts_frames::{enter_binding, leave_entry};

impl Store {
    /// Binds a key to the popped operand, and goes on.
    pub fn bind(&mut self, t: u32, key: u8)
        requires lives { lives_in (live_of self.old) t ≡ true }
        requires more { (frame_of self.old t).pc + 1 < 2 ^ 32 }
        requires entries { length (frame_of self.old t).entries < 16 }
        requires room { 0 < (unseen_of self.old).binding_room }
        ensures live { live_of self.new ≡ live_bind (live_of self.old) t (frame_of self.old t) key }
        ensures unseen { unseen_of self.new ≡ record (unseen_of self.old) {
          binding_room = (unseen_of self.old).binding_room - 1;
        } }
    {
        let running = self.frames.at(t as usize);
        let value = running.frame.operand(0);
        running.env = self.chains.bind(running.env, key, value);
        enter_binding(&mut running.frame, key);
    }

    /// Ends the innermost binding of a task, which is its last entry, and goes on.
    pub fn unbind(&mut self, t: u32)
        requires lives { lives_in (live_of self.old) t ≡ true }
        requires more { (frame_of self.old t).pc + 1 < 2 ^ 32 }
        requires bound { innermost is_binding (frame_of self.old t).entries ≡ true }
        requires order { InOrder (live_of self.old) }
        ensures live { live_of self.new ≡ live_unbind (live_of self.old) t (frame_of self.old t) }
        ensures unseen { unseen_of self.new ≡ record (unseen_of self.old) {
          binding_room = (unseen_of self.old).binding_room + 1;
        } }
    {
        let running = self.frames.at(t as usize);
        running.env = self.chains.unbind(running.env);
        leave_entry(&mut running.frame);
    }
}
