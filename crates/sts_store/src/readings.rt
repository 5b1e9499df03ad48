//! Readings of a store.

ghost use Rattle.std.specs.Prelude.{◌≡◌, true, is_some};
ghost use Rattle.sts_model.specs.Waiting.{is_closing};
ghost use Rattle.laws_live.specs.Effect.{live_read, live_state, live_tally};
ghost use Rattle.laws_live.specs.Outside.{live_can_expire};
ghost use Rattle.laws_live.specs.Reading.{alive_at, lives_in, live_scope_at, scope_in};
ghost use Rattle.sts_store.specs.Parts.{live_of};

use crate::store::Store;
use sts_code::Kind;
use sts_model::{End, Frame, Phase};

impl Store {
    /// Does the task live?
    pub fn lives(&self, t: u32) -> bool
        ensures { result ≡ lives_in (live_of self.now) t }
    {
        self.tree.lives(t)
    }

    /// The frame of a living task.
    pub fn frame(&self, t: u32) -> &Frame
        requires { lives_in (live_of self.now) t ≡ true }
        ensures { result.now ≡ (alive_at (live_of self.now) t).frame }
    {
        let running = self.frames.record(t as usize);
        &running.frame
    }

    /// The value that a living task reads under a key, or `None` if it is not bound.
    pub fn read(&self, t: u32, key: u8) -> Option<i64>
        requires { lives_in (live_of self.now) t ≡ true }
        ensures { result ≡ live_read (live_of self.now) t key }
    {
        let running = self.frames.record(t as usize);
        self.chains.read(running.env, key)
    }

    /// A task's state as a subtask; `None` means unavailable.
    pub fn state(&self, t: u32) -> Option<End>
        ensures { result ≡ live_state (live_of self.now) t }
    {
        match self.tree.task(t) {
            None => None,
            Some(task) => task.state,
        }
    }

    /// Is the scope cancelled? The answer is no if there is no such scope.
    pub fn cancelled(&self, s: u32) -> bool
        ensures { result ≡ (live_scope_at (live_of self.now) s).cancelled }
    {
        match self.tree.scope(s) {
            None => false,
            Some(scope) => scope.cancelled,
        }
    }

    /// Has the close of the scope begun? The answer is no if there is no such scope.
    pub fn closing(&self, s: u32) -> bool
        ensures { result ≡ is_closing (live_scope_at (live_of self.now) s).phase }
    {
        match self.tree.scope(s) {
            None => false,
            Some(scope) => matches!(scope.phase, Phase::Closing),
        }
    }

    /// May the scope expire now?
    pub fn can_expire(&self, s: u32) -> bool
        ensures { result ≡ live_can_expire (live_scope_at (live_of self.now) s) }
    {
        match self.tree.scope(s) {
            None => false,
            Some(scope) => {
                scope.timed
                    && !scope.expired
                    && matches!(scope.phase, Phase::Opened | Phase::Attempted)
            }
        }
    }

    /// The number of subtasks of a scope in a state. The scope must not be closed.
    pub fn tally(&self, s: u32, kind: Kind) -> u32
        requires { is_some (scope_in (live_of self.now) s) ≡ true }
        ensures { result ≡ live_tally (live_of self.now) s kind }
    {
        self.tree.count(s, kind)
    }

    /// The sum of the values of the successes that a scope's joiner was told of. The scope must not
    /// be closed.
    pub fn total(&self, s: u32) -> i64
        requires { is_some (scope_in (live_of self.now) s) ≡ true }
        ensures { result ≡ (live_scope_at (live_of self.now) s).told.total }
    {
        self.tree.total(s)
    }

    /// How the root ended, if it did.
    pub fn root_end(&self) -> Option<End>
        ensures { result ≡ (live_of self.now).root_end }
    {
        self.root_end
    }
}
