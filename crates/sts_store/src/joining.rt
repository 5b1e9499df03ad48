//! The answer of `join`.

ghost use Rattle.std.specs.Prelude.{◌≡◌, ◌<◌, ◌+◌, ◌^◌, [], ◌∷◌, length, nat_le};
ghost use Rattle.std.specs.Prelude.{true, false, is_some, not, ◌&&◌, ◌||◌};
ghost use Rattle.sts_code.specs.Facts.{is_await_all};
ghost use Rattle.sts_model.specs.Local as frames;
ghost use Rattle.sts_model.specs.Told.{result_told};
ghost use Rattle.sts_model.specs.declared.event.Phase.TheVariants.{Attempted};
ghost use Rattle.laws_live.specs.Effect.{live_join, live_joined, live_verdict};
ghost use Rattle.laws_live.specs.Reading.{live_any_lives, live_count, live_scope_at, lives_in};
ghost use Rattle.laws_live.specs.Reading.{scope_in, with_alive, with_live_phase};
ghost use Rattle.sts_store.specs.Parts.{frame_of, live_of, unseen_of};

use crate::store::Store;
use sts_model::{Phase, Verdict};

impl Store {
    /// Has the scope expired? The answer is no if there is no such scope.
    pub fn expired(&self, s: u32) -> bool
        ensures { result ≡ (live_scope_at (live_of self.now) s).expired }
    {
        match self.tree.scope(s) {
            None => false,
            Some(scope) => scope.expired,
        }
    }

    /// Does a subtask of the scope live?
    pub fn any_lives(&self, s: u32) -> bool
        ensures { result ≡ live_any_lives (live_of self.now) s }
    {
        self.tree.any_lives(s)
    }

    /// Has a `join` a result, whichever task waits? It has one if the scope is cancelled or no
    /// subtask of it lives.
    fn has_result(&self, s: u32) -> bool
        ensures { result ≡ ((live_scope_at (live_of self.now) s).cancelled
            || not (live_any_lives (live_of self.now) s)) }
    {
        self.cancelled(s) || !self.any_lives(s)
    }

    /// The joiner's result at this moment, of a scope that isn't closed.
    pub fn verdict(&self, s: u32) -> Verdict
        requires { is_some (scope_in (live_of self.now) s) ≡ true }
        ensures { result ≡ result_told (live_scope_at (live_of self.now) s).joiner
            (live_scope_at (live_of self.now) s).told (live_count (live_of self.now) s) }
    {
        self.tree.result(s)
    }
}

impl Store {
    pub(crate) fn set_phase(&mut self, s: u32, phase: Phase)
        requires { is_some (scope_in (live_of self.old) s) ≡ true }
        ensures live { live_of self.new ≡ with_live_phase (live_of self.old) s phase }
        ensures unseen { unseen_of self.new ≡ unseen_of self.old }
    {
        self.tree.set_phase(s, phase);
    }

    /// An outcome of `join` that pushes nothing.
    fn joined(&mut self, t: u32, s: u32, to: u32)
        requires lives { lives_in (live_of self.old) t ≡ true }
        requires stands { is_some (scope_in (live_of self.old) s) ≡ true }
        ensures live { live_of self.new
            ≡ live_joined (live_of self.old) t s (frames.goes (frame_of self.old t) to 0 []) }
        ensures unseen { unseen_of self.new ≡ unseen_of self.old }
    {
        self.set_phase(s, Phase::Joined);
        self.goes(t, to, 0);
    }

    /// An outcome of `join` that pushes a value.
    fn joined_with(&mut self, t: u32, s: u32, to: u32, value: i64)
        requires lives { lives_in (live_of self.old) t ≡ true }
        requires stands { is_some (scope_in (live_of self.old) s) ≡ true }
        requires room { length (frame_of self.old t).operands < 32 }
        ensures live { live_of self.new ≡ live_joined (live_of self.old) t s
            (frames.goes (frame_of self.old t) to 0 (value ∷ [])) }
        ensures unseen { unseen_of self.new ≡ unseen_of self.old }
    {
        self.set_phase(s, Phase::Joined);
        self.goes_with(t, to, 0, value);
    }

    /// Clears the flag of a task, which goes to `to`.
    fn leave_join(&mut self, t: u32, to: u32)
        requires { lives_in (live_of self.old) t ≡ true }
        ensures live { live_of self.new ≡ with_alive (live_of self.old) t (λ alive. record alive {
          frame = frames.goes (frame_of self.old t) to 0 [];
          flag = false;
        }) }
        ensures unseen { unseen_of self.new ≡ unseen_of self.old }
    {
        self.tree.clear_flag(t);
        self.frames.at(t as usize).frame.goes(to, 0);
    }

    /// `join` is interrupted.
    fn attempted(&mut self, t: u32, s: u32, to: u32)
        requires lives { lives_in (live_of self.old) t ≡ true }
        requires stands { is_some (scope_in (live_of self.old) s) ≡ true }
        ensures live { live_of self.new
            ≡ with_alive (with_live_phase (live_of self.old) s Attempted) t (λ alive. record alive {
              frame = frames.goes (frame_of self.old t) to 0 [];
              flag = false;
            }) }
        ensures unseen { unseen_of self.new ≡ unseen_of self.old }
    {
        self.set_phase(s, Phase::Attempted);
        self.leave_join(t, to);
    }

    /// Takes the joiner's result: the place to go to, and the operand to push, if there is one.
    #[inline(always)]
    fn take_result(&mut self, t: u32, s: u32, failed: u32)
        requires lives { lives_in (live_of self.old) t ≡ true }
        requires stands { is_some (scope_in (live_of self.old) s) ≡ true }
        requires more { (frame_of self.old t).pc + 1 < 2 ^ 32 }
        requires room { (nat_le 32 (length (frame_of self.old t).operands)
            && not (is_await_all (live_scope_at (live_of self.old) s).joiner)) ≡ false }
        ensures live { live_of self.new ≡ live_verdict
            (result_told (live_scope_at (live_of self.old) s).joiner
            (live_scope_at (live_of self.old) s).told (live_count (live_of self.old) s))
            (live_of self.old) t s (frame_of self.old t) failed }
        ensures unseen { unseen_of self.new ≡ unseen_of self.old }
    {
        let next = self.frame(t).pc + 1;
        match self.verdict(s) {
            Verdict::Ok(None) => self.joined(t, s, next),
            Verdict::Ok(Some(value)) => self.joined_with(t, s, next, value),
            Verdict::Failed(code) => self.joined_with(t, s, failed, code),
        }
    }

    /// Takes the answer of `join`, once there is one: the place to go to, and the operands to push.
    pub fn join(&mut self, t: u32, s: u32, failed: u32, timeout: u32, interrupted: u32)
        requires lives { lives_in (live_of self.old) t ≡ true }
        requires stands { is_some (scope_in (live_of self.old) s) ≡ true }
        requires more { (frame_of self.old t).pc + 1 < 2 ^ 32 }
        requires room { (nat_le 32 (length (frame_of self.old t).operands)
            && not (is_await_all (live_scope_at (live_of self.old) s).joiner)) ≡ false }
        ensures live { live_of self.new
            ≡ live_join (live_of self.old) t (frame_of self.old t) s failed timeout interrupted }
        ensures unseen { unseen_of self.new ≡ unseen_of self.old }
    {
        if self.expired(s) {
            self.joined(t, s, timeout);
        } else if self.has_result(s) {
            self.take_result(t, s, failed);
        } else {
            self.attempted(t, s, interrupted);
        }
    }
}
