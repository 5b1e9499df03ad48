//! Instructions that look something up, and write it into the frame of their task.

ghost use Rattle.std.specs.Prelude.{◌≡◌, ◌<◌, ◌+◌, ◌-◌, ◌^◌, length, is_some, true};
ghost use Rattle.sts_code.specs.Program.{Program as AnyProgram};
ghost use Rattle.sts_code.specs.declared.instr.Instr.TheVariants as instr;
ghost use Rattle.sts_model.specs.Effect as effect;
ghost use Rattle.sts_model.specs.Misuse.{slot};
ghost use Rattle.laws_live.specs.Effect.{live_effect};
ghost use Rattle.laws_live.specs.Reading.{lives_in, scope_in};
ghost use Rattle.sts_store.specs.Parts.{frame_of, live_of, unseen_of};

use crate::store::Store;
use sts_code::Kind;
use sts_frames::{case_target, named, value_or_zero};

impl Store {
    /// Goes to the place that the state of the subtask in a slot leads to.
    pub fn case(&mut self, t: u32, handle: u8, success: u32, failed: u32)
        requires lives { lives_in (live_of self.old) t ≡ true }
        requires more { (frame_of self.old t).pc + 1 < 2 ^ 32 }
        ensures live { (p : AnyProgram) → live_of self.new ≡ live_effect p (live_of self.old) t
            (frame_of self.old t) (instr.Case handle success failed) }
        ensures unseen { unseen_of self.new ≡ unseen_of self.old }
    {
        let frame = self.frame(t);
        let next = frame.pc + 1;
        let state = self.state(named(frame, handle));
        self.goes(t, case_target(state, success, failed, next), 0);
    }

    /// Does `get` and `except`: pushes the value or the code of the subtask in a slot. Pushes 0 if
    /// the joiner was not told of its end.
    pub fn push_value(&mut self, t: u32, handle: u8)
        requires lives { lives_in (live_of self.old) t ≡ true }
        requires more { (frame_of self.old t).pc + 1 < 2 ^ 32 }
        requires room { length (frame_of self.old t).operands < 32 }
        ensures get { (p : AnyProgram) → live_of self.new ≡ live_effect p (live_of self.old) t
            (frame_of self.old t) (instr.Get handle) }
        ensures except { (p : AnyProgram) → live_of self.new ≡ live_effect p (live_of self.old) t
            (frame_of self.old t) (instr.Except handle) }
        ensures unseen { unseen_of self.new ≡ unseen_of self.old }
    {
        let frame = self.frame(t);
        let next = frame.pc + 1;
        let state = self.state(named(frame, handle));
        self.goes_with(t, next, 0, value_or_zero(state));
    }

    /// Pushes whether the scope in a slot is cancelled.
    pub fn push_cancelled(&mut self, t: u32, scope: u8)
        requires lives { lives_in (live_of self.old) t ≡ true }
        requires more { (frame_of self.old t).pc + 1 < 2 ^ 32 }
        requires room { length (frame_of self.old t).operands < 32 }
        ensures live { (p : AnyProgram) → live_of self.new ≡ live_effect p (live_of self.old) t
            (frame_of self.old t) (instr.Cancelled scope) }
        ensures unseen { unseen_of self.new ≡ unseen_of self.old }
    {
        let frame = self.frame(t);
        let next = frame.pc + 1;
        let cancelled = self.cancelled(named(frame, scope));
        self.goes_with(t, next, 0, i64::from(cancelled));
    }

    /// Pushes how many subtasks of the scope in a slot are in a state.
    pub fn push_tally(&mut self, t: u32, scope: u8, kind: Kind)
        requires lives { lives_in (live_of self.old) t ≡ true }
        requires more { (frame_of self.old t).pc + 1 < 2 ^ 32 }
        requires room { length (frame_of self.old t).operands < 32 }
        requires stands { is_some (scope_in (live_of self.old)
            (effect.named (slot (frame_of self.old t) scope))) ≡ true }
        ensures live { (p : AnyProgram) → live_of self.new ≡ live_effect p (live_of self.old) t
            (frame_of self.old t) (instr.Tally scope kind) }
        ensures unseen { unseen_of self.new ≡ unseen_of self.old }
    {
        let frame = self.frame(t);
        let next = frame.pc + 1;
        let tally = self.tally(named(frame, scope), kind);
        self.goes_with(t, next, 0, i64::from(tally));
    }

    /// Pushes the sum of the values of the successes so far in the scope in a slot.
    pub fn push_total(&mut self, t: u32, scope: u8)
        requires lives { lives_in (live_of self.old) t ≡ true }
        requires more { (frame_of self.old t).pc + 1 < 2 ^ 32 }
        requires room { length (frame_of self.old t).operands < 32 }
        requires stands { is_some (scope_in (live_of self.old)
            (effect.named (slot (frame_of self.old t) scope))) ≡ true }
        ensures live { (p : AnyProgram) → live_of self.new ≡ live_effect p (live_of self.old) t
            (frame_of self.old t) (instr.Total scope) }
        ensures unseen { unseen_of self.new ≡ unseen_of self.old }
    {
        let frame = self.frame(t);
        let next = frame.pc + 1;
        let total = self.total(named(frame, scope));
        self.goes_with(t, next, 0, total);
    }

    /// Pushes the value of a key, or 0 if it is not bound.
    pub fn push_bound(&mut self, t: u32, key: u8)
        requires lives { lives_in (live_of self.old) t ≡ true }
        requires more { (frame_of self.old t).pc + 1 < 2 ^ 32 }
        requires room { length (frame_of self.old t).operands < 32 }
        ensures live { (p : AnyProgram) → live_of self.new ≡ live_effect p (live_of self.old) t
            (frame_of self.old t) (instr.Read key) }
        ensures unseen { unseen_of self.new ≡ unseen_of self.old }
    {
        let next = self.frame(t).pc + 1;
        let value = self.read(t, key).unwrap_or(0);
        self.goes_with(t, next, 0, value);
    }

    /// Pushes whether a key is bound.
    pub fn push_is_bound(&mut self, t: u32, key: u8)
        requires lives { lives_in (live_of self.old) t ≡ true }
        requires more { (frame_of self.old t).pc + 1 < 2 ^ 32 }
        requires room { length (frame_of self.old t).operands < 32 }
        ensures live { (p : AnyProgram) → live_of self.new ≡ live_effect p (live_of self.old) t
            (frame_of self.old t) (instr.Bound key) }
        ensures unseen { unseen_of self.new ≡ unseen_of self.old }
    {
        let next = self.frame(t).pc + 1;
        let is_bound = self.read(t, key).is_some();
        self.goes_with(t, next, 0, i64::from(is_bound));
    }

    /// Replaces the top operand by the value of a key. If the key is not bound, the operand stays.
    pub fn or_else(&mut self, t: u32, key: u8)
        requires lives { lives_in (live_of self.old) t ≡ true }
        requires more { (frame_of self.old t).pc + 1 < 2 ^ 32 }
        requires room { length (frame_of self.old t).operands - 1 < 32 }
        ensures live { (p : AnyProgram) → live_of self.new ≡ live_effect p (live_of self.old) t
            (frame_of self.old t) (instr.OrElse key) }
        ensures unseen { unseen_of self.new ≡ unseen_of self.old }
    {
        let frame = self.frame(t);
        let next = frame.pc + 1;
        let top = frame.operand(0);
        let value = self.read(t, key).unwrap_or(top);
        self.goes_with(t, next, 1, value);
    }
}
