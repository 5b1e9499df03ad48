//! Changes of a task's frame and of its flag.

ghost use Rattle.std.specs.Prelude.{◌≡◌, ◌<◌, ◌+◌, ◌-◌, ◌^◌, List, [], ◌∷◌, length};
ghost use Rattle.std.specs.Prelude.{true, false, ◌≤◌, Some, None, slice_get, option_copied};
ghost use Rattle.sts_code.specs.declared.limits.TheConstants.{MAX_INSTRUCTIONS};
ghost use Rattle.sts_code.specs.declared.instr.Instr.{Instr};
ghost use Rattle.sts_frames.specs.Locals.{AreSafe, local_at, locals};
ghost use Rattle.sts_model.specs.Local as frames;
ghost use Rattle.sts_model.specs.Misuse.{breaks_loop, overflows};
ghost use Rattle.sts_model.specs.World as world;
ghost use Rattle.laws_live.specs.Effect.{live_take_flag};
ghost use Rattle.laws_live.specs.Outside.{live_interrupt};
ghost use Rattle.laws_live.specs.Reading.{lives_in, with_live_frame};
ghost use Rattle.sts_store.specs.Parts.{frame_of, live_of, unseen_of};

use crate::store::Store;
use sts_code::{Instr, Program};
use sts_frames::{empties, local, run_local};

/// The instruction at this place, if there is one.
#[inline(always)]
fn instr_in(code: &[Instr], pc: u32) -> Option<&Instr>
    ensures { option_copied result ≡ slice_get code.now pc }
{
    code.get(pc as usize)
}

impl Store {
    /// Does an instruction of a task that stays in the frame, and answers the next one. `code` is the
    /// code of its function.
    #[inline(always)]
    pub fn local<'a>(
        &mut self,
        program: &Program,
        code: &'a [Instr],
        t: u32,
        instr: Instr,
    ) -> Option<&'a Instr>
        requires lives { lives_in (live_of self.old) t ≡ true }
        requires own_code { code.now ≡ world.code program.now (frame_of self.old t) }
        requires stays { frames.stays_in_frame instr ≡ true }
        requires room { overflows program.now (frame_of self.old t) instr ≡ false }
        requires more { (frame_of self.old t).pc + 1 < 2 ^ 32 }
        requires inside { (frame_of self.old t).pc < length code.now }
        requires short { length code.now < 2 ^ 32 }
        requires loops { breaks_loop program.now (frame_of self.old t) instr ≡ false }
        ensures live { live_of self.new ≡ with_live_frame (live_of self.old) t
            (frames.local code.now instr (frame_of self.old t)) }
        ensures unseen { unseen_of self.new ≡ unseen_of self.old }
        ensures next { option_copied result
            ≡ slice_get code.now (frames.local code.now instr (frame_of self.old t)).pc }
    {
        let frame = &mut self.frames.at(t as usize).frame;
        local(frame, program, code, instr);
        instr_in(code, frame.pc)
    }

    /// Does an instruction of a task that empties a slot and stays in the frame.
    pub fn empties(&mut self, t: u32, instr: Instr)
        requires lives { lives_in (live_of self.old) t ≡ true }
        requires other { frames.is_local instr ≡ false }
        requires stays { frames.stays_in_frame instr ≡ true }
        requires more { (frame_of self.old t).pc + 1 < 2 ^ 32 }
        ensures live { (code : List Instr) → live_of self.new ≡ with_live_frame (live_of self.old) t
            (frames.local code instr (frame_of self.old t)) }
        ensures unseen { unseen_of self.new ≡ unseen_of self.old }
    {
        empties(&mut self.frames.at(t as usize).frame, instr);
    }

    /// Does local instructions of a task until the limit or the first other instruction, and answers
    /// how many. `code` is the code of its function.
    pub fn run_local(&mut self, program: &Program, code: &[Instr], t: u32, limit: u32) -> u32
        requires lives { lives_in (live_of self.old) t ≡ true }
        requires safe { AreSafe program.now code.now (frame_of self.old t) }
        requires short { length code.now ≤ MAX_INSTRUCTIONS }
        ensures live { live_of self.new ≡ with_live_frame (live_of self.old) t
            (frame_of self.new t) }
        ensures unseen { unseen_of self.new ≡ unseen_of self.old }
        ensures local { locals code.now (frame_of self.old t) result
            ≡ Some (frame_of self.new t) }
        ensures most { result ≤ limit }
        ensures stops { result < limit → local_at code.now (frame_of self.new t) ≡ None }
    {
        run_local(&mut self.frames.at(t as usize).frame, program, code, limit)
    }

    /// Pops `n` operands and goes to `to`.
    pub fn goes(&mut self, t: u32, to: u32, n: usize)
        requires lives { lives_in (live_of self.old) t ≡ true }
        ensures live { live_of self.new ≡ with_live_frame (live_of self.old) t
            (frames.goes (frame_of self.old t) to n []) }
        ensures unseen { unseen_of self.new ≡ unseen_of self.old }
    {
        self.frames.at(t as usize).frame.goes(to, n);
    }

    /// Pops `n` operands, pushes a value and goes to `to`.
    pub fn goes_with(&mut self, t: u32, to: u32, n: usize, value: i64)
        requires lives { lives_in (live_of self.old) t ≡ true }
        requires room { length (frame_of self.old t).operands - n < 32 }
        ensures live { live_of self.new ≡ with_live_frame (live_of self.old) t
            (frames.goes (frame_of self.old t) to n (value ∷ [])) }
        ensures unseen { unseen_of self.new ≡ unseen_of self.old }
    {
        self.frames.at(t as usize).frame.goes_with(to, n, value);
    }

    /// Pushes the task's flag and clears it.
    pub fn take_flag(&mut self, t: u32)
        requires lives { lives_in (live_of self.old) t ≡ true }
        requires more { (frame_of self.old t).pc + 1 < 2 ^ 32 }
        requires room { length (frame_of self.old t).operands < 32 }
        ensures live { live_of self.new ≡ live_take_flag (live_of self.old) t
            (frame_of self.old t) }
        ensures unseen { unseen_of self.new ≡ unseen_of self.old }
    {
        let flag = self.tree.take_flag(t);
        let frame = &mut self.frames.at(t as usize).frame;
        let next = frame.pc + 1;
        frame.goes_with(next, 0, i64::from(flag));
    }

    /// Sets the flag of a living task.
    pub fn interrupt(&mut self, t: u32)
        requires { lives_in (live_of self.old) t ≡ true }
        ensures live { live_of self.new ≡ live_interrupt (live_of self.old) t }
        ensures unseen { unseen_of self.new ≡ unseen_of self.old }
    {
        self.tree.raise(t);
    }
}
