//! Slices: a task's frame is taken out, and its local instructions are done on it without the
//! machine.

ghost use Rattle.std.specs.Prelude.{◌≡◌, ◌+◌, ◌<◌, ◌≤◌, Some, None, length};
ghost use Rattle.sts_code.specs.declared.limits.TheConstants.{MAX_INSTRUCTIONS, MAX_STEPS};
ghost use Rattle.sts_frames.specs.Locals.{local_at, locals};
ghost use Rattle.sts_machine.specs.Slice.{IsLawful, IsReached};
ghost use Rattle.sts_model.specs.World as world;

use std::marker::Model;
use sts_code::{Instr, code_of};
use sts_frames::{copy_frame, is_local, run_local};
use sts_model::Frame;
use sts_verify::Verified;

/// A task's frame, taken out of a machine: the frame that was taken out, and that frame after local
/// instructions.
#[derive(Drop)]
pub struct Slice<'p> {
    verified: &'p Verified,
    task: u32,
    start: Frame,
    frame: Frame,
    count: u32,
}

impl<'p> Model for Slice<'p> {
    ghost use Rattle.sts_machine.specs.Slice.{Cut, IsSlice};
    ghost use Rattle.sts_model.specs.World.{code};

    ghost Value = { Cut };

    ghost view = { λ s. record {
      task = s.task;
      code = code s.verified.now s.start;
      start = s.start;
      frame = s.frame;
      count = s.count;
    } };

    ghost invariant = { λ s. IsSlice s.verified.now s.task s.start s.frame s.count };
}

impl<'p> Slice<'p> {
    /// The slice of a task that lives at this frame, with nothing done yet. The laws of its program
    /// are handed over, so that no instruction asks for them again.
    pub(crate) fn cut(verified: &'p Verified, task: u32, frame: &Frame) -> Slice<'p>
        requires reached { IsReached verified.now task frame.now }
        requires lawful { IsLawful verified.now }
        ensures { result ≡ record {
          task = task;
          code = world.code verified.now frame.now;
          start = frame.now;
          frame = frame.now;
          count = 0;
        } }
    {
        Slice {
            verified,
            task,
            start: copy_frame(frame),
            frame: copy_frame(frame),
            count: 0,
        }
    }

    /// The task.
    pub fn task(&self) -> u32
        ensures { result ≡ self.now.task }
    {
        self.task
    }

    /// How many instructions were done.
    pub fn count(&self) -> u32
        ensures value { result ≡ self.now.count }
        ensures most { result ≤ MAX_STEPS }
    {
        self.count
    }

    /// The code of the task's function.
    pub fn code(&self) -> &'p [Instr]
        ensures value { result.now ≡ self.now.code }
        ensures short { length result.now ≤ MAX_INSTRUCTIONS }
    {
        code_of(self.verified.program(), self.start.function as usize)
    }

    /// The frame that was taken out.
    pub fn start(&self) -> &Frame
        ensures { result.now ≡ self.now.start }
    {
        &self.start
    }

    /// The current frame. The local instructions that were done lead to it from the frame that was
    /// taken out.
    pub fn frame(&self) -> &Frame
        ensures value { result.now ≡ self.now.frame }
        ensures local { locals self.now.code self.now.start self.now.count ≡ Some self.now.frame }
    {
        &self.frame
    }

    /// Does local instructions until the limit or the first other instruction, and answers how many.
    pub fn run_local(&mut self, limit: u32) -> u32
        ensures task { self.new.task ≡ self.old.task }
        ensures code { self.new.code ≡ self.old.code }
        ensures start { self.new.start ≡ self.old.start }
        ensures count { self.new.count ≡ self.old.count + result }
        ensures most { result ≤ limit }
        ensures stops { result < limit → local_at self.new.code self.new.frame ≡ None }
    {
        let code = self.code();
        let done = run_local(&mut self.frame, self.verified.program(), code, limit);
        self.count += done;
        done
    }
}
