//! Forks.

ghost use Rattle.std.specs.Prelude.{◌≡◌, ◌<◌, ◌≤◌, ◌+◌, ◌-◌, ◌^◌, ℕ, [], ◌∷◌, ◌++◌, length};
ghost use Rattle.std.specs.Prelude.{true, is_some, Some, None, if◌then◌else◌};
ghost use Rattle.sts_code.specs.declared.limits.TheConstants.{MAX_BIRTHS};
ghost use Rattle.sts_code.specs.Program.{routine};
ghost use Rattle.sts_model.specs.World as def;
ghost use Rattle.sts_model.specs.declared.event.Stand.TheVariants.{Free};
ghost use Rattle.laws_live.specs.Effect.{live_fork};
ghost use Rattle.laws_live.specs.Reading.{live_scope_at, lives_in, scope_in};
ghost use Rattle.sts_store.specs.Parts.{frame_of, live_of, unseen_of};
ghost use Rattle.laws_live.specs.Order.{InOrder};

use crate::beginning::begin;
use crate::running::Running;
use crate::store::Store;
use sts_code::{Program, args};
use sts_env::Env;
use sts_frames::{entry_frame, leave_fork};
use sts_model::Slot;
use sts_records::Held;

/// A place for the next birth, with its own state if it lives: at place 0 of a function, with these
/// locals, this slot 0 and this environment.
#[inline(always)]
fn place(
    frames: &mut Held<Running>,
    function: u32,
    locals: &[i64; 16],
    slot: Slot,
    env: Env,
    lives: bool,
)
    requires room { 0 < frames.old.room }
    requires births { length frames.old.slots < MAX_BIRTHS }
    ensures slots { frames.new.slots ≡ frames.old.slots ++ (if lives then Some (record {
      frame = record (def.entry_frame function [] slot) { locals = locals.now };
      env = env;
    }) else None) ∷ [] }
    ensures room { frames.new.room
        ≡ (if lives then frames.old.room - 1 else frames.old.room) }
{
    if lives {
        begin(frames, function, locals, slot, env);
    } else {
        frames.skip();
    }
}

impl Store {
    /// Forks a subtask in an open scope, and goes on. In a cancelled scope the subtask never runs.
    pub fn fork(&mut self, program: &Program, t: u32, s: u32, function: u32, handle: Option<u8>)
        requires lives { lives_in (live_of self.old) t ≡ true }
        requires stands { is_some (scope_in (live_of self.old) s) ≡ true }
        requires more { (frame_of self.old t).pc + 1 < 2 ^ 32 }
        requires enough { (routine program.now function).args
            ≤ length (frame_of self.old t).operands }
        requires task_room { 0 < (unseen_of self.old).task_room }
        requires frame_room { 0 < (unseen_of self.old).frame_room }
        requires born { length (live_of self.old).tasks < MAX_BIRTHS }
        requires order { InOrder (live_of self.old) }
        ensures live { live_of self.new
            ≡ live_fork program.now (live_of self.old) t (frame_of self.old t) s function handle }
        ensures unseen { (key : ℕ) × (unseen_of self.new ≡ record (unseen_of self.old) {
          stands = (unseen_of self.old).stands ++ Some Free ∷ [];
          task_keys = (unseen_of self.old).task_keys ++ key ∷ [];
          task_room = (unseen_of self.old).task_room - 1;
          frame_room = if (live_scope_at (live_of self.old) s).cancelled
              then (unseen_of self.old).frame_room
              else (unseen_of self.old).frame_room - 1;
        }) }
    {
        let args = args(program, function);
        let env = *self.tree.env(s);
        let forker = self.frames.record(t as usize);
        let entry = entry_frame(function, args, &forker.frame, Slot::Lent(s));
        let (child, lives) = self.tree.add_subtask(s);
        place(
            &mut self.frames,
            function,
            &entry.locals,
            Slot::Lent(s),
            env,
            lives,
        );
        leave_fork(
            &mut self.frames.at(t as usize).frame,
            args as usize,
            handle,
            child,
        );
    }
}
