//! Takes slices out of a machine, and puts them back.

ghost use Rattle.std.specs.Prelude.{◌≡◌, ◌+◌, ◌++◌, ◌↔◌, ◌<◌, ◌≤◌, List, true, IsTrue, Some, None};
ghost use Rattle.laws_accepted.specs.Accepted.{main_of};
ghost use Rattle.laws_accepted.specs.EveryRun.{RunsWell};
ghost use Rattle.sts_machine.specs.Machine.{Stands};
ghost use Rattle.sts_frames.specs.Locals.{local_at, locals};
ghost use Rattle.sts_machine.specs.Slice.{Fits, code_at, frame_at, steps_of};
ghost use Rattle.sts_model.specs.World as world;
ghost use Rattle.sts_model.specs.declared.event.Event.{Event as AnyEvent};
ghost use Rattle.sts_rules.specs.Refusal.{IsBudgetOf};
ghost use Rattle.sts_rules.specs.declared.budget.Budgets.{Budgets as AnyBudgets};
ghost use Rattle.laws_live.specs.Reading.{alive_at, with_live_frame};
ghost use Rattle.laws_live.specs.Waiting.{live_can_step};

use crate::comparing::{same_code, same_frame};
use crate::machine::Machine;
use crate::slice::Slice;
use crate::stands::say_stand;
use sts_frames::code;

impl<'p> Machine<'p> {
    /// The slice of a task that can step. The machine keeps its frame as it is.
    pub fn slice(&self, task: u32) -> Slice<'p>
        requires { live_can_step self.now.program self.now.live task ≡ true }
        ensures { result ≡ record {
          task = task;
          code = world.code self.now.program (alive_at self.now.live task).frame;
          start = (alive_at self.now.live task).frame;
          frame = (alive_at self.now.live task).frame;
          count = 0;
        } }
    {
        Slice::cut(self.verified, task, self.store.frame(task))
    }

    /// Can the task step?
    pub fn can_step(&self, task: u32) -> bool
        ensures { result ≡ live_can_step self.now.program self.now.live task }
    {
        self.store.can_step(task)
    }

    /// Was the slice taken from a task that lives here and is still at the same frame, and is its
    /// code this program's?
    pub fn fits(&self, slice: &Slice<'p>) -> bool
        ensures { IsTrue result ↔ Fits self.now slice.now }
    {
        let task = slice.task();
        if !self.store.lives(task) {
            return false;
        }
        if !same_frame(slice.start(), self.store.frame(task)) {
            return false;
        }
        same_code(slice.code(), code(self.verified.program(), slice.start()))
    }

    /// Does the steps that the slice has done, if any. It changes no keys and no room. In the parts
    /// that the view doesn't show, it changes only the scopes that are recorded for tasks.
    pub fn put(&mut self, slice: &Slice<'p>)
        requires { Fits self.old slice.now }
        ensures program { self.new.program ≡ self.old.program }
        ensures live { self.new.live
            ≡ with_live_frame self.old.live slice.now.task slice.now.frame }
        ensures unseen { self.new.unseen
            ≡ record self.old.unseen { stands = self.new.unseen.stands } }
        ensures steps { self.new.steps ≡ self.old.steps + slice.now.count }
        ensures stands { (events : List AnyEvent) → Stands self.old events
            → Stands self.new (events ++ steps_of slice.now.count slice.now.task) }
        ensures runs_well { (events : List AnyEvent) (budget : AnyBudgets)
            → Stands self.old events → IsBudgetOf self.old.program (main_of self.old.program) budget
            → RunsWell self.old.program budget
            (events ++ steps_of slice.now.count slice.now.task) }
    {
        self.laws();
        let frame = slice.frame();
        if slice.count() == 0 {
            return;
        }
        let task = slice.task();
        self.store.put_frame(task, frame);
        say_stand(&mut self.store, self.verified.program(), task, true);
        self.steps += u64::from(slice.count());
    }

    /// Does local instructions of a task that can step, in place, until the limit or the first other
    /// instruction. Answers how many. Each is a step of the task. In the parts that the view doesn't
    /// show, only the scopes that are recorded for tasks change.
    #[inline(always)]
    pub fn run_here(&mut self, task: u32, limit: u32) -> u32
        requires { live_can_step self.old.program self.old.live task ≡ true }
        ensures program { self.new.program ≡ self.old.program }
        ensures live { self.new.live
            ≡ with_live_frame self.old.live task (alive_at self.new.live task).frame }
        ensures local { locals (code_at self.old task) (frame_at self.old task) result
            ≡ Some (frame_at self.new task) }
        ensures most { result ≤ limit }
        ensures stops { result < limit
            → local_at (code_at self.old task) (frame_at self.new task) ≡ None }
        ensures unseen { self.new.unseen
            ≡ record self.old.unseen { stands = self.new.unseen.stands } }
        ensures steps { self.new.steps ≡ self.old.steps + result }
        ensures stands { (events : List AnyEvent) → Stands self.old events
            → Stands self.new (events ++ steps_of result task) }
        ensures runs_well { (events : List AnyEvent) (budget : AnyBudgets)
            → Stands self.old events → IsBudgetOf self.old.program (main_of self.old.program) budget
            → RunsWell self.old.program budget (events ++ steps_of result task) }
    {
        self.laws();
        let program = self.verified.program();
        let code = code(program, self.store.frame(task));
        let done = self.store.run_local(program, code, task, limit);
        // A task that has done one was at no scope.
        say_stand(&mut self.store, program, task, done == 0);
        self.steps += u64::from(done);
        done
    }
}
