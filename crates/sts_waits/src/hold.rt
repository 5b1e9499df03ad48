//! What a worker does at one hold of the lock.

ghost use Rattle.std.specs.Prelude.{◌≡◌, IfSome};

use crate::tasks::Tasks;
use crate::waits::Waits;
use crate::worker::{Held, Wake, Worker};

/// The next action of a worker that looks for a task.
enum Found {
    /// It works on this task.
    Task(u32),
    /// The worker looks again, or sleeps once it has looked often enough.
    Nothing,
    /// It sleeps.
    Left,
    /// It ends.
    End,
}

impl Waits {
    /// Does what a worker does at a hold of the lock, over the tasks of the run. `batch` has the
    /// slices that the worker brings back, and those that it takes.
    pub fn hold<T: Tasks>(&mut self, tasks: &mut T, worker: Worker, batch: &mut T::Batch) -> Held
        ensures ended { result.worker ≡ Worker.Ended → result.wake ≡ Wake.All }
    {
        if worker == Worker::Ended {
            return Held::last();
        }
        if let Some(task) = self.works(tasks, worker, batch) {
            if let Some(held) = self.lend(tasks, task, batch) {
                return held;
            }
        }
        let looks = match worker {
            Worker::Looking(looks) => looks.saturating_add(1),
            _ => 0,
        };
        self.find(tasks, looks)
    }

    /// Does a worker's steps under the lock. Answers with a task whose slice is to be taken, if there
    /// is one.
    #[inline(always)]
    fn works<T: Tasks>(
        &mut self,
        tasks: &mut T,
        worker: Worker,
        batch: &mut T::Batch,
    ) -> Option<u32> {
        match worker {
            Worker::Claiming(task) => {
                tasks.release(task);
                if self.has_stopped || !self.has_long_row(tasks, task) {
                    return None;
                }
                Some(task)
            }
            Worker::Out { slices, .. } => self.take_back_all(tasks, slices, batch),
            Worker::New => {
                self.comes();
                None
            }
            Worker::Asleep => {
                self.rises();
                None
            }
            Worker::Looking(_) | Worker::Ended => None,
        }
    }

    /// Finds a task to work on for a worker that has looked `looks` times before. If there is none,
    /// the worker looks again, sleeps, or ends. A worker sleeps only by this function.
    fn find<T: Tasks>(&mut self, tasks: &mut T, looks: u32) -> Held
        ensures { result.worker ≡ Worker.Ended → result.wake ≡ Wake.All }
    {
        match self.look(tasks) {
            Found::End => Held::last(),
            Found::Task(task) => Held {
                worker: Worker::Claiming(task),
                wake: self.wake(tasks),
            },
            Found::Nothing if looks < self.limits.looks => Held::quiet(Worker::Looking(looks)),
            Found::Nothing | Found::Left => {
                self.sleeps();
                Held::quiet(Worker::Asleep)
            }
        }
    }

    /// Looks for a task.
    fn look<T: Tasks>(&mut self, tasks: &mut T) -> Found {
        tasks.ask();
        if self.has_stopped || tasks.has_ended() {
            return Found::End;
        }
        if self.leaves() {
            return Found::Left;
        }
        let Some(task) = tasks.claim() else {
            return if self.wants_several() {
                Found::Nothing
            } else {
                Found::Left
            };
        };
        self.claims();
        Found::Task(task)
    }

    /// Is there work for another worker, too?
    pub fn wants_another<T: Tasks>(&self, tasks: &T) -> bool {
        self.wants_several() && tasks.has_more()
    }

    /// Whom a worker wakes that has got work: another one, if there is work for it.
    fn wake<T: Tasks>(&self, tasks: &T) -> Wake {
        if self.wants_another(tasks) {
            Wake::Another
        } else {
            Wake::Nobody
        }
    }

    /// Does a task's steps under the lock: turns, and local instructions in place behind some turns
    /// in a row. Answers whether a slice of the task is to be taken, since it has a long row of local
    /// instructions. If not, the task can't step, or it had its share of this hold.
    #[inline(always)]
    fn has_long_row<T: Tasks>(&mut self, tasks: &mut T, task: u32) -> bool {
        let mut left = self.in_a_hold();
        let mut turns = self.limits.in_a_row;
        while left > 0 {
            if !tasks.turns(task, turns) {
                return false;
            }
            let limit = self.in_place(self.has_many(tasks, task));
            let done = tasks.run_here(task, limit);
            self.notes(tasks, task, done);
            if done == limit {
                return true;
            }
            left = left.saturating_sub(turns).saturating_sub(1 + done / 8);
            turns = self.turns_after(done);
        }
        false
    }

    /// Notes that a worker did `done` local instructions of a task in place.
    fn notes<T: Tasks>(&mut self, tasks: &T, task: u32, done: u32) {
        self.saw(done);
        if self.is_worth(done) {
            let has_other = tasks.has_other(task);
            self.ran(done, has_other);
        }
    }

    /// Can many tasks step whose rows of local instructions are worth a batch? A scope's subtasks are
    /// born one after the other, so this tests one that was born some time after this task.
    fn has_many<T: Tasks>(&self, tasks: &T, task: u32) -> bool {
        self.wants_batches() && tasks.is_at_hand(task.saturating_add(self.limits.many))
    }

    /// Takes a slice of a task, or slices of it and of those born next if many tasks can step. Answers
    /// `None` if none of them can.
    fn lend<T: Tasks>(&mut self, tasks: &mut T, task: u32, batch: &mut T::Batch) -> Option<Held>
        ensures { IfSome result (λ h. h.worker ≡ Worker.Ended → h.wake ≡ Wake.All) }
    {
        tasks.ask();
        let has_many = self.has_many(tasks, task);
        let most = if has_many { self.limits.in_a_batch } else { 1 };
        let end = task.saturating_add(most);
        let mut slices = 0u32;
        for task in task..end {
            if tasks.lend(task, batch) {
                slices = slices.saturating_add(1);
            }
        }
        if slices == 0 {
            return None;
        }
        self.next = end;
        self.lends(has_many);
        let wake = self.wake(tasks);
        let limit = self.at_once(slices);
        Some(Held {
            worker: Worker::Out { slices, limit },
            wake,
        })
    }

    /// Takes back the slice at a place of a batch, and does its task's steps under the lock. Returns
    /// the task if a slice of it is to be taken again. A slice of another run stops this one; none
    /// ever comes.
    #[inline(never)]
    fn take_back<T: Tasks>(
        &mut self,
        tasks: &mut T,
        batch: &T::Batch,
        place: u32,
        is_alone: bool,
    ) -> Option<u32> {
        let Some(slice) = tasks.take_in(batch, place) else {
            self.has_stopped = true;
            return None;
        };
        self.saw_in_slice(slice.done);
        if is_alone {
            let has_other = self.is_worth(slice.done) && tasks.has_other(slice.task);
            self.ran(slice.done, has_other);
        }
        if self.has_stopped || !self.has_long_row(tasks, slice.task) {
            return None;
        }
        Some(slice.task)
    }

    /// Takes back all slices, and does the steps of their tasks under the lock. Answers with a task
    /// whose slice is to be taken next, if there is one.
    fn take_back_all<T: Tasks>(
        &mut self,
        tasks: &mut T,
        slices: u32,
        batch: &mut T::Batch,
    ) -> Option<u32> {
        self.back();
        let is_alone = slices == 1;
        let mut next = None;
        for place in 0..slices {
            if let Some(task) = self.take_back(tasks, batch, place, is_alone) {
                next = Some(task);
            }
        }
        tasks.clear(batch);
        if next.is_none() && !is_alone && !self.has_stopped && self.has_many(tasks, self.next) {
            next = Some(self.next);
        }
        next
    }
}
