//! Decides which workers sleep and which wake another. No other crate decides that.
//!
//! A worker *waits* for the lock, *works* under it, is *out* with slices or at the gate, *sleeps*, or
//! has ended. The numbers below are read and written only under the lock, in the hold in which the
//! worker looks for a task. `Condvar::wait` gives the lock up and sleeps in one step.
//!
//! Why the workers never all sleep while a task is left:
//!
//! 1. `awake` is the number of workers that have come and neither sleep nor are out with slices.
//!    `lends` and `sleeps` take one away, `comes`, `back` and `rises` add one. Each is called in the
//!    hold that makes the change, once for all slices of a batch. A worker that is new or woken counts
//!    once it has the lock.
//!
//! 2. A worker sleeps only in a hold in which it saw that no task is left, or that `leaves` holds.
//!    In the second case another worker is awake.
//!
//! 3. A worker that is awake takes the lock and looks for a task once more before it sleeps. A
//!    worker that is out with slices is counted again when it brings them back.
//!
//! 4. So the last worker that is awake sleeps only if no task is left. Only a step or an event from
//!    outside makes a task left again. A worker does these under the lock, and is awake then.
//!
//! 5. So the run goes on even if no worker ever wakes another. Wake-ups matter to its end: a worker
//!    that sees the end or the stop wakes all, under the lock. A worker that sleeps later has looked
//!    for both first.
//!
//! `tests_waits` searches every schedule of three workers for a state that contradicts this.

ghost use Rattle.std.specs.Prelude.{◌≡◌};

use crate::limits::Limits;
use crate::worker::Wake;

/// The numbers that workers share under the lock. How many workers there are, have reached the lock,
/// and are awake with no slice out. How many tasks several workers may still claim at once. The longest
/// row of local instructions that was seen since the last claim, and a mean of late rows. The task that
/// was born behind those of the last slices. And whether the run is stopped.
#[derive(Clone, Copy, PartialEq, Eq, Hash)]
pub struct Waits {
    pub(crate) limits: Limits,
    workers: u32,
    came: u32,
    awake: u32,
    tries: u32,
    row: u32,
    mean: u32,
    pub(crate) next: u32,
    pub(crate) has_stopped: bool,
}

impl Waits {
    /// The state before the first of `workers` workers has come.
    pub fn new(workers: u32, limits: Limits) -> Waits {
        Waits {
            limits,
            workers,
            came: 0,
            awake: 0,
            tries: 0,
            row: 0,
            mean: 0,
            next: 0,
            has_stopped: false,
        }
    }

    /// How many workers have reached the lock.
    pub fn came(&self) -> u32 {
        self.came
    }

    /// How many workers are awake with no slice out.
    pub fn awake(&self) -> u32 {
        self.awake
    }

    /// Was the run stopped?
    pub fn has_stopped(&self) -> bool {
        self.has_stopped
    }

    /// Makes each worker end at its next hold. All have to be woken.
    pub fn stop(&mut self) -> Wake
        ensures { result ≡ Wake.All }
    {
        self.has_stopped = true;
        Wake::All
    }

    /// Takes a row of `done` local instructions into the mean, as a quarter of it.
    fn averages(&mut self, done: u32) {
        let most = self.limits.long_row.saturating_mul(2);
        self.mean = self.mean - self.mean / 4 + done.min(most) / 4;
    }

    /// A worker saw a row of `done` local instructions in place.
    pub(crate) fn saw(&mut self, done: u32) {
        self.row = self.row.max(done);
    }

    /// A worker did `done` local instructions of a slice.
    pub(crate) fn saw_in_slice(&mut self, done: u32) {
        if self.wants_batches() {
            self.averages(done);
        } else {
            self.saw(done);
        }
    }

    /// Are rows so long that batches of slices are worth it, and so short that single slices aren't?
    pub(crate) fn wants_batches(&self) -> bool {
        self.workers > 1 && self.mean >= self.limits.least_row && self.mean < self.limits.long_row
    }

    /// A worker has the lock for the first time.
    pub(crate) fn comes(&mut self) {
        self.came = self.came.saturating_add(1);
        self.awake = self.awake.saturating_add(1);
        self.calls_several();
    }

    /// Lets several workers claim tasks, if there are several.
    fn calls_several(&mut self) {
        if self.workers > 1 {
            self.tries = self.limits.tries;
        }
    }

    /// Should the worker leave the remaining tasks to another worker that is awake?
    pub(crate) fn leaves(&self) -> bool {
        self.tries == 0 && self.awake > 1
    }

    /// May several workers claim tasks? If so, a worker that claims a task or takes a slice wakes
    /// another if a task is left. A worker that finds none looks again for a while before it
    /// sleeps.
    pub(crate) fn wants_several(&self) -> bool {
        self.tries > 0
    }

    /// A worker claimed a task. Only several workers need the mean.
    pub(crate) fn claims(&mut self) {
        self.tries = self.tries.saturating_sub(1);
        if self.workers > 1 {
            self.averages(self.row);
        }
        self.row = 0;
    }

    /// A worker goes out with a slice, or with a batch if many tasks can step.
    pub(crate) fn lends(&mut self, has_many: bool) {
        self.awake = self.awake.saturating_sub(1);
        if has_many {
            self.calls_several();
        }
    }

    /// A worker is back with its slices.
    pub(crate) fn back(&mut self) {
        self.awake = self.awake.saturating_add(1);
    }

    /// A worker did `done` local instructions in a row. `has_other` says whether another task could
    /// step meanwhile, or was out.
    pub(crate) fn ran(&mut self, done: u32, has_other: bool) {
        if !self.is_worth(done) {
            self.tries = self.tries.saturating_sub(1);
        } else if has_other {
            self.calls_several();
        }
    }

    /// A worker is about to sleep.
    pub(crate) fn sleeps(&mut self) {
        self.awake = self.awake.saturating_sub(1);
    }

    /// A worker that slept has the lock.
    pub(crate) fn rises(&mut self) {
        self.awake = self.awake.saturating_add(1);
    }

    /// The limit for the local instructions that a worker does in a row under the lock. If the task
    /// has more, a slice of it is taken. `has_many` says whether a batch may be taken.
    pub(crate) fn in_place(&self, has_many: bool) -> u32 {
        if has_many || self.wants_several() {
            self.limits.in_place_for_several
        } else {
            self.limits.in_place
        }
    }

    /// The limit for the turns of a worker under one hold of the lock.
    pub(crate) fn in_a_hold(&self) -> u32 {
        if self.wants_several() {
            self.limits.in_a_hold_for_several
        } else {
            self.limits.in_a_hold
        }
    }

    /// Is a row of `done` local instructions long enough to justify waking another worker?
    pub(crate) fn is_worth(&self, done: u32) -> bool {
        done >= self.limits.worth
    }

    /// The number of turns before local instructions are done in place again. It is one after a row
    /// of many of them.
    pub(crate) fn turns_after(&self, done: u32) -> u32 {
        if done < self.limits.in_a_row {
            self.limits.in_a_row
        } else {
            1
        }
    }

    /// The limit for the local instructions that a worker does in each of its slices, with no lock
    /// held.
    pub(crate) fn at_once(&self, slices: u32) -> u32 {
        if slices > 1 {
            self.limits.at_once_in_a_batch
        } else {
            self.limits.at_once
        }
    }
}
