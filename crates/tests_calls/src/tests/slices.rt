//! Work that is done with no lock held.

use super::outsides::{Open, Weather};
use super::paths::{PATHS, ending};
use super::rows::compare;
use super::texts::{LATE, LOOPS, MANY_ROWS, SHORT_THEN_LONG};
use std::sync::atomic::{AtomicU64, Ordering};
use std::time::CpuClock;
use sts_model::{End, Event};
use sts_pool::{Gate, Outside};

/// How often a worker that is held looks at a counter.
const LOOKS: u32 = 1_000_000_000;

/// Gives no event, and notes the most that the journal has grown between two questions.
#[derive(Drop)]
struct Leaps<'g> {
    greatest: &'g AtomicU64,
    last: u64,
}

impl Outside for Leaps<'_> {
    ghost use Rattle.std.specs.Prelude.{⊤};

    // (any answer: the tests look at what comes of it)
    ghost gives = { λ before entries answer after. ⊤ };

    fn next(&mut self, journal_length: u64) -> Option<Event> {
        let leap = journal_length.saturating_sub(self.last);
        self.last = journal_length;
        if leap > self.greatest.load(Ordering::SeqCst) {
            self.greatest.store(leap, Ordering::SeqCst);
        }
        None
    }
}

/// A worker that does a step by a turn is asked before it, so the journal grows by one entry. Local
/// steps in place come at most 1,024 at once. The steps of a slice come all at once.
#[test]
fn steps_of_a_slice_come_at_once(rt: HostRuntime) {
    for path in PATHS {
        let greatest = AtomicU64::new(0);
        let leaps = Leaps {
            greatest: &greatest,
            last: 0,
        };
        let ended = ending(&rt, rt.alloc(), path, LOOPS, 1, &Open, leaps);
        let is_whole = greatest.load(Ordering::SeqCst) >= 32_768;
        let found = (ended.end, ended.steps, is_whole);
        compare(&rt, path, found, (End::Success(20_000), 100_017, true));
    }
}

/// Holds a worker until a counter is over a number. If this takes too long, it is noted.
fn hold(counter: &AtomicU64, over: u64, missed: &AtomicU64) {
    for _ in 0..LOOKS {
        if counter.load(Ordering::SeqCst) > over {
            return;
        }
    }
    missed.store(1, Ordering::SeqCst);
}

/// Holds the second entry for each of two subtasks until both have had a second entry.
#[derive(Drop)]
struct Both {
    first: AtomicU64,
    second: AtomicU64,
    missed: AtomicU64,
}

impl Both {
    fn new() -> Both {
        Both {
            first: AtomicU64::new(0),
            second: AtomicU64::new(0),
            missed: AtomicU64::new(0),
        }
    }
}

impl Gate for Both {
    fn enter(&self, _worker: u32, task: u32) {
        if task == 0 || task > 2 {
            return;
        }
        let (own, other) = if task == 1 {
            (&self.first, &self.second)
        } else {
            (&self.second, &self.first)
        };
        if own.fetch_add(1, Ordering::SeqCst) == 1 {
            hold(other, 1, &self.missed);
        }
    }
}

/// A worker enters for a subtask a second time when it has taken its slice: both slices are out at
/// once.
#[test]
fn two_slices_are_out_at_once(rt: HostRuntime) {
    for path in PATHS {
        let both = Both::new();
        let ended = ending(&rt, rt.alloc(), path, LOOPS, 2, &both, Weather::Calm);
        let first = both.first.load(Ordering::SeqCst);
        let second = both.second.load(Ordering::SeqCst);
        let have_met = first > 1 && second > 1 && both.missed.load(Ordering::SeqCst) == 0;
        compare(
            &rt,
            path,
            (ended.end, have_met),
            (End::Success(20_000), true),
        );
    }
}

/// Holds the third entry for the two long subtasks, and each entry after it, until a second worker
/// has entered for one of them.
#[derive(Drop)]
struct Return {
    first: AtomicU64,
    entries: AtomicU64,
    has_other: AtomicU64,
    missed: AtomicU64,
}

impl Return {
    fn new() -> Return {
        Return {
            first: AtomicU64::new(0),
            entries: AtomicU64::new(0),
            has_other: AtomicU64::new(0),
            missed: AtomicU64::new(0),
        }
    }
}

impl Gate for Return {
    fn enter(&self, worker: u32, task: u32) {
        if task < 101 {
            return;
        }
        let worker = u64::from(worker);
        if self.entries.fetch_add(1, Ordering::SeqCst) == 0 {
            self.first.store(worker, Ordering::SeqCst);
        }
        if self.first.load(Ordering::SeqCst) != worker {
            self.has_other.store(1, Ordering::SeqCst);
        }
        if self.entries.load(Ordering::SeqCst) < 3 || self.missed.load(Ordering::SeqCst) != 0 {
            return;
        }
        hold(&self.has_other, 0, &self.missed);
    }
}

/// After a row of short scopes one worker is enough, and the others sleep. A long enough slice
/// brings another one back.
#[test]
fn workers_come_back_to_long_subtasks(rt: HostRuntime) {
    for path in PATHS {
        let back = Return::new();
        let ended = ending(
            &rt,
            rt.alloc(),
            path,
            SHORT_THEN_LONG,
            2,
            &back,
            Weather::Calm,
        );
        let missed = back.missed.load(Ordering::SeqCst);
        let found = (ended.end, missed, back.has_other.load(Ordering::SeqCst));
        compare(&rt, path, found, (End::Success(3), 0, 1));
    }
}

/// Slices come in batches if many subtasks have rows that are long enough. Each slice of a batch
/// is taken back, also if another one goes on. Otherwise its task would stay out, and the run would
/// never end.
#[test]
fn all_slices_of_a_batch_come_back(rt: HostRuntime) {
    for path in PATHS {
        for workers in [2, 8, 16] {
            let calm = Weather::Calm;
            let ended = ending(&rt, rt.alloc(), path, MANY_ROWS, workers, &Open, calm);
            let found = (ended.end, ended.steps);
            compare(&rt, (path, workers), found, (End::Success(64), 116_550));
        }
    }
}

/// Adds up the processor time that the only worker uses between a question of the outside and the
/// gate behind it, and between the gate and the next question. In nanoseconds.
#[derive(Drop)]
struct Meter<'r, R> {
    rt: &'r R,
    last: AtomicU64,
    has_entered: AtomicU64,
    before: AtomicU64,
    behind: AtomicU64,
}

impl<R: CpuClock> Meter<'_, R> {
    /// The time that has passed since the last call.
    fn passed(&self) -> u64 {
        let now = self.rt.thread_cpu_time().map_or(0, |time| {
            let nanos = u64::from(time.subsec_nanos());
            time.as_secs()
                .saturating_mul(1_000_000_000)
                .saturating_add(nanos)
        });
        now.saturating_sub(self.last.swap(now, Ordering::SeqCst))
    }
}

impl<R: CpuClock> Gate for Meter<'_, R> {
    fn enter(&self, _worker: u32, _task: u32) {
        self.before.fetch_add(self.passed(), Ordering::SeqCst);
        self.has_entered.store(1, Ordering::SeqCst);
    }
}

/// Gives no event, and notes the time behind the gate.
#[derive(Drop)]
struct Questions<'m, 'r, R> {
    meter: &'m Meter<'r, R>,
}

impl<R: CpuClock> Outside for Questions<'_, '_, R> {
    ghost use Rattle.std.specs.Prelude.{⊤};

    // (any answer: the tests look at what comes of it)
    ghost gives = { λ before entries answer after. ⊤ };

    fn next(&mut self, _journal_length: u64) -> Option<Event> {
        let passed = self.meter.passed();
        if self.meter.has_entered.swap(0, Ordering::SeqCst) == 1 {
            self.meter.behind.fetch_add(passed, Ordering::SeqCst);
        }
        None
    }
}

/// A worker passes the gate before it works on a slice. Only its time shows that: nearly all of it
/// passes between the gate and the next question.
#[test]
fn the_gate_is_before_a_slice(rt: HostRuntime) {
    for path in PATHS {
        let meter = Meter {
            rt: &rt,
            last: AtomicU64::new(0),
            has_entered: AtomicU64::new(0),
            before: AtomicU64::new(0),
            behind: AtomicU64::new(0),
        };
        let questions = Questions { meter: &meter };
        let ended = ending(&rt, rt.alloc(), path, LATE, 1, &meter, questions);
        let before = meter.before.load(Ordering::SeqCst);
        let behind = meter.behind.load(Ordering::SeqCst);
        let row = (path, ("ns before", before), ("ns behind", behind));
        let found = (ended.end, before < behind / 2);
        compare(&rt, row, found, (End::Success(1), true));
    }
}
