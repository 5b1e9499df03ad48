//! Workers that work at the same time, each on a task that it took out.

use super::outsides::Weather;
use super::paths::{PATHS, Path, count, ending};
use super::rows::compare;
use super::texts::{DOUBLES, GREETED, LOOP, TIMED, WIDE, accepted};
use std::alloc::Global;
use std::process::Abort;
use std::sync::Wait;
use std::sync::atomic::{AtomicU64, Ordering};
use std::thread;
use std::thread::Threads;
use sts_model::{End, Event};
use sts_pool::{Gate, Outside, run};

/// How often a held worker looks whether it may go on.
const LOOKS: u32 = 10_000_000;

/// Holds the workers that enter for a subtask until this many have entered. Worker N sets bit N.
#[derive(Drop)]
struct Meeting {
    workers: u32,
    entered: AtomicU64,
}

impl Meeting {
    fn of(workers: u32) -> Meeting {
        Meeting {
            workers,
            entered: AtomicU64::new(0),
        }
    }

    fn has_met(&self) -> bool {
        self.entered.load(Ordering::SeqCst).count_ones() >= self.workers
    }
}

impl Gate for Meeting {
    fn enter(&self, worker: u32, task: u32) {
        if task == 0 {
            return;
        }
        self.entered.fetch_or(1 << (worker % 64), Ordering::SeqCst);
        for _ in 0..LOOKS {
            if self.has_met() {
                break;
            }
            thread::yield_now();
        }
    }
}

/// Interrupts the task `before` if it is asked before the workers had met, and the task `after`
/// once they have.
#[derive(Drop)]
struct Herald<'g> {
    meeting: &'g Meeting,
    before: u32,
    after: u32,
    asked: bool,
    told: bool,
}

impl<'g> Herald<'g> {
    fn new(meeting: &'g Meeting, before: u32, after: u32) -> Herald<'g> {
        Herald {
            meeting,
            before,
            after,
            asked: false,
            told: false,
        }
    }
}

impl Outside for Herald<'_> {
    ghost use Rattle.std.specs.Prelude.{⊤};

    // (any answer: the tests look at what comes of it)
    ghost gives = { λ before entries answer after. ⊤ };

    fn next(&mut self, _journal_length: u64) -> Option<Event> {
        let first = !self.asked;
        self.asked = true;
        if !self.meeting.has_met() {
            return if first {
                Some(Event::Interrupt(self.before))
            } else {
                None
            };
        }
        if self.told {
            return None;
        }
        self.told = true;
        Some(Event::Interrupt(self.after))
    }
}

/// One worker that does all waits in vain. A book that was made or run before or after the workers
/// lacks one of the two events.
#[test]
fn two_workers_meet(rt: HostRuntime) {
    let verified = accepted(&rt, rt.alloc(), DOUBLES);
    let meeting = Meeting::of(2);
    let herald = Herald::new(&meeting, 76, 77);
    let report = run(&rt, rt.alloc(), &verified, 2, &meeting, herald).expect(&rt, "a run");
    let journal = report.journal.as_slice();
    let came = [
        count(journal, Event::Interrupt(76)),
        count(journal, Event::Interrupt(77)),
    ];
    let found = (meeting.has_met(), report.end, came);
    compare(&rt, "two workers", found, (true, End::Success(42), [1, 1]));
}

/// Tests the same with an end that shows both events, so that no journal is needed.
#[test]
fn two_workers_meet_and_the_end_tells_of_it(rt: HostRuntime) {
    for path in PATHS {
        let meeting = Meeting::of(2);
        let herald = Herald::new(&meeting, 0, 0);
        let ended = ending(&rt, rt.alloc(), path, GREETED, 2, &meeting, herald);
        let found = (meeting.has_met(), ended.end);
        compare(&rt, path, found, (true, End::Success(11)));
    }
}

/// As many workers as are asked for each hold a subtask at once.
#[test]
fn all_workers_meet(rt: HostRuntime) {
    for path in PATHS {
        for workers in [1, 2, 3, 5, 16] {
            let meeting = Meeting::of(workers);
            let ended = ending(
                &rt,
                rt.alloc(),
                path,
                WIDE,
                workers,
                &meeting,
                Weather::Calm,
            );
            let found = (meeting.has_met(), ended.end);
            compare(&rt, (path, workers), found, (true, End::Success(1)));
        }
    }
}

/// Counts the entries for task 1, and holds the first until there is a second.
#[derive(Drop)]
struct Holding {
    entries: AtomicU64,
}

impl Gate for Holding {
    fn enter(&self, _worker: u32, task: u32) {
        if task != 1 || self.entries.fetch_add(1, Ordering::SeqCst) != 0 {
            return;
        }
        for _ in 0..LOOKS {
            if self.entries.load(Ordering::SeqCst) > 1 {
                break;
            }
        }
    }
}

/// Returns how a run by two workers ends, its steps, and how often a worker entered for the first
/// subtask. The first to enter is held.
fn held<R: Abort + Threads + Wait + Sync>(
    rt: &R,
    alloc: Global,
    path: Path,
    text: &str,
) -> (End, u64, u64) {
    let holding = Holding {
        entries: AtomicU64::new(0),
    };
    let ended = ending(rt, alloc, path, text, 2, &holding, Weather::Calm);
    (
        ended.end,
        ended.steps,
        holding.entries.load(Ordering::SeqCst),
    )
}

/// A subtask of two steps is worked on once: no other worker takes it while it is out, and the
/// worker that took it does both. Both are done under the lock, so this shows nothing of slices.
/// `a_long_subtask_is_out_once` does.
#[test]
fn out_is_out(rt: HostRuntime) {
    for path in PATHS {
        let (end, _, entries) = held(&rt, rt.alloc(), path, TIMED);
        compare(&rt, path, (end, entries), (End::Success(1), 1));
    }
}

/// A worker works twice on a subtask of fifty thousand steps of its own, once under the lock and
/// once without it. If slices did nothing, or fewer instructions, the worker would reach the gate
/// again.
#[test]
fn a_long_subtask_is_out_once(rt: HostRuntime) {
    for path in PATHS {
        let found = held(&rt, rt.alloc(), path, LOOP);
        compare(&rt, path, found, (End::Success(10_000), 50_011, 2));
    }
}
