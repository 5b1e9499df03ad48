//! The questions that workers ask the outside once the root has ended.

use super::outsides::Open;
use super::paths::{Outcome, PATHS, Path, ending};
use super::rows::compare;
use super::texts::SEVEN;
use std::alloc::Global;
use std::process::Abort;
use std::sync::Wait;
use std::sync::atomic::{AtomicU64, Ordering};
use std::thread::Threads;
use sts_model::{End, Event};
use sts_pool::Outside;

/// The steps of `SEVEN`.
const STEPS: u64 = 2;

/// Gives one interrupt that is idle, at the question of this number after the last step.
#[derive(Drop)]
struct Late<'g> {
    at: u64,
    asked: u64,
    given: &'g AtomicU64,
}

impl Outside for Late<'_> {
    ghost use Rattle.std.specs.Prelude.{⊤};

    // (any answer: the tests look at what comes of it)
    ghost gives = { λ before entries answer after. ⊤ };

    fn next(&mut self, journal_length: u64) -> Option<Event> {
        if journal_length < STEPS {
            return None;
        }
        self.asked = self.asked.saturating_add(1);
        if self.asked != self.at {
            return None;
        }
        self.given.store(1, Ordering::SeqCst);
        Some(Event::Interrupt(77))
    }
}

/// The numbers of workers.
const WORKERS: [u32; 3] = [1, 2, 16];

/// The event is given at the questions with smaller numbers than this. 16 workers ask less often.
const QUESTIONS: u64 = 36;

/// Asks for the event at the question of this number, and compares what comes of it. One question is
/// always asked.
fn asks<R: Abort + Threads + Wait + Sync>(
    rt: &R,
    alloc: Global,
    path: Path,
    workers: u32,
    at: u64,
) {
    let given = AtomicU64::new(0);
    let late = Late {
        at,
        asked: 0,
        given: &given,
    };
    let outcome = ending(rt, alloc, path, SEVEN, workers, &Open, late);
    let idle = given.load(Ordering::SeqCst);
    let wanted = Outcome {
        end: End::Success(7),
        steps: STEPS,
        entries: STEPS.saturating_add(idle),
        idle,
    };
    let found = (outcome, idle == 1 || at > 1);
    compare(rt, (path, workers, at), found, (wanted, true));
}

/// An event that is given after the last step is in the journal, or is counted if none is written.
/// Whether one is asked for or not, the run is reported.
#[test]
fn an_event_after_the_last_step_is_recorded(rt: HostRuntime) {
    for path in PATHS {
        for workers in WORKERS {
            for at in 1..QUESTIONS {
                asks(&rt, rt.alloc(), path, workers, at);
            }
        }
    }
}
