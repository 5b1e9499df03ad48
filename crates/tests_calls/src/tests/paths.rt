//! The two ways of a run: with its journal written, and with none.

use super::texts::accepted;
use std::alloc::Global;
use std::process::Abort;
use std::sync::Wait;
use std::thread::Threads;
use sts_model::{End, Event};
use sts_pool::{Gate, Outside, Report, run, run_with_journal};

/// Is the journal of a run written?
#[derive(Clone, Copy, Debug)]
pub enum Path {
    Written,
    Unwritten,
}

pub static PATHS: [Path; 2] = [Path::Written, Path::Unwritten];

/// An interrupt of a task that no text has.
const NOBODY: Event = Event::Interrupt(77);

/// What came of a run.
#[derive(Clone, Copy, Debug, PartialEq)]
pub struct Outcome {
    pub end: End,
    pub steps: u64,
    /// How many entries its journal has, or would have if it were written.
    pub entries: u64,
    /// How many of them are interrupts of `NOBODY`, or events from outside that didn't count if
    /// no journal is written.
    pub idle: u64,
}

/// Returns how often a journal has an event.
pub fn count(journal: &[Event], event: Event) -> u64 {
    journal.iter().filter(|e| **e == event).count() as u64
}

/// Returns what came of a run that was reported.
fn reported(report: &Report) -> Outcome {
    Outcome {
        end: report.end,
        steps: report.steps,
        entries: report.journal.len() as u64,
        idle: count(report.journal.as_slice(), NOBODY),
    }
}

/// Returns what came of a run whose journal wasn't written.
fn counted(report: &Report) -> Outcome {
    let came = report.counted.len() as u64;
    Outcome {
        end: report.end,
        steps: report.steps,
        entries: report.steps.saturating_add(came),
        idle: report.counted.iter().filter(|counts| !**counts).count() as u64,
    }
}

/// Returns what came of a run of a text on its path with this number of workers.
pub fn ending<R: Abort + Threads + Wait + Sync, G: Gate + Sync, O: Outside + Send + Drop>(
    rt: &R,
    alloc: Global,
    path: Path,
    text: &str,
    workers: u32,
    gate: &G,
    outside: O,
) -> Outcome {
    assert!(rt; 1 <= workers && workers <= 16);
    let verified = accepted(rt, alloc, text);
    match path {
        Path::Written => {
            let ran = run(rt, alloc, &verified, workers, gate, outside);
            reported(&ran.expect(rt, "a run"))
        }
        Path::Unwritten => {
            let ran = run_with_journal(rt, alloc, &verified, workers, gate, outside, false);
            counted(&ran.expect(rt, "a run"))
        }
    }
}
