//! Runs with several workers, with a journal and with none.

use super::outsides::Weather::{Calm, Due, Gust, Storm};
use super::outsides::{Open, Weather};
use super::paths::{Path, ending};
use super::rows::compare;
use super::texts::{BOUND, DOUBLES, LATE, LOOPED, ROWS, SEVEN, THOUSAND, TIMED, TURNS};
use std::alloc::Global;
use std::process::Abort;
use std::sync::Wait;
use std::thread::Threads;
use sts_model::End;
use sts_model::End::{Failed, Success};

/// The numbers of workers with which each text runs.
static WORKERS: [u32; 4] = [1, 2, 8, 16];

/// A text, the events from outside, and how many of them there are. Then come the ends that it may
/// have, and the number of its steps, if that is the same in each run.
struct Run(&'static str, Weather, u64, &'static [End], Option<u64>);

static RUNS: [Run; 14] = [
    Run(SEVEN, Calm, 0, &[Success(7)], Some(2)),
    Run(DOUBLES, Calm, 0, &[Success(42)], Some(20)),
    Run(THOUSAND, Calm, 0, &[Success(5)], Some(8004)),
    Run(BOUND, Calm, 0, &[Success(6)], Some(10)),
    Run(LOOPED, Calm, 0, &[Success(1)], Some(15)),
    Run(ROWS, Calm, 0, &[Success(1)], Some(30_367)),
    Run(TURNS, Calm, 0, &[Success(0)], Some(500_034)),
    Run(
        TIMED,
        Due {
            idle: 0,
            at: 1,
            scope: 0,
        },
        1,
        &[Success(2)],
        Some(6),
    ),
    // five entries that are idle and the first step are six
    Run(
        TIMED,
        Due {
            idle: 5,
            at: 6,
            scope: 0,
        },
        6,
        &[Success(2)],
        Some(6),
    ),
    // it comes while the subtask makes its own steps; a close that waits takes one step more
    Run(
        LATE,
        Due {
            idle: 0,
            at: 70_000,
            scope: 0,
        },
        1,
        &[Success(2)],
        None,
    ),
    Run(TIMED, Gust { task: 0 }, 1, &[Failed(0)], None),
    // events that are due when the root ends are recorded after its last step
    Run(
        SEVEN,
        Due {
            idle: 0,
            at: 2,
            scope: 0,
        },
        1,
        &[Success(7)],
        Some(2),
    ),
    Run(DOUBLES, Storm { task: 77 }, 4096, &[Success(42)], Some(20)),
    Run(
        DOUBLES,
        Storm { task: 0 },
        4096,
        &[Success(42), Failed(0)],
        None,
    ),
];

/// Runs a text with so many workers on a path. It has to end as it may, in as many steps. Its journal
/// has these steps and what came from outside.
fn ends<R: Abort + Threads + Wait + Sync>(
    rt: &R,
    alloc: Global,
    path: Path,
    row: &Run,
    workers: u32,
) {
    let name = row.0;
    let outcome = ending(rt, alloc, path, name, workers, &Open, row.1);
    let fits = row.3.contains(&outcome.end)
        && outcome.steps == row.4.unwrap_or(outcome.steps)
        && outcome.entries == outcome.steps.saturating_add(row.2);
    compare(rt, (path, workers, name, outcome), fits, true);
}

fn all_end<R: Abort + Threads + Wait + Sync>(rt: &R, alloc: Global, path: Path) {
    for row in &RUNS {
        for workers in &WORKERS {
            ends(rt, alloc, path, row, *workers);
        }
    }
}

#[test]
fn runs_end_alike_with_no_journal(rt: HostRuntime) {
    all_end(&rt, rt.alloc(), Path::Unwritten);
}

#[test]
fn runs_end_with_any_number_of_workers(rt: HostRuntime) {
    all_end(&rt, rt.alloc(), Path::Written);
}
