//! A storm of interrupts, counted in the journal and at its source.

use super::outsides::{Counted, Open, Weather};
use super::paths::{Outcome, PATHS, ending};
use super::rows::compare;
use super::texts::DOUBLES;
use std::sync::atomic::{AtomicU64, Ordering};
use sts_model::End;

/// What comes of `DOUBLES` in a storm: its 20 steps, and 4,096 interrupts.
const IN_A_STORM: Outcome = Outcome {
    end: End::Success(42),
    steps: 20,
    entries: 4116,
    idle: 4096,
};

/// An interrupt that comes whenever it may is asked for until 4,096 have come, and each is recorded
/// besides the steps. That holds for any number of workers, whether a journal is written or not.
#[test]
fn a_storm_comes_until_there_is_no_room(rt: HostRuntime) {
    for path in PATHS {
        for workers in [1, 2, 8, 16] {
            let came = AtomicU64::new(0);
            let storm = Counted {
                weather: Weather::Storm { task: 77 },
                came: &came,
            };
            let outcome = ending(&rt, rt.alloc(), path, DOUBLES, workers, &Open, storm);
            let found = (outcome, came.load(Ordering::SeqCst));
            compare(&rt, (path, workers), found, (IN_A_STORM, 4096));
        }
    }
}
