//! The searches: small ones for each run of the gate, and large ones for `checks waits` alone.

use crate::run::Program;
use crate::search::explore;
use crate::state::{Seen, State};
use std::alloc::{AllocError, Global};

/// A search: its workers, what their tasks do, and whether the run may be stopped after any hold. And
/// what some schedule of it comes to.
pub struct Case {
    pub name: &'static str,
    workers: u32,
    program: Program,
    may_stop: bool,
    seen: Seen,
}

/// A number of steps that no run takes.
const NEVER: u32 = 1_000;

/// One worker wakes another, and leaves a task to another.
const CLAIMS: Seen = Seen {
    wakes: true,
    leaves: true,
    together: false,
    batch: false,
};

/// Two workers are out with slices at once, too.
const SLICES: Seen = Seen {
    wakes: true,
    leaves: true,
    together: true,
    batch: false,
};

/// A worker has two slices at once, too.
const BATCHES: Seen = Seen {
    wakes: true,
    leaves: true,
    together: true,
    batch: true,
};

/// A case in one line. Its program is given by its subtasks, their rounds, the steps of a row, and
/// when the event is due.
macro_rules! case {
    (
        $name:expr, $workers:expr, ($subtasks:expr, $rounds:expr, $row:expr, $due:expr),
        $may_stop:expr, $seen:expr
    ) => {
        Case {
            name: $name,
            workers: $workers,
            program: Program {
                subtasks: $subtasks,
                rounds: $rounds,
                row: $row,
                due: $due,
            },
            may_stop: $may_stop,
            seen: $seen,
        }
    };
}

/// The searches that take the fast program no second. Rows are long or too short for slices, a run may
/// be stopped, and an event from outside ends a join.
pub const SMALL: &[Case] = &[
    case!("long rows", 3, (2, 1, 8, NEVER), false, BATCHES),
    case!("short rows", 2, (2, 2, 1, NEVER), false, CLAIMS),
    case!("a stop", 2, (2, 1, 4, NEVER), true, SLICES),
    case!("an event from outside", 2, (2, 1, 4, 12), false, SLICES),
];

/// The searches that take the fast program some seconds.
pub const LARGE: &[Case] = &[
    case!("three subtasks", 3, (3, 1, 8, NEVER), false, BATCHES),
    case!("two rounds", 3, (3, 2, 8, NEVER), false, BATCHES),
    case!(
        "three rounds of short rows",
        3,
        (3, 3, 1, NEVER),
        false,
        CLAIMS
    ),
    case!(
        "three subtasks and an event",
        3,
        (3, 1, 8, 20),
        false,
        BATCHES
    ),
    case!(
        "three workers and a stop",
        3,
        (2, 1, 8, NEVER),
        true,
        BATCHES
    ),
];

impl Case {
    /// Searches all schedules. Returns how many states there are, and what is wrong, if something is.
    pub fn run(&self, alloc: Global) -> Result<(usize, Option<&'static str>), AllocError> {
        let first = State::new(&self.program, self.workers, self.may_stop);
        let found = explore(alloc, &first)?;
        Ok((found.states, found.bad.or(found.seen.differs(&self.seen))))
    }
}
