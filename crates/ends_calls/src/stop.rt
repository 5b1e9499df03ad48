//! States of runs, and the events that led there.

ghost use Rattle.std.specs.Prelude.{◌≡◌, IfOk};

use ends_plain::config::{Config, Found};
use ends_plain::trace::Trace;
use ends_player::mark::Mark;
use ends_search::machine::StateMachine;
use std::alloc::{AllocError, Global};

/// A state of a run, and the events that led there.
#[derive(Drop)]
pub struct Stop {
    pub config: Config,
    pub trace: Trace,
}

/// The beginning of a run, with which other runs can go on.
#[derive(Drop)]
pub struct Shared {
    pub stop: Stop,
    pub mark: Mark,
}

/// The end that a run came to, if it came to one, and a beginning for further runs.
#[derive(Drop)]
pub struct Traced {
    pub found: Option<Found>,
    pub shared: Option<Shared>,
}

impl Stop {
    /// A copy.
    ///
    /// # Errors
    ///
    /// There is no memory.
    pub fn copied(&self, alloc: Global) -> Result<Stop, AllocError>
        ensures { IfOk result (λ stop. stop ≡ self.now) }
    {
        Ok(Stop {
            config: self.config.copied(alloc)?,
            trace: self.trace.copied(alloc)?,
        })
    }
}
