//! The input of a search, and its answers.

ghost use Rattle.std.specs.Prelude.{◌≡◌, OnOk, IfOk};

use crate::trace::Trace;
use std::alloc::{AllocError, Global};
use sts_code::Program;
use sts_model::Event;
use sts_plain::{PlainState, Position};

/// A program, and the outside events that may come: whether timed scopes may expire, and how many
/// interrupts of living tasks may come.
#[derive(Drop)]
pub struct Setting {
    pub program: Program,
    pub expiries: bool,
    pub interrupts: u32,
}

/// What a search is asked. An exact search tells all states apart. Another one may take two states
/// for one that differ only by birth numbers.
#[derive(Drop)]
pub struct Asked {
    pub setting: Setting,
    pub exact: bool,
    /// This number of own steps at most follow an event at once, with no state between.
    pub own_steps: u32,
}

/// A state of the machine, and how many interrupts may still come.
#[derive(Drop)]
pub struct Config {
    pub position: Position,
    pub left: u32,
}

impl Config {
    ghost use Rattle.ends_plain.specs.Configs.{next, start};

    /// The first state of a search.
    ///
    /// # Errors
    ///
    /// There is no memory.
    pub fn start(alloc: Global, setting: &Setting) -> Result<Config, AllocError>
        ensures { IfOk result (λ c. c ≡ start setting.now) }
    {
        Ok(Config {
            position: Position::opening(alloc, &setting.program)?,
            left: setting.interrupts,
        })
    }

    /// Applies one event. After an `Err` the state isn't known.
    ///
    /// # Errors
    ///
    /// There is no memory.
    pub fn apply_event(
        &mut self,
        alloc: Global,
        setting: &Setting,
        event: Event,
    ) -> Result<(), AllocError>
        ensures { OnOk result (self.new ≡ next setting.now self.old event) }
    {
        self.position.apply(alloc, &setting.program, event)?;
        if matches!(event, Event::Interrupt(_)) {
            self.left = self.left.saturating_sub(1);
        }
        Ok(())
    }
}

/// An end, and events that lead to it.
#[derive(Drop)]
pub struct Found {
    pub end: PlainState,
    pub trace: Trace,
}

/// The ends that were found, each once, among `states` states. If `whole` is true, these are the
/// ends of all schedules.
#[derive(Drop)]
pub struct EndsFound {
    pub found: Vec<Found>,
    pub states: usize,
    pub whole: bool,
}
