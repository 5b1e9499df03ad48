//! The states that a row lacks, gathered over several steps.

ghost use Rattle.std.specs.Prelude.{◌≡◌, ◌≢◌, [], OnOk};
ghost use Rattle.std.specs.Result.{IsOk};

use crate::stop::Stop;
use laws_calls::table::Own;
use std::alloc::{AllocError, Global};

/// States that a row lacks.
#[derive(Drop)]
pub struct Missing {
    states: Vec<Own>,
}

impl Missing {
    /// No states.
    pub fn new(alloc: Global) -> Missing
        ensures { result.states.items ≡ [] }
    {
        Missing {
            states: Vec::new(alloc),
        }
    }

    /// Keeps the states that the row lacks for a step. Other errors are returned.
    pub fn note(&mut self, step: Result<(), Stop>) -> Result<(), Stop>
        ensures before { OnOk result (self.new.states.items ≡ [] → self.old.states.items ≡ []) }
        ensures step { OnOk result (self.new.states.items ≡ [] → IsOk step) }
    {
        match step {
            Ok(()) => Ok(()),
            Err(Stop::State(own)) => Ok(self.keep(own)?),
            Err(Stop::States(list)) => self.keep_all(list),
            Err(other) => Err(other),
        }
    }

    /// Keeps a state.
    fn keep(&mut self, own: Own) -> Result<(), AllocError>
        ensures { OnOk result (self.new.states.items ≢ []) }
    {
        self.states.push(own)?;
        Ok(())
    }

    /// Appends states.
    fn push_all(&mut self, list: Vec<Own>) -> Result<(), AllocError> {
        for own in list {
            self.states.push(own)?;
        }
        Ok(())
    }

    /// Keeps states.
    fn keep_all(&mut self, list: Vec<Own>) -> Result<(), Stop>
        ensures { OnOk result (self.new.states.items ≢ []) }
    {
        self.push_all(list)?;
        if self.states.is_empty() {
            return Err(Stop::Unknown);
        }
        Ok(())
    }

    /// The row lacks none, or the error has those that it lacks.
    pub fn none(self) -> Result<(), Stop>
        ensures { OnOk result (self.states.items ≡ []) }
    {
        if self.states.is_empty() {
            Ok(())
        } else {
            Err(Stop::States(self.states))
        }
    }
}
