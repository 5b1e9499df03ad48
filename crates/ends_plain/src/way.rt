//! A state of the machine with the events that led to it.

ghost use Rattle.std.specs.Prelude.{◌≡◌, ◌++◌, ◌∷◌, [], IfOk, IfSome, OnOk};
ghost use Rattle.ends_search.specs.Search.{IsWay};
ghost use Rattle.ends_plain.specs.Configs.{next, can};
ghost use Rattle.ends_plain.specs.Listed.{IsShownBy};
ghost use Rattle.ends_plain.specs.declared.config.Config.{Config};
ghost use Rattle.ends_plain.specs.declared.config.Setting.{Setting};

use crate::config::{Config, Found, Setting};
use crate::ends::is_end_at;
use crate::trace::Trace;
use ends_search::machine::StateMachine;
use std::alloc::{AllocError, Global};
use sts_model::Event;

/// A state, and the events that led to it.
#[derive(Drop)]
pub struct Way {
    pub config: Config,
    pub trace: Trace,
}

impl Way {
    /// No events lead to the first state.
    ///
    /// # Errors
    ///
    /// There is no memory.
    pub fn begin(alloc: Global, first: &Config) -> Result<Way, AllocError>
        ensures config { IfOk result (λ way. way.config ≡ first.now) }
        ensures trace { IfOk result (λ way. way.trace ≡ []) }
    {
        let config = first.copied(alloc)?;
        Ok(Way {
            config,
            trace: Trace::new(alloc),
        })
    }

    /// Goes on by an event. After an `Err` the state isn't known.
    ///
    /// # Errors
    ///
    /// There is no memory.
    pub fn go(&mut self, alloc: Global, setting: &Setting, event: Event) -> Result<(), AllocError>
        ensures config { OnOk result
            (self.new.config ≡ next setting.now self.old.config event) }
        ensures trace { OnOk result (self.new.trace ≡ self.old.trace ++ event ∷ []) }
    {
        self.config.apply_event(alloc, setting, event)?;
        self.trace.push(event)?;
        Ok(())
    }

    /// The end that it leads to, if it leads to one.
    pub fn end(self) -> Option<Found>
        ensures { (g : Setting) → (first : Config)
            → IsWay (next g) (can g) first self.trace self.config
            → IfSome result (IsShownBy g first) }
    {
        let end = self.config.position.state();
        if is_end_at(end) {
            Some(Found {
                end,
                trace: self.trace,
            })
        } else {
            None
        }
    }
}
