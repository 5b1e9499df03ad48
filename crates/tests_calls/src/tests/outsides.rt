//! Gates and outsides of worked rows.

use std::sync::atomic::{AtomicU64, Ordering};
use sts_model::Event;
use sts_pool::{Gate, Outside};

/// Lets each worker in.
#[derive(Drop)]
pub struct Open;

impl Gate for Open {
    fn enter(&self, _worker: u32, _task: u32) {}
}

/// The events from outside of a run.
#[derive(Clone, Copy, Drop)]
pub enum Weather {
    Calm,
    /// An interrupt of this task, whenever there is room for it.
    Storm { task: u32 },
    /// An interrupt of this task before the first step.
    Gust { task: u32 },
    /// First `idle` interrupts of no task, and then an expiry of this scope, once the journal has
    /// `at` entries.
    Due { idle: u32, at: u64, scope: u32 },
}

impl Outside for Weather {
    ghost use Rattle.std.specs.Prelude.{⊤};

    // (any answer: the tests look at what comes of it)
    ghost gives = { λ before entries answer after. ⊤ };

    fn next(&mut self, journal_length: u64) -> Option<Event> {
        match *self {
            Weather::Calm => None,
            Weather::Storm { task } => Some(Event::Interrupt(task)),
            Weather::Gust { task } => {
                *self = Weather::Calm;
                Some(Event::Interrupt(task))
            }
            Weather::Due { idle, at, scope } if idle > 0 => {
                *self = Weather::Due {
                    idle: idle - 1,
                    at,
                    scope,
                };
                Some(Event::Interrupt(77))
            }
            Weather::Due {
                idle: _,
                at,
                scope: _,
            } if journal_length < at => None,
            Weather::Due {
                idle: _,
                at: _,
                scope,
            } => {
                *self = Weather::Calm;
                Some(Event::Expire(scope))
            }
        }
    }
}

/// Hands on the events of a weather, and counts them.
#[derive(Drop)]
pub struct Counted<'g> {
    pub weather: Weather,
    pub came: &'g AtomicU64,
}

impl Outside for Counted<'_> {
    ghost use Rattle.std.specs.Prelude.{⊤};

    // (any answer: the tests look at what comes of it)
    ghost gives = { λ before entries answer after. ⊤ };

    fn next(&mut self, journal_length: u64) -> Option<Event> {
        let event = self.weather.next(journal_length);
        if event.is_some() {
            self.came.fetch_add(1, Ordering::SeqCst);
        }
        event
    }
}
