//! Lists of events that keep equal neighbours as one.

ghost use Rattle.std.specs.Prelude.{◌≡◌, ◌++◌, ◌∷◌, [], IfOk, OnOk, length, replicate};

use std::alloc::{AllocError, Global};
use std::marker::Model;
use sts_model::Event;

/// Some equal events, one after the other.
#[derive(Clone, Copy)]
pub struct Run {
    event: Event,
    count: u32,
}

/// A list of events. Contracts see the list.
#[derive(Drop)]
pub struct Trace {
    runs: Vec<Run>,
    /// The run that comes after these.
    last: Run,
    /// The number of events.
    len: usize,
}

impl Model for Trace {
    ghost use Rattle.std.specs.Prelude.{◌≡◌, List, length};
    ghost use Rattle.sts_model.specs.declared.event.Event.{Event};
    ghost use Rattle.ends_plain.specs.Traces.{events_of};

    ghost Value = { List Event };

    ghost view = { λ t. events_of t.runs.items t.last };

    ghost invariant = { λ t. t.len ≡ length (events_of t.runs.items t.last) };
}

impl Trace {
    /// No events.
    pub fn new(alloc: Global) -> Trace
        ensures { result ≡ [] }
    {
        Trace {
            runs: Vec::new(alloc),
            last: Run {
                event: Event::Step(0),
                count: 0,
            },
            len: 0,
        }
    }

    /// A copy.
    ///
    /// # Errors
    ///
    /// There is no memory.
    pub fn copied(&self, alloc: Global) -> Result<Trace, AllocError>
        ensures { IfOk result (λ t. t ≡ self.now) }
    {
        Ok(Trace {
            runs: Vec::from_slice(alloc, self.runs.as_slice())?,
            last: self.last,
            len: self.len,
        })
    }

    /// Adds an event at the end.
    ///
    /// # Errors
    ///
    /// There is no memory.
    pub fn push(&mut self, event: Event) -> Result<(), AllocError>
        ensures { OnOk result (self.new ≡ self.old ++ event ∷ []) }
    {
        let Some(len) = self.len.checked_add(1) else {
            return Err(AllocError);
        };
        if self.last.event == event && self.last.count < u32::MAX {
            self.last.count += 1;
        } else {
            self.runs.push(self.last)?;
            self.last = Run { event, count: 1 };
        }
        self.len = len;
        Ok(())
    }

    /// The number of events.
    pub fn len(&self) -> usize
        ensures { result ≡ length self.now }
    {
        self.len
    }

    /// The number of runs of equal events, at most.
    pub fn runs(&self) -> usize {
        self.runs.len().saturating_add(1)
    }

    /// All events.
    ///
    /// # Errors
    ///
    /// There is no memory.
    pub fn events(&self, alloc: Global) -> Result<Vec<Event>, AllocError>
        ensures { IfOk result (λ es. es.items ≡ self.now) }
    {
        let mut events = Vec::new(alloc);
        for run in self.runs.as_slice() {
            push_run(&mut events, *run)?;
        }
        push_run(&mut events, self.last)?;
        Ok(events)
    }
}

/// Appends the events of a run.
fn push_run(events: &mut Vec<Event>, run: Run) -> Result<(), AllocError>
    ensures { OnOk result (events.new.items ≡ events.old.items ++ replicate run.count run.event) }
{
    for _ in 0..run.count {
        events.push(run.event)?;
    }
    Ok(())
}
