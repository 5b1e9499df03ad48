//! What is drawn for a random schedule, and which event comes next by it.

ghost use Rattle.std.specs.Prelude.{IfSome};
ghost use Rattle.std.specs.List.{Contains};

use rand::RngExt;
use rand::seq::IndexedRandom;
use rand_xoshiro::Xoshiro256PlusPlus;
use std::alloc::{AllocError, Global};
use sts_model::Event;

/// The numbers of moments for outside events. A schedule without priorities has any of these, each
/// as likely.
const OUTSIDE: &[usize] = &[0, 1, 1, 2, 4, 8];

/// The numbers of change points. A schedule has any of these, each as likely.
const CHANGES: &[usize] = &[0, 1, 2, 3];

/// A priority that is drawn is not below this one. A lowered one is.
const DRAWN: u64 = 1 << 63;

/// What is drawn for one random schedule. A moment is the number of events before it.
#[derive(Drop)]
pub struct Schedule {
    /// Does the event with the greatest priority come? If not, any step does.
    has_priorities: bool,
    /// Without priorities: the moments at which an interrupt or an expiry comes, if one can.
    outside: Vec<usize>,
    /// Have interrupts a priority?
    interrupts: bool,
    /// Have expiries a priority?
    expiries: bool,
    /// The moments at which the event that is about to come gets a low priority.
    changes: Vec<usize>,
    /// The priorities, each at its `place_of`.
    priorities: Vec<u64>,
    /// The number of events after which priorities don't matter.
    length: usize,
}

/// A number from `low` to `high` without `high`, each as likely as the others.
fn between(rng: &mut Xoshiro256PlusPlus, low: usize, high: usize) -> usize {
    if low >= high {
        return low;
    }
    rng.random_range(low..high)
}

/// Any of the numbers.
fn any_of(rng: &mut Xoshiro256PlusPlus, numbers: &[usize]) -> usize {
    numbers.choose(rng).copied().unwrap_or(0)
}

/// Draws this number of moments of a schedule of some `length` events.
fn moments(
    alloc: Global,
    rng: &mut Xoshiro256PlusPlus,
    count: usize,
    length: usize,
) -> Result<Vec<usize>, AllocError> {
    let mut found = Vec::new(alloc);
    for _ in 0..count {
        found.push(between(rng, 0, length))?;
    }
    Ok(found)
}

/// A priority for an event.
fn any_priority(rng: &mut Xoshiro256PlusPlus) -> u64 {
    let drawn: u64 = rng.random();
    drawn | DRAWN
}

/// The place of the priority of an event: each birth number has one for steps, one for interrupts
/// and one for expiries.
fn place_of(event: Event) -> usize {
    let (number, kind) = match event {
        Event::Step(t) => (t, 0),
        Event::Interrupt(t) => (t, 1),
        Event::Expire(s) => (s, 2),
    };
    (number as usize).saturating_mul(3).saturating_add(kind)
}

/// The place of the first event that is no step, or the number of events.
fn end_of_steps(events: &[Event]) -> usize {
    events
        .iter()
        .position(|event| !matches!(event, Event::Step(_)))
        .unwrap_or(events.len())
}

/// The place of the first expiry, or the number of events.
fn first_expiry(events: &[Event]) -> usize {
    events
        .iter()
        .position(|event| matches!(event, Event::Expire(_)))
        .unwrap_or(events.len())
}

/// The place of any outside event. If interrupts and expiries can come, either is as likely. The
/// events before `from` are steps.
fn any_outside(rng: &mut Xoshiro256PlusPlus, events: &[Event], from: usize) -> usize {
    let expiries = first_expiry(events);
    if from >= expiries || (expiries < events.len() && rng.random()) {
        between(rng, expiries, events.len())
    } else {
        between(rng, from, expiries)
    }
}

impl Schedule {
    /// A schedule with no moments for outside events, in which any task steps that can.
    pub fn of_steps(alloc: Global) -> Schedule {
        Schedule {
            has_priorities: false,
            outside: Vec::new(alloc),
            interrupts: false,
            expiries: false,
            changes: Vec::new(alloc),
            priorities: Vec::new(alloc),
            length: 0,
        }
    }

    /// Draws a schedule of some `length` events. Three in four have priorities. A third of these
    /// leaves interrupts out, and a third expiries.
    ///
    /// # Errors
    ///
    /// There is no memory.
    pub fn drawn(
        alloc: Global,
        rng: &mut Xoshiro256PlusPlus,
        length: usize,
    ) -> Result<Schedule, AllocError> {
        let count = any_of(rng, OUTSIDE);
        let outside = moments(alloc, rng, count, length)?;
        let count = any_of(rng, CHANGES);
        let changes = moments(alloc, rng, count, length)?;
        let left_out = between(rng, 0, 3);
        Ok(Schedule {
            has_priorities: between(rng, 0, 4) > 0,
            outside,
            interrupts: left_out != 0,
            expiries: left_out != 1,
            changes,
            priorities: Vec::new(alloc),
            length,
        })
    }

    /// Does an outside event come at this moment?
    fn is_outside(&self, moment: usize) -> bool {
        self.outside.iter().any(|it| *it == moment)
    }

    /// The change point at this moment, if there is one.
    fn change_at(&self, moment: usize) -> Option<usize> {
        self.changes.iter().position(|it| *it == moment)
    }

    /// Have events of this kind a priority?
    fn has(&self, event: Event) -> bool {
        match event {
            Event::Step(_) => true,
            Event::Interrupt(_) => self.interrupts,
            Event::Expire(_) => self.expiries,
        }
    }

    /// The priority of this event: 0 if it has none.
    fn priority(&self, event: Event) -> u64 {
        if self.has(event) {
            self.priorities.get(place_of(event)).copied().unwrap_or(0)
        } else {
            0
        }
    }

    /// Gives this event a priority.
    fn set_priority(&mut self, event: Event, priority: u64) {
        let place = place_of(event);
        if place < self.priorities.len() {
            self.priorities[place] = priority;
        }
    }

    /// Draws the priorities of birth numbers that have none yet. `born` is the number of tasks that
    /// were born, or of scopes, if these are more.
    ///
    /// # Errors
    ///
    /// There is no memory.
    pub fn give_priorities(
        &mut self,
        rng: &mut Xoshiro256PlusPlus,
        born: usize,
    ) -> Result<(), AllocError> {
        if !self.has_priorities {
            return Ok(());
        }
        for _ in self.priorities.len()..born.saturating_mul(3) {
            self.priorities.push(any_priority(rng))?;
        }
        Ok(())
    }

    /// The place of the event with the greatest priority: the first one if none has a priority.
    fn greatest(&self, events: &[Event]) -> usize {
        let mut best = 0;
        let mut most = 0;
        for (place, event) in events.iter().enumerate() {
            let priority = self.priority(*event);
            if priority > most {
                best = place;
                most = priority;
            }
        }
        best
    }

    /// The place of the event that comes by the priorities.
    fn by_priority(&mut self, events: &[Event], moment: usize) -> usize {
        let first = self.greatest(events);
        let (Some(change), Some(event)) = (self.change_at(moment), events.get(first)) else {
            return first;
        };
        self.set_priority(*event, change as u64);
        self.greatest(events)
    }

    /// Draws a priority for the next interrupt of a task, after this one.
    fn renew(&mut self, rng: &mut Xoshiro256PlusPlus, event: Option<&Event>) {
        if let Some(Event::Interrupt(t)) = event {
            self.set_priority(Event::Interrupt(*t), any_priority(rng));
        }
    }

    /// The place of the event that comes at this moment.
    fn place(&mut self, rng: &mut Xoshiro256PlusPlus, events: &[Event], moment: usize) -> usize {
        if self.has_priorities && moment < self.length {
            let place = self.by_priority(events, moment);
            self.renew(rng, events.get(place));
            return place;
        }
        let steps = end_of_steps(events);
        if steps < events.len() && (steps == 0 || self.is_outside(moment)) {
            return any_outside(rng, events, steps);
        }
        between(rng, 0, steps)
    }

    /// The event that comes at this moment, of those that can come: steps, then interrupts, then
    /// expiries. Each of them has a priority if `give_priorities` came before.
    pub fn next(
        &mut self,
        rng: &mut Xoshiro256PlusPlus,
        events: &[Event],
        moment: usize,
    ) -> Option<Event>
        ensures { IfSome result (Contains events.now) }
    {
        let place = self.place(rng, events, moment);
        events.get(place).copied()
    }
}
