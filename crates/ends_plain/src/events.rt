//! Which events can come.

ghost use Rattle.std.specs.Prelude.{◌≡◌, IfOk};
ghost use Rattle.sts_model.specs.declared.event.Event.TheVariants as event;
ghost use Rattle.ends_plain.specs.Configs.{AreThose, steps_now, interrupts_now, expires_now};
ghost use Rattle.ends_plain.specs.Listings.{born_of, event_of, is_listed};

use std::alloc::{AllocError, Global};
use sts_code::Program;
use sts_model::Event;
use sts_plain::can_step;
use sts_world::World;

/// May this task be interrupted?
pub fn may_interrupt(left: u32, world: &World, t: u32) -> bool
    ensures { result ≡ interrupts_now left world.now (event.Interrupt t) }
{
    left > 0 && world.records().lives(t)
}

/// May this scope expire?
pub fn may_expire(may: bool, world: &World, s: u32) -> bool
    ensures { result ≡ expires_now may world.now (event.Expire s) }
{
    may && world.records().can_expire(s)
}

/// Which events are listed.
#[derive(Clone, Copy)]
pub(crate) enum Listing<'a> {
    /// The steps of tasks that can step.
    Steps(&'a Program),
    /// The interrupts of tasks that live, while one of this number is left.
    Interrupts(u32),
    /// The expiries that mark a scope, if expiries may come.
    Expiries(bool),
}

impl Listing<'_> {
    /// How many tasks or scopes may have such an event.
    fn born(self, world: &World) -> u32
        ensures { result ≡ born_of self.entry world.now }
    {
        let records = world.records();
        match self {
            Listing::Steps(_) | Listing::Interrupts(_) => records.tasks_born() as u32,
            Listing::Expiries(_) => records.scopes_born() as u32,
        }
    }

    /// The event of a task or scope.
    fn event(self, number: u32) -> Event
        ensures { result ≡ event_of self.entry number }
    {
        match self {
            Listing::Steps(_) => Event::Step(number),
            Listing::Interrupts(_) => Event::Interrupt(number),
            Listing::Expiries(_) => Event::Expire(number),
        }
    }

    /// May it come?
    fn may_come(self, world: &World, number: u32) -> bool
        ensures { result ≡ is_listed self.entry world.now (event_of self.entry number) }
    {
        match self {
            Listing::Steps(program) => can_step(world, program, number),
            Listing::Interrupts(left) => may_interrupt(left, world, number),
            Listing::Expiries(may) => may_expire(may, world, number),
        }
    }

    /// Those that may come.
    fn listed(self, alloc: Global, world: &World) -> Result<Vec<Event>, AllocError>
        ensures { IfOk result (λ es. AreThose (is_listed self.entry world.now) es.items) }
    {
        let mut events = Vec::new(alloc);
        let all = self.born(world);
        for n in 0..all {
            if self.may_come(world, n) {
                events.push(self.event(n))?;
            }
        }
        Ok(events)
    }
}

/// The steps of tasks that can step.
pub fn steps(alloc: Global, program: &Program, world: &World) -> Result<Vec<Event>, AllocError>
    ensures { IfOk result (λ es. AreThose (steps_now program.now world.now) es.items) }
{
    Listing::Steps(program).listed(alloc, world)
}

/// The interrupts of tasks that live, while one is left.
pub fn interrupts(alloc: Global, left: u32, world: &World) -> Result<Vec<Event>, AllocError>
    ensures { IfOk result (λ es. AreThose (interrupts_now left world.now) es.items) }
{
    Listing::Interrupts(left).listed(alloc, world)
}

/// The expiries that mark a scope, if expiries may come.
pub fn expiries(alloc: Global, may: bool, world: &World) -> Result<Vec<Event>, AllocError>
    ensures { IfOk result (λ es. AreThose (expires_now may world.now) es.items) }
{
    Listing::Expiries(may).listed(alloc, world)
}
