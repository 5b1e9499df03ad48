//! The watched plain machine. It makes no step that would be a fault, so it keeps the world before
//! the fault.

ghost use Rattle.std.specs.Prelude.{◌≡◌, ◌&&◌, [], IfOk, IfSome, IsNone, OnOk, OnErr, Some, true, false};
ghost use Rattle.sts_model.specs.Run as run;
ghost use Rattle.sts_model.specs.World as def;
ghost use Rattle.sts_plain.specs.Seen.{is_fault, shown, state_of};
ghost use Rattle.look_lines.specs.Watched.{after_event, watched};

use std::alloc::{AllocError, Global};
use std::marker::Model;
use sts_code::Program;
use sts_model::Event;
use sts_plain::{Misstep, Plain, PlainState, can_step, misuse};
use sts_world::World;

/// An event that was applied: its number, counted from 1, and whether it counted.
#[derive(Clone, Copy, PartialEq, Eq)]
pub struct Applied {
    pub number: usize,
    pub event: Event,
    pub is_counted: bool,
}

/// A plain machine that runs, and the fault that stopped it, if there was one.
#[derive(Drop)]
pub struct Watch<'p> {
    plain: Plain<'p>,
    misstep: Option<Misstep>,
}

impl<'p> Model for Watch<'p> {
    ghost use Rattle.std.specs.Prelude.{◌≡◌, false};
    ghost use Rattle.sts_plain.specs.Seen.{is_fault};
    ghost use Rattle.look_lines.specs.Watched.{Watched, seen_of};

    ghost Value = { Watched };

    ghost view = { λ w. seen_of w.plain w.misstep };

    ghost invariant = { λ w. is_fault w.plain.state ≡ false };
}

/// The fault of a step of this task, if it can step and the step is a fault.
fn misstep_of(world: &World, program: &Program, t: u32) -> Option<Misstep>
    ensures some { IfSome result (λ m. run.step program.now world.now t
        ≡ state_of (Some m) world.now) }
    ensures counts { IfSome result (λ m.
        run.counts program.now (def.Running world.now) (Event.Step t) ≡ true) }
    ensures none { IsNone result → is_fault (run.step program.now world.now t) ≡ false }
{
    if !can_step(world, program, t) || !world.records().lives(t) {
        return None;
    }
    let kind = misuse(world, program, t)?;
    let frame = world.records().frame(t);
    Some(Misstep {
        kind,
        task: t,
        function: frame.function,
        pc: frame.pc,
    })
}

/// The fault of an event in a machine that runs, if it is a fault.
fn misstep_at(world: &World, program: &Program, event: Event) -> Option<Misstep>
    ensures some { IfSome result (λ m. run.apply program.now (def.Running world.now) event
        ≡ state_of (Some m) world.now) }
    ensures counts { IfSome result (λ m. (run.is_step event
        && run.counts program.now (def.Running world.now) event) ≡ true) }
    ensures none { IsNone result
        → is_fault (run.apply program.now (def.Running world.now) event) ≡ false }
{
    match event {
        Event::Step(t) => misstep_of(world, program, t),
        Event::Interrupt(_) | Event::Expire(_) => None,
    }
}

impl<'p> Watch<'p> {
    /// The machine before the first event.
    ///
    /// # Errors
    ///
    /// Memory ran out.
    pub fn start(alloc: Global, program: &'p Program) -> Result<Watch<'p>, AllocError>
        ensures { IfOk result (λ w. w ≡ watched program.now []) }
    {
        Ok(Watch {
            plain: Plain::start(alloc, program)?,
            misstep: None,
        })
    }

    /// The program that it runs.
    pub fn program(&self) -> &Program
        ensures { result.now ≡ self.now.program }
    {
        self.plain.program()
    }

    /// The world as it last ran.
    pub fn world(&self) -> &World
        ensures { result.now ≡ self.now.last }
    {
        match self.plain.world() {
            Some(world) => world,
            None => unreachable!(),
        }
    }

    /// The state of the machine.
    pub fn state(&self) -> PlainState
        ensures { result ≡ shown self.now.state }
    {
        match self.misstep {
            None => self.plain.state(),
            Some(misstep) => misstep.state(),
        }
    }

    /// The steps taken, a faulting one included, up to the greatest `u64`.
    pub fn steps(&self) -> u64
        ensures { result ≡ self.now.steps }
    {
        match self.misstep {
            None => self.plain.steps(),
            Some(_) => self.plain.steps().saturating_add(1),
        }
    }

    /// Does the event count here?
    pub fn counts(&self, event: Event) -> bool
        ensures { result ≡ run.counts self.now.program self.now.state event }
    {
        if self.misstep.is_some() {
            return false;
        }
        let world = self.world();
        match event {
            Event::Step(t) => can_step(world, self.program(), t),
            Event::Interrupt(t) => world.records().lives(t),
            Event::Expire(s) => world.records().can_expire(s),
        }
    }

    /// Applies an event.
    ///
    /// # Errors
    ///
    /// Memory ran out; the machine is unchanged.
    pub fn apply(&mut self, alloc: Global, event: Event) -> Result<(), AllocError>
        ensures ok { OnOk result (self.new ≡ after_event self.old event) }
        ensures err { OnErr result (self.new ≡ self.old) }
    {
        if self.misstep.is_some() {
            return Ok(());
        }
        match misstep_at(self.world(), self.program(), event) {
            Some(misstep) => {
                self.misstep = Some(misstep);
                Ok(())
            }
            None => self.plain.apply(alloc, event),
        }
    }

    /// Applies the event of this number, and tells whether it counted.
    ///
    /// # Errors
    ///
    /// Memory ran out; the machine is unchanged.
    pub fn apply_numbered(
        &mut self,
        alloc: Global,
        number: usize,
        event: Event,
    ) -> Result<Applied, AllocError>
        ensures applied { IfOk result (λ a. a ≡ record {
          number = number;
          event = event;
          is_counted = run.counts self.old.program self.old.state event;
        }) }
        ensures ok { OnOk result (self.new ≡ after_event self.old event) }
        ensures err { OnErr result (self.new ≡ self.old) }
    {
        let is_counted = self.counts(event);
        self.apply(alloc, event)?;
        Ok(Applied {
            number,
            event,
            is_counted,
        })
    }
}
