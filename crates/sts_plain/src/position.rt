//! A state of the plain machine, without the number of its steps.

ghost use Rattle.std.specs.Prelude.{◌≡◌, ◌<◌, ◌&&◌, length, true, OnOk, OnErr, IfOk, IfSome, IsNone};
ghost use Rattle.sts_model.specs.Living as living;
ghost use Rattle.sts_model.specs.Misuse as misuse;
ghost use Rattle.sts_model.specs.World as def;
ghost use Rattle.sts_model.specs.Run as run;
ghost use Rattle.sts_model.specs.Waiting as waiting;
ghost use Rattle.sts_plain.specs.Seen.{shown, is_fault, state_of};

use crate::misstep::{Misstep, PlainState};
use crate::misuses::misuse;
use crate::perform::act;
use crate::stand::step_stand;
use std::alloc::{AllocError, Global};
use std::marker::Model;
use sts_code::Program;
use sts_model::{Event, Fault, Stand};
use sts_world::World;

/// A state of the plain machine.
#[derive(Drop)]
pub struct Position {
    world: World,
    misstep: Option<Misstep>,
}

impl Model for Position {
    ghost use Rattle.sts_model.specs.World.{State};

    ghost Value = { State };

    ghost use Rattle.sts_plain.specs.Seen.{state_of};

    ghost view = { λ p. state_of p.misstep p.world };
}

/// The fault of a step of a living task at this place. At a `join` there is none.
#[tactic(auto, using(crate::proofs::Stands::joins_well))]
fn misuse_at(world: &World, program: &Program, t: u32, stand: Stand) -> Option<Fault>
    requires born { t < length world.now.tasks }
    requires lives { living.lives (def.task_at world.now t) ≡ true }
    requires stand { stand ≡ waiting.stand_at program.now world.now t }
    ensures { result ≡ misuse.misuse program.now world.now t }
{
    match stand {
        Stand::AtJoin(_) => None,
        _ => misuse(world, program, t),
    }
}

/// Takes a step of a task that can step and is at `stand`. Answers the fault, if the step is one.
fn step(
    world: &mut World,
    alloc: Global,
    program: &Program,
    t: u32,
    stand: Stand,
) -> Result<Option<Misstep>, AllocError>
    requires can { waiting.can_step program.now world.old t ≡ true }
    requires stand { stand ≡ waiting.stand_at program.now world.old t }
    ensures ok { IfOk result (λ m. state_of m world.new ≡ run.step program.now world.old t) }
    ensures err { OnErr result (world.new ≡ world.old) }
{
    if !world.records().lives(t) {
        return Ok(None);
    }
    match misuse_at(world, program, t, stand) {
        Some(kind) => {
            let frame = world.records().frame(t);
            Ok(Some(Misstep {
                kind,
                task: t,
                function: frame.function,
                pc: frame.pc,
            }))
        }
        None => {
            act(world, alloc, program, t)?;
            Ok(None)
        }
    }
}

impl Position {
    /// Before the first event.
    ///
    /// # Errors
    ///
    /// There is no memory.
    pub fn opening(alloc: Global, program: &Program) -> Result<Position, AllocError>
        ensures { IfOk result (λ x. x ≡ def.opening program.now) }
    {
        let world = World::opening(alloc, program)?;
        Ok(Position {
            world,
            misstep: None,
        })
    }

    /// The state of the machine.
    pub fn state(&self) -> PlainState
        ensures { result ≡ shown self.now }
    {
        match self.misstep {
            Some(misstep) => misstep.state(),
            None => match self.world.records().root_end() {
                None => PlainState::Running,
                Some(end) => PlainState::Ended(end),
            },
        }
    }

    /// Applies one event. Returns whether it was a step of a task that could step. An `Err` changes
    /// nothing.
    ///
    /// # Errors
    ///
    /// There is no memory.
    pub fn apply(
        &mut self,
        alloc: Global,
        program: &Program,
        event: Event,
    ) -> Result<bool, AllocError>
        ensures ok { OnOk result (self.new ≡ run.apply program.now self.old event) }
        ensures steps { IfOk result (λ b.
            b ≡ (run.is_step event && run.counts program.now self.old event)) }
        ensures err { OnErr result (self.new ≡ self.old) }
    {
        if self.misstep.is_some() {
            return Ok(false);
        }
        match event {
            Event::Step(t) => match step_stand(&self.world, program, t) {
                None => Ok(false),
                Some(stand) => {
                    self.misstep = step(&mut self.world, alloc, program, t, stand)?;
                    Ok(true)
                }
            },
            Event::Interrupt(t) => {
                self.world.interrupt(t);
                Ok(false)
            }
            Event::Expire(s) => {
                self.world.expire(s);
                Ok(false)
            }
        }
    }

    /// The tasks and scopes, unless the machine has faulted.
    pub fn world(&self) -> Option<&World>
        ensures running { IfSome result (λ w. self.now ≡ def.Running w.now) }
        ensures fault { IsNone result → is_fault self.now ≡ true }
    {
        match &self.misstep {
            Some(_) => None,
            None => Some(&self.world),
        }
    }

    /// If the answer is true, the two are the same state.
    pub fn same(&self, other: &Position) -> bool
        ensures { result ≡ true → self.now ≡ other.now }
    {
        match self.misstep {
            None => match other.misstep {
                None => self.world.same(&other.world),
                Some(_) => false,
            },
            Some(a) => match other.misstep {
                None => false,
                Some(b) => a == b,
            },
        }
    }

    /// A copy.
    ///
    /// # Errors
    ///
    /// There is no memory.
    pub fn copied(&self, alloc: Global) -> Result<Position, AllocError>
        ensures { IfOk result (λ x. x ≡ self.now) }
    {
        let world = self.world.copied(alloc)?;
        Ok(Position {
            world,
            misstep: self.misstep,
        })
    }
}
