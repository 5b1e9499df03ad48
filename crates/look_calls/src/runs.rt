//! Runs up to the end of a task, as a player makes them. Nothing is promised of them.

use crate::checked::{Called, Ending, call_of, end_of};
use ends_known::call::number;
use ends_plain::config::{Config, Setting};
use ends_plain::shorter::can_come;
use ends_player::player::Player;
use std::alloc::{AllocError, Global};
use sts_model::Event;
use sts_world::World;

/// A task that ended in a run.
#[derive(Drop)]
pub(crate) struct Ended {
    pub(crate) task: u32,
    /// The place of the event that forks it, and its call.
    pub(crate) fork: usize,
    pub(crate) called: Called,
    /// The number of events up to its end, and that end.
    pub(crate) events: usize,
    pub(crate) ending: Ending,
}

/// The events of a run up to the end of the task that it is about.
#[derive(Drop)]
pub(crate) struct Run {
    pub(crate) events: Vec<Event>,
    pub(crate) target: Ended,
    /// The tasks below it that ended before it.
    pub(crate) below: Vec<Ended>,
}

/// The place of the event that forks a task, and its call.
#[derive(Drop)]
struct Birth {
    place: usize,
    called: Called,
}

/// A run that is being made.
#[derive(Drop)]
struct Making {
    config: Config,
    events: Vec<Event>,
    /// The birth of each task but the root. A task that was forked in a cancelled scope has none,
    /// since it never lives.
    births: Vec<Option<Birth>>,
    below: Vec<Ended>,
}

/// The number of tasks that were born.
fn tasks_born(config: &Config) -> usize {
    match config.position.world() {
        Some(world) => world.records().tasks_born(),
        None => 0,
    }
}

/// The owner of the scope that a task is a subtask of.
fn parent_of(world: &World, task: u32) -> Option<u32> {
    let scope = world.records().parent(task)?;
    Some(world.records().owner(scope))
}

/// Is a task below another one?
fn is_below(config: &Config, task: u32, other: u32) -> bool {
    let Some(world) = config.position.world() else {
        return false;
    };
    let mut at = task;
    for _ in 0..world.records().tasks_born() {
        match parent_of(world, at) {
            Some(parent) if parent == other => return true,
            Some(parent) => at = parent,
            None => return false,
        }
    }
    false
}

impl Making {
    /// Before the first event.
    fn begin(alloc: Global, setting: &Setting) -> Result<Making, AllocError> {
        Ok(Making {
            config: Config::start(alloc, setting)?,
            events: Vec::new(alloc),
            births: Vec::new(alloc),
            below: Vec::new(alloc),
        })
    }

    /// Notes the task that the last event has forked, if it has.
    fn note_birth(&mut self, alloc: Global, setting: &Setting) -> Result<(), AllocError> {
        let born = tasks_born(&self.config);
        if born <= self.births.len().saturating_add(1) {
            return Ok(());
        }
        let task = number(born.saturating_sub(1));
        let place = self.events.len();
        let birth = match call_of(alloc, &setting.program, &self.config, task)? {
            Some(called) => Some(Birth { place, called }),
            None => None,
        };
        self.births.push(birth)?;
        Ok(())
    }

    /// Takes an event, if it can come.
    fn take(&mut self, alloc: Global, setting: &Setting, event: Event) -> Result<bool, AllocError> {
        if !can_come(&self.config, setting, event) {
            return Ok(false);
        }
        self.config.apply_event(alloc, setting, event)?;
        self.note_birth(alloc, setting)?;
        self.events.push(event)?;
        Ok(true)
    }

    /// What is known of a task, if the last event has ended it.
    fn ended(&self, alloc: Global, task: u32) -> Result<Option<Ended>, AllocError> {
        let Some(ending) = end_of(&self.config, task) else {
            return Ok(None);
        };
        let Some(Some(birth)) = self.births.get((task as usize).saturating_sub(1)) else {
            return Ok(None);
        };
        Ok(Some(Ended {
            task,
            fork: birth.place,
            called: birth.called.copied(alloc)?,
            events: self.events.len(),
            ending,
        }))
    }

    /// Notes the task that took a step, if it has ended. Returns it if the run is about it.
    fn note_end(
        &mut self,
        alloc: Global,
        event: Event,
        target: Option<u32>,
    ) -> Result<Option<Ended>, AllocError> {
        let (Event::Step(task), Some(target)) = (event, target) else {
            return Ok(None);
        };
        let Some(ended) = self.ended(alloc, task)? else {
            return Ok(None);
        };
        if task == target {
            return Ok(Some(ended));
        }
        if is_below(&self.config, task, target) {
            self.below.push(ended)?;
        }
        Ok(None)
    }
}

/// The run that a player makes, up to the end of its target and to no more than `most` events. If the
/// target doesn't end, there is none.
pub(crate) fn made(
    alloc: Global,
    setting: &Setting,
    player: &mut Player<'_>,
    most: usize,
) -> Result<Option<Run>, AllocError> {
    let mut making = Making::begin(alloc, setting)?;
    for _ in 0..most {
        let Some(event) = player.next(alloc, making.config.position.world())? else {
            return Ok(None);
        };
        if !making.take(alloc, setting, event)? {
            return Ok(None);
        }
        if let Some(target) = making.note_end(alloc, event, player.target())? {
            return Ok(Some(Run {
                events: making.events,
                target,
                below: making.below,
            }));
        }
    }
    Ok(None)
}
