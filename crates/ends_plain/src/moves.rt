//! The plain machine as a machine that is searched.

ghost use Rattle.std.specs.Prelude.{◌≡◌, ◌⊎◌, true, IfOk, OnOk, [], ◌∷◌};
ghost use Rattle.ends_plain.specs.Configs.{next_kept, settled, tries, AreThose, can_come, is_tried};
ghost use Rattle.ends_plain.specs.Configs.{HasNames, IsLike, is_last as shows_end};
ghost use Rattle.ends_plain.specs.Own.{own_step_of};

use crate::config::{Asked, Config, Setting};
use crate::ends::is_end_at;
use crate::events::{expiries, interrupts, steps};
use crate::hash::hash_of;
use crate::names::have_names;
use crate::own::own_task;
use crate::reading::reads_nothing;
use crate::walk::hash_by_walk;
use ends_search::machine::StateMachine;
use std::alloc::{AllocError, Global};
use sts_model::Event;
use sts_plain::Position;

/// All events that can come.
pub fn events_of(
    alloc: Global,
    config: &Config,
    setting: &Setting,
) -> Result<Vec<Event>, AllocError>
    ensures { IfOk result (λ es.
        AreThose (can_come setting.now config.now.left config.now.position) es.items) }
{
    match config.position.world() {
        None => Ok(Vec::new(alloc)),
        Some(world) => {
            let mut events = steps(alloc, &setting.program, world)?;
            let more = interrupts(alloc, config.left, world)?;
            events.extend_from_slice(more.as_slice())?;
            let last = expiries(alloc, setting.expiries, world)?;
            events.extend_from_slice(last.as_slice())?;
            Ok(events)
        }
    }
}

/// The first task that can take an own step, if there is one.
pub fn own_step(config: &Config, setting: &Setting) -> Option<u32>
    ensures { result ≡ own_step_of setting.now.program config.now.position }
{
    match config.position.world() {
        None => None,
        Some(world) => own_task(world, &setting.program),
    }
}

/// One event.
fn only(alloc: Global, event: Event) -> Result<Vec<Event>, AllocError>
    ensures { IfOk result (λ es. es.items ≡ event ∷ []) }
{
    let mut events = Vec::new(alloc);
    events.push(event)?;
    Ok(events)
}

/// The events that the search goes on with: an own step alone, or else all that can come.
fn tried(alloc: Global, config: &Config, setting: &Setting) -> Result<Vec<Event>, AllocError>
    ensures { IfOk result (λ es. AreThose
        (is_tried (own_step_of setting.now.program config.now.position) setting.now
        config.now.left config.now.position) es.items) }
{
    match own_step(config, setting) {
        Some(t) => only(alloc, Event::Step(t)),
        None => events_of(alloc, config, setting),
    }
}

/// Do the states differ only by birth numbers, or not at all? The answer may be `false` though they
/// don't.
fn is_renamed(
    alloc: Global,
    setting: &Setting,
    ours: &Position,
    theirs: &Position,
) -> Result<bool, AllocError>
    ensures { IfOk result (λ r. r ≡ true →
        (ours.now ≡ theirs.now) ⊎ HasNames setting.now.program ours.now theirs.now) }
{
    let Some(here) = ours.world() else {
        return Ok(ours.same(theirs));
    };
    let Some(there) = theirs.world() else {
        return Ok(false);
    };
    if !have_names(alloc, here, there)? {
        return Ok(false);
    }
    Ok(reads_nothing(&setting.program))
}

/// If the answer is true, the first state is alike to the second one.
fn is_alike(
    alloc: Global,
    asked: &Asked,
    ours: &Config,
    theirs: &Config,
) -> Result<bool, AllocError>
    ensures { IfOk result (λ r. r ≡ true → IsLike asked.now ours.now theirs.now) }
{
    if ours.left != theirs.left {
        return Ok(false);
    }
    if asked.exact {
        return Ok(ours.position.same(&theirs.position));
    }
    is_renamed(alloc, &asked.setting, &ours.position, &theirs.position)
}

/// Takes own steps, one after the other: at most this number, and fewer if no task has one.
fn take_own_steps(
    alloc: Global,
    setting: &Setting,
    most: u32,
    config: &mut Config,
) -> Result<(), AllocError>
    ensures { OnOk result (config.new ≡ settled most setting.now config.old) }
{
    let mut left = most;
    while left > 0 {
        let Some(t) = own_step(config, setting) else {
            return Ok(());
        };
        config.apply_event(alloc, setting, Event::Step(t))?;
        left -= 1;
    }
    Ok(())
}

impl StateMachine for Config {
    type Setting = Asked;

    ghost next = { next_kept };

    ghost can = { λ a. tries a.setting };

    ghost alike = { IsLike };

    ghost last = { shows_end };

    fn events(&self, alloc: Global, asked: &Asked) -> Result<Vec<Event>, AllocError> {
        tried(alloc, self, &asked.setting)
    }

    fn apply(&mut self, alloc: Global, asked: &Asked, event: Event) -> Result<(), AllocError> {
        self.apply_event(alloc, &asked.setting, event)?;
        take_own_steps(alloc, &asked.setting, asked.own_steps, self)
    }

    fn copied(&self, alloc: Global) -> Result<Config, AllocError> {
        Ok(Config {
            position: self.position.copied(alloc)?,
            left: self.left,
        })
    }

    fn is_like(&self, alloc: Global, asked: &Asked, other: &Config) -> Result<bool, AllocError> {
        is_alike(alloc, asked, self, other)
    }

    fn is_last(&self) -> bool {
        is_end_at(self.position.state())
    }

    fn hash(&self, alloc: Global, asked: &Asked) -> Result<u64, AllocError> {
        let Some(world) = self.position.world() else {
            return Ok(0);
        };
        let hash = if asked.exact {
            hash_of(world)
        } else {
            hash_by_walk(alloc, world)?
        };
        Ok(hash ^ u64::from(self.left))
    }
}
