//! The events of a way, with the own steps between them that a search takes at once.

ghost use Rattle.std.specs.Prelude.{◌≡◌, ◌++◌, IfOk, OnOk};
ghost use Rattle.ends_search.specs.Search.{IsWay};
ghost use Rattle.ends_plain.specs.Configs.{next, next_kept, can, tries, own_events, settled};
ghost use Rattle.ends_plain.specs.declared.config.Config.{Config};

use crate::config::{Asked, Config, Setting};
use crate::moves::own_step;
use crate::trace::Trace;
use crate::way::Way;
use std::alloc::{AllocError, Global};
use sts_model::Event;

/// Goes on by own steps, at most this number.
fn add_own_steps(
    alloc: Global,
    setting: &Setting,
    most: u32,
    way: &mut Way,
) -> Result<(), AllocError>
    ensures config { OnOk result (way.new.config ≡ settled most setting.now way.old.config) }
    ensures trace { OnOk result
        (way.new.trace ≡ way.old.trace ++ own_events most setting.now way.old.config) }
{
    let mut left = most;
    while left > 0 {
        let Some(t) = own_step(&way.config, setting) else {
            return Ok(());
        };
        way.go(alloc, setting, Event::Step(t))?;
        left -= 1;
    }
    Ok(())
}

/// Goes on by events that lead from state to state of a search, and by the own steps that follow
/// each of them.
fn add_all(alloc: Global, asked: &Asked, events: &[Event], way: &mut Way) -> Result<(), AllocError>
    ensures { (first : Config) → (r : Config)
        → IsWay (next asked.now.setting) (can asked.now.setting) first way.old.trace way.old.config
        → IsWay (next_kept asked.now) (tries asked.now.setting) way.old.config events.now r
        → OnOk result (IsWay (next asked.now.setting) (can asked.now.setting) first way.new.trace r) }
{
    for event in events {
        way.go(alloc, &asked.setting, *event)?;
        add_own_steps(alloc, &asked.setting, asked.own_steps, way)?;
    }
    Ok(())
}

/// The trace of these events, which lead from state to state of a search, with the own steps that
/// follow each of them.
///
/// # Errors
///
/// There is no memory.
pub fn with_own_steps(
    alloc: Global,
    asked: &Asked,
    first: &Config,
    events: &[Event],
) -> Result<Trace, AllocError>
    ensures { IfOk result (λ t. (r : Config)
        → IsWay (next_kept asked.now) (tries asked.now.setting) first.now events.now r
        → IsWay (next asked.now.setting) (can asked.now.setting) first.now t r) }
{
    let mut way = Way::begin(alloc, first)?;
    add_all(alloc, asked, events, &mut way)?;
    Ok(way.trace)
}
