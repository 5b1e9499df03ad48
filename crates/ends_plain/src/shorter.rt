//! Traces without the own steps that no later step needs.

ghost use Rattle.std.specs.Prelude.{◌≡◌, IfOk, IfSome, OnOk};
ghost use Rattle.ends_plain.specs.Configs.{can};
ghost use Rattle.ends_plain.specs.Listed.{IsEndOf, IsShownBy};
ghost use Rattle.ends_plain.specs.Ways.{GoesOn};

use crate::config::{Config, Found, Setting};
use crate::events::{may_expire, may_interrupt};
use crate::own::has_own_step;
use crate::trace::Trace;
use crate::way::Way;
use ends_search::machine::StateMachine;
use std::alloc::{AllocError, Global};
use sts_model::Event;
use sts_plain::can_step;

/// Can the event come?
pub fn can_come(config: &Config, setting: &Setting, event: Event) -> bool
    ensures { result ≡ can setting.now config.now event }
{
    match config.position.world() {
        None => false,
        Some(world) => match event {
            Event::Step(t) => can_step(world, &setting.program, t),
            Event::Interrupt(t) => may_interrupt(config.left, world, t),
            Event::Expire(s) => may_expire(setting.expiries, world, s),
        },
    }
}

/// Goes on by the events, as far as they can come. Can each of them?
fn follow(
    alloc: Global,
    setting: &Setting,
    events: &[Event],
    way: &mut Way,
) -> Result<bool, AllocError>
    ensures { OnOk result (GoesOn setting.now way.old way.new) }
{
    for event in events {
        if !can_come(&way.config, setting, *event) {
            return Ok(false);
        }
        way.go(alloc, setting, *event)?;
    }
    Ok(true)
}

/// The end that the events lead to, if each of them can come.
fn walked(
    alloc: Global,
    setting: &Setting,
    first: &Config,
    events: &[Event],
) -> Result<Option<Found>, AllocError>
    ensures { IfOk result (λ found. IfSome found (IsShownBy setting.now first.now)) }
{
    let mut way = Way::begin(alloc, first)?;
    if !follow(alloc, setting, events, &mut way)? {
        return Ok(None);
    }
    Ok(way.end())
}

/// The end after these events, if each of them can come and they lead to an end.
///
/// # Errors
///
/// There is no memory.
pub fn end_after(
    alloc: Global,
    setting: &Setting,
    events: &[Event],
) -> Result<Option<Found>, AllocError>
    ensures { IfOk result (λ found. IfSome found (IsEndOf setting.now)) }
{
    let first = Config::start(alloc, setting)?;
    walked(alloc, setting, &first, events)
}

/// Is the event an own step?
fn is_own_step(config: &Config, setting: &Setting, event: Event) -> bool {
    match config.position.world() {
        None => false,
        Some(world) => match event {
            Event::Step(t) => has_own_step(world, &setting.program, t),
            _ => false,
        },
    }
}

/// Adds whether the event is an own step, and applies it.
fn mark(
    alloc: Global,
    setting: &Setting,
    event: Event,
    config: &mut Config,
    own: &mut Vec<bool>,
) -> Result<(), AllocError> {
    own.push(is_own_step(config, setting, event))?;
    config.apply_event(alloc, setting, event)?;
    Ok(())
}

/// Whether each of the events is an own step.
fn own_steps(
    alloc: Global,
    setting: &Setting,
    first: &Config,
    events: &[Event],
) -> Result<Vec<bool>, AllocError> {
    let mut config = first.copied(alloc)?;
    let mut own = Vec::new(alloc);
    for event in events {
        mark(alloc, setting, *event, &mut config, &mut own)?;
    }
    Ok(own)
}

/// Is the event needed? These tasks take later steps that are needed; its task becomes one of them.
fn is_needed(busy: &mut Vec<u32>, event: Event, is_own: bool) -> Result<bool, AllocError> {
    match event {
        Event::Step(t) => {
            if busy.contains(&t) {
                return Ok(true);
            }
            if is_own {
                return Ok(false);
            }
            busy.push(t)?;
            Ok(true)
        }
        _ => Ok(true),
    }
}

/// The events without the own steps after which their task takes no other step.
fn needed(alloc: Global, events: &[Event], own: &[bool]) -> Result<Vec<Event>, AllocError> {
    let mut busy = Vec::new(alloc);
    let mut back = Vec::new(alloc);
    for place in (0..events.len()).rev() {
        if let Some(event) = events.get(place) {
            let is_own = own.get(place).copied().unwrap_or(false);
            if is_needed(&mut busy, *event, is_own)? {
                back.push(*event)?;
            }
        }
    }
    back.reverse();
    Ok(back)
}

/// The end that the events of a trace lead to without the own steps that no later step needs.
fn shorter(
    alloc: Global,
    setting: &Setting,
    first: &Config,
    trace: &Trace,
) -> Result<Option<Found>, AllocError>
    ensures { IfOk result (λ found. IfSome found (IsShownBy setting.now first.now)) }
{
    let all = trace.events(alloc)?;
    let own = own_steps(alloc, setting, first, all.as_slice())?;
    let events = needed(alloc, all.as_slice(), own.as_slice())?;
    walked(alloc, setting, first, events.as_slice())
}

/// The same end by fewer events, if the own steps that no later step needs can be left out.
pub fn shortened(
    alloc: Global,
    setting: &Setting,
    first: &Config,
    found: Found,
) -> Result<Found, AllocError>
    ensures shown { IsShownBy setting.now first.now found
        → IfOk result (IsShownBy setting.now first.now) }
    ensures end { IfOk result (λ one. one.end ≡ found.end) }
{
    let Some(one) = shorter(alloc, setting, first, &found.trace)? else {
        return Ok(found);
    };
    if one.end == found.end {
        Ok(one)
    } else {
        Ok(found)
    }
}
