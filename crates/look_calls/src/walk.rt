//! Walks on the plain machine.

ghost use Rattle.std.specs.Prelude.{◌≡◌, [], ◌∷◌, ◌++◌, IfOk, IfSome};
ghost use Rattle.ends_plain.specs.Configs.{next};
ghost use Rattle.look_calls.specs.Walks.{GoesOn, IsNext, IsWalk};

use ends_plain::config::{Config, Setting};
use ends_plain::shorter::can_come;
use std::alloc::{AllocError, Global};
use sts_model::Event;

/// A state, and the events that led there.
#[derive(Drop)]
pub struct Walk {
    pub config: Config,
    pub trace: Vec<Event>,
}

/// A walk of no events.
pub(crate) fn begun(alloc: Global, setting: &Setting) -> Result<Walk, AllocError>
    ensures { IfOk result (IsWalk setting.now) }
{
    Ok(Walk {
        config: Config::start(alloc, setting)?,
        trace: Vec::new(alloc),
    })
}

/// The walk after one event more.
fn applied(alloc: Global, setting: &Setting, walk: Walk, event: Event) -> Result<Walk, AllocError>
    ensures leads { IfOk result (λ w. w.config ≡ next setting.now walk.config event) }
    ensures trace { IfOk result (λ w. w.trace.items ≡ walk.trace.items ++ event ∷ []) }
{
    let Walk { config, trace } = walk;
    let mut config = config;
    let mut trace = trace;
    config.apply_event(alloc, setting, event)?;
    trace.push(event)?;
    Ok(Walk { config, trace })
}

/// The walk after one event more, if it can come.
pub(crate) fn with_event(
    alloc: Global,
    setting: &Setting,
    walk: Walk,
    event: Event,
) -> Result<Option<Walk>, AllocError>
    ensures { IfOk result (λ w. IfSome w (IsNext setting.now walk event)) }
{
    if can_come(&walk.config, setting, event) {
        let more = applied(alloc, setting, walk, event)?;
        Ok(Some(more))
    } else {
        Ok(None)
    }
}

/// The walk after these events more, if each of them can come.
pub(crate) fn with_events(
    alloc: Global,
    setting: &Setting,
    first: Walk,
    events: &[Event],
) -> Result<Option<Walk>, AllocError>
    requires { IsWalk setting.now first }
    ensures { IfOk result (λ w. IfSome w (GoesOn setting.now first)) }
{
    let mut walk = first;
    for event in events {
        match with_event(alloc, setting, walk, *event)? {
            Some(more) => walk = more,
            None => return Ok(None),
        }
    }
    Ok(Some(walk))
}
