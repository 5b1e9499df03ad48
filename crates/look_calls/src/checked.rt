//! What a trace shows of a call.

ghost use Rattle.std.specs.Prelude.{◌≡◌, IfOk, IfSome, take, true};
ghost use Rattle.look_calls.specs.Calls as def;
ghost use Rattle.look_calls.specs.Walks.{IsForkedBy, IsWalk};

use crate::found::CallEnd;
use crate::walk::{Walk, begun, with_event, with_events};
use ends_plain::config::{Config, Setting};
use std::alloc::{AllocError, Global};
use sts_code::{Program, args};
use sts_model::{End, Event, Frame};

/// A walk whose last event forks a task by this call.
#[derive(Drop)]
pub struct Forked {
    pub walk: Walk,
    pub function: u32,
    pub arguments: Vec<i64>,
}

/// The function and the arguments of a task.
#[derive(Drop)]
pub(crate) struct Called {
    pub(crate) function: u32,
    pub(crate) arguments: Vec<i64>,
}

impl Called {
    /// A copy.
    pub(crate) fn copied(&self, alloc: Global) -> Result<Called, AllocError> {
        Ok(Called {
            function: self.function,
            arguments: Vec::from_slice(alloc, self.arguments.as_slice())?,
        })
    }
}

/// How a task ended, and whether the joiner of its scope was told.
#[derive(Clone, Copy)]
pub(crate) struct Ending {
    pub(crate) end: End,
    pub(crate) is_heard: bool,
}

/// The first of these values.
#[tactic(auto, using(std::proofs::lemmas::List::take_all))]
fn first_values(alloc: Global, values: &[i64], count: usize) -> Result<Vec<i64>, AllocError>
    ensures { IfOk result (λ v. v.items ≡ take count values.now) }
{
    if count <= values.len() {
        Vec::from_slice(alloc, &values[..count])
    } else {
        Vec::from_slice(alloc, values)
    }
}

/// The first locals of a frame, one for each argument of its function.
fn first_locals(alloc: Global, program: &Program, frame: &Frame) -> Result<Vec<i64>, AllocError>
    ensures { IfOk result (λ v. v.items ≡ def.first_locals program.now frame.now) }
{
    let count = args(program, frame.function) as usize;
    first_values(alloc, &frame.locals, count)
}

/// Has no task this birth number yet?
fn is_unborn(config: &Config, task: u32) -> bool
    ensures { result ≡ true → def.IsUnborn config.now.position task }
{
    match config.position.world() {
        None => false,
        Some(world) => world.records().tasks_born() <= task as usize,
    }
}

/// The function of a task that lives, and its first locals.
pub(crate) fn call_of(
    alloc: Global,
    program: &Program,
    config: &Config,
    task: u32,
) -> Result<Option<Called>, AllocError>
    ensures { IfOk result (λ c. IfSome c (λ x.
        def.IsBorn program.now config.now.position task x.function x.arguments.items)) }
{
    let Some(world) = config.position.world() else {
        return Ok(None);
    };
    if !world.records().lives(task) {
        return Ok(None);
    }
    let frame = world.records().frame(task);
    Ok(Some(Called {
        function: frame.function,
        arguments: first_locals(alloc, program, frame)?,
    }))
}

/// How a task ended, if it has.
pub(crate) fn end_of(config: &Config, task: u32) -> Option<Ending>
    ensures { IfSome result (λ e. def.HasEnded config.now.position task e.end e.is_heard) }
{
    let world = config.position.world()?;
    let end = world.records().outcome(task)?;
    Some(Ending {
        end,
        is_heard: world.sub_state(task).is_some(),
    })
}

/// The walk after an event, if the event forks a task of this birth number.
fn forked_by(
    alloc: Global,
    setting: &Setting,
    before: Walk,
    fork: Event,
    task: u32,
) -> Result<Option<Forked>, AllocError>
    requires { IsWalk setting.now before }
    ensures { IfOk result (λ f. IfSome f (IsForkedBy setting.now task)) }
{
    if !is_unborn(&before.config, task) {
        return Ok(None);
    }
    let Some(walk) = with_event(alloc, setting, before, fork)? else {
        return Ok(None);
    };
    match call_of(alloc, &setting.program, &walk.config, task)? {
        None => Ok(None),
        Some(call) => Ok(Some(Forked {
            walk,
            function: call.function,
            arguments: call.arguments,
        })),
    }
}

/// The walk after the events up to the fork of a task, if the last of them forks it.
fn walk_to_fork(
    alloc: Global,
    setting: &Setting,
    earlier: &[Event],
    fork: Event,
    task: u32,
) -> Result<Option<Forked>, AllocError>
    ensures { IfOk result (λ f. IfSome f (IsForkedBy setting.now task)) }
{
    let first = begun(alloc, setting)?;
    match with_events(alloc, setting, first, earlier)? {
        None => Ok(None),
        Some(before) => forked_by(alloc, setting, before, fork, task),
    }
}

/// What the walk shows of the call of a task, after these events more.
fn ended(
    alloc: Global,
    setting: &Setting,
    forked: Forked,
    later: &[Event],
    task: u32,
) -> Result<Option<CallEnd>, AllocError>
    requires { IsForkedBy setting.now task forked }
    ensures { IfOk result (λ c. IfSome c (def.IsCallEnd setting.now)) }
{
    let Forked {
        walk,
        function,
        arguments,
    } = forked;
    let Some(last) = with_events(alloc, setting, walk, later)? else {
        return Ok(None);
    };
    match end_of(&last.config, task) {
        None => Ok(None),
        Some(ending) => Ok(Some(CallEnd {
            function,
            arguments,
            end: ending.end,
            is_heard: ending.is_heard,
            trace: last.trace,
        })),
    }
}

/// What a run shows of the call of a task: the events before its fork, the fork, and those after it.
///
/// # Errors
///
/// There is no memory.
pub(crate) fn checked(
    alloc: Global,
    setting: &Setting,
    earlier: &[Event],
    fork: Event,
    later: &[Event],
    task: u32,
) -> Result<Option<CallEnd>, AllocError>
    ensures { IfOk result (λ c. IfSome c (def.IsCallEnd setting.now)) }
{
    match walk_to_fork(alloc, setting, earlier, fork, task)? {
        None => Ok(None),
        Some(forked) => ended(alloc, setting, forked, later, task),
    }
}
