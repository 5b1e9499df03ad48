//! The ends of calls that a search by calls finds.

ghost use Rattle.std.specs.Prelude.{◌≡◌, [], IfOk, IfSome};
ghost use Rattle.look_calls.specs.Calls.{AreCallEnds, IsCallEnd};
ghost use Rattle.ends_plain.specs.declared.config.Setting.{Setting};

use crate::attempts::Attempts;
use crate::checked::{Called, Ending, checked};
use crate::found::{CallEnd, CallsFound};
use crate::runs::{Ended, Run};
use ends_explored::search::{Search, explored};
use ends_known::outside::Outside;
use ends_known::table::Explored;
use ends_plain::config::Setting;
use std::alloc::{AllocError, Global};
use sts_model::Event;

/// What the first events of a run show of a task.
fn shown(
    alloc: Global,
    setting: &Setting,
    events: &[Event],
    ended: &Ended,
) -> Result<Option<CallEnd>, AllocError>
    ensures { IfOk result (λ c. IfSome c (IsCallEnd setting.now)) }
{
    let (fork, end) = (ended.fork, ended.events);
    if fork >= end || end > events.len() {
        return Ok(None);
    }
    let (earlier, later) = (&events[..fork], &events[fork + 1..end]);
    checked(alloc, setting, earlier, events[fork], later, ended.task)
}

/// Are these the same end of the same call?
fn is_same(one: &CallEnd, called: &Called, ending: Ending) -> bool {
    one.function == called.function
        && one.end == ending.end
        && one.is_heard == ending.is_heard
        && one.arguments.as_slice() == called.arguments.as_slice()
}

/// Is the end of a task among these?
fn is_listed(found: &[CallEnd], ended: &Ended) -> bool {
    found
        .iter()
        .any(|one| is_same(one, &ended.called, ended.ending))
}

/// The ends with one more.
fn with_end(found: Vec<CallEnd>, one: CallEnd) -> Result<Vec<CallEnd>, AllocError>
    ensures { (g : Setting) → AreCallEnds g found.items → IsCallEnd g one
        → IfOk result (λ all. AreCallEnds g all.items) }
{
    let mut found = found;
    found.push(one)?;
    Ok(found)
}

/// The ends with one more, if there is one.
fn with_shown(found: Vec<CallEnd>, one: Option<CallEnd>) -> Result<Vec<CallEnd>, AllocError>
    ensures { (g : Setting) → AreCallEnds g found.items → IfSome one (IsCallEnd g)
        → IfOk result (λ all. AreCallEnds g all.items) }
{
    match one {
        None => Ok(found),
        Some(one) => with_end(found, one),
    }
}

/// The ends with that of a task of a run, unless it is there.
fn with_ended(
    alloc: Global,
    setting: &Setting,
    found: Vec<CallEnd>,
    events: &[Event],
    ended: &Ended,
) -> Result<Vec<CallEnd>, AllocError>
    requires { AreCallEnds setting.now found.items }
    ensures { IfOk result (λ all. AreCallEnds setting.now all.items) }
{
    if is_listed(found.as_slice(), ended) {
        return Ok(found);
    }
    let one = shown(alloc, setting, events, ended)?;
    with_shown(found, one)
}

/// The ends with those that a run shows. It shows the end of its own task, and the ends of tasks
/// below that one.
fn with_run(
    alloc: Global,
    setting: &Setting,
    found: Vec<CallEnd>,
    run: &Run,
) -> Result<Vec<CallEnd>, AllocError>
    requires { AreCallEnds setting.now found.items }
    ensures { IfOk result (λ all. AreCallEnds setting.now all.items) }
{
    let events = run.events.as_slice();
    let mut found = with_ended(alloc, setting, found, events, &run.target)?;
    for ended in run.below.as_slice() {
        found = with_ended(alloc, setting, found, events, ended)?;
    }
    Ok(found)
}

/// No ends, after a search that found this number of states.
pub fn no_calls(alloc: Global, states: usize, is_cut_off: bool) -> CallsFound
    ensures none { result.found.items ≡ [] }
    ensures sound { (g : Setting) → AreCallEnds g result.found.items }
    ensures states { result.states ≡ states }
    ensures cut_off { result.is_cut_off ≡ is_cut_off }
{
    CallsFound {
        found: Vec::new(alloc),
        states,
        is_cut_off,
    }
}

/// The ends that the runs show for which a search has a reason.
fn tried(
    alloc: Global,
    setting: &Setting,
    search: &Search,
    root: &Explored,
) -> Result<CallsFound, AllocError>
    ensures { IfOk result (λ r. AreCallEnds setting.now r.found.items) }
{
    let mut attempts = Attempts::begin(alloc, setting, search, root)?;
    let mut found = Vec::new(alloc);
    for _ in 0..u64::MAX {
        let Some(run) = attempts.next(alloc, setting)? else {
            break;
        };
        attempts.note(run.target.ending.is_heard);
        found = with_run(alloc, setting, found, &run)?;
    }
    Ok(CallsFound {
        found,
        states: search.states,
        is_cut_off: attempts.is_cut_off() || !search.is_closed(),
    })
}

/// The ends of the calls of an accepted program, each with the events of a run that shows it. The
/// search stops once it has more than `most` states.
///
/// # Errors
///
/// There is no memory.
pub fn call_ends(alloc: Global, setting: &Setting, most: usize) -> Result<CallsFound, AllocError>
    ensures { IfOk result (λ r. AreCallEnds setting.now r.found.items) }
{
    let outside = Outside {
        expiries: setting.expiries,
        interrupts: setting.interrupts,
    };
    let search = explored(alloc, &setting.program, outside, most)?;
    match search.root() {
        Some(root) => tried(alloc, setting, &search, root),
        None => Ok(no_calls(alloc, search.states, true)),
    }
}
