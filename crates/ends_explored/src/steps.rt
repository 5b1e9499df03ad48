//! What can come of a state of a task by itself.

use crate::frames::{arguments, environment, next_place, run_frame};
use crate::joins::{Targets, joined};
use crate::next::{Around, At, Outcome, Steps, looked_at};
use crate::scopes::{Question, asked, cancelled_at, closed, emptied, interrupted, opened};
use crate::subtasks::{came, cased};
use ends_known::own::Own;
use ends_known::part::{Filter, Part, count_parts, push_parts};
use ends_known::seen::Seen;
use ends_known::table::Label;
use laws_calls::table::{Call, Held, Knowledge};
use std::alloc::{AllocError, Global};
use sts_code::{Instr, args};
use sts_frames::{emptied_slot, instr_at};
use sts_model::End;

/// A `fork`: the place of the scope among the open ones, and how many operands are the arguments. Then
/// come the call by its number, if it may run, and the slot that is to hold the subtask.
#[derive(Clone, Copy)]
struct Fork {
    place: u32,
    count: u8,
    call: Option<u32>,
    handle: Option<u8>,
}

/// The part of a subtask that was just forked.
fn new_part(scope: &Seen, call: Option<u32>) -> Part {
    let filter = match call {
        Some(_) => Filter::All,
        None => Filter::Nothing,
    };
    Part {
        call,
        filter,
        is_open: true,
        is_early: !scope.facts.has_failure,
    }
}

/// Adds a subtask to the scope at a place, and returns its place there.
fn push_part(own: &mut Own, place: u32, call: Option<u32>) -> Result<u32, AllocError> {
    let Some(scope) = own.scopes.get_mut(place as usize) else {
        return Ok(0);
    };
    let child = count_parts(scope.runs.as_slice());
    let part = new_part(scope, call);
    push_parts(&mut scope.runs, part, 1)?;
    Ok(child)
}

/// Lets a task fork.
fn forks(own: &mut Own, fork: Fork) -> Result<(), AllocError> {
    let to = next_place(&own.frame);
    own.frame.goes(to, fork.count as usize);
    let child = push_part(own, fork.place, fork.call)?;
    if let Some(slot) = fork.handle {
        own.set_slot(slot, Held::Sub(fork.place, child));
    }
    Ok(())
}

/// The state after a `fork`.
fn after_fork(alloc: Global, own: &Own, fork: Fork) -> Result<Own, AllocError> {
    let mut next = own.copied(alloc)?;
    forks(&mut next, fork)?;
    Ok(next)
}

/// What comes of a `fork` after the calls that it needs were explored.
fn forked(fork: Fork, steps: &mut Steps<'_>) -> Result<Outcome, AllocError> {
    let next = after_fork(steps.alloc, steps.own, fork);
    steps.add(next, Label::Plain);
    steps.finish()
}

/// The call of a `fork` of a function.
fn call_of(function: u32, count: u8, steps: &Steps<'_>) -> Result<Call, AllocError> {
    let frame = &steps.own.frame;
    let args = arguments(steps.alloc, frame, count)?;
    let environment = environment(steps.alloc, frame, steps.around.call)?;
    Ok(Call {
        function,
        args,
        environment,
    })
}

/// What comes of a `fork` in a scope of whose cancel the owner doesn't know.
fn forked_call(function: u32, fork: Fork, steps: &mut Steps<'_>) -> Result<Outcome, AllocError> {
    let asked = call_of(function, fork.count, steps)?;
    let call = steps.around.table.find(&asked);
    if call.is_none() {
        return Ok(Outcome::Asks(asked));
    }
    forked(Fork { call, ..fork }, steps)
}

/// What comes of a `fork` in the scope at a place.
fn fork_in(
    place: u32,
    function: u32,
    handle: Option<u8>,
    steps: &mut Steps<'_>,
) -> Result<Outcome, AllocError> {
    let own = steps.own;
    let fork = Fork {
        place,
        count: args(steps.around.program, function),
        call: None,
        handle,
    };
    match own.scope(place) {
        Some(scope) if function < own.frame.function => match scope.facts.knowledge {
            Knowledge::Unseen => forked_call(function, fork, steps),
            _ => forked(fork, steps),
        },
        _ => Ok(Outcome::Breaks),
    }
}

/// Adds the states after an instruction about the subtask that a slot holds.
fn asked_subtask(slot: u8, instr: Instr, steps: &mut Steps<'_>) {
    let own = steps.own;
    let Held::Sub(scope, part) = own.slot(slot) else {
        return steps.break_off();
    };
    let Some(at) = looked_at(own, scope, part) else {
        return steps.break_off();
    };
    match instr {
        Instr::Case {
            success,
            failed,
            ..
        } => cased(&at, success, failed, steps),
        _ => came(&at, false, next_place(&own.frame), Label::Plain, steps),
    }
}

/// The open scope that a slot holds, which the task owns.
fn owned(own: &Own, slot: u8) -> Option<At<'_>> {
    let place = own.own_scope(slot)?;
    let scope = own.scope(place)?;
    Some(At { scope, place })
}

/// Adds the states after an instruction about the scope that a slot holds, which the task owns.
fn asked_scope(slot: u8, instr: Instr, steps: &mut Steps<'_>) -> Result<(), AllocError> {
    let Some(at) = owned(steps.own, slot) else {
        steps.break_off();
        return Ok(());
    };
    match instr {
        Instr::Join {
            failed,
            timeout,
            interrupted,
            ..
        } => {
            let targets = Targets {
                failed: failed.unwrap_or(0),
                timeout: timeout.unwrap_or(0),
                interrupted,
            };
            joined(at, targets, steps)
        }
        Instr::Tally(_, kind) => asked(at, Question::Count(kind), steps),
        Instr::Total(_) => asked(at, Question::Total, steps),
        _ => closed(at, steps),
    }
}

/// Adds the states after an instruction.
fn stepped(instr: Instr, steps: &mut Steps<'_>) -> Result<(), AllocError> {
    match instr {
        Instr::Open {
            slot,
            joiner,
            timed,
        } => opened(slot, joiner, timed, steps),
        Instr::Interrupted => interrupted(steps),
        Instr::Cancelled(slot) => return cancelled_at(slot, steps),
        Instr::Join { slot, .. }
        | Instr::Close(slot)
        | Instr::Tally(slot, _)
        | Instr::Total(slot) => return asked_scope(slot, instr, steps),
        Instr::Case { handle: slot, .. } | Instr::Get(slot) | Instr::Except(slot) => {
            asked_subtask(slot, instr, steps)
        }
        _ => match emptied_slot(instr) {
            Some(slot) => emptied(slot, steps),
            None => steps.break_off(),
        },
    }
    Ok(())
}

/// The states after an instruction.
fn goes(instr: Instr, steps: &mut Steps<'_>) -> Result<Outcome, AllocError> {
    stepped(instr, steps)?;
    steps.finish()
}

/// What comes of an instruction that the frame alone can't do.
fn outcome_of(instr: Instr, steps: &mut Steps<'_>) -> Result<Outcome, AllocError> {
    let own = steps.own;
    match instr {
        Instr::Ret => Ok(Outcome::Ends(End::Success(own.frame.operand(0)))),
        Instr::Fail => Ok(Outcome::Ends(End::Failed(own.frame.operand(0)))),
        Instr::Fork {
            slot,
            function,
            handle,
        } => match own.own_scope(slot) {
            Some(place) => fork_in(place, function, handle, steps),
            None => Ok(Outcome::Breaks),
        },
        _ => goes(instr, steps),
    }
}

/// What comes of a state after `run_frame`.
fn followed_by(alloc: Global, around: Around<'_>, own: &Own) -> Result<Outcome, AllocError> {
    match instr_at(around.program, &own.frame) {
        None => Ok(Outcome::Breaks),
        Some(instr) => {
            let mut steps = Steps::new(alloc, around, own);
            outcome_of(instr, &mut steps)
        }
    }
}

/// What comes of a state.
pub fn followed(alloc: Global, around: Around<'_>, own: &Own) -> Result<Outcome, AllocError> {
    let mut own = own.copied(alloc)?;
    run_frame(&mut own.frame, around.program, around.call);
    followed_by(alloc, around, &own)
}
