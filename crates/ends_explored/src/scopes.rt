//! The next states of a task that opens a scope, looks at one, or closes one.

use crate::frames::{next_place, push_and_go, push_entry};
use crate::learned::{Cancelled, cancelled_by, may_go_on};
use crate::next::{At, Move, Steps};
use ends_known::call::number;
use ends_known::own::Own;
use ends_known::pick::{Count, Needs, Sum, fitting_within, least_cost};
use ends_known::seen::{Facts, Seen};
use ends_known::table::{Label, Table};
use laws_calls::table::{Asked, Held, Knowledge};
use std::alloc::{AllocError, Global};
use sts_code::{Joiner, Kind};
use sts_model::Entry;

/// The most totals of a scope that a search keeps.
const MOST_TOTALS: usize = 16_384;

/// The state after an `open`.
fn after_open(
    alloc: Global,
    own: &Own,
    slot: u8,
    joiner: Joiner,
    timed: bool,
) -> Result<Own, AllocError> {
    let mut next = own.copied(alloc)?;
    let place = number(next.scopes.len());
    let to = next_place(&next.frame);
    next.frame.goes(to, 0);
    push_entry(&mut next.frame, Entry::Scope(place));
    next.set_slot(slot, Held::Own(place));
    next.scopes.push(Seen::opened(alloc, joiner, timed))?;
    Ok(next)
}

/// Adds the state after an `open`.
pub fn opened(slot: u8, joiner: Joiner, timed: bool, steps: &mut Steps<'_>) {
    let next = after_open(steps.alloc, steps.own, slot, joiner, timed);
    steps.add(next, Label::Plain);
}

/// The state after a value was pushed, and the task took this number of interrupts more.
fn pushed(alloc: Global, own: &Own, value: i64, used: u32) -> Result<Own, AllocError> {
    let mut next = own.copied(alloc)?;
    let to = next_place(&next.frame);
    push_and_go(&mut next.frame, to, 0, value);
    next.used = next.used.saturating_add(used);
    Ok(next)
}

/// Adds the state after the answer no.
fn denied(steps: &mut Steps<'_>) {
    let next = pushed(steps.alloc, steps.own, 0, 0);
    steps.add(next, Label::Plain);
}

/// Adds the states after an `interrupted`.
pub fn interrupted(steps: &mut Steps<'_>) {
    denied(steps);
    if steps.left() > 0 {
        let next = pushed(steps.alloc, steps.own, 1, 1);
        steps.add(next, Label::Pays);
    }
}

/// Adds the state after `cancelled` answers yes, for each way in which the joiner has cancelled the
/// scope, the last one first.
fn add_cancelled(place: u32, step: Move, found: &mut Vec<Cancelled>, steps: &mut Steps<'_>) {
    for _ in 0..found.len() {
        if let Some(one) = found.pop() {
            steps.add_with(place, Ok(one.scope), step);
        }
    }
}

/// Adds the states after a look that shows that a scope is cancelled. Its owner didn't know it.
fn looked(at: At<'_>, step: Move, steps: &mut Steps<'_>) -> Result<(), AllocError> {
    let mut found = cancelled_by(steps.alloc, steps.around.table, at.scope, steps.left())?;
    found.reverse();
    add_cancelled(at.place, step, &mut found, steps);
    if steps.around.may_expire(at.scope) {
        let facts = Facts {
            knowledge: Knowledge::Late,
            expired: true,
            ..at.scope.facts
        };
        steps.add_facts(at, facts, step);
    }
    Ok(())
}

/// Adds the states after `cancelled` of a scope that the task owns.
fn cancelled(at: At<'_>, steps: &mut Steps<'_>) -> Result<(), AllocError> {
    let facts = at.scope.facts;
    let to = next_place(&steps.own.frame);
    if facts.knowledge == Knowledge::Heard || may_go_on(steps.around.table, at.scope) {
        let step = Move::pushes(to, 0, Label::Open { scope: at.place });
        steps.add_facts(at, facts, step);
    }
    let step = Move::pushes(to, 1, Label::Plain);
    match facts.knowledge {
        Knowledge::Unseen => return looked(at, step, steps),
        Knowledge::ByJoiner | Knowledge::Late => steps.add_facts(at, facts, step),
        Knowledge::Heard => {}
    }
    Ok(())
}

/// Adds the states after `cancelled` of a slot.
pub fn cancelled_at(slot: u8, steps: &mut Steps<'_>) -> Result<(), AllocError> {
    match steps.own.slot(slot) {
        Held::Lent => denied(steps),
        Held::Own(place) => match steps.own.scope(place) {
            Some(scope) => return cancelled(At { scope, place }, steps),
            None => steps.break_off(),
        },
        Held::Empty | Held::Sub(..) => steps.break_off(),
    }
    Ok(())
}

/// What a task asks of a scope.
#[derive(Clone, Copy)]
pub enum Question {
    Count(Kind),
    Total,
}

impl Question {
    /// Which counts a sum has to keep: those that the owner knows, and the one that it asks for now.
    fn needs(self, asked: Asked) -> Needs {
        Needs::asked(self.noted(asked, 0))
    }

    /// The most sums that are kept for the answers. If a scope has more, the search breaks off.
    fn most(self) -> usize {
        match self {
            Question::Count(_) => usize::MAX,
            Question::Total => MOST_TOTALS,
        }
    }

    /// The answer.
    fn answer(self, count: Count) -> i64 {
        match self {
            Question::Count(Kind::S) => i64::from(count.successes),
            Question::Count(Kind::F) => i64::from(count.failures),
            Question::Count(Kind::U) => i64::from(count.unavailable),
            Question::Total => count.total,
        }
    }

    /// What was asked, with this answer.
    fn noted(self, asked: Asked, answer: i64) -> Asked {
        let count = Some(u32::try_from(answer).unwrap_or(u32::MAX));
        match self {
            Question::Count(Kind::S) => Asked {
                successes: count,
                ..asked
            },
            Question::Count(Kind::F) => Asked {
                failures: count,
                ..asked
            },
            Question::Count(Kind::U) => Asked {
                unavailable: count,
                ..asked
            },
            Question::Total => Asked {
                total: Some(answer),
                ..asked
            },
        }
    }
}

/// Each answer once.
fn answers_of(alloc: Global, question: Question, sums: &[Sum]) -> Result<Vec<i64>, AllocError> {
    let mut answers = Vec::new(alloc);
    for sum in sums {
        let answer = question.answer(sum.count);
        if !answers.contains(&answer) {
            answers.push(answer)?;
        }
    }
    Ok(answers)
}

/// Adds a state for each answer.
fn add_answers(at: At<'_>, question: Question, answers: &[i64], steps: &mut Steps<'_>) {
    let to = next_place(&steps.own.frame);
    for answer in answers {
        let facts = Facts {
            asked: question.noted(at.scope.facts.asked, *answer),
            ..at.scope.facts
        };
        steps.add_facts(at, facts, Move::pushes(to, *answer, Label::Plain));
    }
}

/// Adds a state for each answer of these sums.
fn answered(
    at: At<'_>,
    question: Question,
    sums: &[Sum],
    steps: &mut Steps<'_>,
) -> Result<(), AllocError> {
    let answers = answers_of(steps.alloc, question, sums)?;
    add_answers(at, question, answers.as_slice(), steps);
    Ok(())
}

/// Adds a state for each answer that fits, if there are not too many.
pub fn asked(at: At<'_>, question: Question, steps: &mut Steps<'_>) -> Result<(), AllocError> {
    let needs = question.needs(at.scope.facts.asked);
    let (table, left, most) = (steps.around.table, steps.left(), question.most());
    match fitting_within(steps.alloc, table, at.scope, left, needs, most)? {
        Some(sums) => answered(at, question, sums.as_slice(), steps),
        None => {
            steps.break_off();
            Ok(())
        }
    }
}

/// Do the ways of the scope's subtasks take no interrupts?
fn is_free(table: &Table, scope: &Seen) -> bool {
    scope.runs.iter().all(|run| table.ways_of(run.part).iter().all(|way| way.cost == 0))
}

/// The fewest interrupts that the subtasks of a scope took.
fn cost_of(scope: &Seen, steps: &Steps<'_>) -> Result<Option<u32>, AllocError> {
    // Each state that is kept has a pick that fits.
    if is_free(steps.around.table, scope) {
        return Ok(Some(0));
    }
    least_cost(steps.alloc, steps.around.table, scope, steps.left())
}

/// The state after a `close` of the scope at a place, whose subtasks took this number of interrupts.
fn after_close(alloc: Global, own: &Own, place: u32, cost: u32) -> Result<Own, AllocError> {
    let mut next = own.copied(alloc)?;
    let to = next_place(&next.frame);
    next.frame.goes(to, 0);
    next.frame.entries.drop_top(1);
    next.scopes.truncate(place as usize);
    next.empty_slots_of(place);
    next.used = next.used.saturating_add(cost);
    Ok(next)
}

/// Adds the state after a `close`.
pub fn closed(at: At<'_>, steps: &mut Steps<'_>) -> Result<(), AllocError> {
    if let Some(cost) = cost_of(at.scope, steps)? {
        let next = after_close(steps.alloc, steps.own, at.place, cost);
        steps.add(next, Label::Plain);
    }
    Ok(())
}

/// The state after a slot was emptied.
fn after_emptied(alloc: Global, own: &Own, slot: u8) -> Result<Own, AllocError> {
    let mut next = own.copied(alloc)?;
    let to = next_place(&next.frame);
    next.frame.goes(to, 0);
    next.set_slot(slot, Held::Empty);
    Ok(next)
}

/// Adds the state after a slot was emptied.
pub fn emptied(slot: u8, steps: &mut Steps<'_>) {
    let next = after_emptied(steps.alloc, steps.own, slot);
    steps.add(next, Label::Plain);
}
