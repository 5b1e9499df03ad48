//! What an owner learns of a scope when it looks.

use ends_known::part::{Filter, Part, Run, all_heard, is_sure_trigger};
use ends_known::pick::{if_fits, with_fitting};
use ends_known::seen::{Facts, Seen};
use ends_known::table::Table;
use laws_calls::joiners::{is_trigger, limit};
use laws_calls::table::Knowledge;
use std::alloc::{AllocError, Global};
use sts_model::End;

/// A scope that its joiner has cancelled, and the end that did it, if one end alone can.
#[derive(Drop)]
pub struct Cancelled {
    pub end: Option<End>,
    pub scope: Seen,
}

/// How many ends are known to count towards a cancel.
pub fn sure_triggers(table: &Table, scope: &Seen) -> u32 {
    let mut count: u32 = 0;
    for run in scope.runs.as_slice() {
        if is_sure_trigger(scope.facts.joiner, run.part, table.ways_of(run.part)) {
            count = count.saturating_add(run.count);
        }
    }
    count
}

/// May it be that the scope is not cancelled, though the owner doesn't know it?
pub fn may_go_on(table: &Table, scope: &Seen) -> bool {
    scope.facts.knowledge == Knowledge::Unseen
        && sure_triggers(table, scope) < limit(scope.facts.joiner)
}

/// The same scope after all its subtasks ended without a cancel, as its owner knows.
pub fn heard(alloc: Global, scope: &Seen, facts: Facts) -> Result<Seen, AllocError> {
    Ok(Seen {
        facts: Facts {
            knowledge: Knowledge::Heard,
            ..facts
        },
        runs: all_heard(alloc, scope.runs.as_slice())?,
    })
}

/// The facts, once it is known that the joiner has cancelled the scope.
fn by_joiner(facts: Facts) -> Facts {
    Facts {
        knowledge: Knowledge::ByJoiner,
        ..facts
    }
}

/// If the ends that the owner knows of cancel the scope, it knows that, too.
pub fn decided(table: &Table, scope: Seen) -> Seen {
    if scope.facts.knowledge != Knowledge::Unseen || may_go_on(table, &scope) {
        return scope;
    }
    Seen {
        facts: by_joiner(scope.facts),
        runs: scope.runs,
    }
}

/// The only way in which the joiner has cancelled the scope, by several ends.
pub fn only_way(alloc: Global, scope: Seen) -> Result<Vec<Cancelled>, AllocError> {
    let mut found = Vec::new(alloc);
    found.push(Cancelled { end: None, scope })?;
    Ok(found)
}

/// The ways in which the joiner may have cancelled a scope by one end, as they are found.
#[derive(Drop)]
struct Cancels<'a> {
    alloc: Global,
    table: &'a Table,
    scope: &'a Seen,
    /// How many interrupts are left to the owner.
    left: u32,
    found: Vec<Cancelled>,
}

impl<'a> Cancels<'a> {
    /// Adds the scope that this end cancelled, if there is one.
    fn push(&mut self, end: End, scope: Option<Seen>) -> Result<(), AllocError> {
        if let Some(scope) = scope {
            let end = Some(end);
            self.found.push(Cancelled { end, scope })?;
        }
        Ok(())
    }

    /// The scope that the part at a place cancelled, if that fits.
    fn with(&self, place: u32, part: Part) -> Result<Option<Seen>, AllocError> {
        let facts = by_joiner(self.scope.facts);
        with_fitting(
            self.alloc, self.table, self.scope, self.left, facts, place, part,
        )
    }

    /// Adds the scope that the part at a place cancelled by one of its ways, if that fits.
    fn push_by(&mut self, place: u32, part: Part) -> Result<(), AllocError> {
        let joiner = self.scope.facts.joiner;
        let mut way: u32 = 0;
        for it in self.table.ways_of(part) {
            if part.filter.allows(joiner, way, it.end) && is_trigger(joiner, it.end) {
                let only = Part {
                    filter: Filter::Only(way),
                    is_open: false,
                    ..part
                };
                let next = self.with(place, only)?;
                self.push(it.end, next)?;
            }
            way = way.saturating_add(1);
        }
        Ok(())
    }

    /// The same for each part of a run, the first of which is at this place.
    fn push_by_run(&mut self, first: u32, run: &Run) -> Result<(), AllocError> {
        for k in 0..run.count {
            self.push_by(first.saturating_add(k), run.part)?;
        }
        Ok(())
    }

    /// The same for each part.
    fn push_all(&mut self) -> Result<(), AllocError> {
        let mut first: u32 = 0;
        for run in self.scope.runs.as_slice() {
            self.push_by_run(first, run)?;
            first = first.saturating_add(run.count);
        }
        Ok(())
    }
}

/// The scope that its joiner has cancelled by several ends, if that fits.
fn cancelled_by_many(
    alloc: Global,
    table: &Table,
    scope: &Seen,
    left: u32,
) -> Result<Option<Seen>, AllocError> {
    let next = scope.with(alloc, by_joiner(scope.facts))?;
    if_fits(alloc, table, next, left)
}

/// The ways in which the joiner may have cancelled the scope.
pub fn cancelled_by(
    alloc: Global,
    table: &Table,
    scope: &Seen,
    left: u32,
) -> Result<Vec<Cancelled>, AllocError> {
    if limit(scope.facts.joiner) > 1 {
        return match cancelled_by_many(alloc, table, scope, left)? {
            Some(scope) => only_way(alloc, scope),
            None => Ok(Vec::new(alloc)),
        };
    }
    let mut cancels = Cancels {
        alloc,
        table,
        scope,
        left,
        found: Vec::new(alloc),
    };
    cancels.push_all()?;
    Ok(cancels.found)
}
