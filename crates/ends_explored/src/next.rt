//! The next states of a task, as they are found.

use crate::frames::push_and_go;
use ends_known::outside::Outside;
use ends_known::own::Own;
use ends_known::part::{Part, part_at};
use ends_known::seen::{Facts, Seen};
use ends_known::table::{Label, Table};
use laws_calls::table::Call;
use std::alloc::{AllocError, Global};
use sts_code::Program;
use sts_model::{End, Frame};

/// What can come of a state.
#[derive(Drop)]
pub enum Outcome {
    Ends(End),
    /// This call has to be explored first.
    Asks(Call),
    Goes(Vec<Step>),
    /// A scope has too many totals, or an instruction can't be done. In an accepted program each
    /// can.
    Breaks,
}

/// What the steps of a task depend on besides its state.
#[derive(Clone, Copy)]
pub struct Around<'a> {
    pub program: &'a Program,
    pub outside: Outside,
    pub table: &'a Table,
    pub call: &'a Call,
}

/// A next state.
#[derive(Drop)]
pub struct Step {
    pub own: Own,
    pub label: Label,
}

/// What a step does to the frame, and what a trace needs to know of it.
#[derive(Clone, Copy)]
pub struct Move {
    /// Where it goes.
    pub to: u32,
    /// The value that it pushes, if it pushes one.
    pub value: Option<i64>,
    pub label: Label,
}

/// The next states of a state so far.
#[derive(Drop)]
pub struct Steps<'a> {
    pub alloc: Global,
    pub around: Around<'a>,
    pub own: &'a Own,
    found: Vec<Step>,
    /// Can the instruction not be done, or has a scope too many totals?
    breaks: bool,
    /// Was there no memory for one of the states?
    lacks_memory: bool,
}

/// An open scope of a task, and its place among these.
#[derive(Clone, Copy)]
pub struct At<'a> {
    pub scope: &'a Seen,
    pub place: u32,
}

/// A subtask that a task looks at: its scope, the place of that among the open ones, and the
/// subtask's part with its place in the scope.
#[derive(Clone, Copy)]
pub struct Looked<'a> {
    pub scope: &'a Seen,
    pub place: u32,
    pub part: Part,
    pub child: u32,
}

impl Move {
    /// A step that pushes a value.
    pub fn pushes(to: u32, value: i64, label: Label) -> Move {
        Move {
            to,
            value: Some(value),
            label,
        }
    }

    /// A step that goes to a place.
    pub fn jumps(to: u32, label: Label) -> Move {
        Move {
            to,
            value: None,
            label,
        }
    }

    /// Does the step.
    fn moves(self, frame: &mut Frame) {
        match self.value {
            Some(value) => {
                push_and_go(frame, self.to, 0, value);
            }
            None => frame.goes(self.to, 0),
        }
    }
}

impl<'a> Steps<'a> {
    /// No states yet.
    pub fn new(alloc: Global, around: Around<'a>, own: &'a Own) -> Steps<'a> {
        Steps {
            alloc,
            around,
            own,
            found: Vec::new(alloc),
            breaks: false,
            lacks_memory: false,
        }
    }

    /// How many interrupts are left to the task.
    pub fn left(&self) -> u32 {
        self.around.outside.interrupts.saturating_sub(self.own.used)
    }

    /// Notes that the instruction can't be done.
    pub fn break_off(&mut self) {
        self.breaks = true;
    }

    fn push(&mut self, own: Result<Own, AllocError>, label: Label) -> Result<(), AllocError> {
        let own = own?;
        self.found.push(Step { own, label })?;
        Ok(())
    }

    /// Adds a state, or notes that there is no memory for it.
    pub fn add(&mut self, own: Result<Own, AllocError>, label: Label) {
        if self.push(own, label).is_err() {
            self.lacks_memory = true;
        }
    }

    /// The state after a step, with this scope at a place.
    fn moved(
        &self,
        place: u32,
        scope: Result<Seen, AllocError>,
        step: Move,
    ) -> Result<Own, AllocError> {
        let mut next = self.own.with_scope(self.alloc, place, scope?)?;
        step.moves(&mut next.frame);
        Ok(next)
    }

    /// Adds the state after a step, with this scope at a place.
    pub fn add_with(&mut self, place: u32, scope: Result<Seen, AllocError>, step: Move) {
        let next = self.moved(place, scope, step);
        self.add(next, step.label);
    }

    /// The same, with other facts of a scope.
    pub fn add_facts(&mut self, at: At<'_>, facts: Facts, step: Move) {
        let scope = at.scope.with(self.alloc, facts);
        self.add_with(at.place, scope, step);
    }

    /// The same, if there is such a scope.
    pub fn add_if(&mut self, place: u32, scope: Result<Option<Seen>, AllocError>, step: Move) {
        match scope {
            Ok(Some(scope)) => self.add_with(place, Ok(scope), step),
            Ok(None) => {}
            Err(_) => self.lacks_memory = true,
        }
    }

    /// Takes the next states out, unless the instruction can't be done.
    pub fn finish(&mut self) -> Result<Outcome, AllocError> {
        if self.lacks_memory {
            return Err(AllocError);
        }
        if self.breaks {
            return Ok(Outcome::Breaks);
        }
        let mut found = Vec::new(self.alloc);
        std::mem::swap(&mut found, &mut self.found);
        Ok(Outcome::Goes(found))
    }
}

impl<'a> Around<'a> {
    /// May the scope expire?
    pub fn may_expire(&self, scope: &Seen) -> bool {
        self.outside.expiries && scope.can_expire()
    }
}

/// The subtask at a place of the scope at a place.
pub fn looked_at(own: &Own, place: u32, child: u32) -> Option<Looked<'_>> {
    let scope = own.scope(place)?;
    let part = part_at(scope.runs.as_slice(), child)?;
    Some(Looked {
        scope,
        place,
        part,
        child,
    })
}
