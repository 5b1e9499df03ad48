//! The calls that were explored, and what each may come to.

use crate::call::{Way, hash_of, number};
use crate::own::Own;
use crate::part::Part;
use ends_search::index::Index;
use laws_calls::table::Call;
use std::alloc::{AllocError, Global};
use sts_same::same::Same;

/// What a trace needs to know of a step.
#[derive(Clone, Copy)]
pub enum Label {
    Plain,
    /// An interrupt comes just before the step.
    Pays,
    /// The step shows that this scope isn't cancelled yet.
    Open { scope: u32 },
    /// The step shows that this part hasn't ended yet.
    Lives { scope: u32, part: u32 },
    /// The step shows that this part failed first.
    First { scope: u32, part: u32 },
}

/// A state of a task, and where it came from.
#[derive(Drop)]
pub struct Node {
    pub own: Own,
    pub before: Option<u32>,
    pub label: Label,
    pub is_done: bool,
}

/// A call whose states were found.
#[derive(Drop)]
pub struct Explored {
    pub call: Call,
    pub nodes: Vec<Node>,
    pub ways: Vec<Way>,
}

/// The calls whose states were all found.
#[derive(Drop)]
pub struct Table {
    pub calls: Vec<Explored>,
    index: Index,
}

impl Table {
    /// No calls yet.
    pub fn new(alloc: Global) -> Result<Table, AllocError> {
        Ok(Table {
            calls: Vec::new(alloc),
            index: Index::new(alloc)?,
        })
    }

    fn is_at(&self, place: usize, call: &Call) -> bool {
        match self.calls.get(place) {
            Some(explored) => explored.call.same(call),
            None => false,
        }
    }

    /// The number of a call, if it was explored.
    pub fn find(&self, call: &Call) -> Option<u32> {
        let hash = hash_of(call);
        let mut place = self.index.first(hash);
        for _ in 0..self.calls.len() {
            if place >= self.calls.len() {
                return None;
            }
            if self.is_at(place, call) {
                return Some(number(place));
            }
            place = self.index.behind(place, hash);
        }
        None
    }

    /// Adds a call.
    pub fn add(&mut self, alloc: Global, explored: Explored) -> Result<(), AllocError> {
        self.index.add(alloc, hash_of(&explored.call))?;
        self.calls.push(explored)?;
        Ok(())
    }

    /// The ways of the call of this number.
    pub fn ways(&self, call: Option<u32>) -> &[Way] {
        let Some(call) = call else {
            return &[];
        };
        match self.calls.get(call as usize) {
            Some(explored) => explored.ways.as_slice(),
            None => &[],
        }
    }

    /// The ways of a part's call.
    pub fn ways_of(&self, part: Part) -> &[Way] {
        self.ways(part.call)
    }
}
