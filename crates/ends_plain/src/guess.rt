//! Guesses the names of a state's tasks and scopes in another state. A guess is only a hint. It has
//! no contract.

use crate::names::{NameLists, name};
use std::alloc::{AllocError, Global};
use sts_world::{Records, World};

/// Names from one state to another, and back.
#[derive(Drop)]
pub struct Guess {
    pub names: NameLists,
    pub back: NameLists,
    /// For each task of the other state, the first scope that may be its next one.
    nexts: Vec<u32>,
}

/// Names that all are 0.
fn blank(alloc: Global, tasks: usize, scopes: usize) -> Result<NameLists, AllocError> {
    Ok(NameLists {
        tasks: Vec::from_elem(alloc, 0, tasks)?,
        scopes: Vec::from_elem(alloc, 0, scopes)?,
    })
}

/// Writes a name, if there is room for it.
fn put(names: &mut Vec<u32>, number: u32, name: u32) {
    if (number as usize) < names.len() {
        names[number as usize] = name;
    }
}

/// The first scope of this owner, from this one on.
fn scope_of(records: &Records, owner: u32, from: u32) -> Option<u32> {
    let born = records.scopes_born() as u32;
    (from..born).find(|s| records.owner(*s) == owner)
}

impl Guess {
    /// All names are 0.
    fn blank(alloc: Global, tasks: usize, scopes: usize) -> Result<Guess, AllocError> {
        let names = blank(alloc, tasks, scopes)?;
        let back = blank(alloc, tasks, scopes)?;
        let nexts = Vec::from_elem(alloc, 0, tasks)?;
        Ok(Guess { names, back, nexts })
    }

    /// Names the subtasks of a scope, place by place.
    fn name_subtasks(&mut self, ours: &[u32], theirs: &[u32]) {
        for (t, u) in ours.iter().zip(theirs.iter()) {
            put(&mut self.names.tasks, *t, *u);
            put(&mut self.back.tasks, *u, *t);
        }
    }

    /// Names a scope of this owner.
    fn name_scope(&mut self, owner: u32, s: u32, r: u32) {
        put(&mut self.nexts, owner, r.saturating_add(1));
        put(&mut self.names.scopes, s, r);
        put(&mut self.back.scopes, r, s);
    }

    /// The scope of the other state that is the next one of the owner of this scope, and the owner.
    fn next_of(&self, ours: &Records, theirs: &Records, s: u32) -> (u32, Option<u32>) {
        let owner = name(self.names.tasks.as_slice(), ours.owner(s));
        let from = self.nexts.get(owner as usize).copied().unwrap_or(0);
        (owner, scope_of(theirs, owner, from))
    }

    /// Names the scopes of each owner in the order of their births, and the subtasks of each scope
    /// in the order of their forks.
    fn fill(&mut self, ours: &World, theirs: &World) {
        for s in 0..ours.records().scopes_born() as u32 {
            let (owner, next) = self.next_of(ours.records(), theirs.records(), s);
            let Some(r) = next else {
                return;
            };
            self.name_scope(owner, s, r);
            self.name_subtasks(ours.subtasks(s), theirs.subtasks(r));
        }
    }
}

/// Guesses the names of one state's births in the other.
///
/// # Errors
///
/// There is no memory.
pub fn guessed(alloc: Global, ours: &World, theirs: &World) -> Result<Guess, AllocError> {
    let tasks = ours.records().tasks_born();
    let scopes = ours.records().scopes_born();
    let mut guess = Guess::blank(alloc, tasks, scopes)?;
    guess.fill(ours, theirs);
    Ok(guess)
}
