//! A state of one task by itself.

use crate::seen::Seen;
use ends_search::hash::{mixed, mixed_entries, mixed_values};
use laws_calls::table::Held;
use std::alloc::{AllocError, Global};
use sts_code::{Instr, LAST_SLOT};
use sts_frames::{copy_frame, is_local};
use sts_model::Frame;
use sts_same::same::Same;

/// Is it an instruction that changes only the frame, and that a path does at once?
pub fn is_at_once(instr: Instr) -> bool {
    match instr {
        Instr::Bind(_) | Instr::Unbind => true,
        Instr::Read(_) | Instr::Bound(_) | Instr::OrElse(_) => true,
        _ => is_local(instr),
    }
}

/// A state of one task by itself.
#[derive(Drop)]
pub struct Own {
    /// Its entries have the places of scopes in place of births. Its slots are empty.
    pub frame: Frame,
    pub held: [Held; 16],
    /// The open scopes, the outermost first.
    pub scopes: Vec<Seen>,
    /// The interrupts that the task and the subtasks of its closed scopes took.
    pub used: u32,
}

fn number_of_held(held: Held) -> u64 {
    match held {
        Held::Empty => 0,
        Held::Lent => 1,
        Held::Own(scope) => 2 + u64::from(scope),
        Held::Sub(scope, part) => mixed(u64::from(scope), 3 + u64::from(part)),
    }
}

fn mixed_held(hash: u64, held: &[Held]) -> u64 {
    let mut hash = hash;
    for one in held {
        hash = mixed(hash, number_of_held(*one));
    }
    hash
}

fn mixed_frame(frame: &Frame) -> u64 {
    let hash = mixed_values(u64::from(frame.pc), frame.operands.as_slice());
    let hash = mixed_values(hash, &frame.locals);
    let mut hash = mixed_entries(hash, frame.entries.as_slice());
    for turn in frame.loops.as_slice() {
        hash = mixed(hash, u64::from(turn.left));
    }
    hash
}

fn are_same_scopes(ours: &[Seen], theirs: &[Seen]) -> bool {
    ours.len() == theirs.len()
        && ours
            .iter()
            .zip(theirs.iter())
            .all(|(one, other)| one.is_same(other))
}

fn copied_scopes(alloc: Global, scopes: &[Seen]) -> Result<Vec<Seen>, AllocError> {
    let mut copies = Vec::new(alloc);
    for scope in scopes {
        copies.push(scope.copied(alloc)?)?;
    }
    Ok(copies)
}

impl Own {
    /// A copy.
    pub fn copied(&self, alloc: Global) -> Result<Own, AllocError> {
        Ok(Own {
            frame: copy_frame(&self.frame),
            held: self.held,
            scopes: copied_scopes(alloc, self.scopes.as_slice())?,
            used: self.used,
        })
    }

    /// Do the two differ at most by the interrupts that they took?
    pub fn is_same(&self, other: &Own) -> bool {
        self.frame.same(&other.frame)
            && self.held == other.held
            && are_same_scopes(self.scopes.as_slice(), other.scopes.as_slice())
    }

    /// A number that two states share if they differ at most by the interrupts that they took.
    pub fn hash(&self) -> u64 {
        let mut hash = mixed_held(mixed_frame(&self.frame), &self.held);
        for scope in self.scopes.as_slice() {
            hash = scope.mixed(hash);
        }
        hash
    }

    /// What a slot holds.
    pub fn slot(&self, slot: u8) -> Held {
        self.held.get(slot as usize).copied().unwrap_or(Held::Empty)
    }

    /// Fills a slot.
    pub fn set_slot(&mut self, slot: u8, held: Held) {
        if slot <= LAST_SLOT {
            self.held[slot as usize] = held;
        }
    }

    /// The place of the open scope that a slot holds.
    pub fn own_scope(&self, slot: u8) -> Option<u32> {
        match self.slot(slot) {
            Held::Own(place) => Some(place),
            _ => None,
        }
    }

    /// The scope at a place.
    pub fn scope(&self, place: u32) -> Option<&Seen> {
        self.scopes.get(place as usize)
    }

    /// The same, with another scope at a place.
    pub fn with_scope(&self, alloc: Global, place: u32, scope: Seen) -> Result<Own, AllocError> {
        let mut next = self.copied(alloc)?;
        if let Some(there) = next.scopes.get_mut(place as usize) {
            *there = scope;
        }
        Ok(next)
    }

    /// Empties the slots that hold a scope or a subtask of it.
    pub fn empty_slots_of(&mut self, place: u32) {
        for held in self.held.iter_mut() {
            let is_its = match *held {
                Held::Own(scope) | Held::Sub(scope, _) => scope == place,
                Held::Empty | Held::Lent => false,
            };
            if is_its {
                *held = Held::Empty;
            }
        }
    }
}
