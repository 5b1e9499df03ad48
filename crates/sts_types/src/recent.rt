//! The typestates that were kept last, by their looks.

ghost use Rattle.std.specs.Prelude.{◌<◌};

use crate::state::TypeState;
use std::alloc::{AllocError, Global};
use sts_rules::{Known, SlotKind, TypedEntry, TypedPhase, filled};

/// How many looks there are. With more, a new list takes longer to clear than it saves.
const LOOKS: usize = 256;

/// How many slots a look takes in. Programs use the low ones most.
const SLOTS: usize = 4;

/// For each look, the index of the typestate that was kept last with it.
///
/// Parts of a function are often alike, so a typestate is often kept already. This only guesses
/// where.
#[derive(Drop)]
pub(crate) struct Recent {
    kept: Vec<u32>,
}

/// A number for the content of a slot.
fn number_of_kind(kind: SlotKind) -> u64 {
    match kind {
        SlotKind::Empty => 0,
        SlotKind::Own => 1,
        SlotKind::Lent => 2,
        SlotKind::Sub(_, Known::Unknown) => 3,
        SlotKind::Sub(_, Known::Success) => 4,
        SlotKind::Sub(_, Known::Failed) => 5,
    }
}

/// A number for an entry of the structure list, if there is one.
fn number_of_entry(entry: Option<TypedEntry>) -> u64 {
    match entry {
        None => 0,
        Some(TypedEntry::Binding(_)) => 1,
        Some(TypedEntry::Scope(scope)) => match scope.phase {
            TypedPhase::Opened => 2,
            TypedPhase::Attempted => 3,
            TypedPhase::Joined => 4,
            TypedPhase::Late => 5,
        },
    }
}

/// A number for the innermost loop and entry and the low slots of a typestate. Typestates that
/// differ may have the same.
pub(crate) fn look_of(state: &TypeState) -> usize {
    let mut look = number_of_entry(state.entries.get(0));
    if let Some(innermost) = state.loops.get(0) {
        look = look.wrapping_add((innermost.at as u64).wrapping_mul(7));
    }
    for slot in 0..SLOTS {
        look = look
            .wrapping_mul(7)
            .wrapping_add(number_of_kind(state.slots[slot]));
    }
    look as usize % LOOKS
}

impl Recent {
    /// Nothing was kept yet.
    pub(crate) fn new(alloc: Global) -> Result<Recent, AllocError> {
        let kept = filled(alloc, LOOKS, 0)?;
        Ok(Recent { kept })
    }

    /// The index of the typestate that was kept last with this look.
    pub(crate) fn kept_with(&self, look: usize) -> u32 {
        if look < self.kept.len() {
            self.kept[look]
        } else {
            0
        }
    }

    /// The typestate at this index was kept, and has this look.
    pub(crate) fn note(&mut self, look: usize, like: u32) {
        if look < self.kept.len() {
            self.kept[look] = like;
        }
    }
}
