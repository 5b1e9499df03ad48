//! A number that two states share if they differ only by birth numbers, and most others don't: only
//! a hint, with no contract.

use crate::hash::mixed_end;
use ends_search::hash::{mixed, mixed_values};
use std::alloc::{AllocError, Global};
use sts_model::{Entry, Frame, KeptEntry, KeptSlot, Slot};
use sts_world::{Records, World};

/// The hash of no numbers.
const SEED: u64 = 0x6c62_272e_07bb_0142;

/// The number at a place.
fn at(numbers: &[u64], place: u32) -> u64 {
    numbers.get(place as usize).copied().unwrap_or(0)
}

/// Writes a number, if there is room for it.
fn put(numbers: &mut Vec<u64>, place: u32, number: u64) {
    if (place as usize) < numbers.len() {
        numbers[place as usize] = number;
    }
}

/// A slot without birth numbers: a subtask is known by its place in its scope.
fn number_of_slot(places: &[u64], slot: Slot) -> u64 {
    match slot {
        Slot::Empty => 0,
        Slot::Own(_) => 1,
        Slot::Lent(_) => 2,
        Slot::Sub(t) => at(places, t).wrapping_add(3),
    }
}

fn mixed_slots(places: &[u64], hash: u64, slots: &[KeptSlot]) -> u64 {
    let mut hash = hash;
    for slot in slots {
        hash = mixed(hash, number_of_slot(places, slot.get()));
    }
    hash
}

fn mixed_entries(hash: u64, entries: &[KeptEntry]) -> u64 {
    let mut hash = hash;
    for entry in entries {
        hash = match entry.get() {
            Entry::Scope(_) => mixed(hash, 1),
            Entry::Binding(key, value) => {
                mixed(mixed(hash, 256 + u64::from(key)), value.cast_unsigned())
            }
        };
    }
    hash
}

fn mixed_frame(places: &[u64], hash: u64, frame: &Frame) -> u64 {
    let hash = mixed(hash, u64::from(frame.pc));
    let hash = mixed(hash, u64::from(frame.function));
    let hash = mixed_values(hash, frame.operands.as_slice());
    let hash = mixed_values(hash, &frame.locals);
    let hash = mixed_entries(hash, frame.entries.as_slice());
    let mut hash = mixed_slots(places, hash, &frame.slots);
    for turn in frame.loops.as_slice() {
        hash = mixed(hash, u64::from(turn.left));
    }
    hash
}

/// The hash of what later events can read of a task alone.
fn hash_of_task(places: &[u64], records: &Records, t: u32) -> u64 {
    let hash = mixed(SEED, u64::from(records.has_started(t)));
    if records.lives(t) {
        mixed_frame(
            places,
            mixed(hash, u64::from(records.flag(t))),
            records.frame(t),
        )
    } else {
        mixed_end(hash, records.outcome(t))
    }
}

/// The hash of a scope with its subtasks.
fn hash_of_scope(hashes: &[u64], places: &[u64], world: &World, s: u32) -> u64 {
    let records = world.records();
    let hash = mixed(SEED, u64::from(records.is_cancelled(s)));
    let mut hash = mixed(hash, u64::from(records.is_expired(s)));
    for t in world.subtasks(s) {
        hash = mixed(hash, at(hashes, *t));
    }
    for completion in records.completions(s) {
        hash = mixed(hash, at(places, completion.task));
    }
    hash
}

/// The place of each task in its scope.
fn places_of(alloc: Global, world: &World) -> Result<Vec<u64>, AllocError> {
    let mut places = Vec::from_elem(alloc, 0, world.records().tasks_born())?;
    for s in 0..world.records().scopes_born() as u32 {
        for (place, t) in world.subtasks(s).iter().enumerate() {
            put(&mut places, *t, place as u64);
        }
    }
    Ok(places)
}

/// The hash of each task alone.
fn hashes_of(alloc: Global, places: &[u64], records: &Records) -> Result<Vec<u64>, AllocError> {
    let mut hashes = Vec::new(alloc);
    for t in 0..records.tasks_born() as u32 {
        hashes.push(hash_of_task(places, records, t))?;
    }
    Ok(hashes)
}

/// The hash of a world by a walk from the innermost scopes to the root.
pub fn hash_by_walk(alloc: Global, world: &World) -> Result<u64, AllocError> {
    let records = world.records();
    let places = places_of(alloc, world)?;
    let mut hashes = hashes_of(alloc, places.as_slice(), records)?;
    for s in (0..records.scopes_born() as u32).rev() {
        let hash = hash_of_scope(hashes.as_slice(), places.as_slice(), world, s);
        let owner = records.owner(s);
        let more = mixed(at(hashes.as_slice(), owner), hash);
        put(&mut hashes, owner, more);
    }
    Ok(at(hashes.as_slice(), 0))
}
