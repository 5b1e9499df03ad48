//! Numbers that equal states share, and most others don't. The states of a row are in rising order
//! of them, so that one is found by halving. They are only hints, with no contract.

use ends_search::hash::{mixed, mixed_values};
use laws_calls::table::{Held, Own, Seen};
use std::alloc::AllocError;
use sts_model::{Bound, Entry, Frame};

/// The hash of no numbers.
const SEED: u64 = 0xcbf2_9ce4_8422_2325;

fn with_entry(hash: u64, entry: Entry) -> u64 {
    match entry {
        Entry::Scope(_) => mixed(hash, 1),
        Entry::Binding(key, value) => {
            mixed(mixed(hash, 2 + u64::from(key)), value.cast_unsigned())
        }
    }
}

fn with_frame(hash: u64, frame: &Frame) -> u64 {
    let mut hash = mixed(hash, u64::from(frame.pc));
    hash = mixed_values(hash, frame.operands.as_slice());
    hash = mixed_values(hash, &frame.locals);
    for entry in frame.entries.as_slice() {
        hash = with_entry(hash, entry.get());
    }
    for turn in frame.loops.as_slice() {
        hash = mixed(hash, u64::from(turn.left));
    }
    hash
}

fn with_held(hash: u64, held: Held) -> u64 {
    match held {
        Held::Empty => hash,
        Held::Lent => mixed(hash, 1),
        Held::Own(place) => mixed(hash, 2 + u64::from(place)),
        Held::Sub(place, part) => mixed(mixed(hash, u64::from(place)), u64::from(part)),
    }
}

fn with_slots(hash: u64, slots: &[Held]) -> u64 {
    let mut hash = hash;
    for held in slots {
        hash = mixed(with_held(hash, *held), 3);
    }
    hash
}

fn with_bounds(hash: u64, bounds: &[Bound]) -> u64 {
    let mut hash = hash;
    for bound in bounds {
        hash = mixed(
            mixed(hash, u64::from(bound.key)),
            bound.value.cast_unsigned(),
        );
    }
    hash
}

fn with_count(hash: u64, count: Option<u32>) -> u64 {
    match count {
        None => mixed(hash, 0),
        Some(count) => mixed(hash, 1 + u64::from(count)),
    }
}

fn with_answers(hash: u64, seen: &Seen) -> u64 {
    let mut hash = with_count(hash, seen.asked.successes);
    hash = with_count(hash, seen.asked.failures);
    hash = with_count(hash, seen.asked.unavailable);
    match seen.asked.total {
        None => mixed(hash, 0),
        Some(total) => mixed(mixed(hash, 1), total.cast_unsigned()),
    }
}

fn with_scope(hash: u64, seen: &Seen) -> u64 {
    let flags = 4 * (seen.phase as u64) + seen.knowledge as u64;
    let mut hash = mixed(hash, 2 * flags + u64::from(seen.has_failure));
    hash = with_answers(hash, seen);
    hash = with_bounds(hash, seen.environment.as_slice());
    mixed(hash, seen.parts.print())
}

/// The fingerprint of a state.
pub fn fingerprint(own: &Own) -> u64 {
    let mut hash = with_frame(SEED, &own.frame);
    hash = with_slots(hash, &own.held);
    for seen in own.scopes.as_slice() {
        hash = with_scope(hash, seen);
    }
    hash
}

/// Puts states in rising order of their fingerprints.
pub fn sort(states: &mut Vec<Own>) -> Result<(), AllocError> {
    states.sort_by_key(|own| fingerprint(own))
}

/// Of states in order, the place of the first one whose fingerprint is not below this.
fn first_from(states: &[Own], print: u64) -> usize {
    let mut from: usize = 0;
    let mut to = states.len();
    for _ in 0..64 {
        if from >= to {
            break;
        }
        let middle = from + (to - from) / 2;
        match states.get(middle) {
            Some(there) if fingerprint(there) < print => from = middle.saturating_add(1),
            _ => to = middle,
        }
    }
    from
}

/// Of states in order, the place of the first one that may be this one.
pub fn first_like(states: &[Own], own: &Own) -> usize {
    first_from(states, fingerprint(own))
}

/// Is this state behind the place where the other would be?
pub fn is_past(there: &Own, own: &Own) -> bool {
    fingerprint(there) > fingerprint(own)
}
