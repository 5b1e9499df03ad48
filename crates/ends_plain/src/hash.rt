//! A number that the same states share, and most others don't: only a hint, with no contract.

ghost use Rattle.std.specs.Prelude.{◌<◌, length};

use ends_search::hash::{mixed, mixed_entries, mixed_values};
use sts_model::{End, Frame, KeptSlot, Slot};
use sts_world::{Records, World};

/// The hash of no numbers.
const SEED: u64 = 0xcbf2_9ce4_8422_2325;

fn number_of_slot(slot: Slot) -> u64 {
    match slot {
        Slot::Empty => 0,
        Slot::Own(n) => 4 * u64::from(n) + 1,
        Slot::Lent(n) => 4 * u64::from(n) + 2,
        Slot::Sub(n) => 4 * u64::from(n) + 3,
    }
}

fn mixed_slots(hash: u64, slots: &[KeptSlot]) -> u64 {
    let mut hash = hash;
    for slot in slots {
        hash = mixed(hash, number_of_slot(slot.get()));
    }
    hash
}

fn mixed_frame(hash: u64, frame: &Frame) -> u64 {
    let hash = mixed_values(hash, frame.operands.as_slice());
    let hash = mixed_values(hash, &frame.locals);
    let hash = mixed_entries(hash, frame.entries.as_slice());
    let mut hash = mixed_slots(hash, &frame.slots);
    for turn in frame.loops.as_slice() {
        hash = mixed(hash, u64::from(turn.left));
    }
    hash
}

/// Mixes in an end, or that there is none.
pub fn mixed_end(hash: u64, end: Option<End>) -> u64 {
    match end {
        None => mixed(hash, 0),
        Some(End::Success(value)) => mixed(mixed(hash, 1), value.cast_unsigned()),
        Some(End::Failed(code)) => mixed(mixed(hash, 2), code.cast_unsigned()),
    }
}

fn mixed_task(hash: u64, records: &Records, t: u32) -> u64
    requires { t < length records.now.tasks }
{
    let hash = mixed(hash, u64::from(records.pc(t)));
    let hash = mixed(hash, u64::from(records.function(t)));
    let hash = mixed(hash, u64::from(records.flag(t)));
    if records.lives(t) {
        mixed_frame(hash, records.frame(t))
    } else {
        mixed_end(hash, records.outcome(t))
    }
}

fn mixed_scope(hash: u64, records: &Records, s: u32) -> u64 {
    let hash = mixed(hash, u64::from(records.is_cancelled(s)));
    let mut hash = mixed(hash, u64::from(records.is_expired(s)));
    for completion in records.completions(s) {
        hash = mixed(hash, u64::from(completion.task));
    }
    hash
}

/// The hash of a world.
pub fn hash_of(world: &World) -> u64 {
    let records = world.records();
    let mut hash = SEED;
    for t in 0..records.tasks_born() as u32 {
        hash = mixed_task(hash, records, t);
    }
    for s in 0..records.scopes_born() as u32 {
        hash = mixed_scope(hash, records, s);
    }
    hash
}
