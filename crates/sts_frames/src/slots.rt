//! The slots of a frame.

ghost use Rattle.std.specs.Prelude.{◌≡◌, slice_set};
ghost use Rattle.sts_model.specs.Effect as effect;
ghost use Rattle.sts_model.specs.Misuse as misuse;

use sts_code::LAST_SLOT;
use sts_model::{Frame, KeptSlot, Slot};

/// The content of a slot. There is nothing above the last slot.
pub fn slot(frame: &Frame, x: u8) -> Slot
    ensures { result ≡ misuse.slot frame.now x }
{
    match frame.slots.get(x as usize) {
        Some(kept) => kept.get(),
        None => Slot::Empty,
    }
}

/// Does a slot hold nothing?
pub fn is_empty(slot: Slot) -> bool
    ensures { result ≡ misuse.is_empty slot }
{
    matches!(slot, Slot::Empty)
}

/// The birth of the scope or subtask that a slot names, or 0 if the slot is empty.
pub fn named(frame: &Frame, x: u8) -> u32
    ensures { result ≡ effect.named (misuse.slot frame.now x) }
{
    match slot(frame, x) {
        Slot::Empty => 0,
        Slot::Own(s) | Slot::Lent(s) => s,
        Slot::Sub(t) => t,
    }
}

/// Fills a slot. A slot above the last changes nothing.
pub fn set_slot(slots: &mut [KeptSlot; 16], x: u8, slot: Slot)
    ensures { slots.new ≡ slice_set slots.old x slot }
{
    if x <= LAST_SLOT {
        slots[x as usize] = KeptSlot::new(slot);
    }
}
