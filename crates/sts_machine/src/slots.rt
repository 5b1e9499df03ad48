//! The content of the slots of a frame.

ghost use Rattle.std.specs.Prelude.{◌≡◌, slice_index_or};
ghost use Rattle.sts_model.specs.Effect as effect;
ghost use Rattle.sts_model.specs.Misuse as misuse;
ghost use Rattle.sts_model.specs.declared.record.Slot.TheVariants.{Empty};

use sts_model::{Frame, KeptSlot, Slot};

#[inline(always)]
fn slot_at(slots: &[KeptSlot; 16], x: u8) -> Slot
    ensures { result ≡ slice_index_or slots.now x Empty }
{
    let x = x as usize;
    if x < 16 { slots[x].get() } else { Slot::Empty }
}

/// The content of a slot.
#[inline(always)]
pub(crate) fn slot(frame: &Frame, x: u8) -> Slot
    ensures { result ≡ misuse.slot frame.now x }
{
    slot_at(&frame.slots, x)
}

/// The scope or subtask that a slot holds.
pub(crate) fn named(frame: &Frame, x: u8) -> u32
    ensures { result ≡ effect.named (misuse.slot frame.now x) }
{
    match slot(frame, x) {
        Slot::Empty => 0,
        Slot::Own(s) | Slot::Lent(s) => s,
        Slot::Sub(t) => t,
    }
}
