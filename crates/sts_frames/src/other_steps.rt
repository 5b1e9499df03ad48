//! The change that an instruction makes to its task's frame if it isn't local. The task goes on.

ghost use Rattle.std.specs.Prelude.{◌≡◌, ◌<◌, ◌+◌, ◌^◌, length, List, [], ◌∷◌, drop, slice_set};
ghost use Rattle.std.specs.Prelude.{true, false};
ghost use Rattle.sts_code.specs.declared.limits.TheConstants.{MAX_ENTRIES};
ghost use Rattle.sts_code.specs.declared.instr.Instr.{Instr};
ghost use Rattle.sts_model.specs.Effect.{forked};
ghost use Rattle.sts_model.specs.Local as def;
ghost use Rattle.sts_model.specs.declared.record.Entry.TheVariants as entry;
ghost use Rattle.sts_model.specs.declared.record.Slot.TheVariants.{Own};

use crate::slots::set_slot;
use sts_code::Instr;
use sts_model::{Entry, Frame, KeptSlot, Slot, emptied_slot};

/// Pops `n` operands.
pub fn steps(frame: &mut Frame, n: usize)
    requires { frame.old.pc + 1 < 2 ^ 32 }
    ensures { frame.new ≡ def.steps frame.old n [] }
{
    let next = frame.pc + 1;
    frame.goes(next, n);
}

/// Enters a scope that the slot owns from now on.
pub fn enter_scope(frame: &mut Frame, slot: u8, s: u32)
    requires more { frame.old.pc + 1 < 2 ^ 32 }
    requires room { length frame.old.entries < MAX_ENTRIES }
    ensures { frame.new ≡ record (def.steps frame.old 0 []) {
      entries = entry.Scope s ∷ frame.old.entries;
      slots = slice_set frame.old.slots slot (Own s);
    } }
{
    steps(frame, 0);
    frame.entries.push(Entry::Scope(s));
    set_slot(&mut frame.slots, slot, Slot::Own(s));
}

/// Pops the arguments of a subtask. From now on the handle names it.
pub fn leave_fork(frame: &mut Frame, args: usize, handle: Option<u8>, child: u32)
    requires { frame.old.pc + 1 < 2 ^ 32 }
    ensures { frame.new ≡ forked frame.old args handle child }
{
    steps(frame, args);
    if let Some(x) = handle {
        set_slot(&mut frame.slots, x, Slot::Sub(child));
    }
}

/// Leaves the innermost entry.
pub fn leave_entry(frame: &mut Frame)
    requires { frame.old.pc + 1 < 2 ^ 32 }
    ensures { frame.new ≡ record (def.steps frame.old 0 []) {
      entries = drop 1 frame.old.entries;
    } }
{
    steps(frame, 0);
    frame.entries.drop_top(1);
}

/// Leaves the innermost entry, with these slots.
pub fn leave_scope(frame: &mut Frame, slots: [KeptSlot; 16])
    requires { frame.old.pc + 1 < 2 ^ 32 }
    ensures { frame.new ≡ record (def.steps frame.old 0 []) {
      entries = drop 1 frame.old.entries;
      slots = slots;
    } }
{
    leave_entry(frame);
    frame.slots = slots;
}

/// Empties the slot that the instruction empties, if it empties one.
pub fn empties(frame: &mut Frame, instr: Instr)
    requires more { frame.old.pc + 1 < 2 ^ 32 }
    requires other { def.is_local instr ≡ false }
    requires stays { def.stays_in_frame instr ≡ true }
    ensures { (code : List Instr) → frame.new ≡ def.local code instr frame.old }
{
    if let Some(slot) = emptied_slot(instr) {
        steps(frame, 0);
        set_slot(&mut frame.slots, slot, Slot::Empty);
    }
}

/// Pops the top operand. From now on a key is bound to it.
pub fn enter_binding(frame: &mut Frame, key: u8)
    requires more { frame.old.pc + 1 < 2 ^ 32 }
    requires room { length frame.old.entries < MAX_ENTRIES }
    ensures { frame.new ≡ record (def.steps frame.old 1 []) {
      entries = entry.Binding key (def.operand frame.old 0) ∷ frame.old.entries;
    } }
{
    let value = frame.operand(0);
    steps(frame, 1);
    frame.entries.push(Entry::Binding(key, value));
}
