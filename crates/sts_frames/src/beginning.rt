//! Frames at the beginning of a function.

ghost use Rattle.std.specs.Prelude.{◌≡◌, ◌≤◌, ◌+◌, length, [], reverse, take};
ghost use Rattle.sts_code.specs.declared.limits.TheConstants.{LAST_SLOT};
ghost use Rattle.sts_model.specs.World as def;
ghost use Rattle.sts_model.specs.declared.record.Slot.TheVariants.{Empty};

use sts_model::{Entries, Frame, KeptSlot, Slot, Stack};

/// The frame at the beginning of a function without arguments, for a task that is in no scope.
pub fn root_frame(function: u32) -> Frame
    ensures { result ≡ def.entry_frame function [] Empty }
{
    at_beginning(function, [0; 16], Slot::Empty)
}

/// The frame at the beginning of a function, with the topmost operands as its arguments.
#[inline(always)]
pub fn entry_frame(function: u32, args: u8, forker: &Frame, slot: Slot) -> Frame
    requires few { args ≤ LAST_SLOT + 1 }
    requires enough { args ≤ length forker.now.operands }
    ensures { result ≡ def.entry_frame function (reverse (take args forker.now.operands)) slot }
{
    at_beginning(function, entry_locals(args as usize, forker), slot)
}

/// A frame at place 0, with these locals, and this slot 0.
#[inline(always)]
fn at_beginning(function: u32, locals: [i64; 16], slot: Slot) -> Frame
    ensures { result ≡ record (def.entry_frame function [] slot) { locals = locals } }
{
    let mut slots = [KeptSlot::new(Slot::Empty); 16];
    slots[0] = KeptSlot::new(slot);
    Frame {
        function,
        pc: 0,
        operands: Stack::new(),
        locals,
        loops: Stack::new(),
        entries: Entries::new(),
        slots,
    }
}

/// The arguments, and zeros after them.
#[inline(always)]
fn entry_locals(args: usize, forker: &Frame) -> [i64; 16]
    requires few { args ≤ LAST_SLOT + 1 }
    requires enough { args ≤ length forker.now.operands }
    ensures { result ≡ def.entry_locals (reverse (take args forker.now.operands)) }
{
    let mut locals = [0i64; 16];
    if args == 0 {
        return locals;
    }
    let operands = forker.operands.as_slice();
    locals[..args].copy_from_slice(&operands[operands.len() - args..]);
    locals
}
