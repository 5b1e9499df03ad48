//! Compares frames, and codes of functions.

ghost use Rattle.std.specs.Prelude.{◌≡◌, ◌↔◌, IsTrue};

use sts_code::Instr;
use sts_model::{Entries, Frame, KeptEntry, KeptSlot, Loop, Stack};

fn same_operands(a: &Stack<i64, 32>, b: &Stack<i64, 32>) -> bool
    ensures { IsTrue result ↔ a.now ≡ b.now }
{
    a.as_slice() == b.as_slice()
}

fn same_loops(a: &Stack<Loop, 8>, b: &Stack<Loop, 8>) -> bool
    ensures { IsTrue result ↔ a.now ≡ b.now }
{
    a.as_slice() == b.as_slice()
}

#[tactic(auto, using(crate::proofs::Equals::each_entry))]
fn same_entry(a: KeptEntry, b: KeptEntry) -> bool
    ensures { IsTrue result ↔ a ≡ b }
{
    a.get() == b.get()
}

fn same_kept(a: &[KeptEntry], b: &[KeptEntry]) -> bool
    ensures { IsTrue result ↔ a.now ≡ b.now }
{
    if a.len() != b.len() {
        return false;
    }
    for i in 0..a.len() {
        if !same_entry(a[i], b[i]) {
            return false;
        }
    }
    true
}

fn same_entries(a: &Entries, b: &Entries) -> bool
    ensures { IsTrue result ↔ a.now ≡ b.now }
{
    same_kept(a.as_slice(), b.as_slice())
}

fn same_locals(a: &[i64; 16], b: &[i64; 16]) -> bool
    ensures { IsTrue result ↔ a.now ≡ b.now }
{
    a == b
}

#[tactic(auto, using(crate::proofs::Equals::each_slot))]
fn same_slot(a: KeptSlot, b: KeptSlot) -> bool
    ensures { IsTrue result ↔ a ≡ b }
{
    a.get() == b.get()
}

fn same_slots(a: &[KeptSlot; 16], b: &[KeptSlot; 16]) -> bool
    ensures { IsTrue result ↔ a.now ≡ b.now }
{
    for i in 0..a.len() {
        if !same_slot(a[i], b[i]) {
            return false;
        }
    }
    true
}

/// Are two frames the same, by value?
pub(crate) fn same_frame(a: &Frame, b: &Frame) -> bool
    ensures { IsTrue result ↔ a.now ≡ b.now }
{
    a.function == b.function
        && a.pc == b.pc
        && same_operands(&a.operands, &b.operands)
        && same_locals(&a.locals, &b.locals)
        && same_loops(&a.loops, &b.loops)
        && same_entries(&a.entries, &b.entries)
        && same_slots(&a.slots, &b.slots)
}

/// Are two functions' codes the same, by value?
pub(crate) fn same_code(a: &[Instr], b: &[Instr]) -> bool
    ensures { IsTrue result ↔ a.now ≡ b.now }
{
    a == b
}
