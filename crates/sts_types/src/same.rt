//! Copies and comparisons of stacks.

ghost use Rattle.std.specs.Prelude.{◌≡◌, ◌<◌, ◌+◌, ◌-◌, ◌∷◌, ◌↔◌, IsTrue, length, drop};

use sts_model::Stack;
use sts_rules::{SlotKind, TypedEntry, TypedLoop};

/// The value above this many values.
#[inline(always)]
fn above<T: Copy + Default + Drop, const N: usize>(stack: &Stack<T, N>, below: usize) -> T
    requires { below < length stack.now }
    ensures { result ∷ drop (length stack.now - below) stack.now ≡
        drop (length stack.now - (below + 1)) stack.now }
{
    stack.as_slice()[below]
}

/// Takes over the values of another stack.
pub(crate) fn copy_stack<T: Copy + Default + Drop, const N: usize>(
    copy: &mut Stack<T, N>,
    stack: &Stack<T, N>,
)
    ensures { copy.new ≡ stack.now }
{
    copy.drop_top(copy.len());
    for i in 0..stack.len() {
        copy.push(above(stack, i));
    }
}

pub(crate) fn are_same_loops(a: &Stack<TypedLoop, 8>, b: &Stack<TypedLoop, 8>) -> bool
    ensures { IsTrue result ↔ (a.now ≡ b.now) }
{
    a.as_slice() == b.as_slice()
}

pub(crate) fn are_same_entries(a: &Stack<TypedEntry, 16>, b: &Stack<TypedEntry, 16>) -> bool
    ensures { IsTrue result ↔ (a.now ≡ b.now) }
{
    are_same_in_turn(a.as_slice(), b.as_slice())
}

/// Are two entries the same?
#[inline(always)]
fn is_same_entry(a: TypedEntry, b: TypedEntry) -> bool
    ensures { IsTrue result ↔ (a ≡ b) }
{
    a == b
}

/// Are the entries of two lists the same? One is compared after the other, since there are few.
#[inline(always)]
fn are_same_in_turn(a: &[TypedEntry], b: &[TypedEntry]) -> bool
    ensures { IsTrue result ↔ (a.now ≡ b.now) }
{
    if a.len() != b.len() {
        return false;
    }
    for i in 0..a.len() {
        if !is_same_entry(a[i], b[i]) {
            return false;
        }
    }
    true
}

pub(crate) fn are_same_slots(a: &[SlotKind; 16], b: &[SlotKind; 16]) -> bool
    ensures { IsTrue result ↔ (a.now ≡ b.now) }
{
    a == b
}
