//! A frame as it is held: in full while its task lives, and later only its used parts.

ghost use Rattle.std.specs.Prelude.{◌≡◌, ◌≤◌, ◌<◌, ◌∷◌, length, reverse, take, replicate, IfSome};
ghost use Rattle.std.specs.Prelude.{IfOk, true};
ghost use Rattle.std.specs.List.{list_all};
ghost use Rattle.sts_code.specs.declared.limits.TheConstants.{LAST_SLOT};
ghost use Rattle.sts_model.specs.Misuse as misuse;
ghost use Rattle.sts_model.specs.World as def;
ghost use Rattle.sts_model.specs.declared.record.Slot.TheVariants.{Empty, Lent};
ghost use Rattle.sts_world.specs.Held.{slot_of, whole, frame_of, is_living};

use std::alloc::{AllocError, Global};
use sts_frames::{copy_frame, is_empty};
use sts_model::{Frame, KeptSlot, Slot};
use sts_same::same::{Same, same_slices};

/// The used parts of a frame without open loops and entries.
#[derive(Drop)]
pub struct RestingFrame {
    pub function: u32,
    pub pc: u32,
    /// The scope in the first slot. All other slots are empty.
    pub scope: Option<u32>,
    /// The operands, the top last.
    pub operands: Vec<i64>,
    /// The locals; those after them are 0.
    pub locals: Vec<i64>,
}

/// A frame in full, or at rest.
#[derive(Drop)]
pub enum HeldFrame {
    Living(Box<Frame>),
    Resting(RestingFrame),
}

/// The locals up to the last that isn't 0.
fn used(locals: &[i64; 16]) -> &[i64]
    ensures { def.entry_locals result.now ≡ locals.now }
{
    let mut n = locals.len();
    while n > 0 && locals[n - 1] == 0 {
        n -= 1;
    }
    &locals[..n]
}

fn are_empty(slots: &[KeptSlot]) -> bool
    ensures { result ≡ list_all misuse.is_empty slots.now }
{
    slots.iter().all(|slot| is_empty(slot.get()))
}

/// The scope in the first slot, if it has one. `None` means that another slot is used.
fn sole_scope(slots: &[KeptSlot; 16]) -> Option<Option<u32>>
    ensures { IfSome result (λ s. slots.now ≡ slot_of s ∷ replicate LAST_SLOT Empty) }
{
    let all = &slots[..];
    if !are_empty(&all[1..]) {
        return None;
    }
    let first = slots[0].get();
    match first {
        Slot::Empty => Some(None),
        Slot::Lent(s) => Some(Some(s)),
        _ => None,
    }
}

/// The used parts of a frame, if it can be at rest and there is memory for them.
pub fn resting(alloc: Global, frame: &Frame) -> Option<RestingFrame>
    ensures { IfSome result (λ r. whole r ≡ frame.now) }
{
    if frame.loops.len() > 0 || frame.entries.len() > 0 {
        return None;
    }
    let scope = sole_scope(&frame.slots)?;
    let operands = Vec::from_slice(alloc, frame.operands.as_slice()).ok()?;
    let locals = Vec::from_slice(alloc, used(&frame.locals)).ok()?;
    Some(RestingFrame {
        function: frame.function,
        pc: frame.pc,
        scope,
        operands,
        locals,
    })
}

/// The topmost operands as arguments, the top last.
fn arguments(alloc: Global, count: usize, forker: &Frame) -> Result<Vec<i64>, AllocError>
    requires { count ≤ length forker.now.operands }
    ensures { IfOk result (λ args. args.items ≡ reverse (take count forker.now.operands)) }
{
    let operands = forker.operands.as_slice();
    Vec::from_slice(alloc, &operands[operands.len() - count..])
}

/// The frame at the beginning of a function that never runs.
///
/// # Errors
///
/// Memory ran out.
pub fn resting_entry(
    alloc: Global,
    function: u32,
    args: u8,
    forker: &Frame,
    scope: u32,
) -> Result<RestingFrame, AllocError>
    requires { args ≤ length forker.now.operands }
    ensures { IfOk result (λ r. whole r ≡ def.entry_frame function
        (reverse (take args forker.now.operands)) (Lent scope)) }
{
    let locals = arguments(alloc, args as usize, forker)?;
    Ok(RestingFrame {
        function,
        pc: 0,
        scope: Some(scope),
        operands: Vec::new(alloc),
        locals,
    })
}

/// Frames at rest, compared.
fn same_resting(a: &RestingFrame, b: &RestingFrame) -> bool
    ensures { result ≡ true → whole a.now ≡ whole b.now }
{
    a.function == b.function
        && a.pc == b.pc
        && a.scope == b.scope
        && same_slices(a.operands.as_slice(), b.operands.as_slice())
        && same_slices(a.locals.as_slice(), b.locals.as_slice())
}

/// Frames, compared.
pub fn same_held(a: &HeldFrame, b: &HeldFrame) -> bool
    ensures { result ≡ true → frame_of a.now ≡ frame_of b.now }
{
    match a {
        HeldFrame::Living(x) => match b {
            HeldFrame::Living(y) => {
                let x: &Frame = x;
                let y: &Frame = y;
                x.same(y)
            }
            HeldFrame::Resting(_) => false,
        },
        HeldFrame::Resting(x) => match b {
            HeldFrame::Living(_) => false,
            HeldFrame::Resting(y) => same_resting(x, y),
        },
    }
}

/// A frame once more.
pub fn copy_held(alloc: Global, held: &HeldFrame) -> Result<HeldFrame, AllocError>
    ensures frame { IfOk result (λ x. frame_of x ≡ frame_of held.now) }
    ensures living { IfOk result (λ x. is_living x ≡ is_living held.now) }
{
    match held {
        HeldFrame::Living(frame) => {
            let copy = Box::new(alloc, copy_frame(frame))?;
            Ok(HeldFrame::Living(copy))
        }
        HeldFrame::Resting(r) => Ok(HeldFrame::Resting(RestingFrame {
            function: r.function,
            pc: r.pc,
            scope: r.scope,
            operands: Vec::from_slice(alloc, r.operands.as_slice())?,
            locals: Vec::from_slice(alloc, r.locals.as_slice())?,
        })),
    }
}
