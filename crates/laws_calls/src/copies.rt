//! Copies of states. A copy fails if memory runs out.

ghost use Rattle.std.specs.Prelude.{◌≡◌, ◌++◌, ◌∷◌, ◌<◌, IfOk, OnOk, length, slice_set};

use crate::table::{Call, Own, Part, Seen};
use std::alloc::{AllocError, Global};
use sts_frames::copy_frame;
use sts_model::Items;
use sts_same::copied::{Copied, copy_items};

/// Appends copies.
pub fn push_copies<T: Copied>(alloc: Global, ys: &mut Items<T>, xs: &[T]) -> Result<(), AllocError>
    ensures { OnOk result (ys.new ≡ ys.old ++ xs.now) }
{
    for x in xs {
        ys.push(x.copied(alloc)?)?;
    }
    Ok(())
}

/// A copy of a list.
pub fn copy_list<T: Copied>(alloc: Global, xs: &[T]) -> Result<Items<T>, AllocError>
    ensures { IfOk result (λ ys. ys ≡ xs.now) }
{
    let mut ys = Items::new(alloc);
    push_copies(alloc, &mut ys, xs)?;
    Ok(ys)
}

/// A copy of a list, with one more value in front.
pub fn copy_behind<T: Copied>(alloc: Global, first: T, xs: &[T]) -> Result<Items<T>, AllocError>
    ensures { IfOk result (λ ys. ys ≡ first ∷ xs.now) }
{
    let mut ys = Items::new(alloc);
    ys.push(first)?;
    push_copies(alloc, &mut ys, xs)?;
    Ok(ys)
}

/// A copy of a list, with another value at an index.
pub fn copy_with<T: Copied>(
    alloc: Global,
    xs: &[T],
    at: usize,
    x: T,
) -> Result<Items<T>, AllocError>
    requires { at < length xs.now }
    ensures { IfOk result (λ ys. ys ≡ slice_set xs.now at x) }
{
    let mut ys = Items::new(alloc);
    push_copies(alloc, &mut ys, &xs[..at])?;
    ys.push(x)?;
    push_copies(alloc, &mut ys, &xs[at + 1..])?;
    Ok(ys)
}

impl Copied for Part {
    fn copied(&self, alloc: Global) -> Result<Part, AllocError> {
        Ok(Part {
            ways: self.ways.share()?,
            is_open: self.is_open,
            is_early: self.is_early,
        })
    }
}

impl Copied for Seen {
    fn copied(&self, alloc: Global) -> Result<Seen, AllocError> {
        Ok(Seen {
            joiner: self.joiner,
            timed: self.timed,
            environment: copy_items(alloc, &self.environment)?,
            phase: self.phase,
            knowledge: self.knowledge,
            asked: self.asked,
            has_failure: self.has_failure,
            parts: self.parts.share()?,
        })
    }
}

impl Copied for Own {
    fn copied(&self, alloc: Global) -> Result<Own, AllocError> {
        Ok(Own {
            frame: copy_frame(&self.frame),
            held: self.held,
            scopes: copy_list(alloc, self.scopes.as_slice())?,
            left: self.left,
        })
    }
}

impl Copied for Call {
    fn copied(&self, alloc: Global) -> Result<Call, AllocError> {
        Ok(Call {
            function: self.function,
            args: copy_items(alloc, &self.args)?,
            environment: copy_items(alloc, &self.environment)?,
        })
    }
}
