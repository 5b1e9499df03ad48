//! Copies. A copy fails if memory runs out.

ghost use Rattle.std.specs.Prelude.{◌≡◌, IfOk};

use std::alloc::{AllocError, Global};
use sts_model::Items;

/// Values that can be copied.
pub trait Copied: Drop {
    /// The same once more.
    fn copied(&self, alloc: Global) -> Result<Self, AllocError>
        ensures { IfOk result (λ x. x ≡ self.now) };
}

/// Lists, element by element.
pub fn copy_all<T: Copied>(alloc: Global, xs: &[T]) -> Result<Vec<T>, AllocError>
    ensures { IfOk result (λ ys. ys.items ≡ xs.now) }
{
    let mut ys = Vec::new(alloc);
    for x in xs {
        ys.push(x.copied(alloc)?)?;
    }
    Ok(ys)
}

/// Lists that grow.
pub fn copy_items<T: Copy + Drop>(alloc: Global, xs: &Items<T>) -> Result<Items<T>, AllocError>
    ensures { IfOk result (λ ys. ys ≡ xs.now) }
{
    let mut ys = Items::new(alloc);
    for x in xs.as_slice() {
        ys.push(*x)?;
    }
    Ok(ys)
}
