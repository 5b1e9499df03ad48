//! Lists of one value.

ghost use Rattle.std.specs.Prelude.{◌≡◌, IfOk, replicate};

use std::alloc::{AllocError, Global};

/// `count` copies of a value.
///
/// # Errors
///
/// Memory ran out.
pub fn filled<T: Copy>(alloc: Global, count: usize, value: T) -> Result<Vec<T>, AllocError>
    ensures { IfOk result (λ t. t.items ≡ replicate count value) }
{
    let mut list = Vec::new(alloc);
    list.resize(count, value)?;
    Ok(list)
}
