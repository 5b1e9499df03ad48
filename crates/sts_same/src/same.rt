//! A comparison that is proved in one direction, and comparisons of lists.

ghost use Rattle.std.specs.Prelude.{◌≡◌, true};

use sts_model::{Items, Stack};

/// Values that can be compared.
pub trait Same {
    /// If the answer is true, the two are the same.
    fn same(&self, other: &Self) -> bool
        ensures { result ≡ true → self.now ≡ other.now };
}

impl Same for i64 {
    fn same(&self, other: &i64) -> bool {
        *self == *other
    }
}

/// Lists, element by element.
pub fn same_slices<T: Same>(a: &[T], b: &[T]) -> bool
    ensures { result ≡ true → a.now ≡ b.now }
{
    if a.len() != b.len() {
        return false;
    }
    for i in 0..a.len() {
        if !a[i].same(&b[i]) {
            return false;
        }
    }
    true
}

/// Stacks.
pub fn same_stacks<T: Same + Default + Drop, const N: usize>(
    a: &Stack<T, N>,
    b: &Stack<T, N>,
) -> bool
    ensures { result ≡ true → a.now ≡ b.now }
{
    same_slices(a.as_slice(), b.as_slice())
}

/// Lists that grow.
pub fn same_items<T: Same>(a: &Items<T>, b: &Items<T>) -> bool
    ensures { result ≡ true → a.now ≡ b.now }
{
    same_slices(a.as_slice(), b.as_slice())
}
