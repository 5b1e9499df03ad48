//! Lists that keep equal neighbours once, and whose copies share them.

ghost use Rattle.std.specs.Prelude.{◌≡◌, ◌<◌, ◌++◌, ◌∷◌, [], length, slice_get, slice_set, count_by};
ghost use Rattle.std.specs.Prelude.{Some, true, Bool, IfOk, IfSome};
ghost use Rattle.std.specs.Fn.{FnReturnsAt};
ghost use Rattle.sts_repeats.specs.Spread.{spread};

use crate::runs::{Run, count, place_of, pushed, total, with};
use std::alloc::{AllocError, Global};
use std::marker::Model;
use std::rc::Rc;
use sts_same::copied::Copied;
use sts_same::same::{Same, same_slices};

/// Values that have a number. Equal ones have the same number.
pub trait Printed {
    /// The hash of one value more.
    fn print(&self, hash: u64) -> u64;
}

/// A list that keeps equal neighbours once. Its copies share it, and it never changes.
#[derive(Drop)]
pub struct Repeats<T> {
    runs: Rc<Vec<Run<T>>, Global>,
    len: usize,
    /// Equal lists have the same number, and most others have another one. It is only a hint, with
    /// no contract.
    print: u64,
}

impl<T> Model for Repeats<T> {
    ghost use Rattle.std.specs.Prelude.{◌≡◌, List, length};
    ghost use Rattle.sts_repeats.specs.Spread.{spread};

    ghost Value = { List T };

    ghost view = { λ s. spread s.runs.value.items };

    ghost invariant = { λ s. s.len ≡ length (spread s.runs.value.items) };
}

/// The hash of a number more.
pub fn mixed(hash: u64, n: u64) -> u64 {
    let product = (hash ^ n).wrapping_mul(0x9e37_79b9_7f4a_7c15);
    product ^ (product >> 32)
}

fn print_of<T: Printed>(runs: &[Run<T>]) -> u64 {
    let mut hash: u64 = 0xcbf2_9ce4_8422_2325;
    for run in runs {
        hash = mixed(run.value.print(hash), run.more as u64);
    }
    hash
}

impl<T: Printed + Drop> Repeats<T> {
    /// The list that runs stand for.
    ///
    /// # Errors
    ///
    /// Memory ran out, or the list would be too long.
    pub fn of(alloc: Global, runs: Vec<Run<T>>) -> Result<Self, AllocError>
        ensures { IfOk result (λ xs. xs ≡ spread runs.items) }
    {
        let Some(len) = total(runs.as_slice()) else {
            return Err(AllocError);
        };
        let print = print_of(runs.as_slice());
        Ok(Repeats {
            runs: Rc::new(alloc, runs)?,
            len,
            print,
        })
    }

    /// The empty list.
    pub fn new(alloc: Global) -> Result<Self, AllocError>
        ensures { IfOk result (λ xs. xs ≡ []) }
    {
        Repeats::of(alloc, Vec::new(alloc))
    }
}

impl<T: Drop> Repeats<T> {
    /// The same list once more, which shares its memory.
    ///
    /// # Errors
    ///
    /// There are too many copies.
    pub fn share(&self) -> Result<Self, AllocError>
        ensures { IfOk result (λ xs. xs ≡ self.now) }
    {
        Ok(Repeats {
            runs: self.runs.clone()?,
            len: self.len,
            print: self.print,
        })
    }
}

impl<T: Printed + Same + Copied> Repeats<T> {
    /// The list with one value more.
    ///
    /// # Errors
    ///
    /// Memory ran out, or the list would be too long.
    pub fn pushed(&self, alloc: Global, value: T) -> Result<Self, AllocError>
        ensures { IfOk result (λ xs. xs ≡ self.now ++ value ∷ []) }
    {
        Repeats::of(alloc, pushed(alloc, self.runs.as_slice(), value)?)
    }

    /// The list with another value at an index.
    ///
    /// # Errors
    ///
    /// Memory ran out.
    pub fn with(&self, alloc: Global, at: usize, value: T) -> Result<Self, AllocError>
        requires { at < length self.now }
        ensures { IfOk result (λ xs. xs ≡ slice_set self.now at value) }
    {
        Repeats::of(alloc, with(alloc, self.runs.as_slice(), at, value)?)
    }
}

impl<T> Repeats<T> {
    /// The runs of equal neighbours, in order.
    pub fn runs(&self) -> &[Run<T>]
        ensures { spread result.now ≡ self.now }
    {
        self.runs.as_slice()
    }

    /// How many values there are.
    pub fn len(&self) -> usize
        ensures { result ≡ length self.now }
    {
        self.len
    }

    /// Are there none?
    pub fn is_empty(&self) -> bool
        ensures yes { result ≡ true → self.now ≡ [] }
        ensures no { self.now ≡ [] → result ≡ true }
    {
        self.len == 0
    }

    /// The value at an index.
    pub fn at(&self, at: usize) -> &T
        requires { at < length self.now }
        ensures { slice_get self.now at ≡ Some result.now }
    {
        let runs = self.runs.as_slice();
        let (i, _) = place_of(runs, at);
        &runs[i].value
    }

    /// The value at an index, if there is one.
    pub fn get(&self, at: usize) -> Option<&T>
        ensures { IfSome result (λ x. slice_get self.now at ≡ Some x.now) }
    {
        if at >= self.len {
            return None;
        }
        Some(self.at(at))
    }

    /// How many values pass a test.
    pub fn count<F: Fn(&T) -> bool>(&self, test: F) -> usize
        requires { F.IsAlwaysCallable test }
        ensures { (p : T → Bool) → ((x : T) → (b : Bool) → FnReturnsAt F.Fn test x b → b ≡ p x)
            → result ≡ count_by p self.now }
    {
        // (the length is a number, so a count is one)
        let _len = self.len;
        count(self.runs.as_slice(), test)
    }

    /// The number that equal lists have in common.
    pub fn print(&self) -> u64 {
        self.print
    }

    /// Does another copy share the list?
    pub fn is_shared(&self) -> bool {
        Rc::strong_count(&self.runs) > 1
    }
}

impl<T: Same> Same for Repeats<T> {
    fn same(&self, other: &Repeats<T>) -> bool {
        self.print == other.print && same_slices(self.runs.as_slice(), other.runs.as_slice())
    }
}
