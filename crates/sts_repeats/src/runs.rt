//! Runs: a value, and how many equal ones follow it in the list.

ghost use Rattle.std.specs.Prelude.{◌≡◌, ◌<◌, ◌≤◌, ◌+◌, ◌-◌, ◌^◌, [], ◌∷◌, ◌++◌, length, replicate};
ghost use Rattle.std.specs.Prelude.{slice_set, count_by, cond, Bool, IfSome, IfOk, OnOk};
ghost use Rattle.std.specs.Fn.{FnReturnsAt};
ghost use Rattle.sts_repeats.specs.Spread.{spread, changed, IsAt};

use std::alloc::{AllocError, Global};
use sts_same::copied::{Copied, copy_all};
use sts_same::same::Same;

/// A value, and how many equal ones follow it.
#[derive(Drop)]
pub struct Run<T> {
    pub value: T,
    pub more: usize,
}

impl<T: Same> Same for Run<T> {
    fn same(&self, other: &Run<T>) -> bool {
        self.more == other.more && self.value.same(&other.value)
    }
}

impl<T: Copied> Copied for Run<T> {
    fn copied(&self, alloc: Global) -> Result<Run<T>, AllocError> {
        Ok(Run {
            value: self.value.copied(alloc)?,
            more: self.more,
        })
    }
}

/// How many values the runs stand for, if a number has that many.
#[tactic(auto, using(crate::proofs::RunLemmas::length_more))]
pub fn total<T>(runs: &[Run<T>]) -> Option<usize>
    ensures { IfSome result (λ n. n ≡ length (spread runs.now)) }
{
    let mut count: usize = 0;
    for run in runs {
        if run.more >= usize::MAX - count {
            return None;
        }
        count += run.more + 1;
    }
    Some(count)
}

/// The run with the value at an index, and how many equal ones are before it.
pub fn place_of<T>(runs: &[Run<T>], at: usize) -> (usize, usize)
    requires { at < length (spread runs.now) }
    ensures { IsAt runs.now at result.0 result.1 }
{
    let mut left = at;
    for i in 0..runs.len() {
        let more = runs[i].more;
        if left <= more {
            return (i, left);
        }
        left = left - more - 1;
    }
    (runs.len(), left)
}

/// How many values a run adds to a count.
fn counted(passes: bool, more: usize) -> usize
    requires { more + 1 < 2 ^ 64 }
    ensures number { result ≡ cond passes (more + 1) 0 }
    ensures few { result ≤ more + 1 }
{
    if passes { more + 1 } else { 0 }
}

/// How many of the values pass a test.
pub fn count<T, F: Fn(&T) -> bool>(runs: &[Run<T>], test: F) -> usize
    requires callable { F.IsAlwaysCallable test }
    requires few { length (spread runs.now) < 2 ^ 64 }
    ensures { (p : T → Bool) → ((x : T) → (b : Bool) → FnReturnsAt F.Fn test x b → b ≡ p x)
        → result ≡ count_by p (spread runs.now) }
{
    let mut count = 0;
    for run in runs {
        let passes = test(&run.value);
        count += counted(passes, run.more);
    }
    count
}

/// How many equal ones follow the last value with these ones, if they are equal to it.
fn joined<T: Same>(runs: &[Run<T>], value: &T, more: usize) -> Option<usize>
    ensures some { IfSome result (λ sum. 0 < length runs.now) }
    ensures all { IfSome result (λ sum. spread
        (slice_set runs.now (length runs.now - 1) (record { value = value.now; more = sum }))
        ≡ spread runs.now ++ value.now ∷ replicate more value.now) }
{
    let n = runs.len();
    if n == 0 {
        return None;
    }
    let last = &runs[n - 1];
    if last.more >= usize::MAX - more || !last.value.same(value) {
        return None;
    }
    Some(last.more + more + 1)
}

/// Appends a value, and `more` equal ones.
pub fn push_run<T: Same + Drop>(
    runs: &mut Vec<Run<T>>,
    value: T,
    more: usize,
) -> Result<(), AllocError>
    ensures { OnOk result (spread runs.new.items
        ≡ spread runs.old.items ++ value ∷ replicate more value) }
{
    match joined(runs.as_slice(), &value, more) {
        Some(sum) => {
            let last = runs.len() - 1;
            runs[last] = Run { value, more: sum };
        }
        None => runs.push(Run { value, more })?,
    }
    Ok(())
}

/// Appends equal values, perhaps none.
fn push_equal<T: Same + Drop>(
    runs: &mut Vec<Run<T>>,
    value: T,
    count: usize,
) -> Result<(), AllocError>
    ensures { OnOk result (spread runs.new.items ≡ spread runs.old.items ++ replicate count value) }
{
    if count == 0 {
        return Ok(());
    }
    push_run(runs, value, count - 1)?;
    Ok(())
}

/// Appends copies of runs. The first may join the last run.
fn push_runs<T: Same + Copied>(
    alloc: Global,
    runs: &mut Vec<Run<T>>,
    more: &[Run<T>],
) -> Result<(), AllocError>
    ensures { OnOk result (spread runs.new.items ≡ spread runs.old.items ++ spread more.now) }
{
    for run in more {
        push_run(runs, run.value.copied(alloc)?, run.more)?;
    }
    Ok(())
}

/// The runs with one value more.
pub fn pushed<T: Same + Copied>(
    alloc: Global,
    runs: &[Run<T>],
    value: T,
) -> Result<Vec<Run<T>>, AllocError>
    ensures { IfOk result (λ after. spread after.items ≡ spread runs.now ++ value ∷ []) }
{
    let mut after = copy_all(alloc, runs)?;
    push_run(&mut after, value, 0)?;
    Ok(after)
}

/// Appends a run's values with another one at an index.
fn push_with<T: Same + Copied>(
    alloc: Global,
    after: &mut Vec<Run<T>>,
    run: &Run<T>,
    before: usize,
    value: T,
) -> Result<(), AllocError>
    requires { before ≤ run.now.more }
    ensures { OnOk result (spread after.new.items
        ≡ spread after.old.items ++ changed run.now before value) }
{
    push_equal(after, run.value.copied(alloc)?, before)?;
    push_run(after, value, 0)?;
    push_equal(after, run.value.copied(alloc)?, run.more - before)
}

/// The runs with another value at an index.
pub fn with<T: Same + Copied>(
    alloc: Global,
    runs: &[Run<T>],
    at: usize,
    value: T,
) -> Result<Vec<Run<T>>, AllocError>
    requires { at < length (spread runs.now) }
    ensures { IfOk result (λ after. spread after.items ≡ slice_set (spread runs.now) at value) }
{
    let (i, before) = place_of(runs, at);
    let mut after = copy_all(alloc, &runs[..i])?;
    push_with(alloc, &mut after, &runs[i], before, value)?;
    push_runs(alloc, &mut after, &runs[i + 1..])?;
    Ok(after)
}
