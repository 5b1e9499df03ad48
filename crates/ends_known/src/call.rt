//! What a call may come to, and a hash of it.

use ends_search::hash::{mixed, mixed_values};
use laws_calls::table::Call;
use sts_model::{Bound, End};

/// An end of a task that comes before any cancel of its scope, and the fewest interrupts that it
/// takes.
#[derive(Clone, Copy, PartialEq, Eq)]
pub struct Way {
    pub end: End,
    pub cost: u32,
    /// The place of the state in which the task ends so.
    pub place: u32,
}

/// A place as a number of 32 bits.
pub fn number(place: usize) -> u32 {
    u32::try_from(place).unwrap_or(u32::MAX)
}

fn mixed_bindings(hash: u64, bindings: &[Bound]) -> u64 {
    let mut hash = mixed(hash, bindings.len() as u64);
    for bound in bindings {
        hash = mixed(
            mixed(hash, u64::from(bound.key)),
            bound.value.cast_unsigned(),
        );
    }
    hash
}

/// A number that two calls share if they are the same.
pub fn hash_of(call: &Call) -> u64 {
    let hash = mixed_values(u64::from(call.function), call.args.as_slice());
    mixed_bindings(hash, call.environment.as_slice())
}
