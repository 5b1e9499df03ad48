//! Numbers that the same states share, and most others don't: only hints, with no contract.

use sts_model::{Entry, KeptEntry};

/// The hash of one number more.
pub fn mixed(hash: u64, n: u64) -> u64 {
    let product = (hash ^ n).wrapping_mul(0x9e37_79b9_7f4a_7c15);
    product ^ (product >> 32)
}

/// Mixes in how many values there are, and each value.
pub fn mixed_values(hash: u64, values: &[i64]) -> u64 {
    let mut hash = mixed(hash, values.len() as u64);
    for value in values {
        hash = mixed(hash, value.cast_unsigned());
    }
    hash
}

fn mixed_entry(hash: u64, entry: Entry) -> u64 {
    match entry {
        Entry::Scope(n) => mixed(hash, u64::from(n)),
        Entry::Binding(key, value) => {
            mixed(mixed(hash, 256 + u64::from(key)), value.cast_unsigned())
        }
    }
}

/// Mixes in the entries of a frame.
pub fn mixed_entries(hash: u64, entries: &[KeptEntry]) -> u64 {
    let mut hash = hash;
    for entry in entries {
        hash = mixed_entry(hash, entry.get());
    }
    hash
}
