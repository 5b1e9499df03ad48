//! What a row finds, against what it wants.

use std::fmt::Debug;
use std::process::Abort;

/// Fails the test unless what is found is what is wanted. Says both then, and the row.
pub fn compare<R: Abort, W: Copy + Debug, T: Copy + Debug + PartialEq>(
    rt: &R,
    row: W,
    found: T,
    wanted: T,
) {
    assert_eq!(rt; found, wanted, "in {row:?}");
}
