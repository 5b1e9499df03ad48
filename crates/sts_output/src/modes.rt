//! The output of each mode that needs only the plain machine or the verifier, one file a mode.

pub mod list;
pub mod plain;
pub mod verify;
