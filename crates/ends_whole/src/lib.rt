//! Ends of a program, found call by call, and whether they are all ends.
#![tactic(auto)]

pub mod ends;
pub mod whole;

pub use ends::{EndsByCalls, ends_by_calls};
pub use ends_calls::ends::Room;
