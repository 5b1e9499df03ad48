//! Lines for standard error about what a person may have overlooked.
#![tactic(auto)]

mod idle;
mod remarks;
mod watched;

pub use idle::idle_line;
pub use remarks::Remarks;
pub use watched::{Watched, unwritten_line};
