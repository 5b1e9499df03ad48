//! What each call of a program can come to, with a trace for each end.
#![tactic(auto)]

mod attempts;
mod checked;
mod found;
mod goals;
mod runs;
mod search;
mod walk;

pub use found::{CallEnd, CallsFound};
pub use search::{call_ends, no_calls};
