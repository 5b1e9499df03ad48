//! Traces and outside events as text: one line for each, with one spelling.
#![tactic(auto)]

mod error;
mod fields;
mod outside;
mod reading;
mod trace;
mod writing;

pub use error::TraceError;
pub use outside::{Due, read_outside};
pub use trace::read_trace;
pub use writing::write_trace;
