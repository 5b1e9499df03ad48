//! Traces in the short form, `0*6 1*4`, written in full.
#![tactic(auto)]

mod part;
mod short;

pub use part::MOST_EVENTS;
pub use short::in_full;
