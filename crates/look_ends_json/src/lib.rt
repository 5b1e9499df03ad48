//! What `look ends` prints, as lines of JSON.
#![tactic(auto)]

mod calls;
mod ends;
mod outcome;

pub use ends::JsonEnds;
