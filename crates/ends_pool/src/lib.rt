//! The end of a run by workers is among all ends of its program.
#![tactic(auto)]

pub mod laws;
