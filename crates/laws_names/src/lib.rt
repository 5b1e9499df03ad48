//! Birth numbers are only names: states that differ by them alone lead to such states.
#![tactic(auto)]

pub mod laws;

pub use laws::births_are_names;
