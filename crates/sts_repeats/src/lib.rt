//! Lists that keep equal neighbours once.
#![tactic(auto)]

pub mod repeats;
pub mod runs;
