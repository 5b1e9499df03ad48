//! What the subtasks of a scope may have come to together: tests, ranges and sums.
#![tactic(auto)]

pub mod counts;
pub mod fitting;
pub mod groups;
pub mod joiners;
pub mod outcomes;
pub mod possible;
pub mod ranges;
pub mod tallies;
