//! Tables of calls: a check that a table is closed under the steps of tasks.
#![tactic(auto)]

pub mod around;
pub mod beginning;
pub mod bindings;
pub mod births;
pub mod cases;
pub mod check;
pub mod closing;
pub mod fingerprints;
pub mod forks;
pub mod frames;
pub mod joins;
pub mod looks;
pub mod missing;
pub mod parts;
pub mod places;
pub mod reached;
pub mod rows;
pub mod scopes;
pub mod steps;
pub mod stop;
pub mod sums;
pub mod tallies;
