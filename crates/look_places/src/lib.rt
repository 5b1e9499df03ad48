//! What is wrong with a text, with the names of its lines, or in the form that editors, `make` and CI
//! jump by.
//!
//! `marks` says where a line is: `FILE:LINE:COLUMN`. `faults` finds the line of a fault of a text,
//! and `ways` the lines that two ways come from.
#![tactic(auto)]

mod faults;
mod marks;
mod named;
mod report;
mod reporting;
mod rules;
mod ways;

pub use named::write_named;
pub use report::write_places;
