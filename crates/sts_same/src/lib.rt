//! Comparisons of the machine's records: if the answer is true, they are the same.
#![tactic(auto)]

pub mod copied;
pub mod records;
pub mod same;
