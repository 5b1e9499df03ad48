//! The workers: a machine with the journal of its events under one lock, and 1 to 16 threads that
//! share it.
#![tactic(auto)]

mod asked;
mod book;
mod gate;
mod journal;
mod report;
mod tasks;
mod workers;

pub use book::{Book, OutsideFull, Stranger};
pub use gate::{Gate, Outside};
pub use report::{PoolError, Report};
pub use workers::{run, run_with_journal};
