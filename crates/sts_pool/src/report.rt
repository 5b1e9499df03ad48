//! The report of a run, or why there is none.

use sts_model::{End, Event};
use thiserror::Error;

/// How the root ended, the journal that led there, how many steps it has, and how many workers
/// joined the run. For each interrupt and expiry of the journal, in order, `counted` has whether it
/// counted. If the journal wasn't written, it is empty here.
#[derive(Debug, Drop)]
pub struct Report {
    pub end: End,
    pub journal: Vec<Event>,
    pub steps: u64,
    pub workers: u32,
    pub counted: Vec<bool>,
}

/// Why a run has no report.
#[derive(Clone, Copy, Debug, PartialEq, Eq, Error)]
pub enum PoolError {
    /// P1: memory was refused.
    #[error("memory was refused")]
    Memory,
    /// P2: a worker could not be started, or one that was started ended before it reached the lock;
    /// all that were started have ended.
    #[error("a worker could not be started")]
    SpawnRefused,
    /// P3: the root had not ended in the book that the workers left.
    #[error("the run has not ended")]
    Unfinished,
}
