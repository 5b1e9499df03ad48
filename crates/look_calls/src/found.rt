//! The ends of calls.

use sts_model::{End, Event};

/// An end of a call, and the events of a run that shows it.
#[derive(Drop)]
pub struct CallEnd {
    /// The function of the task.
    pub function: u32,
    /// The arguments, the one that was pushed last at the end.
    pub arguments: Vec<i64>,
    /// How the task ended.
    pub end: End,
    /// Was the joiner of its scope told of that end?
    pub is_heard: bool,
    pub trace: Vec<Event>,
}

/// The ends of calls that were found, each once.
#[derive(Drop)]
pub struct CallsFound {
    pub found: Vec<CallEnd>,
    /// The number of states that the search found.
    pub states: usize,
    /// Did the search stop before it had tried all that it knew?
    pub is_cut_off: bool,
}
