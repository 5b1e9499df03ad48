//! How a state was found.

use sts_model::Event;

/// Where a state came from: an event, and the place of the state before it. `is_last` says whether
/// the state is one of those that the search is for.
#[derive(Clone, Copy, PartialEq, Eq)]
pub struct Origin {
    pub parent: usize,
    pub event: Event,
    pub is_last: bool,
}
