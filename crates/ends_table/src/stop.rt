//! Why a table is not known to be closed.

use ends_picks::outcomes::Failure;
use laws_calls::table::{Call, Own};
use std::alloc::AllocError;
use sts_model::End;

/// Why a table is not known to be closed.
#[derive(Drop)]
pub enum Stop {
    /// There is no memory.
    NoMemory(AllocError),
    /// The steps of this state can't be listed.
    Unknown,
    /// The row lacks this state.
    State(Own),
    /// The row lacks these states.
    States(Vec<Own>),
    /// The table lacks a row for this call.
    Call(Call),
    /// The row lacks this way.
    Way(End),
}

impl From<AllocError> for Stop {
    fn from(error: AllocError) -> Stop {
        Stop::NoMemory(error)
    }
}

impl From<Failure> for Stop {
    fn from(failure: Failure) -> Stop {
        match failure {
            Failure::NoMemory(error) => Stop::NoMemory(error),
            Failure::TooMany => Stop::Unknown,
        }
    }
}
