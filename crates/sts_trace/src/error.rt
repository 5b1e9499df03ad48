//! The faults of a trace text or an outside text.

ghost use Rattle.std.specs.Prelude.{◌≡◌};
ghost use Rattle.sts_trace.specs.declared.error.TraceError.TheVariants.{Memory};

use std::alloc::{AllocError, AllocFailed};
use thiserror::Error;

/// The first fault of a trace text or an outside text. Lines count from 1.
#[derive(Clone, Copy, Debug, PartialEq, Eq, Error)]
pub enum TraceError {
    /// T1: this line doesn't have the expected form.
    #[error("line {0} is not of the wanted form")]
    BadLine(u64),
    /// T2: a number of this line isn't `0` or digits without a leading zero, up to 4294967295.
    #[error("line {0} has a bad number")]
    BadNumber(u64),
    /// T3: bytes are left after the last newline.
    #[error("the last line is not ended")]
    NoNewline,
    /// T4: there was no memory for the answer.
    #[error("out of memory")]
    Memory,
}

impl From<AllocError> for TraceError {
    ghost from_gives = { λ _ e. e ≡ Memory };

    fn from(_e: AllocError) -> TraceError {
        TraceError::Memory
    }
}

impl<T: Drop> From<AllocFailed<T>> for TraceError {
    ghost from_gives = { λ _ e. e ≡ Memory };

    fn from(_e: AllocFailed<T>) -> TraceError {
        TraceError::Memory
    }
}
