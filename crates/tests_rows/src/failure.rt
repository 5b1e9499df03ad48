//! Why a call has no answer.

use std::alloc::AllocError;
use std::io;
use std::io::Print;

/// Why a call has no answer.
#[derive(Clone, Copy)]
pub enum Failure {
    /// There was no memory in the call of this name.
    Memory(&'static str),
    /// The input is none for the call.
    Unfit(&'static str),
    /// A write failed.
    Write,
}

impl From<io::Error> for Failure {
    fn from(_error: io::Error) -> Failure {
        Failure::Write
    }
}

impl From<AllocError> for Failure {
    fn from(_error: AllocError) -> Failure {
        Failure::Memory("a table")
    }
}

/// Returns the answer of a write.
///
/// # Errors
///
/// The write failed.
pub fn written(answer: io::Result<()>) -> Result<(), Failure> {
    match answer {
        Ok(()) => Ok(()),
        Err(_) => Err(Failure::Write),
    }
}

/// Returns the answer of a call that fails only if memory runs out.
///
/// # Errors
///
/// There was none.
pub fn within<T>(call: &'static str, answer: Result<T, AllocError>) -> Result<T, Failure> {
    match answer {
        Ok(value) => Ok(value),
        Err(_) => Err(Failure::Memory(call)),
    }
}

/// Says why there is no answer, if there is none. Returns the status: 6 if memory ran out, 2 if the
/// input is none for the call, and 1 if a write failed.
pub fn status(rt: &HostRuntime, answer: Result<(), Failure>) -> u8 {
    let (said, status) = match answer {
        Ok(()) => return 0,
        Err(Failure::Memory(call)) => (println!(rt; "error memory in {call}"), 6),
        Err(Failure::Unfit(why)) => (rt.println(why), 2),
        Err(Failure::Write) => return 1,
    };
    if said.is_ok() { status } else { 1 }
}
