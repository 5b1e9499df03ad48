//! The fast machine. It runs a verified program, and its turn has no fault to return. It has the
//! same live view and the same number of steps as the plain machine.
#![tactic(auto)]

pub mod beside;
mod comparing;
mod effect;
mod laws;
mod machine;
mod opening;
mod perform;
mod runs;
mod slice;
pub mod slicing;
mod slots;
mod standing;
mod stands;
mod turned;

pub use machine::Machine;
pub use runs::{replay, run_alone};
pub use slice::Slice;
pub use standing::Standing;
pub use turned::Turned;
