//! The tasks and scopes of the plain machine, with counters that save walks over them.
#![tactic(auto)]

pub mod chains;
mod changes;
mod family;
mod held;
mod reading;
mod records;
pub mod scope;
pub mod task;
mod world;

pub use records::Records;
pub use world::World;
