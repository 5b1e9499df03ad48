//! The store of the fast machine: the tree, the frames of living tasks, and all bindings.
//!
//! Contracts see the parts, and speak of the live view that they form. Each call has the same
//! effect on that view as an instruction, an interrupt or an expiry. Its contract also says how the
//! parts change that the view doesn't show. Only `Store::with_room` can fail: it may answer that
//! memory ran out.
//!
//! The law in `agreement` says that each change of the tree is the change of the live view with the
//! same name.
#![tactic(auto)]

pub mod agreement;
mod beginning;
mod binding;
mod closing;
mod ending;
mod forking;
mod frames;
mod joining;
mod lookups;
mod putting;
mod readings;
pub mod running;
mod scopes;
mod standing;
mod store;

pub use store::{Room, Store};
