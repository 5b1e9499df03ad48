//! Environments of scoped values: lists of bindings that share their tails, under recycled keys.
//!
//! A task that is forked in a scope takes over that scope's environment, and puts its own bindings
//! in front of it. So environments are never copied: each is a key into one table of records.
#![tactic(auto)]

mod chains;
mod env;
pub mod sharing;

pub use chains::Chains;
pub use env::Env;
