//! A search that explores each call once, by itself.
#![tactic(auto)]

pub mod begin;
pub mod frames;
pub mod joins;
pub mod learned;
pub mod next;
pub mod scopes;
pub mod search;
pub mod steps;
pub mod subtasks;
