//! A task by itself: what it knows of its scopes, and what their subtasks may have come to.
#![tactic(auto)]

pub mod call;
pub mod outside;
pub mod own;
pub mod part;
pub mod pick;
pub mod seen;
pub mod table;
