//! Runs that lead to an end that a search by calls found, one event at a time.
#![tactic(auto)]

pub mod aim;
pub mod basis;
pub mod early;
pub mod mark;
pub mod played;
pub mod player;
