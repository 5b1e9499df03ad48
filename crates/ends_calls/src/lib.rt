//! Ends of a program, found call by call.
#![tactic(auto)]

pub mod ends;
pub mod stop;
