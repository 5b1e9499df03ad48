//! Every end that a program can reach, over all schedules.
#![tactic(auto)]

pub mod config;
pub mod ends;
pub mod events;
pub mod exploration;
pub mod full_trace;
pub mod guess;
pub mod hash;
pub mod moves;
pub mod names;
pub mod own;
pub mod reading;
pub mod sample;
pub mod schedule;
pub mod shorter;
pub mod trace;
pub mod walk;
pub mod way;
