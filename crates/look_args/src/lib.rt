//! The command line of the program `look`, read with `clap`.
#![tactic(auto)]

pub mod asked;
mod command;
mod reading;
mod window;

pub use reading::line;
