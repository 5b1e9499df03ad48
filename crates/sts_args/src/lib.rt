//! The command line of the program `sts`, read with `clap`.
#![tactic(auto)]

pub mod asked;
pub mod command;
mod program;
mod reading;

pub use asked::LineError;
pub use command::with_subcommands;
pub use reading::{NO_COMMAND, line, text_of, told, usage};
