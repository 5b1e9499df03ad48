//! All that the program `sts` does, over bytes, readers and writers.
#![tactic(auto)]

pub mod dues;
pub mod laws;
pub mod modes;
mod playing;
mod program;
mod remarks;

pub use playing::{play, play_joined, play_run};
pub use program::{run, run_words, start};
pub use sts_args::asked::Line;
pub use sts_args::{LineError, line};
pub use sts_output::{Mode, TakeError, WriteFailed, take};
pub use sts_remarks::Remarks;
