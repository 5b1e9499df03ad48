//! The process, as `look` meets it: its files, with `-` for standard input, and reports of a search on
//! its terminal.
#![tactic(auto)]

pub mod dashed;
mod progress;
mod terminal;

pub use dashed::Dashed;
pub use progress::{Progress, Silent};
pub use terminal::Terminal;
