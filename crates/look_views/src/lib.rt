//! The views of a run, as lines of JSON: its state before the first event and after each, or only
//! after the last.
#![tactic(auto)]

mod frames;
mod named;
mod of_text;
mod runs;
mod scopes;
mod tasks;
mod views;

pub use frames::integers;
pub use named::{line_at, placed, with_name};
pub use of_text::{faulty_text, faulty_trace, write_views};
pub use views::{VERSION, event_string, push_line, push_made};
