//! The state of a run after a trace, with the line numbers of its text. After a fault it says what
//! is wrong. It also says where each living task is, and which tasks it waits for.
#![tactic(auto)]

mod explaining;
mod remedy;
mod sentences;
mod states;
mod tasks;
mod traces;

pub use explaining::explain_run;
pub use states::{Told, say_end, say_end_line};
pub use tasks::is_living_subtask;
pub use traces::trace_fault;
