//! Why a text is no program, by its lines.
//!
//! `lines` says where a fault of the text is and what is wrong, with the wrong word or byte in its
//! place. `wanted` has what is expected at each place of a line. `names` finds a name that isn't in
//! the text. The laws in `laws` tie the lines to their instructions, and the reported word to the
//! one where the assembler's reading fails.
#![tactic(auto)]

mod checks;
mod colon;
mod failing;
mod functions;
mod heads;
mod inside;
mod java;
mod labels;
pub mod laws;
mod lines;
pub mod names;
mod near;
mod near_name;
mod sentences;
pub mod wanted;
mod wrong;

pub use checks::{failing_function, is_of_head};
pub use functions::functions_of;
pub use heads::head_line;
pub use lines::{Said, fault_lines, say, say_check, say_number, say_place};
