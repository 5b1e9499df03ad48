//! The names that marked comments of a text give its values, its functions and its lines.
#![tactic(auto)]

mod marked;
mod names;
mod words;

pub use names::Names;
pub use words::{Said, say_arguments, say_function, say_line, say_place, say_sentence, say_value};
