//! The lines of a text, the words of a line, and the numbers that words write.
#![tactic(auto)]

mod cutting;
mod numbers;
mod reader;

pub use cutting::{after_lines, cut_at, cut_at_blank, cut_at_newline, cut_at_space};
pub use numbers::{digits_up_to, number, number_up_to, numeral};
pub use reader::Words;
