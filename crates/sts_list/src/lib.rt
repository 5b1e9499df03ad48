//! Programs written as text: the listing of a program and the words of one instruction.
#![tactic(auto)]

mod laws;
mod listing;
mod spelling;
mod targets;

pub use laws::listings_are_assembled_again;
pub use listing::list;
pub use spelling::{spell, write_joiner, write_words};
