//! The story of a run: a line for each event that others can notice, in words for people.
#![tactic(auto)]

mod deed;
mod ends;
mod idle;
mod line;
mod outcome;
mod story;
mod telling;
mod words;

pub use line::Telling;
pub use story::Story;
pub use telling::{story_of_program, tell};
pub use words::Told;
