//! What `look explain` and `look tell` print, as lines of JSON.
#![tactic(auto)]

mod asked;
mod explained;
mod lines;
mod stories;

pub use asked::StoryOf;
pub use explained::write_explained;
pub use stories::write_stories;
