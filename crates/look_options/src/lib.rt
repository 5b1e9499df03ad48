//! The options of a command of `look`.
#![tactic(auto)]

mod ends;
mod pictures;
mod stories;
mod views;

pub use ends::{EndsOptions, Limits, Manner};
pub use pictures::{DrawOptions, Window};
pub use stories::TellOptions;
pub use views::ViewOptions;
