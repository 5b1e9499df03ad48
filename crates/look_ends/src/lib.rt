//! Every end that a text can come to, over all schedules, in lines.
#![tactic(auto)]

mod by_calls;
mod calling;
mod exploring;
mod listing;
mod verdict;
mod writing;

pub use listing::{Listing, listed, listed_in};
pub use writing::{write_ends, write_ends_in, write_listing};
