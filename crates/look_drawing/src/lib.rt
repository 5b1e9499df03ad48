//! The parts of a picture: what the column of an event shows, and what is round the columns.
#![tactic(auto)]

mod brackets;
mod change;
pub mod column;
mod frame;
mod lanes;
pub mod legend;
pub mod marks;
mod numbers;
mod place;
pub mod present;
mod style;
pub mod window;
mod words;
pub mod writing;

pub use column::{Manner, Seen, Worded, first_column, maybe_column};
pub use frame::{backdrop, head};
pub use legend::{foot, keys};
pub use marks::Mark;
pub use place::lane;
pub use present::Present;
pub use style::STYLE;
pub use window::{Drawn, left_out, shown_events};
pub use writing::{Room, escape_words, escaped, escaped_line, fitted_text, text_end, text_start};
