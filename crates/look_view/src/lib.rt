//! The lines of `look view`: those of `look_lines`, with the lines and the names of the text.
#![tactic(auto)]

mod named;
mod view;

pub use view::write_view;
