//! A run as a picture, in SVG.
#![tactic(auto)]

mod lane_names;
pub mod picture;
mod title;
mod told;

pub use picture::draw;
pub use title::FileNames;
