//! The places where an accepted program relies on a rule that JDK 25 doesn't share, with the line
//! numbers of its text.
//!
//! `point` says where a control path can be, `search` finds all such points of a function with the
//! rules that they rely on, and `notes` lists the instructions.
#![tactic(auto)]

mod lines;
pub mod notes;
pub mod point;
pub mod reliance;
pub mod search;

pub use lines::note_lines;
pub use notes::{Note, all_notes};
