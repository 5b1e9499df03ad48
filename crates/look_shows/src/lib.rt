//! What `look` shows of a text, or of a text and a trace.
#![tactic(auto)]

mod explaining;
mod showing;

pub use explaining::explain_in;
pub use showing::{Showing, show_in_full};
