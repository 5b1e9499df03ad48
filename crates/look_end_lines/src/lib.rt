//! The ends of a text and of its calls in lines, and the form in which a listing shows them.
#![tactic(auto)]

mod answer;
mod below;
mod calls;
mod form;
mod lines;

pub use answer::{Answer, At, Sampled, Searched};
pub use below::{found_at, has_number};
pub use calls::Called;
pub use form::{Bytes, EndLines, EndsForm};
pub use lines::{say_found, times_at};
pub use look_run::Told;
