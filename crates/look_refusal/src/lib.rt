//! Why a text is no program or its program is refused, with the line numbers of the text.
//!
//! `ways` finds two ways that meet with different typestates (V7), and `differences` the parts that
//! differ. For a budget over its limit (V17 to V20) `heavy` finds the path, or the point of one,
//! that counts most, and what each of its instructions adds.
#![tactic(auto)]

mod differences;
pub mod earlier;
mod explaining;
mod explanation;
pub mod heavy;
pub mod laws;
pub mod leads;
mod lines;
mod order;
pub mod parts;
mod remedy;
pub mod search;
mod sentences;
pub mod shares;
pub mod top;
pub mod trail;
pub mod walk;
pub mod ways;
mod weights;

pub use explaining::{explain, explained_by, refused, verdict};
pub use explanation::{Made, program_of, text_fault, whole};
pub use remedy::{Remedy, label_remedy};
pub use sentences::remedy_sentence;
