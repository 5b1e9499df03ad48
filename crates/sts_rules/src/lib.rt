//! The records of what the verifier knows and reports, and its definitions (in specs/).
#![tactic(auto)]

mod budget;
mod fill;
mod typing;

pub use budget::Budgets;
pub use fill::filled;
pub use typing::{Cause, Known, SlotKind, TypedEntry, TypedLoop, TypedPhase, TypedScope};
