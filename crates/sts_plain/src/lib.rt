//! The plain machine: it keeps every task and scope for ever, and tests every misuse.
#![tactic(auto)]

pub mod frame_tests;
mod local_step;
mod misstep;
mod misuses;
mod perform;
mod plain;
mod position;
mod stand;

pub use local_step::does_local;
pub use misstep::{Misstep, PlainState};
pub use misuses::misuse;
pub use perform::act;
pub use plain::Plain;
pub use position::Position;
pub use stand::{can_step, stand_at};
