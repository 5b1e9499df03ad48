//! The rule of the workers: what each does at a hold of the lock. It decides which ones sleep and wake.
#![tactic(auto)]

mod hold;
mod limits;
mod tasks;
mod waits;
mod worker;

pub use limits::{LIMITS, LOOKS, Limits};
pub use tasks::{Back, Tasks};
pub use waits::Waits;
pub use worker::{Held, Wake, Worker};
