//! The verifier. It says which programs are accepted, and where and why it refuses the others.
#![tactic(auto)]

mod error;
pub mod laws;
mod verified;

pub use error::VerifyError;
pub use laws::{typing_promises, verdict_is_one};
pub use sts_rules::Cause;
pub use verified::{Verified, verify};
