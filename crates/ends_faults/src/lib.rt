//! Faults that no run comes to: a check that no state of a table is at an instruction that misuses
//! something.
#![tactic(auto)]

pub mod entries;
pub mod laws;
pub mod never;
pub mod picks;
pub mod safe;
pub mod scopes;
pub mod tables;

pub use laws::{closing_is_at_close, safe_is_fine, safe_never_faults};
pub use never::never_faults;
pub use safe::is_safe;
pub use tables::are_safe;
