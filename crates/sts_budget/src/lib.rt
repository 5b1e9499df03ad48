//! The four budgets of a function: the most steps of its control paths, and the most tasks, scopes
//! and bindings that count at one point.
#![tactic(auto)]

mod budgets;
mod change;
mod greatest;
pub mod laws;
mod layout;
pub mod pass;
pub mod row;
mod together;

pub use budgets::{BudgetError, budget, typed_budget};
pub use change::{Resource, SumChange, added_of, change_of, depth_of, source_of};
pub use greatest::{limit_of, own_of};
pub use layout::{Layout, end_of, lay_out, next_places};
pub use pass::turns_of;
pub use sts_rules::Budgets;
