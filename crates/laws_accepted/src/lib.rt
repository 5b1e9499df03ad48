//! Laws of accepted programs over all lists of events: `every_run` has the main ones in one
//! contract.
//!
//! `accepted` has the laws that need only a value of `Verified`. They follow from two others.
//! `typed` says that each living task fits a typestate that is reached at its place. `costs` says
//! that the budgets of `main` bound the steps of a run, and the tasks, scopes and bindings that
//! count in it.
#![tactic(auto)]

pub mod accepted;
pub mod costs;
pub mod typed;

pub use accepted::{
    bindings_are_seen, every_run, limits_hold, stands_stay, turns_are_safe, turns_are_seen,
    views_are_within, views_have_room,
};
