//! A search over all states that events lead to, proved to miss none.
#![tactic(auto)]

pub mod hash;
pub mod index;
pub mod machine;
pub mod origin;
pub mod search;
