//! Laws of every program over all lists of events, and the words for laws of runs.
//!
//! A law is a public function with an empty body: its contract is the theorem. `states` has the
//! laws of tasks and scopes, from one state of a run to a later one. `scopes` says why scopes are
//! cancelled, which tasks of them have ended, and which task has entered them. It also says what
//! slots name and what `tally` answers.
//!
//! Every law of runs is proved by one induction over events (`proofs/EventLemmas.antt`).
#![tactic(auto)]

pub mod scopes;
pub mod states;

pub use states::{closed_is_empty, nothing_is_lost, root_ends_last, some_task_steps};
