//! Laws of the live view, for a machine that drops closed scopes and is seen as such a view.
//!
//! `steps` says that the view follows the machine: the view after an event is the view's own event.
//! `moves` says which tasks an event leaves alone. For programs that never fault it also says that
//! a task that can step misuses nothing.
#![tactic(auto)]

pub mod moves;
pub mod steps;

pub use moves::{
    effects_move_one, expiries_move_none, idle_stand_free, interrupts_move_none, others_stay,
    ready_stays, seen_in_order, stands_are_owned, stands_stay, turns_are_safe,
};
pub use steps::{run_is_seen, standing_is_seen, turns_are_seen};
