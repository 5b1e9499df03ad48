//! The typing of a function: the typestate at each place, or the least place with a cause.
//!
//! A typestate is the verifier's knowledge of a task at a place: the number of operands, the open
//! loops, the structure list and the slots. `edge` finds what follows an instruction, or the least
//! cause from V1 to V16 that holds there. `pass` goes over the places of a function once, in order.
//! `loops` finds the end of a loop and the loops around a place.
#![tactic(auto)]

pub mod after;
mod arrival;
mod arrivals;
mod cause;
mod edge;
pub mod follow;
mod leads;
mod least;
pub mod loops;
mod pass;
mod recent;
mod same;
mod site;
pub mod slots;
mod state;
mod tables;
mod typing;

pub use edge::{edges, edges_with_loops};
pub use pass::{TypeError, back_to, type_function, typed_before, typed_function, typing_of};
pub use state::{TypeState, entry};
pub use sts_rules::Cause;
pub use typing::Typing;
