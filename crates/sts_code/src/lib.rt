//! Instructions of the stack code, facts of each, and programs of them that passed the program
//! checks.
#![tactic(auto)]

mod checking;
mod code;
mod facts;
mod instr;
mod limits;
mod loops;
mod naming;
mod profile;
mod program;

pub use checking::{CodeCause, CodeError};
pub use code::{args, code_of, name_of};
pub use facts::{
    can_fail, falls_through, filled_slot, goes_straight_on, is_await_all, is_until, owners_slot,
    pops, pushes, subtask_slot, targets,
};
pub use instr::{Instr, Joiner, Kind, Pred};
pub use limits::{
    LAST_SLOT, MAX_ARGS, MAX_BIRTHS, MAX_ENDS, MAX_ENTRIES, MAX_FUNCTIONS, MAX_INSTRUCTIONS,
    MAX_LOOPS, MAX_OPERANDS, MAX_OUTSIDE, MAX_STANDING, MAX_STEPS, MAX_TURNS,
};
pub use loops::{is_times, match_of};
pub use naming::is_name;
pub use profile::Profile;
pub use program::{Function, Program};
