//! One task's frame. Both machines read and change it by these calls.
//!
//! The records and their stacks are in `sts_model`. This crate has:
//!
//! - The first frame of a function, the next instruction, and the slots.
//! - The instructions that stay in the frame.
//! - The change that each other instruction makes to its task's frame.
//! - A copy of a frame that holds only the used parts.
#![tactic(auto)]

mod beginning;
mod copies;
mod ends;
mod instructions;
mod local_steps;
mod other_steps;
mod slots;

pub use beginning::{entry_frame, root_frame};
pub use copies::{copy_frame, write_frame};
pub use ends::{case_target, value_or_zero};
pub use instructions::{code, instr_at};
pub use local_steps::{local, run_local};
pub use other_steps::{
    empties, enter_binding, enter_scope, leave_entry, leave_fork, leave_scope, steps,
};
pub use slots::{is_empty, named, slot};
pub use sts_model::{emptied_slot, is_local, stays_in_frame};
