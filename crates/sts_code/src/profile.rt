//! The two profiles.

/// The rules for a program: in profile two the subtasks of a scope may also be read after a
/// timeout.
#[derive(Clone, Copy, Debug, PartialEq, Eq)]
pub enum Profile {
    One,
    Two,
}
