//! The effect of an event.

/// The effect of an event.
#[derive(Clone, Copy, Debug, PartialEq, Eq)]
pub enum Turned {
    /// A step of a task that could step, an interrupt of a living task, or an expiry that marked a
    /// scope.
    Stepped,
    /// Nothing.
    Idle,
}
