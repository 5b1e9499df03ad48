//! Options of a view.

/// The options of a view.
#[derive(Clone, Copy, Debug, PartialEq, Eq)]
pub struct ViewOptions {
    /// After each event, not only after the last.
    pub each: bool,
    /// With operands, locals and bindings of living tasks, and all ends that joiners counted.
    pub full: bool,
    /// Only the tasks that live and the scopes that are open, and how many others there are.
    pub living: bool,
}
