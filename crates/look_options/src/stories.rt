//! Options of a story.

/// Which events have lines.
#[derive(Clone, Copy, Debug, PartialEq, Eq)]
pub struct TellOptions {
    /// Also steps that change only the task itself.
    pub each: bool,
    /// The story stops at the first event that doesn't count, and the end of each task comes last.
    pub strict: bool,
    /// The number of the first event with lines.
    pub first: u32,
    /// The number of the last event with lines. The run ends there.
    pub last: u32,
}
