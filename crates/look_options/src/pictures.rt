//! Options of a picture.

/// Events by their numbers, the lines of a trace: from the first to the last, both included.
#[derive(Clone, Copy, Debug, PartialEq, Eq)]
pub struct Window {
    pub first: u32,
    pub last: u32,
}

/// What a picture is asked for.
#[derive(Clone, Copy, Debug, PartialEq, Eq)]
pub struct DrawOptions {
    /// The events that it shows, or the last ones.
    pub window: Option<Window>,
    /// Draws only those of them that the story of the run lists.
    pub brief: bool,
}
