//! The outside events of a program's runs.

/// Which outside events may come.
#[derive(Clone, Copy)]
pub struct Outside {
    /// May timed scopes expire?
    pub expiries: bool,
    /// How many interrupts of living tasks may come.
    pub interrupts: u32,
}
