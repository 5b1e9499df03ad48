//! How far a search is, and whether it goes on.

/// Gets what a search found while it goes on, and may stop it. No contract speaks of it.
pub trait Progress {
    /// Reports ends that were found and weren't reported before, each on a line.
    fn ends(&mut self, lines: &[u8]);

    /// Reports how many states were found so far. Returns whether the ends are to be reported, too.
    fn found(&mut self, states: usize) -> bool;

    /// May the search go on? If a number of seconds is given, it stops after them.
    fn goes_on(&mut self, seconds: Option<u32>) -> bool;

    /// Reports that the search is over.
    fn over(&mut self);
}

/// Reports nothing, and lets each search go on.
#[derive(Drop)]
pub struct Silent;

impl Progress for Silent {
    fn ends(&mut self, _lines: &[u8]) {}

    fn found(&mut self, _states: usize) -> bool {
        false
    }

    fn goes_on(&mut self, _seconds: Option<u32>) -> bool {
        true
    }

    fn over(&mut self) {}
}
