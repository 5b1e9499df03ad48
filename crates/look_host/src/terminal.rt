//! How far a search is, on a terminal, and how long it may last.

use crate::progress::Progress;
use std::alloc::Global;
use std::io::Write;
use std::rt::Clock;
use std::time::Instant;

/// How many seconds pass before the first report, and between two of them.
const SECONDS: u64 = 1;

/// Goes to the beginning of the line, and empties it.
const EMPTY_LINE: &[u8] = b"\r\x1b[K";

/// Writes each end that was found, and how many states there are, once a second, on a line that it
/// empties in the end. It writes nothing if its reports have no start.
#[derive(Drop)]
pub struct Terminal<'a, R, E> {
    rt: &'a R,
    alloc: Global,
    err: E,
    /// When the program began.
    start: Option<Instant>,
    last: Option<Instant>,
    /// The lines of the ends that were found, until they are written.
    ends: Vec<u8>,
    /// How many states there were when the search was last asked for the ends.
    asked_at: usize,
    has_line: bool,
}

impl<'a, R: Clock, E: Write> Terminal<'a, R, E> {
    /// Returns reports to `err`, if that is a terminal.
    pub fn new(rt: &'a R, alloc: Global, err: E, is_terminal: bool) -> Terminal<'a, R, E> {
        let start = Instant::now(rt).ok();
        let last = if is_terminal { start } else { None };
        Terminal {
            rt,
            alloc,
            err,
            start,
            last,
            ends: Vec::new(alloc),
            asked_at: 0,
            has_line: false,
        }
    }

    /// Have these seconds passed since a moment? If it is not known, they have not.
    fn has_passed(&self, since: Option<Instant>, seconds: u64) -> bool {
        match since {
            None => false,
            Some(since) => since
                .elapsed(self.rt)
                .is_ok_and(|passed| passed.as_secs() >= seconds),
        }
    }

    /// Empties the line of the states, if there is one.
    fn empty_line(&mut self) {
        if self.has_line {
            let _told = self.err.write_all(EMPTY_LINE);
        }
        self.has_line = false;
    }

    /// Writes the lines of the ends, once.
    fn report_ends(&mut self) {
        if self.ends.is_empty() {
            return;
        }
        self.empty_line();
        let _told = self.err.write_all(self.ends.as_slice());
        self.ends = Vec::new(self.alloc);
    }

    fn report(&mut self, states: usize) {
        self.report_ends();
        // (the search goes on where no line can be written)
        if let Ok(line) = format!(in self.alloc; "\r{states} states") {
            let _told = self.err.write_all(line.as_bytes());
            self.has_line = true;
        }
        self.last = Instant::now(self.rt).ok();
    }
}

impl<R: Clock, E: Write> Progress for Terminal<'_, R, E> {
    fn ends(&mut self, lines: &[u8]) {
        if self.last.is_some() {
            if let Ok(lines) = Vec::from_slice(self.alloc, lines) {
                self.ends = lines;
            }
        }
        if self.has_line {
            self.report_ends();
        }
    }

    fn found(&mut self, states: usize) -> bool {
        if !self.has_passed(self.last, SECONDS) {
            return false;
        }
        self.report(states);
        // (a listing of the ends asks each state)
        let has_doubled = states / 2 >= self.asked_at;
        if has_doubled {
            self.asked_at = states;
        }
        has_doubled
    }

    fn goes_on(&mut self, seconds: Option<u32>) -> bool {
        match seconds {
            None => true,
            Some(seconds) => !self.has_passed(self.start, u64::from(seconds)),
        }
    }

    fn over(&mut self) {
        self.empty_line();
    }
}
