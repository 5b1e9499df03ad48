//! A search of all states that holds of the lock lead to, in any order of the workers.

use crate::state::{Move, Seen, State, WORKERS};
use std::alloc::{AllocError, Global};
use std::collections::HashMap;
use sts_waits::Wake;

/// A search stops when it has this many states.
const MOST: usize = 4_000_000;

/// No holds lead to the end of all workers, unless one wakes up for no reason.
const NO_END: &str = "a state leads to no end";

/// What a search found: how many states there are, what some schedule comes to, and what is wrong
/// with a state, if something is.
#[derive(Clone, Copy)]
pub struct Found {
    pub states: usize,
    pub seen: Seen,
    pub bad: Option<&'static str>,
}

/// The states so far with their numbers, and from which state a hold leads to which. A hold of a
/// worker that woke up for no reason is left out. `ends` says from which states a way leads to the end
/// of all workers, as far as that is known.
#[derive(Drop)]
struct Search {
    states: Vec<State>,
    numbers: HashMap<State, usize>,
    ways: Vec<(usize, usize)>,
    ends: Vec<bool>,
    seen: Seen,
    bad: Option<&'static str>,
}

impl Search {
    /// Notes what is wrong, if it is the first.
    fn note(&mut self, bad: Option<&'static str>) {
        self.bad = self.bad.or(bad);
    }

    /// The number of a state. A new one is added.
    fn number(&mut self, state: &State) -> Result<usize, AllocError> {
        if let Some(known) = self.numbers.get(state) {
            return Ok(*known);
        }
        let next = self.states.len();
        let _none = self.numbers.insert(*state, next)?;
        self.states.push(*state)?;
        self.ends.push(state.has_ended())?;
        let bad = state.notes(&mut self.seen);
        self.note(bad);
        Ok(next)
    }

    /// Adds all states that a move from a state leads to.
    fn go(&mut self, from: usize, it: &Move) -> Result<(), AllocError> {
        self.seen.wakes |= matches!(it.wake, Wake::Another);
        self.note(it.bad);
        for number in 0..WORKERS {
            if let Some(state) = it.state.woken(it.wake, number) {
                let to = self.number(&state)?;
                if !it.is_false {
                    self.ways.push((from, to))?;
                }
            }
        }
        Ok(())
    }

    /// Adds all moves from the state of this number. Answers whether there is one.
    fn expand(&mut self, number: usize) -> Result<bool, AllocError> {
        let Some(state) = self.states.get(number).copied() else {
            return Ok(false);
        };
        for turn in 0..=WORKERS {
            if let Some(it) = state.turn(turn) {
                self.go(number, &it)?;
            }
        }
        Ok(true)
    }

    /// Marks the states from which a way leads to a marked one. Answers whether that marked another.
    fn spreads(&mut self) -> bool {
        let mut more = false;
        for (from, to) in self.ways.iter().rev() {
            let ends = self.ends.get(*to) == Some(&true);
            if let Some(mark) = self.ends.get_mut(*from) {
                more |= ends && !*mark;
                *mark |= ends;
            }
        }
        more
    }

    /// Is there a way to the end of all workers from each state?
    fn comes_to_an_end(&mut self) -> bool {
        for _ in 0..self.states.len() {
            if !self.spreads() {
                break;
            }
        }
        !self.ends.contains(&false)
    }

    /// Searches all states that this one leads to.
    fn run(&mut self, first: &State) -> Result<Found, AllocError> {
        let mut at = self.number(first)?;
        for _ in 0..MOST {
            if !self.expand(at)? {
                break;
            }
            at = at.saturating_add(1);
        }
        if !self.comes_to_an_end() {
            self.note(Some(NO_END));
        }
        Ok(Found {
            states: self.states.len(),
            seen: self.seen,
            bad: self.bad,
        })
    }
}

/// Searches all states that this one leads to.
pub fn explore(alloc: Global, first: &State) -> Result<Found, AllocError> {
    let mut search = Search {
        states: Vec::new(alloc),
        numbers: HashMap::new(alloc),
        ways: Vec::new(alloc),
        ends: Vec::new(alloc),
        seen: Seen {
            wakes: false,
            leaves: false,
            together: false,
            batch: false,
        },
        bad: None,
    };
    search.run(first)
}
