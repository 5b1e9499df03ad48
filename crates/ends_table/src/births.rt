//! How many births are left to the states of a row. It is found here, and proved by the check.

use crate::stop::Stop;
use std::alloc::{AllocError, Global};

/// The most births of a row.
const MOST: u32 = 1_000_000;

/// The most rounds in which the numbers may rise.
const ROUNDS: usize = 1_000;

/// The steps of a state.
#[derive(Drop)]
pub struct Steps {
    /// The places of the states that they lead to.
    places: Vec<usize>,
    /// The births that they make.
    born: u32,
}

impl Steps {
    /// Steps that lead to no state yet, and make this number of births.
    pub fn new(alloc: Global, born: u32) -> Steps {
        Steps {
            places: Vec::new(alloc),
            born,
        }
    }

    /// Adds the place of a state that they lead to.
    pub fn push(&mut self, place: usize) -> Result<(), AllocError> {
        self.places.push(place)?;
        Ok(())
    }
}

/// The steps of the states of a row, in the order in which the states were found.
#[derive(Drop)]
pub struct Births {
    steps: Vec<Steps>,
}

impl Births {
    /// A row in which no state has steps yet.
    pub fn new(alloc: Global) -> Births {
        Births {
            steps: Vec::new(alloc),
        }
    }

    /// Adds the steps of the next state.
    pub fn push(&mut self, steps: Steps) -> Result<(), AllocError> {
        self.steps.push(steps)?;
        Ok(())
    }

    /// Raises the numbers of the states to those that their steps need. Has any risen?
    fn raise(&self, left: &mut [u32]) -> bool {
        let mut has_risen = false;
        for back in 0..self.steps.len() {
            let place = self.steps.len() - 1 - back;
            let need = needed(&self.steps[place], left);
            if place < left.len() && left[place] < need {
                left[place] = need;
                has_risen = true;
            }
        }
        has_risen
    }

    /// The births that are left to each state. The error says that there are too many, perhaps
    /// without end.
    pub fn left(&self, alloc: Global) -> Result<Vec<u32>, Stop> {
        let mut left = Vec::from_elem(alloc, 0, self.steps.len())?;
        for _ in 0..ROUNDS {
            if !self.raise(left.as_mut_slice()) {
                return Ok(left);
            }
            if left.first().copied().unwrap_or(0) > MOST {
                return Err(Stop::Unknown);
            }
        }
        Err(Stop::Unknown)
    }
}

/// The births that the steps need.
fn needed(steps: &Steps, left: &[u32]) -> u32 {
    let mut most: u32 = 0;
    for place in steps.places.as_slice() {
        most = most.max(left.get(*place).copied().unwrap_or(0));
    }
    most.saturating_add(steps.born)
}
