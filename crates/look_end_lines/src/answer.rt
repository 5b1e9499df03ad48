//! What a search or random schedules found, and what else their listing shows.

use ends_plain::config::{Found, Setting};
use ends_plain::sample::Sample;
use look_names::Names;
use look_run::Told;
use std::alloc::Global;

/// The program of an end, and the end's place, which is counted from 0.
#[derive(Clone, Copy)]
pub struct At<'a, 't> {
    pub told: Told<'a, 't>,
    pub place: usize,
}

/// The ends of a program, as far as they were found.
#[derive(Drop)]
pub struct Answer {
    pub found: Vec<Found>,
    /// How many states the search found. If a search over all schedules stopped, and one by calls
    /// has all ends, these are the states of that one.
    pub states: usize,
    /// Are these the ends of all schedules?
    pub whole: bool,
    /// The states of a search by calls, if it found no other end, and it is not proved that there
    /// is none.
    pub by_calls: Option<usize>,
}

/// A search of the program of a text with these names, and its ends. `number` names the end whose
/// trace is kept, if there is one.
#[derive(Clone, Copy)]
pub struct Searched<'a, 't> {
    pub names: &'a Names<'t>,
    pub setting: &'a Setting,
    pub is_refused: bool,
    pub number: Option<u32>,
    pub ends: &'a Answer,
}

/// Random schedules of a program, the number of the end that is asked for, and the ends.
#[derive(Clone, Copy)]
pub struct Sampled<'a, 't> {
    pub told: Told<'a, 't>,
    pub schedules: u32,
    pub seed: u32,
    pub number: Option<u32>,
    pub sample: &'a Sample,
}
