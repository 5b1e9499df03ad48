//! The ends that a search by calls finds, and whether they are all.

ghost use Rattle.std.specs.Prelude.{IfOk};
ghost use Rattle.ends_plain.specs.Listed.{AreEnds};
ghost use Rattle.ends_whole.specs.Whole.{AreWhole};

use crate::whole::are_whole;
use ends_calls::ends::{FoundByCalls, Room, found_by_calls};
use ends_plain::config::{Found, Setting};
use std::alloc::{AllocError, Global};

/// Ends that were found by calls, each once.
#[derive(Drop)]
pub struct EndsByCalls {
    pub found: Vec<Found>,
    /// The number of states that the search found.
    pub states: usize,
    /// Was each state expanded, and has each end that the search found a trace?
    pub is_closed: bool,
    /// Are these all ends, if no run of the program faults?
    pub whole: bool,
}

/// Are these all ends, if no run of the program faults?
fn is_whole(
    alloc: Global,
    setting: &Setting,
    calls: &FoundByCalls,
    most: usize,
) -> Result<bool, AllocError>
    ensures { IfOk result (λ yes. AreWhole yes setting.now calls.now.found.items) }
{
    if !calls.is_closed {
        return Ok(false);
    }
    are_whole(alloc, setting, calls.found.as_slice(), most)
}

/// Ends of a program, found call by call. A closed table of at most `most_of_table` states shows
/// that they are all.
///
/// # Errors
///
/// There is no memory.
pub fn ends_by_calls(
    alloc: Global,
    setting: &Setting,
    room: Room,
    most_of_table: usize,
) -> Result<EndsByCalls, AllocError>
    ensures sound { IfOk result (λ r. AreEnds setting.now r.found.items) }
    ensures complete { IfOk result (λ r. AreWhole r.whole setting.now r.found.items) }
{
    let calls = found_by_calls(alloc, setting, room)?;
    let whole = is_whole(alloc, setting, &calls, most_of_table)?;
    Ok(EndsByCalls {
        found: calls.found,
        states: calls.states,
        is_closed: calls.is_closed,
        whole,
    })
}
