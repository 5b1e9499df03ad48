//! What an owner knows of its subtasks.

use crate::call::Way;
use laws_calls::joiners::{is_success, is_trigger};
use std::alloc::{AllocError, Global};
use sts_code::Joiner;
use sts_model::End;

/// Which ways of its call a subtask may have come to.
#[derive(Clone, Copy, PartialEq, Eq)]
pub enum Filter {
    All,
    /// Those of one kind that count towards a cancel, or those of the kind that don't.
    Kind { succeeds: bool, triggers: bool },
    /// The way at this place.
    Only(u32),
    Nothing,
}

impl Filter {
    /// May the subtask have come to the way at this place, which is this end?
    pub fn allows(self, joiner: Joiner, place: u32, end: End) -> bool {
        match self {
            Filter::All => true,
            Filter::Kind { succeeds, triggers } => {
                is_success(end) == succeeds && is_trigger(joiner, end) == triggers
            }
            Filter::Only(only) => only == place,
            Filter::Nothing => false,
        }
    }
}

/// What an owner knows of a subtask.
#[derive(Clone, Copy, PartialEq, Eq)]
pub struct Part {
    /// Its call, by number. A subtask that is forked after a cancel has none, since it never runs.
    pub call: Option<u32>,
    pub filter: Filter,
    /// May it be unavailable?
    pub is_open: bool,
    /// May it have been the first that failed?
    pub is_early: bool,
}

/// Equal neighbours.
#[derive(Clone, Copy, PartialEq, Eq)]
pub struct Run {
    pub part: Part,
    pub count: u32,
}

/// Appends a number of parts.
pub fn push_parts(runs: &mut Vec<Run>, part: Part, count: u32) -> Result<(), AllocError> {
    if count == 0 {
        return Ok(());
    }
    if let Some(last) = runs.last_mut() {
        if last.part == part {
            last.count = last.count.saturating_add(count);
            return Ok(());
        }
    }
    runs.push(Run { part, count })?;
    Ok(())
}

/// How many parts there are.
pub fn count_parts(runs: &[Run]) -> u32 {
    let mut count: u32 = 0;
    for run in runs {
        count = count.saturating_add(run.count);
    }
    count
}

/// The part at a place.
pub fn part_at(runs: &[Run], place: u32) -> Option<Part> {
    let mut left = place;
    for run in runs {
        if left < run.count {
            return Some(run.part);
        }
        left = left.saturating_sub(run.count);
    }
    None
}

/// Appends a run, with another part at a place of it.
fn push_split(runs: &mut Vec<Run>, run: Run, place: u32, part: Part) -> Result<(), AllocError> {
    push_parts(runs, run.part, place)?;
    push_parts(runs, part, 1)?;
    push_parts(
        runs,
        run.part,
        run.count.saturating_sub(place.saturating_add(1)),
    )
}

/// Appends the parts, with another one at a place.
fn push_with(after: &mut Vec<Run>, runs: &[Run], place: u32, part: Part) -> Result<(), AllocError> {
    let mut before: u32 = 0;
    for run in runs {
        let next = before.saturating_add(run.count);
        if before <= place && place < next {
            push_split(after, *run, place - before, part)?;
        } else {
            push_parts(after, run.part, run.count)?;
        }
        before = next;
    }
    Ok(())
}

/// The parts, with another one at a place.
pub fn with_part(
    alloc: Global,
    runs: &[Run],
    place: u32,
    part: Part,
) -> Result<Vec<Run>, AllocError> {
    let mut after = Vec::new(alloc);
    push_with(&mut after, runs, place, part)?;
    Ok(after)
}

/// The parts, none of which may be unavailable.
pub fn all_heard(alloc: Global, runs: &[Run]) -> Result<Vec<Run>, AllocError> {
    let mut after = Vec::new(alloc);
    for run in runs {
        let part = Part {
            is_open: false,
            ..run.part
        };
        push_parts(&mut after, part, run.count)?;
    }
    Ok(after)
}

/// The parts, after it is known that no open one was the first that failed.
pub fn none_open_early(alloc: Global, runs: &[Run]) -> Result<Vec<Run>, AllocError> {
    let mut after = Vec::new(alloc);
    for run in runs {
        let part = Part {
            is_early: run.part.is_early && !run.part.is_open,
            ..run.part
        };
        push_parts(&mut after, part, run.count)?;
    }
    Ok(after)
}

/// How many parts may be unavailable.
pub fn count_open(runs: &[Run]) -> u32 {
    let mut count: u32 = 0;
    for run in runs {
        if run.part.is_open {
            count = count.saturating_add(run.count);
        }
    }
    count
}

/// Is it known of the part that its end counts towards a cancel?
pub fn is_sure_trigger(joiner: Joiner, part: Part, ways: &[Way]) -> bool {
    if part.is_open {
        return false;
    }
    match part.filter {
        Filter::Kind { triggers, .. } => triggers,
        Filter::Only(place) => match ways.get(place as usize) {
            Some(way) => is_trigger(joiner, way.end),
            None => false,
        },
        Filter::All | Filter::Nothing => false,
    }
}

/// How many ways a filter would leave, and the last of them.
#[derive(Clone, Copy)]
pub struct Left {
    pub count: u32,
    pub place: u32,
}

/// The ways of a part that are of one kind, and count towards a cancel or don't.
pub fn ways_left(joiner: Joiner, part: Part, ways: &[Way], kind: Filter) -> Left {
    let mut found = Left { count: 0, place: 0 };
    let mut place: u32 = 0;
    for way in ways {
        if part.filter.allows(joiner, place, way.end) && kind.allows(joiner, place, way.end) {
            found = Left {
                count: found.count.saturating_add(1),
                place,
            };
        }
        place = place.saturating_add(1);
    }
    found
}

/// The filter for those ways of a part that this one allows, too, if there are any.
pub fn narrowed(joiner: Joiner, part: Part, ways: &[Way], kind: Filter) -> Option<Filter> {
    let found = ways_left(joiner, part, ways, kind);
    match found.count {
        0 => None,
        1 => Some(Filter::Only(found.place)),
        _ => Some(kind),
    }
}
