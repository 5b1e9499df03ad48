//! The task that a run is about, and the way there.

use ends_known::part::{Filter, Part, part_at, with_part};
use ends_known::seen::Seen;
use std::alloc::{AllocError, Global};

/// What a run makes of a subtask.
#[derive(Clone, Copy, PartialEq, Eq)]
pub enum Role {
    /// The run goes on with it, and its owner waits.
    Entered,
    /// It ends by this way of its call before a cancel of its scope.
    Heard(u32),
    /// It ends after a cancel of its scope.
    Unheard,
}

/// A subtask of a task, by the place of its scope among the open ones and its place in it.
#[derive(Clone, Copy)]
pub struct Aim {
    pub scope: u32,
    pub part: u32,
    pub role: Role,
}

/// A task that leads to one of its subtasks.
#[derive(Clone, Copy)]
pub struct Leg {
    /// The number of its call, or `None` for the root's.
    pub call: Option<u32>,
    /// The place of the state up to which it is played.
    pub place: u32,
    pub aim: Aim,
}

/// The first events of a way of its call, which a task takes as soon as it is forked.
#[derive(Clone, Copy)]
pub struct FirstSteps {
    pub call: u32,
    pub way: u32,
    /// How many events.
    pub events: usize,
}

/// The part as the run makes it.
fn in_role(part: Part, role: Role) -> Part {
    match role {
        Role::Heard(way) => Part {
            filter: Filter::Only(way),
            is_open: false,
            ..part
        },
        Role::Entered | Role::Unheard => Part {
            filter: Filter::Nothing,
            is_open: true,
            ..part
        },
    }
}

/// The scope in which the part at a place has this role.
pub fn with_role(alloc: Global, scope: &Seen, place: u32, role: Role) -> Result<Seen, AllocError> {
    match part_at(scope.runs.as_slice(), place) {
        None => scope.copied(alloc),
        Some(part) => Ok(Seen {
            facts: scope.facts,
            runs: with_part(alloc, scope.runs.as_slice(), place, in_role(part, role))?,
        }),
    }
}

/// The scope in which the subtask that a run is about has its role, if there is one.
pub fn restricted(alloc: Global, scope: &Seen, aim: Option<Aim>) -> Result<Seen, AllocError> {
    match aim {
        None => scope.copied(alloc),
        Some(aim) => with_role(alloc, scope, aim.part, aim.role),
    }
}
