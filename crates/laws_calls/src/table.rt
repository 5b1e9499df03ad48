//! Tables of calls: the states that the task of a call may be in, and the ways that it may end.

ghost use Rattle.std.specs.Prelude.{◌≡◌};
ghost use Rattle.laws_calls.specs.Outside.{may_flag, per_birth};

use crate::shared::Shared;
use sts_code::Joiner;
use sts_model::{Bound, End, Frame, Items, Phase};
use sts_repeats::repeats::Repeats;

/// What may come to a task from outside.
#[derive(Clone, Copy, PartialEq, Eq)]
pub struct Outside {
    /// The most interrupts that come, to all tasks together.
    pub interrupts: u32,
    /// May a cancel of its scope come? If not, a table covers only the tasks that are watched.
    pub cancels: bool,
}

impl Outside {
    /// What a birth of a task or of a scope counts.
    pub fn per_birth(self) -> u32
        ensures { result ≡ per_birth self }
    {
        if self.cancels { 1 } else { 0 }
    }

    /// May the flag of a task be set?
    pub fn may_flag(self) -> bool
        ensures { result ≡ may_flag self }
    {
        self.cancels || self.interrupts > 0
    }
}

/// What a slot of a task holds, under local names. An open scope goes by its place among the open
/// scopes of the task, the outermost first. A subtask goes by its place among those of its scope,
/// in fork order.
#[derive(Clone, Copy, PartialEq, Eq)]
pub enum Held {
    Empty,
    Lent,
    Own(u32),
    Sub(u32, u32),
}

/// All that the ends of a task depend on.
#[derive(Drop)]
pub struct Call {
    pub function: u32,
    pub args: Items<i64>,
    /// The bindings that it inherits.
    pub environment: Items<Bound>,
}

/// A way that a task may come to its end.
#[derive(Clone, Copy, PartialEq, Eq)]
pub struct Way {
    pub end: End,
}

/// A subtask, as the owner of its scope knows it.
#[derive(Drop)]
pub struct Part {
    /// The ways that are still possible.
    pub ways: Shared<Way>,
    /// May it be unavailable?
    pub is_open: bool,
    /// May it have failed before all others?
    pub is_early: bool,
}

/// What an owner knows of a cancel of its scope.
#[derive(Clone, Copy, PartialEq, Eq)]
pub enum Knowledge {
    /// It knows nothing.
    Unseen,
    /// The joiner has cancelled the scope.
    ByJoiner,
    /// The scope has expired.
    Late,
    /// All subtasks have ended, and the scope is not cancelled.
    Heard,
}

/// The answers that an owner got to `tally` and `total`: how many succeeded, failed and are
/// unavailable, and the sum.
#[derive(Clone, Copy, PartialEq, Eq)]
pub struct Asked {
    pub successes: Option<u32>,
    pub failures: Option<u32>,
    pub unavailable: Option<u32>,
    pub total: Option<i64>,
}

/// A scope, as its owner knows it.
#[derive(Drop)]
pub struct Seen {
    pub joiner: Joiner,
    pub timed: bool,
    pub environment: Items<Bound>,
    pub phase: Phase,
    pub knowledge: Knowledge,
    pub asked: Asked,
    /// Has its owner seen a failure?
    pub has_failure: bool,
    /// Its subtasks, in fork order.
    pub parts: Repeats<Part>,
}

/// A state of one task. Its frame has empty slots, and no births. Its open scopes are in the order
/// of the frame's entries, the last opened first.
#[derive(Drop)]
pub struct Own {
    pub frame: Frame,
    pub held: [Held; 16],
    pub scopes: Items<Seen>,
    /// How many tasks and scopes may still be born of it and of its subtasks. A table that allows no
    /// cancel doesn't count them.
    pub left: u32,
}

/// A call with the states that its task may be in, and the ways that it may end.
#[derive(Drop)]
pub struct Row {
    pub call: Call,
    /// How many tasks and scopes may be born of a task of this call and of its subtasks.
    pub births: u32,
    pub states: Items<Own>,
    pub ways: Shared<Way>,
}
