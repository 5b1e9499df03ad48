//! Events, ends, faults, phases, results of joiners, and whether a task is at a `join` or a
//! `close`.

ghost use Rattle.std.specs.Prelude.{◌≡◌};
ghost use Rattle.sts_model.specs.Living as living;
ghost use Rattle.sts_model.specs.Misuse as misuse;

/// An event of a run.
#[derive(Clone, Copy, Debug, PartialEq, Eq)]
pub enum Event {
    Step(u32),
    Interrupt(u32),
    Expire(u32),
}

/// How a task ended.
#[derive(Clone, Copy, Debug, PartialEq, Eq)]
pub enum End {
    Success(i64),
    Failed(i64),
}

/// The kind of a misuse.
#[derive(Clone, Copy, Debug, PartialEq, Eq)]
pub enum Fault {
    IllegalState,
    WrongThread,
    Structure,
    Operand,
    Unbound,
}

/// How far a scope is.
#[derive(Clone, Copy, Debug, PartialEq, Eq)]
pub enum Phase {
    Opened,
    Attempted,
    Joined,
    Closing,
    Closed,
}

impl Phase {
    /// Is the scope closed?
    pub fn is_closed(self) -> bool
        ensures { result ≡ living.is_closed self }
    {
        matches!(self, Phase::Closed)
    }

    /// Has the scope seen neither a `join` nor a `close`?
    pub fn is_opened(self) -> bool
        ensures { result ≡ misuse.is_opened self }
    {
        matches!(self, Phase::Opened)
    }

    /// May `join` be done in this phase?
    pub fn can_join(self) -> bool
        ensures { result ≡ misuse.can_join self }
    {
        matches!(self, Phase::Opened | Phase::Attempted)
    }
}

/// The result of a joiner.
#[derive(Clone, Copy, Debug, PartialEq, Eq)]
pub enum Verdict {
    Ok(Option<i64>),
    Failed(i64),
}

/// Where a task is: at a `join` of a scope that is no misuse, at a `close` that has begun, or at
/// neither.
#[derive(Clone, Copy, Debug, PartialEq, Eq)]
pub enum Stand {
    Free,
    AtJoin(u32),
    AtClose(u32),
}
