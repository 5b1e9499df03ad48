//! Laws over all event lists of every program: why scopes are cancelled, which tasks of them have
//! ended, which task has entered them, what slots name, what `tally` answers.

ghost use Rattle.laws_runs.specs.Scopes.{CancelledHasCause, LeftOutIsCancelled};
ghost use Rattle.laws_runs.specs.Scopes.{JoinedIsSettled, EntriesAreOpen};
ghost use Rattle.laws_runs.specs.Slots.{SlotsStand};
ghost use Rattle.laws_runs.specs.Tallies.{TalliesAreCounts};

/// A scope is cancelled only by one of three causes: an end after which its joiner asks for it, its
/// expiry, or its close.
pub fn cancelled_has_cause()
    ensures { CancelledHasCause }
{}

/// If a subtask doesn't live and is unavailable, its scope is cancelled.
pub fn left_out_is_cancelled()
    ensures { LeftOutIsCancelled }
{}

/// If `join` had an outcome, the scope is cancelled or no subtask of it lives.
pub fn joined_is_settled()
    ensures { JoinedIsSettled }
{}

/// A scope in the structure list of a living task belongs to that task, isn't closed, and occurs
/// once.
pub fn entries_are_open()
    ensures { EntriesAreOpen }
{}

/// Each scope and subtask that a slot of a living task names still counts.
pub fn slots_stand()
    ensures { SlotsStand }
{}

/// `tally` answers the numbers of subtasks that are a success, failed and unavailable; together
/// they are all subtasks of the scope.
pub fn tallies_are_counts()
    ensures { TalliesAreCounts }
{}
