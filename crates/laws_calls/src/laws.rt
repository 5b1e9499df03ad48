//! Laws on the count, and on the states that a table covers.

ghost use Rattle.laws_calls.specs.Covered.{EndsAreWays, EventsAreCovered, RunsAreCovered};
ghost use Rattle.laws_calls.specs.Covered.{BirthsAreBounded, TasksAreCovered};
ghost use Rattle.laws_calls.specs.Triggers.{CancelsByCount, LastCounts, LastIsFound, StopsAtLimit};
ghost use Rattle.laws_calls.specs.Watching.{WatchedIsNotCancelled, WatchedWasWatched};

/// The joiner cancels its scope exactly if as many ends as its limit count towards a cancel.
pub fn cancels_by_count()
    ensures { CancelsByCount }
{}

/// One more end of a scope that is not cancelled makes at most as many of them as the limit.
pub fn stops_at_limit()
    ensures { StopsAtLimit }
{}

/// The end that cancels a scope counts itself, and makes exactly as many as the limit.
pub fn last_counts()
    ensures { LastCounts }
{}

/// Where one end is enough to cancel a scope, the first one that counts is the one that cancels it.
pub fn last_is_found()
    ensures { LastIsFound }
{}

/// A task that is watched after an event was watched before it, if it was born.
pub fn watched_was_watched()
    ensures { WatchedWasWatched }
{}

/// The flag of a watched task is set only by an interrupt of the task.
pub fn watched_is_not_cancelled()
    ensures { WatchedIsNotCancelled }
{}

/// If a table covers a state of a run, it covers the next one after an event that it allows.
pub fn events_are_covered()
    ensures { EventsAreCovered }
{}

/// A table covers each state of a run that has no more interrupts than the table allows.
pub fn runs_are_covered()
    ensures { RunsAreCovered }
{}

/// Each end that the root task comes to in such a run is a way of the root's row.
pub fn ends_are_ways()
    ensures { EndsAreWays }
{}

/// If a cancel may come, each living task of any run is in a state of its row.
pub fn tasks_are_covered()
    ensures { TasksAreCovered }
{}

/// Then no more tasks and scopes are born in any run than the root's row allows.
pub fn births_are_bounded()
    ensures { BirthsAreBounded }
{}
