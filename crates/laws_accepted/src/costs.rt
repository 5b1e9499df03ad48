//! Laws over all event lists of every program with budgets: the steps of a run, and the tasks,
//! scopes and bindings that count in it.

ghost use Rattle.laws_accepted.specs.Costs.{StepsAreWithin, StepsAreLeft, AStepIsLeft};
ghost use Rattle.laws_accepted.specs.Costs.{StepsNeedTypes, TasksAreWithin, ScopesAreWithin};
ghost use Rattle.laws_accepted.specs.Costs.{BindsAreWithin, RoomIsSlack, RoomIsLeft};
ghost use Rattle.laws_accepted.specs.Costs.{BirthsAreSteps, AcceptedIsModest, AcceptedHasPlace};
ghost use Rattle.laws_accepted.specs.Points.{TasksFollowPaths, LoopsHaveTurns, IdleHaveNoEntries};

/// Each living task is at a point of a control path of its function, with the entries and the
/// subtasks of that point.
pub fn tasks_follow_paths()
    ensures { TasksFollowPaths }
{}

/// Each open loop of a living task has a turn left.
pub fn loops_have_turns()
    ensures { LoopsHaveTurns }
{}

/// A task that doesn't live has no entries in its structure list.
pub fn idle_have_no_entries()
    ensures { IdleHaveNoEntries }
{}

/// Each task but the root and each scope was born by a step of its own, in every program.
pub fn births_are_steps()
    ensures { BirthsAreSteps }
{}

/// A run of a well-typed program takes no more steps than the budget of `main`.
pub fn steps_are_within()
    ensures { StepsAreWithin }
{}

/// Enough steps are left for the next instruction of a living task. A close that waits has taken
/// its first step already.
pub fn steps_are_left()
    ensures { StepsAreLeft }
{}

/// A step is left to each living task of a well-typed program that is at an instruction.
pub fn a_step_is_left()
    ensures { AStepIsLeft }
{}

/// If a program isn't well typed, a run of it may take more steps than the budget of `main`.
pub fn steps_need_types()
    ensures { StepsNeedTypes }
{}

/// The tasks that count are never more than the budget of `main`.
pub fn tasks_are_within()
    ensures { TasksAreWithin }
{}

/// The scopes that count are never more than the budget of `main`.
pub fn scopes_are_within()
    ensures { ScopesAreWithin }
{}

/// The bindings that count are never more than the budget of `main`.
pub fn binds_are_within()
    ensures { BindsAreWithin }
{}

/// The number that counts, and the number that its tasks may still use, add up to each budget of
/// `main`.
pub fn room_is_slack()
    ensures { RoomIsSlack }
{}

/// There is room for what the next instruction of a living task opens, binds or forks.
pub fn room_is_left()
    ensures { RoomIsLeft }
{}

/// No run of an accepted program passes a limit.
pub fn accepted_is_modest()
    ensures { AcceptedIsModest }
{}

/// At an `open` or a `fork` of an accepted program, the limits leave room for one more to count and
/// to be born.
pub fn accepted_has_place()
    ensures { AcceptedHasPlace }
{}
