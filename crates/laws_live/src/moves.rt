//! Laws of the live views that lists of events lead to, for programs that never fault. A machine
//! that keeps such a view may rely on them.

ghost use Rattle.sts_code.specs.Program.{Program};
ghost use Rattle.laws_runs.specs.Runs.{NeverFaults};
ghost use Rattle.laws_live.specs.Fine.{TurnsAreSafe};
ghost use Rattle.laws_live.specs.Order.{SeenInOrder};
ghost use Rattle.laws_live.specs.Stands.{EffectsMoveOne, InterruptsMoveNone, ExpiriesMoveNone};
ghost use Rattle.laws_live.specs.Stands.{IdleStandFree, StandsAreOwned, StandsStay};
ghost use Rattle.laws_live.specs.Waking.{OthersStay, ReadyStays};

/// Each scope and subtask that a live view names counts. The owner of a scope has it as an entry.
/// Environments are built from the bindings. This holds for every program.
pub fn seen_in_order()
    ensures { SeenInOrder }
{}

/// An event leaves alone whether a task can step, unless it concerns the task. A step or an
/// interrupt concerns its own task. The end of a subtask, or an expiry, concerns the owner and the
/// subtasks of the scope. A close concerns the subtasks of its scope, and a fork the new task.
pub fn others_stay()
    ensures { (p : Program) → NeverFaults p → OthersStay p }
{}

/// A task that can step still can after any event but its own step.
pub fn ready_stays()
    ensures { (p : Program) → NeverFaults p → ReadyStays p }
{}

/// Each task that can step is at an instruction that is no misuse, as the view shows it.
pub fn turns_are_safe()
    ensures { (p : Program) → NeverFaults p → TurnsAreSafe p }
{}

/// In a view in order an instruction that is no misuse moves only its own task. Each other task
/// stays at its `join` or `close`, and a task that the instruction brings to life is at no scope.
pub fn effects_move_one()
    ensures { EffectsMoveOne }
{}

/// In a view in order an interrupt moves no task.
pub fn interrupts_move_none()
    ensures { InterruptsMoveNone }
{}

/// In a view in order an expiry moves no task.
pub fn expiries_move_none()
    ensures { ExpiriesMoveNone }
{}

/// A task that doesn't live is at no scope.
pub fn idle_stand_free()
    ensures { IdleStandFree }
{}

/// In a view in order a task is only at scopes of its own.
pub fn stands_are_owned()
    ensures { StandsAreOwned }
{}

/// Only its own steps move a task: after any other event a living task still lives, and is at the
/// same scope or at none.
pub fn stands_stay()
    ensures { (p : Program) → NeverFaults p → StandsStay p }
{}
