//! Laws over all event lists of every program.

ghost use Rattle.laws_runs.specs.Stays.{FaultsStay, StepsAreCounted, NothingIsLost, EndsStay};
ghost use Rattle.laws_runs.specs.Stays.{ClosedStays, PhasesGoForward, CompletionsGrow, StatesStay};
ghost use Rattle.laws_runs.specs.Stays.{CancelledStartsNothing};
ghost use Rattle.laws_runs.specs.Flags.{CancelInterrupts, InterruptSetsFlag, FlagsHaveCause};
ghost use Rattle.laws_runs.specs.Flags.{FlagsAreTaken};
ghost use Rattle.laws_runs.specs.States.{CompletionsAreEnds, ClosedIsEmpty, RootEndsLast};
ghost use Rattle.laws_runs.specs.States.{SomeTaskSteps, OwnersHold};

/// A fault stays.
#[tactic(auto, using(crate::proofs::StayLemmas::faults_stay))]
pub fn faults_stay()
    ensures { FaultsStay }
{}

/// Tasks and scopes are never lost: their numbers never fall, and each keeps what it was born with.
#[tactic(auto, using(crate::proofs::StayLemmas::nothing_is_lost))]
pub fn nothing_is_lost()
    ensures { NothingIsLost }
{}

/// A task that has ended keeps its end, and never steps again.
#[tactic(auto, using(crate::proofs::StayLemmas::ends_stay))]
pub fn ends_stay()
    ensures { EndsStay }
{}

/// Once a scope is closed, cancelled or expired, it remains so.
#[tactic(auto, using(crate::proofs::StayLemmas::closed_stays))]
pub fn closed_stays()
    ensures { ClosedStays }
{}

/// A scope never goes back to an earlier phase. Once `join` had an outcome or the close has begun,
/// it can't expire any more.
#[tactic(auto, using(crate::proofs::StayLemmas::phases_go_forward))]
pub fn phases_go_forward()
    ensures { PhasesGoForward }
{}

/// Completions only grow, until their scope is cancelled.
#[tactic(auto, using(crate::proofs::StayLemmas::completions_grow))]
pub fn completions_grow()
    ensures { CompletionsGrow }
{}

/// The completions of a scope are ends of its subtasks, each at most once. While the scope isn't
/// cancelled, they are the ends of all subtasks that have ended.
pub fn completions_are_ends()
    ensures { CompletionsAreEnds }
{}

/// The state of a subtask never changes once it is a success or failed.
#[tactic(auto, using(crate::proofs::StayLemmas::states_stay))]
pub fn states_stay()
    ensures { StatesStay }
{}

/// An event takes one step if it is a step that counts, and otherwise none.
#[tactic(auto, using(crate::proofs::StayLemmas::steps_are_counted))]
pub fn steps_are_counted()
    ensures { StepsAreCounted }
{}

/// No subtask of a closed scope lives.
pub fn closed_is_empty()
    ensures { ClosedIsEmpty }
{}

/// If the root has ended, no task lives.
pub fn root_ends_last()
    ensures { RootEndsLast }
{}

/// While the root lives some task can step: the living task that was born last never waits.
pub fn some_task_steps()
    ensures { SomeTaskSteps }
{}

/// No task that is born into a cancelled scope is ever started.
#[tactic(auto, using(crate::proofs::StayLemmas::cancelled_starts_nothing))]
pub fn cancelled_starts_nothing()
    ensures { CancelledStartsNothing }
{}

/// A scope that isn't closed is held by its owner, which lives.
pub fn owners_hold()
    ensures { OwnersHold }
{}

/// An event that cancels a scope interrupts each subtask of it that lives: its flag is set.
pub fn cancel_interrupts()
    ensures { CancelInterrupts }
{}

/// An interrupt sets the flag of a task that lives.
pub fn interrupt_sets_flag()
    ensures { InterruptSetsFlag }
{}

/// A flag is set only by an interrupt of the task or by the cancel of its scope.
pub fn flags_have_cause()
    ensures { FlagsHaveCause }
{}

/// A flag is cleared only by a step of the task itself: by `interrupted`, or by a `join` that ends
/// as interrupted.
pub fn flags_are_taken()
    ensures { FlagsAreTaken }
{}
