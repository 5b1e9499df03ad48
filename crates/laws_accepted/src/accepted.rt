//! Laws of accepted programs over all event lists, each from a value of `Verified` alone.

ghost use Rattle.std.specs.Prelude.{◌≡◌, ◌<◌, List, None, length};
ghost use Rattle.sts_code.specs.Checks.{program_fault};
ghost use Rattle.laws_runs.specs.Runs.{NeverFaults};
ghost use Rattle.laws_accepted.specs.Accepted.{main_of, BudgetsArePrinted, LivingTasksAreFine};
ghost use Rattle.laws_accepted.specs.Accepted.{AStepIsLeft, RoomIsLeft, LimitsHold};
ghost use Rattle.laws_accepted.specs.EveryRun.{RunsWell};
ghost use Rattle.laws_accepted.specs.Views.{BindingsAreSeen, ViewsAreWithin, ViewsHaveRoom};
ghost use Rattle.sts_rules.specs.Refusal.{IsAccepted, IsBudgetOf};
ghost use Rattle.sts_model.specs.declared.event.Event.{Event};
ghost use Rattle.laws_live.specs.Seen.{TurnsAreSeen};
ghost use Rattle.laws_live.specs.Fine.{TurnsAreSafe};
ghost use Rattle.laws_live.specs.Stands.{StandsStay};
ghost use Rattle.laws_live.specs.Waking.{OthersStay, ReadyStays};

use crate::costs::{accepted_has_place, accepted_is_modest};
use crate::typed::only_room_is_wanted;
use laws_runs::{closed_is_empty, root_ends_last, some_task_steps};
use sts_rules::Budgets;
use sts_verify::Verified;

/// Promises for every run of an accepted program, whatever the events are:
///
/// - It never faults.
/// - Its closed scopes are empty, its root ends last, and until then some task can step.
/// - Its steps stay within the budget of `main`, and so do the tasks, scopes and bindings that
///   count at any time.
///
/// These are the budgets that are printed, and the function returns them.
pub fn every_run(verified: &Verified) -> Budgets
    ensures printed { IsBudgetOf verified.now (main_of verified.now) result }
    ensures runs_well { (events : List Event) → RunsWell verified.now result events }
{
    never_faults(verified);
    closed_is_empty();
    root_ends_last();
    some_task_steps();
    crate::costs::steps_are_within();
    crate::costs::tasks_are_within();
    crate::costs::scopes_are_within();
    crate::costs::binds_are_within();
    main_budgets(verified)
}

/// The budgets of `main`, the last function, and the invariant of a verified program's type.
fn main_budgets(verified: &Verified) -> Budgets
    ensures printed { IsBudgetOf verified.now (main_of verified.now) result }
    ensures checked { program_fault verified.now.routines ≡ None }
    ensures some { 0 < length verified.now.routines }
    ensures accepted { IsAccepted verified.now }
{
    let main = verified.program().functions().len() - 1;
    verified.budgets(main)
}

/// No list of events leads to a fault.
pub fn never_faults(verified: &Verified)
    ensures { NeverFaults verified.now }
{
    living_tasks_are_fine(verified);
}

/// No living task misuses anything: it is at an instruction, and no row of misuse applies to it.
pub fn living_tasks_are_fine(verified: &Verified)
    ensures { LivingTasksAreFine verified.now }
{
    main_budgets(verified);
    only_room_is_wanted(verified);
    accepted_has_place();
}

/// Each function has budgets, and only one set of them: those that are printed.
pub fn budgets_are_printed(verified: &Verified)
    ensures { BudgetsArePrinted verified.now }
{
    main_budgets(verified);
}

/// While a task lives, the budget of `main` has a step left.
pub fn a_step_is_left(verified: &Verified)
    ensures { AStepIsLeft verified.now }
{
    main_budgets(verified);
    living_tasks_are_fine(verified);
    crate::costs::a_step_is_left();
}

/// There is room, within the budgets of `main`, for what the next instruction of a living task
/// opens, binds or forks.
pub fn room_is_left(verified: &Verified)
    ensures { RoomIsLeft verified.now }
{
    main_budgets(verified);
    crate::costs::room_is_left();
}

/// No run takes more than 1,000,000 steps, and never do more than 65,536 tasks, scopes or bindings
/// count.
pub fn limits_hold(verified: &Verified)
    ensures { LimitsHold verified.now }
{
    main_budgets(verified);
    accepted_is_modest();
}

/// The view and the steps after a list of events give those after one event more. The view shows
/// whether that event counts.
pub fn turns_are_seen(verified: &Verified)
    ensures { TurnsAreSeen verified.now }
{
    never_faults(verified);
    laws_live::turns_are_seen();
}

/// Each task that can step is at an instruction that is no misuse, as the view shows.
pub fn turns_are_safe(verified: &Verified)
    ensures { TurnsAreSafe verified.now }
{
    never_faults(verified);
    laws_live::turns_are_safe();
}

/// An event doesn't change whether a task can step, unless it concerns the task.
pub fn others_stay(verified: &Verified)
    ensures { OthersStay verified.now }
{
    never_faults(verified);
    laws_live::others_stay();
}

/// A task that can step still can after any event but its own step.
pub fn ready_stays(verified: &Verified)
    ensures { ReadyStays verified.now }
{
    never_faults(verified);
    laws_live::ready_stays();
}

/// Only its own steps move a task: after any other event a living task still lives, and is at the
/// same scope or at none.
pub fn stands_stay(verified: &Verified)
    ensures { StandsStay verified.now }
{
    never_faults(verified);
    laws_live::stands_stay();
}

/// The living tasks of a view have the bindings that count, and no others. So a machine needs one
/// record for each of them.
pub fn bindings_are_seen(verified: &Verified)
    ensures { BindingsAreSeen verified.now }
{
    main_budgets(verified);
    crate::costs::idle_have_no_entries();
}

/// No view has more tasks, scopes or bindings than the budgets of `main`.
pub fn views_are_within(verified: &Verified)
    ensures { ViewsAreWithin verified.now }
{
    main_budgets(verified);
    bindings_are_seen(verified);
    laws_live::standing_is_seen();
    crate::costs::tasks_are_within();
    crate::costs::scopes_are_within();
    crate::costs::binds_are_within();
}

/// If the next instruction of a living task opens a scope, binds or forks, the view has fewer of
/// these than the budget of `main`. So one of the records that were made for the budget is still
/// free.
pub fn views_have_room(verified: &Verified)
    ensures { ViewsHaveRoom verified.now }
{
    bindings_are_seen(verified);
    room_is_left(verified);
    laws_live::standing_is_seen();
}
