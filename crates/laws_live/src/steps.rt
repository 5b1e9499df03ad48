//! A step of the view is the view of the step.

ghost use Rattle.sts_code.specs.Program.{Program};
ghost use Rattle.laws_runs.specs.Runs.{NeverFaults};
ghost use Rattle.laws_live.specs.Seen.{EffectIsSeen, InterruptIsSeen, ExpireIsSeen, CanStepIsSeen};
ghost use Rattle.laws_live.specs.Seen.{CountsIsSeen, EventIsSeen, RunIsSeen, TakenIsSeen};
ghost use Rattle.laws_live.specs.Seen.{ResultIsSeen, StandingIsSeen, TurnsAreSeen};

/// The view after an instruction's effect is the view's own effect of that instruction.
pub fn effect_is_seen()
    ensures { EffectIsSeen }
{}

/// The view after an interrupt is the view's own interrupt.
pub fn interrupt_is_seen()
    ensures { InterruptIsSeen }
{}

/// The view after an expiry is the view's own expiry.
pub fn expire_is_seen()
    ensures { ExpireIsSeen }
{}

/// The view shows whether a task can step, if its next step is no misuse.
pub fn can_step_is_seen()
    ensures { CanStepIsSeen }
{}

/// The view shows whether an event counts, unless it is a step of a task whose next step is a
/// misuse.
pub fn counts_is_seen()
    ensures { CountsIsSeen }
{}

/// The view shows the joiner's result of each scope that isn't closed.
pub fn result_is_seen()
    ensures { ResultIsSeen }
{}

/// The view has the tasks and scopes that count, and no others.
pub fn standing_is_seen()
    ensures { StandingIsSeen }
{}

/// The view after an event is the view's own event.
pub fn event_is_seen()
    ensures { EventIsSeen }
{}

/// The view after a list of events is the view's own run of that list.
pub fn run_is_seen()
    ensures { RunIsSeen }
{}

/// The steps taken are seen.
pub fn taken_is_seen()
    ensures { TakenIsSeen }
{}

/// In a program that never faults, the view after a list of events gives the view after one event
/// more.
pub fn turns_are_seen()
    ensures { (p : Program) → NeverFaults p → TurnsAreSeen p }
{}
