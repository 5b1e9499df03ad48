//! Whole runs: over a list of events, and by steps alone.

ghost use Rattle.std.specs.Prelude.{◌≡◌, IfOk};
ghost use Rattle.laws_accepted.specs.Accepted.{main_of};
ghost use Rattle.laws_accepted.specs.EveryRun.{RunsWell};
ghost use Rattle.sts_machine.specs.Machine.{Stands};
ghost use Rattle.sts_machine.specs.Whole.{RunsTo};
ghost use Rattle.sts_rules.specs.Refusal.{IsBudgetOf};
ghost use Rattle.sts_rules.specs.declared.budget.Budgets.{Budgets as AnyBudgets};

use crate::laws::laws;
use crate::machine::Machine;
use laws_runs::nothing_is_lost;
use std::alloc::{AllocError, Global};
use sts_model::{End, Event};
use sts_verify::Verified;

/// The machine after a list of events. The run keeps `RunsWell`.
///
/// # Errors
///
/// Memory ran out.
pub fn replay<'p>(
    alloc: Global,
    verified: &'p Verified,
    events: &[Event],
) -> Result<Machine<'p>, AllocError>
    ensures program { IfOk result (λ m. m.program ≡ verified.now) }
    ensures stands { IfOk result (λ m. Stands m events.now) }
    ensures runs_well { (budget : AnyBudgets)
        → IsBudgetOf verified.now (main_of verified.now) budget
        → RunsWell verified.now budget events.now }
{
    laws(verified);
    let mut machine = Machine::prepare(alloc, verified)?;
    for event in events {
        machine.turn(*event);
    }
    Ok(machine)
}

/// Drops a machine, and returns how its root ended, if it did.
fn end_of(machine: Machine<'_>) -> Option<End>
    ensures { result ≡ machine.entry.live.root_end }
{
    machine.root_end()
}

/// Steps tasks that can step until the root has ended. Answers how it ended.
///
/// # Errors
///
/// Memory ran out.
pub fn run_alone(alloc: Global, verified: &Verified) -> Result<End, AllocError>
    ensures { IfOk result (λ end. RunsTo verified.now end) }
{
    laws(verified);
    nothing_is_lost();
    let mut machine = Machine::prepare(alloc, verified)?;
    while let Some(task) = machine.ready() {
        machine.turn(Event::Step(task));
    }
    Ok(end_of(machine).unwrap())
}
