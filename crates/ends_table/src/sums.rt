//! The states after `total`.

ghost use Rattle.std.specs.Prelude.{◌≡◌, IfOk, OnOk};
ghost use Rattle.ends_picks.specs.declared.outcomes.Outcome.{Outcome};
ghost use Rattle.ends_table.specs.Answered as led;
ghost use Rattle.laws_calls.specs.Steps as def;
ghost use Rattle.laws_calls.specs.Tasks.{Among};

use crate::around::Around;
use crate::missing::Missing;
use crate::places::PlacedScope;
use crate::stop::Stop;
use ends_picks::fitting::fitting;
use ends_picks::outcomes::Outcome;
use laws_calls::table::Seen;
use std::alloc::{AllocError, Global};
use sts_same::copied::Copied;

/// The scope after its owner has read the sum of this outcome.
fn told(alloc: Global, seen: &Seen, outcome: Outcome) -> Result<Seen, AllocError>
    ensures { IfOk result (λ x. x ≡ def.summed outcome.total seen.now) }
{
    let mut after = seen.copied(alloc)?;
    after.asked.total = Some(outcome.total);
    Ok(after)
}

impl<'a> Around<'a> {
    /// The state after a `total` gave the sum of this outcome.
    fn summed(&self, alloc: Global, scope: PlacedScope<'_>, outcome: Outcome) -> Result<(), Stop>
        ensures { OnOk result (led.SumLeads self.now.states.now self.now.own.now
            scope.entry.place scope.entry.seen.now outcome.total) }
    {
        let after = told(alloc, scope.seen, outcome)?;
        self.pushes(alloc, scope.place, after, outcome.total)
    }

    /// The states after a `total` gave the sum of one of these outcomes.
    fn each_sum(
        &self,
        alloc: Global,
        scope: PlacedScope<'_>,
        outcomes: &[Outcome],
    ) -> Result<(), Stop>
        ensures { OnOk result ((o : Outcome) → Among outcomes.now o
            → led.SumLeads self.now.states.now self.now.own.now scope.entry.place
            scope.entry.seen.now o.total) }
    {
        let mut missing = Missing::new(alloc);
        for outcome in outcomes {
            let step = self.summed(alloc, scope, *outcome);
            missing.note(step)?;
        }
        missing.none()
    }

    /// The states after a `total`.
    pub fn totals(&self, alloc: Global, scope: PlacedScope<'_>) -> Result<(), Stop>
        ensures { OnOk result (led.TotalsLead self.now.states.now self.now.own.now
            scope.entry.place scope.entry.seen.now) }
    {
        let outcomes = fitting(alloc, scope.seen)?;
        self.each_sum(alloc, scope, outcomes.as_slice())
    }
}
