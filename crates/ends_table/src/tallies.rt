//! The states after `tally`.

ghost use Rattle.std.specs.Prelude.{◌≡◌, ℕ, ◌<◌, IfOk, OnOk};
ghost use Rattle.ends_picks.specs.Ranges.{IsIn};
ghost use Rattle.ends_table.specs.Answered as led;
ghost use Rattle.laws_calls.specs.Steps as def;

use crate::around::Around;
use crate::missing::Missing;
use crate::places::{PlacedScope, number};
use crate::stop::Stop;
use ends_picks::ranges::Range;
use ends_picks::tallies::tally_range;
use laws_calls::table::Seen;
use std::alloc::{AllocError, Global};
use sts_code::Kind;
use sts_same::copied::Copied;

/// The scope after its owner has read this number.
fn told(alloc: Global, seen: &Seen, kind: Kind, count: u32) -> Result<Seen, AllocError>
    ensures { IfOk result (λ x. x ≡ def.counted kind count seen.now) }
{
    let mut after = seen.copied(alloc)?;
    match kind {
        Kind::S => after.asked.successes = Some(count),
        Kind::F => after.asked.failures = Some(count),
        Kind::U => after.asked.unavailable = Some(count),
    }
    Ok(after)
}

/// The number behind a range.
fn behind(range: Range) -> Result<u32, Stop>
    ensures { IfOk result (λ n. (k : ℕ) → IsIn range k → k < n) }
{
    let greatest = number(range.greatest)?;
    if greatest == u32::MAX {
        return Err(Stop::Unknown);
    }
    Ok(greatest + 1)
}

impl<'a> Around<'a> {
    /// The state after a `tally` gave this number.
    fn tallied(&self, alloc: Global, scope: PlacedScope<'_>, kind: Kind, n: u32) -> Result<(), Stop>
        ensures { OnOk result (led.CountLeads self.now.states.now self.now.own.now
            scope.entry.place scope.entry.seen.now kind n) }
    {
        let after = told(alloc, scope.seen, kind, n)?;
        self.pushes(alloc, scope.place, after, i64::from(n))
    }

    /// The states after a `tally`, which gives a number of a range.
    pub fn tallies(&self, alloc: Global, scope: PlacedScope<'_>, kind: Kind) -> Result<(), Stop>
        ensures { OnOk result (led.TalliesLead self.now.states.now self.now.own.now
            scope.entry.place scope.entry.seen.now kind) }
    {
        let range = tally_range(scope.seen, kind);
        let least = number(range.least)?;
        let behind = behind(range)?;
        let mut missing = Missing::new(alloc);
        for count in least..behind {
            let step = self.tallied(alloc, scope, kind, count);
            missing.note(step)?;
        }
        missing.none()
    }
}
