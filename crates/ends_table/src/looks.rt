//! The states after `cancelled`.

ghost use Rattle.std.specs.Prelude.{◌≡◌, false, true, OnOk, IfOk};
ghost use Rattle.ends_table.specs.Led as led;
ghost use Rattle.laws_calls.specs.Steps as def;
ghost use Rattle.sts_model.specs.Local.{truth};

use crate::around::Around;
use crate::frames::pushed;
use crate::stop::Stop;
use ends_picks::joiners::{is_cancelled, may_be_late, may_decide};
use laws_calls::table::{Knowledge, Seen};
use std::alloc::{AllocError, Global};
use sts_same::copied::Copied;

/// The scope, of whose cancel something else is known.
pub fn with_knowledge(alloc: Global, seen: &Seen, knowledge: Knowledge) -> Result<Seen, AllocError>
    ensures { IfOk result (λ x. x ≡ record seen.now { knowledge = knowledge }) }
{
    let mut after = seen.copied(alloc)?;
    after.knowledge = knowledge;
    Ok(after)
}

impl<'a> Around<'a> {
    /// It pushes 1 or 0.
    fn answers(&self, alloc: Global, yes: bool) -> Result<(), Stop>
        ensures { OnOk result
            (def.Leads self.now.states.now (def.pushes self.now.own.now 0 (truth yes))) }
    {
        let frame = pushed(&self.own.frame, 0, i64::from(yes))?;
        self.leads_by(alloc, frame)
    }

    /// It pushes 0, or else 1, if what it asks for may come from outside.
    pub fn answers_by(&self, alloc: Global, may: bool) -> Result<(), Stop>
        ensures { OnOk result (led.AnswersLead self.now.states.now self.now.own.now may) }
    {
        self.answers(alloc, false)?;
        if !may {
            return Ok(());
        }
        self.answers(alloc, true)
    }

    /// It pushes 1, and the owner knows why.
    fn cancelled_by(
        &self,
        alloc: Global,
        place: u32,
        seen: &Seen,
        knowledge: Knowledge,
    ) -> Result<(), Stop>
        ensures { OnOk result (def.Leads self.now.states.now (def.pushes
            (def.with_seen self.now.own.now place
            (record seen.now { knowledge = knowledge })) 0 (truth true))) }
    {
        let after = with_knowledge(alloc, seen, knowledge)?;
        self.pushes(alloc, place, after, 1)
    }

    fn going(&self, alloc: Global, seen: &Seen) -> Result<(), Stop>
        ensures { OnOk result (def.is_cancelled seen.now.knowledge ≡ false
            → def.Leads self.now.states.now (def.pushes self.now.own.now 0 (truth false))) }
    {
        if is_cancelled(seen.knowledge) {
            return Ok(());
        }
        self.answers(alloc, false)
    }

    fn by_joiner(&self, alloc: Global, place: u32, seen: &Seen) -> Result<(), Stop>
        ensures { OnOk result (def.may_decide seen.now.knowledge ≡ true
            → def.Leads self.now.states.now (def.pushes (def.with_seen self.now.own.now
            place (def.after_cancel seen.now)) 0 (truth true))) }
    {
        if !may_decide(seen.knowledge) {
            return Ok(());
        }
        self.cancelled_by(alloc, place, seen, Knowledge::ByJoiner)
    }

    fn expired(&self, alloc: Global, place: u32, seen: &Seen) -> Result<(), Stop>
        ensures { OnOk result (def.may_be_late seen.now.knowledge ≡ true
            → seen.now.timed ≡ true
            → def.Leads self.now.states.now (def.pushes (def.with_seen self.now.own.now
            place (def.after_expiry seen.now)) 0 (truth true))) }
    {
        if !may_be_late(seen.knowledge) || !seen.timed {
            return Ok(());
        }
        self.cancelled_by(alloc, place, seen, Knowledge::Late)
    }

    /// The states after `cancelled`.
    pub fn looks(&self, alloc: Global, place: u32, seen: &Seen) -> Result<(), Stop>
        ensures { OnOk result
            (led.LooksLead self.now.states.now self.now.own.now place seen.now) }
    {
        self.going(alloc, seen)?;
        self.by_joiner(alloc, place, seen)?;
        self.expired(alloc, place, seen)?;
        Ok(())
    }
}
