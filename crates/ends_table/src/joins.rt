//! The states after a `join`.

ghost use Rattle.std.specs.Prelude.{◌≡◌, ◌<◌, ℕ, [], false, true, OnOk, length, unwrap_or};
ghost use Rattle.ends_table.specs.Led as led;
ghost use Rattle.laws_calls.specs.Steps as def;
ghost use Rattle.laws_calls.specs.Tasks.{HasWay};
ghost use Rattle.laws_calls.specs.Triggers as triggers;
ghost use Rattle.laws_calls.specs.declared.table.Part.{Part};
ghost use Rattle.sts_code.specs.Facts.{can_fail, is_until};
ghost use Rattle.sts_model.specs.Joining as joining;
ghost use Rattle.sts_model.specs.declared.event.End.{End};

use crate::around::Around;
use crate::frames::answered;
use crate::looks::with_knowledge;
use crate::missing::Missing;
use crate::parts::{after_all, has_open, with_end};
use crate::places::{PlacedPart, number};
use crate::stop::Stop;
use ends_picks::joiners::{
    answer_by, answer_by_none, is_any, is_cancelled, is_heard, is_unseen, may_decide,
};
use laws_calls::joiners::{is_failure, is_trigger};
use laws_calls::table::{Knowledge, Part, Seen};
use std::alloc::Global;
use sts_code::{can_fail, is_until};
use sts_model::{End, Phase, Verdict};
use sts_same::copied::Copied;

/// A place to go to, if one is named.
pub fn target(to: Option<u32>) -> u32
    ensures { result ≡ unwrap_or to 0 }
{
    match to {
        Some(place) => place,
        None => 0,
    }
}

/// Which ends of a part may decide what a `join` answers.
#[derive(Clone, Copy)]
pub enum Deciding {
    /// Those that count towards a cancel.
    Counting,
    /// Failures, if the part may have failed before all others.
    Failing,
}

/// May this end of the part decide?
fn decides(by: Deciding, seen: &Seen, part: &Part, end: End) -> bool
    ensures { result ≡ led.decides by seen.now part.now end }
{
    match by {
        Deciding::Counting => is_trigger(seen.joiner, end),
        Deciding::Failing => part.is_early && is_failure(end),
    }
}

impl<'a> Around<'a> {
    /// The state after a `join` that gives this answer.
    fn joined(
        &self,
        alloc: Global,
        place: u32,
        seen: Seen,
        answer: Verdict,
        failed: u32,
    ) -> Result<(), Stop>
        ensures { OnOk result (def.Leads self.now.states.now
            (def.joined self.now.own.now place seen answer failed)) }
    {
        let mut after = seen;
        after.phase = Phase::Joined;
        let frame = answered(&self.own.frame, answer, failed)?;
        self.leads(alloc, place, after, frame)
    }

    /// The state after an interrupt. It comes while a subtask lives.
    pub fn attempted(&self, alloc: Global, place: u32, seen: &Seen, to: u32) -> Result<(), Stop>
        ensures { OnOk result (led.AttemptLeads self.now.states.now self.now.own.now place
            seen.now to) }
    {
        if !is_unseen(seen.knowledge) || !has_open(&seen.parts) {
            return Ok(());
        }
        let mut after = seen.copied(alloc)?;
        after.phase = Phase::Attempted;
        self.goes(alloc, place, after, to)
    }

    /// The state after a timeout.
    fn timed_out(&self, alloc: Global, place: u32, seen: &Seen, timeout: u32) -> Result<(), Stop>
        ensures { OnOk result (def.is_heard seen.now.knowledge ≡ false
            → seen.now.timed ≡ true → def.Leads self.now.states.now
            (def.timed_out self.now.own.now place seen.now timeout)) }
    {
        if is_heard(seen.knowledge) || !seen.timed {
            return Ok(());
        }
        let mut after = with_knowledge(alloc, seen, Knowledge::Late)?;
        after.phase = Phase::Joined;
        self.goes(alloc, place, after, timeout)
    }

    /// The state after one end of a part decided. The scope is as it is apart from that.
    fn decided(
        &self,
        alloc: Global,
        known: PlacedPart<'_>,
        end: End,
        failed: u32,
    ) -> Result<(), Stop>
        requires { known.i < length known.seen.now.parts }
        ensures { OnOk result (led.DecidedLeads self.now.states.now self.now.own.now
            known.entry.place known.entry.seen.now failed known.entry.i known.entry.part.now end) }
    {
        let count = number(known.seen.parts.len())?;
        let answer = answer_by(known.seen.joiner, end, count);
        let after = with_end(alloc, known, end)?;
        self.joined(alloc, known.place, after, answer, failed)
    }

    /// The same, if this end may decide.
    fn by_end(
        &self,
        alloc: Global,
        known: PlacedPart<'_>,
        by: Deciding,
        end: End,
        failed: u32,
    ) -> Result<(), Stop>
        requires { known.i < length known.seen.now.parts }
        ensures { OnOk result (led.decides by known.entry.seen.now known.entry.part.now end ≡ true
            → led.DecidedLeads self.now.states.now self.now.own.now known.entry.place
            known.entry.seen.now failed known.entry.i known.entry.part.now end) }
    {
        if !decides(by, known.seen, known.part, end) {
            return Ok(());
        }
        self.decided(alloc, known, end, failed)
    }

    /// The states after one of the ends of this part decided.
    fn by_ends_of(
        &self,
        alloc: Global,
        known: PlacedPart<'_>,
        by: Deciding,
        failed: u32,
    ) -> Result<(), Stop>
        requires { known.i < length known.seen.now.parts }
        ensures { OnOk result ((e : End) → HasWay known.entry.part.now.ways e
            → led.decides by known.entry.seen.now known.entry.part.now e ≡ true
            → led.DecidedLeads self.now.states.now self.now.own.now known.entry.place
            known.entry.seen.now failed known.entry.i known.entry.part.now e) }
    {
        let mut missing = Missing::new(alloc);
        for way in known.part.ways.as_slice() {
            let step = self.by_end(alloc, known, by, way.end, failed);
            missing.note(step)?;
        }
        missing.none()
    }

    /// The states after one end of a part decided.
    fn by_each(
        &self,
        alloc: Global,
        place: u32,
        seen: &Seen,
        by: Deciding,
        failed: u32,
    ) -> Result<(), Stop>
        ensures { OnOk result ((i : ℕ) → (part : Part) → (e : End)
            → def.MayEnd seen.now i part e
            → led.decides by seen.now part e ≡ true
            → led.DecidedLeads self.now.states.now self.now.own.now place
            seen.now failed i part e) }
    {
        let parts = &seen.parts;
        let count = number(parts.len())?;
        let mut missing = Missing::new(alloc);
        for i in 0..count {
            let known = PlacedPart {
                place,
                seen,
                i,
                part: parts.at(i as usize),
            };
            let step = self.by_ends_of(alloc, known, by, failed);
            missing.note(step)?;
        }
        missing.none()
    }

    fn by_one(&self, alloc: Global, place: u32, seen: &Seen, failed: u32) -> Result<(), Stop>
        ensures { OnOk result (def.may_decide seen.now.knowledge ≡ true
            → can_fail seen.now.joiner ≡ true → (i : ℕ) → (part : Part) → (e : End)
            → def.MayEnd seen.now i part e
            → triggers.is_trigger seen.now.joiner e ≡ true
            → led.OneLeads self.now.states.now self.now.own.now place
            seen.now failed i part e) }
    {
        if !may_decide(seen.knowledge) || !can_fail(seen.joiner) {
            return Ok(());
        }
        let after = with_knowledge(alloc, seen, Knowledge::ByJoiner)?;
        self.by_each(alloc, place, &after, Deciding::Counting, failed)
    }

    /// The states after all parts failed, one of them first.
    fn none(&self, alloc: Global, place: u32, seen: &Seen, failed: u32) -> Result<(), Stop>
        ensures { OnOk result (def.is_cancelled seen.now.knowledge ≡ false
            → def.is_any seen.now.joiner ≡ true → (i : ℕ) → (part : Part) → (e : End)
            → def.MayEnd seen.now i part e → joining.is_failure e ≡ true
            → part.is_early ≡ true → led.FirstLeads self.now.states.now self.now.own.now
            place seen.now failed i part e) }
    {
        if is_cancelled(seen.knowledge) || !is_any(seen.joiner) {
            return Ok(());
        }
        let after = after_all(alloc, seen)?;
        self.by_each(alloc, place, &after, Deciding::Failing, failed)
    }

    /// The state after no single end decided. The scope is as it is apart from that.
    fn by_none(&self, alloc: Global, place: u32, seen: Seen, failed: u32) -> Result<(), Stop>
        ensures { OnOk result (def.Leads self.now.states.now
            (def.joined self.now.own.now place seen
            (joining.result_of seen.joiner [] (length seen.parts)) failed)) }
    {
        let count = number(seen.parts.len())?;
        let answer = answer_by_none(seen.joiner, count);
        self.joined(alloc, place, seen, answer, failed)
    }

    fn by_count(&self, alloc: Global, place: u32, seen: &Seen, failed: u32) -> Result<(), Stop>
        ensures { OnOk result (def.may_decide seen.now.knowledge ≡ true
            → is_until seen.now.joiner ≡ true
            → def.Leads self.now.states.now (def.joined self.now.own.now place
            (def.after_cancel seen.now) (joining.result_of seen.now.joiner []
            (length seen.now.parts)) failed)) }
    {
        if !may_decide(seen.knowledge) || !is_until(seen.joiner) {
            return Ok(());
        }
        let after = with_knowledge(alloc, seen, Knowledge::ByJoiner)?;
        self.by_none(alloc, place, after, failed)
    }

    fn heard(&self, alloc: Global, place: u32, seen: &Seen, failed: u32) -> Result<(), Stop>
        ensures { OnOk result (def.is_cancelled seen.now.knowledge ≡ false
            → (def.is_any seen.now.joiner ≡ true → seen.now.parts ≡ [])
            → def.Leads self.now.states.now (def.joined self.now.own.now place
            (def.after_all seen.now) (joining.result_of seen.now.joiner []
            (length seen.now.parts)) failed)) }
    {
        let has_parts = !seen.parts.is_empty();
        if is_cancelled(seen.knowledge) || (is_any(seen.joiner) && has_parts) {
            return Ok(());
        }
        let after = after_all(alloc, seen)?;
        self.by_none(alloc, place, after, failed)
    }

    /// The states after a `join`.
    pub fn joins(
        &self,
        alloc: Global,
        place: u32,
        seen: &Seen,
        failed: u32,
        timeout: u32,
    ) -> Result<(), Stop>
        ensures { OnOk result (led.JoinsLead self.now.states.now self.now.own.now place
            seen.now failed timeout) }
    {
        self.timed_out(alloc, place, seen, timeout)?;
        self.by_one(alloc, place, seen, failed)?;
        self.by_count(alloc, place, seen, failed)?;
        self.heard(alloc, place, seen, failed)?;
        self.none(alloc, place, seen, failed)?;
        Ok(())
    }
}
