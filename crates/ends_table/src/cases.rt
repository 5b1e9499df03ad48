//! The states after `case`, `get` and `except`.

ghost use Rattle.std.specs.Prelude.{◌≡◌, ◌<◌, Bool, OnOk, length};
ghost use Rattle.ends_table.specs.Led as led;

use crate::around::Around;
use crate::frames::next_place;
use crate::missing::Missing;
use crate::parts::{EndKind, is_of_kind, told, with_end, with_missed};
use crate::places::PlacedPart;
use crate::stop::Stop;
use std::alloc::Global;
use sts_model::End;

/// The value of a success, or the code of a failure.
fn value_in(end: End) -> i64
    ensures { result ≡ led.value_in end }
{
    match end {
        End::Success(value) => value,
        End::Failed(code) => code,
    }
}

impl<'a> Around<'a> {
    /// The state after a `case` that saw an end of this kind.
    fn case_by(
        &self,
        alloc: Global,
        known: PlacedPart<'_>,
        kind: EndKind,
        to: u32,
    ) -> Result<(), Stop>
        requires { known.i < length known.seen.now.parts }
        ensures { OnOk result (led.KindLeads self.now.states.now self.now.own.now
            known.entry.place known.entry.seen.now known.entry.i known.entry.part.now
            kind.succeeds kind.counting to) }
    {
        let after = told(alloc, known, kind)?;
        self.goes(alloc, known.place, after, to)
    }

    /// The state after a `case` of a part that had not ended.
    fn case_missed(&self, alloc: Global, known: PlacedPart<'_>) -> Result<(), Stop>
        requires { known.i < length known.seen.now.parts }
        ensures { OnOk result (led.MissedLeads self.now.states.now self.now.own.now
            known.entry.place known.entry.seen.now known.entry.i known.entry.part.now) }
    {
        if !known.part.is_open {
            return Ok(());
        }
        let to = next_place(&self.own.frame)?;
        let after = with_missed(alloc, known)?;
        self.goes(alloc, known.place, after, to)
    }

    /// The states after a `case` that saw a success, or else a failure.
    fn case_of(
        &self,
        alloc: Global,
        known: PlacedPart<'_>,
        succeeds: bool,
        to: u32,
    ) -> Result<(), Stop>
        requires { known.i < length known.seen.now.parts }
        ensures { OnOk result ((counting : Bool) → led.KindLeads self.now.states.now
            self.now.own.now known.entry.place known.entry.seen.now known.entry.i
            known.entry.part.now succeeds counting to) }
    {
        let counting = EndKind {
            succeeds,
            counting: true,
        };
        self.case_by(alloc, known, counting, to)?;
        let other = EndKind {
            succeeds,
            counting: false,
        };
        self.case_by(alloc, known, other, to)?;
        Ok(())
    }

    /// The states after a `case`, which goes to one place after a success, and to the other after a
    /// failure.
    pub fn cases(
        &self,
        alloc: Global,
        known: PlacedPart<'_>,
        good: u32,
        bad: u32,
    ) -> Result<(), Stop>
        requires { known.i < length known.seen.now.parts }
        ensures { OnOk result (led.CasesLead self.now.states.now self.now.own.now
            known.entry.place known.entry.seen.now known.entry.i known.entry.part.now good bad) }
    {
        self.case_of(alloc, known, true, good)?;
        self.case_of(alloc, known, false, bad)?;
        self.case_missed(alloc, known)?;
        Ok(())
    }

    /// The state after this end of a part was read, if it is of this kind.
    fn read_by(
        &self,
        alloc: Global,
        known: PlacedPart<'_>,
        succeeds: bool,
        end: End,
    ) -> Result<(), Stop>
        requires { known.i < length known.seen.now.parts }
        ensures { OnOk result (led.EndLeads self.now.states.now self.now.own.now
            known.entry.place known.entry.seen.now known.entry.i known.entry.part.now succeeds
            end) }
    {
        if !is_of_kind(succeeds, end) {
            return Ok(());
        }
        let after = with_end(alloc, known, end)?;
        self.pushes(alloc, known.place, after, value_in(end))
    }

    /// The states after the value of a success, or the code of a failure, was read.
    pub fn reads(&self, alloc: Global, known: PlacedPart<'_>, succeeds: bool) -> Result<(), Stop>
        requires { known.i < length known.seen.now.parts }
        ensures { OnOk result (led.ReadsLead self.now.states.now self.now.own.now
            known.entry.place known.entry.seen.now known.entry.i known.entry.part.now succeeds) }
    {
        let mut missing = Missing::new(alloc);
        for way in known.part.ways.as_slice() {
            let step = self.read_by(alloc, known, succeeds, way.end);
            missing.note(step)?;
        }
        missing.none()
    }
}
