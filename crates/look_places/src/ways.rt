//! The notes on two ways that meet with different typestates.

ghost use Rattle.std.specs.Prelude.{◌≡◌, ◌++◌, OnOk};
ghost use Rattle.sts_rules.specs.Refusal.{IsRefusal};
ghost use Rattle.look_places.specs.Reports as def;

use crate::marks::Source;
use look_names::Said;
use look_refusal::ways::{Meeting, WayOrigin, find_meeting};
use std::alloc::Global;
use sts_code::Program;
use sts_output::Refusal;
use sts_rules::Cause;

impl Source<'_, '_> {
    /// The place that a way comes from.
    fn say_way(&self, alloc: Global, out: &mut Vec<u8>, function: u32, origin: WayOrigin) -> Said
        ensures { OnOk result (out.new.items
            ≡ out.old.items ++ def.way_note self.now function origin) }
    {
        match origin {
            WayOrigin::Beginning => Ok(()),
            WayOrigin::Edge(pc, _) => {
                let line = self.line_of(function, pc);
                self.say_note(alloc, out, line, b"one way comes from here")
            }
            WayOrigin::Turn(pc) => {
                let line = self.line_of(function, pc);
                self.say_note(alloc, out, line, b"one way is the turn that ends here")
            }
        }
    }

    fn say_meeting(
        &self,
        alloc: Global,
        out: &mut Vec<u8>,
        function: u32,
        meeting: &Meeting,
    ) -> Said
        ensures { OnOk result (out.new.items
            ≡ out.old.items ++ def.meeting_notes self.now function meeting.now) }
    {
        self.say_way(alloc, out, function, meeting.one.origin)?;
        self.say_way(alloc, out, function, meeting.other.origin)
    }

    fn say_met(
        &self,
        alloc: Global,
        out: &mut Vec<u8>,
        program: &Program,
        function: u32,
        pc: u32,
    ) -> Said
        requires { IsRefusal program.now function pc Cause.StatesDiffer }
        ensures { OnOk result (def.AddsWays self.now program.now function pc Cause.StatesDiffer
            out.old.items out.new.items) }
    {
        match find_meeting(alloc, program, function, pc)? {
            None => Ok(()),
            Some(meeting) => self.say_meeting(alloc, out, function, &meeting),
        }
    }

    /// Appends the notes on two ways that meet, if that is the cause of a refusal.
    ///
    /// # Errors
    ///
    /// Memory ran out; `out` may then have a part of them.
    pub(crate) fn say_ways(&self, alloc: Global, out: &mut Vec<u8>, refusal: &Refusal) -> Said
        requires { IsRefusal refusal.now.program refusal.now.function refusal.now.pc
            refusal.now.cause }
        ensures { OnOk result (def.AddsWays self.now refusal.now.program refusal.now.function
            refusal.now.pc refusal.now.cause out.old.items out.new.items) }
    {
        match refusal.cause {
            Cause::StatesDiffer => {
                self.say_met(alloc, out, &refusal.program, refusal.function, refusal.pc)
            }
            _ => Ok(()),
        }
    }
}
