//! The states after each instruction.

ghost use Rattle.std.specs.Prelude.{◌≡◌, IfOk, OnOk, true};
ghost use Rattle.ends_table.specs.Led as led;
ghost use Rattle.laws_calls.specs.Outside.{may_flag};
ghost use Rattle.laws_calls.specs.Steps as def;
ghost use Rattle.laws_calls.specs.Tasks as tasks;
ghost use Rattle.laws_calls.specs.declared.table.Held.TheVariants as held;
ghost use Rattle.sts_code.specs.declared.instr.Instr.TheVariants as instrs;
ghost use Rattle.sts_model.specs.Local as locals;

use crate::around::Around;
use crate::bindings::{after_bound, after_or_else, after_read, bound};
use crate::frames::{after_local, left};
use crate::joins::target;
use crate::places::{held_at, known, owned, set_held, with_frame};
use crate::reached::{leads, leads_after};
use crate::scopes::{closed, opened};
use crate::stop::Stop;
use laws_calls::table::{Held, Own, Seen};
use std::alloc::Global;
use sts_code::{Instr, Joiner, Kind, Program};
use sts_frames::{emptied_slot, stays_in_frame};
use sts_model::Frame;

/// Empties a slot, if one is given.
fn empties(slots: &mut [Held; 16], handle: Option<u8>)
    ensures { slots.new ≡ def.with_handle slots.old handle held.Empty }
{
    if let Some(slot) = handle {
        set_held(slots, slot, Held::Empty);
    }
}

/// The state after an instruction that stays in the frame.
fn after_alone(alloc: Global, program: &Program, own: &Own, instr: Instr) -> Result<Own, Stop>
    ensures { IfOk result (λ o. o ≡ def.alone program.now own.now instr) }
{
    let frame = after_local(&own.frame, program, instr)?;
    let mut next = with_frame(alloc, own, frame)?;
    empties(&mut next.held, emptied_slot(instr));
    Ok(next)
}

impl<'a> Around<'a> {
    fn local(&self, alloc: Global, instr: Instr) -> Result<(), Stop>
        requires { locals.stays_in_frame instr ≡ true }
        ensures { OnOk result (led.LeadsOn self.now instr) }
    {
        let next = after_alone(alloc, self.program, self.own, instr)?;
        leads(self.states, next)
    }

    fn interrupted(&self, alloc: Global) -> Result<(), Stop>
        ensures { OnOk result (led.LeadsOn self.now instrs.Interrupted) }
    {
        self.answers_by(alloc, self.outside.may_flag())
    }

    fn open(&self, alloc: Global, slot: u8, joiner: Joiner, timed: bool) -> Result<(), Stop>
        ensures { OnOk result (led.LeadsOn self.now (instrs.Open slot timed joiner)) }
    {
        let next = opened(alloc, self.call, self.own, slot, joiner, timed)?;
        leads_after(self.states, next, self.outside.per_birth())
    }

    fn close(&self, alloc: Global, slot: u8) -> Result<(), Stop>
        ensures { OnOk result (led.LeadsOn self.now (instrs.Close slot)) }
    {
        let next = closed(alloc, self.own)?;
        leads(self.states, next)
    }

    fn cancelled_own(&self, alloc: Global, slot: u8) -> Result<(), Stop>
        ensures { OnOk result (led.LeadsOn self.now (instrs.Cancelled slot)) }
    {
        let scope = owned(self.own, slot)?;
        self.looks(alloc, scope.place, scope.seen)
    }

    fn cancelled_lent(&self, alloc: Global, slot: u8) -> Result<(), Stop>
        requires { tasks.held_at self.now.own.now slot ≡ held.Lent }
        ensures { OnOk result (led.LeadsOn self.now (instrs.Cancelled slot)) }
    {
        self.answers_by(alloc, self.outside.cancels)
    }

    fn cancelled(&self, alloc: Global, slot: u8) -> Result<(), Stop>
        ensures { OnOk result (led.LeadsOn self.now (instrs.Cancelled slot)) }
    {
        match held_at(self.own, slot) {
            Held::Lent => self.cancelled_lent(alloc, slot),
            _ => self.cancelled_own(alloc, slot),
        }
    }

    /// The state after a `join` that is interrupted, if the flag may be set.
    fn attempt(&self, alloc: Global, place: u32, seen: &Seen, to: u32) -> Result<(), Stop>
        ensures { OnOk result (may_flag self.now.outside ≡ true
            → led.AttemptLeads self.now.states.now self.now.own.now place seen.now to) }
    {
        if !self.outside.may_flag() {
            return Ok(());
        }
        self.attempted(alloc, place, seen, to)
    }

    fn join(
        &self,
        alloc: Global,
        slot: u8,
        failed: Option<u32>,
        timeout: Option<u32>,
        interrupted: u32,
    ) -> Result<(), Stop>
        ensures { OnOk result (led.LeadsOn self.now (instrs.Join slot failed timeout interrupted)) }
    {
        let scope = owned(self.own, slot)?;
        self.attempt(alloc, scope.place, scope.seen, interrupted)?;
        let failed = target(failed);
        let timeout = target(timeout);
        self.joins(alloc, scope.place, scope.seen, failed, timeout)
    }

    fn case(&self, alloc: Global, handle: u8, success: u32, failed: u32) -> Result<(), Stop>
        ensures { OnOk result (led.LeadsOn self.now (instrs.Case handle success failed)) }
    {
        let subtask = known(self.own, handle)?;
        self.cases(alloc, subtask, success, failed)
    }

    /// A `get`, or an `except`.
    fn read(&self, alloc: Global, handle: u8, succeeds: bool) -> Result<(), Stop>
        ensures { OnOk result (led.LeadsOn self.now (led.read_of succeeds handle)) }
    {
        let subtask = known(self.own, handle)?;
        self.reads(alloc, subtask, succeeds)
    }

    fn tally(&self, alloc: Global, slot: u8, kind: Kind) -> Result<(), Stop>
        ensures { OnOk result (led.LeadsOn self.now (instrs.Tally slot kind)) }
    {
        let scope = owned(self.own, slot)?;
        self.tallies(alloc, scope, kind)
    }

    fn total(&self, alloc: Global, slot: u8) -> Result<(), Stop>
        ensures { OnOk result (led.LeadsOn self.now (instrs.Total slot)) }
    {
        let scope = owned(self.own, slot)?;
        self.totals(alloc, scope)
    }

    /// The frame after an instruction that reads or changes the scoped values.
    fn after_scoped(&self, alloc: Global, instr: Instr) -> Result<Frame, Stop>
        ensures { IfOk result (λ f. def.Leads self.now.states.now (def.to self.now.own.now f)
            → led.LeadsOn self.now instr) }
    {
        match instr {
            Instr::Read(key) => after_read(alloc, self.call, self.own, key),
            Instr::Bound(key) => after_bound(alloc, self.call, self.own, key),
            Instr::OrElse(key) => after_or_else(alloc, self.call, self.own, key),
            Instr::Bind(key) => bound(&self.own.frame, key),
            Instr::Unbind => left(&self.own.frame),
            _ => Err(Stop::Unknown),
        }
    }

    /// An instruction that reads or changes the scoped values.
    fn scoped(&self, alloc: Global, instr: Instr) -> Result<(), Stop>
        ensures { OnOk result (led.LeadsOn self.now instr) }
    {
        let frame = self.after_scoped(alloc, instr)?;
        self.leads_by(alloc, frame)
    }

    /// An instruction about subtasks.
    fn asked(&self, alloc: Global, instr: Instr) -> Result<(), Stop>
        ensures { OnOk result (led.LeadsOn self.now instr) }
    {
        match instr {
            Instr::Case {
                handle,
                success,
                failed,
            } => self.case(alloc, handle, success, failed),
            Instr::Get(handle) => self.read(alloc, handle, true),
            Instr::Except(handle) => self.read(alloc, handle, false),
            Instr::Tally(slot, kind) => self.tally(alloc, slot, kind),
            Instr::Total(slot) => self.total(alloc, slot),
            _ => self.scoped(alloc, instr),
        }
    }

    /// An instruction about scopes.
    fn other(&self, alloc: Global, instr: Instr) -> Result<(), Stop>
        ensures { OnOk result (led.LeadsOn self.now instr) }
    {
        match instr {
            Instr::Open {
                slot,
                joiner,
                timed,
            } => self.open(alloc, slot, joiner, timed),
            Instr::Fork {
                slot,
                function,
                handle,
            } => self.fork(alloc, slot, function, handle),
            Instr::Join {
                slot,
                failed,
                timeout,
                interrupted,
            } => self.join(alloc, slot, failed, timeout, interrupted),
            Instr::Close(slot) => self.close(alloc, slot),
            Instr::Cancelled(slot) => self.cancelled(alloc, slot),
            Instr::Interrupted => self.interrupted(alloc),
            Instr::Ret => Ok(()),
            Instr::Fail => Ok(()),
            _ => self.asked(alloc, instr),
        }
    }

    /// Does each step by the instruction lead to one of the states, or to one that isn't possible?
    pub fn steps(&self, alloc: Global, instr: Instr) -> Result<(), Stop>
        ensures { OnOk result (led.LeadsOn self.now instr) }
    {
        if stays_in_frame(instr) {
            self.local(alloc, instr)
        } else {
            self.other(alloc, instr)
        }
    }
}
