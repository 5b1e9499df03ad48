//! Whether a state of a task is safe: its next instruction is no misuse.

ghost use Rattle.std.specs.Prelude.{◌≡◌, [], true, OnOk, IfOk, is_none};
ghost use Rattle.ends_faults.specs.Safe as def;
ghost use Rattle.ends_faults.specs.Allowed.{Allows};
ghost use Rattle.laws_runs.specs.Tallies.{is_kind};
ghost use Rattle.sts_code.specs.declared.instr.Instr.TheVariants as instrs;
ghost use Rattle.sts_model.specs.Environment as scoped;
ghost use Rattle.sts_model.specs.Local as locals;

use crate::entries::{binds_after, ends_with_binding, is_full, is_innermost};
use crate::picks::always;
use crate::scopes::{is_readable, joins_wrongly, may_close};
use ends_table::bindings::{bindings, value_of};
use ends_table::places::{PlacedPart, PlacedScope, held_at, known, owned};
use ends_table::stop::Stop;
use laws_calls::table::{Call, Held, Own};
use std::alloc::{AllocError, Global};
use sts_code::{Instr, Joiner, Kind, Program};
use sts_frames::{emptied_slot, instr_at, stays_in_frame};
use sts_model::Bound;
use sts_plain::frame_tests::{breaks_loop, lacks_operands, overflows};

/// The test has to pass.
fn needs(passes: bool) -> Result<(), Stop>
    ensures { OnOk result (passes ≡ true) }
{
    if passes { Ok(()) } else { Err(Stop::Unknown) }
}

fn is_empty(held: Held) -> bool
    ensures { result ≡ def.is_empty held }
{
    matches!(held, Held::Empty)
}

fn is_scope(held: Held) -> bool
    ensures { result ≡ def.is_scope held }
{
    matches!(held, Held::Lent | Held::Own(_))
}

fn is_sub(held: Held) -> bool
    ensures { result ≡ def.is_sub held }
{
    matches!(held, Held::Sub(_, _))
}

/// Is the slot empty that is filled, if one is?
fn is_free(own: &Own, handle: Option<u8>) -> bool
    ensures { result ≡ def.is_free own.now handle }
{
    match handle {
        None => true,
        Some(slot) => is_empty(held_at(own, slot)),
    }
}

/// Does the slot that is emptied hold a subtask? If none is emptied, the answer is yes.
fn holds_subtask(own: &Own, handle: Option<u8>) -> bool
    ensures { result ≡ def.holds_subtask own.now handle }
{
    match handle {
        None => true,
        Some(slot) => is_sub(held_at(own, slot)),
    }
}

/// Is the key not bound?
fn is_unbound(bindings: &[Bound], key: u8) -> bool
    ensures { result ≡ is_none (scoped.read bindings.now key) }
{
    match value_of(bindings, key) {
        Some(_) => false,
        None => true,
    }
}

/// A state of a task, and what its next instruction depends on.
#[derive(Drop)]
pub struct Around<'a> {
    pub program: &'a Program,
    pub call: &'a Call,
    pub own: &'a Own,
}

impl<'a> Around<'a> {
    fn open(&self, slot: u8, joiner: Joiner, timed: bool) -> Result<(), Stop>
        ensures { OnOk result (Allows self.now (instrs.Open slot timed joiner)) }
    {
        needs(is_empty(held_at(self.own, slot)))?;
        needs(!is_full(&self.own.frame))?;
        Ok(())
    }

    fn fork(&self, slot: u8, function: u32, handle: Option<u8>) -> Result<(), Stop>
        ensures { OnOk result (Allows self.now (instrs.Fork slot function handle)) }
    {
        let PlacedScope { place, seen } = owned(self.own, slot)?;
        needs(seen.phase.is_opened())?;
        needs(!binds_after(&self.own.frame, place))?;
        needs(is_free(self.own, handle))?;
        Ok(())
    }

    fn join(
        &self,
        slot: u8,
        failed: Option<u32>,
        timeout: Option<u32>,
        interrupted: u32,
    ) -> Result<(), Stop>
        ensures { OnOk result (Allows self.now (instrs.Join slot failed timeout interrupted)) }
    {
        let PlacedScope { seen, .. } = owned(self.own, slot)?;
        needs(seen.phase.can_join())?;
        needs(!joins_wrongly(&self.own.frame, failed, timeout, seen))?;
        Ok(())
    }

    fn close(&self, slot: u8) -> Result<(), Stop>
        ensures { OnOk result (Allows self.now (instrs.Close slot)) }
    {
        let PlacedScope { place, seen } = owned(self.own, slot)?;
        needs(may_close(seen))?;
        needs(is_innermost(&self.own.frame, place))?;
        Ok(())
    }

    fn cancelled(&self, slot: u8) -> Result<(), Stop>
        ensures { OnOk result (Allows self.now (instrs.Cancelled slot)) }
    {
        needs(is_scope(held_at(self.own, slot)))
    }

    fn case(&self, handle: u8, success: u32, failed: u32) -> Result<(), Stop>
        ensures { OnOk result (Allows self.now (instrs.Case handle success failed)) }
    {
        needs(is_sub(held_at(self.own, handle)))
    }

    /// A `get` or an `except`: the subtask may be read, and is of this kind.
    fn reads(&self, alloc: Global, handle: u8, kind: Kind) -> Result<(), Stop>
        ensures { OnOk result (def.KnowsOne self.now.own.now handle
            (def.CanRead self.now.program.now.profile (is_kind kind))) }
    {
        let PlacedPart { seen, i, part, .. } = known(self.own, handle)?;
        needs(is_readable(self.program.profile(), seen))?;
        always(alloc, seen, i, part, kind)?;
        Ok(())
    }

    fn get(&self, alloc: Global, handle: u8) -> Result<(), Stop>
        ensures { OnOk result (Allows self.now (instrs.Get handle)) }
    {
        self.reads(alloc, handle, Kind::S)
    }

    fn except(&self, alloc: Global, handle: u8) -> Result<(), Stop>
        ensures { OnOk result (Allows self.now (instrs.Except handle)) }
    {
        self.reads(alloc, handle, Kind::F)
    }

    fn tally(&self, slot: u8, kind: Kind) -> Result<(), Stop>
        ensures { OnOk result (Allows self.now (instrs.Tally slot kind)) }
    {
        let PlacedScope { seen, .. } = owned(self.own, slot)?;
        needs(is_readable(self.program.profile(), seen))?;
        Ok(())
    }

    fn total(&self, slot: u8) -> Result<(), Stop>
        ensures { OnOk result (Allows self.now (instrs.Total slot)) }
    {
        let PlacedScope { seen, .. } = owned(self.own, slot)?;
        needs(is_readable(self.program.profile(), seen))?;
        Ok(())
    }

    fn bind(&self, key: u8) -> Result<(), Stop>
        ensures { OnOk result (Allows self.now (instrs.Bind key)) }
    {
        needs(!is_full(&self.own.frame))?;
        Ok(())
    }

    fn unbind(&self) -> Result<(), Stop>
        ensures { OnOk result (Allows self.now instrs.Unbind) }
    {
        needs(ends_with_binding(&self.own.frame))
    }

    fn read(&self, alloc: Global, key: u8) -> Result<(), Stop>
        ensures { OnOk result (Allows self.now (instrs.Read key)) }
    {
        let bindings = bindings(alloc, self.call, self.own)?;
        needs(!is_unbound(bindings.as_slice(), key))?;
        Ok(())
    }

    /// Is no scope open, and nothing bound? So a task ends.
    fn ends(&self) -> Result<(), Stop>
        ensures { OnOk result (self.now.own.now.frame.entries ≡ []) }
    {
        needs(self.own.frame.entries.len() == 0)?;
        Ok(())
    }

    fn ret(&self) -> Result<(), Stop>
        ensures { OnOk result (Allows self.now instrs.Ret) }
    {
        self.ends()
    }

    fn fail(&self) -> Result<(), Stop>
        ensures { OnOk result (Allows self.now instrs.Fail) }
    {
        self.ends()
    }

    /// An instruction on the structure list, on bindings, or at the end.
    fn listed(&self, alloc: Global, instr: Instr) -> Result<(), Stop>
        ensures { OnOk result (Allows self.now instr) }
    {
        match instr {
            Instr::Bind(key) => self.bind(key),
            Instr::Unbind => self.unbind(),
            Instr::Read(key) => self.read(alloc, key),
            Instr::Ret => self.ret(),
            Instr::Fail => self.fail(),
            _ => self.alone(instr),
        }
    }

    /// An instruction that asks for operands, and for a subtask in a slot that it empties.
    fn alone(&self, instr: Instr) -> Result<(), Stop>
        ensures { OnOk result (Allows self.now instr) }
    {
        match instr {
            Instr::Bound(_) | Instr::OrElse(_) | Instr::Interrupted => Ok(()),
            _ => self.local(instr),
        }
    }

    /// An instruction that stays in the frame.
    fn local(&self, instr: Instr) -> Result<(), Stop>
        ensures { OnOk result (Allows self.now instr) }
    {
        if stays_in_frame(instr) {
            self.empties(instr)
        } else {
            Err(Stop::Unknown)
        }
    }

    fn empties(&self, instr: Instr) -> Result<(), Stop>
        requires { locals.stays_in_frame instr ≡ true }
        ensures { OnOk result (Allows self.now instr) }
    {
        needs(holds_subtask(self.own, emptied_slot(instr)))
    }

    /// An instruction on subtasks.
    fn asked(&self, alloc: Global, instr: Instr) -> Result<(), Stop>
        ensures { OnOk result (Allows self.now instr) }
    {
        match instr {
            Instr::Case {
                handle,
                success,
                failed,
            } => self.case(handle, success, failed),
            Instr::Get(handle) => self.get(alloc, handle),
            Instr::Except(handle) => self.except(alloc, handle),
            Instr::Tally(slot, kind) => self.tally(slot, kind),
            Instr::Total(slot) => self.total(slot),
            _ => self.listed(alloc, instr),
        }
    }

    /// What the instruction asks of slots, of scopes, of the structure list and of bindings.
    fn allows(&self, alloc: Global, instr: Instr) -> Result<(), Stop>
        ensures { OnOk result (Allows self.now instr) }
    {
        match instr {
            Instr::Open {
                slot,
                joiner,
                timed,
            } => self.open(slot, joiner, timed),
            Instr::Fork {
                slot,
                function,
                handle,
            } => self.fork(slot, function, handle),
            Instr::Join {
                slot,
                failed,
                timeout,
                interrupted,
            } => self.join(slot, failed, timeout, interrupted),
            Instr::Close(slot) => self.close(slot),
            Instr::Cancelled(slot) => self.cancelled(slot),
            _ => self.asked(alloc, instr),
        }
    }

    /// The state is safe.
    fn check(&self, alloc: Global) -> Result<(), Stop>
        ensures { OnOk result
            (def.IsSafe self.now.program.now self.now.call.now self.now.own.now) }
    {
        let frame = &self.own.frame;
        let Some(instr) = instr_at(self.program, frame) else {
            return Err(Stop::Unknown);
        };
        needs(!lacks_operands(self.program, frame, instr))?;
        needs(!overflows(self.program, frame, instr))?;
        needs(!breaks_loop(self.program, frame, instr))?;
        self.allows(alloc, instr)?;
        Ok(())
    }
}

/// The state is safe.
///
/// # Errors
///
/// The state is not known to be safe, or memory ran out.
pub fn check_safe(alloc: Global, program: &Program, call: &Call, own: &Own) -> Result<(), Stop>
    ensures { OnOk result (def.IsSafe program.now call.now own.now) }
{
    let around = Around { program, call, own };
    around.check(alloc)
}

/// Is the state safe? The answer may be false though it is.
///
/// # Errors
///
/// Memory ran out.
pub fn is_safe(alloc: Global, program: &Program, call: &Call, own: &Own) -> Result<bool, AllocError>
    ensures { IfOk result (λ yes. yes ≡ true → def.IsSafe program.now call.now own.now) }
{
    match check_safe(alloc, program, call, own) {
        Ok(()) => Ok(true),
        Err(Stop::NoMemory(error)) => Err(error),
        Err(_) => Ok(false),
    }
}
