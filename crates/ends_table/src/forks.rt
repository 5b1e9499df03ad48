//! The states after `fork`.

ghost use Rattle.std.specs.Prelude.{◌≡◌, ◌+◌, [], ◌∷◌, ◌++◌, IfOk, OnOk, reverse, take};
ghost use Rattle.ends_table.specs.Led as led;
ghost use Rattle.laws_calls.specs.Outside.{per_birth};
ghost use Rattle.laws_calls.specs.Steps as def;
ghost use Rattle.sts_code.specs.Program.{routine};
ghost use Rattle.sts_code.specs.declared.instr.Instr.TheVariants as instrs;

use crate::around::Around;
use crate::frames::stepped;
use crate::places::{PlacedScope, number, owned, set_held, with_parts, with_scope};
use crate::reached::leads_after;
use crate::rows::row_for;
use crate::stop::Stop;
use ends_picks::joiners::is_cancelled;
use laws_calls::shared::Shared;
use laws_calls::table::{Call, Held, Outside, Own, Part, Row, Seen, Way};
use std::alloc::{AllocError, Global};
use sts_code::{Instr, Program, args};
use sts_model::Items;
use sts_same::copied::copy_items;

/// A `fork` in a scope: the new task's function, and the slot of its handle.
#[derive(Clone, Copy)]
struct Forking<'a> {
    scope: PlacedScope<'a>,
    function: u32,
    handle: Option<u8>,
}

/// Numbers as a list that grows.
fn listed(alloc: Global, values: &[i64]) -> Result<Items<i64>, AllocError>
    ensures { IfOk result (λ xs. xs ≡ values.now) }
{
    let mut list = Items::new(alloc);
    for value in values {
        list.push(*value)?;
    }
    Ok(list)
}

/// The arguments, the one that was pushed last at the end.
fn arguments(alloc: Global, program: &Program, own: &Own, function: u32) -> Result<Items<i64>, Stop>
    ensures { IfOk result (λ xs. xs
        ≡ reverse (take (routine program.now function).args own.now.frame.operands)) }
{
    let count = args(program, function) as usize;
    let operands = own.frame.operands.as_slice();
    if operands.len() < count {
        return Err(Stop::Unknown);
    }
    Ok(listed(alloc, &operands[operands.len() - count..])?)
}

/// The call of a subtask.
fn call_of(
    alloc: Global,
    program: &Program,
    own: &Own,
    seen: &Seen,
    function: u32,
) -> Result<Call, Stop>
    ensures { IfOk result (λ call. call ≡ def.call_of program.now own.now seen.now function) }
{
    Ok(Call {
        function,
        args: arguments(alloc, program, own, function)?,
        environment: copy_items(alloc, &seen.environment)?,
    })
}

/// The slots, with a handle if there is one.
fn with_handle(slots: &[Held; 16], handle: Option<u8>, held: Held) -> [Held; 16]
    ensures { result ≡ def.with_handle slots.now handle held }
{
    let mut after = *slots;
    if let Some(slot) = handle {
        set_held(&mut after, slot, held);
    }
    after
}

/// The scope with a new part, which has these ways.
fn with_new_part(alloc: Global, seen: &Seen, ways: &Shared<Way>) -> Result<Seen, AllocError>
    ensures { IfOk result (λ x. x ≡ record seen.now {
      parts = seen.now.parts ++ def.new_part ways.now seen.now ∷ [];
    }) }
{
    let part = Part {
        ways: ways.share()?,
        is_open: true,
        is_early: !seen.has_failure,
    };
    let parts = seen.parts.pushed(alloc, part)?;
    with_parts(alloc, seen, parts)
}

/// The births by a `fork`: the new task, and all that may be born of it.
fn born_with(outside: Outside, row: &Row) -> Result<u32, Stop>
    ensures { IfOk result (λ n. n ≡ per_birth outside + row.now.births) }
{
    let one = outside.per_birth();
    if row.births > u32::MAX - one {
        return Err(Stop::Unknown);
    }
    Ok(one + row.births)
}

fn no_ways(alloc: Global) -> Result<Shared<Way>, AllocError>
    ensures { IfOk result (λ ways. ways ≡ []) }
{
    Shared::new(alloc, Items::new(alloc))
}

impl<'a> Around<'a> {
    /// The row of the call of a new task in a scope.
    fn row_of_task(&self, alloc: Global, seen: &Seen, function: u32) -> Result<&'a Row, Stop>
        ensures { IfOk result (λ row. def.IsRowOf self.now.table.now row.now
            (def.call_of self.now.program.now self.now.own.now seen.now function)) }
    {
        let call = call_of(alloc, self.program, self.own, seen, function)?;
        match row_for(alloc, self.table, self.places, &call)? {
            Some(row) => Ok(row),
            None => Err(Stop::Call(call)),
        }
    }

    /// The state after a `fork`. The new part has these ways.
    fn forked(&self, alloc: Global, by: Forking<'_>, ways: &Shared<Way>) -> Result<Own, Stop>
        ensures { IfOk result (λ o. o ≡ def.forked self.now.program.now self.now.own.now
            by.entry.scope.place by.entry.scope.seen.now ways.now by.entry.function
            by.entry.handle) }
    {
        let count = number(by.scope.seen.parts.len())?;
        let frame = stepped(&self.own.frame, args(self.program, by.function) as usize)?;
        let after = with_new_part(alloc, by.scope.seen, ways)?;
        let mut next = with_scope(alloc, self.own, by.scope.place, after, frame)?;
        next.held = with_handle(&self.own.held, by.handle, Held::Sub(by.scope.place, count));
        Ok(next)
    }

    /// If that state may be possible, it is among the states after these births, or the error has
    /// it.
    fn leads_forked(
        &self,
        alloc: Global,
        by: Forking<'_>,
        ways: &Shared<Way>,
        born: u32,
    ) -> Result<(), Stop>
        ensures { OnOk result (def.LeadsBy born self.now.states.now (def.forked
            self.now.program.now self.now.own.now by.entry.scope.place by.entry.scope.seen.now
            ways.now by.entry.function by.entry.handle)) }
    {
        let next = self.forked(alloc, by, ways)?;
        leads_after(self.states, next, born)
    }

    /// The row of the new task's call, and the state after the `fork`.
    fn started(&self, alloc: Global, by: Forking<'_>) -> Result<(), Stop>
        ensures { OnOk result (led.Starts self.now by.entry.scope.place by.entry.scope.seen.now
            by.entry.function by.entry.handle) }
    {
        let row = self.row_of_task(alloc, by.scope.seen, by.function)?;
        let born = born_with(self.outside, row)?;
        self.leads_forked(alloc, by, &row.ways, born)
    }

    /// The state after a `fork` in a scope that is known to be cancelled.
    fn unstarted(&self, alloc: Global, by: Forking<'_>) -> Result<(), Stop>
        ensures { OnOk result (def.LeadsBy (per_birth self.now.outside) self.now.states.now
            (def.forked self.now.program.now self.now.own.now by.entry.scope.place
            by.entry.scope.seen.now [] by.entry.function by.entry.handle)) }
    {
        let none = no_ways(alloc)?;
        let born = self.outside.per_birth();
        self.leads_forked(alloc, by, &none, born)
    }

    /// The state after a `fork` in a scope that is known to be cancelled.
    pub fn fork(
        &self,
        alloc: Global,
        slot: u8,
        function: u32,
        handle: Option<u8>,
    ) -> Result<(), Stop>
        ensures { OnOk result (led.LeadsOn self.now (instrs.Fork slot function handle)) }
    {
        let scope = owned(self.own, slot)?;
        if !is_cancelled(scope.seen.knowledge) {
            return Ok(());
        }
        let by = Forking {
            scope,
            function,
            handle,
        };
        self.unstarted(alloc, by)
    }

    /// The state after a `fork` in another scope.
    fn start(&self, alloc: Global, slot: u8, function: u32, handle: Option<u8>) -> Result<(), Stop>
        ensures { OnOk result (led.StartsOn self.now (instrs.Fork slot function handle)) }
    {
        let scope = owned(self.own, slot)?;
        if is_cancelled(scope.seen.knowledge) {
            return Ok(());
        }
        let by = Forking {
            scope,
            function,
            handle,
        };
        self.started(alloc, by)
    }

    /// If the instruction is a `fork` in a scope that may not be cancelled, the new task's call has a
    /// row, and the state after it is among the states.
    pub fn starts(&self, alloc: Global, instr: Instr) -> Result<(), Stop>
        ensures { OnOk result (led.StartsOn self.now instr) }
    {
        match instr {
            Instr::Fork {
                slot,
                function,
                handle,
            } => self.start(alloc, slot, function, handle),
            _ => Ok(()),
        }
    }

    /// The births by a `fork`.
    fn born_by_fork(&self, alloc: Global, slot: u8, function: u32) -> Result<u32, Stop> {
        let scope = owned(self.own, slot)?;
        if is_cancelled(scope.seen.knowledge) {
            return Ok(self.outside.per_birth());
        }
        let row = self.row_of_task(alloc, scope.seen, function)?;
        born_with(self.outside, row)
    }

    /// The births by an instruction.
    pub fn born_by(&self, alloc: Global, instr: Instr) -> Result<u32, Stop> {
        match instr {
            Instr::Open { .. } => Ok(self.outside.per_birth()),
            Instr::Fork { slot, function, .. } => self.born_by_fork(alloc, slot, function),
            _ => Ok(0),
        }
    }
}
