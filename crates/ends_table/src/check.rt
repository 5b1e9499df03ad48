//! A check that a table is closed under the steps of tasks.

ghost use Rattle.std.specs.Prelude.{◌≡◌, OnOk, IfOk, All, Some, true};
ghost use Rattle.ends_table.specs.Led as led;
ghost use Rattle.laws_calls.specs.declared.table.Held.TheVariants.{Empty};
ghost use Rattle.laws_calls.specs.Steps as def;
ghost use Rattle.laws_calls.specs.Tasks as tasks;
ghost use Rattle.sts_model.specs.declared.event.End.{End};

use crate::around::Around;
use crate::beginning::{first_state, root_call};
use crate::reached::is_among;
use crate::rows::{ends, places_of};
use crate::stop::Stop;
use ends_search::index::Index;
use laws_calls::table::{Call, Held, Outside, Own, Row, Way};
use std::alloc::{AllocError, Global};
use sts_code::{Instr, Program};
use sts_frames::instr_at;
use sts_same::same::Same;

/// All that a table owes at a state whose next instruction is this. The ways are those of its row.
fn check_instr(alloc: Global, around: Around<'_>, ways: &[Way], instr: Instr) -> Result<(), Stop>
    ensures starts { OnOk result (led.StartsOn around.entry instr) }
    ensures steps { OnOk result (led.LeadsOn around.entry instr) }
    ensures ends { OnOk result ((e : End) → def.end_by instr around.entry.own.now.frame ≡ Some e
        → tasks.HasWay ways.now e) }
{
    around.starts(alloc, instr)?;
    around.steps(alloc, instr)?;
    ends(ways, around.own, instr)?;
    Ok(())
}

/// All that a table owes at a state of a row.
///
/// # Errors
///
/// The table lacks something, or it is not known whether it does, or memory ran out.
pub fn check_state(
    alloc: Global,
    program: &Program,
    outside: Outside,
    table: &[Row],
    places: &Index,
    row: &Row,
    own: &Own,
) -> Result<(), Stop>
    ensures { OnOk result (led.IsLedAt program.now outside table.now row.now own.now) }
{
    let Some(instr) = instr_at(program, &own.frame) else {
        return Ok(());
    };
    let around = Around {
        program,
        outside,
        table,
        places,
        call: &row.call,
        states: row.states.as_slice(),
        own,
    };
    check_instr(alloc, around, row.ways.as_slice(), instr)?;
    Ok(())
}

/// All that a table owes at the states of a row.
fn check_row(
    alloc: Global,
    program: &Program,
    outside: Outside,
    table: &[Row],
    places: &Index,
    row: &Row,
) -> Result<(), Stop>
    ensures { OnOk result (All (led.IsLedAt program.now outside table.now row.now)
        row.now.states) }
{
    for own in row.states.as_slice() {
        check_state(alloc, program, outside, table, places, row, own)?;
    }
    Ok(())
}

/// All that a table owes at the states of its rows.
fn check_rows(alloc: Global, program: &Program, outside: Outside, table: &[Row]) -> Result<(), Stop>
    ensures { OnOk result (All (led.IsLedRow program.now outside table.now) table.now) }
{
    let places = places_of(alloc, table)?;
    for row in table {
        check_row(alloc, program, outside, table, &places, row)?;
    }
    Ok(())
}

/// Is it the root's call?
fn is_root_call(alloc: Global, program: &Program, call: &Call) -> Result<bool, Stop>
    ensures { IfOk result (λ yes. yes ≡ true → call.now ≡ def.root_call program.now) }
{
    let root = root_call(alloc, program)?;
    Ok(call.same(&root))
}

/// Has the row the first state of its call, if slot 0 is empty?
fn begins(alloc: Global, row: &Row) -> Result<bool, Stop>
    ensures { IfOk result (λ yes. yes ≡ true
        → tasks.Among row.now.states (tasks.begin Empty row.now.call row.now.births)) }
{
    let first = first_state(alloc, &row.call, Held::Empty, row.births)?;
    Ok(is_among(row.states.as_slice(), &first))
}

/// The row is that of the root's call, and has its first state.
fn check_root(alloc: Global, program: &Program, root: &Row) -> Result<(), Stop>
    ensures { OnOk result (led.IsRoot program.now root.now) }
{
    if !is_root_call(alloc, program, &root.call)? {
        return Err(Stop::Unknown);
    }
    if !begins(alloc, root)? {
        return Err(Stop::Unknown);
    }
    Ok(())
}

/// The table is closed, and its first row is the root's.
///
/// # Errors
///
/// The table lacks something, or it is not known whether it does, or memory ran out.
pub fn check_table(
    alloc: Global,
    program: &Program,
    outside: Outside,
    table: &[Row],
) -> Result<(), Stop>
    ensures { OnOk result (led.IsClosed program.now outside table.now) }
{
    let Some(root) = table.get(0) else {
        return Ok(());
    };
    check_root(alloc, program, root)?;
    check_rows(alloc, program, outside, table)?;
    Ok(())
}

/// Is the table closed, and is its first row the root's? The answer may be false though it is.
///
/// # Errors
///
/// Memory ran out.
pub fn is_closed(
    alloc: Global,
    program: &Program,
    outside: Outside,
    table: &[Row],
) -> Result<bool, AllocError>
    ensures { IfOk result (λ yes. yes ≡ true → led.IsClosed program.now outside table.now) }
{
    match check_table(alloc, program, outside, table) {
        Ok(()) => Ok(true),
        Err(Stop::NoMemory(error)) => Err(error),
        Err(_) => Ok(false),
    }
}
