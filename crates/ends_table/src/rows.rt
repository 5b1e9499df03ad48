//! Rows of a table, and the ways that they have.

ghost use Rattle.std.specs.Prelude.{◌≡◌, true, IfOk, IfSome, OnOk, Some};
ghost use Rattle.laws_calls.specs.declared.table.Held.TheVariants.{Lent};
ghost use Rattle.laws_calls.specs.Steps as def;
ghost use Rattle.laws_calls.specs.Tasks as tasks;
ghost use Rattle.sts_model.specs.declared.event.End.{End};

use crate::beginning::first_state;
use crate::reached::is_among_with;
use crate::stop::Stop;
use ends_known::call::hash_of;
use ends_search::index::Index;
use laws_calls::table::{Call, Held, Own, Row, Way};
use std::alloc::{AllocError, Global};
use sts_code::Instr;
use sts_model::{End, Frame};
use sts_same::same::Same;

/// Where the rows of a table are, by their calls: only hints, with no contract.
pub fn places_of(alloc: Global, table: &[Row]) -> Result<Index, AllocError> {
    let mut places = Index::new(alloc)?;
    for row in table {
        places.add(alloc, hash_of(&row.call))?;
    }
    Ok(places)
}

/// The row at a place, if it is that of a call and has the call's first state.
fn row_at<'a>(table: &'a [Row], place: usize, call: &Call, first: &Own) -> Option<&'a Row>
    requires { first.now ≡ tasks.begin Lent call.now 0 }
    ensures { IfSome result (λ row. def.IsRowOf table.now row.now call.now) }
{
    let row = table.get(place)?;
    if row.call.same(call) && is_among_with(row.states.as_slice(), first, row.births) {
        Some(row)
    } else {
        None
    }
}

/// The row of a call, which has the call's first state.
fn row_of<'a>(table: &'a [Row], places: &Index, call: &Call, first: &Own) -> Option<&'a Row>
    requires { first.now ≡ tasks.begin Lent call.now 0 }
    ensures { IfSome result (λ row. def.IsRowOf table.now row.now call.now) }
{
    let hash = hash_of(call);
    let mut place = places.first(hash);
    for _ in 0..table.len() {
        let found = row_at(table, place, call, first);
        if found.is_some() || place >= table.len() {
            return found;
        }
        place = places.behind(place, hash);
    }
    None
}

/// The row of the call of a subtask.
pub fn row_for<'a>(
    alloc: Global,
    table: &'a [Row],
    places: &Index,
    call: &Call,
) -> Result<Option<&'a Row>, Stop>
    ensures { IfOk result (λ found. IfSome found (λ row.
        def.IsRowOf table.now row.now call.now)) }
{
    let first = first_state(alloc, call, Held::Lent, 0)?;
    Ok(row_of(table, places, call, &first))
}

/// Does the way come to this end?
fn is_way_to(way: Way, end: End) -> bool
    ensures { result ≡ true → way.end ≡ end }
{
    way.end == end
}

/// Does one of the ways come to this end?
fn has_way(ways: &[Way], end: End) -> bool
    ensures { result ≡ true → tasks.HasWay ways.now end }
{
    for way in ways {
        if is_way_to(*way, end) {
            return true;
        }
    }
    false
}

/// The end of a task by its last instruction.
fn end_by(instr: Instr, frame: &Frame) -> Option<End>
    ensures { result ≡ def.end_by instr frame.now }
{
    match instr {
        Instr::Ret => Some(End::Success(frame.operand(0))),
        Instr::Fail => Some(End::Failed(frame.operand(0))),
        _ => None,
    }
}

/// If the task ends by this instruction, its end is a way of the row.
pub fn ends(ways: &[Way], own: &Own, instr: Instr) -> Result<(), Stop>
    ensures { OnOk result ((e : End) → def.end_by instr own.now.frame ≡ Some e
        → tasks.HasWay ways.now e) }
{
    let Some(end) = end_by(instr, &own.frame) else {
        return Ok(());
    };
    if !has_way(ways, end) {
        return Err(Stop::Way(end));
    }
    Ok(())
}
