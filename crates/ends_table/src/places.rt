//! The open scopes of a state, its slots, and what they hold.

ghost use Rattle.std.specs.Prelude.{◌≡◌, ◌+◌, ◌<◌, Some, IfOk, length, slice_get, slice_set};
ghost use Rattle.laws_calls.specs.Steps as def;
ghost use Rattle.laws_calls.specs.Tasks as tasks;

use crate::stop::Stop;
use laws_calls::copies::{copy_list, copy_with};
use laws_calls::table::{Held, Own, Part, Seen};
use std::alloc::{AllocError, Global};
use sts_code::LAST_SLOT;
use sts_model::Frame;
use sts_repeats::repeats::Repeats;
use sts_same::copied::copy_items;

/// The open scope at a place.
#[derive(Clone, Copy)]
pub struct PlacedScope<'a> {
    pub place: u32,
    pub seen: &'a Seen,
}

/// A part of the open scope at a place, with its number.
#[derive(Clone, Copy)]
pub struct PlacedPart<'a> {
    pub place: u32,
    pub seen: &'a Seen,
    pub i: u32,
    pub part: &'a Part,
}

/// A number of 32 bits.
pub fn number(count: usize) -> Result<u32, Stop>
    ensures { IfOk result (λ n. n ≡ count) }
{
    if count > u32::MAX as usize {
        return Err(Stop::Unknown);
    }
    Ok(count as u32)
}

/// What a slot holds.
pub fn held_at(own: &Own, slot: u8) -> Held
    ensures { result ≡ tasks.held_at own.now slot }
{
    own.held.get(slot as usize).copied().unwrap_or(Held::Empty)
}

/// Fills a slot. A slot above the last changes nothing.
pub fn set_held(held: &mut [Held; 16], slot: u8, value: Held)
    ensures { held.new ≡ slice_set held.old slot value }
{
    if slot <= LAST_SLOT {
        held[slot as usize] = value;
    }
}

/// The index of a place: the outermost scope has place 0, and the innermost index 0.
fn index_of(scopes: &[Seen], place: u32) -> Result<usize, Stop>
    ensures { IfOk result (λ i. length scopes.now ≡ place + i + 1) }
{
    let place = place as usize;
    if place < scopes.len() {
        Ok(scopes.len() - 1 - place)
    } else {
        Err(Stop::Unknown)
    }
}

/// The open scope at a place.
pub fn scope_at(own: &Own, place: u32) -> Result<&Seen, Stop>
    ensures { IfOk result (λ seen. tasks.at_place own.now.scopes place ≡ Some seen.now) }
{
    let scopes = own.scopes.as_slice();
    let i = index_of(scopes, place)?;
    Ok(&scopes[i])
}

/// The open scope that a slot holds.
pub fn owned(own: &Own, slot: u8) -> Result<PlacedScope<'_>, Stop>
    ensures { IfOk result (λ o. def.Owns own.now slot o.place o.seen.now) }
{
    match held_at(own, slot) {
        Held::Own(place) => {
            let seen = scope_at(own, place)?;
            Ok(PlacedScope { place, seen })
        }
        _ => Err(Stop::Unknown),
    }
}

/// The subtask that a slot holds.
pub fn known(own: &Own, handle: u8) -> Result<PlacedPart<'_>, Stop>
    ensures { IfOk result (λ k. def.Knows own.now handle k.place k.seen.now k.i k.part.now) }
{
    match held_at(own, handle) {
        Held::Sub(place, i) => {
            let seen = scope_at(own, place)?;
            Ok(PlacedPart {
                place,
                seen,
                i,
                part: part_at(seen, i)?,
            })
        }
        _ => Err(Stop::Unknown),
    }
}

/// The part of this number.
fn part_at(seen: &Seen, part: u32) -> Result<&Part, Stop>
    ensures { IfOk result (λ found. slice_get seen.now.parts part ≡ Some found.now) }
{
    match seen.parts.get(part as usize) {
        Some(found) => Ok(found),
        None => Err(Stop::Unknown),
    }
}

/// The state with another frame.
pub fn with_frame(alloc: Global, own: &Own, frame: Frame) -> Result<Own, AllocError>
    ensures { IfOk result (λ o. o ≡ def.to own.now frame) }
{
    Ok(Own {
        frame,
        held: own.held,
        scopes: copy_list(alloc, own.scopes.as_slice())?,
        left: own.left,
    })
}

/// The state with another scope at a place, and another frame.
pub fn with_scope(
    alloc: Global,
    own: &Own,
    place: u32,
    seen: Seen,
    frame: Frame,
) -> Result<Own, Stop>
    ensures { IfOk result (λ o. o ≡ def.to (def.with_seen own.now place seen) frame) }
{
    let before = own.scopes.as_slice();
    let i = index_of(before, place)?;
    let scopes = copy_with(alloc, before, i, seen)?;
    Ok(Own {
        frame,
        held: own.held,
        scopes,
        left: own.left,
    })
}

/// The scope with other parts.
pub fn with_parts(alloc: Global, seen: &Seen, parts: Repeats<Part>) -> Result<Seen, AllocError>
    ensures { IfOk result (λ x. x ≡ record seen.now { parts = parts }) }
{
    let environment = copy_items(alloc, &seen.environment)?;
    Ok(Seen {
        joiner: seen.joiner,
        timed: seen.timed,
        environment,
        phase: seen.phase,
        knowledge: seen.knowledge,
        asked: seen.asked,
        has_failure: seen.has_failure,
        parts,
    })
}

/// The scope with another part.
pub fn with_part(alloc: Global, seen: &Seen, i: u32, part: Part) -> Result<Seen, AllocError>
    requires { i < length seen.now.parts }
    ensures { IfOk result (λ x. x ≡ def.parts_with seen.now i part) }
{
    let parts = seen.parts.with(alloc, i as usize, part)?;
    with_parts(alloc, seen, parts)
}
