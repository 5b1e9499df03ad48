//! The states after `open` and `close`.

ghost use Rattle.std.specs.Prelude.{◌≡◌, [], ◌∷◌, IfOk, map, drop};
ghost use Rattle.laws_calls.specs.Held as slots;
ghost use Rattle.laws_calls.specs.Steps as def;
ghost use Rattle.sts_model.specs.Local as locals;
ghost use Rattle.sts_model.specs.declared.record.Entry.TheVariants as entry;

use crate::bindings::bindings;
use crate::frames::{left, stepped};
use crate::places::{number, set_held};
use crate::stop::Stop;
use laws_calls::copies::{copy_behind, push_copies};
use laws_calls::table::{Asked, Call, Held, Knowledge, Own, Seen};
use std::alloc::{AllocError, Global};
use sts_code::{Joiner, MAX_ENTRIES};
use sts_model::{Entry, Frame, Items, Phase};
use sts_repeats::repeats::Repeats;

/// A scope that was opened just now.
fn fresh(
    alloc: Global,
    call: &Call,
    own: &Own,
    joiner: Joiner,
    timed: bool,
) -> Result<Seen, AllocError>
    ensures { IfOk result (λ x. x ∷ own.now.scopes ≡
        (def.opened call.now own.now 0 joiner timed).scopes) }
{
    Ok(Seen {
        joiner,
        timed,
        environment: bindings(alloc, call, own)?,
        phase: Phase::Opened,
        knowledge: Knowledge::Unseen,
        asked: Asked {
            successes: None,
            failures: None,
            unavailable: None,
            total: None,
        },
        has_failure: false,
        parts: Repeats::new(alloc)?,
    })
}

/// The frame with one more scope, at the next place.
fn entered(frame: &Frame) -> Result<Frame, Stop>
    ensures { IfOk result (λ f. f ≡ record (locals.steps frame.now 0 []) {
      entries = entry.Scope 0 ∷ frame.now.entries;
    }) }
{
    if frame.entries.len() >= MAX_ENTRIES {
        return Err(Stop::Unknown);
    }
    let mut next = stepped(frame, 0)?;
    next.entries.push(Entry::Scope(0));
    Ok(next)
}

/// The state after `open`.
pub fn opened(
    alloc: Global,
    call: &Call,
    own: &Own,
    slot: u8,
    joiner: Joiner,
    timed: bool,
) -> Result<Own, Stop>
    ensures { IfOk result (λ o. o ≡ def.opened call.now own.now slot joiner timed) }
{
    let place = number(own.scopes.as_slice().len())?;
    let frame = entered(&own.frame)?;
    let seen = fresh(alloc, call, own, joiner, timed)?;
    let scopes = copy_behind(alloc, seen, own.scopes.as_slice())?;
    let mut held = own.held;
    set_held(&mut held, slot, Held::Own(place));
    Ok(Own {
        frame,
        held,
        scopes,
        left: own.left,
    })
}

/// Is it the scope at this place, or a subtask of it?
fn is_at(place: u32, held: Held) -> bool
    ensures { result ≡ slots.is_at place held }
{
    match held {
        Held::Own(at) | Held::Sub(at, _) => at == place,
        Held::Empty | Held::Lent => false,
    }
}

/// The slot's content after the scope at a place was closed.
fn clear(place: u32, held: Held) -> Held
    ensures { result ≡ def.clear place held }
{
    if is_at(place, held) {
        Held::Empty
    } else {
        held
    }
}

/// The slots after the scope at a place was closed.
fn cleared(place: u32, slots: &[Held; 16]) -> [Held; 16]
    ensures { result ≡ map (def.clear place) slots.now }
{
    let mut after = *slots;
    for held in after.iter_mut() {
        *held = clear(place, *held);
    }
    after
}

/// The open scopes without the innermost one.
fn outer(alloc: Global, scopes: &[Seen]) -> Result<Items<Seen>, AllocError>
    ensures { IfOk result (λ xs. xs ≡ drop 1 scopes.now) }
{
    let mut rest = Items::new(alloc);
    if !scopes.is_empty() {
        push_copies(alloc, &mut rest, &scopes[1..])?;
    }
    Ok(rest)
}

/// The state after `close`.
pub fn closed(alloc: Global, own: &Own) -> Result<Own, Stop>
    ensures { IfOk result (λ o. o ≡ def.closed own.now) }
{
    let frame = left(&own.frame)?;
    let scopes = outer(alloc, own.scopes.as_slice())?;
    let place = number(scopes.as_slice().len())?;
    Ok(Own {
        frame,
        held: cleared(place, &own.held),
        scopes,
        left: own.left,
    })
}
