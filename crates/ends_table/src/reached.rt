//! Whether a state is among those of a row.

ghost use Rattle.std.specs.Prelude.{◌≡◌, ◌+◌, ◌≤◌, ℕ, [], ◌∷◌, true, OnOk, IfSome};
ghost use Rattle.laws_calls.specs.Steps as def;
ghost use Rattle.laws_calls.specs.Tasks.{Among};
ghost use Rattle.sts_model.specs.Local as locals;

use crate::around::Around;
use crate::fingerprints::{first_like, is_past};
use crate::frames::{jumped, pushed};
use crate::places::{with_frame, with_scope};
use crate::stop::Stop;
use ends_picks::possible::is_possible;
use laws_calls::table::{Own, Seen};
use std::alloc::Global;
use sts_model::Frame;

/// The births that are left in a state, if it is the same as the other apart from them.
fn left_if_like(there: &Own, own: &Own) -> Option<u32>
    ensures { IfSome result (λ left. there.now ≡ record own.now { left = left }) }
{
    if there.is_like(own) {
        Some(there.left)
    } else {
        None
    }
}

/// The births that are left in the state among these that is the same apart from them. The states
/// have to be in rising order of their fingerprints.
pub fn left_in(states: &[Own], own: &Own) -> Option<u32>
    ensures { IfSome result (λ left. Among states.now (record own.now { left = left })) }
{
    for at in first_like(states, own)..states.len() {
        if let Some(left) = left_if_like(&states[at], own) {
            return Some(left);
        }
        if is_past(&states[at], own) {
            return None;
        }
    }
    None
}

/// Is the state among these, with so many births left?
pub fn is_among_with(states: &[Own], own: &Own, left: u32) -> bool
    ensures { result ≡ true → Among states.now (record own.now { left = left }) }
{
    match left_in(states, own) {
        Some(there) => there == left,
        None => false,
    }
}

/// Is the state among these, with as many births left?
pub fn is_among(states: &[Own], own: &Own) -> bool
    ensures { result ≡ true → Among states.now own.now }
{
    is_among_with(states, own, own.left)
}

/// The state is among these after these births, or the error has it.
fn found(states: &[Own], next: Own, born: u32) -> Result<(), Stop>
    ensures { OnOk result ((k : ℕ) × (born + k ≤ next.left) × Among states.now
        (record next { left = k })) }
{
    let Some(left) = left_in(states, &next) else {
        return Err(Stop::State(next));
    };
    if born > next.left || left > next.left - born {
        return Err(Stop::Unknown);
    }
    Ok(())
}

/// If the state may be possible, it is among these after these births, or the error has it.
pub fn leads_after(states: &[Own], next: Own, born: u32) -> Result<(), Stop>
    ensures { OnOk result (def.LeadsBy born states.now next) }
{
    if is_possible(&next) {
        found(states, next, born)
    } else {
        Ok(())
    }
}

/// If the state may be possible, it is among these, or the error has it.
pub fn leads(states: &[Own], next: Own) -> Result<(), Stop>
    ensures { OnOk result (def.Leads states.now next) }
{
    leads_after(states, next, 0)
}

impl<'a> Around<'a> {
    /// The same for the state with another frame.
    pub fn leads_by(&self, alloc: Global, frame: Frame) -> Result<(), Stop>
        ensures { OnOk result
            (def.Leads self.now.states.now (def.to self.now.own.now frame)) }
    {
        let next = with_frame(alloc, self.own, frame)?;
        leads(self.states, next)
    }

    /// The same for the state with another scope at a place, and another frame.
    pub fn leads(&self, alloc: Global, place: u32, seen: Seen, frame: Frame) -> Result<(), Stop>
        ensures { OnOk result (def.Leads self.now.states.now
            (def.to (def.with_seen self.now.own.now place seen) frame)) }
    {
        let next = with_scope(alloc, self.own, place, seen, frame)?;
        leads(self.states, next)
    }

    /// The same, where the frame is at the next place, after it pushed a value.
    pub fn pushes(&self, alloc: Global, place: u32, seen: Seen, value: i64) -> Result<(), Stop>
        ensures { OnOk result (def.Leads self.now.states.now
            (def.to (def.with_seen self.now.own.now place seen)
            (locals.steps self.now.own.now.frame 0 (value ∷ [])))) }
    {
        let frame = pushed(&self.own.frame, 0, value)?;
        self.leads(alloc, place, seen, frame)
    }

    /// The same, where the frame is at this place.
    pub fn goes(&self, alloc: Global, place: u32, seen: Seen, to: u32) -> Result<(), Stop>
        ensures { OnOk result (def.Leads self.now.states.now
            (def.to (def.with_seen self.now.own.now place seen)
            (locals.goes self.now.own.now.frame to 0 []))) }
    {
        self.leads(alloc, place, seen, jumped(&self.own.frame, to, 0))
    }
}
