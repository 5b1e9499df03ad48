//! The scoped values of a task.

ghost use Rattle.std.specs.Prelude.{◌≡◌, ◌∷◌, ◌++◌, [], IfOk, OnOk, filter_map, pos, is_some};
ghost use Rattle.std.specs.Prelude.{unwrap_or};
ghost use Rattle.std.specs.Option.{option_to_list};
ghost use Rattle.laws_calls.specs.Tasks as def;
ghost use Rattle.sts_model.specs.Environment as scoped;
ghost use Rattle.sts_model.specs.Local as locals;
ghost use Rattle.sts_model.specs.declared.record.Entry.TheVariants as entry;

use crate::frames::{pushed, stepped};
use crate::stop::Stop;
use laws_calls::table::{Call, Own};
use std::alloc::{AllocError, Global};
use sts_code::MAX_ENTRIES;
use sts_model::{Bound, Entry, Frame, Items};

/// Appends the binding of an entry, if it is one.
fn push_bound(found: &mut Items<Bound>, entry: Entry) -> Result<(), AllocError>
    ensures { OnOk result (found.new ≡ found.old ++ option_to_list (scoped.bound_of entry)) }
{
    if let Entry::Binding(key, value) = entry {
        found.push(Bound { key, value })?;
    }
    Ok(())
}

/// The task's own bindings, the innermost first.
fn own_bindings(alloc: Global, frame: &Frame) -> Result<Items<Bound>, AllocError>
    ensures { IfOk result (λ found. found ≡ filter_map scoped.bound_of frame.now.entries) }
{
    let mut found = Items::new(alloc);
    for place in 0..frame.entries.len() {
        let entry = frame.entries.get_or(place, Entry::Scope(0));
        push_bound(&mut found, entry)?;
    }
    Ok(found)
}

/// The bindings that are in force, the innermost first.
pub fn bindings(alloc: Global, call: &Call, own: &Own) -> Result<Items<Bound>, AllocError>
    ensures { IfOk result (λ found. found ≡ def.bindings call.now own.now) }
{
    let mut found = own_bindings(alloc, &own.frame)?;
    for bound in call.environment.as_slice() {
        found.push(*bound)?;
    }
    Ok(found)
}

/// The value of the first binding of a key.
pub fn value_of(bindings: &[Bound], key: u8) -> Option<i64>
    ensures { result ≡ scoped.read bindings.now key }
{
    bindings
        .iter()
        .find(|bound| bound.key == key)
        .map(|bound| bound.value)
}

/// The value of a key, if it is bound.
fn found(alloc: Global, call: &Call, own: &Own, key: u8) -> Result<Option<i64>, AllocError>
    ensures { IfOk result (λ v. v ≡ scoped.read (def.bindings call.now own.now) key) }
{
    let bindings = bindings(alloc, call, own)?;
    Ok(value_of(bindings.as_slice(), key))
}

/// The frame after the value of a key was pushed, or 0.
pub fn after_read(alloc: Global, call: &Call, own: &Own, key: u8) -> Result<Frame, Stop>
    ensures { IfOk result (λ f. f ≡ locals.steps own.now.frame 0
        (unwrap_or (scoped.read (def.bindings call.now own.now) key) (pos 0) ∷ [])) }
{
    let value = found(alloc, call, own, key)?.unwrap_or(0);
    pushed(&own.frame, 0, value)
}

/// The frame after it was pushed whether a key is bound.
pub fn after_bound(alloc: Global, call: &Call, own: &Own, key: u8) -> Result<Frame, Stop>
    ensures { IfOk result (λ f. f ≡ locals.steps own.now.frame 0
        (locals.truth (is_some (scoped.read (def.bindings call.now own.now) key)) ∷ [])) }
{
    let is_bound = found(alloc, call, own, key)?.is_some();
    pushed(&own.frame, 0, i64::from(is_bound))
}

/// The frame after the top operand was replaced by the value of a key, if it is bound.
pub fn after_or_else(alloc: Global, call: &Call, own: &Own, key: u8) -> Result<Frame, Stop>
    ensures { IfOk result (λ f. f ≡ locals.steps own.now.frame 1 (unwrap_or
        (scoped.read (def.bindings call.now own.now) key) (locals.operand own.now.frame 0) ∷ [])) }
{
    let otherwise = own.frame.operand(0);
    let value = found(alloc, call, own, key)?.unwrap_or(otherwise);
    pushed(&own.frame, 1, value)
}

/// The frame after a key was bound to the top operand.
pub fn bound(frame: &Frame, key: u8) -> Result<Frame, Stop>
    ensures { IfOk result (λ f. f ≡ record (locals.steps frame.now 1 []) {
      entries = entry.Binding key (locals.operand frame.now 0) ∷ frame.now.entries;
    }) }
{
    if frame.entries.len() >= MAX_ENTRIES {
        return Err(Stop::Unknown);
    }
    let mut next = stepped(frame, 1)?;
    next.entries.push(Entry::Binding(key, frame.operand(0)));
    Ok(next)
}
