//! Whether two states differ only by the birth numbers of tasks and scopes.

ghost use Rattle.std.specs.Prelude.{◌≡◌, ◌<◌, true, IfOk, map, length, option_map};
ghost use Rattle.sts_model.specs.World as def;
ghost use Rattle.laws_names.specs.Names as law;
ghost use Rattle.ends_plain.specs.Named.{names_of, name_in, IsNaming, AreRenamed};
ghost use Rattle.ends_plain.specs.Named.{AreNames, AllTasksSame, AllScopesSame};

use crate::guess::guessed;
use std::alloc::{AllocError, Global};
use sts_model::{Completion, Entry, Frame, KeptEntry, KeptSlot, Slot};
use sts_same::same::{same_slices, same_stacks};
use sts_world::{Records, World};

/// For each birth number of a state, the birth number in another state.
#[derive(Drop)]
pub struct NameLists {
    pub tasks: Vec<u32>,
    pub scopes: Vec<u32>,
}

/// The name of a birth number; one past the list is its own name.
pub fn name(names: &[u32], number: u32) -> u32
    ensures { result ≡ name_in names.now number }
{
    match names.get(number as usize) {
        Some(other) => *other,
        None => number,
    }
}

/// A slot under these names.
fn named_slot(names: &NameLists, slot: Slot) -> Slot
    ensures { result ≡ law.named_slot (names_of names.now) slot }
{
    match slot {
        Slot::Empty => Slot::Empty,
        Slot::Own(s) => Slot::Own(name(names.scopes.as_slice(), s)),
        Slot::Lent(s) => Slot::Lent(name(names.scopes.as_slice(), s)),
        Slot::Sub(t) => Slot::Sub(name(names.tasks.as_slice(), t)),
    }
}

/// An entry under these names.
fn named_entry(names: &NameLists, entry: Entry) -> Entry
    ensures { result ≡ law.named_entry (names_of names.now) entry }
{
    match entry {
        Entry::Scope(s) => Entry::Scope(name(names.scopes.as_slice(), s)),
        Entry::Binding(key, value) => Entry::Binding(key, value),
    }
}

/// A completion under these names.
fn named_completion(names: &NameLists, completion: Completion) -> Completion
    ensures { result ≡ law.named_completion (names_of names.now) completion }
{
    Completion {
        task: name(names.tasks.as_slice(), completion.task),
        end: completion.end,
    }
}

/// A scope under these names, if there is one.
fn named_parent(names: &NameLists, scope: Option<u32>) -> Option<u32>
    ensures { result ≡ option_map (names_of names.now).scopes scope }
{
    match scope {
        Some(s) => Some(name(names.scopes.as_slice(), s)),
        None => None,
    }
}

/// Are the slots the same under these names?
fn same_slots(names: &NameLists, ours: &[KeptSlot], theirs: &[KeptSlot]) -> bool
    ensures { result ≡ true → theirs.now ≡ map (law.named_slot (names_of names.now)) ours.now }
{
    if ours.len() != theirs.len() {
        return false;
    }
    for i in 0..ours.len() {
        if named_slot(names, ours[i].get()) != theirs[i].get() {
            return false;
        }
    }
    true
}

/// Are the entries the same under these names?
fn same_entries(names: &NameLists, ours: &[KeptEntry], theirs: &[KeptEntry]) -> bool
    ensures { result ≡ true → theirs.now ≡ map (law.named_entry (names_of names.now)) ours.now }
{
    if ours.len() != theirs.len() {
        return false;
    }
    for i in 0..ours.len() {
        if named_entry(names, ours[i].get()) != theirs[i].get() {
            return false;
        }
    }
    true
}

/// Are the completions the same under these names?
fn same_completions(names: &NameLists, ours: &[Completion], theirs: &[Completion]) -> bool
    ensures { result ≡ true
        → theirs.now ≡ map (law.named_completion (names_of names.now)) ours.now }
{
    if ours.len() != theirs.len() {
        return false;
    }
    for i in 0..ours.len() {
        if named_completion(names, ours[i]) != theirs[i] {
            return false;
        }
    }
    true
}

/// Are the frames the same under these names?
fn same_frames(names: &NameLists, ours: &Frame, theirs: &Frame) -> bool
    ensures { result ≡ true → theirs.now ≡ law.named_frame (names_of names.now) ours.now }
{
    if ours.function != theirs.function || ours.pc != theirs.pc {
        return false;
    }
    if !same_stacks(&ours.operands, &theirs.operands) {
        return false;
    }
    if !same_slices(&ours.locals, &theirs.locals) {
        return false;
    }
    if !same_stacks(&ours.loops, &theirs.loops) {
        return false;
    }
    if !same_entries(names, ours.entries.as_slice(), theirs.entries.as_slice()) {
        return false;
    }
    same_slots(names, &ours.slots, &theirs.slots)
}

/// Are the tasks the same under these names, as far as a later event can read them?
fn same_tasks(names: &NameLists, ours: &Records, theirs: &Records, t: u32) -> bool
    ensures { result ≡ true → law.IsSameTask (names_of names.now) (def.task_at ours.now t)
        (def.task_at theirs.now ((names_of names.now).tasks t)) }
{
    let u = name(names.tasks.as_slice(), t);
    if named_parent(names, ours.parent(t)) != theirs.parent(u)
        || ours.has_started(t) != theirs.has_started(u)
        || ours.outcome(t) != theirs.outcome(u)
    {
        return false;
    }
    let lives = ours.lives(t);
    if lives != theirs.lives(u) {
        return false;
    }
    if !lives {
        return true;
    }
    if ours.flag(t) != theirs.flag(u) {
        return false;
    }
    same_frames(names, ours.frame(t), theirs.frame(u))
}

/// Are the scopes the same under these names, except for scoped values?
fn same_scopes(names: &NameLists, ours: &Records, theirs: &Records, s: u32) -> bool
    ensures { result ≡ true → law.IsSameScope (names_of names.now) (def.scope_at ours.now s)
        (def.scope_at theirs.now ((names_of names.now).scopes s)) }
{
    let r = name(names.scopes.as_slice(), s);
    if name(names.tasks.as_slice(), ours.owner(s)) != theirs.owner(r)
        || ours.joiner(s) != theirs.joiner(r)
        || ours.phase(s) != theirs.phase(r)
    {
        return false;
    }
    if ours.is_timed(s) != theirs.is_timed(r)
        || ours.is_cancelled(s) != theirs.is_cancelled(r)
        || ours.is_expired(s) != theirs.is_expired(r)
    {
        return false;
    }
    same_completions(names, ours.completions(s), theirs.completions(r))
}

/// Are all tasks the same under these names?
fn all_tasks_same(names: &NameLists, ours: &Records, theirs: &Records) -> bool
    ensures { result ≡ true
        → AllTasksSame (names_of names.now) ours.now theirs.now (length ours.now.tasks) }
{
    let born = ours.tasks_born() as u32;
    for t in 0..born {
        if !same_tasks(names, ours, theirs, t) {
            return false;
        }
    }
    true
}

/// Are all scopes the same under these names?
fn all_scopes_same(names: &NameLists, ours: &Records, theirs: &Records) -> bool
    ensures { result ≡ true
        → AllScopesSame (names_of names.now) ours.now theirs.now (length ours.now.scopes) }
{
    let born = ours.scopes_born() as u32;
    for s in 0..born {
        if !same_scopes(names, ours, theirs, s) {
            return false;
        }
    }
    true
}

/// Does each number below `births` have a name below `births`, and does `back` lead from the name
/// to the number?
fn is_naming(names: &[u32], back: &[u32], births: usize) -> bool
    ensures { result ≡ true → IsNaming names.now back.now births }
{
    if names.len() != births {
        return false;
    }
    for k in 0..births {
        let other = names[k];
        if other as usize >= births || name(back, other) as usize != k {
            return false;
        }
    }
    true
}

/// Do these names give each birth of the first state a birth of the second, and the root the root?
fn are_names(names: &NameLists, back: &NameLists, ours: &Records, theirs: &Records) -> bool
    ensures { result ≡ true → AreNames names.now back.now ours.now theirs.now }
{
    ours.tasks_born() == theirs.tasks_born()
        && ours.scopes_born() == theirs.scopes_born()
        && is_naming(
            names.tasks.as_slice(),
            back.tasks.as_slice(),
            ours.tasks_born(),
        )
        && is_naming(
            names.scopes.as_slice(),
            back.scopes.as_slice(),
            ours.scopes_born(),
        )
        && name(names.tasks.as_slice(), 0) == 0
}

/// Do the states differ only by birth numbers, or not at all? The answer may be `false` though they
/// don't.
pub fn have_names(alloc: Global, ours: &World, theirs: &World) -> Result<bool, AllocError>
    ensures { IfOk result (λ r. r ≡ true → AreRenamed ours.now theirs.now) }
{
    let guess = guessed(alloc, ours, theirs)?;
    let here = ours.records();
    let there = theirs.records();
    let names = &guess.names;
    if !are_names(names, &guess.back, here, there) {
        return Ok(false);
    }
    if !all_tasks_same(names, here, there) {
        return Ok(false);
    }
    Ok(all_scopes_same(names, here, there))
}
