//! The structure list of a frame, whose scopes go by their places.

ghost use Rattle.std.specs.Prelude.{◌≡◌, length, is_some, drop, cond};
ghost use Rattle.ends_faults.specs.Safe as def;
ghost use Rattle.laws_calls.specs.Tasks as tasks;
ghost use Rattle.sts_model.specs.Misuse as misuse;

use sts_code::MAX_ENTRIES;
use sts_model::{Entry, Frame};

fn is_scope(entry: Entry) -> bool
    ensures { result ≡ is_some (tasks.scope_of_entry entry) }
{
    matches!(entry, Entry::Scope(_))
}

/// 1 for a scope, and 0 for a binding.
fn count_of(entry: Entry) -> usize
    ensures { result ≡ cond (is_some (tasks.scope_of_entry entry)) 1 0 }
{
    match entry {
        Entry::Scope(_) => 1,
        Entry::Binding(_, _) => 0,
    }
}

/// How many scopes are open, from an entry on.
#[tactic(auto, using(crate::proofs::EntryLemmas::count_more))]
fn scopes_from(frame: &Frame, first: usize) -> usize
    ensures { result ≡ length (tasks.births_in (drop first frame.now.entries)) }
{
    let mut count = 0;
    for i in first..frame.entries.len() {
        count += count_of(frame.entries.get_or(i, Entry::Scope(0)));
    }
    count
}

/// Does a binding come after the scope at a place?
pub fn binds_after(frame: &Frame, place: u32) -> bool
    ensures { result ≡ def.binds_after place frame.now.entries }
{
    for i in 0..frame.entries.len() {
        if !is_scope(frame.entries.get_or(i, Entry::Scope(0))) {
            return true;
        }
        if place as usize == scopes_from(frame, i + 1) {
            return false;
        }
    }
    false
}

/// Is the innermost entry the scope at a place?
pub fn is_innermost(frame: &Frame, place: u32) -> bool
    ensures { result ≡ def.is_innermost place frame.now.entries }
{
    match frame.entries.get(0) {
        Some(Entry::Scope(_)) => place as usize == scopes_from(frame, 1),
        _ => false,
    }
}

/// Is the innermost entry a binding?
pub fn ends_with_binding(frame: &Frame) -> bool
    ensures { result ≡ misuse.innermost misuse.is_binding frame.now.entries }
{
    matches!(frame.entries.get(0), Some(Entry::Binding(_, _)))
}

/// Is there no room for an entry more?
pub fn is_full(frame: &Frame) -> bool
    ensures { result ≡ def.is_full frame.now }
{
    frame.entries.len() >= MAX_ENTRIES
}
