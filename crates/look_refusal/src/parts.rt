//! The parts of a typestate in words.

ghost use Rattle.std.specs.Prelude.{◌≡◌, ◌↔◌, ◌++◌, IsTrue, OnOk};
ghost use Rattle.std.specs.List.{AllByRecursion};
ghost use Rattle.std.specs.String.{string_bytes};
ghost use Rattle.sts_list.specs.Spelling.{after_spaces, timed_words};
ghost use Rattle.look_refusal.specs.Differences as def;
ghost use Rattle.look_refusal.specs.Reading.{IsHeldKind, IsHeldEntry, IsHeldLoop, IsHeldIn};

use look_text::Said;
use std::fmt::Write;
use sts_list::write_joiner;
use sts_model::Stack;
use sts_rules::{Known, SlotKind, TypedEntry, TypedLoop, TypedPhase, TypedScope};
use sts_types::TypeState;

/// A part of a typestate: the number of operands, the open loops, the open scopes and bindings, or
/// what is known of a slot.
#[derive(Clone, Copy)]
pub enum Part {
    Operands,
    Loops,
    Open,
    Slot(u8),
}

/// Are two typestates the same in this part?
pub(crate) fn is_same_part(part: Part, one: &TypeState, other: &TypeState) -> bool
    ensures { IsTrue result ↔ def.IsSamePart part one.now other.now }
{
    match part {
        Part::Operands => one.height() == other.height(),
        Part::Loops => one.loops().as_slice() == other.loops().as_slice(),
        Part::Open => one.entries().as_slice() == other.entries().as_slice(),
        Part::Slot(slot) => one.kind(slot) == other.kind(slot),
    }
}

fn write_kind(out: &mut String, kind: SlotKind) -> Said
    ensures words { OnOk result (string_bytes out.new
        ≡ string_bytes out.old ++ def.kind_words kind) }
    ensures held { IsHeldKind kind }
{
    match kind {
        SlotKind::Empty => write!(out, " empty"),
        SlotKind::Own => write!(out, " a scope"),
        SlotKind::Lent => write!(out, " the scope it is in"),
        SlotKind::Sub(slot, known) => {
            let word = match known {
                Known::Unknown => "unknown",
                Known::Success => "success",
                Known::Failed => "failed",
            };
            write!(out, " {word}, of s{slot}")
        }
    }
}

fn write_timed(out: &mut String, timed: bool) -> Said
    ensures { OnOk result (string_bytes out.new
        ≡ string_bytes out.old ++ after_spaces (timed_words timed)) }
{
    if timed { write!(out, " timed") } else { Ok(()) }
}

fn write_phase(out: &mut String, phase: TypedPhase) -> Said
    ensures { OnOk result (string_bytes out.new ≡ string_bytes out.old ++ def.phase_words phase) }
{
    match phase {
        TypedPhase::Opened => write!(out, " opened"),
        TypedPhase::Attempted => write!(out, " attempted"),
        TypedPhase::Joined => write!(out, " joined"),
        TypedPhase::Late => write!(out, " late"),
    }
}

fn write_scope(out: &mut String, scope: TypedScope) -> Said
    ensures words { OnOk result (string_bytes out.new
        ≡ string_bytes out.old ++ def.entry_words (TypedEntry.Scope scope)) }
    ensures held { IsHeldEntry (TypedEntry.Scope scope) }
{
    let slot = scope.slot;
    write!(out, " (s{slot}")?;
    write_joiner(out, scope.joiner)?;
    write_timed(out, scope.timed)?;
    write_phase(out, scope.phase)?;
    write!(out, ")")
}

fn write_entry(out: &mut String, entry: TypedEntry) -> Said
    ensures words { OnOk result (string_bytes out.new
        ≡ string_bytes out.old ++ def.entry_words entry) }
    ensures held { IsHeldEntry entry }
{
    match entry {
        TypedEntry::Scope(scope) => write_scope(out, scope),
        TypedEntry::Binding(key) => write!(out, " (key {key})"),
    }
}

fn write_entries(out: &mut String, entries: &Stack<TypedEntry, 16>) -> Said
    ensures words { OnOk result (string_bytes out.new
        ≡ string_bytes out.old ++ def.listed def.entry_words entries.now) }
    ensures held { OnOk result (AllByRecursion IsHeldEntry entries.now) }
{
    if entries.len() == 0 {
        return write!(out, " none");
    }
    for n in 0..entries.len() {
        write_entry(out, entries.get_or(n, TypedEntry::Binding(0)))?;
    }
    Ok(())
}

fn write_loop(out: &mut String, around: TypedLoop) -> Said
    ensures words { OnOk result (string_bytes out.new
        ≡ string_bytes out.old ++ def.loop_words around) }
    ensures held { IsHeldLoop around }
{
    let at = around.at;
    let entries = around.entries;
    write!(out, " (times at {at}, {entries} open)")
}

fn write_loops(out: &mut String, loops: &Stack<TypedLoop, 8>) -> Said
    ensures words { OnOk result (string_bytes out.new
        ≡ string_bytes out.old ++ def.listed def.loop_words loops.now) }
    ensures held { OnOk result (AllByRecursion IsHeldLoop loops.now) }
{
    if loops.len() == 0 {
        return write!(out, " none");
    }
    for n in 0..loops.len() {
        write_loop(out, loops.get_or(n, TypedLoop { at: 0, entries: 0 }))?;
    }
    Ok(())
}

/// A part of a typestate in words, each after a space.
///
/// # Errors
///
/// Memory ran out.
pub(crate) fn write_part(out: &mut String, part: Part, state: &TypeState) -> Said
    ensures words { OnOk result (string_bytes out.new
        ≡ string_bytes out.old ++ def.part_words part state.now) }

    // Its numbers have 64 bits, so different typestates give different words.
    ensures held { OnOk result (IsHeldIn part state.now) }
{
    match part {
        Part::Operands => {
            let height = state.height();
            write!(out, " {height}")
        }
        Part::Loops => write_loops(out, state.loops()),
        Part::Open => write_entries(out, state.entries()),
        Part::Slot(slot) => write_kind(out, state.kind(slot)),
    }
}

/// The name of a part of a typestate.
///
/// # Errors
///
/// Memory ran out.
pub(crate) fn write_name(out: &mut String, part: Part) -> Said
    ensures { OnOk result (string_bytes out.new ≡ string_bytes out.old ++ def.part_name part) }
{
    match part {
        Part::Operands => write!(out, "operands"),
        Part::Loops => write!(out, "open loops"),
        Part::Open => write!(out, "open, the last one first"),
        Part::Slot(slot) => write!(out, "slot s{slot}"),
    }
}
