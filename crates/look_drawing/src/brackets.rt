//! The scopes in a column.

ghost use Rattle.std.specs.Prelude.{◌≡◌, ◌++◌, ◌<◌, ◌≤◌, OnOk, count_by, length};
ghost use Rattle.std.specs.String.{string_bytes};
ghost use Rattle.sts_model.specs.World as model;
ghost use Rattle.look_lines.specs.Lines as lines;
ghost use Rattle.look_drawing.specs.Brackets as def;
ghost use Rattle.look_drawing.specs.Place as place;

use crate::change::Change;
use crate::marks::Mark;
use crate::place::bracket;
use crate::writing::{mark_end, mark_start, text_end, text_start};
use look_lines::{Said, phase_word, scope_place};
use std::fmt::Write;
use sts_model::{Entries, Entry, Phase};

/// The number of scopes in a structure list that were born before a scope.
fn scopes_before(entries: &Entries, s: u32) -> usize
    ensures value { result ≡ count_by (place.is_before s) entries.now }
    ensures few { result ≤ 16 }
{
    let mut count = 0;
    for i in 0..entries.len() {
        if let Entry::Scope(r) = entries.get_or(i, Entry::Scope(s)) {
            if r < s {
                count += 1;
            }
        }
    }
    count
}

/// The number of scopes of its owner that a scope is in. The owner has them in its structure list.
fn depth(change: Change<'_, '_, '_>, s: u32) -> usize
    requires { s < length change.world.now.scopes }
    ensures value { result ≡ place.depth change.entry.world.now s }
    ensures few { result ≤ 16 }
{
    let records = change.world.records();
    let owner = records.owner(s);
    if records.lives(owner) {
        scopes_before(&records.frame(owner).entries, s)
    } else {
        0
    }
}

/// The height of a scope's bracket.
fn height_of(change: Change<'_, '_, '_>, s: u32) -> u64
    requires { s < length change.world.now.scopes }
    ensures { result ≡ place.bracket change.entry.world.now s }
{
    bracket(change.world.records().owner(s), depth(change, s))
}

/// The place of a scope, as its line has it.
fn place_words(out: &mut String, change: Change<'_, '_, '_>, s: u32) -> Said
    ensures { OnOk result (string_bytes out.new ≡ string_bytes out.old
        ++ lines.scope_place s (model.scope_at change.entry.world.now s)) }
{
    scope_place(out, change.world.records(), s)
}

/// A mark of a scope, described by the scope's place and this word, if it is to be shown.
fn mark_if(
    out: &mut String,
    is_shown: bool,
    mark: Mark,
    change: Change<'_, '_, '_>,
    s: u32,
    word: &str,
) -> Said
    requires { s < length change.world.now.scopes }
    ensures { OnOk result (string_bytes out.new ≡ string_bytes out.old
        ++ def.mark_if is_shown mark change.entry.world.now change.entry.x s word.now) }
{
    if !is_shown {
        return Ok(());
    }
    mark_start(out, mark, change.x, height_of(change, s))?;
    place_words(out, change, s)?;
    write!(out, " {word}")?;
    mark_end(out)
}

/// The scope's number, at the place of its opening.
fn scope_number(out: &mut String, change: Change<'_, '_, '_>, s: u32) -> Said
    requires { s < length change.world.now.scopes }
    ensures { OnOk result (string_bytes out.new ≡ string_bytes out.old
        ++ def.scope_number change.entry.world.now change.entry.x s) }
{
    text_start(out, "label", change.x + 4, height_of(change, s) + 3)?;
    write!(out, "{s}")?;
    text_end(out)
}

fn line_mark(phase: Phase) -> Mark
    ensures { result ≡ def.line_mark phase }
{
    match phase {
        Phase::Closing => Mark::Closing,
        Phase::Opened | Phase::Attempted | Phase::Joined | Phase::Closed => Mark::Bracket,
    }
}

/// A scope that isn't closed: its number in its first column, a line in each later one.
fn span(out: &mut String, change: Change<'_, '_, '_>, s: u32) -> Said
    requires { s < length change.world.now.scopes }
    ensures { OnOk result (string_bytes out.new ≡ string_bytes out.old
        ++ def.span change.entry.before.now change.entry.world.now change.entry.x s) }
{
    let phase = change.world.records().phase(s);
    if phase.is_closed() {
        return Ok(());
    }
    if change.before.records().phase(s).is_closed() {
        return scope_number(out, change, s);
    }
    mark_if(out, true, line_mark(phase), change, s, phase_word(phase))
}

fn same_phase(before: Phase, now: Phase) -> bool
    ensures { result ≡ def.same_phase before now }
{
    before == now
}

/// Is its phase another one than in the column before?
fn has_moved(change: Change<'_, '_, '_>, s: u32) -> bool
    ensures { result ≡ def.has_moved change.entry.before.now change.entry.world.now s }
{
    let before = change.before.records().phase(s);
    !same_phase(before, change.world.records().phase(s))
}

/// Was its time up since the column before?
fn has_expired(change: Change<'_, '_, '_>, s: u32) -> bool
    ensures { result ≡ def.has_expired change.entry.before.now change.entry.world.now s }
{
    change.world.records().is_expired(s) && !change.before.records().is_expired(s)
}

/// Was it cancelled since the column before?
fn was_cancelled(change: Change<'_, '_, '_>, s: u32) -> bool
    ensures { result ≡ def.was_cancelled change.entry.before.now change.entry.world.now s }
{
    change.world.records().is_cancelled(s) && !change.before.records().is_cancelled(s)
}

/// The mark of a cancel, by the scope's phase after it.
fn cancel_mark(phase: Phase) -> Mark
    ensures { result ≡ def.cancel_mark phase }
{
    if phase.is_closed() {
        Mark::QuietCancel
    } else {
        Mark::Cancelled
    }
}

/// The mark for a cancel, if it was cancelled since the column before.
fn cancel_edge(out: &mut String, change: Change<'_, '_, '_>, s: u32) -> Said
    requires { s < length change.world.now.scopes }
    ensures { OnOk result (string_bytes out.new ≡ string_bytes out.old
        ++ def.cancel_edge change.entry.before.now change.entry.world.now change.entry.x s) }
{
    if !was_cancelled(change, s) {
        return Ok(());
    }
    let phase = change.world.records().phase(s);
    mark_if(out, true, cancel_mark(phase), change, s, "cancelled")
}

/// The mark for a change of its phase, if it changed since the column before.
fn phase_edge(out: &mut String, change: Change<'_, '_, '_>, s: u32) -> Said
    requires { s < length change.world.now.scopes }
    ensures { OnOk result (string_bytes out.new ≡ string_bytes out.old
        ++ def.phase_edge change.entry.before.now change.entry.world.now change.entry.x s) }
{
    let phase = change.world.records().phase(s);
    let has_moved = has_moved(change, s);
    mark_if(out, has_moved, Mark::Edge, change, s, phase_word(phase))
}

/// The mark for an expiry, if its time was up since the column before.
fn expiry_edge(out: &mut String, change: Change<'_, '_, '_>, s: u32) -> Said
    requires { s < length change.world.now.scopes }
    ensures { OnOk result (string_bytes out.new ≡ string_bytes out.old
        ++ def.expiry_edge change.entry.before.now change.entry.world.now change.entry.x s) }
{
    let has_expired = has_expired(change, s);
    mark_if(out, has_expired, Mark::Expired, change, s, "expired")
}

/// The marks for a change of its phase, for an expiry and for a cancel.
fn edges(out: &mut String, change: Change<'_, '_, '_>, s: u32) -> Said
    requires { s < length change.world.now.scopes }
    ensures { OnOk result (string_bytes out.new ≡ string_bytes out.old
        ++ def.edges change.entry.before.now change.entry.world.now change.entry.x s) }
{
    phase_edge(out, change, s)?;
    expiry_edge(out, change, s)?;
    cancel_edge(out, change, s)
}

fn scope_cell(out: &mut String, change: Change<'_, '_, '_>, s: u32) -> Said
    requires { s < length change.world.now.scopes }
    ensures { OnOk result (string_bytes out.new ≡ string_bytes out.old
        ++ def.scope_cell change.entry.before.now change.entry.world.now change.entry.x s) }
{
    let phase = change.world.records().phase(s);
    if change.before.records().phase(s).is_closed() && phase.is_closed() {
        return Ok(());
    }
    span(out, change, s)?;
    edges(out, change, s)
}

/// The cells of all scopes that were ever born. Only those that the column can show have any.
///
/// # Errors
///
/// Memory ran out; `out` may then have a part of it.
pub fn scope_cells(out: &mut String, change: Change<'_, '_, '_>) -> Said
    ensures { OnOk result (string_bytes out.new ≡ string_bytes out.old
        ++ def.scope_cells change.entry.before.now change.entry.world.now change.entry.x
        change.entry.world.now.scopes 0) }
{
    let scopes = change.present.scopes();
    for s in scopes {
        scope_cell(out, change, *s)?;
    }
    Ok(())
}
