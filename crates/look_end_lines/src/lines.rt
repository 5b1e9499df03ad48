//! The lines of ends.

ghost use Rattle.std.specs.Prelude.{◌≡◌, ◌++◌, OnOk};
ghost use Rattle.look_end_lines.specs.Lines as def;

use crate::answer::At;
use ends_plain::config::Found;
use look_run::Told;
use look_text::{Said, say, say_number};
use std::alloc::Global;

/// `K after N events`
pub(crate) fn say_head(alloc: Global, out: &mut Vec<u8>, place: usize, events: usize) -> Said
    ensures { OnOk result (out.new.items ≡ out.old.items ++ def.head_words place events) }
{
    say_number(alloc, out, "", place as u128 + 1)?;
    say_number(alloc, out, " after ", events as u128)?;
    say(out, " events")
}

/// Appends `K after N events: END`.
///
/// # Errors
///
/// Memory was refused; a part of the line may then be in `out`.
pub fn say_found(alloc: Global, out: &mut Vec<u8>, at: At<'_, '_>, one: &Found) -> Said
    ensures { OnOk result (out.new.items ≡ out.old.items ++ def.found_line
        at.entry.told.names.now at.entry.told.program.now at.entry.place one.now) }
{
    say_head(alloc, out, at.place, one.trace.len())?;
    say(out, ": ")?;
    at.told.say_state(alloc, out, one.end)
}

/// The lines of the ends, numbered from 1.
///
/// # Errors
///
/// Memory was refused; a part of them may then be in `out`.
pub(crate) fn say_all(alloc: Global, out: &mut Vec<u8>, told: Told<'_, '_>, found: &[Found]) -> Said
    ensures { OnOk result (out.new.items ≡ out.old.items
        ++ def.found_lines told.entry.names.now told.entry.program.now found.now 0) }
{
    for k in 0..found.len() {
        say_found(alloc, out, At { told, place: k }, &found[k])?;
    }
    Ok(())
}

/// `, in T of S schedules: `
fn say_share(alloc: Global, out: &mut Vec<u8>, times: u64, schedules: u32) -> Said
    ensures { OnOk result (out.new.items ≡ out.old.items ++ def.share_words times schedules) }
{
    say_number(alloc, out, ", in ", times as u128)?;
    say_number(alloc, out, " of ", schedules as u128)?;
    say(out, " schedules: ")
}

/// `K after N events, in T of S schedules: END`
fn say_sampled(
    alloc: Global,
    out: &mut Vec<u8>,
    at: At<'_, '_>,
    one: &Found,
    times: u64,
    schedules: u32,
) -> Said
    ensures { OnOk result (out.new.items ≡ out.old.items ++ def.sampled_line
        at.entry.told.names.now at.entry.told.program.now at.entry.place one.now times
        schedules) }
{
    say_head(alloc, out, at.place, one.trace.len())?;
    say_share(alloc, out, times, schedules)?;
    at.told.say_state(alloc, out, one.end)
}

/// How often the end at a place came.
pub fn times_at(times: &[u64], place: usize) -> u64
    ensures { result ≡ def.times_at times.now place }
{
    match times.get(place) {
        None => 0,
        Some(n) => *n,
    }
}

/// The lines of the ends of random schedules, with how often each came.
///
/// # Errors
///
/// Memory was refused; a part of them may then be in `out`.
pub(crate) fn say_shares(
    alloc: Global,
    out: &mut Vec<u8>,
    told: Told<'_, '_>,
    found: &[Found],
    times: &[u64],
    schedules: u32,
) -> Said
    ensures { OnOk result (out.new.items ≡ out.old.items
        ++ def.sampled_lines told.entry.names.now told.entry.program.now found.now times.now
        schedules 0) }
{
    for k in 0..found.len() {
        let at = At { told, place: k };
        say_sampled(alloc, out, at, &found[k], times_at(times, k), schedules)?;
    }
    Ok(())
}
