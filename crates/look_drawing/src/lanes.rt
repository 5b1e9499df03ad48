//! The tasks in a column.

ghost use Rattle.std.specs.Prelude.{◌≡◌, ◌++◌, ◌<◌, OnOk, length};
ghost use Rattle.std.specs.String.{string_bytes};
ghost use Rattle.look_drawing.specs.Lanes as def;

use crate::change::Change;
use crate::marks::Mark;
use crate::place::{lane, over_lane};
use crate::writing::{VALUE_ROOM, fitted_text, mark_end, mark_start};
use look_lines::{Said, is_heard, stand_words};
use look_names::say_value;
use std::alloc::Global;
use std::fmt::Write;
use sts_model::End;
use sts_plain::can_step;
use sts_world::Records;

/// The line of a task that lives.
fn life_mark(is_ready: bool) -> Mark
    ensures { result ≡ def.life_mark is_ready }
{
    if is_ready { Mark::Ready } else { Mark::Waits }
}

/// The mark of a task that doesn't live.
fn rest_mark(is_heard: bool, end: Option<End>) -> Mark
    ensures { result ≡ def.rest_mark is_heard end }
{
    match end {
        None => Mark::NeverStarted,
        Some(End::Success(_)) if is_heard => Mark::Success,
        Some(End::Failed(_)) if is_heard => Mark::Failed,
        Some(_) => Mark::Unheard,
    }
}

/// Was it born, and does it not live?
fn rests(records: &Records, t: u32) -> bool
    ensures { result ≡ def.rests records.now t }
{
    (t as usize) < records.tasks_born() && !records.lives(t)
}

/// `task T`, and its state.
fn told(out: &mut String, change: Change<'_, '_, '_>, t: u32) -> Said
    requires { t < length change.world.now.tasks }
    ensures { OnOk result (string_bytes out.new
        ≡ string_bytes out.old ++ def.told change.entry.program.now change.entry.world.now t) }
{
    write!(out, "task {t}")?;
    stand_words(out, change.program, change.world, t)
}

/// A value or a code next to the mark of an end.
fn named_value(
    alloc: Global,
    out: &mut String,
    change: Change<'_, '_, '_>,
    t: u32,
    value: i64,
) -> Said
    ensures { OnOk result (string_bytes out.new
        ≡ string_bytes out.old ++ def.named_value change.entry.names.now change.entry.x t value) }
{
    let mut words = Vec::new(alloc);
    say_value(alloc, &mut words, change.names, value)?;
    let (x, y) = (change.x + 22, lane(t) + 4);
    fitted_text(out, "value", x, y, words.as_slice(), VALUE_ROOM)
}

/// The value or the code that a task ended with, next to the mark.
fn value_text(
    alloc: Global,
    out: &mut String,
    change: Change<'_, '_, '_>,
    t: u32,
    end: Option<End>,
) -> Said
    ensures { OnOk result (string_bytes out.new
        ≡ string_bytes out.old ++ def.value_text change.entry.names.now change.entry.x t end) }
{
    match end {
        None => Ok(()),
        Some(End::Success(value) | End::Failed(value)) => {
            named_value(alloc, out, change, t, value)
        }
    }
}

/// A mark of a task, described by its state.
fn task_mark(out: &mut String, change: Change<'_, '_, '_>, t: u32, mark: Mark) -> Said
    requires { t < length change.world.now.tasks }
    ensures { OnOk result (string_bytes out.new ≡ string_bytes out.old
        ++ def.task_mark change.entry.program.now change.entry.world.now change.entry.x t mark) }
{
    mark_start(out, mark, change.x, lane(t))?;
    told(out, change, t)?;
    mark_end(out)
}

/// A task that lives.
fn life(out: &mut String, change: Change<'_, '_, '_>, t: u32) -> Said
    requires { t < length change.world.now.tasks }
    ensures { OnOk result (string_bytes out.new ≡ string_bytes out.old
        ++ def.life change.entry.program.now change.entry.world.now change.entry.x t) }
{
    let mark = life_mark(can_step(change.world, change.program, t));
    task_mark(out, change, t, mark)
}

/// A task that doesn't live.
fn rest(alloc: Global, out: &mut String, change: Change<'_, '_, '_>, t: u32) -> Said
    requires { t < length change.world.now.tasks }
    ensures { OnOk result (string_bytes out.new ≡ string_bytes out.old
        ++ def.rest change.entry.names.now change.entry.program.now change.entry.world.now
        change.entry.x t) }
{
    let end = change.world.records().outcome(t);
    let mark = rest_mark(is_heard(change.world, t), end);
    task_mark(out, change, t, mark)?;
    value_text(alloc, out, change, t, end)
}

/// A task that lives in this column, or that lived or wasn't born in the column before.
fn stand(alloc: Global, out: &mut String, change: Change<'_, '_, '_>, t: u32) -> Said
    requires { t < length change.world.now.tasks }
    ensures { OnOk result (string_bytes out.new ≡ string_bytes out.old
        ++ def.stand change.entry.names.now change.entry.program.now change.entry.before.now
        change.entry.world.now change.entry.x t) }
{
    if change.world.records().lives(t) {
        return life(out, change, t);
    }
    if rests(change.before.records(), t) {
        return Ok(());
    }
    rest(alloc, out, change, t)
}

/// A line from one height to another.
fn fork_path(out: &mut String, x: u128, from: u64, to: u64) -> Said
    ensures { OnOk result (string_bytes out.new ≡ string_bytes out.old ++ def.fork_path x from to) }
{
    writeln!(out, "<path class='fork' d='M{x} {from}V{to}'/>")
}

/// The line of a fork, from the lane of the scope's owner to that of the task.
fn fork_line(out: &mut String, records: &Records, x: u128, t: u32, scope: Option<u32>) -> Said
    ensures { OnOk result (string_bytes out.new
        ≡ string_bytes out.old ++ def.fork_line records.now x t scope) }
{
    match scope {
        None => Ok(()),
        Some(s) => fork_path(out, x, lane(records.owner(s)), lane(t)),
    }
}

/// The fork of a task that wasn't born in the column before.
fn birth(out: &mut String, change: Change<'_, '_, '_>, t: u32) -> Said
    ensures { OnOk result (string_bytes out.new ≡ string_bytes out.old
        ++ def.birth change.entry.before.now change.entry.world.now change.entry.x t) }
{
    if (t as usize) < change.before.records().tasks_born() {
        return Ok(());
    }
    let records = change.world.records();
    fork_line(out, records, change.x, t, records.parent(t))
}

/// An interrupt flag that wasn't set in the column before.
fn interrupted(out: &mut String, change: Change<'_, '_, '_>, t: u32) -> Said
    ensures { OnOk result (string_bytes out.new ≡ string_bytes out.old
        ++ def.interrupted change.entry.before.now change.entry.world.now change.entry.x t) }
{
    if !change.world.records().flag(t) || change.before.records().flag(t) {
        return Ok(());
    }
    mark_start(out, Mark::Interrupted, change.x, over_lane(t))?;
    write!(out, "task {t} interrupted")?;
    mark_end(out)
}

fn task_cell(alloc: Global, out: &mut String, change: Change<'_, '_, '_>, t: u32) -> Said
    requires { t < length change.world.now.tasks }
    ensures { OnOk result (string_bytes out.new ≡ string_bytes out.old
        ++ def.task_cell change.entry.names.now change.entry.program.now change.entry.before.now
        change.entry.world.now change.entry.x t) }
{
    birth(out, change, t)?;
    stand(alloc, out, change, t)?;
    interrupted(out, change, t)
}

/// The cells of all tasks that were ever born. Only those that the column can show have any.
///
/// # Errors
///
/// Memory ran out; `out` may then have a part of it.
pub fn task_cells(alloc: Global, out: &mut String, change: Change<'_, '_, '_>) -> Said
    ensures { OnOk result (string_bytes out.new ≡ string_bytes out.old
        ++ def.task_cells change.entry.names.now change.entry.program.now change.entry.before.now
        change.entry.world.now change.entry.x change.entry.world.now.tasks 0) }
{
    let tasks = change.present.tasks();
    for t in tasks {
        task_cell(alloc, out, change, *t)?;
    }
    Ok(())
}
