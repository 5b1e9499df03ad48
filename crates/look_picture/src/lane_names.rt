//! The names of the lanes.

ghost use Rattle.std.specs.Prelude.{◌≡◌, ◌++◌, OnOk};
ghost use Rattle.std.specs.String.{string_bytes};
ghost use Rattle.look_picture.specs.LaneNames as def;

use look_drawing::{Room, fitted_text, lane, text_end, text_start};
use look_lines::{Said, under_words};
use look_tell::Told;
use std::alloc::Global;
use std::fmt::Write;

/// The room for a function and its arguments to the left of the lanes.
const CALL_ROOM: Room = Room {
    letters: 31,
    size: 10,
};

/// `task T under S`
fn task_name(out: &mut String, t: u32, scope: Option<u32>) -> Said
    ensures { OnOk result (string_bytes out.new ≡ string_bytes out.old ++ def.task_name t scope) }
{
    text_start(out, "name", 196, lane(t))?;
    write!(out, "task {t} under ")?;
    under_words(out, scope)?;
    text_end(out)
}

/// The function and the arguments of a task, below the name of its lane.
fn call_name(alloc: Global, out: &mut String, told: Told<'_, '_, '_, '_>, t: u32) -> Said
    ensures { OnOk result (string_bytes out.new
        ≡ string_bytes out.old ++ def.call_name told.entry.names.now told.entry.story.now t) }
{
    let mut called = Vec::new(alloc);
    told.say_called(alloc, &mut called, t)?;
    fitted_text(out, "code", 196, lane(t) + 13, called.as_slice(), CALL_ROOM)
}

fn lane_name(alloc: Global, out: &mut String, told: Told<'_, '_, '_, '_>, t: u32) -> Said
    ensures { OnOk result (string_bytes out.new
        ≡ string_bytes out.old ++ def.lane_name told.entry.names.now told.entry.story.now t) }
{
    task_name(out, t, told.story.watch().world().records().parent(t))?;
    call_name(alloc, out, told, t)
}

/// The names of the lanes of all tasks that were ever born.
///
/// # Errors
///
/// Memory ran out; `out` may then have a part of it.
pub fn lane_names(alloc: Global, out: &mut String, told: Told<'_, '_, '_, '_>) -> Said
    ensures { OnOk result (string_bytes out.new ≡ string_bytes out.old
        ++ def.lane_names told.entry.names.now told.entry.story.now
        told.entry.story.now.watched.last.tasks 0) }
{
    let tasks = told.story.watch().world().records().tasks_born();
    for t in 0..tasks {
        lane_name(alloc, out, told, t as u32)?;
    }
    Ok(())
}
