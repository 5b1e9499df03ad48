//! The column of an event.

ghost use Rattle.std.specs.Prelude.{◌≡◌, ◌++◌, ◌<◌, ◌-◌, ◌^◌, IfOk, OnOk};
ghost use Rattle.std.specs.String.{string_bytes};
ghost use Rattle.sts_plain.specs.Seen.{shown};
ghost use Rattle.look_drawing.specs.Column as def;
ghost use Rattle.look_drawing.specs.Present as numbers;
ghost use Rattle.look_drawing.specs.Present.{AreHeld, Follows};

use crate::brackets::scope_cells;
use crate::change::Change;
use crate::lanes::task_cells;
use crate::marks::Mark;
use crate::numbers::event_number;
use crate::place::{column, lane};
use crate::present::Present;
use crate::words::{next_word, step_word};
use crate::writing::{mark_at, mark_end, mark_start};
use look_lines::{Applied, Said, Watch};
use look_names::Names;
use std::alloc::{AllocError, Global};
use sts_model::Event;
use sts_output::state_line;
use sts_plain::PlainState;

/// All cells of a world in a column, with the changes since the column before.
fn cells(alloc: Global, out: &mut String, change: Change<'_, '_, '_>) -> Said
    ensures { OnOk result (string_bytes out.new ≡ string_bytes out.old
        ++ def.cells change.entry.names.now change.entry.program.now change.entry.before.now
        change.entry.world.now change.entry.x) }
{
    task_cells(alloc, out, change)?;
    scope_cells(out, change)
}

/// A step of this task that was a fault.
fn fault_mark(out: &mut String, watch: &Watch<'_>, x: u128, t: u32) -> Said
    ensures { OnOk result (string_bytes out.new
        ≡ string_bytes out.old ++ def.fault_mark watch.now x t) }
{
    mark_start(out, Mark::Fault, x, lane(t))?;
    state_line(out, watch.program(), watch.state())?;
    mark_end(out)
}

/// A machine before an event and after it, and what the event's column can show.
#[derive(Clone, Copy)]
pub struct Seen<'s, 'p> {
    pub before: &'s Watch<'p>,
    pub watch: &'s Watch<'p>,
    pub present: &'s Present,
    pub ghost follows: { Follows before.now.last watch.now.last },
    pub ghost held: { AreHeld watch.now.last },
    pub ghost listed: { present.now ≡ numbers.shown before.now.last watch.now.last },
}

/// The cells of a column; after a fault only the fault, in its own column.
fn standing(
    alloc: Global,
    out: &mut String,
    names: &Names<'_>,
    seen: Seen<'_, '_>,
    x: u128,
    is_counted: bool,
) -> Said
    requires { x < 2 ^ 127 }
    ensures { OnOk result (string_bytes out.new ≡ string_bytes out.old
        ++ def.standing names.now seen.entry.before.now seen.entry.watch.now x is_counted
        (shown seen.entry.watch.now.state)) }
{
    match seen.watch.state() {
        PlainState::Fault { task, .. } if is_counted => fault_mark(out, seen.watch, x, task),
        PlainState::Fault { .. } => Ok(()),
        PlainState::Running | PlainState::Ended(_) => {
            let change = Change {
                names,
                program: seen.watch.program(),
                before: seen.before.world(),
                world: seen.watch.world(),
                x,
                present: seen.present,
            };
            cells(alloc, out, change)
        }
    }
}

/// The dot of a step in its task's lane, with these words.
fn step_dot(out: &mut String, words: &str, x: u128, t: u32) -> Said
    ensures { OnOk result (string_bytes out.new
        ≡ string_bytes out.old ++ def.step_dot words.now x t) }
{
    mark_at(out, Mark::Step, x, lane(t), words)
}

/// The dot of a step in its task's lane, with these words, and the word of its instruction.
#[tactic(auto, unfolding(crate::specs::Column::step_mark))]
fn step_mark(out: &mut String, words: &str, seen: Seen<'_, '_>, x: u128, t: u32) -> Said
    ensures { OnOk result (string_bytes out.new ≡ string_bytes out.old
        ++ def.step_mark words.now seen.entry.before.now x t) }
{
    let before = seen.before;
    let word = next_word(before.program(), before.world().records(), t);
    step_dot(out, words, x, t)?;
    step_word(out, x, t, word)
}

/// How columns are drawn: with the names of this text, and in brief or not.
#[derive(Clone, Copy)]
pub struct Manner<'n, 't> {
    pub names: &'n Names<'t>,
    pub brief: bool,
}

/// An event that was applied, its words, and what is seen of it. Without words it has no column.
#[derive(Clone, Copy)]
pub struct Worded<'w, 's, 'p> {
    pub words: &'w str,
    pub applied: Applied,
    pub seen: Seen<'s, 'p>,
}

/// A step that counts, in its task's lane.
fn stepped(out: &mut String, worded: Worded<'_, '_, '_>, x: u128) -> Said
    ensures { OnOk result (string_bytes out.new ≡ string_bytes out.old
        ++ def.stepped worded.entry.words.now worded.entry.seen.before.now x
        worded.entry.applied.event worded.entry.applied.is_counted) }
{
    let applied = worded.applied;
    match applied.event {
        Event::Step(t) if applied.is_counted => step_mark(out, worded.words, worded.seen, x, t),
        Event::Step(_) | Event::Interrupt(_) | Event::Expire(_) => Ok(()),
    }
}

/// An event in a column.
fn event_column(
    alloc: Global,
    out: &mut String,
    manner: Manner<'_, '_>,
    worded: Worded<'_, '_, '_>,
    at: usize,
) -> Said
    ensures { OnOk result (string_bytes out.new ≡ string_bytes out.old
        ++ def.event_column manner.entry.names.now worded.entry.words.now
        worded.entry.seen.before.now worded.entry.seen.watch.now manner.entry.brief at
        worded.entry.applied) }
{
    let is_counted = worded.applied.is_counted;
    let x = column(manner.brief, at);
    event_number(alloc, out, worded.words, manner.brief, at, worded.applied)?;
    standing(alloc, out, manner.names, worded.seen, x, is_counted)?;
    stepped(out, worded, x)
}

/// Draws an event after this many columns, unless it has no words. Returns the number of columns
/// then.
///
/// # Errors
///
/// Memory ran out; `out` may then have a part of it.
pub fn maybe_column(
    alloc: Global,
    out: &mut String,
    manner: Manner<'_, '_>,
    worded: Worded<'_, '_, '_>,
    columns: usize,
) -> Result<usize, AllocError>
    requires { columns < 2 ^ 64 - 1 }
    ensures counted { IfOk result (λ n. n ≡ def.one_more worded.entry.words.now columns) }
    ensures drawn { OnOk result (string_bytes out.new ≡ string_bytes out.old
        ++ def.maybe_column manner.entry.names.now worded.entry.words.now
        worded.entry.seen.before.now worded.entry.seen.watch.now manner.entry.brief columns
        worded.entry.applied) }
{
    if worded.words.len() == 0 {
        return Ok(columns);
    }
    event_column(alloc, out, manner, worded, columns + 1)?;
    Ok(columns + 1)
}

/// The column before the first event that has one; nothing changed there.
///
/// # Errors
///
/// Memory ran out; `out` may then have a part of it.
pub fn first_column(
    alloc: Global,
    out: &mut String,
    names: &Names<'_>,
    watch: &Watch<'_>,
    present: &Present,
) -> Said
    requires held { AreHeld watch.now.last }
    requires listed { present.now ≡ numbers.present watch.now.last }
    ensures { OnOk result (string_bytes out.new
        ≡ string_bytes out.old ++ def.first_column names.now watch.now) }
{
    let seen = Seen {
        before: watch,
        watch,
        present,
    };
    standing(alloc, out, names, seen, column(false, 0), false)
}
