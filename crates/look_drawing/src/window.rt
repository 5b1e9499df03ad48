//! Which events of a trace a picture shows.

ghost use Rattle.std.specs.Prelude.{◌≡◌, ◌≤◌, ◌++◌, OnOk};
ghost use Rattle.std.specs.String.{string_bytes};
ghost use Rattle.look_drawing.specs.Windows as def;

use look_lines::Said;
use look_options::Window;
use std::cmp;
use std::fmt::Write;

/// The most events that a picture shows if none are asked for.
pub const MOST_COLUMNS: usize = 2_000;

/// The events that a picture shows: those after number `before`, up to number `last`, if there are
/// `all` in the trace.
#[derive(Clone, Copy)]
pub struct Drawn {
    pub before: usize,
    pub last: usize,
    pub all: usize,
}

/// Those of a window that are in a trace, or the last ones if no window is given.
pub fn shown_events(window: Option<Window>, events: usize) -> Drawn
    ensures value { result ≡ def.shown_events window events }
    ensures ordered { result.before ≤ result.last }
    ensures inside { result.last ≤ events }
{
    match window {
        None => Drawn {
            before: events.saturating_sub(MOST_COLUMNS),
            last: events,
            all: events,
        },
        Some(window) => {
            let last = cmp::min(window.last as usize, events);
            Drawn {
                before: cmp::min((window.first as usize).saturating_sub(1), last),
                last,
                all: events,
            }
        }
    }
}

/// Says that one event is left out.
fn one_left_out(out: &mut String, n: usize) -> Said
    ensures { OnOk result (string_bytes out.new
        ≡ string_bytes out.old ++ def.one_left_out n) }
{
    writeln!(out, " (event {n} left out)")
}

/// Says that the events from one number to another are left out.
fn some_left_out(out: &mut String, first: usize, last: usize) -> Said
    ensures { OnOk result (string_bytes out.new
        ≡ string_bytes out.old ++ def.some_left_out first last) }
{
    writeln!(out, " (events {first} to {last} left out)")
}

fn left_out_words(out: &mut String, first: usize, last: usize) -> Said
    ensures { OnOk result (string_bytes out.new
        ≡ string_bytes out.old ++ def.left_out_words first last) }
{
    if first == last {
        one_left_out(out, first)
    } else {
        some_left_out(out, first, last)
    }
}

/// Says that the first events are left out.
fn earlier_words(out: &mut String, before: usize) -> Said
    ensures { OnOk result (string_bytes out.new
        ≡ string_bytes out.old ++ def.earlier_words before) }
{
    if before == 0 {
        return Ok(());
    }
    left_out_words(out, 1, before)
}

/// Says that the events after this one are left out.
fn later_words(out: &mut String, last: usize, all: usize) -> Said
    requires { last ≤ all }
    ensures { OnOk result (string_bytes out.new
        ≡ string_bytes out.old ++ def.later_words last all) }
{
    if last == all {
        return Ok(());
    }
    left_out_words(out, last + 1, all)
}

/// Says which events are left out, if any are.
///
/// # Errors
///
/// Memory ran out; `out` may then have a part of it.
pub fn left_out(out: &mut String, drawn: Drawn) -> Said
    requires { drawn.last ≤ drawn.all }
    ensures { OnOk result (string_bytes out.new ≡ string_bytes out.old ++ def.left_out drawn) }
{
    earlier_words(out, drawn.before)?;
    later_words(out, drawn.last, drawn.all)
}
