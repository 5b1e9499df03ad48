//! What is round the columns: the size of the picture, its description and the grid.

ghost use Rattle.std.specs.Prelude.{◌≡◌, ◌++◌, ◌≤◌, OnOk};
ghost use Rattle.std.specs.String.{string_bytes};
ghost use Rattle.sts_code.specs.declared.limits.TheConstants.{MAX_BIRTHS};
ghost use Rattle.look_drawing.specs.Frame as def;
ghost use Rattle.look_drawing.specs.declared.legend.TheConstants.{MOST_KEYS};

use crate::place::{columns_width, height, width};
use crate::style::style;
use crate::writing::text_at;
use look_lines::{Said, Watch, view_lines};
use look_options::ViewOptions;
use std::fmt::Write;

/// The classes of a picture. The style draws narrower marks in a brief one.
fn classes(brief: bool) -> &'static str
    ensures { result.now ≡ def.classes brief }
{
    if brief {
        "sts-run sts-brief"
    } else {
        "sts-run"
    }
}

fn svg_start(out: &mut String, class: &str, wide: u128, high: u64) -> Said
    ensures { OnOk result (string_bytes out.new
        ≡ string_bytes out.old ++ def.svg_start class.now wide high) }
{
    write!(
        out,
        "<svg xmlns='http://www.w3.org/2000/svg' class='{class}' role='img' \
        viewBox='0 0 {wide} {high}' width='{wide}' height='{high}'>\n<title>"
    )
}

/// The size of a picture of these many columns, with a heading of these many letters and these many
/// keys.
fn sized(
    out: &mut String,
    watch: &Watch<'_>,
    brief: bool,
    columns: usize,
    letters: usize,
    keys: usize,
) -> Said
    requires { keys ≤ MOST_KEYS }
    ensures { OnOk result (string_bytes out.new
        ≡ string_bytes out.old ++ def.sized watch.now brief columns letters keys) }
{
    let tasks = watch.world().records().tasks_born();
    svg_start(
        out,
        classes(brief),
        width(brief, columns, letters),
        height(tasks, keys),
    )
}

/// The lines of all tasks and scopes.
fn standing_lines(out: &mut String, watch: &Watch<'_>) -> Said
    ensures { OnOk result (string_bytes out.new
        ≡ string_bytes out.old ++ def.standing_lines watch.now) }
{
    let wanted = ViewOptions {
        each: false,
        full: false,
        living: false,
    };
    view_lines(out, watch, wanted)
}

fn description_start(out: &mut String) -> Said
    ensures { OnOk result (string_bytes out.new ≡ string_bytes out.old ++ def.description_start) }
{
    write!(out, "</title>\n<desc>")
}

fn description_end(out: &mut String) -> Said
    ensures { OnOk result (string_bytes out.new ≡ string_bytes out.old ++ def.description_end) }
{
    writeln!(out, "</desc>")
}

/// The description for readers who don't see the picture: after the state of the run, all tasks and
/// scopes.
fn description(out: &mut String, watch: &Watch<'_>) -> Said
    ensures { OnOk result (string_bytes out.new
        ≡ string_bytes out.old ++ def.description watch.now) }
{
    description_start(out)?;
    standing_lines(out, watch)?;
    description_end(out)
}

/// The size, this heading as the title, and all tasks and scopes.
///
/// # Errors
///
/// Memory ran out; `out` may then have a part of it.
pub fn head(
    out: &mut String,
    heading: &str,
    watch: &Watch<'_>,
    brief: bool,
    columns: usize,
    keys: usize,
) -> Said
    requires { keys ≤ MOST_KEYS }
    ensures { OnOk result (string_bytes out.new
        ≡ string_bytes out.old ++ def.head heading.now watch.now brief columns keys) }
{
    sized(out, watch, brief, columns, heading.len(), keys)?;
    out.push_str(heading)?;
    description(out, watch)
}

/// The style, and the grid behind the lanes.
fn grid(out: &mut String, style: &str, wide: u128, high: usize) -> Said
    ensures { OnOk result (string_bytes out.new
        ≡ string_bytes out.old ++ def.grid style.now wide high) }
{
    writeln!(
        out,
        "{style}<rect class='ground' x='208' y='46' width='{wide}' height='{high}'/>"
    )
}

/// The style, and the grid behind these many columns and lanes.
fn grid_of(out: &mut String, brief: bool, columns: usize, tasks: usize) -> Said
    requires { tasks ≤ MAX_BIRTHS }
    ensures { OnOk result (string_bytes out.new
        ≡ string_bytes out.old ++ def.grid_of brief columns tasks) }
{
    grid(out, style(), columns_width(brief, columns), 52 * tasks)
}

/// The grid behind these many columns, and this heading above it.
///
/// # Errors
///
/// Memory ran out; `out` may then have a part of it.
pub fn backdrop(
    out: &mut String,
    heading: &str,
    watch: &Watch<'_>,
    brief: bool,
    columns: usize,
) -> Said
    ensures { OnOk result (string_bytes out.new
        ≡ string_bytes out.old ++ def.backdrop heading.now watch.now brief columns) }
{
    let tasks = watch.world().records().tasks_born();
    grid_of(out, brief, columns, tasks)?;
    text_at(out, "heading", 12, 22, heading)
}
