//! The numbers of the events, above their columns.

ghost use Rattle.std.specs.Prelude.{◌≡◌, ◌++◌, OnOk};
ghost use Rattle.std.specs.String.{string_bytes};
ghost use Rattle.look_drawing.specs.Column as def;

use crate::marks::Mark;
use crate::place::{column, number_line};
use crate::writing::{NUMBER_ROOM, fitted_start, mark_at};
use look_lines::{Applied, Said};
use std::alloc::Global;
use std::fmt::Write;

/// The words of an event, then its number.
fn number_words(out: &mut String, words: &str, digits: &str) -> Said
    ensures { OnOk result (string_bytes out.new
        ≡ string_bytes out.old ++ def.number_words words.now digits.now) }
{
    writeln!(out, "<title>{words}</title>{digits}</text>")
}

/// The digits of an event's number above the lanes.
fn digits_text(out: &mut String, words: &str, brief: bool, at: usize, digits: &str) -> Said
    ensures { OnOk result (string_bytes out.new
        ≡ string_bytes out.old ++ def.digits_text words.now brief at digits.now) }
{
    let (x, y) = (column(brief, at), number_line(brief, at) + 4);
    fitted_start(out, "number", x, y, digits.len(), NUMBER_ROOM)?;
    number_words(out, words, digits)
}

/// The event's number above the lanes.
fn number(alloc: Global, out: &mut String, words: &str, brief: bool, at: usize, n: usize) -> Said
    ensures { OnOk result (string_bytes out.new
        ≡ string_bytes out.old ++ def.number words.now brief at n) }
{
    let digits = format!(in alloc; "{n}")?;
    digits_text(out, words, brief, at, digits.as_str())
}

/// A stroke through the number of an event that doesn't count.
fn idle_mark(out: &mut String, words: &str, brief: bool, at: usize, is_counted: bool) -> Said
    ensures { OnOk result (string_bytes out.new
        ≡ string_bytes out.old ++ def.idle_mark words.now brief at is_counted) }
{
    if is_counted {
        return Ok(());
    }
    let (x, y) = (column(brief, at), number_line(brief, at));
    mark_at(out, Mark::Idle, x, y, words)
}

/// The event's number above the lanes, with its stroke.
#[tactic(auto, unfolding(crate::specs::Column::event_number))]
pub(crate) fn event_number(
    alloc: Global,
    out: &mut String,
    words: &str,
    brief: bool,
    at: usize,
    applied: Applied,
) -> Said
    ensures { OnOk result (string_bytes out.new
        ≡ string_bytes out.old ++ def.event_number words.now brief at applied) }
{
    number(alloc, out, words, brief, at, applied.number)?;
    idle_mark(out, words, brief, at, applied.is_counted)
}
