//! The elements of a picture, and the escapes of their words.

ghost use Rattle.std.specs.Prelude.{◌≡◌, ◌++◌, ◌<◌, IfOk, OnOk};
ghost use Rattle.std.specs.String.{string_bytes};
ghost use Rattle.look_drawing.specs.Writing as def;

use crate::marks::Mark;
use look_lines::Said;
use std::alloc::{AllocError, Global};
use std::cmp;
use std::fmt::Write;

/// A mark at a point, up to the words that describe it.
#[tactic(auto, unfolding(crate::specs::Writing::mark_start))]
pub(crate) fn mark_start(out: &mut String, mark: Mark, x: u128, y: u64) -> Said
    ensures { OnOk result (string_bytes out.new
        ≡ string_bytes out.old ++ def.mark_start mark x y) }
{
    let begins = mark.begins();
    let shape = mark.shape();
    write!(out, "{begins} d='M{x} {y}{shape}'><title>")
}

pub(crate) fn mark_end(out: &mut String) -> Said
    ensures { OnOk result (string_bytes out.new ≡ string_bytes out.old ++ def.mark_end) }
{
    writeln!(out, "</title></path>")
}

/// A mark at a point, described by these words.
pub(crate) fn mark_at(out: &mut String, mark: Mark, x: u128, y: u64, words: &str) -> Said
    ensures { OnOk result (string_bytes out.new
        ≡ string_bytes out.old ++ def.mark_at mark x y words.now) }
{
    mark_start(out, mark, x, y)?;
    out.push_str(words)?;
    mark_end(out)
}

/// A text of a class begins at a point.
///
/// # Errors
///
/// Memory ran out; `out` may then have a part of it.
#[tactic(auto, unfolding(crate::specs::Writing::text_start))]
pub fn text_start(out: &mut String, class: &str, x: u128, y: u64) -> Said
    ensures { OnOk result (string_bytes out.new
        ≡ string_bytes out.old ++ def.text_start class.now x y) }
{
    write!(out, "<text class='{class}' x='{x}' y='{y}'>")
}

/// The end of a text.
///
/// # Errors
///
/// Memory ran out; `out` may then have a part of it.
pub fn text_end(out: &mut String) -> Said
    ensures { OnOk result (string_bytes out.new ≡ string_bytes out.old ++ def.text_end) }
{
    writeln!(out, "</text>")
}

/// These words as a text of a class at a point.
pub(crate) fn text_at(out: &mut String, class: &str, x: u128, y: u64, words: &str) -> Said
    ensures { OnOk result (string_bytes out.new
        ≡ string_bytes out.old ++ def.text_at class.now x y words.now) }
{
    text_start(out, class, x, y)?;
    out.push_str(words)?;
    text_end(out)
}

/// A character of a text, or its escape.
fn escape_char(out: &mut String, c: char) -> Said
    ensures { OnOk result (string_bytes out.new ≡ string_bytes out.old ++ def.escaped_char c) }
{
    if c == '<' {
        out.push_str("&lt;")
    } else if c == '>' {
        out.push_str("&gt;")
    } else if c == '&' {
        out.push_str("&amp;")
    } else {
        out.push(c)
    }
}

/// Any text, with the escapes that XML needs.
///
/// # Errors
///
/// Memory ran out; `out` may then have a part of it.
pub fn escape_words(out: &mut String, text: &str) -> Said
    ensures { OnOk result (string_bytes out.new
        ≡ string_bytes out.old ++ def.escaped_words text.now) }
{
    for c in text.chars() {
        escape_char(out, c)?;
    }
    Ok(())
}

/// A text of one byte for each character, with the escapes that XML needs.
pub(crate) fn escape(out: &mut String, text: &[u8]) -> Said
    ensures { OnOk result (string_bytes out.new ≡ string_bytes out.old ++ def.escaped text.now) }
{
    for byte in text {
        escape_char(out, *byte as char)?;
    }
    Ok(())
}

/// A line of such a text.
///
/// # Errors
///
/// Memory ran out; `out` may then have a part of it.
pub fn escaped_line(out: &mut String, text: &[u8]) -> Said
    ensures { OnOk result (string_bytes out.new
        ≡ string_bytes out.old ++ def.escaped_line text.now) }
{
    escape(out, text)?;
    writeln!(out)
}

/// Such a text as a string.
///
/// # Errors
///
/// Memory ran out.
pub fn escaped(alloc: Global, text: &[u8]) -> Result<String, AllocError>
    ensures { IfOk result (λ words. string_bytes words ≡ def.escaped text.now) }
{
    let mut words = String::new(alloc);
    escape(&mut words, text)?;
    Ok(words)
}

/// Room for words: how many letters fit, if each has this size in pixels.
#[derive(Clone, Copy)]
pub struct Room {
    pub letters: u32,
    pub size: u32,
}

/// The room for a number above its column.
pub(crate) const NUMBER_ROOM: Room = Room {
    letters: 3,
    size: 10,
};

/// The room for a value to the right of the last column.
pub(crate) const VALUE_ROOM: Room = Room {
    letters: 21,
    size: 11,
};

/// The size of letters that are more than a room has: so small that they fit, but at least a pixel.
fn small(letters: usize, room: Room) -> u64
    requires { 0 < letters }
    ensures { result ≡ def.small letters room }
{
    let fitting = u64::from(room.letters) * u64::from(room.size) / letters as u64;
    cmp::max(1, fitting)
}

/// The attribute of a size of letters.
#[tactic(auto, unfolding(crate::specs::Writing::sized))]
fn say_size(out: &mut String, size: u64) -> Said
    ensures { OnOk result (string_bytes out.new ≡ string_bytes out.old ++ def.sized size) }
{
    write!(out, " style='font-size:{size}px'")
}

/// The attribute of words of more letters than their room has: they are written smaller.
fn shrink(out: &mut String, letters: usize, room: Room) -> Said
    ensures { OnOk result (string_bytes out.new
        ≡ string_bytes out.old ++ def.shrunk letters room) }
{
    if letters <= room.letters as usize {
        return Ok(());
    }
    say_size(out, small(letters, room))
}

/// A text of a class at a point, before its further attributes.
#[tactic(auto, unfolding(crate::specs::Writing::text_place))]
fn text_place(out: &mut String, class: &str, x: u128, y: u64) -> Said
    ensures { OnOk result (string_bytes out.new
        ≡ string_bytes out.old ++ def.text_place class.now x y) }
{
    write!(out, "<text class='{class}' x='{x}' y='{y}'")
}

/// A text of a class and of this many letters begins at a point, and fits into its room.
pub(crate) fn fitted_start(
    out: &mut String,
    class: &str,
    x: u128,
    y: u64,
    letters: usize,
    room: Room,
) -> Said
    ensures { OnOk result (string_bytes out.new
        ≡ string_bytes out.old ++ def.fitted_start class.now x y letters room) }
{
    text_place(out, class, x, y)?;
    shrink(out, letters, room)?;
    out.push_str(">")
}

/// Words of a class at a point, with their escapes, which fit into their room.
///
/// # Errors
///
/// Memory ran out; `out` may then have a part of it.
pub fn fitted_text(out: &mut String, class: &str, x: u128, y: u64, words: &[u8], room: Room) -> Said
    ensures { OnOk result (string_bytes out.new
        ≡ string_bytes out.old ++ def.fitted_text class.now x y words.now room) }
{
    fitted_start(out, class, x, y, words.len(), room)?;
    escape(out, words)?;
    text_end(out)
}
