//! The positions of a picture's columns, lanes and brackets, in pixels.

ghost use Rattle.std.specs.Prelude.{◌≡◌, ◌<◌, ◌≤◌, ◌^◌};
ghost use Rattle.sts_code.specs.declared.limits.TheConstants.{MAX_BIRTHS};
ghost use Rattle.look_drawing.specs.Place as def;
ghost use Rattle.look_drawing.specs.declared.legend.TheConstants.{MOST_KEYS};

use std::cmp;

/// The middle of the n-th column. Column 0 is before the first event.
pub fn column(brief: bool, n: usize) -> u128
    ensures value { result ≡ def.column brief n }
    ensures small { result < 2 ^ 127 }
{
    if brief {
        208 + 16 * n as u128
    } else {
        208 + 24 * n as u128
    }
}

/// The width of these many columns and of the one before them.
pub fn columns_width(brief: bool, n: usize) -> u128
    ensures { result ≡ def.columns_width brief n }
{
    if brief {
        16 * n as u128 + 16
    } else {
        24 * n as u128 + 24
    }
}

/// The height of the middle of the number over the n-th column. In a brief picture it is lower and
/// higher by turns.
pub fn number_line(brief: bool, n: usize) -> u64
    ensures value { result ≡ def.number_line brief n }
    ensures small { result ≤ 40 }
{
    if brief && n % 2 == 1 { 30 } else { 40 }
}

/// The middle of a task's lane.
pub fn lane(t: u32) -> u64
    ensures { result ≡ def.lane t }
{
    72 + 52 * u64::from(t)
}

/// The height of the flash for an interrupt, over a task's lane.
pub fn over_lane(t: u32) -> u64
    ensures { result ≡ def.over_lane t }
{
    59 + 52 * u64::from(t)
}

/// The height of the word for a step, over a task's lane.
pub fn word_line(t: u32) -> u64
    ensures { result ≡ def.word_line t }
{
    64 + 52 * u64::from(t)
}

/// The bracket of a scope of this task, by the number of the task's scopes that it is in.
pub fn bracket(owner: u32, depth: usize) -> u64
    ensures { result ≡ def.bracket_at owner depth }
{
    lane(owner) + 14 + 9 * cmp::min(depth, 2) as u64
}

/// The width of a picture of `columns` columns, with a heading of `letters` letters.
pub fn width(brief: bool, columns: usize, letters: usize) -> u128
    ensures { result ≡ def.width brief columns letters }
{
    cmp::max(
        column(brief, columns) + 168,
        cmp::max(480, 24 + 9 * letters as u128),
    )
}

/// The place of a key of the legend, by its number, from the legend's left.
pub fn key_x(n: usize) -> u128
    ensures { result ≡ def.key_x n }
{
    232 * (n % 2) as u128
}

/// The height of a key of the legend, by its number, from the legend's top.
pub fn key_y(n: usize) -> u64
    requires { n ≤ MOST_KEYS }
    ensures { result ≡ def.key_y n }
{
    20 * (n / 2) as u64
}

/// The height of a picture of `tasks` tasks with this many keys in its legend.
pub fn height(tasks: usize, keys: usize) -> u64
    requires tasks { tasks ≤ MAX_BIRTHS }
    requires keys { keys ≤ MOST_KEYS }
    ensures { result ≡ def.height tasks keys }
{
    lane(tasks as u32) + 20 * ((keys + 1) / 2) as u64
}
