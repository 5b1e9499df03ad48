//! The legend: the marks that a picture has, and what they mean.

ghost use Rattle.std.specs.Prelude.{◌≡◌, ◌≤◌, ◌++◌, IfOk, OnOk, length};
ghost use Rattle.std.specs.String.{string_bytes};
ghost use Rattle.sts_code.specs.declared.limits.TheConstants.{MAX_BIRTHS};
ghost use Rattle.look_drawing.specs.Legend as def;
ghost use Rattle.look_drawing.specs.Frame as frame;

use crate::marks::Mark;
use crate::place::{key_x, key_y, lane};
use crate::writing::{mark_at, text_at};
use look_lines::Said;
use memchr::memmem;
use std::alloc::{AllocError, Global};
use std::fmt::Write;

/// The most keys that a legend has: one for each mark.
pub const MOST_KEYS: usize = 17;

/// All marks, in the order of the legend.
const MARKS: &[Mark] = &[
    Mark::Ready,
    Mark::Waits,
    Mark::Step,
    Mark::Fork,
    Mark::Success,
    Mark::Failed,
    Mark::Unheard,
    Mark::NeverStarted,
    Mark::Interrupted,
    Mark::Bracket,
    Mark::Edge,
    Mark::Closing,
    Mark::Expired,
    Mark::Cancelled,
    Mark::QuietCancel,
    Mark::Fault,
    Mark::Idle,
];

/// All marks, in the order of the legend.
fn all_marks() -> &'static [Mark]
    ensures value { result.now ≡ def.marks }
    ensures few { length result.now ≤ MOST_KEYS }
{
    MARKS
}

/// Do these columns have the mark?
fn is_drawn(columns: &str, mark: Mark) -> bool
    ensures { result ≡ def.is_drawn columns.now mark }
{
    memmem::find(columns.as_bytes(), mark.begins().as_bytes()).is_some()
}

/// The marks that these columns have, in the order of the legend.
///
/// # Errors
///
/// Memory ran out.
#[tactic(auto, unfolding(crate::specs::Legend::keys))]
pub fn keys(alloc: Global, columns: &str) -> Result<Vec<Mark>, AllocError>
    ensures value { IfOk result (λ found. found.items ≡ def.keys columns.now) }
    ensures few { IfOk result (λ found. length found.items ≤ MOST_KEYS) }
{
    let mut found = Vec::new(alloc);
    let marks = all_marks();
    for mark in marks {
        if is_drawn(columns, *mark) {
            found.push(*mark)?;
        }
    }
    Ok(found)
}

/// The mark of a key.
fn key_mark(out: &mut String, n: usize, mark: Mark) -> Said
    requires { n ≤ MOST_KEYS }
    ensures { OnOk result (string_bytes out.new ≡ string_bytes out.old ++ def.key_mark n mark) }
{
    mark_at(out, mark, key_x(n), key_y(n), mark.meaning())
}

/// The words of a key, next to its mark.
fn key_text(out: &mut String, n: usize, words: &str) -> Said
    requires { n ≤ MOST_KEYS }
    ensures { OnOk result (string_bytes out.new
        ≡ string_bytes out.old ++ def.key_text n words.now) }
{
    text_at(out, "key", key_x(n) + 32, key_y(n) + 4, words)
}

/// The key of this number: a mark, and what it means.
fn key(out: &mut String, n: usize, mark: Mark) -> Said
    requires { n ≤ MOST_KEYS }
    ensures { OnOk result (string_bytes out.new ≡ string_bytes out.old ++ def.key n mark) }
{
    key_mark(out, n, mark)?;
    key_text(out, n, mark.meaning())
}

/// The keys of these marks.
fn legend(out: &mut String, keys: &[Mark]) -> Said
    requires { length keys.now ≤ MOST_KEYS }
    ensures { OnOk result (string_bytes out.new ≡ string_bytes out.old ++ def.legend keys.now) }
{
    for i in 0..keys.len() {
        key(out, i, keys[i])?;
    }
    Ok(())
}

/// The group of the legend begins, from this height on.
fn foot_start(out: &mut String, y: u64) -> Said
    ensures { OnOk result (string_bytes out.new ≡ string_bytes out.old ++ frame.foot_start y) }
{
    writeln!(out, "<g transform='translate(12 {y})'>")
}

fn foot_end(out: &mut String) -> Said
    ensures { OnOk result (string_bytes out.new ≡ string_bytes out.old ++ frame.foot_end) }
{
    out.push_str("</g>\n</svg>\n")
}

/// The legend under the lanes.
///
/// # Errors
///
/// Memory ran out; `out` may then have a part of it.
pub fn foot(out: &mut String, tasks: usize, keys: &[Mark]) -> Said
    requires tasks { tasks ≤ MAX_BIRTHS }
    requires few { length keys.now ≤ MOST_KEYS }
    ensures { OnOk result (string_bytes out.new
        ≡ string_bytes out.old ++ frame.foot tasks keys.now) }
{
    foot_start(out, lane(tasks as u32))?;
    legend(out, keys)?;
    foot_end(out)
}
