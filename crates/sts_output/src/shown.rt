//! A line of a text as it is shown to a person.

ghost use Rattle.std.specs.Prelude.{◌≡◌, ◌++◌, ◌-◌, OnOk, map, slice_get};
ghost use Rattle.std.specs.Option.{option_copied};
ghost use Rattle.sts_text.specs.Words.{lines};
ghost use Rattle.sts_output.specs.Shown as def;

use std::alloc::AllocError;

/// Returns a byte as it is shown: one that is no printable ASCII is `?`.
fn shown_byte(b: u8) -> u8
    ensures { result ≡ def.shown_byte b }
{
    match b {
        b' '..=b'~' => b,
        _ => b'?',
    }
}

/// Appends the bytes of a line, as they are shown.
///
/// # Errors
///
/// Memory ran out; `out` may then have a part of them.
pub fn say_shown(out: &mut Vec<u8>, line: &[u8]) -> Result<(), AllocError>
    ensures { OnOk result (out.new.items ≡ out.old.items ++ map def.shown_byte line.now) }
{
    for b in line {
        out.push(shown_byte(*b))?;
    }
    Ok(())
}

/// Returns the line of this number, counted from 1. The last line comes after the last newline.
pub fn line_at(text: &[u8], number: u64) -> Option<&[u8]>
    ensures { option_copied result ≡ slice_get (lines text.now) (number - 1) }
{
    text.split(|b| *b == b'\n')
        .nth(number.saturating_sub(1) as usize)
}
