//! Which events `draw` is asked for.

ghost use Rattle.std.specs.Prelude.{◌≡◌};
ghost use Rattle.look_args.specs.AskedDraw as def;

use look_options::Window;
use sts_text::{cut_at, digits_up_to};

/// The number after one more dot.
fn last_of(text: &[u8]) -> Option<u32>
    ensures { result ≡ def.last_of text.now }
{
    match text {
        [b'.', digits @ ..] => digits_up_to(digits, u32::MAX),
        _ => None,
    }
}

/// The events from a first to a last number, if the first is at least 1 and not above the last.
fn ordered(first: u32, last: u32) -> Option<Window>
    ensures { result ≡ def.ordered first last }
{
    if 1 <= first && first <= last {
        Some(Window { first, last })
    } else {
        None
    }
}

/// The events that `A..B` names, if the text has this form.
pub fn window_of(text: &[u8]) -> Option<Window>
    ensures { result ≡ def.window_of text.now }
{
    let (front, back) = cut_at(text, b'.');
    let first = digits_up_to(front, u32::MAX)?;
    let last = last_of(back)?;
    ordered(first, last)
}
