//! Whether a function is open before a line.

ghost use Rattle.std.specs.Prelude.{◌≡◌};
ghost use Rattle.look_text.specs.Inside as def;

use sts_asm::words_at;
use sts_text::{Words, cut_at_newline};

fn is_open_after<'a>(inside: bool, words: Words<'a>) -> bool
    ensures { result ≡ def.is_open_after inside words.entry }
{
    let mut words = words;
    match words.word() {
        None => inside,
        Some(word) => {
            if word == b"func".as_slice() {
                true
            } else if word == b"end".as_slice() {
                false
            } else {
                inside
            }
        }
    }
}

/// Is a function of the text open before the line of this number?
pub(crate) fn is_inside(text: &[u8], line: u32) -> bool
    ensures { result ≡ def.is_inside text.now line }
{
    let line = line as usize;
    let mut rest = text;
    let mut inside = false;
    let mut number: usize = 1;
    while let Some((_, after)) = cut_at_newline(rest) {
        if number == line {
            return inside;
        }
        inside = is_open_after(inside, words_at(rest, 1));
        rest = after;
        number += 1;
    }
    if number == line {
        return inside;
    }
    is_open_after(inside, words_at(rest, 1))
}
