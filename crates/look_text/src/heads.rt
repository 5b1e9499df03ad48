//! The line that begins a function.

ghost use Rattle.std.specs.Prelude.{◌≡◌, ◌<◌, ◌≤◌, ◌-◌, true, length, if◌then◌else◌};
ghost use Rattle.look_text.specs.Heads as def;

use sts_asm::words_at;
use sts_text::{Words, cut_at_newline};

/// Is this the first of the words?
pub(crate) fn begins_with<'a>(words: Words<'a>, keyword: &[u8]) -> bool
    ensures { result ≡ def.begins_with words.entry keyword.now }
{
    let mut words = words;
    match words.word() {
        None => false,
        Some(word) => word == keyword,
    }
}

fn is_head<'a>(words: Words<'a>) -> bool
    ensures { result ≡ def.is_head words.entry }
{
    begins_with(words, b"func")
}

/// The number of functions to pass over after a line.
fn left_behind(is_head: bool, left: usize) -> usize
    requires { is_head ≡ true → 0 < left }
    ensures { result ≡ (if is_head then left - 1 else left) }
{
    if is_head { left - 1 } else { left }
}

/// Returns the number of the line that begins a function. Functions are counted from 0.
pub fn head_line(text: &[u8], function: usize) -> Option<u32>
    requires { length text.now ≤ 1048576 }
    ensures { result ≡ def.head_at text.now function }
{
    let mut rest = text;
    let mut left = function;
    let mut number: u32 = 1;
    while let Some((_, after)) = cut_at_newline(rest) {
        let begins = is_head(words_at(rest, 1));
        if begins && left == 0 {
            return Some(number);
        }
        left = left_behind(begins, left);
        rest = after;
        number += 1;
    }
    if is_head(words_at(rest, 1)) && left == 0 {
        return Some(number);
    }
    None
}
