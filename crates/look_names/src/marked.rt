//! Marked comments, and what a line names.

ghost use Rattle.std.specs.Prelude.{◌≡◌, option_and_then, option_map, true};
ghost use Rattle.std.specs.List.{list_all};
ghost use Rattle.sts_text.specs.Words.{is_blank};
ghost use Rattle.look_names.specs.Marked as def;

use std::str;
use sts_text::{Words, cut_at, cut_at_blank, number};

fn is_blank(b: u8) -> bool
    ensures { result ≡ is_blank b }
{
    matches!(b, b' ' | b'\t' | b'\r')
}

/// The bytes of a comment after its mark, if it has one.
fn behind_mark(comment: &[u8]) -> Option<&[u8]>
    ensures { option_map (λ b. b.now) result ≡ def.behind_mark comment.now }
{
    if comment.len() >= 2 && comment[0] == b'=' && is_blank(comment[1]) {
        Some(&comment[2..])
    } else {
        None
    }
}

fn marked(line: &[u8]) -> Option<&[u8]>
    ensures { option_map (λ b. b.now) result ≡ def.marked line.now }
{
    behind_mark(cut_at(line, b';').1)
}

fn begun(bytes: &[u8]) -> &[u8]
    ensures { result.now ≡ def.begun bytes.now }
{
    bytes.trim_ascii_start()
}

fn cut(bytes: &[u8]) -> &[u8]
    ensures { result.now ≡ def.cut bytes.now }
{
    bytes.trim_ascii_end()
}

fn is_printable(b: u8) -> bool
    ensures { result ≡ def.is_printable b }
{
    32 <= b && b <= 126
}

fn all_printable(bytes: &[u8]) -> bool
    ensures { result ≡ list_all def.is_printable bytes.now }
{
    bytes.iter().all(|b| is_printable(*b))
}

/// Printable bytes as a text.
#[tactic(auto, using(crate::proofs::Printable::printable_is_text))]
fn text_of(bytes: &[u8]) -> &str
    requires { list_all def.is_printable bytes.now ≡ true }
    ensures { result.now ≡ bytes.now }
{
    match str::from_utf8(bytes) {
        Ok(text) => text,
        Err(_) => "",
    }
}

fn as_name(bytes: &[u8]) -> Option<&str>
    ensures { option_map (λ n. n.now) result ≡ def.as_name bytes.now }
{
    if !bytes.is_empty() && all_printable(bytes) {
        Some(text_of(bytes))
    } else {
        None
    }
}

fn name_of(bytes: &[u8]) -> Option<&str>
    ensures { option_map (λ n. n.now) result ≡ def.name_of bytes.now }
{
    as_name(cut(begun(bytes)))
}

/// The name in the marked comment of a line.
pub(crate) fn name_in(line: &[u8]) -> Option<&str>
    ensures { option_map (λ n. n.now) result ≡ def.name_in line.now }
{
    name_of(marked(line)?)
}

/// Does a function begin in this line?
pub(crate) fn begins_function(line: &[u8]) -> bool
    ensures { result ≡ def.begins_function line.now }
{
    match Words::new(cut_at(line, b';').0).word() {
        Some(word) => word == b"func".as_slice(),
        None => false,
    }
}

/// A value with its name, if bytes begin with a number and a blank.
fn named_value(bytes: &[u8]) -> Option<(i64, &str)>
    ensures { option_map (λ n. (n.0, n.1.now)) result ≡ def.named_value bytes.now }
{
    let (front, back) = cut_at_blank(bytes);
    let value = number(front)?;
    let name = name_of(back)?;
    Some((value, name))
}

fn marked_value(line: &[u8]) -> Option<(i64, &str)>
    ensures { option_map (λ n. (n.0, n.1.now)) result
        ≡ option_and_then (λ bytes. def.named_value (def.begun bytes)) (def.marked line.now) }
{
    named_value(begun(marked(line)?))
}

/// A value with its name, if the line names one.
pub(crate) fn value_in(line: &[u8]) -> Option<(i64, &str)>
    ensures { option_map (λ n. (n.0, n.1.now)) result ≡ def.value_in line.now }
{
    match Words::new(cut_at(line, b';').0).word() {
        Some(_) => None,
        None => marked_value(line),
    }
}
