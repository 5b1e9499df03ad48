//! The numbers that words write.

ghost use Rattle.std.specs.Prelude.{◌≡◌, ◌^◌, ◌<◌, ◌≤◌, ◌-◌, ◌+◌, ◌*◌, ◌↔◌, Some, None, IfSome};
ghost use Rattle.std.specs.Prelude.{true, nat_lt, nat_le, pos, neg_ℤ, drop, slice_index};
ghost use Rattle.std.specs.Prelude.{if◌then◌else◌, ℕ};
ghost use Rattle.std.specs.Str.Parse.{digits_value};
ghost use Rattle.std.specs.List.{list_all};
ghost use Rattle.std.specs.Char.{is_ascii_digit, digit_value};
ghost use Rattle.std.specs.Fmt.{decimal};
ghost use Rattle.std.specs.Str.{IsUtf8};
ghost use Rattle.sts_text.specs.Number.{is_digits, has_leading_zero, digits_up_to, numeral, number};
ghost use Rattle.sts_text.specs.Number.{number_up_to};

use std::str;

fn all_digits(word: &[u8]) -> bool
    ensures { result ≡ list_all is_ascii_digit word.now }
{
    word.iter().all(|b| b.is_ascii_digit())
}

fn is_digits(word: &[u8]) -> bool
    ensures { result ≡ is_digits word.now }
{
    !word.is_empty() && all_digits(word)
}

fn text_of(word: &[u8]) -> &str
    ensures { IsUtf8 word.now → result.now ≡ word.now }
{
    match str::from_utf8(word) {
        Ok(text) => text,
        Err(_) => "",
    }
}

/// The number that one more digit makes of the number before it, if that is below 2^64.
fn with_digit(value: u64, digit: u8) -> Option<u64>
    requires { is_ascii_digit digit ≡ true }
    ensures { result ≡
        (if nat_lt (value * 10 + digit_value digit) (2 ^ 64)
        then Some (value * 10 + digit_value digit) else None) }
{
    value.checked_mul(10)?.checked_add(u64::from(digit - b'0'))
}

/// The number that digits write, if it is below 2^64.
fn value_of(word: &[u8]) -> Option<u64>
    requires { list_all is_ascii_digit word.now ≡ true }
    ensures { result ≡
        (if nat_lt (digits_value 10 word.now) (2 ^ 64)
        then Some (digits_value 10 word.now) else None) }
{
    let mut value = 0;
    for digit in word {
        value = with_digit(value, *digit)?;
    }
    Some(value)
}

fn digits(word: &[u8]) -> Option<u32>
    ensures { result ≡ digits_up_to (2 ^ 32 - 1) word.now }
{
    if !is_digits(word) {
        return None;
    }
    match value_of(word) {
        Some(n) => u32::try_from(n).ok(),
        None => None,
    }
}

/// The number that digits write, if it is at most `most`. Leading zeros are allowed.
pub fn digits_up_to(word: &[u8], most: u32) -> Option<u32>
    ensures number { result ≡ digits_up_to most word.now }
    ensures at_most { IfSome result (λ n. n ≤ most) }
{
    match digits(word) {
        Some(n) if n <= most => Some(n),
        _ => None,
    }
}

fn has_leading_zero(word: &[u8]) -> bool
    ensures { result ≡ has_leading_zero word.now }
{
    word.len() > 1 && word[0] == b'0'
}

fn read_numeral(word: &[u8]) -> Option<u32>
    ensures { result ≡ numeral word.now }
{
    if has_leading_zero(word) {
        return None;
    }
    digits(word)
}

/// The number that the word spells: digits without a leading zero, up to 4294967295.
#[tactic(auto, using(crate::proofs::NumberLemmas::numeral_spelled))]
pub fn numeral(word: &[u8]) -> Option<u32>
    ensures number { result ≡ numeral word.now }
    ensures spelled { (n : ℕ) → (result ≡ Some n) ↔ ((n < 2 ^ 32) × (word.now ≡ decimal n)) }
{
    read_numeral(word)
}

fn positive(word: &[u8]) -> Option<i64>
    requires { is_digits word.now ≡ true }
    ensures { result ≡
        (if nat_lt (digits_value 10 word.now) (2 ^ 63)
        then Some (pos (digits_value 10 word.now)) else None) }
{
    match value_of(word) {
        Some(n) => i64::try_from(n).ok(),
        None => None,
    }
}

fn negative(word: &[u8]) -> Option<i64>
    requires minus { slice_index word.now 0 ≡ 45 }
    requires digits { is_digits (drop 1 word.now) ≡ true }
    ensures { result ≡
        (if nat_le (digits_value 10 (drop 1 word.now)) (2 ^ 63)
        then Some (neg_ℤ (pos (digits_value 10 (drop 1 word.now)))) else None) }
{
    text_of(word).parse::<i64>().ok()
}

/// The number that digits, or a minus and digits, write. Leading zeros are allowed, a plus isn't.
pub fn number(word: &[u8]) -> Option<i64>
    ensures { result ≡ number word.now }
{
    match word {
        [b'-', digits @ ..] if is_digits(digits) => negative(word),
        [b'-', ..] => None,
        _ if is_digits(word) => positive(word),
        _ => None,
    }
}

/// The number from 0 to `most` that a word writes as `number` reads it, so that `-0` is 0.
pub fn number_up_to(word: &[u8], most: u32) -> Option<u32>
    ensures number { result ≡ number_up_to most word.now }
    ensures at_most { IfSome result (λ n. n ≤ most) }
{
    match number(word) {
        Some(n) if 0 <= n && n <= i64::from(most) => Some(n as u32),
        _ => None,
    }
}
