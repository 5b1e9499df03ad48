//! The known word that a wrong one is near to.

ghost use Rattle.std.specs.Prelude.{◌≡◌, ◌<◌, ◌==◌, length, option_map, map, find};
ghost use Rattle.std.specs.Prelude.{slice_index, false};
ghost use Rattle.std.specs.Option.{option_or};
ghost use Rattle.look_text.specs.Near as def;

use crate::wanted::Expected;

static INNER_WORDS: [&str; 36] = [
    "push",
    "pop",
    "dup",
    "swap",
    "load",
    "store",
    "add",
    "sub",
    "mul",
    "lt",
    "eq",
    "div",
    "jmp",
    "jz",
    "times",
    "next",
    "open",
    "fork",
    "join",
    "close",
    "cancelled",
    "case",
    "get",
    "except",
    "tally",
    "total",
    "forget",
    "bind",
    "unbind",
    "read",
    "bound",
    "orelse",
    "interrupted",
    "ret",
    "fail",
    "end",
];

static OUTER_WORDS: [&str; 2] = ["func", "profile"];

static JOINER_WORDS: [&str; 5] = ["all", "any", "awaitall", "awaitok", "until"];

static CONDITION_WORDS: [&str; 3] = ["failed", "success", "atleast"];

static TIMED_WORDS: [&str; 1] = ["timed"];

static NEEDS_WORDS: [&str; 1] = ["needs"];

/// Do the first two letters change places?
fn is_swapped(word: &[u8], known: &[u8]) -> bool
    ensures { result ≡ def.is_swapped word.now known.now }
{
    word.len() >= 2
        && known.len() >= 2
        && word[0] == known[1]
        && word[1] == known[0]
        && &word[2..] == &known[2..]
}

/// Is the first letter changed, left out or added, or does it change places with the second?
fn is_one_off(word: &[u8], known: &[u8]) -> bool
    requires word { 0 < length word.now }
    requires known { 0 < length known.now }
    ensures { result ≡ def.is_one_off word.now known.now }
{
    &word[1..] == &known[1..]
        || &word[1..] == known
        || word == &known[1..]
        || is_swapped(word, known)
}

/// The parts of two words after what both begin with.
#[tactic(auto, using(crate::proofs::NearLemmas::same_first))]
fn after_same<'a>(word: &'a [u8], known: &'a [u8]) -> (&'a [u8], &'a [u8])
    ensures apart { def.is_one_apart result.0.now result.1.now
        ≡ def.is_one_apart word.now known.now }
    ensures begins { def.begins_other result.0.now result.1.now
        ≡ def.begins_other word.now known.now }
    ensures differ { 0 < length result.0.now → 0 < length result.1.now
        → (slice_index result.0.now 0 == slice_index result.1.now 0) ≡ false }
{
    let mut word = word;
    let mut known = known;
    while !word.is_empty() && !known.is_empty() && word[0] == known[0] {
        word = &word[1..];
        known = &known[1..];
    }
    (word, known)
}

/// Are the words one letter apart, after their common beginning?
#[tactic(auto, using(crate::proofs::NearLemmas::one_apart_left))]
fn is_one_apart(word: &[u8], known: &[u8]) -> bool
    ensures { result ≡ def.is_one_apart word.now known.now }
{
    let (word, known) = after_same(word, known);
    if word.is_empty() {
        known.len() == 1
    } else if known.is_empty() {
        word.len() == 1
    } else {
        is_one_off(word, known)
    }
}

/// Is one of the words longer, and begins with the second one?
#[tactic(auto, using(crate::proofs::NearLemmas::begins_left))]
fn begins_other(word: &[u8], known: &[u8]) -> bool
    ensures { result ≡ def.begins_other word.now known.now }
{
    let (word, known) = after_same(word, known);
    if word.is_empty() {
        !known.is_empty()
    } else {
        known.is_empty()
    }
}

/// Are the words the same, if upper and lower case count as one?
fn is_same_word(word: &[u8], known: &[u8]) -> bool
    ensures { result ≡ def.is_same_word word.now known.now }
{
    word.eq_ignore_ascii_case(known)
}

/// Is it the same word in other case?
fn is_other_case(word: &[u8], known: &[u8]) -> bool
    ensures { result ≡ def.is_other_case word.now known.now }
{
    if word == known {
        false
    } else {
        is_same_word(word, known)
    }
}

/// The words that may be expected at a place of a line.
fn known_words(wanted: Expected) -> &'static [&'static str]
    ensures { map (λ w. w.now) result.now ≡ def.known_words wanted }
{
    match wanted {
        Expected::Inner => &INNER_WORDS,
        Expected::Outer => &OUTER_WORDS,
        Expected::Joiner => &JOINER_WORDS,
        Expected::Condition => &CONDITION_WORDS,
        Expected::Timed => &TIMED_WORDS,
        Expected::Needs => &NEEDS_WORDS,
        _ => &[],
    }
}

/// How two words are near each other.
#[derive(Clone, Copy)]
pub(crate) enum Nearness {
    /// They are the same in other case.
    OtherCase,
    /// They are one letter apart.
    OneApart,
    /// One begins the other.
    Begins,
}

/// Are two words near in this way?
pub(crate) fn is_near(nearness: Nearness, word: &[u8], known: &[u8]) -> bool
    ensures { result ≡ def.is_near nearness word.now known.now }
{
    match nearness {
        Nearness::OtherCase => is_other_case(word, known),
        Nearness::OneApart => is_one_apart(word, known),
        Nearness::Begins => begins_other(word, known),
    }
}

/// The first of these words that is near in this way.
fn near_among(nearness: Nearness, word: &[u8], words: &[&'static str]) -> Option<&'static str>
    ensures { option_map (λ w. w.now) result
        ≡ find (def.is_near nearness word.now) (map (λ w. w.now) words.now) }
{
    for known in words {
        if is_near(nearness, word, known.as_bytes()) {
            return Some(*known);
        }
    }
    None
}

/// The first word that is one letter apart, or else the first that begins the other or begins with
/// it.
fn similar_among(word: &[u8], words: &[&'static str]) -> Option<&'static str>
    ensures { option_map (λ w. w.now) result
        ≡ option_or (find (def.is_one_apart word.now) (map (λ w. w.now) words.now))
        (find (def.begins_other word.now) (map (λ w. w.now) words.now)) }
{
    match near_among(Nearness::OneApart, word, words) {
        Some(known) => Some(known),
        None => near_among(Nearness::Begins, word, words),
    }
}

/// The word that a person may have meant by one that isn't what is expected there.
pub(crate) fn meant(wanted: Expected, word: &[u8]) -> Option<&'static str>
    ensures { option_map (λ w. w.now) result ≡ def.meant wanted word.now }
{
    let words = known_words(wanted);
    match near_among(Nearness::OtherCase, word, words) {
        Some(known) => Some(known),
        None => similar_among(word, words),
    }
}
