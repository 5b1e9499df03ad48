//! The words here for words of Java, or of its API.

ghost use Rattle.std.specs.Prelude.{◌≡◌, map, option_map};
ghost use Rattle.std.specs.List.{after_last, before_first, position};
ghost use Rattle.sts_asm.specs.Operand.{looked_up};
ghost use Rattle.look_text.specs.Java as def;

use crate::wanted::Expected;

/// A name of Java, and the word here.
type Row = (&'static str, &'static str);

static JOINERS: [Row; 5] = [
    ("allSuccessfulOrThrow", "all"),
    ("awaitAllSuccessfulOrThrow", "awaitok"),
    ("anySuccessfulResultOrThrow", "any"),
    ("awaitAll", "awaitall"),
    ("allUntil", "until"),
];

static STATEMENTS: [Row; 24] = [
    ("try", "open"),
    ("open", "open"),
    ("withTimeout", "timed, at the end of open,"),
    ("fork", "fork"),
    ("join", "join"),
    ("close", "close"),
    ("isCancelled", "cancelled"),
    ("state", "case"),
    ("get", "get of a subtask or read of a key"),
    ("exception", "except"),
    ("where", "bind"),
    ("isBound", "bound"),
    ("orElse", "orelse"),
    ("interrupted", "interrupted"),
    ("isInterrupted", "interrupted"),
    ("return", "ret"),
    ("throw", "fail"),
    ("catch", "a label of join"),
    ("if", "jz"),
    ("for", "times"),
    ("while", "times"),
    ("var", "a slot or a local"),
    ("}", "close, next or end"),
    ("//", ";"),
];

static TIMEOUTS: [Row; 2] = [("withTimeout", "timed"), ("//", ";")];

static COMMENTS: [Row; 1] = [("//", ";")];

static HEADS: [Row; 5] = [
    ("static", "func"),
    ("public", "func"),
    ("private", "func"),
    ("void", "func"),
    ("//", ";"),
];

fn is_paren(b: u8) -> bool
    ensures { result ≡ def.is_paren b }
{
    b == b'(' || b == b')'
}

fn is_joint(b: u8) -> bool
    ensures { result ≡ def.is_joint b }
{
    b == b'.' || b == b'>'
}

fn paren_in(word: &[u8]) -> Option<usize>
    ensures { result ≡ position def.is_paren word.now }
{
    word.iter().position(|b| is_paren(*b))
}

#[tactic(auto, using(sts_text::proofs::WordLemmas::positions))]
fn before_paren(word: &[u8]) -> &[u8]
    ensures { result.now ≡ before_first def.is_paren word.now }
{
    match paren_in(word) {
        Some(end) => &word[..end],
        None => word,
    }
}

fn after_joints(bytes: &[u8]) -> &[u8]
    ensures { result.now ≡ after_last def.is_joint bytes.now }
{
    let mut start = bytes.len();
    while start > 0 && !is_joint(bytes[start - 1]) {
        start -= 1;
    }
    &bytes[start..]
}

/// Returns the name in a word of Java.
fn java_name(word: &[u8]) -> &[u8]
    ensures { result.now ≡ def.java_name word.now }
{
    after_joints(before_paren(word))
}

/// Returns the names that may be written at a place of a line, each with the word here.
fn names_of_java(wanted: Expected) -> &'static [Row]
    ensures { map (λ r. (r.0.now, r.1.now)) result.now ≡ def.names_of_java wanted }
{
    match wanted {
        Expected::Joiner => &JOINERS,
        Expected::Inner => &STATEMENTS,
        Expected::Timed => &TIMEOUTS,
        Expected::Nothing => &COMMENTS,
        Expected::Outer => &HEADS,
        _ => &[],
    }
}

/// Returns what a table has for a name.
fn looked_up(rows: &[Row], name: &[u8]) -> Option<&'static str>
    ensures { option_map (λ w. w.now) result
        ≡ looked_up (map (λ r. (r.0.now, r.1.now)) rows.now) name.now }
{
    for row in rows {
        if name == row.0.as_bytes() {
            return Some(row.1);
        }
    }
    None
}

/// Returns the word here for a word of Java that is written at this place.
pub(crate) fn java_word(wanted: Expected, word: &[u8]) -> Option<&'static str>
    ensures { option_map (λ w. w.now) result ≡ def.java_word wanted word.now }
{
    looked_up(names_of_java(wanted), java_name(word))
}
