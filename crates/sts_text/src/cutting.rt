//! Cutting a text at its newlines and a line at its blanks or spaces.

ghost use Rattle.std.specs.Prelude.{◌≡◌, ◌==◌, ◌<◌, drop, length, MatchOption, IfSome, ◌∷◌, []};
ghost use Rattle.std.specs.List.{before_first, after_first, position, slice_split};
ghost use Rattle.sts_text.specs.Words.{is_blank, lines, fields, words};

fn is_blank(b: u8) -> bool
    ensures { result ≡ is_blank b }
{
    matches!(b, b' ' | b'\t' | b'\r')
}

fn blank_in(line: &[u8]) -> Option<usize>
    ensures { result ≡ position is_blank line.now }
{
    line.iter().position(|b| is_blank(*b))
}

#[inline(always)]
fn place_of(bytes: &[u8], byte: u8) -> Option<usize>
    ensures { result ≡ position (λ b. b == byte) bytes.now }
{
    bytes.iter().position(|b| *b == byte)
}

/// The parts before and after the first byte of this value, or `None` if there is none.
#[inline(always)]
#[tactic(auto, using(crate::proofs::WordLemmas::cuts))]
fn halves(bytes: &[u8], byte: u8) -> Option<(&[u8], &[u8])>
    ensures parts { MatchOption result (slice_split (λ b. b == byte) bytes.now ≡ bytes.now ∷ [])
        (λ cut. slice_split (λ b. b == byte) bytes.now
        ≡ cut.0.now ∷ slice_split (λ b. b == byte) cut.1.now) }
    ensures shorter { IfSome result (λ cut. length cut.1.now < length bytes.now) }
{
    match place_of(bytes, byte) {
        Some(end) => Some((&bytes[..end], &bytes[end + 1..])),
        None => None,
    }
}

/// The first line and the text after its newline, or `None` if the text has no newline.
pub fn cut_at_newline(text: &[u8]) -> Option<(&[u8], &[u8])>
    ensures lines { MatchOption result (lines text.now ≡ text.now ∷ [])
        (λ cut. lines text.now ≡ cut.0.now ∷ lines cut.1.now) }
    ensures shorter { IfSome result (λ cut. length cut.1.now < length text.now) }
{
    halves(text, b'\n')
}

/// The text after the first `count` lines, or `None` if it has no more.
pub fn after_lines(text: &[u8], count: u32) -> Option<&[u8]>
    ensures { MatchOption result (drop count (lines text.now) ≡ [])
        (λ rest. lines rest.now ≡ drop count (lines text.now)) }
{
    let mut rest = text;
    let mut left = count;
    while left > 0 {
        let (_, after) = cut_at_newline(rest)?;
        rest = after;
        left -= 1;
    }
    Some(rest)
}

/// The first field and the line after its space, or `None` if the line has no space.
pub fn cut_at_space(line: &[u8]) -> Option<(&[u8], &[u8])>
    ensures fields { MatchOption result (fields line.now ≡ line.now ∷ [])
        (λ cut. fields line.now ≡ cut.0.now ∷ fields cut.1.now) }
    ensures shorter { IfSome result (λ cut. length cut.1.now < length line.now) }
{
    halves(line, b' ')
}

/// The parts before and after the first byte of this value, or all bytes and an empty part if there
/// is none.
#[tactic(auto, using(crate::proofs::WordLemmas::positions))]
pub fn cut_at(bytes: &[u8], byte: u8) -> (&[u8], &[u8])
    ensures front { result.0.now ≡ before_first (λ b. b == byte) bytes.now }
    ensures back { result.1.now ≡ after_first (λ b. b == byte) bytes.now }
{
    match place_of(bytes, byte) {
        Some(end) => (&bytes[..end], &bytes[end + 1..]),
        None => (bytes, &[]),
    }
}

/// The parts before and after the first blank, or the whole line and an empty part if it has no
/// blank.
#[tactic(auto, using(crate::proofs::WordLemmas::positions))]
pub fn cut_at_blank(line: &[u8]) -> (&[u8], &[u8])
    ensures front { result.0.now ≡ before_first is_blank line.now }
    ensures back { result.1.now ≡ after_first is_blank line.now }
{
    match blank_in(line) {
        Some(end) => (&line[..end], &line[end + 1..]),
        None => (line, &[]),
    }
}

/// The first word of a line and the line after it, or `None` if the line has no words.
#[tactic(auto, using(crate::proofs::WordLemmas::words_first))]
pub(crate) fn next_word(line: &[u8]) -> Option<(&[u8], &[u8])>
    ensures { MatchOption result (words line.now ≡ [])
        (λ cut. words line.now ≡ cut.0.now ∷ words cut.1.now) }
{
    let mut rest = line;
    while !rest.is_empty() {
        let (word, after) = cut_at_blank(rest);
        if !word.is_empty() {
            return Some((word, after));
        }
        rest = after;
    }
    None
}
