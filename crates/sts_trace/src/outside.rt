//! Events from outside, and reading them.

ghost use Rattle.std.specs.Prelude.{◌≡◌, ◌∷◌, [], List, IfOk, Ok};
ghost use Rattle.sts_trace.specs.declared.outside.Due.{Due};
ghost use Rattle.sts_trace.specs.Spelling.{AreDues, outside_text};
ghost use Rattle.sts_trace.specs.Reading.{Gives, due_line, due_said, outside_read, is_outside_word};

use crate::error::TraceError;
use crate::fields::{event_of, numeral_at};
use crate::reading::{Line, read_lines};
use std::alloc::Global;
use sts_code::MAX_OUTSIDE;
use sts_model::Event;
use sts_text::{cut_at_newline, cut_at_space};

/// An event from outside, and when it is due.
#[derive(Clone, Copy, Debug, PartialEq, Eq)]
pub struct Due {
    /// How many entries the journal holds when the event is due.
    pub at: u32,
    /// An interrupt or an expiry.
    pub event: Event,
}

fn is_outside_word(word: &[u8]) -> bool
    ensures { result ≡ is_outside_word word.now }
{
    word == b"interrupt".as_slice() || word == b"expire".as_slice()
}

// Reads line `at`.
#[tactic(auto, using(crate::proofs::TooMany::too_many))]
fn due_line(at: u64, line: &[u8]) -> Result<Due, TraceError>
    ensures { Gives (λ due. due) result (due_line at line.now) }
{
    if at > u64::from(MAX_OUTSIDE) {
        return Err(TraceError::BadLine(at));
    }
    let Some((first, rest)) = cut_at_space(line) else {
        return Err(TraceError::BadLine(at));
    };
    let Some((time, rest)) = cut_at_space(rest) else {
        return Err(TraceError::BadLine(at));
    };
    let Some((word, number)) = cut_at_space(rest) else {
        return Err(TraceError::BadLine(at));
    };
    if cut_at_space(number).is_some() {
        return Err(TraceError::BadLine(at));
    }
    due_said(at, first, time, word, number)
}

// Reads a line of four fields.
fn due_said(
    at: u64,
    first: &[u8],
    time: &[u8],
    word: &[u8],
    number: &[u8],
) -> Result<Due, TraceError>
    ensures { Gives (λ due. due) result (due_said at
        (first.now ∷ time.now ∷ word.now ∷ number.now ∷ [])) }
{
    if first != b"at".as_slice() || time.is_empty() || !is_outside_word(word) || number.is_empty() {
        return Err(TraceError::BadLine(at));
    }
    let time = numeral_at(at, time)?;
    let event = event_of(at, word, number)?;
    Ok(Due { at: time, event })
}

impl Line for Due {
    ghost said = { due_line };

    fn first(at: u64, text: &[u8]) -> Option<(Result<Due, TraceError>, &[u8])> {
        let (line, after) = cut_at_newline(text)?;
        Some((due_line(at, line), after))
    }
}

/// Reads the outside events that the bytes spell, at most 4,096, or reports the first fault.
///
/// # Errors
///
/// Lines are judged in order.
///
/// - `BadLine`: the line isn't `at`, a word, `interrupt` or `expire`, and a word, with one space
///   between them; or it is line 4,097.
/// - `BadNumber`: one of those two words isn't `0` or digits without a leading zero, or is over
///   4294967295.
/// - `NoNewline`: bytes follow the last newline.
/// - `Memory`: memory ran out. This may be the answer for any text.
#[tactic(auto, using(crate::proofs::Found::dues_found, crate::proofs::Only::outside_only))]
pub fn read_outside(alloc: Global, text: &[u8]) -> Result<Vec<Due>, TraceError>
    // If events are read, the text spells them.
    ensures found { IfOk result (λ dues. AreDues dues.items ×
        (text.now ≡ outside_text dues.items)) }
    // Whatever the text spells is read.
    ensures only { (dues : List Due) → AreDues dues → text.now ≡ outside_text dues →
        Gives (λ read. read.items) result (Ok dues) }
    // What is wrong is the first fault.
    ensures exact { Gives (λ dues. dues.items) result (outside_read text.now) }
{
    read_lines(alloc, text)
}
