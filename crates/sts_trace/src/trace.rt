//! Reading traces.

ghost use Rattle.std.specs.Prelude.{◌≡◌, ◌<◌, ◌≤◌, ◌^◌, ◌∷◌, ◌++◌, [], List, length, IfOk, IfSome};
ghost use Rattle.std.specs.Prelude.{MatchOption, IsTrue, ◌↔◌, Ok, codes};
ghost use Rattle.std.specs.Fmt.{decimal};
ghost use Rattle.std.specs.List.{All};
ghost use Rattle.sts_model.specs.declared.event.Event.{Event};
ghost use Rattle.sts_model.specs.declared.event.Event.TheVariants.{Step};
ghost use Rattle.sts_trace.specs.Spelling.{IsEvent, event_text, trace_text};
ghost use Rattle.sts_text.specs.Words.{lines};
ghost use Rattle.sts_trace.specs.Reading.{Gives, bytes_of, event_line, event_said, trace_read};

use crate::error::TraceError;
use crate::fields::event_of;
use crate::reading::{Line, read_lines};
use std::alloc::Global;
use sts_model::Event;
use sts_text::{cut_at_newline, cut_at_space};

// Reads a line of two fields.
fn event_said(at: u64, word: &[u8], number: &[u8]) -> Result<Event, TraceError>
    ensures { Gives (λ e. e) result (event_said at (word.now ∷ number.now ∷ [])) }
{
    if number.is_empty() {
        return Err(TraceError::BadLine(at));
    }
    event_of(at, word, number)
}

// Reads line `at`.
#[tactic(auto, using(crate::proofs::TooMany::too_many))]
fn event_line(at: u64, line: &[u8]) -> Result<Event, TraceError>
    ensures { Gives (λ e. e) result (event_line at line.now) }
{
    let Some((word, number)) = cut_at_space(line) else {
        return Err(TraceError::BadLine(at));
    };
    if cut_at_space(number).is_some() {
        return Err(TraceError::BadLine(at));
    }
    event_said(at, word, number)
}

// The number that a digit from 1 to 9 and the digits after it spell, and the text after them. The
// six largest numbers are left to the caller.
#[inline(always)]
fn with_digits(first: u32, text: &[u8]) -> Option<(u32, &[u8])>
    requires digit { (0 < first) × (first < 10) }
    ensures spelled { IfSome result (λ s. decimal first ++ text.now ≡ decimal s.0 ++ s.1.now) }
    ensures small { IfSome result (λ s. s.0 < 2 ^ 32) }
    ensures shorter { IfSome result (λ s. length s.1.now ≤ length text.now) }
{
    let mut number = first;
    let mut rest = text;
    while let [digit @ b'0'..=b'9', after @ ..] = rest {
        if number >= u32::MAX / 10 {
            return None;
        }
        number = number * 10 + u32::from(*digit - b'0');
        rest = after;
    }
    Some((number, rest))
}

// The number that the text begins with, and the text after it. The six largest numbers are left to
// the caller.
#[inline(always)]
fn first_number(text: &[u8]) -> Option<(u32, &[u8])>
    ensures spelled { IfSome result (λ s. text.now ≡ decimal s.0 ++ s.1.now) }
    ensures small { IfSome result (λ s. s.0 < 2 ^ 32) }
    ensures shorter { IfSome result (λ s. length s.1.now < length text.now) }
{
    match text {
        [b'0', rest @ ..] => Some((0, rest)),
        [digit @ b'1'..=b'9', rest @ ..] => with_digits(u32::from(*digit - b'0'), rest),
        _ => None,
    }
}

// Is the word `step`? As numbers, its four bytes are compared at once.
#[inline(always)]
#[tactic(auto, using(crate::proofs::Steps::word_decides))]
fn is_step(word: [u8; 4]) -> bool
    ensures { IsTrue result ↔ (word ≡ codes "step") }
{
    u32::from_le_bytes(word) == u32::from_le_bytes(*b"step")
}

// The task of the step that the first line is, and the text after that line.
#[inline(always)]
fn first_step(text: &[u8]) -> Option<(u32, &[u8])>
    ensures lines { IfSome result (λ s. lines text.now ≡ event_text (Step s.0) ∷ lines s.1.now) }
    ensures shorter { IfSome result (λ s. length s.1.now < length text.now) }
{
    // With its newline a step has seven bytes or more. After this test the compiler leaves out most
    // of the tests of lengths below.
    if text.len() < 7 {
        return None;
    }
    let (word, rest) = text.split_first_chunk::<4>()?;
    if !is_step(*word) {
        return None;
    }
    let [b' ', number @ ..] = rest else {
        return None;
    };
    match first_number(number)? {
        (task, [b'\n', after @ ..]) => Some((task, after)),
        _ => None,
    }
}

// The first line with the text after it, or `None` if the text has no newline. A step gives its
// task in place of its bytes: most lines are steps, and are found without a search for a space.
#[inline(always)]
fn first_line(text: &[u8]) -> Option<(&[u8], Option<u32>, &[u8])>
    ensures lines { MatchOption result (lines text.now ≡ text.now ∷ [])
        (λ cut. lines text.now ≡ bytes_of cut.1 cut.0.now ∷ lines cut.2.now) }
    ensures shorter { IfSome result (λ cut. length cut.2.now < length text.now) }
    ensures small { IfSome result (λ cut. IfSome cut.1 (λ n. n < 2 ^ 32)) }
{
    if let Some((task, after)) = first_step(text) {
        return Some((&[], Some(task), after));
    }
    match cut_at_newline(text) {
        Some((line, after)) => Some((line, None, after)),
        None => None,
    }
}

// Reads line `at`, a step of this task or these bytes.
#[inline(always)]
#[tactic(auto, using(crate::proofs::Only::step_read))]
fn event_in(at: u64, task: Option<u32>, line: &[u8]) -> Result<Event, TraceError>
    requires small { IfSome task (λ n. n < 2 ^ 32) }
    ensures { Gives (λ e. e) result (event_line at (bytes_of task line.now)) }
{
    match task {
        Some(task) => Ok(Event::Step(task)),
        None => event_line(at, line),
    }
}

impl Line for Event {
    ghost said = { event_line };

    #[inline(always)]
    fn first(at: u64, text: &[u8]) -> Option<(Result<Event, TraceError>, &[u8])> {
        let (line, task, after) = first_line(text)?;
        Some((event_in(at, task, line), after))
    }
}

/// Reads the events that the bytes spell, or reports the first fault.
///
/// # Errors
///
/// Lines are judged in order.
///
/// - `BadLine`: the line isn't `step`, `interrupt` or `expire`, one space, and one or more bytes
///   without a space.
/// - `BadNumber`: the last word isn't `0` or digits without a leading zero, or is over 4294967295.
/// - `NoNewline`: bytes follow the last newline.
/// - `Memory`: memory ran out. This may be the answer for any text.
#[tactic(auto, using(crate::proofs::Found::events_found, crate::proofs::Only::trace_only))]
pub fn read_trace(alloc: Global, text: &[u8]) -> Result<Vec<Event>, TraceError>
    // What is read is what the text spells.
    ensures found { IfOk result (λ events. All IsEvent events.items ×
        (text.now ≡ trace_text events.items)) }
    // Whatever the text spells is read.
    ensures only { (events : List Event) → All IsEvent events → text.now ≡ trace_text events →
        Gives (λ read. read.items) result (Ok events) }
    // What is wrong is the first fault.
    ensures exact { Gives (λ events. events.items) result (trace_read text.now) }
{
    read_lines(alloc, text)
}
