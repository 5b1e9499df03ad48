//! The fields of a line.

ghost use Rattle.sts_trace.specs.Reading.{Gives, numeral_at, event_of};

use crate::error::TraceError;
use sts_model::Event;
use sts_text::numeral;

/// The number that a word of line `at` spells.
pub(crate) fn numeral_at(at: u64, word: &[u8]) -> Result<u32, TraceError>
    ensures { Gives (λ n. n) result (numeral_at at word.now) }
{
    numeral(word).ok_or(TraceError::BadNumber(at))
}

/// The event that a word and a number of line `at` spell.
pub(crate) fn event_of(at: u64, word: &[u8], number: &[u8]) -> Result<Event, TraceError>
    ensures { Gives (λ e. e) result (event_of at word.now number.now) }
{
    if word == b"step".as_slice() {
        Ok(Event::Step(numeral_at(at, number)?))
    } else if word == b"interrupt".as_slice() {
        Ok(Event::Interrupt(numeral_at(at, number)?))
    } else if word == b"expire".as_slice() {
        Ok(Event::Expire(numeral_at(at, number)?))
    } else {
        Err(TraceError::BadLine(at))
    }
}
