//! Reading a text line by line.

ghost use Rattle.std.specs.Prelude.{◌≡◌, ◌∷◌, [], ℕ, List, MatchOption, Result};
ghost use Rattle.sts_text.specs.Words.{lines};
ghost use Rattle.sts_trace.specs.declared.error.TraceError.{TraceError};
ghost use Rattle.sts_trace.specs.Reading.{Gives, IsFirst, lines_read};

use crate::error::TraceError;
use std::alloc::Global;

/// What a line of a text says.
pub(crate) trait Line: Drop {
    ghost said: { ℕ → List ℕ → Result Self TraceError };

    /// What the first line says, which is line `at`, and the text after it; or `None` if the text
    /// has no newline.
    fn first(at: u64, text: &[u8]) -> Option<(Result<Self, TraceError>, &[u8])>
        ensures { MatchOption result (lines text.now ≡ text.now ∷ [])
            (λ cut. IsFirst said at text.now cut.0 cut.1.now) };
}

/// Reads the lines that the bytes spell, or reports the first fault.
#[tactic(auto, using(crate::proofs::Lines::reads))]
pub(crate) fn read_lines<L: Line>(alloc: Global, text: &[u8]) -> Result<Vec<L>, TraceError>
    ensures { Gives (λ read. read.items) result (lines_read L.said 1 (lines text.now)) }
{
    let mut read = Vec::new(alloc);
    let mut rest = text;
    let mut at: u64 = 1;
    while let Some((line, after)) = L::first(at, rest) {
        let value = line?;
        read.push(value)?;
        rest = after;
        at += 1;
    }
    if rest.is_empty() {
        Ok(read)
    } else {
        Err(TraceError::NoNewline)
    }
}
