//! The only table of the sentences for faults of a trace.

ghost use Rattle.std.specs.Prelude.{◌≡◌};
ghost use Rattle.look_run.specs.Sentences as def;

use sts_trace::TraceError;

/// What is wrong with a trace, T1 to T3.
pub(crate) fn trace_sentence(error: TraceError) -> &'static str
    ensures { result.now ≡ def.trace_sentence error }
{
    match error {
        TraceError::BadLine(_) => {
            "a line is step, interrupt or expire, one space and a number, and nothing else"
        }
        TraceError::BadNumber(_) => {
            "a number from 0 to 4294967295, without leading zeros, must follow the space"
        }
        TraceError::NoNewline => "the last line must end with a newline",
        TraceError::Memory => "out of memory",
    }
}
