//! Splits an input into a text and a trace.

ghost use Rattle.std.specs.Prelude.{◌≡◌};
ghost use Rattle.sts_output.specs.Joined.{halves_of};

use sts_text::cut_at_newline;

/// The bytes before the first line that is exactly `%`, and those after it.
pub fn split(input: &[u8]) -> (&[u8], &[u8])
    ensures text { result.0.now ≡ (halves_of input.now).text }
    ensures trace { result.1.now ≡ (halves_of input.now).trace }
{
    let mut before = 0;
    let mut rest = input;
    while let Some((line, after)) = cut_at_newline(rest) {
        if line == b"%".as_slice() {
            return (&input[..before], after);
        }
        before += line.len() + 1;
        rest = after;
    }
    if rest == b"%".as_slice() {
        return (&input[..before], &[]);
    }
    (input, &[])
}
