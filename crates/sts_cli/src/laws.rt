//! Laws of the output. Each is the contract of a function that does nothing.

ghost use Rattle.sts_output.specs.Output as def;

use sts_verify::{Verified, verdict_is_one};

/// Modes `replay` and `plain` print the same for an accepted program, whatever the trace.
pub fn replay_prints_what_plain_prints(verified: &Verified)
    ensures { def.PrintsAlike verified.now }
{
    verdict_is_one(verified.program());
}
