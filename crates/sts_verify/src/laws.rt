//! Laws of the verifier. Each is the contract of a function that does nothing.

ghost use Rattle.sts_rules.specs.Promises.{TypingPromises};
ghost use Rattle.sts_rules.specs.Refusal.{IsAccepted, IsOneVerdict};

use sts_code::Program;

/// A law about each typestate that is reached in an accepted program. It is the only one at its
/// place, and no cause holds for it there. Its open loops are those around the place. Each
/// typestate that follows it is reached too.
pub fn typing_promises(program: &Program)
    requires { IsAccepted program.now }
    ensures { TypingPromises program.now }
{
    let _ = program.functions();
}

/// Acceptance and refusal exclude each other. A program has at most one refusal: the first place
/// with a cause, and the cause that is named there. So, if memory suffices, `verify` accepts
/// exactly the accepted programs, and names the only refusal of each other one.
pub fn verdict_is_one(program: &Program)
    ensures { IsOneVerdict program.now }
{
    let _ = program.functions();
}
