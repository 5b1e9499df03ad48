//! Whether a program is refused.

ghost use Rattle.std.specs.Prelude.{◌≡◌, false, IfOk};
ghost use Rattle.laws_runs.specs.Runs.{NeverFaults};
ghost use Rattle.look_ends.specs.Listing as def;

use laws_accepted::accepted::never_faults;
use std::alloc::{AllocError, Global};
use sts_code::Program;
use sts_verify::{Verified, VerifyError, verify};

/// A program, and whether it is refused.
#[derive(Drop)]
pub(crate) struct Judged {
    pub(crate) program: Program,
    pub(crate) is_refused: bool,
}

/// A program that is accepted.
fn accepted(verified: Verified) -> Judged
    ensures program { result.program ≡ verified }
    ensures is_refused { result.is_refused ≡ false }
    ensures never { NeverFaults result.program }
{
    never_faults(&verified);
    Judged {
        program: verified.into_program(),
        is_refused: false,
    }
}

/// Verifies a program. No run of an accepted one faults.
pub(crate) fn verdict(alloc: Global, program: Program) -> Result<Judged, AllocError>
    ensures judged { IfOk result (λ j. (j.program ≡ program)
        × def.IsVerdict program j.is_refused) }
    ensures never { IfOk result (λ j. j.is_refused ≡ false → NeverFaults j.program) }
{
    match verify(alloc, program) {
        Ok(verified) => Ok(accepted(verified)),
        Err(VerifyError::Memory(_)) => Err(AllocError),
        Err(VerifyError::Refused { program, .. }) => Ok(Judged {
            program,
            is_refused: true,
        }),
    }
}
