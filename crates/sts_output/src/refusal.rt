//! The output for the refusal of a program.

ghost use Rattle.std.specs.Prelude.{◌≡◌, IfOk, MatchResult};
ghost use Rattle.sts_rules.specs.Refusal.{IsAccepted, IsRefusal};
ghost use Rattle.sts_output.specs.Output as def;
ghost use Rattle.sts_output.specs.Stops.{Gives};

use crate::output::Output;
use crate::printed;
use crate::stopped::Stopped;
use std::alloc::{AllocError, Global};
use sts_code::Program;
use sts_rules::Cause;
use sts_verify::{Verified, VerifyError, verify};

/// A refused program, the first place with a cause, and the cause that is named there.
#[derive(Drop)]
pub struct Refusal {
    pub program: Program,
    pub function: u32,
    pub pc: u32,
    pub cause: Cause,
}

/// Returns the program, if it is accepted, or its refusal.
///
/// # Errors
///
/// Memory ran out.
pub fn judge(alloc: Global, program: Program) -> Result<Result<Verified, Refusal>, AllocError>
    ensures { IfOk result (λ judged. MatchResult judged
        (λ verified. (verified ≡ program) × IsAccepted program)
        (λ r. (r.program ≡ program) × IsRefusal program r.function r.pc r.cause)) }
{
    match verify(alloc, program) {
        Ok(verified) => Ok(Ok(verified)),
        Err(VerifyError::Memory(_)) => Err(AllocError),
        Err(
            VerifyError::Refused {
                program,
                function,
                pc,
                cause,
            },
        ) => Ok(Err(Refusal {
            program,
            function,
            pc,
            cause,
        })),
    }
}

fn refused(alloc: Global, refusal: &Refusal) -> Result<Output, AllocError>
    ensures { IfOk result (λ o. o ≡ def.refused_output
        refusal.now.program refusal.now.function refusal.now.pc refusal.now.cause) }
{
    let mut text = String::new(alloc);
    printed::refused_line(
        alloc,
        &mut text,
        &refusal.program,
        refusal.function,
        refusal.pc,
        refusal.cause,
    )?;
    Ok(Output::of(text, 4))
}

/// Returns the program, if it is accepted.
///
/// # Errors
///
/// The program is refused, or memory ran out.
pub fn verified_of(alloc: Global, program: Program) -> Result<Verified, Stopped>
    ensures { Gives result (λ verified. verified ≡ program) (def.IsRefused program) }
{
    match judge(alloc, program)? {
        Ok(verified) => Ok(verified),
        Err(refusal) => Err(Stopped::Shown(refused(alloc, &refusal)?)),
    }
}

/// The program, if it is accepted, or the output for its refusal.
pub fn accepted(alloc: Global, program: Program) -> Result<Result<Verified, Output>, AllocError>
    ensures { IfOk result (λ judged.
        MatchResult judged (λ verified. verified ≡ program) (def.IsRefused program)) }
{
    match verified_of(alloc, program) {
        Ok(verified) => Ok(Ok(verified)),
        Err(Stopped::Shown(refusal)) => Ok(Err(refusal)),
        Err(Stopped::Memory) => Err(AllocError),
    }
}
