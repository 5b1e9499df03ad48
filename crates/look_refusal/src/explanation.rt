//! What is printed for a text, and for its fault.

ghost use Rattle.std.specs.Prelude.{◌≡◌, ◌≢◌, IfOk, Ok};
ghost use Rattle.sts_output.specs.Stops as stops;
ghost use Rattle.look_refusal.specs.Output as def;
ghost use Rattle.look_refusal.specs.Stops.{IsTextFault};

use look_text::fault_lines;
use std::alloc::{AllocError, Global};
use sts_asm::AsmError;
use sts_code::Program;
use sts_output::{Output, STATUS_OUTSIDE, Stopped};

/// An explanation, if memory was enough for it.
pub type Made = Result<Output, AllocError>;

/// Returns the explanation, unless it says that memory ran out.
///
/// # Errors
///
/// It says that memory ran out.
pub fn whole(told: Output) -> Made
    ensures same { IfOk result (λ o. o ≡ told) }
    ensures whole { IfOk result (λ o. o.status ≢ 6) }
{
    if told.status == STATUS_OUTSIDE {
        Err(AllocError)
    } else {
        Ok(told)
    }
}

/// Returns the output for a fault of a text.
///
/// # Errors
///
/// Memory ran out.
pub fn text_fault(alloc: Global, error: AsmError, text: &[u8]) -> Made
    ensures { IfOk result (λ o. o ≡ def.fault_output error text.now) }
{
    let mut bytes = Vec::new(alloc);
    fault_lines(alloc, &mut bytes, error, text)?;
    Ok(Output { bytes, status: 3 })
}

/// Returns the program of a text that was read.
///
/// # Errors
///
/// The text has a fault, or memory ran out.
pub fn program_of(
    alloc: Global,
    read: Result<Program, AsmError>,
    text: &[u8],
) -> Result<Program, Stopped>
    ensures { stops.Gives result (λ p. read ≡ Ok p) (IsTextFault read text.now) }
{
    match read {
        Ok(program) => Ok(program),
        Err(error) => Err(Stopped::Shown(text_fault(alloc, error, text)?)),
    }
}
