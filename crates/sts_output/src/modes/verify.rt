//! Mode `verify`: the budgets of each function, or the refused instruction.

ghost use Rattle.std.specs.Prelude.{IfOk};
ghost use Rattle.std.specs.String.{string_bytes};
ghost use Rattle.sts_asm.specs.Text.{judged};
ghost use Rattle.sts_output.specs.Output as def;
ghost use Rattle.sts_output.specs.Stops.{Keeps, Prints};

use crate::assembled::Assembled;
use crate::output::Output;
use crate::printed;
use crate::refusal::verified_of;
use crate::stopped::{Stopped, program_of};
use std::alloc::{AllocError, Global};
use sts_rules::Budgets;
use sts_verify::Verified;

/// Returns the budgets of the functions, in order.
///
/// # Errors
///
/// Memory ran out.
pub fn all_budgets(alloc: Global, verified: &Verified) -> Result<Vec<Budgets>, AllocError>
    ensures { IfOk result (λ budgets. def.AreTold verified.now budgets.items) }
{
    let mut budgets = Vec::new(alloc);
    for function in 0..verified.program().functions().len() {
        budgets.push(verified.budgets(function))?;
    }
    Ok(budgets)
}

/// The lines of the budgets of all functions.
///
/// # Errors
///
/// Memory ran out.
pub fn lines(alloc: Global, verified: &Verified) -> Result<String, AllocError>
    ensures { IfOk result (λ text. def.AreLines verified.now (string_bytes text)) }
{
    let budgets = all_budgets(alloc, verified)?;
    let mut text = String::new(alloc);
    printed::accepted_lines(
        &mut text,
        verified.program().functions(),
        budgets.as_slice(),
    )?;
    Ok(text)
}

fn told(alloc: Global, verified: &Verified) -> Result<Output, AllocError>
    ensures { IfOk result (λ o. def.IsVerdict verified.now o) }
{
    let text = lines(alloc, verified)?;
    Ok(Output::of(text, 0))
}

/// Assembles the text and verifies the program. `assembled` gets the fault of the text.
///
/// # Errors
///
/// The text has a fault, the program is refused, or memory ran out.
pub fn verified(alloc: Global, text: &[u8], assembled: &mut Assembled) -> Result<Output, Stopped>
    ensures output { Prints result (def.VerifyShows (judged text.now)) }
    ensures fault { Keeps result (judged text.now) assembled.old assembled.new }
{
    let program = program_of(alloc, text, assembled)?;
    let verified = verified_of(alloc, program)?;
    let output = told(alloc, &verified)?;
    Ok(output)
}
