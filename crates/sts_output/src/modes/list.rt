//! Mode `list`: the program as the assembler understands it.

ghost use Rattle.std.specs.Prelude.{◌≡◌};
ghost use Rattle.sts_asm.specs.Text.{judged};
ghost use Rattle.sts_output.specs.Output as def;
ghost use Rattle.sts_output.specs.Stops.{Keeps, Prints};

use crate::assembled::Assembled;
use crate::output::Output;
use crate::stopped::{Stopped, program_of};
use std::alloc::Global;

/// Assembles the text and lists the program. `assembled` gets the fault of the text.
///
/// # Errors
///
/// The text has a fault, or memory ran out.
pub fn listed(alloc: Global, text: &[u8], assembled: &mut Assembled) -> Result<Output, Stopped>
    ensures output { Prints result (λ o. o ≡ def.list_output (judged text.now)) }
    ensures fault { Keeps result (judged text.now) assembled.old assembled.new }
{
    let program = program_of(alloc, text, assembled)?;
    let listing = sts_list::list(alloc, &program)?;
    Ok(Output::of(listing, 0))
}
