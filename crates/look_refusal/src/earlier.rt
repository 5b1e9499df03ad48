//! The budgets of the functions before one.

ghost use Rattle.std.specs.Prelude.{◌≡◌, ◌<◌, ℕ, length, IfOk};
ghost use Rattle.sts_rules.specs.Budget.{AreBudgets};
ghost use Rattle.sts_rules.specs.Refusal.{IsSound};

use std::alloc::{AllocError, Global};
use sts_budget::{BudgetError, budget};
use sts_code::Program;
use sts_rules::Budgets;

/// The budgets of the functions before this one.
///
/// # Errors
///
/// Memory ran out.
pub(crate) fn budgets_before(
    alloc: Global,
    program: &Program,
    function: u32,
) -> Result<Vec<Budgets>, AllocError>
    requires in_program { function < length program.now.routines }
    requires sound { (g : ℕ) → g < function → IsSound program.now g }
    ensures { IfOk result
        (λ bs. (length bs.items ≡ function) × AreBudgets program.now bs.items) }
{
    let mut budgets = Vec::new(alloc);
    for earlier in 0..function {
        match budget(alloc, program, earlier as usize, budgets.as_slice()) {
            Ok(found) => budgets.push(found)?,
            Err(BudgetError::Memory) => return Err(AllocError),
            Err(BudgetError::TooMuch(_)) => unreachable!(),
        }
    }
    Ok(budgets)
}
