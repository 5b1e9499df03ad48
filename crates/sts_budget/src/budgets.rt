//! The four budgets of a function.

ghost use Rattle.std.specs.Prelude.{◌≡◌, ◌<◌, ◌-◌, length, IfOk, IfSome};
ghost use Rattle.sts_code.specs.Program.{routine};
ghost use Rattle.sts_rules.specs.Refusal.{IsWellTyped};
ghost use Rattle.sts_rules.specs.Budget.{AreBudgets};
ghost use Rattle.sts_budget.specs.Change.{cause_of, limit_of, own_of};
ghost use Rattle.sts_budget.specs.Outcome.{IsFound, IsNumber};
ghost use Rattle.sts_budget.specs.Pass.{IsSet};
ghost use Rattle.sts_budget.specs.Ready.{IsLaidFor};
ghost use Rattle.sts_budget.specs.Together.{AreMost};
ghost use Rattle.sts_types.specs.Typing.{IsTyping};

use crate::change::Resource;
use crate::greatest::greatest;
use crate::layout::lay_out;
use crate::pass::Pass;
use crate::together::{Source, budgets_together, pass_of};
use std::alloc::{AllocError, Global};
use sts_code::{Program, code_of};
use sts_rules::{Budgets, Cause};
use sts_types::{Typing, typing_of};

/// Why a function has no budgets.
#[derive(Clone, Copy)]
pub enum BudgetError {
    /// Memory ran out.
    Memory,
    /// A budget is over its limit: the lowest-numbered cause from V17 to V20 that holds.
    TooMuch(Cause),
}

impl From<AllocError> for BudgetError {
    ghost use Rattle.sts_budget.specs.declared.budgets.BudgetError.{BudgetError};

    ghost from_gives = { λ e r. r ≡ BudgetError.Memory };

    fn from(_error: AllocError) -> BudgetError {
        BudgetError::Memory
    }
}

/// The budgets of a well-typed function, given those of the functions before it.
///
/// # Errors
///
/// The lowest-numbered cause from V17 to V20 that holds, or memory ran out.
pub fn budget(
    alloc: Global,
    program: &Program,
    function: usize,
    earlier: &[Budgets],
) -> Result<Budgets, BudgetError>
    requires in_program { function < length program.now.routines }
    requires typed { IsWellTyped program.now function }
    requires long { length earlier.now ≡ function }
    requires earlier { AreBudgets program.now earlier.now }
    ensures { IsFound earlier.now (routine program.now function).code result }
{
    // (Its contract says that the program passed the checks. So a `u32` counts its functions.)
    code_of(program, function);
    let typing = typing_of(alloc, program, function as u32)?;
    typed_budget(alloc, program, function, earlier, &typing)
}

/// The budgets of a function by its typing, given those of the functions before it.
///
/// # Errors
///
/// The lowest-numbered cause from V17 to V20 that holds, or memory ran out.
pub fn typed_budget(
    alloc: Global,
    program: &Program,
    function: usize,
    earlier: &[Budgets],
    typing: &Typing,
) -> Result<Budgets, BudgetError>
    requires in_program { function < length program.now.routines }
    requires typing { IsTyping program.now function typing.now }
    requires long { length earlier.now ≡ function }
    requires earlier { AreBudgets program.now earlier.now }
    ensures { IsFound earlier.now (routine program.now function).code result }
{
    let code = code_of(program, function);
    let layout = lay_out(typing);
    let source = Source {
        earlier,
        code,
        layout: &layout,
    };
    if let Some(budgets) = quick_budgets(alloc, &source)? {
        return Ok(budgets);
    }
    budgets_in_turn(alloc, &source)
}

/// The budgets of a function, each found by a pass of its own.
fn budgets_in_turn(alloc: Global, source: &Source<'_>) -> Result<Budgets, BudgetError>
    requires { IsLaidFor source.now.earlier.now source.now.code.now source.now.layout.now }
    ensures { IsFound source.now.earlier.now source.now.code.now result }
{
    let steps = budget_of(alloc, &pass_of(Resource::Steps, source))?;
    let tasks = budget_of(alloc, &pass_of(Resource::Tasks, source))?;
    let scopes = budget_of(alloc, &pass_of(Resource::Scopes, source))?;
    let binds = budget_of(alloc, &pass_of(Resource::Binds, source))?;
    Ok(Budgets {
        steps,
        tasks,
        scopes,
        binds,
    })
}

/// The budgets of a function in which entries open, if none is over its limit.
fn quick_budgets(alloc: Global, source: &Source<'_>) -> Result<Option<Budgets>, AllocError>
    requires { IsLaidFor source.now.earlier.now source.now.code.now source.now.layout.now }
    ensures { IfOk result (λ o.
        IfSome o (AreMost source.now.earlier.now source.now.code.now)) }
{
    if source.layout.deepest == 0 {
        return Ok(None);
    }
    budgets_together(alloc, source)
}

/// The cause of a budget that passes its limit.
fn cause_of(resource: Resource) -> Cause
    ensures { result ≡ cause_of resource }
{
    match resource {
        Resource::Steps => Cause::TooManySteps,
        Resource::Tasks => Cause::TooManyTasks,
        Resource::Scopes => Cause::TooManyScopes,
        Resource::Binds => Cause::TooManyBinds,
    }
}

/// The budget of the pass's resource.
fn budget_of(alloc: Global, pass: &Pass<'_>) -> Result<u32, BudgetError>
    requires ready { IsSet pass.now }
    requires most { pass.now.most ≡ limit_of pass.now.resource - own_of pass.now.resource }
    ensures { IsNumber pass.now.resource pass.now.earlier.now pass.now.code.now result }
{
    match greatest(alloc, pass)? {
        Some(number) => Ok(number),
        None => Err(BudgetError::TooMuch(cause_of(pass.resource))),
    }
}
