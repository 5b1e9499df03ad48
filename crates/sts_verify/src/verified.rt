//! Programs that were verified.

ghost use Rattle.std.specs.Prelude.{◌≡◌, ◌<◌, ◌≤◌, ◌+◌, length, MatchResult};
ghost use Rattle.sts_rules.specs.Budget.{AreBudgets};
ghost use Rattle.sts_rules.specs.Refusal.{IsAccepted, IsSound, IsBudgetOf};
ghost use Rattle.sts_verify.specs.Verifying as def;

use crate::error::VerifyError;
use std::alloc::Global;
use std::marker::Model;
use sts_budget::{BudgetError, typed_budget};
use sts_code::{MAX_INSTRUCTIONS, Program, code_of};
use sts_rules::Budgets;
use sts_types::{TypeError, typed_function};

/// A program that was accepted: contracts see the program.
#[derive(Drop)]
pub struct Verified {
    program: Program,
    budgets: Vec<Budgets>,
}

impl Model for Verified {
    ghost use Rattle.std.specs.Prelude.{◌≡◌, length};
    ghost use Rattle.sts_code.specs.Program.{Program};
    ghost use Rattle.sts_rules.specs.Refusal.{IsAccepted};
    ghost use Rattle.sts_rules.specs.Budget.{AreBudgets};

    ghost Value = { Program };

    ghost view = { λ v. v.program };

    ghost invariant = { λ v. IsAccepted v.program
        × (length v.budgets.items ≡ length v.program.routines)
        × AreBudgets v.program v.budgets.items };
}

impl Verified {
    /// The program that was accepted.
    pub fn program(&self) -> &Program
        ensures value { result.now ≡ self.now }
        ensures accepted { IsAccepted self.now }
    {
        &self.program
    }

    /// The budgets of a function.
    pub fn budgets(&self, function: usize) -> Budgets
        requires { function < length self.now.routines }
        ensures { IsBudgetOf self.now function result }
    {
        self.budgets[function]
    }

    /// The program that was accepted, given back.
    pub fn into_program(self) -> Program
        ensures value { result ≡ self }
        ensures accepted { IsAccepted self }
    {
        self.program
    }
}

/// The refusal of a function, as an error of the program.
fn told(program: Program, function: u32, error: TypeError) -> VerifyError
    ensures { result ≡ def.told program function error }
{
    match error {
        TypeError::Memory => VerifyError::Memory(program),
        TypeError::Refused { pc, cause } => VerifyError::Refused {
            program,
            function,
            pc,
            cause,
        },
    }
}

/// Reports a budget over its limit (V17 to V20) at the place after the last of `count`
/// instructions.
fn at_end(count: usize, error: BudgetError) -> TypeError
    requires { count ≤ MAX_INSTRUCTIONS }
    ensures { result ≡ def.at_end count error }
{
    match error {
        BudgetError::Memory => TypeError::Memory,
        BudgetError::TooMuch(cause) => TypeError::Refused {
            pc: count as u32,
            cause,
        },
    }
}

/// Verifies a function, given the budgets of the functions before it, and adds its own.
fn verify_function(
    alloc: Global,
    program: &Program,
    function: u32,
    budgets: &mut Vec<Budgets>,
) -> Result<(), TypeError>
    requires in_program { function < length program.now.routines }
    requires long { length budgets.old.items ≡ function }
    requires right { AreBudgets program.now budgets.old.items }
    ensures { MatchResult result (λ _. IsSound program.now function ×
        (length budgets.new.items ≡ function + 1) × AreBudgets program.now budgets.new.items)
        (def.TellsOf program.now function) }
{
    let typing = typed_function(alloc, program, function)?;
    let count = code_of(program, function as usize).len();
    match typed_budget(
        alloc,
        program,
        function as usize,
        budgets.as_slice(),
        &typing,
    ) {
        Ok(found) => match budgets.push(found) {
            Ok(()) => Ok(()),
            Err(_) => Err(TypeError::Memory),
        },
        Err(error) => Err(at_end(count, error)),
    }
}

/// Verifies a program. It is accepted, or refused at its first place with a cause, for the cause
/// that is named there.
///
/// # Errors
///
/// The refusal, or memory ran out; both give the program back.
pub fn verify(alloc: Global, program: Program) -> Result<Verified, VerifyError>
    ensures { MatchResult result (λ verified. (verified ≡ program) ×
        IsAccepted program) (def.Tells program) }
{
    let mut budgets = Vec::new(alloc);
    for function in 0..program.functions().len() as u32 {
        if let Err(error) = verify_function(alloc, &program, function, &mut budgets) {
            return Err(told(program, function, error));
        }
    }
    Ok(Verified { program, budgets })
}
