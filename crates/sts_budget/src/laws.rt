//! Laws of the budgets: functions with empty bodies. Their contracts are the laws.

ghost use Rattle.std.specs.Prelude.{◌<◌, length};
ghost use Rattle.sts_code.specs.Program.{routine};
ghost use Rattle.sts_rules.specs.Refusal.{IsWellTyped};
ghost use Rattle.sts_budget.specs.Laws.{IsBudgeted, PointsLieOnPaths, PointsAreWithin};
ghost use Rattle.sts_budget.specs.Laws.{ChildrenArePart};

use sts_code::{Program, code_of};
use sts_rules::Budgets;

/// Law: each point of a control path of a well-typed function is on a whole path.
pub fn points_lie_on_paths(program: &Program, function: usize, earlier: &[Budgets])
    requires in_program { function < length program.now.routines }
    requires typed { IsWellTyped program.now function }
    ensures { PointsLieOnPaths earlier.now (routine program.now function).code }
{
    code_of(program, function);
}

/// Law: no point of a control path of a well-typed function is over its budgets.
pub fn points_are_within(program: &Program, function: usize, earlier: &[Budgets], budgets: Budgets)
    requires { IsBudgeted program.now function earlier.now budgets }
    ensures { PointsAreWithin earlier.now (routine program.now function).code budgets }
{
    code_of(program, function);
}

/// Law: the budgets of a subtask are part of those of the task that forks it.
pub fn children_are_part(program: &Program, function: usize, earlier: &[Budgets], budgets: Budgets)
    requires { IsBudgeted program.now function earlier.now budgets }
    ensures { ChildrenArePart earlier.now (routine program.now function).code budgets }
{
    code_of(program, function);
}
