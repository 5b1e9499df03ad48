//! The laws that a machine relies on.

ghost use Rattle.std.specs.Prelude.{◌<◌, ◌≤◌};
ghost use Rattle.sts_code.specs.declared.limits.TheConstants.{MAX_STANDING};
ghost use Rattle.laws_accepted.specs.Accepted.{main_of};
ghost use Rattle.sts_machine.specs.Laws.{HasLaws};
ghost use Rattle.sts_rules.specs.Refusal.{IsBudgetOf};

use laws_accepted::{every_run, limits_hold, turns_are_safe, turns_are_seen, views_have_room};
use laws_live::seen_in_order;
use sts_rules::Budgets;
use sts_verify::Verified;

/// The budgets that are printed for `main`, and the laws of a verified program. A machine keeps
/// them, so that no turn asks for them again.
pub(crate) fn laws(verified: &Verified) -> Budgets
    ensures printed { IsBudgetOf verified.now (main_of verified.now) result }
    ensures some { 0 < result.tasks }
    ensures few { result.tasks ≤ MAX_STANDING }
    ensures laws { HasLaws verified.now }
{
    turns_are_seen(verified);
    turns_are_safe(verified);
    seen_in_order();
    views_have_room(verified);
    limits_hold(verified);
    let _ = verified.program().functions();
    every_run(verified)
}

/// The budgets that are printed of `main`.
pub(crate) fn main_budgets(verified: &Verified) -> Budgets
    ensures { IsBudgetOf verified.now (main_of verified.now) result }
{
    verified.budgets(verified.program().functions().len() - 1)
}
