//! A path, or a point of one, that is over its budget.

ghost use Rattle.std.specs.Prelude.{◌≡◌, ◌<◌, ◌≤◌, ◌+◌, ◌⊎◌, ℕ, length, true, IfOk, MatchOption};
ghost use Rattle.sts_budget.specs.Change as change;
ghost use Rattle.sts_budget.specs.Laws.{PointsLieOnPaths};
ghost use Rattle.sts_rules.specs.Budget.{AreBudgets};
ghost use Rattle.sts_rules.specs.Refusal.{IsSound, IsWellTyped};
ghost use Rattle.look_refusal.specs.Heavy.{IsHeavy, IsUntold};
ghost use Rattle.look_refusal.specs.Found.{IsHeaviest, IsNotTold, IsWeighed};
ghost use Rattle.look_refusal.specs.Search as def;
ghost use Rattle.look_refusal.specs.Top.{IsTop};
ghost use Rattle.look_refusal.specs.Trail as trails;

use crate::earlier::budgets_before;
use crate::search::{Search, Spot, depth_at};
use crate::shares::Shares;
use crate::top::{Top, find_top};
use crate::trail::{Trail, find_trail};
use crate::walk::back_to_beginning;
use std::alloc::{AllocError, Global};
use sts_budget::{Resource, lay_out, limit_of, own_of};
use sts_code::{Program, code_of};
use sts_rules::{Budgets, filled};
use sts_types::typing_of;

/// A point of a control path: its place, its weight, and the share of each place of the function.
/// The weight of steps is that of the whole path that ends there. A share is what the steps of the
/// path at a place add.
#[derive(Drop)]
pub struct Heavy {
    pub place: u32,
    pub weight: u128,
    pub shares: Vec<u128>,
}

/// The heaviest point, if one is found, and if memory was enough.
pub type FoundHeavy = Result<Option<Heavy>, AllocError>;

/// The weight of the trail up to a place.
fn weigh(
    alloc: Global,
    search: &Search<'_>,
    trail: &Trail,
    place: u32,
    weight: u128,
) -> Result<Heavy, AllocError>
    requires ready { def.IsReady search.now }
    requires trail { trails.IsTrail search.now trail.now }
    requires in_code { place < length search.now.code.now }
    requires may { def.may_end search.now place ≡ true }
    requires weight { weight ≡
        change.own_of search.now.resource + trails.full_in search.now trail.now place }
    requires over { change.limit_of search.now.resource < weight }
    ensures weighed { IfOk result (IsWeighed search.now) }
    ensures weight { IfOk result (λ h. h.weight ≡ weight) }
{
    let to = Spot {
        place,
        depth: depth_at(search, place as usize),
    };
    let mut shares = Shares {
        places: filled(alloc, search.code.len(), 0)?,
        total: 0,
    };
    back_to_beginning(search, trail, to, &mut shares);
    let Shares { places, .. } = shares;
    Ok(Heavy {
        place,
        weight,
        shares: places,
    })
}

/// The weight of the greatest sum, if it is over the limit, and if 128 bits hold it.
fn weight_over(resource: Resource, most: u128) -> Option<u128>
    ensures { MatchOption result
        ((change.own_of resource + most ≤ change.limit_of resource)
        ⊎ (trails.greatest_number < change.own_of resource + most))
        (λ w. (w ≡ change.own_of resource + most) × (change.limit_of resource < w)) }
{
    let weight = most.checked_add(own_of(resource) as u128)?;
    if weight <= limit_of(resource) as u128 {
        None
    } else {
        Some(weight)
    }
}

/// The point of the greatest sum, if its weight is over the limit.
fn weigh_top(alloc: Global, search: &Search<'_>, trail: &Trail, top: Top) -> FoundHeavy
    requires ready { def.IsReady search.now }
    requires trail { trails.IsTrail search.now trail.now }
    requires lie { PointsLieOnPaths search.now.earlier.now search.now.code.now }
    requires top { IsTop search.now trail.now (length search.now.code.now) top.place top.most }
    ensures { IfOk result (λ o. MatchOption o (IsNotTold search.now) (IsHeaviest search.now)) }
{
    match weight_over(search.resource, top.most) {
        Some(weight) => Ok(Some(weigh(alloc, search, trail, top.place, weight)?)),
        None => Ok(None),
    }
}

/// The heaviest point that a search finds.
fn heaviest_found(alloc: Global, search: &Search<'_>) -> FoundHeavy
    requires ready { def.IsReady search.now }
    requires lie { PointsLieOnPaths search.now.earlier.now search.now.code.now }
    ensures { IfOk result (λ o. MatchOption o (IsNotTold search.now) (IsHeaviest search.now)) }
{
    let trail = match find_trail(alloc, search)? {
        Some(trail) => trail,
        None => return Ok(None),
    };
    match find_top(alloc, search, &trail)? {
        Some(top) => weigh_top(alloc, search, &trail, top),
        None => Ok(None),
    }
}

/// The heaviest point of the function, by the budgets of the functions before it.
fn heaviest_after(
    alloc: Global,
    program: &Program,
    function: u32,
    resource: Resource,
    earlier: &[Budgets],
) -> FoundHeavy
    requires in_program { function < length program.now.routines }
    requires typed { IsWellTyped program.now function }
    requires long { length earlier.now ≡ function }
    requires right { AreBudgets program.now earlier.now }
    ensures { IfOk result (λ o. MatchOption o (IsUntold program.now function resource)
        (IsHeavy program.now function resource)) }
{
    let code = code_of(program, function as usize);
    let typing = typing_of(alloc, program, function)?;
    let layout = lay_out(&typing);
    let search = Search {
        resource,
        earlier,
        code,
        layout: &layout,
    };
    heaviest_found(alloc, &search)
}

/// The heaviest point of a control path of the function, by what the budget of this resource
/// counts. The answer is `None` if no point is over the limit, or if 128 bits don't hold the count
/// of some point.
///
/// # Errors
///
/// Memory ran out.
pub fn heaviest(alloc: Global, program: &Program, function: u32, resource: Resource) -> FoundHeavy
    requires in_program { function < length program.now.routines }
    requires typed { IsWellTyped program.now function }
    requires sound { (g : ℕ) → g < function → IsSound program.now g }
    ensures { IfOk result (λ o. MatchOption o (IsUntold program.now function resource)
        (IsHeavy program.now function resource)) }
{
    let earlier = budgets_before(alloc, program, function)?;
    heaviest_after(alloc, program, function, resource, earlier.as_slice())
}
