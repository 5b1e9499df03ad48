//! Whether a task can step, and its place in the ready list.

ghost use Rattle.std.specs.Prelude.{◌≡◌, ◌≢◌, ℕ, Some, None, true, slice_index_or};
ghost use Rattle.sts_model.specs.declared.event.Stand.TheVariants.{Free};
ghost use Rattle.sts_tree.specs.Births.{has};
ghost use Rattle.sts_tree.specs.Steps as steps;
ghost use Rattle.sts_tree.specs.Steps.{seen};
ghost use Rattle.sts_tree.specs.declared.record.TaskNode.{TaskNode as AnyTask};

use crate::forest::Forest;
use sts_model::Stand;

#[inline(always)]
pub(crate) fn can_go<E: Drop>(forest: &Forest<E>, flag: bool, stand: Stand) -> bool
    ensures { result ≡ steps.can_go forest.now flag stand }
{
    match stand {
        Stand::Free => true,
        Stand::AtJoin(s) => forest.has_outcome(s) || flag,
        Stand::AtClose(s) => !forest.any_lives(s),
    }
}

/// Whether a task can step, and whether it is in the ready list.
#[derive(Clone, Copy)]
pub(crate) struct Place {
    pub(crate) can_step: bool,
    pub(crate) is_ready: bool,
}

#[inline(always)]
fn place_of<E: Drop>(forest: &Forest<E>, t: u32) -> Place
    ensures steps { result.can_step ≡ steps.can_step forest.now t }
    ensures ready { result.is_ready ≡ has t forest.now.ready }
    ensures stands { result.is_ready ≡ true → slice_index_or forest.now.tasks t None ≢ None }
{
    match forest.task(t) {
        None => Place {
            can_step: false,
            is_ready: false,
        },
        Some(task) => Place {
            can_step: task.lives && can_go(forest, task.flag, task.stand),
            is_ready: task.ready,
        },
    }
}

/// Puts a task into the ready list if it can step, and takes it out if it can't.
#[inline(always)]
pub(crate) fn settle<E: Drop>(forest: &mut Forest<E>, t: u32)
    ensures seen { seen forest.new ≡ seen forest.old }
    ensures ready { (u : ℕ) →
        (u ≢ t → has u forest.old.ready ≡ steps.can_step forest.old u) →
        has u forest.new.ready ≡ steps.can_step forest.new u }
{
    let place = place_of(forest, t);
    settle_at(forest, t, place);
}

/// Is the task at no scope?
#[inline(always)]
fn is_at_none<E: Drop>(forest: &Forest<E>, t: u32) -> bool
    ensures { result ≡ true → (x : AnyTask)
        × (slice_index_or forest.now.tasks t None ≡ Some x) × (x.stand ≡ Free) }
{
    match forest.task(t) {
        None => false,
        Some(task) => matches!(task.stand, Stand::Free),
    }
}

/// Settles a task whose place in the ready list is right if it is at no scope.
#[inline(always)]
pub(crate) fn settle_waiting<E: Drop>(forest: &mut Forest<E>, t: u32)
    requires { (x : AnyTask) → slice_index_or forest.old.tasks t None ≡ Some x → x.stand ≡ Free
        → has t forest.old.ready ≡ steps.can_step forest.old t }
    ensures seen { seen forest.new ≡ seen forest.old }
    ensures ready { (u : ℕ) →
        (u ≢ t → has u forest.old.ready ≡ steps.can_step forest.old u) →
        has u forest.new.ready ≡ steps.can_step forest.new u }
{
    if is_at_none(forest, t) {
        return;
    }
    settle(forest, t);
}

/// Settles a task whose place is known.
#[inline(always)]
pub(crate) fn settle_at<E: Drop>(forest: &mut Forest<E>, t: u32, place: Place)
    requires steps { place.can_step ≡ steps.can_step forest.old t }
    requires ready { place.is_ready ≡ has t forest.old.ready }
    requires stands { place.is_ready ≡ true → slice_index_or forest.old.tasks t None ≢ None }
    ensures seen { seen forest.new ≡ seen forest.old }
    ensures ready { (u : ℕ) →
        (u ≢ t → has u forest.old.ready ≡ steps.can_step forest.old u) →
        has u forest.new.ready ≡ steps.can_step forest.new u }
{
    if place.can_step && !place.is_ready {
        forest.push_ready(t);
        return;
    }
    if !place.can_step && place.is_ready {
        forest.drop_ready(t);
    }
}
