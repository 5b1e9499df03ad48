//! Interrupts and expiries from outside, and cancels that a joiner asks for.

ghost use Rattle.std.specs.Prelude.{◌≡◌, ◌≢◌, Some, None, true, slice_index_or};
ghost use Rattle.sts_tree.specs.declared.record.TaskNode.{TaskNode as AnyTask};
ghost use Rattle.sts_tree.specs.declared.record.ScopeNode.{ScopeNode as AnyScope};
ghost use Rattle.sts_tree.specs.Steps.{seen, with_task};
ghost use Rattle.sts_cancel.specs.Cancelling as cancelling;

use sts_tree::Tree;

/// Cancels a scope: it is marked, and its living subtasks have their flags set. A second cancel
/// does nothing.
pub fn cancel<E: Drop>(tree: &mut Tree<E>, s: u32)
    requires { slice_index_or tree.old.scopes s None ≢ None }
    ensures { (c : AnyScope E) → slice_index_or tree.old.scopes s None ≡ Some c →
        seen tree.new ≡ seen (cancelling.cancel tree.old s c) }
{
    if tree.cancelled(s) {
        return;
    }
    tree.mark_cancelled(s);
    raise_living(tree, s);
}

/// Sets the flag of each living subtask of a scope.
fn raise_living<E: Drop>(tree: &mut Tree<E>, s: u32)
    ensures { seen tree.new ≡ seen (cancelling.raise_all tree.old s) }
{
    let mut at = tree.living_front(s);
    for _ in 0..tree.subtasks(s) {
        let Some(t) = at else {
            return;
        };
        tree.raise(t);
        at = tree.living_after(t);
    }
}

/// Sets a task's flag.
pub fn interrupt<E: Drop>(tree: &mut Tree<E>, t: u32)
    requires { slice_index_or tree.old.tasks t None ≢ None }
    ensures { (x : AnyTask) → slice_index_or tree.old.tasks t None ≡ Some x →
        seen tree.new ≡ seen (with_task tree.old t (record x { flag = true })) }
{
    tree.raise(t);
}

/// Marks a scope as expired and cancels it.
pub fn expire<E: Drop>(tree: &mut Tree<E>, s: u32)
    requires { slice_index_or tree.old.scopes s None ≢ None }
    ensures { (c : AnyScope E) → slice_index_or tree.old.scopes s None ≡ Some c →
        seen tree.new ≡ seen (cancelling.expire tree.old s c) }
{
    tree.mark_expired(s);
    cancel(tree, s);
}
