//! The end of a task.

ghost use Rattle.std.specs.Prelude.{◌≡◌, ◌<◌, Some, if◌then◌else◌};
ghost use Rattle.sts_code.specs.declared.limits.TheConstants.{MAX_STANDING};
ghost use Rattle.sts_joiners.specs.Tallied.{ends_told, with_end};
ghost use Rattle.sts_tree.specs.Ending.{asks_told};

use crate::record::ScopeNode;
use sts_model::End;

/// What the end of a task leaves to its caller.
#[derive(Clone, Copy)]
pub struct Ended {
    /// Does the joiner of the scope now ask to cancel?
    pub asks: bool,
    /// The task that may wait for the end: the owner of the scope. For the root it is the root
    /// itself.
    pub waiter: u32,
    /// Was the task in the ready list?
    pub was_ready: bool,
    /// Does another subtask of the scope live?
    pub others: bool,
}

/// Keeps the end of a subtask as its state, and tells the joiner of its scope. In a cancelled scope
/// it does neither. Answers whether the joiner now asks to cancel.
#[inline(always)]
pub(crate) fn tell<E: Drop>(scope: &mut ScopeNode<E>, state: &mut Option<End>, end: End) -> bool
    requires { ends_told scope.old.tally < MAX_STANDING }
    ensures scope { scope.new ≡ (if scope.old.cancelled then scope.old else
        record scope.old { tally = with_end scope.old.tally end }) }
    ensures state { state.new ≡ (if scope.old.cancelled then state.old else Some end) }
    ensures asks { result ≡ asks_told end (Some scope.old) }
{
    if scope.cancelled {
        return false;
    }
    *state = Some(end);
    scope.tally.on_complete(end)
}
