//! The records of tasks and of scopes.

ghost use Rattle.std.specs.Prelude.{◌≡◌};
ghost use Rattle.sts_tree.specs.Layers.{layer_of, list_in};
ghost use Rattle.sts_tree.specs.Marks.{with_mark};

use sts_joiners::Tally;
use sts_links::{Ends, Link};
use sts_model::{End, Phase, Stand};

/// A task that still counts. It names others by birth number.
#[derive(Clone, Copy)]
pub struct TaskNode {
    /// The scope that it is a subtask of; the root has none.
    pub scope: Option<u32>,
    pub flag: bool,
    pub lives: bool,
    /// Its state as a subtask; `None` means unavailable.
    pub state: Option<End>,
    pub stand: Stand,
    /// Is it in the ready list?
    pub ready: bool,
}

/// A task with its link in each of three layers: subtasks in fork order, living ones in fork order,
/// ready ones.
#[derive(Clone, Copy)]
pub(crate) struct TaskRecord {
    pub(crate) task: TaskNode,
    pub(crate) links: [Link; 3],
}

/// A scope that isn't closed.
#[derive(Drop)]
pub struct ScopeNode<E> {
    pub owner: u32,
    pub timed: bool,
    pub phase: Phase,
    pub cancelled: bool,
    pub expired: bool,
    pub tally: Tally,
    pub environment: E,
}

/// A mark of a scope. It is never taken back.
#[derive(Clone, Copy)]
pub enum Mark {
    Cancelled,
    Expired,
}

impl<E: Drop> ScopeNode<E> {
    /// Marks the scope.
    #[inline(always)]
    pub(crate) fn mark(&mut self, mark: Mark)
        ensures { self.new ≡ with_mark mark self.old }
    {
        match mark {
            Mark::Cancelled => self.cancelled = true,
            Mark::Expired => self.expired = true,
        }
    }
}

/// Which subtasks of a scope are in a list, in fork order.
#[derive(Clone, Copy)]
pub enum Subtasks {
    All,
    Living,
}

impl Subtasks {
    /// The layer of the links in this list.
    #[inline(always)]
    pub(crate) fn layer(self) -> u8
        ensures { result ≡ layer_of self }
    {
        match self {
            Subtasks::All => 0,
            Subtasks::Living => 1,
        }
    }
}

/// A scope with the lists of its subtasks.
#[derive(Drop)]
pub(crate) struct ScopeRecord<E> {
    pub(crate) scope: ScopeNode<E>,
    pub(crate) forks: Ends,
    pub(crate) fork_count: u32,
    pub(crate) living: Ends,
}

impl<E: Drop> ScopeRecord<E> {
    /// Returns the list of these subtasks.
    #[inline(always)]
    pub(crate) fn list(&self, subtasks: Subtasks) -> Ends
        ensures { result ≡ list_in subtasks self.now }
    {
        match subtasks {
            Subtasks::All => self.forks,
            Subtasks::Living => self.living,
        }
    }
}
