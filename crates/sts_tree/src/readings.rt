//! Readings of the tasks and scopes that count.

ghost use Rattle.std.specs.Prelude.{◌≡◌, ◌≢◌, ◌++◌, ◌∷◌, ◌≤◌, ℕ, List, length, Some, None, true};
ghost use Rattle.std.specs.Prelude.{◌&&◌, ◌==◌, false, not, slice_index_or, option_copied};
ghost use Rattle.std.specs.List.{list_any};
ghost use Rattle.sts_tree.specs.Births.{births};
ghost use Rattle.sts_tree.specs.Forest.{any_lives, is_of, lives_in};
ghost use Rattle.sts_records.specs.Holes.{key_at};
ghost use Rattle.sts_tree.specs.declared.record.TaskNode.{TaskNode as AnyTask};
ghost use Rattle.sts_links.specs.Lists.{first_or};
ghost use Rattle.sts_model.specs.Told.{result_told};
ghost use Rattle.sts_tree.specs.Reading.{count_of, lives_at};
ghost use Rattle.sts_tree.specs.Steps as steps;

use crate::record::{ScopeNode, Subtasks, TaskNode};
use crate::tree::Tree;
use sts_code::{Joiner, Kind};
use sts_model::{End, Phase, Verdict};

/// Is the task in the list? Usually the list is empty.
#[inline(always)]
fn contains(list: &[u32], t: u32) -> bool
    ensures value { result ≡ list_any (λ o. o == t) list.now }
{
    !list.is_empty() && list.contains(&t)
}

impl<E: Drop> Tree<E> {
    ghost use Rattle.sts_tree.specs.declared.record.ScopeNode.{ScopeNode as AnyScope};

    /// The task of a birth, if it still counts.
    pub fn task(&self, t: u32) -> Option<&TaskNode>
        ensures value { option_copied result ≡ slice_index_or self.now.tasks t None }
        ensures home { (x : AnyTask) (s : ℕ) → slice_index_or self.now.tasks t None ≡ Some x →
            x.scope ≡ Some s → slice_index_or self.now.scopes s None ≢ None }
    {
        self.forest.task(t)
    }

    /// The task of a birth. It must still count.
    #[inline(always)]
    pub fn node(&self, t: u32) -> &TaskNode
        requires { slice_index_or self.now.tasks t None ≢ None }
        ensures value { slice_index_or self.now.tasks t None ≡ Some result.now }
        ensures home { (s : ℕ) → result.now.scope ≡ Some s →
            slice_index_or self.now.scopes s None ≢ None }
    {
        self.forest.task_node(t)
    }

    /// The scope of a birth, if it isn't closed.
    pub fn scope(&self, s: u32) -> Option<&ScopeNode<E>>
        ensures { option_copied result ≡ slice_index_or self.now.scopes s None }
    {
        self.forest.scope(s)
    }

    /// The owner of a scope.
    pub fn owner(&self, s: u32) -> u32
        requires { slice_index_or self.now.scopes s None ≢ None }
        ensures { (c : AnyScope E) → slice_index_or self.now.scopes s None ≡ Some c →
            result ≡ c.owner }
    {
        self.forest.scope_node(s).owner
    }

    /// A scope's joiner.
    pub fn joiner(&self, s: u32) -> Joiner
        requires { slice_index_or self.now.scopes s None ≢ None }
        ensures { (c : AnyScope E) → slice_index_or self.now.scopes s None ≡ Some c →
            result ≡ c.tally.joiner }
    {
        self.forest.scope_node(s).tally.joiner()
    }

    /// Has the scope a timeout?
    pub fn timed(&self, s: u32) -> bool
        requires { slice_index_or self.now.scopes s None ≢ None }
        ensures { (c : AnyScope E) → slice_index_or self.now.scopes s None ≡ Some c →
            result ≡ c.timed }
    {
        self.forest.scope_node(s).timed
    }

    /// A scope's phase.
    pub fn phase(&self, s: u32) -> Phase
        requires { slice_index_or self.now.scopes s None ≢ None }
        ensures { (c : AnyScope E) → slice_index_or self.now.scopes s None ≡ Some c →
            result ≡ c.phase }
    {
        self.forest.scope_node(s).phase
    }

    /// Is the scope cancelled?
    pub fn cancelled(&self, s: u32) -> bool
        requires { slice_index_or self.now.scopes s None ≢ None }
        ensures { (c : AnyScope E) → slice_index_or self.now.scopes s None ≡ Some c →
            result ≡ c.cancelled }
    {
        self.forest.scope_node(s).cancelled
    }

    /// Has the scope expired?
    pub fn expired(&self, s: u32) -> bool
        requires { slice_index_or self.now.scopes s None ≢ None }
        ensures { (c : AnyScope E) → slice_index_or self.now.scopes s None ≡ Some c →
            result ≡ c.expired }
    {
        self.forest.scope_node(s).expired
    }

    /// The value that is kept for the scope.
    pub fn env(&self, s: u32) -> &E
        requires { slice_index_or self.now.scopes s None ≢ None }
        ensures { (c : AnyScope E) → slice_index_or self.now.scopes s None ≡ Some c →
            result.now ≡ c.environment }
    {
        &self.forest.scope_node(s).environment
    }

    /// How many subtasks a scope has.
    pub fn subtasks(&self, s: u32) -> u32
        ensures { result ≡ length (births (is_of s) 0 self.now.tasks) }
    {
        self.forest.subtasks(s)
    }

    /// Does a subtask of the scope live?
    pub fn any_lives(&self, s: u32) -> bool
        ensures { result ≡ any_lives self.now.tasks s }
    {
        self.forest.any_lives(s)
    }

    /// The joiner's result at this moment.
    pub fn result(&self, s: u32) -> Verdict
        requires { slice_index_or self.now.scopes s None ≢ None }
        ensures { (c : AnyScope E) → slice_index_or self.now.scopes s None ≡ Some c →
            result ≡ result_told c.tally.joiner c.tally.told
            (length (births (is_of s) 0 self.now.tasks)) }
    {
        let subtasks = self.forest.subtasks(s);
        self.forest.scope_node(s).tally.result(subtasks)
    }

    /// How many subtasks are in a state.
    pub fn count(&self, s: u32, kind: Kind) -> u32
        requires { slice_index_or self.now.scopes s None ≢ None }
        ensures { (c : AnyScope E) → slice_index_or self.now.scopes s None ≡ Some c →
            result ≡ count_of self.now s c kind }
    {
        let tally = &self.forest.scope_node(s).tally;
        match kind {
            Kind::S => tally.successes(),
            Kind::F => tally.failures(),
            Kind::U => self.forest.subtasks(s) - tally.successes() - tally.failures(),
        }
    }

    /// The sum of the values of the successes that the joiner was told of.
    pub fn total(&self, s: u32) -> i64
        requires { slice_index_or self.now.scopes s None ≢ None }
        ensures { (c : AnyScope E) → slice_index_or self.now.scopes s None ≡ Some c →
            result ≡ c.tally.told.total }
    {
        self.forest.scope_node(s).tally.total()
    }

    /// Does the task live?
    pub fn lives(&self, t: u32) -> bool
        ensures { result ≡ lives_at self.now t }
    {
        match self.forest.task(t) {
            None => false,
            Some(task) => task.lives,
        }
    }

    /// A task's flag.
    pub fn flag(&self, t: u32) -> bool
        requires { slice_index_or self.now.tasks t None ≢ None }
        ensures { (x : AnyTask) → slice_index_or self.now.tasks t None ≡ Some x → result ≡ x.flag }
    {
        self.forest.task_node(t).flag
    }

    /// The scope that a task is a subtask of; the root has none.
    pub fn scope_of(&self, t: u32) -> Option<u32>
        requires { slice_index_or self.now.tasks t None ≢ None }
        ensures { (x : AnyTask) → slice_index_or self.now.tasks t None ≡ Some x → result ≡ x.scope }
    {
        self.forest.task_node(t).scope
    }

    /// A task's state as a subtask; `None` means unavailable.
    pub fn state(&self, t: u32) -> Option<End>
        requires { slice_index_or self.now.tasks t None ≢ None }
        ensures { (x : AnyTask) → slice_index_or self.now.tasks t None ≡ Some x → result ≡ x.state }
    {
        self.forest.task_node(t).state
    }

    /// The first subtask in fork order.
    pub fn fork_front(&self, s: u32) -> Option<u32>
        ensures { result ≡ first_or (births (is_of s) 0 self.now.tasks) None }
    {
        self.forest.front_in(Subtasks::All, s)
    }

    /// The next subtask of its scope in fork order.
    pub fn fork_after(&self, t: u32) -> Option<u32>
        requires { (s : ℕ) × (front : List ℕ) × (back : List ℕ)
            × (births (is_of s) 0 self.now.tasks ≡ front ++ t ∷ back) }
        ensures { (s : ℕ) (front back : List ℕ) →
            births (is_of s) 0 self.now.tasks ≡ front ++ t ∷ back → result ≡ first_or back None }
    {
        self.forest.after_in(Subtasks::All, t)
    }

    /// The first living subtask in fork order.
    pub fn living_front(&self, s: u32) -> Option<u32>
        ensures { result ≡ first_or (births (lives_in s) 0 self.now.tasks) None }
    {
        self.forest.front_in(Subtasks::Living, s)
    }

    /// The next living subtask of its scope in fork order.
    pub fn living_after(&self, t: u32) -> Option<u32>
        requires { (s : ℕ) × (front : List ℕ) × (back : List ℕ)
            × (births (lives_in s) 0 self.now.tasks ≡ front ++ t ∷ back) }
        ensures { (s : ℕ) (front back : List ℕ) →
            births (lives_in s) 0 self.now.tasks ≡ front ++ t ∷ back → result ≡ first_or back None }
    {
        self.forest.after_in(Subtasks::Living, t)
    }

    /// The key of a task's record, if it exists.
    pub fn key_of(&self, t: u32) -> Option<usize>
        ensures { result ≡ key_at self.now.tasks self.now.task_keys t }
    {
        self.forest.key_of(t)
    }

    /// The task that has its record at this key.
    pub fn birth(&self, key: usize) -> u32
        requires { (t : ℕ) × (key_at self.now.tasks self.now.task_keys t ≡ Some key) }
        ensures { (t : ℕ) → key_at self.now.tasks self.now.task_keys t ≡ Some key → result ≡ t }
    {
        self.forest.birth(key)
    }

    /// The key of a scope's record, if it exists.
    pub fn scope_key_of(&self, s: u32) -> Option<usize>
        ensures { result ≡ key_at self.now.scopes self.now.scope_keys s }
    {
        self.forest.scope_key_of(s)
    }

    /// The scope that has its record at this key.
    pub fn scope_birth(&self, key: usize) -> u32
        requires { (s : ℕ) × (key_at self.now.scopes self.now.scope_keys s ≡ Some key) }
        ensures { (s : ℕ) → key_at self.now.scopes self.now.scope_keys s ≡ Some key → result ≡ s }
    {
        self.forest.scope_birth(key)
    }

    /// The next task that can step.
    pub fn ready_after(&self, t: u32) -> Option<u32>
        requires { steps.can_step self.now t ≡ true }
        ensures { (front back : List ℕ) →
            self.now.ready ≡ front ++ t ∷ back → result ≡ first_or back None }
    {
        self.forest.ready_after(t)
    }

    /// A task that can step and is not in this list, or `None` if there is no such task.
    pub fn ready_beside(&self, out: &[u32]) -> Option<u32>
        ensures some { (t : ℕ) → result ≡ Some t → (steps.can_step self.now t
            && not (list_any (λ o. o == t) out.now)) ≡ true }
        ensures none { (t : ℕ) → result ≡ None → (steps.can_step self.now t
            && not (list_any (λ o. o == t) out.now)) ≡ false }
    {
        let mut at = self.ready_front();
        while let Some(t) = at {
            if !contains(out, t) {
                return Some(t);
            }
            at = self.ready_after(t);
        }
        None
    }

    /// How many more tasks fit.
    pub fn task_room(&self) -> u32
        ensures { result ≡ self.now.task_room }
    {
        self.forest.task_room()
    }

    /// How many more scopes fit.
    pub fn scope_room(&self) -> u32
        ensures { result ≡ self.now.scope_room }
    {
        self.forest.scope_room()
    }

    /// How many tasks were born.
    pub fn tasks_born(&self) -> usize
        ensures value { result ≡ length self.now.tasks }
        ensures few { result ≤ 1000000 }
    {
        self.forest.tasks_born()
    }

    /// How many scopes were born.
    pub fn scopes_born(&self) -> usize
        ensures value { result ≡ length self.now.scopes }
        ensures few { result ≤ 1000000 }
    {
        self.forest.scopes_born()
    }
}
