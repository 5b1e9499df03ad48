//! The tree: after every call the ready list has the tasks that can step.

ghost use Rattle.std.specs.Prelude.{◌≡◌, ◌≢◌, ℕ, ◌∷◌, ◌++◌, length, ◌<◌, ◌≤◌, ◌-◌, [], IfOk};
ghost use Rattle.std.specs.Prelude.{Some, None, true, false, not, slice_index_or};
ghost use Rattle.sts_tree.specs.Births.{has};
ghost use Rattle.sts_tree.specs.Forest.{any_lives, closed, opened, root, subtask};
ghost use Rattle.sts_tree.specs.declared.record.TaskNode.{TaskNode as AnyTask};
ghost use Rattle.sts_links.specs.Lists.{AreDistinct, first_or};
ghost use Rattle.sts_model.specs.declared.event.Stand.TheVariants.{Free};
ghost use Rattle.sts_tree.specs.Ending.{asks_ended, ended};
ghost use Rattle.sts_tree.specs.Marks.{with_mark};
ghost use Rattle.sts_tree.specs.Steps as steps;
ghost use Rattle.sts_tree.specs.Steps.{seen, with_task, with_scope, stands_at};

use crate::forest::Forest;
use crate::record::Mark;
use crate::settling::{Place, can_go, settle, settle_at, settle_waiting};
use std::alloc::{AllocError, Global};
use std::marker::Model;
use sts_code::Joiner;
use sts_model::{End, Phase, Stand};

/// The tasks and scopes that count. Contracts see them as a forest with a ready list of the tasks
/// that can step.
#[derive(Drop)]
pub struct Tree<E> {
    pub(crate) forest: Forest<E>,
}

impl<E> Model for Tree<E> {
    ghost use Rattle.sts_tree.specs.Forest.{Forest as Records};

    ghost Value = { Records E };

    ghost use Rattle.sts_tree.specs.Steps.{IsTree};

    ghost view = { λ t. t.forest };

    ghost invariant = { λ t. IsTree t.forest };
}

impl<E: Drop> Tree<E> {
    ghost use Rattle.sts_tree.specs.declared.record.ScopeNode.{ScopeNode as AnyScope};

    /// The root task alone, which can step, with room for `tasks` tasks and `scopes` scopes. No
    /// later call can answer that memory ran out.
    ///
    /// # Errors
    ///
    /// Memory ran out.
    pub fn with_room(alloc: Global, tasks: u32, scopes: u32) -> Result<Tree<E>, AllocError>
        requires some { 0 < tasks }
        requires few { tasks ≤ 65536 }
        ensures value { IfOk result (λ t. t ≡ record {
          tasks = Some root ∷ [];
          scopes = [];
          ready = 0 ∷ [];
          task_keys = t.task_keys;
          scope_keys = [];
          task_room = tasks - 1;
          scope_room = scopes;
        }) }
        ensures keys { IfOk result (λ t. (key : ℕ) × (t.task_keys ≡ key ∷ [])) }
    {
        let forest = Forest::with_room(alloc, tasks, scopes)?;
        Ok(Tree { forest })
    }

    /// Opens a scope without subtasks.
    pub fn open_scope(&mut self, owner: u32, joiner: Joiner, timed: bool, environment: E) -> u32
        requires room { 0 < self.old.scope_room }
        requires born { length self.old.scopes < 1000000 }
        ensures birth { result ≡ length self.old.scopes }
        ensures opened { self.new ≡ record self.old {
          scopes = self.old.scopes ++ Some (opened owner joiner timed environment) ∷ [];
          scope_keys = self.new.scope_keys;
          scope_room = self.old.scope_room - 1;
        } }
        ensures keys { (key : ℕ) × (self.new.scope_keys ≡ self.old.scope_keys ++ key ∷ []) }
    {
        self.forest.open_scope(owner, joiner, timed, environment)
    }

    /// Adds a subtask, and answers its birth and whether it lives. In a cancelled scope it never
    /// runs. An owner that waits at the scope may have to wait again.
    pub fn add_subtask(&mut self, s: u32) -> (u32, bool)
        requires stands { slice_index_or self.old.scopes s None ≢ None }
        requires room { 0 < self.old.task_room }
        requires born { length self.old.tasks < 1000000 }
        ensures birth { result.0 ≡ length self.old.tasks }
        ensures lives { (c : AnyScope E) → slice_index_or self.old.scopes s None ≡ Some c →
            result.1 ≡ not c.cancelled }
        ensures added { (c : AnyScope E) → slice_index_or self.old.scopes s None ≡ Some c →
            seen self.new ≡ seen (record self.old {
              tasks = self.old.tasks ++ Some (subtask s (not c.cancelled)) ∷ [];
              task_keys = self.new.task_keys;
              task_room = self.old.task_room - 1;
            }) }
        ensures keys { (key : ℕ) × (self.new.task_keys ≡ self.old.task_keys ++ key ∷ []) }
    {
        let scope = self.forest.scope_node(s);
        let (owner, lives) = (scope.owner, !scope.cancelled);
        let t = self.forest.add_subtask(s, lives);
        let place = Place {
            can_step: lives,
            is_ready: false,
        };
        settle_at(&mut self.forest, t, place);
        settle_waiting(&mut self.forest, owner);
        (t, lives)
    }

    /// Takes out a scope and its subtasks. None of these may live.
    pub fn close_scope(&mut self, s: u32)
        requires stands { slice_index_or self.old.scopes s None ≢ None }
        requires ended { any_lives self.old.tasks s ≡ false }
        requires free { (c : AnyScope E) (x : AnyTask) →
            slice_index_or self.old.scopes s None ≡ Some c →
            slice_index_or self.old.tasks c.owner None ≡ Some x → x.stand ≡ Free }
        ensures { self.new ≡ closed self.old s }
    {
        self.forest.close_scope(s);
    }

    /// Ends a task. The joiner of its scope is told unless the scope is cancelled. Answers whether
    /// the joiner now asks to cancel.
    #[inline(always)]
    pub fn end_task(&mut self, t: u32, end: End) -> bool
        requires { (x : AnyTask)
            × (slice_index_or self.old.tasks t None ≡ Some x) × (x.lives ≡ true) }
        ensures ended { (x : AnyTask) → slice_index_or self.old.tasks t None ≡ Some x →
            seen self.new ≡ seen (ended self.old t x end) }
        ensures asks { (x : AnyTask) → slice_index_or self.old.tasks t None ≡ Some x →
            result ≡ asks_ended self.old x end }
    {
        let ended = self.forest.end_task(t, end);
        let place = Place {
            can_step: false,
            is_ready: ended.was_ready,
        };
        settle_at(&mut self.forest, t, place);
        // While another subtask lives, the owner waits as before.
        if ended.others {
            return ended.asks;
        }
        settle(&mut self.forest, ended.waiter);
        ended.asks
    }

    /// Can the task step?
    pub fn can_step(&self, t: u32) -> bool
        ensures { result ≡ steps.can_step self.now t }
    {
        self.forest.is_ready(t)
    }

    /// Some task that can step.
    pub fn ready_front(&self) -> Option<u32>
        ensures front { result ≡ first_or self.now.ready None }
        ensures once { AreDistinct self.now.ready }
        ensures list { (t : ℕ) → has t self.now.ready ≡ steps.can_step self.now t }
    {
        self.forest.ready_front()
    }

    /// Sets a task's flag.
    pub fn raise(&mut self, t: u32)
        requires { slice_index_or self.old.tasks t None ≢ None }
        ensures { (x : AnyTask) → slice_index_or self.old.tasks t None ≡ Some x →
            seen self.new ≡ seen (with_task self.old t (record x { flag = true })) }
    {
        self.set_flag(t, true);
    }

    /// Clears a task's flag.
    pub fn clear_flag(&mut self, t: u32)
        requires { slice_index_or self.old.tasks t None ≢ None }
        ensures { (x : AnyTask) → slice_index_or self.old.tasks t None ≡ Some x →
            seen self.new ≡ seen (with_task self.old t (record x { flag = false })) }
    {
        self.set_flag(t, false);
    }

    /// Sets or clears a task's flag.
    #[inline(always)]
    fn set_flag(&mut self, t: u32, flag: bool)
        requires { slice_index_or self.old.tasks t None ≢ None }
        ensures { (x : AnyTask) → slice_index_or self.old.tasks t None ≡ Some x →
            seen self.new ≡ seen (with_task self.old t (record x { flag = flag })) }
    {
        self.forest.set_flag(t, flag);
        settle(&mut self.forest, t);
    }

    /// A task's flag, which is cleared.
    pub fn take_flag(&mut self, t: u32) -> bool
        requires { slice_index_or self.old.tasks t None ≢ None }
        ensures flag { (x : AnyTask) → slice_index_or self.old.tasks t None ≡ Some x →
            result ≡ x.flag }
        ensures cleared { (x : AnyTask) → slice_index_or self.old.tasks t None ≡ Some x →
            seen self.new ≡ seen (with_task self.old t (record x { flag = false })) }
    {
        let flag = self.flag(t);
        self.clear_flag(t);
        flag
    }

    /// Sets whether a task is at a `join`, at a `close` or at neither.
    #[inline(always)]
    pub fn stand(&mut self, t: u32, stand: Stand)
        requires stands { slice_index_or self.old.tasks t None ≢ None }
        requires owner { (s : ℕ) → stands_at s stand ≡ true →
            (c : AnyScope E) × (slice_index_or self.old.scopes s None ≡ Some c) × (c.owner ≡ t) }
        ensures { (x : AnyTask) → slice_index_or self.old.tasks t None ≡ Some x →
            seen self.new ≡ seen (with_task self.old t (record x { stand = stand })) }
    {
        self.stands(t, stand);
    }

    /// Sets whether a task is at a `join`, at a `close` or at neither, and answers whether it can step
    /// then.
    #[inline(always)]
    pub fn stands(&mut self, t: u32, stand: Stand) -> bool
        requires stands { slice_index_or self.old.tasks t None ≢ None }
        requires owner { (s : ℕ) → stands_at s stand ≡ true →
            (c : AnyScope E) × (slice_index_or self.old.scopes s None ≡ Some c) × (c.owner ≡ t) }
        ensures seen { (x : AnyTask) → slice_index_or self.old.tasks t None ≡ Some x →
            seen self.new ≡ seen (with_task self.old t (record x { stand = stand })) }
        ensures can_step { result ≡ steps.can_step self.new t }
    {
        let (was, is_same) = self.forest.swap_stand(t, stand);
        if is_same {
            return was.ready;
        }
        let can_step = was.lives && can_go(&self.forest, was.flag, stand);
        let place = Place {
            can_step,
            is_ready: was.ready,
        };
        settle_at(&mut self.forest, t, place);
        can_step
    }

    /// Marks a scope as cancelled, and wakes its owner.
    pub fn mark_cancelled(&mut self, s: u32)
        requires { slice_index_or self.old.scopes s None ≢ None }
        ensures { (c : AnyScope E) → slice_index_or self.old.scopes s None ≡ Some c →
            seen self.new ≡ seen (with_scope self.old s (record c { cancelled = true })) }
    {
        self.mark(s, Mark::Cancelled);
    }

    /// Marks a scope as expired, and wakes its owner.
    pub fn mark_expired(&mut self, s: u32)
        requires { slice_index_or self.old.scopes s None ≢ None }
        ensures { (c : AnyScope E) → slice_index_or self.old.scopes s None ≡ Some c →
            seen self.new ≡ seen (with_scope self.old s (record c { expired = true })) }
    {
        self.mark(s, Mark::Expired);
    }

    /// Marks a scope, and wakes its owner.
    #[inline(always)]
    fn mark(&mut self, s: u32, mark: Mark)
        requires { slice_index_or self.old.scopes s None ≢ None }
        ensures { (c : AnyScope E) → slice_index_or self.old.scopes s None ≡ Some c →
            seen self.new ≡ seen (with_scope self.old s (with_mark mark c)) }
    {
        let owner = self.forest.scope_node(s).owner;
        self.forest.mark(s, mark);
        settle(&mut self.forest, owner);
    }

    /// Sets a scope's phase. No step depends on it.
    pub fn set_phase(&mut self, s: u32, phase: Phase)
        requires { slice_index_or self.old.scopes s None ≢ None }
        ensures { (c : AnyScope E) → slice_index_or self.old.scopes s None ≡ Some c →
            seen self.new ≡ seen (with_scope self.old s (record c { phase = phase })) }
    {
        self.forest.set_phase(s, phase);
    }
}
