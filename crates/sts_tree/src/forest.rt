//! Tasks and scopes under recycled keys, and their lists.

ghost use Rattle.std.specs.Prelude.{ℕ, List, if◌then◌else◌, ◌≡◌, ◌≢◌, ◌+◌, ◌-◌, ◌<◌, ◌≤◌, ◌++◌, []};
ghost use Rattle.std.specs.Prelude.{◌∷◌, length, Option, Some, None, IfOk, true, false, ◌||◌, not};
ghost use Rattle.std.specs.Prelude.{slice_index_or, slice_set, option_copied};
ghost use Rattle.sts_records.specs.Holes.{key_at};
ghost use Rattle.sts_tree.specs.Births.{has, remove_each, without};
ghost use Rattle.sts_tree.specs.Stored.{link_at, SameTasks};
ghost use Rattle.sts_links.specs.Lists.{AreDistinct, IsList, BecomesList};
ghost use Rattle.laws_words.specs.Keys.{NotIn};
ghost use Rattle.sts_tree.specs.declared.record.TaskNode.{TaskNode as AnyTask};

use crate::ending::{Ended, tell};
use crate::record::{Mark, ScopeNode, ScopeRecord, Subtasks, TaskNode, TaskRecord};
use crate::tasks::Tasks;
use std::alloc::{AllocError, Global};
use std::marker::Model;
use sts_code::Joiner;
use sts_joiners::Tally;
use sts_links::{Ends, Link, after, push_back, unlink};
use sts_model::{End, Phase, Stand};
use sts_records::Held;

/// The tasks and scopes that count. Each task is in the lists that its fields name.
#[derive(Drop)]
pub struct Forest<E> {
    tasks: Tasks,
    scopes: Held<ScopeRecord<E>>,
    ready: Ends,
}

impl<E> Model for Forest<E> {
    ghost use Rattle.sts_tree.specs.Forest.{Forest};

    ghost Value = { Forest E };

    ghost use Rattle.sts_tree.specs.Stored.{tasks_of, link_at};
    ghost use Rattle.sts_tree.specs.Forest.{scopes_of, families_of, ready_of, IsForest};

    ghost view = { λ f. record {
      tasks = tasks_of f.tasks.held.slots;
      scopes = scopes_of f.scopes.slots;
      ready = ready_of f.tasks.held.slots f.ready;
      task_keys = f.tasks.held.keys;
      scope_keys = f.scopes.keys;
      task_room = f.tasks.held.room;
      scope_room = f.scopes.room;
    } };

    ghost invariant = { λ f.
        IsForest (link_at f.tasks.held.slots) (tasks_of f.tasks.held.slots)
        (families_of f.scopes.slots) f.ready (ready_of f.tasks.held.slots f.ready)
        f.tasks.held.room };
}

/// A birth fits a u32.
fn small(key: Option<usize>) -> Option<u32>
    requires { (k : ℕ) → key ≡ Some k → k < 4294967296 }
    ensures { result ≡ key }
{
    match key {
        None => None,
        Some(k) => Some(k as u32),
    }
}

/// Appends a key if `wanted` is true.
fn push_if(tasks: &mut Tasks, layer: u8, list: Ends, key: usize, wanted: bool) -> Ends
    requires list { (keys : List ℕ)
        × IsList (link_at tasks.old.held.slots layer) list keys × NotIn key keys }
    requires key { link_at tasks.old.held.slots layer key ≢ None }
    ensures list { (keys : List ℕ) →
        IsList (link_at tasks.old.held.slots layer) list keys → NotIn key keys →
        BecomesList (link_at tasks.old.held.slots) (link_at tasks.new.held.slots) layer result
        (keys ++ (if wanted then key ∷ [] else [])) }
    ensures rest { SameTasks tasks.old.held tasks.new.held }
{
    if wanted {
        push_back(tasks, layer, list, key)
    } else {
        list
    }
}

/// Discards the records of a list of subtasks.
fn remove_all(tasks: &mut Tasks, list: Ends, count: u32)
    requires { (keys : List ℕ)
        × IsList (link_at tasks.old.held.slots 0) list keys × (length keys ≡ count) }
    ensures slots { (keys : List ℕ) →
        IsList (link_at tasks.old.held.slots 0) list keys → length keys ≡ count →
        tasks.new.held.slots ≡ remove_each keys tasks.old.held.slots }
    ensures keys { tasks.new.held.keys ≡ tasks.old.held.keys }
    ensures room { tasks.new.held.room ≡ tasks.old.held.room + count }
{
    let mut at = list.first;
    for _ in 0..count {
        let Some(t) = at else {
            return;
        };
        at = tasks.held.record(t).links[0].after;
        tasks.held.discard(t);
    }
}

impl<E: Drop> Forest<E> {
    ghost use Rattle.sts_tree.specs.Forest.{closed, opened, subtask, any_lives, is_marked, is_of};
    ghost use Rattle.sts_tree.specs.Adding.{root_alone, with_opened};
    ghost use Rattle.sts_tree.specs.Layers.{listed};
    ghost use Rattle.sts_tree.specs.Marks.{with_mark};
    ghost use Rattle.sts_tree.specs.Steps.{is_over, with_scope};
    ghost use Rattle.sts_tree.specs.Births.{births};
    ghost use Rattle.sts_links.specs.Lists.{first_or};
    ghost use Rattle.sts_joiners.specs.Tallied.{ends_told};
    ghost use Rattle.sts_tree.specs.Ending as ending;
    ghost use Rattle.sts_tree.specs.declared.record.ScopeNode.{ScopeNode as AnyScope};

    /// The root task alone, ready, with room for `tasks` tasks and `scopes` scopes. No later call
    /// can answer that memory ran out.
    ///
    /// # Errors
    ///
    /// Memory ran out.
    pub fn with_room(alloc: Global, tasks: u32, scopes: u32) -> Result<Forest<E>, AllocError>
        requires some { 0 < tasks }
        requires few { tasks ≤ 65536 }
        ensures value { IfOk result (λ f. f ≡ root_alone f.task_keys tasks scopes) }
        ensures keys { IfOk result (λ f. (key : ℕ) × (f.task_keys ≡ key ∷ [])) }
    {
        let mut held = Held::with_room(alloc, tasks)?;
        let scopes = Held::with_room(alloc, scopes)?;
        let birth = held.push(TaskRecord {
            task: TaskNode {
                scope: None,
                flag: false,
                lives: true,
                state: None,
                stand: Stand::Free,
                ready: true,
            },
            links: [Link {
                before: None,
                after: None,
            }; 3],
        });
        Ok(Forest {
            tasks: Tasks { held },
            scopes,
            ready: Ends {
                first: Some(birth),
                last: Some(birth),
            },
        })
    }

    /// The task of a birth, if its record exists.
    pub fn task(&self, t: u32) -> Option<&TaskNode>
        ensures value { option_copied result ≡ slice_index_or self.now.tasks t None }
        ensures home { (x : AnyTask) (s : ℕ) → slice_index_or self.now.tasks t None ≡ Some x →
            x.scope ≡ Some s → slice_index_or self.now.scopes s None ≢ None }
        ensures marked { has t self.now.ready
            ≡ is_marked (slice_index_or self.now.tasks t None) }
    {
        match self.tasks.held.get(t as usize) {
            None => None,
            Some(r) => Some(&r.task),
        }
    }

    /// The scope of a birth, if its record exists.
    pub fn scope(&self, s: u32) -> Option<&ScopeNode<E>>
        ensures { option_copied result ≡ slice_index_or self.now.scopes s None }
    {
        match self.scopes.get(s as usize) {
            None => None,
            Some(r) => Some(&r.scope),
        }
    }

    /// The task of a birth. Its record must exist.
    #[inline(always)]
    pub(crate) fn task_node(&self, t: u32) -> &TaskNode
        requires { slice_index_or self.now.tasks t None ≢ None }
        ensures value { slice_index_or self.now.tasks t None ≡ Some result.now }
        ensures home { (s : ℕ) → result.now.scope ≡ Some s →
            slice_index_or self.now.scopes s None ≢ None }
    {
        &self.tasks.held.record(t as usize).task
    }

    /// The scope of a birth. Its record must exist.
    #[inline(always)]
    pub(crate) fn scope_node(&self, s: u32) -> &ScopeNode<E>
        requires { slice_index_or self.now.scopes s None ≢ None }
        ensures { slice_index_or self.now.scopes s None ≡ Some result.now }
    {
        &self.scopes.record(s as usize).scope
    }

    /// How many more tasks fit.
    pub fn task_room(&self) -> u32
        ensures { result ≡ self.now.task_room }
    {
        self.tasks.held.room()
    }

    /// How many more scopes fit.
    pub fn scope_room(&self) -> u32
        ensures { result ≡ self.now.scope_room }
    {
        self.scopes.room()
    }

    /// Sets or clears a task's flag.
    pub fn set_flag(&mut self, t: u32, flag: bool)
        requires { slice_index_or self.old.tasks t None ≢ None }
        ensures { (x : AnyTask) → slice_index_or self.old.tasks t None ≡ Some x →
            self.new ≡ record self.old {
              tasks = slice_set self.old.tasks t (Some (record x { flag = flag }));
            } }
    {
        self.tasks.held.at(t as usize).task.flag = flag;
    }

    /// Sets whether a task is at a `join`, at a `close` or at neither. Answers whether it was there
    /// before.
    pub fn set_stand(&mut self, t: u32, stand: Stand) -> bool
        requires { slice_index_or self.old.tasks t None ≢ None }
        ensures set { (x : AnyTask) → slice_index_or self.old.tasks t None ≡ Some x →
            self.new ≡ record self.old {
              tasks = slice_set self.old.tasks t (Some (record x { stand = stand }));
            } }
        ensures was { (x : AnyTask) → slice_index_or self.old.tasks t None ≡ Some x →
            result ≡ true → x.stand ≡ stand }
    {
        self.swap_stand(t, stand).1
    }

    /// Sets whether a task is at a `join`, at a `close` or at neither. Returns the task as it was, and
    /// whether it was there before.
    #[inline(always)]
    pub(crate) fn swap_stand(&mut self, t: u32, stand: Stand) -> (TaskNode, bool)
        requires { slice_index_or self.old.tasks t None ≢ None }
        ensures was { slice_index_or self.old.tasks t None ≡ Some result.0 }
        ensures same { result.1 ≡ true → result.0.stand ≡ stand }
        ensures ready { result.0.ready ≡ has t self.old.ready }
        ensures set { self.new ≡ record self.old {
          tasks = slice_set self.old.tasks t (Some (record result.0 { stand = stand }));
        } }
    {
        let task = &mut self.tasks.held.at(t as usize).task;
        let was = *task;
        task.stand = stand;
        (was, was.stand == stand)
    }

    /// Appends a task to the ready list.
    #[inline(always)]
    pub fn push_ready(&mut self, t: u32)
        requires stands { slice_index_or self.old.tasks t None ≢ None }
        requires waits { has t self.old.ready ≡ false }
        ensures { (x : AnyTask) → slice_index_or self.old.tasks t None ≡ Some x →
            self.new ≡ record self.old {
              tasks = slice_set self.old.tasks t (Some (record x { ready = true }));
              ready = self.old.ready ++ t ∷ [];
            } }
    {
        self.tasks.held.at(t as usize).task.ready = true;
        self.ready = push_back(&mut self.tasks, 2, self.ready, t as usize);
    }

    /// Takes a task out of the ready list.
    #[inline(always)]
    pub fn drop_ready(&mut self, t: u32)
        requires stands { slice_index_or self.old.tasks t None ≢ None }
        requires ready { has t self.old.ready ≡ true }
        ensures gone { has t self.new.ready ≡ false }
        ensures dropped { (x : AnyTask) → slice_index_or self.old.tasks t None ≡ Some x →
            self.new ≡ record self.old {
              tasks = slice_set self.old.tasks t (Some (record x { ready = false }));
              ready = without t self.old.ready;
            } }
    {
        self.tasks.held.at(t as usize).task.ready = false;
        self.ready = unlink(&mut self.tasks, 2, self.ready, t as usize);
    }

    /// Opens a scope without subtasks.
    pub fn open_scope(&mut self, owner: u32, joiner: Joiner, timed: bool, environment: E) -> u32
        requires room { 0 < self.old.scope_room }
        requires born { length self.old.scopes < 1000000 }
        ensures birth { result ≡ length self.old.scopes }
        ensures opened { self.new ≡
            with_opened self.old (opened owner joiner timed environment) self.new.scope_keys }
        ensures keys { (key : ℕ) × (self.new.scope_keys ≡ self.old.scope_keys ++ key ∷ []) }
    {
        let scope = ScopeNode {
            owner,
            timed,
            phase: Phase::Opened,
            cancelled: false,
            expired: false,
            tally: Tally::new(joiner),
            environment,
        };
        let birth = self.scopes.push(ScopeRecord {
            scope,
            forks: Ends::empty(),
            fork_count: 0,
            living: Ends::empty(),
        });
        birth as u32
    }

    /// Adds a subtask, which lives or never runs.
    pub fn add_subtask(&mut self, s: u32, lives: bool) -> u32
        requires stands { slice_index_or self.old.scopes s None ≢ None }
        requires room { 0 < self.old.task_room }
        requires born { length self.old.tasks < 1000000 }
        ensures birth { result ≡ length self.old.tasks }
        ensures added { self.new ≡ record self.old {
          tasks = self.old.tasks ++ Some (subtask s lives) ∷ [];
          task_keys = self.new.task_keys;
          task_room = self.old.task_room - 1;
        } }
        ensures keys { (key : ℕ) × (self.new.task_keys ≡ self.old.task_keys ++ key ∷ []) }
    {
        let birth = self.tasks.held.push(TaskRecord {
            task: TaskNode {
                scope: Some(s),
                flag: false,
                lives,
                state: None,
                stand: Stand::Free,
                ready: false,
            },
            links: [Link {
                before: None,
                after: None,
            }; 3],
        });
        let row = self.scopes.at(s as usize);
        row.forks = push_back(&mut self.tasks, 0, row.forks, birth);
        row.living = push_if(&mut self.tasks, 1, row.living, birth, lives);
        row.fork_count += 1;
        birth as u32
    }

    /// Sets a scope's phase.
    pub fn set_phase(&mut self, s: u32, phase: Phase)
        requires { slice_index_or self.old.scopes s None ≢ None }
        ensures { (x : AnyScope E) → slice_index_or self.old.scopes s None ≡ Some x →
            self.new ≡ record self.old {
              scopes = slice_set self.old.scopes s (Some (record x { phase = phase }));
            } }
    {
        self.scopes.at(s as usize).scope.phase = phase;
    }

    /// Marks a scope.
    pub fn mark(&mut self, s: u32, mark: Mark)
        requires { slice_index_or self.old.scopes s None ≢ None }
        ensures { (x : AnyScope E) → slice_index_or self.old.scopes s None ≡ Some x →
            self.new ≡ with_scope self.old s (with_mark mark x) }
    {
        self.scopes.at(s as usize).scope.mark(mark);
    }

    /// Ends a task: it leaves the living subtasks of its scope. Unless the scope is cancelled, the
    /// task keeps the end, and the scope's joiner is told of it.
    #[inline(always)]
    pub fn end_task(&mut self, t: u32, end: End) -> Ended
        requires lives { (x : AnyTask)
            × (slice_index_or self.old.tasks t None ≡ Some x) × (x.lives ≡ true) }
        ensures ended { (x : AnyTask) → slice_index_or self.old.tasks t None ≡ Some x →
            self.new ≡ ending.ended self.old t x end }
        ensures asks { (x : AnyTask) → slice_index_or self.old.tasks t None ≡ Some x →
            result.asks ≡ ending.asks_ended self.old x end }
        ensures waiter { (x : AnyTask) → slice_index_or self.old.tasks t None ≡ Some x →
            result.waiter ≡ ending.waiter self.old t x }
        ensures others { (x : AnyTask) → slice_index_or self.old.tasks t None ≡ Some x →
            result.others ≡ ending.lives_beside self.new x.scope }
        ensures ready { result.was_ready ≡ has t self.old.ready }
    {
        let task = &mut self.tasks.held.at(t as usize).task;
        task.lives = false;
        let was_ready = task.ready;
        let Some(s) = task.scope else {
            return Ended {
                asks: false,
                waiter: t,
                was_ready,
                others: false,
            };
        };
        let row = self.scopes.at(s as usize);
        let asks = tell(&mut row.scope, &mut task.state, end);
        row.living = unlink(&mut self.tasks, 1, row.living, t as usize);
        Ended {
            asks,
            waiter: row.scope.owner,
            was_ready,
            others: row.living.first.is_some(),
        }
    }

    /// Takes out a scope and its subtasks. None of these may be ready.
    pub fn close_scope(&mut self, s: u32)
        requires stands { slice_index_or self.old.scopes s None ≢ None }
        requires waits { (t : ℕ) (x : AnyTask) → slice_index_or self.old.tasks t None ≡ Some x →
            is_of s x ≡ true → has t self.old.ready ≡ false }
        ensures { self.new ≡ closed self.old s }
    {
        let row = self.scopes.record(s as usize);
        let (forks, count) = (row.forks, row.fork_count);
        self.scopes.discard(s as usize);
        remove_all(&mut self.tasks, forks, count);
    }

    /// How many tasks were born.
    pub fn tasks_born(&self) -> usize
        ensures value { result ≡ length self.now.tasks }
        ensures few { result ≤ 1000000 }
    {
        self.tasks.held.born()
    }

    /// How many scopes were born.
    pub fn scopes_born(&self) -> usize
        ensures value { result ≡ length self.now.scopes }
        ensures few { result ≤ 1000000 }
    {
        self.scopes.born()
    }

    /// The key of a task's record, if it exists.
    pub fn key_of(&self, t: u32) -> Option<usize>
        ensures { result ≡ key_at self.now.tasks self.now.task_keys t }
    {
        self.tasks.held.key_of(t as usize)
    }

    /// The task that has its record at this key.
    pub fn birth(&self, key: usize) -> u32
        requires { (t : ℕ) × (key_at self.now.tasks self.now.task_keys t ≡ Some key) }
        ensures { (t : ℕ) → key_at self.now.tasks self.now.task_keys t ≡ Some key → result ≡ t }
    {
        self.tasks.held.birth(key) as u32
    }

    /// The key of a scope's record, if it exists.
    pub fn scope_key_of(&self, s: u32) -> Option<usize>
        ensures { result ≡ key_at self.now.scopes self.now.scope_keys s }
    {
        self.scopes.key_of(s as usize)
    }

    /// The scope that has its record at this key.
    pub fn scope_birth(&self, key: usize) -> u32
        requires { (s : ℕ) × (key_at self.now.scopes self.now.scope_keys s ≡ Some key) }
        ensures { (s : ℕ) → key_at self.now.scopes self.now.scope_keys s ≡ Some key → result ≡ s }
    {
        self.scopes.birth(key) as u32
    }

    /// Does a subtask of the scope live?
    pub fn any_lives(&self, s: u32) -> bool
        ensures { result ≡ any_lives self.now.tasks s }
    {
        match self.scopes.get(s as usize) {
            None => false,
            Some(row) => row.living.first.is_some(),
        }
    }

    /// Has a `join` of the scope an outcome, whatever flag its owner has?
    pub fn has_outcome(&self, s: u32) -> bool
        ensures { result ≡ (is_over self.now s || not (any_lives self.now.tasks s)) }
    {
        match self.scopes.get(s as usize) {
            None => true,
            Some(row) => row.scope.expired || row.scope.cancelled || row.living.first.is_none(),
        }
    }

    /// How many subtasks a scope has.
    pub fn subtasks(&self, s: u32) -> u32
        ensures value { result ≡ length (births (is_of s) 0 self.now.tasks) }
        ensures told { (c : AnyScope E) → slice_index_or self.now.scopes s None ≡ Some c →
            ends_told c.tally ≤ result }
    {
        match self.scopes.get(s as usize) {
            None => 0,
            Some(row) => row.fork_count,
        }
    }

    /// The first of these subtasks of a scope, in fork order.
    #[inline(always)]
    pub fn front_in(&self, subtasks: Subtasks, s: u32) -> Option<u32>
        ensures { result ≡ first_or (births (listed subtasks s) 0 self.now.tasks) None }
    {
        match self.scopes.get(s as usize) {
            None => None,
            Some(row) => small(row.list(subtasks).first),
        }
    }

    /// The next of these subtasks of its scope, in fork order.
    #[inline(always)]
    pub fn after_in(&self, subtasks: Subtasks, t: u32) -> Option<u32>
        requires { (s : ℕ) × (front : List ℕ) × (back : List ℕ)
            × (births (listed subtasks s) 0 self.now.tasks ≡ front ++ t ∷ back) }
        ensures { (s : ℕ) (front back : List ℕ) →
            births (listed subtasks s) 0 self.now.tasks ≡ front ++ t ∷ back →
            result ≡ first_or back None }
    {
        small(after(&self.tasks, subtasks.layer(), t as usize))
    }

    /// The next of the ready list.
    pub fn ready_after(&self, t: u32) -> Option<u32>
        requires { has t self.now.ready ≡ true }
        ensures { (front back : List ℕ) →
            self.now.ready ≡ front ++ t ∷ back → result ≡ first_or back None }
    {
        small(after(&self.tasks, 2, t as usize))
    }

    /// The first of the ready list.
    pub fn ready_front(&self) -> Option<u32>
        ensures front { result ≡ first_or self.now.ready None }
        ensures once { AreDistinct self.now.ready }
    {
        small(self.ready.first)
    }

    /// Is the task in the ready list?
    pub fn is_ready(&self, t: u32) -> bool
        ensures value { result ≡ has t self.now.ready }
        ensures stands { result ≡ true → slice_index_or self.now.tasks t None ≢ None }
    {
        match self.tasks.held.get(t as usize) {
            None => false,
            Some(r) => r.task.ready,
        }
    }
}
