//! Changes of the tasks and scopes.

ghost use Rattle.std.specs.Prelude.{◌≡◌, ◌<◌, ◌≤◌, ◌+◌, ◌^◌};
ghost use Rattle.std.specs.Prelude.{length, map, OnOk, OnErr, IfOk, Some, true, false};
ghost use Rattle.sts_code.specs.Program.{routine};
ghost use Rattle.sts_code.specs.declared.limits.TheConstants.{MAX_BIRTHS, MAX_ENTRIES};
ghost use Rattle.sts_model.specs.Cancelling as cancelling;
ghost use Rattle.sts_model.specs.Effect as effect;
ghost use Rattle.sts_model.specs.Living as living;
ghost use Rattle.sts_model.specs.World as def;
ghost use Rattle.sts_world.specs.Kept.{births as births_of};
ghost use Rattle.sts_world.specs.Lines.{line, lines};
ghost use Rattle.sts_world.specs.Raising.{raise_at as raise_one, raise_each as raise_all};

use crate::chains::BindingChains;
use crate::records::Records;
use crate::scope::{ScopeRecord, front_of};
use crate::task::TaskRecord;
use std::alloc::{AllocError, Global};
use sts_code::{Joiner, Program, args};
use sts_frames::leave_fork;
use sts_model::{Completion, End, Items, KeptSlot, Phase, Slot};

// ---- one task

impl Records {
    fn is_of(&self, s: u32, slot: Slot) -> bool
        ensures { result ≡ effect.is_of self.now s slot }
    {
        match slot {
            Slot::Own(r) => r == s,
            Slot::Sub(t) => match self.parent(t) {
                Some(r) => r == s,
                None => false,
            },
            _ => false,
        }
    }

    /// Empties the slots that name the scope or one of its subtasks.
    fn clear(&self, slots: &mut [KeptSlot; 16], s: u32)
        ensures { slots.new ≡ effect.cleared self.now s slots.old }
    {
        for x in slots.iter_mut() {
            if self.is_of(s, x.get()) {
                *x = KeptSlot::new(Slot::Empty);
            }
        }
    }

    /// The slots of a task, with those emptied that name the scope or one of its subtasks.
    pub(crate) fn cleared(&self, t: u32, s: u32) -> [KeptSlot; 16]
        requires born { t < length self.now.tasks }
        requires lives { living.lives (def.task_at self.now t) ≡ true }
        ensures { result ≡ effect.cleared self.now s (def.task_at self.now t).frame.slots }
    {
        let mut slots = self.frame(t).slots;
        self.clear(&mut slots, s);
        slots
    }
}

// ---- one scope

impl Records {
    pub(crate) fn set_phase(&mut self, s: u32, phase: Phase)
        ensures { self.new ≡ effect.with_phase self.old s phase }
    {
        let s = s as usize;
        if s < self.scopes.len() {
            self.scopes[s].phase = phase;
        }
    }

    pub(crate) fn set_expired(&mut self, s: u32)
        ensures { self.new ≡ def.with_scope self.old s
            (record (def.scope_at self.old s) { expired = true }) }
    {
        let s = s as usize;
        if s < self.scopes.len() {
            self.scopes[s].expired = true;
        }
    }

    /// Tells a scope of an end.
    ///
    /// # Errors
    ///
    /// Memory ran out; the records are unchanged.
    pub(crate) fn tell(&mut self, s: u32, t: u32, end: End) -> Result<(), AllocError>
        ensures ok { OnOk result (self.new ≡ def.with_scope self.old s
            (effect.told (def.scope_at self.old s) t end)) }
        ensures err { OnErr result (self.new ≡ self.old) }
    {
        let s = s as usize;
        if s < self.scopes.len() {
            self.scopes[s]
                .completions
                .push(Completion { task: t, end })?;
        }
        Ok(())
    }

    fn set_cancelled(&mut self, s: u32)
        ensures { self.new ≡ def.with_scope self.old s
            (record (def.scope_at self.old s) { cancelled = true }) }
    {
        let s = s as usize;
        if s < self.scopes.len() {
            self.scopes[s].cancelled = true;
        }
    }

    /// Cancels the scope that has these subtasks.
    pub(crate) fn cancel(&mut self, s: u32, births: &[u32])
        requires { births.now ≡ births_of s (lines self.old).tasks }
        ensures { self.new ≡ cancelling.cancel self.old s }
    {
        if !self.is_cancelled(s) {
            raise(&mut self.tasks, s, births);
            self.set_cancelled(s);
        }
    }
}

/// Sets the flag of a task, if it is a living subtask of the scope.
fn raise_at(tasks: &mut [TaskRecord], s: u32, t: u32)
    ensures { tasks.new ≡ raise_one s tasks.old t }
{
    let t = t as usize;
    if t < tasks.len() {
        tasks[t].raise(s);
    }
}

/// Sets the flags of the living subtasks of a scope, given all its subtasks.
#[tactic(auto, using(crate::proofs::Raising::raises_all))]
fn raise(tasks: &mut [TaskRecord], s: u32, births: &[u32])
    requires { births.now ≡ births_of s (map line tasks.old) }
    ensures { tasks.new ≡ cancelling.raised s tasks.old }
{
    raise_each(tasks, s, births);
}

/// Sets the flags of those of these tasks that are living subtasks of the scope.
fn raise_each(tasks: &mut [TaskRecord], s: u32, births: &[u32])
    ensures { tasks.new ≡ raise_all s tasks.old births.now }
{
    for t in births {
        raise_at(tasks, s, *t);
    }
}

// ---- births

/// A scope to open, and the task that opens it.
#[derive(Clone, Copy)]
pub(crate) struct NewScope {
    pub(crate) owner: u32,
    pub(crate) slot: u8,
    pub(crate) joiner: Joiner,
    pub(crate) timed: bool,
}

/// A subtask to make in a scope, and the task that makes it.
#[derive(Clone, Copy)]
pub(crate) struct NewTask {
    pub(crate) forker: u32,
    pub(crate) scope: u32,
    pub(crate) function: u32,
    pub(crate) handle: Option<u8>,
}

impl Records {
    /// The root task alone.
    ///
    /// # Errors
    ///
    /// Memory ran out.
    pub(crate) fn opening(alloc: Global, program: &Program) -> Result<Records, AllocError>
        ensures { IfOk result (λ w. def.opening program.now ≡ def.Running w) }
    {
        let last = program.functions().len() - 1;
        let mut tasks = Vec::new(alloc);
        tasks.push(TaskRecord::root(alloc, last as u32)?)?;
        Ok(Records {
            tasks,
            scopes: Vec::new(alloc),
            chains: BindingChains::new(alloc),
        })
    }

    /// Opens a scope.
    ///
    /// # Errors
    ///
    /// Memory ran out; the records are unchanged.
    #[tactic(auto, unfolding(sts_model::specs::Effect::open_scope))]
    pub(crate) fn open_scope(&mut self, alloc: Global, opening: NewScope) -> Result<(), AllocError>
        requires born { opening.owner < length self.old.tasks }
        requires lives { living.lives (def.task_at self.old opening.owner) ≡ true }
        requires more { (def.task_at self.old opening.owner).frame.pc + 1 < 2 ^ 32 }
        requires room { length self.old.scopes < MAX_BIRTHS }
        requires entries { length (def.task_at self.old opening.owner).frame.entries < MAX_ENTRIES }
        ensures ok { OnOk result (self.new ≡ effect.open_scope self.old opening.owner
            (def.task_at self.old opening.owner).frame opening.slot opening.joiner opening.timed) }
        ensures err { OnErr result (self.new ≡ self.old) }
    {
        let owner = opening.owner;
        let s = self.scopes.len() as u32;
        let rest = front_of(&self.scopes, self.tasks[owner as usize].scope());
        let front = self.tasks[owner as usize].environment(&mut self.chains, rest)?;
        self.scopes.push(ScopeRecord {
            owner,
            joiner: opening.joiner,
            timed: opening.timed,
            phase: Phase::Opened,
            cancelled: false,
            expired: false,
            completions: Items::new(alloc),
            front,
        })?;
        self.tasks[owner as usize].leave_open(opening.slot, s, front);
        Ok(())
    }

    /// Makes a subtask.
    ///
    /// # Errors
    ///
    /// Memory ran out; the records are unchanged.
    #[tactic(auto, unfolding(sts_model::specs::Effect::fork_task))]
    pub(crate) fn fork_task(
        &mut self,
        alloc: Global,
        program: &Program,
        fork: NewTask,
    ) -> Result<(), AllocError>
        requires born { fork.forker < length self.old.tasks }
        requires lives { living.lives (def.task_at self.old fork.forker) ≡ true }
        requires more { (def.task_at self.old fork.forker).frame.pc + 1 < 2 ^ 32 }
        requires room { length self.old.tasks < MAX_BIRTHS }
        requires enough { (routine program.now fork.function).args ≤
            length (def.task_at self.old fork.forker).frame.operands }
        ensures ok { OnOk result (self.new ≡ effect.fork_task program.now self.old fork.forker
            (def.task_at self.old fork.forker).frame fork.scope fork.function fork.handle) }
        ensures err { OnErr result (self.new ≡ self.old) }
    {
        let (t, s) = (fork.forker, fork.scope);
        let child = self.tasks.len() as u32;
        let args = args(program, fork.function);
        let started = !self.is_cancelled(s);
        let task = TaskRecord::subtask(alloc, fork.function, args, self.frame(t), s, started)?;
        self.tasks.push(task)?;
        leave_fork(
            self.tasks[t as usize].living(),
            args as usize,
            fork.handle,
            child,
        );
        Ok(())
    }
}
