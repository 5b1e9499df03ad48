//! All tasks and all scopes, by birth number, and what is read of them.

ghost use Rattle.std.specs.Prelude.{◌≡◌, ◌<◌, ◌≤◌, length, true, None, IfSome, IfOk, map};
ghost use Rattle.std.specs.Borrow.{sem};
ghost use Rattle.sts_code.specs.declared.limits.TheConstants.{MAX_BIRTHS};
ghost use Rattle.sts_model.specs.Environment as scoped;
ghost use Rattle.sts_model.specs.Living as living;
ghost use Rattle.sts_model.specs.Misuse as misuse;
ghost use Rattle.sts_model.specs.Outside as outside;
ghost use Rattle.sts_model.specs.World as def;
ghost use Rattle.sts_world.specs.Lends.{lends_task};
ghost use Rattle.sts_world.specs.Scopes.{IsShown, shown};

use crate::chains::BindingChains;
use crate::scope::{ScopeRecord, front_of, same_scope};
use crate::task::TaskRecord;
use std::alloc::{AllocError, Global};
use std::marker::Model;
use sts_code::{Joiner, Profile};
use sts_model::{Completion, End, Frame, Phase};
use sts_same::copied::copy_all;
use sts_same::same::same_slices;

/// The tasks and the scopes by birth number: contracts see the two lists.
#[derive(Drop)]
pub struct Records {
    pub(crate) tasks: Vec<TaskRecord>,
    pub(crate) scopes: Vec<ScopeRecord>,
    pub(crate) chains: BindingChains,
}

impl Model for Records {
    ghost use Rattle.sts_model.specs.World.{World};

    ghost Value = { World };

    ghost use Rattle.std.specs.Prelude.{length, map, ◌≤◌};
    ghost use Rattle.sts_code.specs.declared.limits.TheConstants.{MAX_BIRTHS};
    ghost use Rattle.sts_world.specs.Scopes.{shown, AreWithin};

    ghost view = { λ w. record {
      tasks = w.tasks.items;
      scopes = map (shown w.chains) w.scopes.items;
    } };

    ghost invariant = { λ w. (length w.tasks.items ≤ MAX_BIRTHS)
        × (length w.scopes.items ≤ MAX_BIRTHS) × AreWithin w.chains w.scopes.items };
}

impl Records {
    /// How many tasks were born.
    pub fn tasks_born(&self) -> usize
        ensures value { result ≡ length self.now.tasks }
        ensures few { result ≤ MAX_BIRTHS }
    {
        self.tasks.len()
    }

    /// How many scopes were born.
    pub fn scopes_born(&self) -> usize
        ensures value { result ≡ length self.now.scopes }
        ensures few { result ≤ MAX_BIRTHS }
    {
        self.scopes.len()
    }

    /// Does the task live? A task that was never born doesn't.
    pub fn lives(&self, t: u32) -> bool
        ensures value { result ≡ living.lives (def.task_at self.now t) }
        ensures born { result ≡ true → t < length self.now.tasks }
    {
        match self.tasks.get(t as usize) {
            Some(task) => task.lives(),
            None => false,
        }
    }

    /// The frame of a task that lives.
    pub fn frame(&self, t: u32) -> &Frame
        requires born { t < length self.now.tasks }
        requires lives { living.lives (def.task_at self.now t) ≡ true }
        ensures { result.now ≡ (def.task_at self.now t).frame }
    {
        self.tasks[t as usize].frame()
    }

    /// A task, for writing.
    pub(crate) fn task(&mut self, t: u32) -> &mut TaskRecord
        requires { t < length self.old.tasks }
        ensures* writes_back { sem 𝓛 (lends_task self.entry t result) }
        ensures value { result.now ≡ def.task_at self.old t }
    {
        &mut self.tasks[t as usize]
    }

    /// The interrupt flag of a task.
    pub fn flag(&self, t: u32) -> bool
        ensures { result ≡ (def.task_at self.now t).flag }
    {
        match self.tasks.get(t as usize) {
            Some(task) => task.flag(),
            None => false,
        }
    }

    /// The scope that a task is a subtask of.
    pub fn parent(&self, t: u32) -> Option<u32>
        ensures { result ≡ (def.task_at self.now t).scope }
    {
        match self.tasks.get(t as usize) {
            Some(task) => task.scope(),
            None => None,
        }
    }

    /// How a task ended, if it has.
    pub fn outcome(&self, t: u32) -> Option<End>
        ensures { result ≡ (def.task_at self.now t).outcome }
    {
        match self.tasks.get(t as usize) {
            Some(task) => task.outcome(),
            None => None,
        }
    }

    /// Was the task started? A task that was forked in a cancelled scope never is.
    pub fn has_started(&self, t: u32) -> bool
        ensures { result ≡ (def.task_at self.now t).started }
    {
        match self.tasks.get(t as usize) {
            Some(task) => task.has_started(),
            None => false,
        }
    }

    /// The function that a task is in, even if it has ended.
    pub fn function(&self, t: u32) -> u32
        ensures { result ≡ (def.task_at self.now t).frame.function }
    {
        match self.tasks.get(t as usize) {
            Some(task) => task.function(),
            None => 0,
        }
    }

    /// The place of a task's next instruction, even if it has ended.
    pub fn pc(&self, t: u32) -> u32
        ensures { result ≡ (def.task_at self.now t).frame.pc }
    {
        match self.tasks.get(t as usize) {
            Some(task) => task.pc(),
            None => 0,
        }
    }

    /// The root's end.
    pub fn root_end(&self) -> Option<End>
        ensures { result ≡ (def.task_at self.now 0).outcome }
    {
        self.outcome(0)
    }

    /// A scope as it is kept.
    fn scope(&self, s: u32) -> Option<&ScopeRecord>
        ensures some { IfSome result (λ x. IsShown x.now (def.scope_at self.now s)) }
        ensures none { result ≡ None → def.scope_at self.now s ≡ def.no_scope }
    {
        self.scopes.get(s as usize)
    }

    /// The owner of a scope.
    pub fn owner(&self, s: u32) -> u32
        ensures { result ≡ (def.scope_at self.now s).owner }
    {
        match self.scope(s) {
            Some(scope) => scope.owner,
            None => 0,
        }
    }

    /// The ends that a scope's joiner was told of, in order.
    pub fn completions(&self, s: u32) -> &[Completion]
        ensures { result.now ≡ (def.scope_at self.now s).completions }
    {
        match self.scope(s) {
            Some(scope) => scope.completions.as_slice(),
            None => &[],
        }
    }

    /// The phase of a scope.
    pub fn phase(&self, s: u32) -> Phase
        ensures { result ≡ (def.scope_at self.now s).phase }
    {
        match self.scope(s) {
            Some(scope) => scope.phase,
            None => Phase::Closed,
        }
    }

    /// The joiner of a scope.
    pub fn joiner(&self, s: u32) -> Joiner
        ensures { result ≡ (def.scope_at self.now s).joiner }
    {
        match self.scope(s) {
            Some(scope) => scope.joiner,
            None => Joiner::AwaitAll,
        }
    }

    /// Was the scope opened with a timeout?
    pub fn is_timed(&self, s: u32) -> bool
        ensures { result ≡ (def.scope_at self.now s).timed }
    {
        match self.scope(s) {
            Some(scope) => scope.timed,
            None => false,
        }
    }

    /// Is the scope cancelled?
    pub fn is_cancelled(&self, s: u32) -> bool
        ensures { result ≡ (def.scope_at self.now s).cancelled }
    {
        match self.scope(s) {
            Some(scope) => scope.cancelled,
            None => false,
        }
    }

    /// Has the scope expired?
    pub fn is_expired(&self, s: u32) -> bool
        ensures { result ≡ (def.scope_at self.now s).expired }
    {
        match self.scope(s) {
            Some(scope) => scope.expired,
            None => false,
        }
    }

    /// May the subtasks of a scope be read?
    pub fn is_readable(&self, profile: Profile, s: u32) -> bool
        ensures { result ≡ misuse.is_readable profile (def.scope_at self.now s) }
    {
        matches!(self.phase(s), Phase::Joined)
            && (matches!(profile, Profile::Two) || !self.is_expired(s))
    }

    /// May a scope expire now?
    pub fn can_expire(&self, s: u32) -> bool
        ensures { result ≡ outside.can_expire (def.scope_at self.now s) }
    {
        self.is_timed(s) && !self.is_expired(s) && self.phase(s).can_join()
    }

    fn value_kept(&self, scope: Option<u32>, k: u8) -> Option<i64>
        ensures { result ≡ scoped.read (living.parent self.now scope).environment k }
    {
        self.chains.read(front_of(&self.scopes, scope), k)
    }

    /// The innermost value of a key for a task.
    #[tactic(auto, using(crate::proofs::Environments::reads))]
    pub fn read(&self, t: u32, k: u8) -> Option<i64>
        ensures { result ≡ scoped.read (scoped.environment_of (def.task_at self.now t) self.now) k }
    {
        match self.tasks.get(t as usize) {
            None => None,
            Some(task) => {
                let own = task.own_value(k);
                if own.is_some() {
                    own
                } else {
                    self.value_kept(task.scope(), k)
                }
            }
        }
    }
}

/// Scopes with their environments, compared.
fn same_scopes(
    a: &[ScopeRecord],
    here: &BindingChains,
    b: &[ScopeRecord],
    there: &BindingChains,
) -> bool
    ensures { result ≡ true → map (shown here.now) a.now ≡ map (shown there.now) b.now }
{
    if a.len() != b.len() {
        return false;
    }
    for i in 0..a.len() {
        let x = &a[i];
        let y = &b[i];
        if !same_scope(x, y) || !here.same_bindings(x.front, there, y.front) {
            return false;
        }
    }
    true
}

impl Records {
    /// If the answer is true, the two have the same tasks and scopes.
    pub fn same(&self, other: &Records) -> bool
        ensures { result ≡ true → self.now ≡ other.now }
    {
        same_slices(self.tasks.as_slice(), other.tasks.as_slice())
            && same_scopes(
                self.scopes.as_slice(),
                &self.chains,
                other.scopes.as_slice(),
                &other.chains,
            )
    }

    /// The same once more.
    ///
    /// # Errors
    ///
    /// Memory ran out.
    pub fn copied(&self, alloc: Global) -> Result<Records, AllocError>
        ensures { IfOk result (λ r. r ≡ self.now) }
    {
        let tasks = copy_all(alloc, self.tasks.as_slice())?;
        let scopes = copy_all(alloc, self.scopes.as_slice())?;
        let chains = self.chains.copied(alloc)?;
        Ok(Records {
            tasks,
            scopes,
            chains,
        })
    }
}
