//! The tasks and scopes, with their counters.

ghost use Rattle.std.specs.Prelude.{◌≡◌, ◌<◌, ◌≤◌, ◌+◌, ◌-◌, ◌^◌, ◌&&◌, [], ◌∷◌};
ghost use Rattle.std.specs.Prelude.{if◌then◌else◌, OnOk, OnErr, IfOk, Some, None, true, false};
ghost use Rattle.std.specs.Prelude.{length, slice_index_or, nat_lt, nat_le, not, ◌||◌, pos, count_by};
ghost use Rattle.sts_code.specs.Facts as facts;
ghost use Rattle.sts_code.specs.Program.{routine};
ghost use Rattle.sts_code.specs.declared.limits.TheConstants.{MAX_BIRTHS, MAX_ENTRIES};
ghost use Rattle.sts_code.specs.declared.limits.TheConstants.{MAX_OPERANDS, MAX_STANDING};
ghost use Rattle.sts_model.specs.Cancelling as cancelling;
ghost use Rattle.sts_model.specs.Effect as effect;
ghost use Rattle.sts_model.specs.Joining as joining;
ghost use Rattle.sts_model.specs.Living as living;
ghost use Rattle.sts_model.specs.Local as frames;
ghost use Rattle.sts_model.specs.Outside as outside;
ghost use Rattle.sts_model.specs.Standing as standing;
ghost use Rattle.sts_model.specs.World as def;
ghost use Rattle.sts_model.specs.declared.event.Phase.TheVariants.{Attempted};
ghost use Rattle.std.specs.Borrow.{sem};
ghost use Rattle.sts_world.specs.Kept as kept;
ghost use Rattle.sts_world.specs.LendsWorld.{lends_living};
ghost use Rattle.sts_world.specs.Lines.{lines};

use crate::changes::{NewScope, NewTask};
use crate::family::Family;
use crate::records::Records;
use std::alloc::{AllocError, Global};
use std::marker::Model;
use sts_code::{Joiner, Kind, Program};
use sts_frames::leave_scope;
use sts_joiners::Tally;
use sts_model::{End, Frame, Phase, Verdict};
use sts_same::copied::copy_all;

/// The tasks and scopes: contracts see the two lists of all that were ever born.
///
/// The rest saves walks over all tasks and completions. For each scope it keeps the subtasks, the
/// number that live, and the joiner's tally. For each task it keeps whether the joiner of its scope
/// was told of its end. It also counts the tasks and the scopes that count against the limits.
#[derive(Drop)]
pub struct World {
    records: Records,
    families: Vec<Family>,
    tallies: Vec<Tally>,
    was_told: Vec<bool>,
    standing_tasks: usize,
    standing_scopes: usize,
}

impl Model for World {
    ghost use Rattle.sts_model.specs.World.{World};

    ghost Value = { World };

    ghost view = { λ w. w.records };

    ghost use Rattle.sts_world.specs.Ends.{KnowsEnds};
    ghost use Rattle.sts_world.specs.Kept.{IsKept};
    ghost use Rattle.sts_world.specs.Lines.{lines};

    ghost invariant = { λ w. IsKept (lines w.records) w.families.items w.tallies.items
        w.standing_tasks w.standing_scopes
        × KnowsEnds w.records w.was_told.items };
}

/// The number, or 0 if the scope is closed.
fn unless(closed: bool, n: usize) -> usize
    ensures { result ≡ (if closed then 0 else n) }
{
    if closed { 0 } else { n }
}

/// The birth numbers of a scope's subtasks.
fn births(families: &[Family], s: u32) -> &[u32]
    ensures { result.now ≡ (slice_index_or families.now s kept.no_family).births }
{
    match families.get(s as usize) {
        Some(family) => family.births(),
        None => &[],
    }
}

/// Does a subtask of the scope live?
fn any_lives(families: &[Family], s: u32) -> bool
    ensures { result ≡ nat_lt 0 (slice_index_or families.now s kept.no_family).living }
{
    match families.get(s as usize) {
        Some(family) => family.any_lives(),
        None => false,
    }
}

/// Was the joiner of this task's scope told of its end?
fn is_told(was_told: &[bool], t: u32) -> bool
    ensures { result ≡ slice_index_or was_told.now t false }
{
    was_told.get(t as usize).copied().unwrap_or(false)
}

// ---- what is read

impl World {
    /// The tasks and scopes themselves.
    pub fn records(&self) -> &Records
        ensures { result.now ≡ self.now }
    {
        &self.records
    }

    /// The number of tasks that count against the limit.
    #[tactic(auto, using(crate::proofs::Finds::finds_tasks))]
    pub fn standing_tasks(&self) -> usize
        ensures value { result ≡ standing.standing_tasks self.now }
        ensures few { result ≤ MAX_BIRTHS }
    {
        // Only for the proof: the records, seen from inside, show that few tasks are ever born.
        let records = &self.records;
        let _ = &records.tasks;
        self.standing_tasks
    }

    /// The number of scopes that count against the limit.
    #[tactic(auto, using(crate::proofs::Finds::finds_scopes))]
    pub fn standing_scopes(&self) -> usize
        ensures value { result ≡ standing.standing_scopes self.now }
        ensures few { result ≤ MAX_BIRTHS }
    {
        // Only for the proof: the records, seen from inside, show that few scopes are ever born.
        let records = &self.records;
        let _ = &records.scopes;
        self.standing_scopes
    }

    /// How many subtasks a scope has.
    pub fn subtask_count(&self, s: u32) -> usize
        ensures value { result ≡ living.subtask_count self.now s }
        ensures few { result ≤ MAX_BIRTHS }
    {
        // Only for the proof: the records, seen from inside, show that few tasks are ever born.
        let records = &self.records;
        let _ = &records.tasks;
        births(&self.families, s).len()
    }

    /// The birth numbers of a scope's subtasks, in fork order.
    pub fn subtasks(&self, s: u32) -> &[u32]
        ensures { result.now ≡ kept.births s (lines self.now).tasks }
    {
        births(&self.families, s)
    }

    /// Does a subtask of the scope live?
    pub fn any_lives(&self, s: u32) -> bool
        ensures { result ≡ living.any_lives self.now s }
    {
        any_lives(&self.families, s)
    }

    /// The end of a subtask, if the joiner of its scope was told of it.
    pub fn sub_state(&self, t: u32) -> Option<End>
        ensures { result ≡ living.sub_state self.now t }
    {
        if self.records.parent(t).is_some() && is_told(&self.was_told, t) {
            self.records.outcome(t)
        } else {
            None
        }
    }

    /// How many subtasks completed as successes, and how many as failures.
    fn completed(&self, s: u32) -> (u32, u32)
        ensures { result ≡ (
          count_by joining.is_success (living.ends (def.scope_at self.now s)),
          count_by
              joining.is_failure (living.ends (def.scope_at self.now s)),
        ) }
    {
        match self.tallies.get(s as usize) {
            Some(tally) => (tally.successes(), tally.failures()),
            None => (0, 0),
        }
    }

    /// The number of ends that a scope's joiner was told of.
    fn told(&self, s: u32) -> usize
        ensures { result ≡ length (def.scope_at self.now s).completions }
    {
        let (successes, failures) = self.completed(s);
        successes as usize + failures as usize
    }

    /// How many subtasks are in a state.
    pub fn tally(&self, s: u32, kind: Kind) -> i64
        ensures { result ≡ pos (effect.tally self.now s kind) }
    {
        match kind {
            Kind::S => i64::from(self.completed(s).0),
            Kind::F => i64::from(self.completed(s).1),
            Kind::U => self.subtask_count(s).saturating_sub(self.told(s)) as i64,
        }
    }

    /// The sum of the values of the subtasks that succeeded.
    pub fn total(&self, s: u32) -> i64
        ensures { result ≡ effect.total self.now s }
    {
        match self.tallies.get(s as usize) {
            Some(tally) => tally.total(),
            None => 0,
        }
    }

    /// The joiner's answer.
    fn verdict(&self, s: u32) -> Verdict
        ensures { result ≡ joining.result_of (def.scope_at self.now s).joiner
            (living.ends (def.scope_at self.now s)) (living.subtask_count self.now s) }
    {
        let count = self.subtask_count(s) as u32;
        match self.tallies.get(s as usize) {
            Some(tally) => tally.result(count),
            None => Verdict::Ok(None),
        }
    }
}

// ---- what is written into the frame of one task

impl World {
    /// The frame of a task that lives, for writing.
    pub fn living(&mut self, t: u32) -> &mut Frame
        requires born { t < length self.old.tasks }
        requires lives { living.lives (def.task_at self.old t) ≡ true }
        ensures* writes_back { sem 𝓛 (lends_living self.entry t result) }
        ensures value { result.now ≡ (def.task_at self.old t).frame }
    {
        self.records.task(t).living()
    }

    /// Pushes the flag and clears it.
    pub fn take_flag(&mut self, t: u32)
        requires born { t < length self.old.tasks }
        requires lives { living.lives (def.task_at self.old t) ≡ true }
        requires more { (def.task_at self.old t).frame.pc + 1 < 2 ^ 32 }
        requires room { length (def.task_at self.old t).frame.operands < MAX_OPERANDS }
        ensures { self.new ≡ effect.take_flag self.old t (def.task_at self.old t).frame }
    {
        self.records.task(t).take_flag();
    }

    /// Sets the flag of a living task.
    pub fn interrupt(&mut self, t: u32)
        ensures { self.new ≡ outside.interrupt self.old t }
    {
        if self.records.lives(t) {
            self.records.task(t).interrupt();
        }
    }
}

// ---- cancelling

impl World {
    /// Cancels a scope, if it is not cancelled: the flags of its living subtasks are set.
    pub fn cancel(&mut self, s: u32)
        ensures { self.new ≡ cancelling.cancel self.old s }
    {
        self.records.cancel(s, births(&self.families, s));
    }

    /// Marks a timed scope as expired and cancels it, if it may expire now.
    pub fn expire(&mut self, s: u32)
        ensures { self.new ≡ outside.expire self.old s }
    {
        if self.records.can_expire(s) {
            self.set_expired(s);
            self.cancel(s);
        }
    }

    fn set_expired(&mut self, s: u32)
        ensures { self.new ≡ def.with_scope self.old s
            (record (def.scope_at self.old s) { expired = true }) }
    {
        self.records.set_expired(s);
    }
}

// ---- phases

impl World {
    /// Sets the phase of a scope. Once it is closed, neither the scope nor its subtasks count.
    fn set_phase(&mut self, s: u32, phase: Phase)
        ensures { self.new ≡ effect.with_phase self.old s phase }
    {
        if (s as usize) < self.records.scopes_born() {
            let subtasks = self.subtask_count(s);
            let tasks = self.standing_tasks();
            let scopes = self.standing_scopes();
            let was_closed = self.records.phase(s).is_closed();
            let closed = phase.is_closed();
            self.records.set_phase(s, phase);
            self.standing_tasks = tasks + unless(closed, subtasks) - unless(was_closed, subtasks);
            self.standing_scopes = scopes + unless(closed, 1) - unless(was_closed, 1);
        }
    }
}

// ---- the end of a task

impl World {
    /// Sets the end of a living task, without telling a joiner.
    fn set_end(&mut self, alloc: Global, t: u32, end: End)
        requires born { t < length self.old.tasks }
        requires lives { living.lives (def.task_at self.old t) ≡ true }
        requires more { (def.task_at self.old t).frame.pc + 1 < 2 ^ 32 }
        ensures { self.new ≡ effect.ended self.old t (def.task_at self.old t).frame end }
    {
        let parent = self.records.parent(t);
        self.records.task(t).end(alloc, end);
        self.was_told[t as usize] = false;
        match parent {
            None => {}
            Some(s) => self.families[s as usize].lose(),
        }
    }

    /// Ends a living subtask and tells the joiner of its scope. Answers whether the joiner now asks
    /// to cancel the scope.
    ///
    /// # Errors
    ///
    /// Memory ran out; the world is unchanged.
    fn complete(&mut self, alloc: Global, t: u32, s: u32, end: End) -> Result<bool, AllocError>
        requires born { t < length self.old.tasks }
        requires lives { living.lives (def.task_at self.old t) ≡ true }
        requires in_scope { (def.task_at self.old t).scope ≡ Some s }
        requires more { (def.task_at self.old t).frame.pc + 1 < 2 ^ 32 }
        ensures ok { OnOk result (self.new ≡ effect.ended
            (def.with_scope self.old s (effect.told (def.scope_at self.old s) t end)) t
            (def.task_at self.old t).frame end) }
        ensures asks { IfOk result (λ asks. asks ≡
            joining.cancels (def.scope_at self.new s).joiner
            (living.ends (def.scope_at self.new s))) }
        ensures err { OnErr result (self.new ≡ self.old) }
    {
        self.records.tell(s, t, end)?;
        self.records.task(t).end(alloc, end);
        self.was_told[t as usize] = true;
        self.families[s as usize].lose();
        Ok(self.tallies[s as usize].on_complete(end))
    }

    /// Ends a living task.
    ///
    /// # Errors
    ///
    /// Memory ran out; the world is unchanged.
    #[tactic(auto, unfolding(sts_model::specs::Effect::end_task))]
    pub fn end_task(&mut self, alloc: Global, t: u32, end: End) -> Result<(), AllocError>
        requires born { t < length self.old.tasks }
        requires lives { living.lives (def.task_at self.old t) ≡ true }
        requires more { (def.task_at self.old t).frame.pc + 1 < 2 ^ 32 }
        ensures ok { OnOk result (self.new ≡ effect.end_task self.old t
            (def.task_at self.old t).frame end) }
        ensures err { OnErr result (self.new ≡ self.old) }
    {
        match self.records.parent(t) {
            None => {
                self.set_end(alloc, t, end);
            }
            Some(s) => {
                if self.records.is_cancelled(s) {
                    self.set_end(alloc, t, end);
                } else {
                    if self.complete(alloc, t, s, end)? {
                        self.cancel(s);
                    }
                }
            }
        }
        Ok(())
    }
}

// ---- join and close

impl World {
    /// An outcome of `join` that pushes nothing.
    fn joined(&mut self, t: u32, s: u32, to: u32)
        requires born { t < length self.old.tasks }
        requires lives { living.lives (def.task_at self.old t) ≡ true }
        ensures { self.new ≡ effect.joined self.old t s
            (frames.goes (def.task_at self.old t).frame to 0 []) }
    {
        self.set_phase(s, Phase::Joined);
        self.living(t).goes(to, 0);
    }

    /// An outcome of `join` that pushes a value.
    fn joined_with(&mut self, t: u32, s: u32, to: u32, value: i64)
        requires born { t < length self.old.tasks }
        requires lives { living.lives (def.task_at self.old t) ≡ true }
        requires room { length (def.task_at self.old t).frame.operands < MAX_OPERANDS }
        ensures { self.new ≡ effect.joined self.old t s
            (frames.goes (def.task_at self.old t).frame to 0 (value ∷ [])) }
    {
        self.set_phase(s, Phase::Joined);
        self.living(t).goes_with(to, 0, value);
    }

    /// `join` is interrupted.
    fn attempted(&mut self, t: u32, s: u32, to: u32)
        requires born { t < length self.old.tasks }
        requires lives { living.lives (def.task_at self.old t) ≡ true }
        ensures { self.new ≡ def.with_task (effect.with_phase self.old s Attempted) t
            (record (def.task_at self.old t) {
              frame = frames.goes
                  (def.task_at self.old t).frame to 0 [];
              flag = false;
            }) }
    {
        self.set_phase(s, Phase::Attempted);
        self.records.task(t).leave_join(to);
    }

    /// Has the joiner its result: is the scope cancelled, or does none of its subtasks live?
    fn has_result(&self, s: u32) -> bool
        ensures { result ≡ ((def.scope_at self.now s).cancelled
            || not (living.any_lives self.now s)) }
    {
        self.records.is_cancelled(s) || !self.any_lives(s)
    }

    /// The answer of `join` once there is one.
    #[tactic(auto, using(crate::proofs::Verdicts::pushes), unfolding(sts_model::specs::Effect::join_scope))]
    pub fn join(&mut self, t: u32, s: u32, failed: u32, timeout: u32, interrupted: u32)
        requires born { t < length self.old.tasks }
        requires lives { living.lives (def.task_at self.old t) ≡ true }
        requires more { (def.task_at self.old t).frame.pc + 1 < 2 ^ 32 }
        requires room { (nat_le MAX_OPERANDS (length (def.task_at self.old t).frame.operands) &&
            not (facts.is_await_all (def.scope_at self.old s).joiner)) ≡ false }
        ensures { self.new ≡ effect.join_scope self.old t
            (def.task_at self.old t).frame s failed timeout interrupted }
    {
        if self.records.is_expired(s) {
            self.joined(t, s, timeout);
        } else if self.has_result(s) {
            match self.verdict(s) {
                Verdict::Ok(None) => {
                    let next = self.records.frame(t).pc + 1;
                    self.joined(t, s, next);
                }
                Verdict::Ok(Some(value)) => {
                    let next = self.records.frame(t).pc + 1;
                    self.joined_with(t, s, next, value);
                }
                Verdict::Failed(code) => self.joined_with(t, s, failed, code),
            }
        } else {
            self.attempted(t, s, interrupted);
        }
    }

    /// A step of `close`.
    #[tactic(auto, unfolding(sts_model::specs::Effect::close_scope))]
    pub fn close(&mut self, t: u32, s: u32)
        requires born { t < length self.old.tasks }
        requires lives { living.lives (def.task_at self.old t) ≡ true }
        requires more { (def.task_at self.old t).frame.pc + 1 < 2 ^ 32 }
        ensures { self.new ≡ effect.close_scope self.old t (def.task_at self.old t).frame s }
    {
        self.cancel(s);
        if self.any_lives(s) {
            self.set_phase(s, Phase::Closing);
        } else {
            self.end_close(t, s);
        }
    }

    fn end_close(&mut self, t: u32, s: u32)
        requires born { t < length self.old.tasks }
        requires lives { living.lives (def.task_at self.old t) ≡ true }
        requires more { (def.task_at self.old t).frame.pc + 1 < 2 ^ 32 }
        ensures { self.new ≡ effect.closed self.old t (def.task_at self.old t).frame s }
    {
        let slots = self.records.cleared(t, s);
        self.set_phase(s, Phase::Closed);
        leave_scope(self.living(t), slots);
    }
}

// ---- births

impl World {
    /// The root task alone.
    ///
    /// # Errors
    ///
    /// Memory ran out.
    pub fn opening(alloc: Global, program: &Program) -> Result<World, AllocError>
        ensures { IfOk result (λ w. def.opening program.now ≡ def.Running w) }
    {
        let records = Records::opening(alloc, program)?;
        let mut was_told = Vec::new(alloc);
        was_told.push(false)?;
        Ok(World {
            records,
            families: Vec::new(alloc),
            tallies: Vec::new(alloc),
            was_told,
            standing_tasks: 1,
            standing_scopes: 0,
        })
    }

    /// Opens a scope.
    ///
    /// # Errors
    ///
    /// Memory ran out; the world is unchanged.
    pub fn open_scope(
        &mut self,
        alloc: Global,
        t: u32,
        slot: u8,
        joiner: Joiner,
        timed: bool,
    ) -> Result<(), AllocError>
        requires born { t < length self.old.tasks }
        requires lives { living.lives (def.task_at self.old t) ≡ true }
        requires more { (def.task_at self.old t).frame.pc + 1 < 2 ^ 32 }
        requires room { length self.old.scopes < MAX_BIRTHS }
        requires entries { length (def.task_at self.old t).frame.entries < MAX_ENTRIES }
        ensures ok { OnOk result (self.new ≡ effect.open_scope self.old t
            (def.task_at self.old t).frame slot joiner timed) }
        ensures err { OnErr result (self.new ≡ self.old) }
    {
        self.families.reserve(1)?;
        self.tallies.reserve(1)?;
        let scopes = self.standing_scopes();
        let opening = NewScope {
            owner: t,
            slot,
            joiner,
            timed,
        };
        self.records.open_scope(alloc, opening)?;
        self.families.push(Family::new(alloc))?;
        self.tallies.push(Tally::new(joiner))?;
        self.standing_scopes = scopes + 1;
        Ok(())
    }

    /// Makes a subtask of a scope that is open.
    ///
    /// # Errors
    ///
    /// Memory ran out; the world is unchanged.
    pub fn fork_task(
        &mut self,
        alloc: Global,
        program: &Program,
        t: u32,
        s: u32,
        function: u32,
        handle: Option<u8>,
    ) -> Result<(), AllocError>
        requires born { t < length self.old.tasks }
        requires lives { living.lives (def.task_at self.old t) ≡ true }
        requires more { (def.task_at self.old t).frame.pc + 1 < 2 ^ 32 }
        requires room { length self.old.tasks < MAX_BIRTHS }
        requires enough { (routine program.now function).args ≤
            length (def.task_at self.old t).frame.operands }
        requires opened { living.is_closed (def.scope_at self.old s).phase ≡ false }
        requires few { standing.standing_tasks self.old < MAX_STANDING }
        ensures ok { OnOk result (self.new ≡ effect.fork_task program.now self.old t
            (def.task_at self.old t).frame s function handle) }
        ensures err { OnErr result (self.new ≡ self.old) }
    {
        let child = self.records.tasks_born() as u32;
        let started = !self.records.is_cancelled(s);
        let tasks = self.standing_tasks();
        self.was_told.reserve(1)?;
        self.families[s as usize].add(child, started)?;
        let fork = NewTask {
            forker: t,
            scope: s,
            function,
            handle,
        };
        if let Err(error) = self.records.fork_task(alloc, program, fork) {
            self.families[s as usize].take_back(started);
            return Err(error);
        }
        self.was_told.push(false)?;
        self.standing_tasks = tasks + 1;
        Ok(())
    }
}

/// Tallies once more.
fn copy_tallies(alloc: Global, tallies: &[Tally]) -> Result<Vec<Tally>, AllocError>
    ensures { IfOk result (λ xs. xs.items ≡ tallies.now) }
{
    let mut copies = Vec::new(alloc);
    for tally in tallies {
        copies.push(tally.copied())?;
    }
    Ok(copies)
}

impl World {
    /// If the answer is true, the two are the same.
    pub fn same(&self, other: &World) -> bool
        ensures { result ≡ true → self.now ≡ other.now }
    {
        self.records.same(&other.records)
    }

    /// The same once more.
    ///
    /// # Errors
    ///
    /// Memory ran out.
    pub fn copied(&self, alloc: Global) -> Result<World, AllocError>
        ensures { IfOk result (λ w. w ≡ self.now) }
    {
        let records = self.records.copied(alloc)?;
        let families = copy_all(alloc, self.families.as_slice())?;
        let tallies = copy_tallies(alloc, self.tallies.as_slice())?;
        let was_told = Vec::from_slice(alloc, self.was_told.as_slice())?;
        Ok(World {
            records,
            families,
            tallies,
            was_told,
            standing_tasks: self.standing_tasks,
            standing_scopes: self.standing_scopes,
        })
    }
}
