//! The machine.

ghost use Rattle.std.specs.Prelude.{◌≡◌, ◌+◌, ◌<◌, ◌≤◌, ◌++◌, ◌∷◌, [], List, length, true, IfOk};
ghost use Rattle.sts_code.specs.Program.{routine};
ghost use Rattle.sts_code.specs.declared.limits.TheConstants.{MAX_INSTRUCTIONS};
ghost use Rattle.laws_accepted.specs.Accepted.{main_of};
ghost use Rattle.laws_accepted.specs.EveryRun.{RunsWell};
ghost use Rattle.sts_machine.specs.Laws.{HasLaws};
ghost use Rattle.sts_machine.specs.Machine.{Stands};
ghost use Rattle.sts_machine.specs.Turned.{Picks, turned};
ghost use Rattle.sts_model.specs.Run.{after, counts, taken};
ghost use Rattle.sts_model.specs.Waiting.{can_step};
ghost use Rattle.sts_model.specs.World.{task_at};
ghost use Rattle.sts_model.specs.declared.event.Event.{Event as AnyEvent};
ghost use Rattle.sts_rules.specs.Refusal.{IsBudgetOf};
ghost use Rattle.sts_rules.specs.declared.budget.Budgets.{Budgets as AnyBudgets};
ghost use Rattle.laws_runs.specs.Runs.{In};
ghost use Rattle.laws_live.specs.Run.{live_apply, live_counts, live_opening, live_steps_in};
ghost use Rattle.laws_live.specs.Waiting.{live_can_step};

use crate::laws::laws;
use crate::opening::main_frame;
use crate::perform::perform;
use crate::turned::Turned;
use laws_live::{expiries_move_none, interrupts_move_none, run_is_seen, stands_are_owned};
use std::alloc::{AllocError, Global};
use std::marker::Model;
use sts_code::{Instr, Program};
use sts_model::{End, Event};
use sts_store::{Room, Store};
use sts_verify::Verified;

/// The instructions of a function that is there.
#[inline(always)]
fn code_there(program: &Program, function: u32) -> &[Instr]
    requires { function < length program.now.routines }
    ensures value { result.now ≡ (routine program.now function).code }
    ensures short { length result.now ≤ MAX_INSTRUCTIONS }
{
    let routine = &program.functions()[function as usize];
    routine.code.as_slice()
}

/// A run of a verified program.
#[derive(Drop)]
pub struct Machine<'p> {
    pub(crate) verified: &'p Verified,
    pub(crate) store: Store,
    pub(crate) steps: u64,
}

impl<'p> Model for Machine<'p> {
    ghost use Rattle.sts_machine.specs.Machine.{Seen, IsMachine};
    ghost use Rattle.sts_store.specs.Parts.{live_of, unseen_of};

    ghost Value = { Seen };

    ghost view = { λ m. record {
      program = m.verified.now;
      live = live_of m.store;
      unseen = unseen_of m.store;
      steps = m.steps;
    } };

    ghost invariant = { λ m. IsMachine m.verified.now m.store m.steps };
}

impl<'p> Machine<'p> {
    /// The machine before the first event. It has room for the budgets of `main`. No later call can
    /// answer that memory ran out.
    ///
    /// # Errors
    ///
    /// Memory ran out.
    pub fn prepare(alloc: Global, verified: &'p Verified) -> Result<Machine<'p>, AllocError>
        ensures program { IfOk result (λ m. m.program ≡ verified.now) }
        ensures live { IfOk result (λ m. m.live ≡ live_opening verified.now) }
        ensures steps { IfOk result (λ m. m.steps ≡ 0) }
        ensures stands { IfOk result (λ m. Stands m []) }
    {
        let budgets = laws(verified);
        run_is_seen();
        stands_are_owned();
        let room = Room {
            tasks: budgets.tasks,
            scopes: budgets.scopes,
            bindings: budgets.binds,
        };
        let store = Store::with_room(alloc, room, main_frame(verified.program()))?;
        Ok(Machine {
            verified,
            store,
            steps: 0,
        })
    }

    /// The invariant of the machine's type: the laws of its program.
    pub(crate) fn laws(&self)
        ensures { HasLaws self.now.program }
    {
        let _ = &self.steps;
    }

    /// Does the event count?
    #[inline(always)]
    fn counts(&self, event: Event) -> bool
        ensures { result ≡ live_counts self.now.program self.now.live event }
    {
        match event {
            Event::Step(t) => self.store.can_step(t),
            Event::Interrupt(t) => self.store.lives(t),
            Event::Expire(s) => self.store.can_expire(s),
        }
    }

    /// Takes a step of a task that can step, and answers whether it can step then.
    #[inline(always)]
    fn take_step(&mut self, t: u32) -> bool
        requires { live_can_step self.old.program self.old.live t ≡ true }
        ensures program { self.new.program ≡ self.old.program }
        ensures live { self.new.live ≡ live_apply self.old.program self.old.live (Event.Step t) }
        ensures steps { self.new.steps ≡ self.old.steps + 1 }
        ensures can_step { result ≡ live_can_step self.new.program self.new.live t }
    {
        let program = self.verified.program();
        let frame = self.store.frame(t);
        let code = code_there(program, frame.function);
        let instr = &code[frame.pc as usize];
        let can_step = perform(&mut self.store, program, code, t, instr);
        self.steps += 1;
        can_step
    }

    /// Applies an event that counts.
    #[inline(always)]
    fn take(&mut self, event: Event)
        requires { live_counts self.old.program self.old.live event ≡ true }
        ensures program { self.new.program ≡ self.old.program }
        ensures live { self.new.live ≡ live_apply self.old.program self.old.live event }
        ensures steps { self.new.steps
            ≡ self.old.steps + live_steps_in self.old.program self.old.live event }
    {
        match event {
            Event::Step(t) => {
                self.take_step(t);
            }
            Event::Interrupt(t) => {
                interrupts_move_none();
                self.store.interrupt(t);
            }
            Event::Expire(s) => {
                expiries_move_none();
                self.store.expire(s);
            }
        }
    }

    /// Applies one event, and answers whether it counted. If a list of events led to the state
    /// before, the list with this event leads to the state after. The run keeps `RunsWell`.
    #[inline(always)]
    pub fn turn(&mut self, event: Event) -> Turned
        ensures program { self.new.program ≡ self.old.program }
        ensures live { self.new.live ≡ live_apply self.old.program self.old.live event }
        ensures steps { self.new.steps
            ≡ self.old.steps + live_steps_in self.old.program self.old.live event }
        ensures answer { result ≡ turned (live_counts self.old.program self.old.live event) }
        ensures idle { result ≡ Turned.Idle → self.new ≡ self.old }

        ensures stands { (events : List AnyEvent) → Stands self.old events
            → Stands self.new (events ++ event ∷ []) }
        ensures counted { (events : List AnyEvent) → Stands self.old events
            → result ≡ turned (counts self.old.program (after self.old.program events) event) }
        ensures runs_well { (events : List AnyEvent) (budget : AnyBudgets)
            → Stands self.old events → IsBudgetOf self.old.program (main_of self.old.program) budget
            → RunsWell self.old.program budget (events ++ event ∷ []) }
    {
        self.laws();
        if !self.counts(event) {
            return Turned::Idle;
        }
        self.take(event);
        Turned::Stepped
    }

    /// Takes a step of a task that can step, as `turn` does. Answers whether it can step then.
    #[inline(always)]
    pub fn step(&mut self, task: u32) -> bool
        requires { live_can_step self.old.program self.old.live task ≡ true }
        ensures program { self.new.program ≡ self.old.program }
        ensures live { self.new.live
            ≡ live_apply self.old.program self.old.live (Event.Step task) }
        ensures steps { self.new.steps ≡ self.old.steps + 1 }
        ensures can_step { result ≡ live_can_step self.new.program self.new.live task }
        ensures stands { (events : List AnyEvent) → Stands self.old events
            → Stands self.new (events ++ Event.Step task ∷ []) }
        ensures runs_well { (events : List AnyEvent) (budget : AnyBudgets)
            → Stands self.old events → IsBudgetOf self.old.program (main_of self.old.program) budget
            → RunsWell self.old.program budget (events ++ Event.Step task ∷ []) }
    {
        self.laws();
        self.take_step(task)
    }

    /// A task that can step, or `None` if and only if there is no such task.
    pub fn ready(&self) -> Option<u32>
        ensures seen { Picks (live_can_step self.now.program self.now.live) result }
        ensures stands { (events : List AnyEvent) → Stands self.now events
            → In (λ w. Picks (can_step self.now.program w) result) (after self.now.program events) }
    {
        self.store.ready_front()
    }

    /// How the root ended, if it did.
    pub fn root_end(&self) -> Option<End>
        ensures seen { result ≡ self.now.live.root_end }
        ensures stands { (events : List AnyEvent) → Stands self.now events
            → In (λ w. result ≡ (task_at w 0).outcome) (after self.now.program events) }
    {
        self.store.root_end()
    }

    /// The steps taken.
    pub fn steps(&self) -> u64
        ensures seen { result ≡ self.now.steps }
        ensures stands { (events : List AnyEvent) → Stands self.now events
            → result ≡ taken self.now.program events }
    {
        self.steps
    }
}
