//! The book of a run: a machine and the journal of its events.

ghost use Rattle.std.specs.Prelude.{◌≡◌, ◌≢◌, ◌<◌, ◌≤◌, ℕ, ◌+◌, ◌++◌, ◌∷◌, [], ◌↔◌, List, IfOk, OnOk, IfErr};
ghost use Rattle.std.specs.Prelude.{OnErr, IfSome, IfNone, IsErr, IsOk, IsTrue, true, false};
ghost use Rattle.std.specs.Prelude.{filter, not, ◌==◌, MatchBool, count_by, None, Some};
ghost use Rattle.std.specs.Prelude.{vec_capacity, unwrap_or};
ghost use Rattle.std.specs.List.{list_any};
ghost use Rattle.sts_frames.specs.Locals.{local_at};
ghost use Rattle.sts_machine.specs.Slice.{code_at, frame_at, steps_of};
ghost use Rattle.sts_machine.specs.Turned.{Picks, turned};
ghost use Rattle.sts_model.specs.Run.{after, counts, is_step};
ghost use Rattle.sts_model.specs.Waiting.{can_step};
ghost use Rattle.sts_model.specs.declared.event.Event.{Event as AnyEvent};
ghost use Rattle.sts_model.specs.World.{code, task_at};
ghost use Rattle.sts_pool.specs.Book.{IsJournal, IsOurs, MayBe, OfJournal, Records};
ghost use Rattle.sts_pool.specs.Book.{is_free, is_out, may_turn};
ghost use Rattle.sts_pool.specs.Journal.{opened};
ghost use Rattle.sts_pool.specs.Outside.{IsOutside};
ghost use Rattle.sts_pool.specs.Report.{IsReport, IsUnfinished};
ghost use Rattle.laws_runs.specs.Runs.{In};
ghost use Rattle.laws_live.specs.Reading.{alive_at};

use crate::journal::Journal;
use crate::report::{PoolError, Report};
use laws_accepted::{every_run, stands_stay, turns_are_seen, views_are_within};
use std::alloc::{AllocError, Global};
use std::marker::Model;
use sts_code::MAX_OUTSIDE;
use sts_machine::{Machine, Slice, Turned};
use sts_model::{End, Event};
use sts_verify::Verified;

/// A machine, the journal of its events, and the tasks that workers have out.
///
/// If the journal isn't asked for, its entries are only counted. Then some journal leads to the
/// state of the machine, and each call does what it does with a written journal.
#[derive(Drop)]
pub struct Book<'p> {
    machine: Machine<'p>,
    journal: Journal,
    outside: u32,
    out: Vec<u32>,
}

impl<'p> Model for Book<'p> {
    ghost use Rattle.std.specs.Prelude.{vec_capacity};
    ghost use Rattle.sts_pool.specs.Book.{BookSeen, IsKept, book_of};
    ghost use Rattle.sts_pool.specs.Journal.{written};

    ghost Value = { BookSeen };

    ghost view = { λ b. book_of b.machine (written b.journal) b.outside b.out.items };

    ghost invariant = { λ b. IsKept b.machine b.journal b.outside
        b.out.items (vec_capacity b.out) };
}

/// The book has taken the limit of outside events.
#[derive(Clone, Copy, Debug, PartialEq, Eq)]
pub struct OutsideFull;

/// A slice that is not this book's, given back.
#[derive(Drop)]
pub struct Stranger<'p> {
    pub slice: Slice<'p>,
}

impl<'p> Book<'p> {
    /// A book before the first event. It has room for the steps of `main`'s budget and 4,096
    /// outside events in the journal, and for the tasks of that budget to be out. No later call
    /// can answer that memory ran out.
    ///
    /// # Errors
    ///
    /// Memory ran out.
    pub fn start(alloc: Global, verified: &'p Verified) -> Result<Book<'p>, AllocError>
        ensures program { IfOk result (λ b. b.program ≡ verified.now) }
        ensures journal { IfOk result (λ b. b.journal ≡ Some []) }
        ensures opening { IfOk result (λ b. IsJournal b []) }
        ensures out { IfOk result (λ b. b.out ≡ []) }
    {
        Book::with_journal(alloc, verified, true)
    }

    /// A book before the first event. The entries of its journal are written, or only counted. If
    /// they are only counted, it has no room for them.
    ///
    /// # Errors
    ///
    /// Memory ran out.
    pub(crate) fn with_journal(
        alloc: Global,
        verified: &'p Verified,
        is_written: bool,
    ) -> Result<Book<'p>, AllocError>
        ensures program { IfOk result (λ b. b.program ≡ verified.now) }
        ensures journal { IfOk result (λ b. b.journal ≡ opened is_written) }
        ensures opening { IfOk result (λ b. IsJournal b []) }
        ensures out { IfOk result (λ b. b.out ≡ []) }
    {
        stands_stay(verified);
        turns_are_seen(verified);
        views_are_within(verified);
        let budget = every_run(verified);
        let entries = budget.steps as usize + MAX_OUTSIDE as usize;
        let journal = Journal::start(alloc, is_written, entries)?;
        let out = Vec::with_capacity(alloc, budget.tasks as usize)?;
        let machine = Machine::prepare(alloc, verified)?;
        Ok(Book {
            machine,
            journal,
            outside: 0,
            out,
        })
    }

    /// The entries so far, oldest first. They lead to the state of the machine. A journal that is
    /// only counted shows none.
    pub fn journal(&self) -> &[Event]
        ensures value { IfSome self.now.journal (λ entries. result.now ≡ entries) }
        ensures stands { IfSome self.now.journal (MayBe self.now) }
        ensures program { self.now.machine.program ≡ self.now.program }
    {
        self.journal.written()
    }

    /// How many entries the journal has, written or not.
    pub(crate) fn entries(&self) -> u64
        ensures { result ≡ self.now.machine.steps + self.now.outside }
    {
        self.machine.steps() + u64::from(self.outside)
    }

    /// A task that can step, out or not; `None` if and only if no task can.
    pub fn ready(&self) -> Option<u32>
        ensures { OfJournal self.now (λ events. In (λ w. Picks (can_step self.now.program w) result)
            (after self.now.program events)) }
    {
        self.machine.ready()
    }

    /// How the root ended, if it did.
    pub fn root_end(&self) -> Option<End>
        ensures { OfJournal self.now (λ events. In (λ w. result ≡ (task_at w 0).outcome)
            (after self.now.program events)) }
    {
        self.machine.root_end()
    }

    /// Takes a step of a task that can step and isn't out, and records it. Otherwise does nothing.
    #[inline(always)]
    pub fn turn(&mut self, task: u32) -> Turned
        ensures turned { OfJournal self.old (λ events.
            result ≡ turned (may_turn self.old events task)) }
        ensures journal { result ≡ Turned.Stepped
            → Records self.old self.new (Event.Step task ∷ []) }
        ensures idle { result ≡ Turned.Idle → self.new ≡ self.old }
        ensures program { self.new.program ≡ self.old.program }
        ensures out { self.new.out ≡ self.old.out }
    {
        if is_among(self.out.as_slice(), task) {
            return Turned::Idle;
        }
        match self.machine.turn(Event::Step(task)) {
            Turned::Idle => Turned::Idle,
            Turned::Stepped => {
                self.journal.push(Event::Step(task));
                Turned::Stepped
            }
        }
    }

    /// Takes a step of a task that can step and isn't out, and records it. Answers whether it can
    /// step then.
    #[inline(always)]
    pub(crate) fn step(&mut self, task: u32) -> bool
        requires { is_free self.old task ≡ true }
        ensures free { result ≡ is_free self.new task }
        ensures journal { Records self.old self.new (Event.Step task ∷ []) }
        ensures program { self.new.program ≡ self.old.program }
        ensures out { self.new.out ≡ self.old.out }
    {
        let can_step = self.machine.step(task);
        self.journal.push(Event::Step(task));
        can_step
    }

    /// Does local steps of a task that can step and isn't out, in place, until the limit or the
    /// first other step. Records them, and answers how many. Of another task it does none.
    #[inline(always)]
    pub fn run_here(&mut self, task: u32, limit: u32) -> u32
        ensures most { result ≤ limit }
        ensures stops { is_free self.old task ≡ true → result < limit
            → local_at (code_at self.old.machine task) (frame_at self.new.machine task) ≡ None }
        ensures idle { is_free self.old task ≡ false → result ≡ 0 }
        ensures journal { Records self.old self.new (steps_of result task) }
        ensures program { self.new.program ≡ self.old.program }
        ensures out { self.new.out ≡ self.old.out }
    {
        if !self.is_at_hand(task) {
            return 0;
        }
        let done = self.machine.run_here(task, limit);
        self.journal.push_steps(task, done);
        done
    }

    /// Applies an interrupt or an expiry, and records it even if it is idle.
    ///
    /// # Errors
    ///
    /// The journal has 4,096 outside events: nothing changed.
    #[inline(never)]
    pub fn outside(&mut self, event: Event) -> Result<Turned, OutsideFull>
        requires { IsOutside event }
        ensures full { IsErr result ↔ (self.old.outside ≡ MAX_OUTSIDE) }
        ensures stays { OnErr result (self.new ≡ self.old) }
        ensures turned { IfOk result (λ t. OfJournal self.old (λ events. t
            ≡ turned (counts self.old.program (after self.old.program events) event))) }
        ensures journal { OnOk result (Records self.old self.new (event ∷ [])) }
        ensures program { self.new.program ≡ self.old.program }
        ensures out { self.new.out ≡ self.old.out }
    {
        if self.is_full() {
            return Err(OutsideFull);
        }
        let turned = self.machine.turn(event);
        self.journal.push(event);
        self.outside += 1;
        Ok(turned)
    }

    /// Claims a task that can step and isn't out, and marks it as out. Returns `None` if and only
    /// if there is no such task.
    pub(crate) fn claim(&mut self) -> Option<u32>
        ensures none { IfNone result ((self.new ≡ self.old) × OfJournal self.old (λ events.
            (t : ℕ) → may_turn self.old events t ≡ false)) }
        ensures ready { IfSome result (λ t. OfJournal self.old (λ events.
            may_turn self.old events t ≡ true)) }
        ensures free { IfSome result (λ t. is_free self.old t ≡ true) }
        ensures out { IfSome result (λ t.
            self.new ≡ record self.old { out = self.old.out ++ t ∷ [] }) }
    {
        let task = self.pick()?;
        self.out.push_reserved(task);
        Some(task)
    }

    /// Ends a claim: the task isn't out any more. If a slice of it was taken, the book no longer
    /// takes it back.
    pub(crate) fn release(&mut self, task: u32)
        ensures { self.new
            ≡ record self.old { out = filter (λ o. not (o == task)) self.old.out } }
    {
        remove_task(&mut self.out, task);
    }

    /// Takes the slice of a task that can step and isn't out. Returns `None` if and only if there
    /// is no such task.
    pub fn check_out(&mut self) -> Option<Slice<'p>>
        ensures none { IfNone result ((self.new ≡ self.old) × OfJournal self.old (λ events.
            (t : ℕ) → may_turn self.old events t ≡ false)) }
        ensures ready { IfSome result (λ s. OfJournal self.old (λ events.
            may_turn self.old events s.task ≡ true)) }
        ensures slice { IfSome result (λ s. s ≡ record {
          task = s.task;
          code = code self.old.program (alive_at self.old.machine.live s.task).frame;
          start = (alive_at self.old.machine.live s.task).frame;
          frame = (alive_at self.old.machine.live s.task).frame;
          count = 0;
        }) }
        ensures out { IfSome result (λ s.
            self.new ≡ record self.old { out = self.old.out ++ s.task ∷ [] }) }
    {
        let task = self.claim()?;
        Some(self.machine.slice(task))
    }

    /// Takes the slice of this task, if it can step and isn't out.
    pub(crate) fn lend(&mut self, task: u32) -> Option<Slice<'p>>
        ensures none { IfNone result ((self.new ≡ self.old) × (is_free self.old task ≡ false)) }
        ensures free { IfSome result (λ s. is_free self.old task ≡ true) }
        ensures slice { IfSome result (λ s. s ≡ record {
          task = task;
          code = code_at self.old.machine task;
          start = frame_at self.old.machine task;
          frame = frame_at self.old.machine task;
          count = 0;
        }) }
        ensures out { IfSome result (λ s.
            self.new ≡ record self.old { out = self.old.out ++ task ∷ [] }) }
    {
        if !self.is_at_hand(task) {
            return None;
        }
        self.out.push_reserved(task);
        Some(self.machine.slice(task))
    }

    /// Takes a slice back, and records one step of its task for each instruction of the slice.
    ///
    /// # Errors
    ///
    /// The slice isn't this book's: its task isn't out here, is out from another frame, or the code
    /// of its function is another. The slice is given back, and nothing changed.
    pub fn check_in(&mut self, slice: Slice<'p>) -> Result<(), Stranger<'p>>
        ensures ours { IsOk result ↔ IsOurs self.old slice.entry }
        ensures journal { OnOk result
            (Records self.old self.new (steps_of slice.entry.count slice.entry.task)) }
        ensures back { OnOk result (is_out self.new slice.entry.task ≡ false) }
        ensures others { OnOk result ((t : ℕ) → t ≢ slice.entry.task
            → is_out self.new t ≡ is_out self.old t) }
        ensures program { OnOk result (self.new.program ≡ self.old.program) }
        ensures stranger { IfErr result (λ e. e.slice ≡ slice.entry) }
        ensures stays { OnErr result (self.new ≡ self.old) }
    {
        if self.take_in(&slice) {
            Ok(())
        } else {
            Err(Stranger { slice })
        }
    }

    /// Takes a slice back, and records one step of its task for each instruction of the slice.
    /// Answers whether it is this book's. If it isn't, nothing changed.
    pub(crate) fn take_in(&mut self, slice: &Slice<'p>) -> bool
        ensures ours { IsTrue result ↔ IsOurs self.old slice.now }
        ensures journal { result ≡ true →
            Records self.old self.new (steps_of slice.now.count slice.now.task) }
        ensures back { result ≡ true → is_out self.new slice.now.task ≡ false }
        ensures others { result ≡ true → (t : ℕ) → t ≢ slice.now.task
            → is_out self.new t ≡ is_out self.old t }
        ensures program { self.new.program ≡ self.old.program }
        ensures stays { result ≡ false → self.new ≡ self.old }
    {
        let task = slice.task();
        if !self.out.contains(&task) || !self.machine.fits(slice) {
            return false;
        }
        self.machine.put(slice);
        self.journal.push_steps(task, slice.count());
        remove_task(&mut self.out, task);
        true
    }

    /// The end of the root, the steps taken and the journal, with the number of workers, and with
    /// which events from outside counted.
    ///
    /// # Errors
    ///
    /// The root lives.
    pub(crate) fn report(
        self,
        alloc: Global,
        workers: u32,
        counted: Vec<bool>,
    ) -> Result<Report, PoolError>
        ensures report { IfOk result (λ r. (events : List AnyEvent) → MayBe self.entry events
            → IsReport self.entry.program events r.end × (r.steps ≡ count_by is_step events)) }
        ensures journal { IfOk result (λ r. r.journal.items ≡ unwrap_or self.entry.journal []) }
        ensures unfinished { OnErr result ((events : List AnyEvent) → MayBe self.entry events
            → IsUnfinished self.entry.program events) }
        ensures workers { IfOk result (λ r. r.workers ≡ workers) }
    {
        let Some(end) = self.machine.root_end() else {
            return Err(PoolError::Unfinished);
        };
        Ok(Report {
            end,
            steps: self.machine.steps(),
            journal: self.journal.into_entries(alloc),
            workers,
            counted,
        })
    }

    /// Is there a task that can step and isn't out?
    pub(crate) fn has_more(&self) -> bool
        ensures { MatchBool result ((t : ℕ) × (is_free self.now t ≡ true))
            ((t : ℕ) → is_free self.now t ≡ false) }
    {
        self.pick().is_some()
    }

    /// Is there another task that can step, or one that is out?
    #[inline(never)]
    pub(crate) fn has_other(&self, task: u32) -> bool {
        !self.out.is_empty() || self.machine.ready_beside(&[task]).is_some()
    }

    /// Can the task step, and isn't it out?
    #[inline(always)]
    pub(crate) fn is_at_hand(&self, task: u32) -> bool
        ensures { result ≡ is_free self.now task }
    {
        self.machine.can_step(task) && !is_among(self.out.as_slice(), task)
    }

    /// A task that can step and isn't out; `None` if and only if there is no such task.
    fn pick(&self) -> Option<u32>
        ensures free { Picks (is_free self.now) result }
        ensures told { OfJournal self.now (λ events. Picks (may_turn self.now events) result) }
    {
        self.machine.ready_beside(self.out.as_slice())
    }

    /// Does the book take no further outside event?
    pub(crate) fn is_full(&self) -> bool
        ensures full { IsTrue result ↔ self.now.outside ≡ MAX_OUTSIDE }
        ensures most { self.now.outside ≤ MAX_OUTSIDE }
    {
        self.outside >= MAX_OUTSIDE
    }
}

/// Is the task in the list? Usually the list is empty.
#[inline(always)]
fn is_among(out: &[u32], task: u32) -> bool
    ensures { result ≡ list_any (λ o. o == task) out.now }
{
    !out.is_empty() && out.contains(&task)
}

/// Is the task the only one of the list?
#[inline(always)]
fn is_alone(out: &[u32], task: u32) -> bool
    ensures { result ≡ true → filter (λ o. not (o == task)) out.now ≡ [] }
{
    if out.len() != 1 {
        return false;
    }
    out[0] == task
}

/// Takes one task out of a list. Usually it is the only one.
fn remove_task(out: &mut Vec<u32>, task: u32)
    ensures items { out.new.items ≡ filter (λ o. not (o == task)) out.old.items }
    ensures capacity { vec_capacity out.new ≡ vec_capacity out.old }
{
    if is_alone(out.as_slice(), task) {
        out.clear();
        return;
    }
    out.retain(|t| *t != task);
}
