//! The workers. They share one book under one lock.

ghost use Rattle.std.specs.Prelude.{◌≡◌, ◌≤◌, [], IfErr, IfOk, IfSome, count_by, is_some, length};
ghost use Rattle.sts_model.specs.Run.{is_step};
ghost use Rattle.sts_pool.specs.Asked.{HasGiven};
ghost use Rattle.sts_pool.specs.Book.{IsJournal};
ghost use Rattle.sts_pool.specs.Outside.{IsGiven};
ghost use Rattle.sts_pool.specs.Report.{EndsUnfinished, IsReport, IsReportOf};

use crate::asked::{Asked, Runs};
use crate::book::Book;
use crate::gate::{Gate, Outside};
use crate::report::{PoolError, Report};
use crate::tasks::Batch;
use arrayvec::ArrayVec;
use std::alloc::Global;
use std::hint::spin_loop;
use std::marker::Brand;
use std::sync::{Condvar, Mutex, MutexGuard, Wait};
use std::thread;
use std::thread::{Builder, Threads};
use sts_code::MAX_OUTSIDE;
use sts_verify::Verified;
use sts_waits::{Held, LIMITS, LOOKS, Waits, Wake, Worker};

/// How long a worker pauses after its first look for a task or the lock.
const FIRST_PAUSE: u32 = 4;

/// So often the next pause is twice as long as the one before. After that all are equally long.
const DOUBLINGS: u32 = 5;

/// The bytes of a worker's stack.
pub(crate) const STACK: usize = 1 << 20;

/// The state that workers share: the book with its outside, and the rule for what each of them does.
#[derive(Drop)]
struct Shared<'p, O: Outside, B: Runs<O>> {
    asked: Asked<'p, O, B>,
    waits: Waits,
}

/// The state under one lock, and the condition that sleeping workers wait for.
#[derive(Drop)]
struct Pool<'p, O: Outside, B: Runs<O>> {
    shared: Mutex<Shared<'p, O, B>>,
    woken: Condvar,
}

impl<'p, O: Outside, B: Runs<O>> Shared<'p, O, B> {
    /// Does what a worker does at a hold of the lock.
    fn hold(&mut self, worker: Worker, batch: &mut Batch<'p>) -> Held {
        self.waits.hold(&mut self.asked, worker, batch)
    }
}

/// Does the work between two holds of the lock: a pause, the gate, or the local instructions of slices.
fn work_outside<G: Gate>(gate: &G, number: u32, worker: Worker, batch: &mut Batch<'_>) {
    match worker {
        Worker::Looking(pauses) => pause(pauses),
        Worker::Claiming(task) => gate.enter(number, task),
        Worker::Out { limit, .. } => {
            for place in batch.as_mut_slice() {
                let Some(slice) = place else { continue };
                gate.enter(number, slice.task());
                let _done = slice.run_local(limit);
            }
        }
        Worker::New | Worker::Asleep | Worker::Ended => {}
    }
}

/// Lets some time pass after a look, with no lock held. The worker has paused `pauses` times before.
fn pause(pauses: u32) {
    for _ in 0..FIRST_PAUSE << pauses.min(DOUBLINGS) {
        spin_loop();
    }
}

impl<'p, O: Outside, B: Runs<O>> Pool<'p, O, B> {
    /// Takes the lock. The worker sleeps until the lock is free only after it looked for a while
    /// and others had it each time.
    fn locked<R: Wait>(&self, rt: &R) -> MutexGuard<'_, Shared<'p, O, B>> {
        for looks in 0..LOOKS {
            if let Some(guard) = self.shared.try_lock() {
                return guard;
            }
            pause(looks);
        }
        self.shared.lock(rt)
    }

    /// Wakes other workers that sleep.
    #[inline(always)]
    fn wake(&self, wake: Wake) {
        match wake {
            Wake::Nobody => {}
            Wake::Another => self.woken.notify_one(),
            Wake::All => self.woken.notify_all(),
        }
    }

    /// Makes each worker end at its next lock.
    fn stop<R: Wait>(&self, rt: &R) {
        let mut guard = self.shared.lock(rt);
        let wake = guard.waits.stop();
        self.wake(wake);
    }

    /// The work of one worker: what the rule says at each hold of the lock, and the work between two
    /// holds, until the rule says that the worker has ended.
    fn work<R: Wait, G: Gate>(&self, rt: &R, gate: &G, number: u32) {
        let mut batch = ArrayVec::new();
        let mut worker = Worker::New;
        let mut guard = self.locked(rt);
        for _ in rt.forever() {
            let held = guard.hold(worker, &mut batch);
            self.wake(held.wake);
            worker = held.worker;
            guard = match worker {
                Worker::Ended => return,
                Worker::Asleep => self.woken.wait(rt, guard),
                _ => {
                    drop(guard);
                    work_outside(gate, number, worker, &mut batch);
                    self.locked(rt)
                }
            };
        }
    }
}

impl<'p, O: Outside + Drop, B: Runs<O>> Pool<'p, O, B> {
    /// The book with its outside, and how many workers have reached the lock.
    fn into_asked(self) -> (Asked<'p, O, B>, u32) {
        let Shared { asked, waits } = self.shared.into_inner();
        (asked, waits.came())
    }
}

/// Runs a program with 1 to 16 workers: how its root ended, and the journal that led there. The
/// interrupts and expiries of the journal are those that `outside` gave, each at the length that
/// the journal had then.
///
/// # Errors
///
/// `Memory`: memory ran out. `SpawnRefused`: a worker could not be started, or one that was started
/// never reached the lock; the other workers were stopped and have ended. `Unfinished`: the root
/// lived when the workers had ended. No contract excludes that, since of a value behind a lock only
/// its type is known. Tests do.
pub fn run<R: Threads + Wait + Sync, G: Gate + Sync, O: Outside + Send + Drop>(
    rt: &R,
    alloc: Global,
    verified: &Verified,
    workers: u32,
    gate: &G,
    outside: O,
) -> Result<Report, PoolError>
    requires { (1 ≤ workers) × (workers ≤ 16) }
    ensures report { IfOk result (λ r. IsReport verified.now r.journal.items r.end) }
    ensures given { IfOk result (λ r. IsGiven O.gives outside r.journal.items) }
    ensures steps { IfOk result (λ r. r.steps ≡ count_by is_step r.journal.items) }
    ensures workers { IfOk result (λ r. r.workers ≡ workers) }
    ensures unfinished { IfErr result (λ e. e ≡ PoolError.Unfinished
        → EndsUnfinished verified.now (IsGiven O.gives outside)) }
{
    run_with_journal(rt, alloc, verified, workers, gate, outside, true)
}

/// Does what `run` does, but writes the journal only if `is_written` is true. Otherwise the journal
/// of the report is empty, and the rest of the report is that of some journal.
///
/// # Errors
///
/// Those of `run`.
pub fn run_with_journal<R: Threads + Wait + Sync, G: Gate + Sync, O: Outside + Send + Drop>(
    rt: &R,
    alloc: Global,
    verified: &Verified,
    workers: u32,
    gate: &G,
    outside: O,
    is_written: bool,
) -> Result<Report, PoolError>
    requires { (1 ≤ workers) × (workers ≤ 16) }
    ensures report { IfOk result
        (IsReportOf is_written verified.now (IsGiven O.gives outside)) }
    ensures workers { IfOk result (λ r. r.workers ≡ workers) }
    ensures unfinished { IfErr result (λ e. e ≡ PoolError.Unfinished
        → EndsUnfinished verified.now (IsGiven O.gives outside)) }
{
    let stacks = &[STACK; 16][..workers as usize];
    let Ok(counted) = Vec::with_capacity(alloc, MAX_OUTSIDE as usize) else {
        return Err(PoolError::Memory);
    };
    let Ok(book) = Book::with_journal(alloc, verified, is_written) else {
        return Err(PoolError::Memory);
    };
    let left = run_on::<Brand, R, G, O>(rt, book, counted, stacks, gate, outside)?;
    let Left {
        book,
        counted,
        workers,
    } = left;
    book.report(alloc, workers, counted)
}

/// The result of all workers: the book, which events from outside counted, and how many workers
/// reached the lock.
#[derive(Drop)]
pub(crate) struct Left<'p> {
    book: Book<'p>,
    counted: Vec<bool>,
    workers: u32,
}

/// Starts one worker for each of these stack sizes. Returns the book of the picked program once all
/// of them have ended. The picked outside gave the interrupts and expiries of its journal, and has
/// no further one to give.
///
/// # Errors
///
/// `SpawnRefused`: a worker could not be started, or a started worker never reached the lock.
pub(crate) fn run_on<
    'p,
    B: Runs<O> + Send + Sync,
    R: Threads + Wait + Sync,
    G: Gate + Sync,
    O: Outside + Send + Drop,
>(
    rt: &R,
    book: Book<'p>,
    counted: Vec<bool>,
    stacks: &[usize],
    gate: &G,
    outside: O,
) -> Result<Left<'p>, PoolError>
    requires program { book.program ≡ B.program }
    requires written { is_some book.journal ≡ B.is_written }
    requires opening { IsJournal book [] }
    requires outside { IfSome B.outside (λ o. o ≡ outside) }
    requires few { length stacks.now ≤ 16 }
    ensures program { IfOk result (λ l. l.book.program ≡ B.program) }
    ensures written { IfOk result (λ l. is_some l.book.journal ≡ B.is_written) }
    ensures given { IfOk result (λ l. HasGiven O.gives B.outside l.book) }
    ensures workers { IfOk result (λ l. l.workers ≡ length stacks.now) }
    ensures refused { IfErr result (λ e. e ≡ PoolError.SpawnRefused) }
{
    let workers = stacks.len() as u32;
    let pool = Pool::<O, B> {
        shared: Mutex::new(Shared {
            asked: Asked::new(book, outside, counted),
            waits: Waits::new(workers, LIMITS),
        }),
        woken: Condvar::new(),
    };
    let have_started = work_all(rt, &pool, gate, stacks);
    let (asked, came) = pool.into_asked();
    if !have_started || came != workers {
        return Err(PoolError::SpawnRefused);
    }
    let (book, counted) = asked.close();
    Ok(Left {
        book,
        counted,
        workers: came,
    })
}

/// Starts a worker with a stack of each of these sizes, and waits for all of them to end. The
/// answer is false if one could not be started.
fn work_all<
    'p,
    B: Runs<O> + Send + Sync,
    R: Threads + Wait + Sync,
    G: Gate + Sync,
    O: Outside + Send,
>(rt: &R, pool: &Pool<'p, O, B>, gate: &G, stacks: &[usize]) -> bool {
    thread::scope(thread::scope_env(), rt, |scope| {
        for (worker, stack) in stacks.iter().enumerate() {
            let builder = Builder::new().stack_size(*stack);
            let worker = (worker & 0xff) as u32;
            if builder
                .spawn_scoped(scope, move || pool.work(rt, gate, worker))
                .is_err()
            {
                pool.stop(rt);
                return false;
            }
        }
        true
    })
}
