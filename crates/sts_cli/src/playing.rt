//! Does what a mode asks for, and writes the output.

ghost use Rattle.std.specs.Prelude.{◌≡◌, ◌≤◌, IfOk, OnOk, None};
ghost use Rattle.std.specs.Io.KnownBytes.{Appends};
ghost use Rattle.sts_asm.specs.Text.{judged};
ghost use Rattle.sts_trace.specs.Spelling.{trace_text};
ghost use Rattle.sts_output.specs.Joined.{halves_of};
ghost use Rattle.sts_output.specs.Kept.{KeepsFault};
ghost use Rattle.sts_output.specs.Output as def;
ghost use Rattle.sts_output.specs.Stops.{Keeps, Prints};
ghost use Rattle.sts_output.specs.declared.assembled.Assembled.TheVariants.{Nothing};
ghost use Rattle.sts_cli.specs.Aside.{LeavesFault};
ghost use Rattle.sts_cli.specs.Running.{IsOutcomeOf, Outcome, RunWrites, trace_and_output};

use crate::modes::run::{Manner, Ran};
use crate::modes::{replay, run};
use crate::remarks::Came;
use std::alloc::Global;
use std::io;
use std::io::Write;
use std::sync::Wait;
use std::thread::Threads;
use sts_model::Event;
use sts_output::{
    Assembled, Mode, Output, Status, Stopped, TakeError, failed, list, plain, split, verify,
    write_shown, written,
};
use sts_trace::write_trace;

fn output(
    alloc: Global,
    mode: Mode,
    text: &[u8],
    trace: &[u8],
    assembled: &mut Assembled,
) -> Result<Output, Stopped>
    ensures output { Prints result (def.Shows mode text.now trace.now) }
    ensures fault { Keeps result (judged text.now) assembled.old assembled.new }
{
    match mode {
        Mode::Plain => plain::after_trace(alloc, text, trace, assembled),
        Mode::Replay => replay::replayed(alloc, text, trace, assembled),
        Mode::List => list::listed(alloc, text, assembled),
        Mode::Verify => verify::verified(alloc, text, assembled),
    }
}

/// Does what `play` does. `assembled` gets the fault of the text, or the program that ran the trace.
///
/// # Errors
///
/// A write failed.
pub(crate) fn play_and_keep<W: Write>(
    alloc: Global,
    mode: Mode,
    text: &[u8],
    trace: &[u8],
    out: &mut W,
    assembled: &mut Assembled,
) -> Status
    ensures output { IfOk result (λ s. (o : def.Output) × def.IsOutputOf mode text.now trace.now o
        × def.Writes (W.contents out.old) (W.contents out.new) s o) }
    ensures fault { IfOk result (λ s. s ≡ 3
        → KeepsFault (judged text.now) assembled.old assembled.new) }
{
    write_shown(output(alloc, mode, text, trace, assembled), out)
}

/// Does what the mode asks for with a text and a trace, writes the output, and gives the status.
///
/// It takes all its memory before the first byte is written.
///
/// # Errors
///
/// A write failed.
pub fn play<W: Write>(alloc: Global, mode: Mode, text: &[u8], trace: &[u8], out: &mut W) -> Status
    ensures { IfOk result (λ s. (o : def.Output) × def.IsOutputOf mode text.now trace.now o
        × def.Writes (W.contents out.old) (W.contents out.new) s o) }
{
    play_and_keep(alloc, mode, text, trace, out, &mut Assembled::Nothing)
}

/// Does what `play` does in mode `Plain`. The text goes up to the first line that is exactly `%`,
/// and the trace comes after it.
///
/// # Errors
///
/// A write failed.
pub fn play_joined<W: Write>(alloc: Global, input: &[u8], out: &mut W) -> Status
    ensures { IfOk result (λ s. (o : def.Output)
        × def.IsOutputOf Mode.Plain (halves_of input.now).text (halves_of input.now).trace o
        × def.Writes (W.contents out.old) (W.contents out.new) s o) }
{
    let (text, trace) = split(input);
    play(alloc, Mode::Plain, text, trace, out)
}

/// Writes all of a journal to a trace.
fn traced<T: Write>(journal: &[Event], trace: &mut T) -> io::Result<()>
    ensures { OnOk result (Appends (T.contents trace.old) (T.contents trace.new)
        (trace_text journal.now)) }
{
    write_trace(journal, trace)?;
    trace.flush()
}

/// What a run leaves for standard error: what was found in the text, why the trace was not written,
/// and the outside events that came.
#[derive(Drop)]
pub(crate) struct Aside {
    pub(crate) assembled: Assembled,
    pub(crate) unwritten: Option<io::Error>,
    pub(crate) came: Option<Came>,
}

impl Aside {
    pub(crate) fn new() -> Aside
        ensures { (result.assembled ≡ Nothing) × (result.unwritten ≡ None) }
    {
        Aside {
            assembled: Assembled::Nothing,
            unwritten: None,
            came: None,
        }
    }
}

/// Writes the output of a run, and leaves in `aside` which outside events came.
fn print_ran<W: Write>(ran: &mut Ran, out: &mut W, aside: &mut Aside) -> Status
    ensures output { IfOk result (λ s.
        def.Writes (W.contents out.old) (W.contents out.new) s ran.old.output) }
    ensures kept { aside.new.assembled ≡ aside.old.assembled }
    ensures written { aside.new.unwritten ≡ aside.old.unwritten }
{
    aside.came = ran.came.take();
    written(out, ran.output.bytes.as_slice(), ran.output.status)
}

/// Writes the journal of a run to its trace, and then the output. If the trace can't be written,
/// only `error file` is printed, and `aside` gets the reason.
fn write_ran<T: Write, W: Write>(
    ran: &mut Ran,
    trace: &mut T,
    out: &mut W,
    aside: &mut Aside,
) -> Status
    ensures output { IfOk result (λ s. RunWrites
        (trace_and_output (T.contents trace.old) (T.contents trace.new)
        (W.contents out.old) (W.contents out.new)) s ran.old) }
    ensures kept { aside.new.assembled ≡ aside.old.assembled }
    ensures written { IfOk result (λ s. s ≡ 3 → aside.new.unwritten ≡ aside.old.unwritten) }
{
    match traced(ran.journal.as_slice(), trace) {
        Ok(()) => print_ran(ran, out, aside),
        Err(error) => {
            aside.unwritten = Some(error);
            failed(TakeError::Read, out)
        }
    }
}

/// A text that is run with an outside text, and the number of workers.
#[derive(Clone, Copy)]
pub(crate) struct Job<'a> {
    pub(crate) text: &'a [u8],
    pub(crate) outside: &'a [u8],
    pub(crate) workers: u32,
}

/// Does what `play_run` does if no trace is asked for. No journal is kept.
///
/// # Errors
///
/// A write failed.
pub(crate) fn play_untraced<R: Threads + Wait + Sync, W: Write>(
    rt: &R,
    alloc: Global,
    job: Job<'_>,
    out: &mut W,
    aside: &mut Aside,
) -> Status
    requires { (1 ≤ job.workers) × (job.workers ≤ 16) }
    ensures output { IfOk result (λ s. (o : Outcome)
        × IsOutcomeOf job.entry.text.now job.entry.outside.now o
        × def.Writes (W.contents out.old) (W.contents out.new) s o.output) }
    ensures fault { IfOk result (λ s.
        LeavesFault s (judged job.entry.text.now) aside.old aside.new) }
{
    let manner = Manner {
        workers: job.workers,
        kept: false,
    };
    let assembled = &mut aside.assembled;
    match run::outcome(rt, alloc, job.text, manner, job.outside, assembled) {
        Ok(mut ran) => print_ran(&mut ran, out, aside),
        Err(_) => failed(TakeError::Memory, out),
    }
}

/// Does what `play_run` does, and leaves in `aside` what a person may want to know.
pub(crate) fn play_traced<R: Threads + Wait + Sync, T: Write, W: Write>(
    rt: &R,
    alloc: Global,
    job: Job<'_>,
    trace: &mut T,
    out: &mut W,
    aside: &mut Aside,
) -> Status
    requires { (1 ≤ job.workers) × (job.workers ≤ 16) }
    ensures output { IfOk result (λ s. (o : Outcome)
        × IsOutcomeOf job.entry.text.now job.entry.outside.now o
        × RunWrites (trace_and_output (T.contents trace.old) (T.contents trace.new)
        (W.contents out.old) (W.contents out.new)) s o) }
    ensures fault { IfOk result (λ s.
        LeavesFault s (judged job.entry.text.now) aside.old aside.new) }
{
    let manner = Manner {
        workers: job.workers,
        kept: true,
    };
    let assembled = &mut aside.assembled;
    match run::outcome(rt, alloc, job.text, manner, job.outside, assembled) {
        Ok(mut ran) => write_ran(&mut ran, trace, out, aside),
        Err(_) => failed(TakeError::Memory, out),
    }
}

/// Runs a program with 1 to 16 workers and the events of an outside text. First the trace gets the
/// journal, or nothing if there is no report. Then the whole output is written to `out`. Gives the
/// status.
///
/// If writing the trace fails, only `error file` is written to `out`.
///
/// # Errors
///
/// A write to `out` failed.
pub fn play_run<R: Threads + Wait + Sync, T: Write, W: Write>(
    rt: &R,
    alloc: Global,
    text: &[u8],
    workers: u32,
    outside: &[u8],
    trace: &mut T,
    out: &mut W,
) -> Status
    requires { (1 ≤ workers) × (workers ≤ 16) }
    ensures { IfOk result (λ s. (o : Outcome) × IsOutcomeOf text.now outside.now o
        × RunWrites (trace_and_output (T.contents trace.old) (T.contents trace.new)
        (W.contents out.old) (W.contents out.new)) s o) }
{
    let job = Job {
        text,
        outside,
        workers,
    };
    play_traced(rt, alloc, job, trace, out, &mut Aside::new())
}
