//! Mode `run`: workers bring an accepted program to its end.

ghost use Rattle.std.specs.Prelude.{◌≡◌, ◌≤◌, ◌++◌, IfOk, OnOk, length};
ghost use Rattle.std.specs.String.{string_bytes};
ghost use Rattle.sts_asm.specs.Text.{judged};
ghost use Rattle.sts_trace.specs.Reading.{outside_read};
ghost use Rattle.sts_output.specs.Kept.{KeepsFault};
ghost use Rattle.sts_output.specs.Printed.{end_line, steps_line};
ghost use Rattle.sts_cli.specs.Running as def;

use crate::dues::Dues;
use crate::remarks::Came;
use std::alloc::{AllocError, Global};
use std::marker::Model;
use std::sync::Wait;
use std::thread::Threads;
use sts_asm::assemble;
use sts_code::{MAX_OUTSIDE, Program};
use sts_model::{End, Event};
use sts_output::{Assembled, Output, accepted, output, printed, verify};
use sts_pool::{Gate, PoolError, Report, run_with_journal};
use sts_trace::read_outside;
use sts_verify::Verified;

/// How a program is run: with 1 to 16 workers, and with its journal kept or not.
#[derive(Clone, Copy)]
pub(crate) struct Manner {
    pub(crate) workers: u32,
    pub(crate) kept: bool,
    ghost fits: { (1 ≤ workers) × (workers ≤ 16) },
}

/// The outcome of a run: its output, the journal, and which outside events came. The journal is
/// empty if there is no report or it isn't kept.
#[derive(Drop)]
pub(crate) struct Ran {
    pub(crate) output: Output,
    pub(crate) journal: Vec<Event>,
    pub(crate) came: Option<Came>,
}

impl Model for Ran {
    ghost use Rattle.sts_cli.specs.Running.{Outcome};

    ghost Value = { Outcome };

    ghost view = { λ r. record { output = r.output; journal = r.journal.items } };
}

/// Lets each worker pass at once.
#[derive(Drop)]
struct Open;

impl Gate for Open {
    fn enter(&self, _worker: u32, _task: u32) {}
}

/// An output with no journal.
fn alone(alloc: Global, output: Output) -> Ran
    ensures { result ≡ def.alone output }
{
    Ran {
        output,
        journal: Vec::new(alloc),
        came: None,
    }
}

/// Appends how the root ended, and the steps.
fn say_end(out: &mut String, end: End, steps: u64) -> Result<(), AllocError>
    ensures { OnOk result (string_bytes out.new
        ≡ string_bytes out.old ++ (end_line end ++ steps_line steps)) }
{
    printed::end_line(out, end)?;
    printed::steps_line(out, steps)
}

/// The outcome of a report: the lines of the budgets, then how the root ended and the steps.
fn reported(budgets: String, report: Report) -> Result<Ran, AllocError>
    ensures { IfOk result (λ r. r ≡ record {
      output = def.report_output (string_bytes budgets) report.end report.steps;
      journal = report.journal.items;
    }) }
{
    let mut text = budgets;
    say_end(&mut text, report.end, report.steps)?;
    Ok(Ran {
        output: Output::of(text, output::end_status(report.end)),
        journal: report.journal,
        came: Some(Came::new(report.counted, report.steps)),
    })
}

/// The outcome of a run without a report.
fn unreported(alloc: Global, error: PoolError) -> Result<Ran, AllocError>
    ensures { IfOk result (λ r. r ≡ def.alone (def.pool_output error)) }
{
    let line = match error {
        PoolError::Memory => return Err(AllocError),
        PoolError::SpawnRefused => "error threads\n",
        PoolError::Unfinished => "error unfinished\n",
    };
    let text = line.to_string(alloc)?;
    Ok(alone(alloc, Output::of(text, 6)))
}

/// Runs an accepted program.
fn run_accepted<R: Threads + Wait + Sync>(
    rt: &R,
    alloc: Global,
    verified: &Verified,
    manner: Manner,
    dues: Dues,
) -> Result<Ran, AllocError>
    requires few { length dues ≤ MAX_OUTSIDE }
    ensures { IfOk result (def.Holds manner.kept (def.IsRun verified.now dues)) }
{
    let budgets = verify::lines(alloc, verified)?;
    match run_with_journal(
        rt,
        alloc,
        verified,
        manner.workers,
        &Open,
        dues,
        manner.kept,
    ) {
        Ok(report) => reported(budgets, report),
        Err(error) => unreported(alloc, error),
    }
}

/// Verifies a program, and runs it.
fn verdict<R: Threads + Wait + Sync>(
    rt: &R,
    alloc: Global,
    program: Program,
    manner: Manner,
    dues: Dues,
) -> Result<Ran, AllocError>
    requires few { length dues ≤ MAX_OUTSIDE }
    ensures { IfOk result (def.Holds manner.kept (def.IsRun program dues)) }
{
    match accepted(alloc, program)? {
        Ok(verified) => run_accepted(rt, alloc, &verified, manner, dues),
        Err(refusal) => Ok(alone(alloc, refusal)),
    }
}

#[tactic(auto, using(crate::proofs::Outsides::all_outside))]
fn with_outside<R: Threads + Wait + Sync>(
    rt: &R,
    alloc: Global,
    program: Program,
    manner: Manner,
    outside: &[u8],
) -> Result<Ran, AllocError>
    ensures { IfOk result (def.Holds manner.kept
        (def.OutsideRuns program (outside_read outside.now))) }
{
    match read_outside(alloc, outside) {
        Ok(dues) => verdict(rt, alloc, program, manner, Dues::new(dues)),
        Err(error) => Ok(alone(alloc, output::trace_fault(alloc, error)?)),
    }
}

/// Assembles the text, reads the outside text, verifies the program and runs it. `assembled` gets
/// the fault of the text.
///
/// # Errors
///
/// Memory ran out.
pub(crate) fn outcome<R: Threads + Wait + Sync>(
    rt: &R,
    alloc: Global,
    text: &[u8],
    manner: Manner,
    outside: &[u8],
    assembled: &mut Assembled,
) -> Result<Ran, AllocError>
    ensures ran { IfOk result
        (def.Holds manner.kept (def.TextRuns (judged text.now) outside.now)) }
    ensures fault { IfOk result (λ _. KeepsFault (judged text.now) assembled.old assembled.new) }
{
    match assemble(alloc, text) {
        Ok(program) => with_outside(rt, alloc, program, manner, outside),
        Err(error) => {
            let output = output::text_fault(alloc, error)?;
            *assembled = Assembled::Fault(error);
            Ok(alone(alloc, output))
        }
    }
}
