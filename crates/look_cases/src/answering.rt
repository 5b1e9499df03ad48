//! The answer to a case.

ghost use Rattle.std.specs.Prelude.{◌≡◌, ℕ, [], IfErr, IfOk, Result, Ok, Err, option_map};
ghost use Rattle.serde_json.specs.Data.{Data};
ghost use Rattle.serde_json.specs.View.{view};
ghost use Rattle.sts_code.specs.Program.{Program as AnyProgram};
ghost use Rattle.sts_model.specs.Run.{after as after_events, taken};
ghost use Rattle.sts_plain.specs.Seen.{shown};
ghost use Rattle.sts_rules.specs.Refusal.{IsRefusal};
ghost use Rattle.sts_asm.specs.Fault.{FailsAt};
ghost use Rattle.sts_asm.specs.declared.fault.AsmError.{AsmError};
ghost use Rattle.sts_output.specs.Stops.{IsReported, program_in};
ghost use Rattle.sts_trace.specs.Reading.{trace_read};
ghost use Rattle.look_cases.specs.Answer as def;
ghost use Rattle.look_cases.specs.Case.{seen};
ghost use Rattle.look_cases.specs.Objects.{Makes};

use crate::faults::{text_fault, trace_fault};
use crate::objects::{Made, Scalar, object_of, with_member};
use crate::reading::Case;
use crate::runs::run;
use crate::verdicts::{accepted, refused};
use look_lines::after;
use serde_json::Value;
use std::alloc::Global;
use sts_asm::{AsmError, assemble};
use sts_code::Program;
use sts_model::Event;
use sts_output::{Refusal, judge};
use sts_trace::read_trace;
use sts_verify::Verified;

/// The version of the answers.
const VERSION: u64 = 1;

/// Returns the state after these events.
fn ran(alloc: Global, program: &Program, text: &[u8], events: &[Event]) -> Made
    ensures { IfOk result (λ v. view v ≡ def.run program.now text.now
        (shown (after_events program.now events.now)) (taken program.now events.now)) }
{
    let watch = after(alloc, program, events)?;
    run(alloc, program, text, watch.state(), watch.steps())
}

/// Returns an answer that has only the number of its case and the version.
fn numbered(alloc: Global, number: u64) -> Made
    ensures { IfOk result (λ v. view v ≡ def.answer_of number []) }
{
    object_of(
        alloc,
        &[
            ("case", Scalar::Count(number)),
            ("version", Scalar::Count(VERSION)),
        ],
    )
}

/// Adds to an answer the run of a trace, or the fault of the trace.
fn traced(alloc: Global, program: &Program, text: &[u8], trace: &[u8], answer: Made) -> Made
    ensures { (n : ℕ) → (d : Data) → Makes (def.judged_only n d) answer
        → Makes (def.read_answer n program.now text.now (trace_read trace.now) d) result }
{
    match read_trace(alloc, trace) {
        Ok(events) => {
            let state = ran(alloc, program, text, events.as_slice());
            with_member(alloc, answer, "run", state)
        }
        Err(error) => {
            let fault = trace_fault(alloc, error)?;
            with_member(alloc, answer, "trace_fault", Ok(fault))
        }
    }
}

/// A case, and its number.
#[derive(Clone, Copy)]
struct Asked<'a> {
    number: u64,
    case: Case<'a>,
}

impl Asked<'_> {
    /// Returns the answer of a program with this verdict.
    fn of_program(self, alloc: Global, program: &Program, verdict: Value) -> Made
        ensures { IfOk result (λ v. view v ≡ def.program_answer self.entry.number program.now
            (seen self.entry.case) (view verdict)) }
    {
        let answer = with_member(alloc, numbered(alloc, self.number), "verdict", Ok(verdict));
        match self.case.trace {
            Some(trace) => traced(alloc, program, self.case.text, trace, answer),
            None => answer,
        }
    }

    fn of_accepted(self, alloc: Global, verified: &Verified) -> Made
        ensures { IfOk result (λ v. def.Answers self.entry.number (seen self.entry.case)
            (Ok verified.now) (view v)) }
    {
        let verdict = accepted(alloc, verified)?;
        self.of_program(alloc, verified.program(), verdict)
    }

    fn of_refused(self, alloc: Global, refusal: &Refusal) -> Made
        requires { IsRefusal refusal.now.program refusal.now.function refusal.now.pc
            refusal.now.cause }
        ensures { IfOk result (λ v. def.Answers self.entry.number (seen self.entry.case)
            (Ok refusal.now.program) (view v)) }
    {
        let verdict = refused(alloc, refusal, self.case.text)?;
        self.of_program(alloc, &refusal.program, verdict)
    }

    /// Returns the answer of a program that was judged.
    fn of_judged(self, alloc: Global, judged: &Result<Verified, Refusal>) -> Made
        requires { IfErr judged.now IsReported }
        ensures { IfOk result (λ v. def.Answers self.entry.number (seen self.entry.case)
            (Ok (program_in judged.now)) (view v)) }
    {
        match judged {
            Ok(verified) => self.of_accepted(alloc, verified),
            Err(refusal) => self.of_refused(alloc, refusal),
        }
    }

    /// Returns the answer of a text that spells a program.
    fn judged_program(self, alloc: Global, program: Program) -> Made
        ensures { IfOk result (λ v. def.Answers self.entry.number (seen self.entry.case)
            (Ok program) (view v)) }
    {
        self.of_judged(alloc, &judge(alloc, program)?)
    }

    /// Returns the answer of a text with a fault.
    fn faulty_text(self, alloc: Global, error: AsmError) -> Made
        ensures { (read : Result AnyProgram AsmError) → FailsAt error error.kind read
            → IfOk result (λ v. def.Answers self.entry.number (seen self.entry.case)
            read (view v)) }
    {
        let fault = text_fault(alloc, error)?;
        with_member(alloc, numbered(alloc, self.number), "text_fault", Ok(fault))
    }
}

fn no_case(alloc: Global, number: u64) -> Made
    ensures { IfOk result (λ v. view v ≡ def.no_case number) }
{
    object_of(
        alloc,
        &[
            ("case", Scalar::Count(number)),
            ("error", Scalar::Text("no case")),
            ("version", Scalar::Count(VERSION)),
        ],
    )
}

/// Returns the answer to a case whose program was judged.
///
/// # Errors
///
/// Memory was refused.
pub fn answer_judged(
    alloc: Global,
    number: u64,
    case: Case<'_>,
    judged: &Result<Verified, Refusal>,
) -> Made
    requires { IfErr judged.now IsReported }
    ensures { IfOk result (λ v. def.Answers number (seen case.entry) (Ok (program_in judged.now))
        (view v)) }
{
    Asked { number, case }.of_judged(alloc, judged)
}

/// Returns the answer to a case whose text has this fault. Running out of memory is no fault of it.
///
/// # Errors
///
/// Memory was refused.
pub fn answer_faulty(alloc: Global, number: u64, case: Case<'_>, error: AsmError) -> Made
    ensures { (read : Result AnyProgram AsmError) → FailsAt error error.kind read
        → IfOk result (λ v. def.Answers number (seen case.entry) read (view v)) }
{
    Asked { number, case }.faulty_text(alloc, error)
}

/// Returns the answer to the case of this number, or to a line that says no case.
///
/// # Errors
///
/// Memory was refused.
pub fn answer(alloc: Global, number: u64, case: Option<Case<'_>>) -> Made
    ensures { IfOk result (λ v. def.IsAnswer number (option_map seen case.entry) (view v)) }
{
    let Some(case) = case else {
        return no_case(alloc, number);
    };
    let asked = Asked { number, case };
    match assemble(alloc, case.text) {
        Ok(program) => asked.judged_program(alloc, program),
        Err(error) => asked.faulty_text(alloc, error),
    }
}
