//! Faults of texts and traces, as JSON.

ghost use Rattle.std.specs.Prelude.{◌≡◌, ◌≢◌, ◌++◌, IfOk, Result, Err};
ghost use Rattle.std.specs.Fmt.{decimal};
ghost use Rattle.std.specs.String.{string_bytes};
ghost use Rattle.serde_json.specs.View.{view};
ghost use Rattle.sts_code.specs.Program.{Program as AnyProgram};
ghost use Rattle.sts_asm.specs.Fault.{FailsAt, code_error};
ghost use Rattle.sts_asm.specs.declared.fault.AsmError.{AsmError};
ghost use Rattle.sts_trace.specs.declared.error.TraceError.TheVariants.{Memory};
ghost use Rattle.look_cases.specs.Answer as def;

use crate::objects::{Made, Scalar, object_of, with_text};
use std::alloc::{AllocError, Global};
use sts_asm::{AsmError, AsmKind};
use sts_code::CodeError;
use sts_trace::TraceError;

/// Returns a letter and a number, as `V13`.
///
/// # Errors
///
/// Memory was refused.
pub(crate) fn code(alloc: Global, letter: &str, number: u8) -> Result<String, AllocError>
    ensures { IfOk result (λ s. string_bytes s ≡ letter.now ++ decimal number) }
{
    format!(in alloc; "{letter}{number}")
}

fn line_fault(alloc: Global, number: u8, line: u32) -> Made
    ensures { IfOk result (λ v. view v ≡ def.line_fault number line) }
{
    let fault = object_of(alloc, &[("line", Scalar::Count(line as u64))]);
    with_text(alloc, fault, "fault", code(alloc, "A", number))
}

fn check_fault(alloc: Global, error: CodeError) -> Made
    ensures { IfOk result (λ v. view v ≡ def.check_fault error) }
{
    let fault = object_of(
        alloc,
        &[
            ("fault", Scalar::Text("A9")),
            ("function", Scalar::Count(error.function as u64)),
            ("place", Scalar::Count(error.pc as u64)),
        ],
    );
    with_text(
        alloc,
        fault,
        "check",
        code(alloc, "C", error.cause.number()),
    )
}

/// Returns a fault of a text; lack of memory is no fault of it.
///
/// # Errors
///
/// Memory was refused.
pub fn text_fault(alloc: Global, error: AsmError) -> Made
    ensures { (read : Result AnyProgram AsmError) → FailsAt error error.kind read
        → IfOk result (λ v. (read ≡ Err error)
        × (view v ≡ def.text_fault error (code_error error.kind))) }
{
    if matches!(error.kind, AsmKind::Memory) {
        return Err(AllocError);
    }
    match error.kind.code_error() {
        Some(failed) => check_fault(alloc, failed),
        None => line_fault(alloc, error.kind.number(), error.line),
    }
}

fn bad_line(alloc: Global, fault: &str, line: Option<u64>) -> Made
    ensures { IfOk result (λ v. view v ≡ def.bad_line fault.now line) }
{
    object_of(
        alloc,
        &[
            ("fault", Scalar::Text(fault)),
            ("line", Scalar::MaybeCount(line)),
        ],
    )
}

/// Returns a fault of a trace; lack of memory is no fault of it.
///
/// # Errors
///
/// Memory was refused.
pub fn trace_fault(alloc: Global, error: TraceError) -> Made
    ensures { IfOk result (λ v. (error ≢ Memory) × (view v ≡ def.trace_fault error)) }
{
    match error {
        TraceError::BadLine(n) => bad_line(alloc, "T1", Some(n)),
        TraceError::BadNumber(n) => bad_line(alloc, "T2", Some(n)),
        TraceError::NoNewline => bad_line(alloc, "T3", None),
        TraceError::Memory => Err(AllocError),
    }
}
