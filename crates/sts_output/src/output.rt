//! The output of the program, and its status.

ghost use Rattle.std.specs.Prelude.{◌≡◌, ◌≢◌, IfOk, Result, Err};
ghost use Rattle.std.specs.String.{string_bytes};
ghost use Rattle.sts_code.specs.Program.{Program as AnyProgram};
ghost use Rattle.sts_asm.specs.Fault.{FailsAt};
ghost use Rattle.sts_asm.specs.declared.fault.AsmError.{AsmError};
ghost use Rattle.sts_trace.specs.declared.error.TraceError.TheVariants.{Memory};
ghost use Rattle.sts_output.specs.Output as def;

use crate::printed;
use std::alloc::{AllocError, Global};
use std::marker::Model;
use sts_asm::{AsmError, AsmKind};
use sts_code::Program;
use sts_model::End;
use sts_plain::PlainState;
use sts_trace::TraceError;

/// The output, and the status.
#[derive(Drop)]
pub struct Output {
    pub bytes: Vec<u8>,
    pub status: u8,
}

impl Model for Output {
    ghost use Rattle.sts_output.specs.Output as def;

    ghost Value = { def.Output };

    ghost view = { λ o. record { bytes = o.bytes.items; status = o.status } };
}

impl Output {
    /// The output of this text.
    pub fn of(text: String, status: u8) -> Output
        ensures { result ≡ record { bytes = string_bytes text; status = status } }
    {
        Output {
            bytes: text.into_bytes(),
            status,
        }
    }
}

/// The output for a fault of a text. Running out of memory is no fault of it.
///
/// # Errors
///
/// Memory ran out.
pub fn text_fault(alloc: Global, error: AsmError) -> Result<Output, AllocError>
    ensures { (read : Result AnyProgram AsmError) → FailsAt error error.kind read
        → IfOk result (λ o. (read ≡ Err error) × (o ≡ def.text_fault_output error)) }
{
    if matches!(error.kind, AsmKind::Memory) {
        return Err(AllocError);
    }
    let mut text = String::new(alloc);
    printed::text_fault_line(&mut text, error)?;
    Ok(Output::of(text, 3))
}

/// The output for a fault of a trace. Running out of memory is no fault of it.
///
/// # Errors
///
/// Memory ran out.
pub fn trace_fault(alloc: Global, error: TraceError) -> Result<Output, AllocError>
    ensures { IfOk result (λ o. (error ≢ Memory) × (o ≡ def.trace_fault_output error)) }
{
    if matches!(error, TraceError::Memory) {
        return Err(AllocError);
    }
    let mut text = String::new(alloc);
    printed::trace_fault_line(&mut text, error)?;
    Ok(Output::of(text, 3))
}

/// The status for an end of the root.
pub fn end_status(end: End) -> u8
    ensures { result ≡ def.end_status end }
{
    match end {
        End::Success(_) => 0,
        End::Failed(_) => 1,
    }
}

/// The status for a state of a machine.
pub fn state_status(state: PlainState) -> u8
    ensures { result ≡ def.state_status state }
{
    match state {
        PlainState::Ended(end) => end_status(end),
        PlainState::Running | PlainState::Fault { .. } => 5,
    }
}

/// The output for a state of a machine and the steps that it took.
pub fn state_output(
    alloc: Global,
    program: &Program,
    state: PlainState,
    steps: u64,
) -> Result<Output, AllocError>
    ensures { IfOk result (λ o. o ≡ def.state_output program.now state steps) }
{
    let mut text = String::new(alloc);
    printed::state_line(&mut text, program, state)?;
    printed::steps_line(&mut text, steps)?;
    Ok(Output::of(text, state_status(state)))
}
