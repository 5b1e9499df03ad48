//! The forms in which runs are shown.

ghost use Rattle.std.specs.Prelude.{◌≡◌, ◌≢◌, IfOk, Result, Err};
ghost use Rattle.sts_code.specs.Program.{Program as AnyProgram};
ghost use Rattle.sts_asm.specs.Fault.{FailsAt};
ghost use Rattle.sts_asm.specs.declared.fault.AsmError.{AsmError};
ghost use Rattle.sts_trace.specs.declared.error.TraceError.TheVariants.{Memory};

use std::alloc::{AllocError, Global};
use sts_asm::AsmError;
use sts_code::Program;
use sts_model::Event;
use sts_output::Output;
use sts_trace::TraceError;

/// A program, and the events that it is run on.
#[derive(Clone, Copy)]
pub struct Run<'r> {
    pub program: &'r Program,
    pub events: &'r [Event],
}

/// A form in which a run is shown, or the fault of its text or of its trace.
pub trait Form {
    ghost use Rattle.look_lines.specs.Form.{Form as AnyForm};

    /// What is shown in this form.
    ghost shows: { Self → AnyForm };

    fn of_run(&self, alloc: Global, run: Run<'_>) -> Result<Output, AllocError>
        ensures { IfOk result (λ o. o
            ≡ (shows self.now).of_run run.entry.program.now run.entry.events.now) };

    /// Running out of memory is no fault of a text.
    fn of_text_fault(&self, alloc: Global, error: AsmError) -> Result<Output, AllocError>
        ensures { (read : Result AnyProgram AsmError) → FailsAt error error.kind read
            → IfOk result (λ o. (read ≡ Err error)
            × (o ≡ (shows self.now).of_text_fault error)) };

    /// Running out of memory is no fault of a trace.
    fn of_trace_fault(&self, alloc: Global, error: TraceError) -> Result<Output, AllocError>
        ensures { IfOk result (λ o. (error ≢ Memory)
            × (o ≡ (shows self.now).of_trace_fault error)) };
}
