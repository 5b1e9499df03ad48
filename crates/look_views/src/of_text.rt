//! The views of a text's run as lines of JSON, or the line of a fault.

ghost use Rattle.std.specs.Prelude.{◌≡◌, ◌≢◌, IfOk, Result, Err, codes, false};
ghost use Rattle.serde_json.specs.Data.{member, no_members, object, put};
ghost use Rattle.serde_json.specs.View.{view};
ghost use Rattle.serde_json.specs.Written.{has_float};
ghost use Rattle.sts_code.specs.Program.{Program as AnyProgram};
ghost use Rattle.sts_asm.specs.Fault.{FailsAt};
ghost use Rattle.sts_asm.specs.Text.{judged};
ghost use Rattle.sts_asm.specs.declared.fault.AsmError.{AsmError};
ghost use Rattle.sts_trace.specs.declared.error.TraceError.TheVariants.{Memory};
ghost use Rattle.sts_output.specs.Output.{Output as AnyOutput, Writes};
ghost use Rattle.sts_output.specs.Kept.{KeepsFault};
ghost use Rattle.sts_output.specs.Stops.{Keeps, Prints};
ghost use Rattle.look_lines.specs.Form.{text_output};
ghost use Rattle.look_views.specs.Views as def;

use crate::views::{JsonViews, VERSION, push_line};
use look_cases::{Made, Scalar, object_of, text_fault, trace_fault, with_member};
use look_lines::{Form, Run, shown, view_output};
use look_names::Names;
use look_options::ViewOptions;
use serde_json::Value;
use std::alloc::{AllocError, Global};
use std::io::Write;
use sts_asm::{AsmError, Source, read};
use sts_output::{Assembled, Output, Status, Stopped, write_shown};
use sts_trace::TraceError;

/// The status for a fault of a text or a trace.
const FAULTY: u8 = 3;

/// Returns the line of a fault of a text or a trace.
fn faulty(alloc: Global, value: &Value) -> Result<Output, AllocError>
    ensures { has_float (view value.now) ≡ false
        → IfOk result (λ o. o ≡ def.faulty (view value.now)) }
{
    let mut text = String::new(alloc);
    push_line(alloc, &mut text, value)?;
    Ok(Output::of(text, FAULTY))
}

/// Returns a fault with the version of the lines.
fn versioned(alloc: Global, key: &str, fault: Value) -> Made
    ensures { IfOk result (λ v. view v
        ≡ object (put key.now (view fault) (member (codes "version") def.version no_members))) }
{
    let line = object_of(alloc, &[("version", Scalar::Count(VERSION))]);
    with_member(alloc, line, key, Ok(fault))
}

fn text_line(alloc: Global, error: AsmError) -> Made
    ensures { (read : Result AnyProgram AsmError) → FailsAt error error.kind read
        → IfOk result (λ v. (read ≡ Err error) × (view v ≡ def.text_line error)) }
{
    let fault = text_fault(alloc, error)?;
    versioned(alloc, "text_fault", fault)
}

fn trace_line(alloc: Global, error: TraceError) -> Made
    ensures { IfOk result (λ v. (error ≢ Memory) × (view v ≡ def.trace_line error)) }
{
    let fault = trace_fault(alloc, error)?;
    versioned(alloc, "trace_fault", fault)
}

/// Returns the line of a fault of a text. Running out of memory is no fault of it.
///
/// # Errors
///
/// Memory was refused.
pub fn faulty_text(alloc: Global, error: AsmError) -> Result<Output, AllocError>
    ensures { (read : Result AnyProgram AsmError) → FailsAt error error.kind read
        → IfOk result (λ o. (read ≡ Err error) × (o ≡ def.faulty (def.text_line error))) }
{
    let value = text_line(alloc, error)?;
    faulty(alloc, &value)
}

/// Returns the line of a fault of a trace. Running out of memory is no fault of it.
///
/// # Errors
///
/// Memory was refused.
pub fn faulty_trace(alloc: Global, error: TraceError) -> Result<Output, AllocError>
    ensures { IfOk result (λ o. (error ≢ Memory) × (o ≡ def.faulty (def.trace_line error))) }
{
    let value = trace_line(alloc, error)?;
    faulty(alloc, &value)
}

/// The views of a run of a text of these names.
#[derive(Clone, Copy)]
struct ViewsOfText<'n, 't> {
    wanted: ViewOptions,
    names: &'n Names<'t>,
}

impl<'n, 't> Form for ViewsOfText<'n, 't> {
    ghost shows = { λ v. def.json_form v.names.now v.wanted };

    fn of_run(&self, alloc: Global, run: Run<'_>) -> Result<Output, AllocError> {
        let views = JsonViews {
            alloc,
            wanted: self.wanted,
            names: self.names,
        };
        view_output(alloc, &views, self.wanted.each, run)
    }

    fn of_text_fault(&self, alloc: Global, error: AsmError) -> Result<Output, AllocError> {
        faulty_text(alloc, error)
    }

    fn of_trace_fault(&self, alloc: Global, error: TraceError) -> Result<Output, AllocError> {
        faulty_trace(alloc, error)
    }
}

fn views(
    alloc: Global,
    wanted: ViewOptions,
    text: &[u8],
    trace: &[u8],
    assembled: &mut Assembled,
) -> Result<Output, Stopped>
    ensures output { Prints result (λ o. o
        ≡ text_output (def.json_form text.now wanted) (judged text.now) trace.now) }
    ensures fault { Keeps result (judged text.now) assembled.old assembled.new }
{
    let Source { outline, program } = read(alloc, text)?;
    match program {
        Ok(program) => {
            let names = Names::new(alloc, text, outline)?;
            let form = ViewsOfText {
                wanted,
                names: &names,
            };
            Ok(shown(alloc, &form, program, trace, assembled)?)
        }
        Err(error) => {
            let shown = faulty_text(alloc, error)?;
            *assembled = Assembled::Fault(error);
            Ok(shown)
        }
    }
}

/// Writes the views of a text's run of a trace as lines of JSON, with the names of the text, and
/// returns the status. `assembled` gets the program, or the fault of the text.
///
/// It takes all its memory before the first byte is written.
///
/// # Errors
///
/// A write failed.
pub fn write_views<W: Write>(
    alloc: Global,
    wanted: ViewOptions,
    text: &[u8],
    trace: &[u8],
    out: &mut W,
    assembled: &mut Assembled,
) -> Status
    ensures output { IfOk result (λ s. (o : AnyOutput) × def.AreViewsOf wanted text.now trace.now o
        × Writes (W.contents out.old) (W.contents out.new) s o) }
    ensures fault { IfOk result (λ s. s ≡ 3
        → KeepsFault (judged text.now) assembled.old assembled.new) }
{
    write_shown(views(alloc, wanted, text, trace, assembled), out)
}
