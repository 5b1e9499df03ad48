//! The lines of every task and scope, after the last event or after each, with the lines and the
//! names of the text.

ghost use Rattle.std.specs.Prelude.{◌≡◌, IfOk};
ghost use Rattle.sts_asm.specs.Text.{judged};
ghost use Rattle.sts_output.specs.Output.{Output as AnyOutput, Writes};
ghost use Rattle.sts_output.specs.Kept.{KeepsFault};
ghost use Rattle.sts_output.specs.Stops.{Keeps, Prints};
ghost use Rattle.look_lines.specs.Form.{text_output};
ghost use Rattle.look_view.specs.View as def;

use crate::named::Named;
use look_lines::{Form, Run, lines_output, shown};
use look_names::Names;
use look_options::ViewOptions;
use std::alloc::{AllocError, Global};
use std::io;
use sts_asm::{AsmError, Source, read};
use sts_output::{Assembled, Output, Status, Stopped, text_fault, trace_fault, write_shown};
use sts_trace::TraceError;

/// A view with the lines and the names of a text.
#[derive(Clone, Copy)]
struct ViewOfText<'n, 't> {
    wanted: ViewOptions,
    names: &'n Names<'t>,
}

impl<'n, 't> Form for ViewOfText<'n, 't> {
    ghost shows = { λ v. def.named_form v.names.now v.wanted };

    fn of_run(&self, alloc: Global, run: Run<'_>) -> Result<Output, AllocError> {
        lines_output(alloc, &Named { names: self.names }, self.wanted, run)
    }

    fn of_text_fault(&self, alloc: Global, error: AsmError) -> Result<Output, AllocError> {
        text_fault(alloc, error)
    }

    fn of_trace_fault(&self, alloc: Global, error: TraceError) -> Result<Output, AllocError> {
        trace_fault(alloc, error)
    }
}

fn view(
    alloc: Global,
    wanted: ViewOptions,
    text: &[u8],
    trace: &[u8],
    assembled: &mut Assembled,
) -> Result<Output, Stopped>
    ensures output { Prints result (λ o. o
        ≡ text_output (def.named_form text.now wanted) (judged text.now) trace.now) }
    ensures fault { Keeps result (judged text.now) assembled.old assembled.new }
{
    let Source { outline, program } = read(alloc, text)?;
    match program {
        Ok(program) => {
            let names = Names::new(alloc, text, outline)?;
            let form = ViewOfText {
                wanted,
                names: &names,
            };
            Ok(shown(alloc, &form, program, trace, assembled)?)
        }
        Err(error) => {
            let shown = text_fault(alloc, error)?;
            *assembled = Assembled::Fault(error);
            Ok(shown)
        }
    }
}

/// Writes the view of a text's run of a trace, with the lines and the names of the text, and returns
/// the status. `assembled` gets the program, or the fault of the text.
///
/// It takes all its memory before the first byte is written.
///
/// # Errors
///
/// A write failed.
pub fn write_view<W: io::Write>(
    alloc: Global,
    wanted: ViewOptions,
    text: &[u8],
    trace: &[u8],
    out: &mut W,
    assembled: &mut Assembled,
) -> Status
    ensures output { IfOk result (λ s. (o : AnyOutput)
        × def.IsNamedViewOf wanted text.now trace.now o
        × Writes (W.contents out.old) (W.contents out.new) s o) }
    ensures fault { IfOk result (λ s. s ≡ 3
        → KeepsFault (judged text.now) assembled.old assembled.new) }
{
    write_shown(view(alloc, wanted, text, trace, assembled), out)
}
