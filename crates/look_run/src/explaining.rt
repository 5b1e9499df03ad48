//! Explains the state of a text's run after a trace.

ghost use Rattle.std.specs.Prelude.{◌≡◌, IfOk};
ghost use Rattle.sts_asm.specs.Text.{judged};
ghost use Rattle.sts_trace.specs.Reading.{trace_read};
ghost use Rattle.sts_output.specs.Output as cli;
ghost use Rattle.sts_output.specs.Stops.{Prints};
ghost use Rattle.look_run.specs.Output as def;

use crate::states::Told;
use crate::traces::trace_fault;
use look_lines::{Watch, after};
use look_names::Names;
use look_refusal::{Made, program_of};
use std::alloc::Global;
use std::io::Write;
use sts_asm::{Source, read};
use sts_code::Program;
use sts_output::{Assembled, Output, Status, Stopped, state_status, write_shown};
use sts_trace::read_trace;

/// The state of a watched machine, and each task that lives.
fn of_watch(alloc: Global, names: &Names<'_>, watch: &Watch<'_>) -> Made
    ensures { IfOk result (λ o. o ≡ def.watched_output names.now watch.now) }
{
    let told = Told {
        program: watch.program(),
        names,
    };
    let state = watch.state();
    let mut bytes = Vec::new(alloc);
    told.say_outcome(alloc, &mut bytes, watch.world().records(), state)?;
    told.say_living(alloc, &mut bytes, watch.world())?;
    Ok(Output {
        bytes,
        status: state_status(state),
    })
}

/// The explanation of a run of a program with these lines.
fn of_trace(alloc: Global, names: &Names<'_>, program: &Program, trace: &[u8]) -> Made
    ensures { IfOk result (λ o. o ≡ def.traced_output program.now names.now trace.now
        (trace_read trace.now)) }
{
    match read_trace(alloc, trace) {
        Ok(events) => {
            let watch = after(alloc, program, events.as_slice())?;
            of_watch(alloc, names, &watch)
        }
        Err(error) => trace_fault(alloc, trace, error),
    }
}

fn explanation(
    alloc: Global,
    text: &[u8],
    trace: &[u8],
    assembled: &mut Assembled,
) -> Result<Output, Stopped>
    ensures { Prints result (def.Explains (judged text.now) text.now trace.now) }
{
    let Source { outline, program } = read(alloc, text)?;
    let program = program_of(alloc, program, text)?;
    let names = Names::new(alloc, text, outline)?;
    let output = of_trace(alloc, &names, &program, trace)?;
    *assembled = Assembled::Program(program);
    Ok(output)
}

/// Writes the state of a text's run after a trace, with line numbers, and gives the status that
/// `sts plain` gives. After a fault it names the fault and says what is wrong. It reports a faulty
/// text or trace in the same way. Then it says where each living task is, and which tasks it waits
/// for. It runs refused programs too, since it doesn't verify them. `assembled` gets the program.
///
/// It takes all its memory before the first byte is written.
///
/// # Errors
///
/// A write failed.
pub fn explain_run<W: Write>(
    alloc: Global,
    text: &[u8],
    trace: &[u8],
    out: &mut W,
    assembled: &mut Assembled,
) -> Status
    ensures { IfOk result (λ s. (o : cli.Output) × def.IsRunExplanation text.now trace.now o
        × cli.Writes (W.contents out.old) (W.contents out.new) s o) }
{
    write_shown(explanation(alloc, text, trace, assembled), out)
}
