//! The lines of every task and scope, after the last event or after each.

ghost use Rattle.std.specs.Prelude.{◌≡◌, ◌++◌, IfOk, OnOk};
ghost use Rattle.std.specs.String.{string_bytes};
ghost use Rattle.sts_trace.specs.Spelling.{event_text};
ghost use Rattle.look_lines.specs.Naming.{plain};
ghost use Rattle.look_lines.specs.View as def;

use crate::form::{Form, Run};
use crate::naming::{Naming, Plain, Said};
use crate::others::others;
use crate::scopes::scope_lines;
use crate::tasks::{ended_by, task_lines};
use crate::views::{View, view_output};
use crate::watch::{Applied, Watch};
use look_options::ViewOptions;
use std::alloc::{AllocError, Global};
use std::fmt::Write;
use sts_asm::AsmError;
use sts_model::Event;
use sts_output::{Output, steps_line, text_fault, trace_fault};
use sts_trace::TraceError;

/// The state of the machine, and the steps that it took.
fn run_lines<N: Naming>(out: &mut String, naming: &N, watch: &Watch<'_>) -> Said
    ensures { OnOk result (string_bytes out.new
        ≡ string_bytes out.old ++ def.run_lines (N.names naming.now) watch.now) }
{
    naming.say_state(out, watch.program(), watch.state())?;
    steps_line(out, watch.steps())
}

/// Appends the state, the steps, the tasks and the scopes that are wanted, with names that need no
/// text of the program.
///
/// # Errors
///
/// Memory ran out; `out` may then have a part of them.
pub fn view_lines(out: &mut String, watch: &Watch<'_>, wanted: ViewOptions) -> Said
    ensures { OnOk result (string_bytes out.new
        ≡ string_bytes out.old ++ def.view_lines wanted watch.now) }
{
    let lines = LinesView {
        wanted,
        naming: &Plain,
    };
    lines.state_lines(out, watch)
}

/// An event as a trace spells it.
///
/// # Errors
///
/// Memory ran out; `out` may then have a part of it.
pub fn event_words(out: &mut String, event: Event) -> Said
    ensures { OnOk result (string_bytes out.new ≡ string_bytes out.old ++ event_text event) }
{
    match event {
        Event::Step(t) => write!(out, "step {t}"),
        Event::Interrupt(t) => write!(out, "interrupt {t}"),
        Event::Expire(s) => write!(out, "expire {s}"),
    }
}

/// `after N EVENT`, and `idle` if the event doesn't count.
fn event_line(out: &mut String, applied: Applied) -> Said
    ensures { OnOk result (string_bytes out.new
        ≡ string_bytes out.old ++ def.event_line applied) }
{
    let number = applied.number;
    write!(out, "after {number} ")?;
    event_words(out, applied.event)?;
    ended_by(out, !applied.is_counted, " idle")
}

/// A view in lines.
#[derive(Clone, Copy)]
pub(crate) struct LinesView<'n, N> {
    pub wanted: ViewOptions,
    pub naming: &'n N,
}

impl<'n, N: Naming> LinesView<'n, N> {
    /// The tasks and the scopes that are wanted, and how many others there are.
    fn stand_lines(&self, out: &mut String, watch: &Watch<'_>) -> Said
        ensures { OnOk result (string_bytes out.new ≡ string_bytes out.old
            ++ def.stand_lines (N.names self.now.naming.now) self.now.wanted watch.now) }
    {
        let world = watch.world();
        let records = world.records();
        task_lines(out, self.naming, watch.program(), self.wanted, world)?;
        scope_lines(out, self.naming, self.wanted, records)?;
        others(out, self.wanted, records)
    }

    /// The state of the machine, the steps that it took, then the tasks and the scopes.
    fn state_lines(&self, out: &mut String, watch: &Watch<'_>) -> Said
        ensures { OnOk result (string_bytes out.new ≡ string_bytes out.old
            ++ def.state_lines (N.names self.now.naming.now) self.now.wanted watch.now) }
    {
        run_lines(out, self.naming, watch)?;
        self.stand_lines(out, watch)
    }
}

impl<'n, N: Naming> View for LinesView<'n, N> {
    ghost writes = { λ v. def.lines_view (N.names v.naming.now) v.wanted };

    fn say_state(&self, out: &mut String, _number: usize, watch: &Watch<'_>) -> Said {
        self.state_lines(out, watch)
    }

    fn say_event(&self, out: &mut String, applied: Applied, watch: &Watch<'_>) -> Said {
        event_line(out, applied)?;
        self.state_lines(out, watch)
    }
}

/// Returns what is shown of a run in lines.
///
/// # Errors
///
/// Memory ran out.
pub fn lines_output<N: Naming + Copy>(
    alloc: Global,
    naming: &N,
    wanted: ViewOptions,
    run: Run<'_>,
) -> Result<Output, AllocError>
    ensures { IfOk result (λ o. o ≡ def.lines_output
        (N.names naming.now) wanted run.entry.program.now run.entry.events.now) }
{
    view_output(alloc, &LinesView { wanted, naming }, wanted.each, run)
}

impl Form for ViewOptions {
    ghost shows = { def.lines_form plain };

    fn of_run(&self, alloc: Global, run: Run<'_>) -> Result<Output, AllocError> {
        lines_output(alloc, &Plain, *self, run)
    }

    fn of_text_fault(&self, alloc: Global, error: AsmError) -> Result<Output, AllocError> {
        text_fault(alloc, error)
    }

    fn of_trace_fault(&self, alloc: Global, error: TraceError) -> Result<Output, AllocError> {
        trace_fault(alloc, error)
    }
}
