//! What is written of a run after its last event, or before the first and after each, in any form.

ghost use Rattle.std.specs.Prelude.{◌≡◌, ◌++◌, [], OnOk, IfOk};
ghost use Rattle.std.specs.String.{string_bytes};
ghost use Rattle.look_lines.specs.Views as def;
ghost use Rattle.look_lines.specs.Watched.{watched};

use crate::form::Run;
use crate::naming::Said;
use crate::watch::{Applied, Watch};
use std::alloc::{AllocError, Global};
use sts_code::Program;
use sts_model::Event;
use sts_output::{Output, state_status};

/// What is written of a machine and of its events.
pub trait View {
    ghost use Rattle.look_lines.specs.Views.{View as AnyView};

    ghost writes: { Self → AnyView };

    /// Appends the state after this number of events.
    fn say_state(&self, out: &mut String, number: usize, watch: &Watch<'_>) -> Said
        ensures { OnOk result (string_bytes out.new
            ≡ string_bytes out.old ++ (writes self.now).state number watch.now) };

    /// Appends an event and the state after it.
    fn say_event(&self, out: &mut String, applied: Applied, watch: &Watch<'_>) -> Said
        ensures { OnOk result (string_bytes out.new
            ≡ string_bytes out.old ++ (writes self.now).event applied watch.now) };
}

/// Returns the machine after these events.
///
/// # Errors
///
/// Memory ran out.
pub fn after<'p>(
    alloc: Global,
    program: &'p Program,
    events: &[Event],
) -> Result<Watch<'p>, AllocError>
    ensures { IfOk result (λ w. w ≡ watched program.now events.now) }
{
    let mut watch = Watch::start(alloc, program)?;
    for i in 0..events.len() {
        watch.apply(alloc, events[i])?;
    }
    Ok(watch)
}

/// Returns what is written after the last event.
fn after_all<V: View>(alloc: Global, view: &V, run: Run<'_>) -> Result<Output, AllocError>
    ensures { IfOk result (λ o. o
        ≡ def.after_output (V.writes view.now) run.entry.program.now run.entry.events.now) }
{
    let watch = after(alloc, run.program, run.events)?;
    let mut text = String::new(alloc);
    view.say_state(&mut text, run.events.len(), &watch)?;
    Ok(Output::of(text, state_status(watch.state())))
}

/// Applies these events, in order, and appends each with the state after it.
fn say_events<V: View>(
    alloc: Global,
    out: &mut String,
    view: &V,
    watch: &mut Watch<'_>,
    events: &[Event],
) -> Said
    requires { watch.old ≡ watched watch.old.program [] }
    ensures stands { OnOk result (watch.new ≡ watched watch.old.program events.now) }
    ensures written { OnOk result (string_bytes out.new ≡ string_bytes out.old
        ++ def.views_from (V.writes view.now) watch.old.program [] events.now) }
{
    for i in 0..events.len() {
        let applied = watch.apply_numbered(alloc, i + 1, events[i])?;
        view.say_event(out, applied, watch)?;
    }
    Ok(())
}

/// Returns what is written before the first event and after each, in one pass.
fn after_each<V: View>(alloc: Global, view: &V, run: Run<'_>) -> Result<Output, AllocError>
    ensures { IfOk result (λ o. o
        ≡ def.each_output (V.writes view.now) run.entry.program.now run.entry.events.now) }
{
    let mut watch = Watch::start(alloc, run.program)?;
    let mut text = String::new(alloc);
    view.say_state(&mut text, 0, &watch)?;
    say_events(alloc, &mut text, view, &mut watch, run.events)?;
    Ok(Output::of(text, state_status(watch.state())))
}

/// Returns what is written after the last event, or before the first and after each. The status is
/// that of the machine's last state.
///
/// # Errors
///
/// Memory ran out.
pub fn view_output<V: View>(
    alloc: Global,
    view: &V,
    each: bool,
    run: Run<'_>,
) -> Result<Output, AllocError>
    ensures { IfOk result (λ o. o
        ≡ def.view_output (V.writes view.now) each run.entry.program.now run.entry.events.now) }
{
    if each {
        after_each(alloc, view, run)
    } else {
        after_all(alloc, view, run)
    }
}
