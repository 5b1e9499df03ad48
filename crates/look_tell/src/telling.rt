//! Tells the story of a text's run of a trace.

ghost use Rattle.std.specs.Prelude.{◌≡◌, IfOk, take};
ghost use Rattle.sts_asm.specs.Text.{judged};
ghost use Rattle.sts_trace.specs.Reading.{trace_read};
ghost use Rattle.sts_output.specs.Output as cli;
ghost use Rattle.sts_output.specs.Stops.{Prints};
ghost use Rattle.look_tell.specs.Telling as def;

use crate::line::say_events;
use crate::story::Story;
use crate::words::Told;
use look_names::Names;
use look_options::TellOptions;
use look_refusal::{Made, program_of};
use look_run::trace_fault;
use std::alloc::Global;
use std::io::Write;
use sts_asm::{Source, read};
use sts_code::Program;
use sts_model::Event;
use sts_output::{Output, Status, Stopped, state_status, write_shown};
use sts_trace::read_trace;

fn status_of(story: &Story<'_>) -> u8
    ensures { result ≡ def.story_status story.now }
{
    if story.has_stopped() {
        5
    } else {
        state_status(story.state())
    }
}

/// The first events, up to the last one with lines.
fn up_to(events: &[Event], last: u32) -> &[Event]
    ensures { result.now ≡ take last events.now }
{
    if events.len() <= last as usize {
        events
    } else {
        &events[..last as usize]
    }
}

/// A program with the names of its text, and which events and steps of a run get lines.
#[derive(Clone, Copy)]
struct Asked<'a, 't> {
    options: TellOptions,
    names: &'a Names<'t>,
    program: &'a Program,
}

impl Asked<'_, '_> {
    /// The story of these events. A strict story ends with the end of each task.
    fn of_events(self, alloc: Global, events: &[Event]) -> Made
        ensures { IfOk result (λ o. o ≡ def.story_output self.entry.names.now self.entry.options
            self.entry.program.now events.now) }
    {
        let names = self.names;
        let told = up_to(events, self.options.last);
        let mut story = Story::begun(alloc, self.program)?;
        let mut bytes = Vec::new(alloc);
        say_events(alloc, &mut bytes, names, self.options, &mut story, told)?;
        let story = &story;
        Told { names, story }.say_strict_ends(alloc, &mut bytes, self.options.strict)?;
        Ok(Output {
            bytes,
            status: status_of(story),
        })
    }

    /// The story of the events with these lines.
    fn of_trace(self, alloc: Global, trace: &[u8]) -> Made
        ensures { IfOk result (λ o. o ≡ def.traced_output self.entry.options
            self.entry.program.now self.entry.names.now trace.now (trace_read trace.now)) }
    {
        match read_trace(alloc, trace) {
            Ok(events) => self.of_events(alloc, events.as_slice()),
            Err(error) => trace_fault(alloc, trace, error),
        }
    }
}

/// Returns the story of a text of these names that spells this program.
///
/// # Errors
///
/// Memory ran out.
pub fn story_of_program(
    alloc: Global,
    options: TellOptions,
    program: &Program,
    names: &Names<'_>,
    trace: &[u8],
) -> Made
    ensures { IfOk result (λ o. o ≡ def.traced_output options program.now names.now trace.now
        (trace_read trace.now)) }
{
    let asked = Asked {
        options,
        names,
        program,
    };
    asked.of_trace(alloc, trace)
}

fn story_of(
    alloc: Global,
    options: TellOptions,
    text: &[u8],
    trace: &[u8],
) -> Result<Output, Stopped>
    ensures { Prints result (def.Tells options (judged text.now) text.now trace.now) }
{
    let Source { outline, program } = read(alloc, text)?;
    let program = program_of(alloc, program, text)?;
    let names = Names::new(alloc, text, outline)?;
    Ok(story_of_program(alloc, options, &program, &names, trace)?)
}

/// Writes the story of a text's run of a trace, a line for each event that others can notice, and
/// gives the status that `sts plain` gives. A strict story stops at the first event that doesn't
/// count, has status 5 then, and ends with the end of each task. A faulty text or trace is reported
/// as `explain` reports it. It runs refused programs too, since it doesn't verify them.
///
/// It takes all its memory before the first byte is written.
///
/// # Errors
///
/// A write failed.
pub fn tell<W: Write>(
    alloc: Global,
    options: TellOptions,
    text: &[u8],
    trace: &[u8],
    out: &mut W,
) -> Status
    ensures { IfOk result (λ s. (o : cli.Output) × def.IsStoryOf options text.now trace.now o
        × cli.Writes (W.contents out.old) (W.contents out.new) s o) }
{
    write_shown(story_of(alloc, options, text, trace), out)
}
