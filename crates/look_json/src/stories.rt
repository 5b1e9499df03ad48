//! The story of a text's run of a trace as lines of JSON, or the line of a fault.

ghost use Rattle.std.specs.Prelude.{◌≡◌, IfOk, Ok};
ghost use Rattle.sts_asm.specs.Text.{judged};
ghost use Rattle.sts_trace.specs.Reading.{trace_read};
ghost use Rattle.sts_output.specs.Output as cli;
ghost use Rattle.sts_output.specs.Kept.{KeepsFault};
ghost use Rattle.sts_output.specs.Stops.{Keeps, Prints};
ghost use Rattle.look_tell.specs.Telling.{IsStoryOf};
ghost use Rattle.look_json.specs.Stories as def;

use crate::asked::StoryOf;
use crate::explained::with_status;
use crate::lines::said;
use look_names::Names;
use look_refusal::whole;
use look_tell::story_of_program;
use look_views::{faulty_text, faulty_trace};
use std::alloc::{AllocError, Global};
use std::io::Write;
use sts_asm::{Source, read};
use sts_code::Program;
use sts_model::Event;
use sts_output::{Assembled, Output, Status, Stopped, write_shown};
use sts_trace::read_trace;

/// What `tell` prints.
fn story_of(
    alloc: Global,
    asked: StoryOf<'_>,
    names: &Names<'_>,
    program: &Program,
) -> Result<Output, AllocError>
    requires names { names.now ≡ asked.text.now }
    requires program { judged asked.text.now ≡ Ok program.now }
    ensures { IfOk result (λ o.
        IsStoryOf asked.entry.options asked.entry.text.now asked.entry.trace.now o) }
{
    story_of_program(alloc, asked.options, program, names, asked.trace)
}

/// The story of these events, which the trace spells.
fn of_events(
    alloc: Global,
    asked: StoryOf<'_>,
    names: &Names<'_>,
    program: &Program,
    events: &[Event],
) -> Result<Output, AllocError>
    requires names { names.now ≡ asked.text.now }
    requires program { judged asked.text.now ≡ Ok program.now }
    ensures { IfOk result (λ o. def.IsStory
        asked.entry.options asked.entry.text.now asked.entry.trace.now events.now o) }
{
    let printed = story_of(alloc, asked, names, program)?;
    let story = whole(printed)?;
    let said = said(alloc, events, &story)?;
    Ok(with_status(said, &story))
}

fn of_trace(
    alloc: Global,
    asked: StoryOf<'_>,
    names: &Names<'_>,
    program: &Program,
) -> Result<Output, AllocError>
    requires names { names.now ≡ asked.text.now }
    requires program { judged asked.text.now ≡ Ok program.now }
    ensures { IfOk result (λ o. def.TellsTrace
        asked.entry.options asked.entry.text.now asked.entry.trace.now
        (trace_read asked.entry.trace.now) o) }
{
    match read_trace(alloc, asked.trace) {
        Ok(events) => of_events(alloc, asked, names, program, events.as_slice()),
        Err(error) => faulty_trace(alloc, error),
    }
}

fn told(alloc: Global, asked: StoryOf<'_>, assembled: &mut Assembled) -> Result<Output, Stopped>
    ensures output { Prints result (def.Tells asked.entry.options
        (judged asked.entry.text.now) asked.entry.text.now asked.entry.trace.now) }
    ensures fault { Keeps result (judged asked.entry.text.now) assembled.old assembled.new }
{
    let Source { outline, program } = read(alloc, asked.text)?;
    match program {
        Ok(program) => {
            let names = Names::new(alloc, asked.text, outline)?;
            Ok(of_trace(alloc, asked, &names, &program)?)
        }
        Err(error) => {
            let line = faulty_text(alloc, error)?;
            *assembled = Assembled::Fault(error);
            Ok(line)
        }
    }
}

/// Writes the story of a text's run of a trace as lines of JSON, and gives the status that `tell`
/// gives. `assembled` gets the fault of the text.
///
/// It takes all its memory before the first byte is written.
///
/// # Errors
///
/// A write failed.
pub fn write_stories<W: Write>(
    alloc: Global,
    asked: StoryOf<'_>,
    out: &mut W,
    assembled: &mut Assembled,
) -> Status
    ensures output { IfOk result (λ s. (o : cli.Output) × def.AreStoriesOf
        asked.entry.options asked.entry.text.now asked.entry.trace.now o
        × cli.Writes (W.contents out.old) (W.contents out.new) s o) }
    ensures fault { IfOk result (λ s. s ≡ 3
        → KeepsFault (judged asked.entry.text.now) assembled.old assembled.new) }
{
    write_shown(told(alloc, asked, assembled), out)
}
