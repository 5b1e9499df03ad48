//! A run as a picture: a lane for each task, a column for each event.

ghost use Rattle.std.specs.Prelude.{◌≡◌, ◌++◌, ◌≤◌, OnOk, IfOk, length, take, drop};
ghost use Rattle.std.specs.String.{string_bytes};
ghost use Rattle.sts_asm.specs.Text.{judged};
ghost use Rattle.sts_plain.specs.Seen.{shown};
ghost use Rattle.sts_output.specs.Output as cli;
ghost use Rattle.sts_output.specs.Kept.{KeepsFault};
ghost use Rattle.sts_output.specs.Stops.{Keeps, Prints};
ghost use Rattle.look_lines.specs.Form.{text_output};
ghost use Rattle.look_lines.specs.Watched.{watched};
ghost use Rattle.look_tell.specs.Story.{after_events};
ghost use Rattle.look_picture.specs.Picture as def;
ghost use Rattle.look_drawing.specs.Present as numbers;
ghost use Rattle.look_drawing.specs.declared.legend.TheConstants.{MOST_KEYS};

use crate::lane_names::lane_names;
use crate::title::{FileNames, say_title};
use crate::told::event_words;
use look_drawing::{
    Drawn, Manner, Mark, Present, Seen, Worded, backdrop, escaped_line, first_column, foot, head,
    keys, left_out, maybe_column, shown_events,
};
use look_lines::{Applied, Form, Run, Said, Watch, after, shown};
use look_names::Names;
use look_options::DrawOptions;
use look_run::say_end;
use look_tell::{Story, Told};
use std::alloc::{AllocError, Global};
use std::io;
use sts_asm::{AsmError, Source, read};
use sts_code::Program;
use sts_model::{End, Event};
use sts_output::{
    Assembled, Output, Status, Stopped, state_line, state_status, steps_line, text_fault,
    trace_fault, write_shown,
};
use sts_plain::PlainState;
use sts_trace::TraceError;

/// Skips the first events, applies the others to a machine and to a story in order, and draws a
/// column for each that has words. Returns the number of columns.
fn event_columns(
    alloc: Global,
    out: &mut String,
    manner: Manner<'_, '_>,
    before: &mut Watch<'_>,
    story: &mut Story<'_>,
    present: &mut Present,
    skipped: usize,
    events: &[Event],
) -> Result<usize, AllocError>
    requires behind { before.old ≡ watched before.old.program (take skipped events.now) }
    requires told { story.old ≡ after_events before.old.program (take skipped events.now) }
    requires listed { present.old ≡ numbers.present before.old.last }
    requires inside { skipped ≤ length events.now }
    ensures told { OnOk result (story.new ≡ after_events before.old.program events.now) }
    ensures counted { IfOk result (λ n. n ≡ def.count_from manner.entry.names.now
        manner.entry.brief before.old.program 0
        (take skipped events.now) (drop skipped events.now)) }
    ensures drawn { OnOk result (string_bytes out.new ≡ string_bytes out.old
        ++ def.columns_from manner.entry.names.now manner.entry.brief before.old.program 0
        (take skipped events.now) (drop skipped events.now)) }
{
    let mut columns = 0;
    for i in skipped..events.len() {
        let is_counted = story.counts(events[i]);
        let words = event_words(alloc, manner.names, story, manner.brief, i + 1, events[i])?;
        let watch = story.watch();
        present.add_born(before.world().records(), watch.world().records())?;
        let seen = Seen {
            before,
            watch,
            present,
        };
        let applied = Applied {
            number: i + 1,
            event: events[i],
            is_counted,
        };
        let worded = Worded {
            words: words.as_str(),
            applied,
            seen,
        };
        let more = maybe_column(alloc, out, manner, worded, columns)?;
        columns = more;
        before.apply(alloc, events[i])?;
        present.keep(before.world().records());
    }
    Ok(columns)
}

/// The story of the events, and how many of them have a column.
#[derive(Drop)]
struct Drawing<'p> {
    story: Story<'p>,
    count: usize,
}

/// Draws the same as `columns`, from the machine after the skipped events.
fn drawn_columns<'p>(
    alloc: Global,
    out: &mut String,
    manner: Manner<'_, '_>,
    program: &'p Program,
    before: &mut Watch<'_>,
    skipped: usize,
    events: &[Event],
) -> Result<Drawing<'p>, AllocError>
    requires behind { before.old ≡ watched program.now (take skipped events.now) }
    requires inside { skipped ≤ length events.now }
    ensures told { IfOk result (λ r. r.story ≡ after_events program.now events.now) }
    ensures counted { IfOk result (λ r. r.count
        ≡ def.count manner.entry.names.now manner.entry.brief program.now skipped events.now) }
    ensures drawn { OnOk result (string_bytes out.new ≡ string_bytes out.old
        ++ def.columns manner.entry.names.now manner.entry.brief program.now skipped events.now) }
{
    let mut story = Story::after(alloc, program, &events[..skipped])?;
    let mut present = Present::of(alloc, before.world().records())?;
    first_column(alloc, out, manner.names, before, &present)?;
    let count = event_columns(
        alloc,
        out,
        manner,
        before,
        &mut story,
        &mut present,
        skipped,
        events,
    )?;
    Ok(Drawing { story, count })
}

/// Draws the column before the first event and one after each that has words, but skips the first
/// events.
fn columns<'p>(
    alloc: Global,
    out: &mut String,
    manner: Manner<'_, '_>,
    program: &'p Program,
    skipped: usize,
    events: &[Event],
) -> Result<Drawing<'p>, AllocError>
    requires { skipped ≤ length events.now }
    ensures told { IfOk result (λ r. r.story ≡ after_events program.now events.now) }
    ensures counted { IfOk result (λ r. r.count
        ≡ def.count manner.entry.names.now manner.entry.brief program.now skipped events.now) }
    ensures drawn { OnOk result (string_bytes out.new ≡ string_bytes out.old
        ++ def.columns manner.entry.names.now manner.entry.brief program.now skipped events.now) }
{
    let mut before = after(alloc, program, &events[..skipped])?;
    drawn_columns(alloc, out, manner, program, &mut before, skipped, events)
}

/// The end of a run, with the name of its value or code.
fn end_line(alloc: Global, out: &mut String, names: &Names<'_>, end: End) -> Said
    ensures { OnOk result (string_bytes out.new
        ≡ string_bytes out.old ++ def.end_line names.now end) }
{
    let mut words = Vec::new(alloc);
    say_end(alloc, &mut words, names, end)?;
    escaped_line(out, words.as_slice())
}

/// The state of the run.
fn run_line(alloc: Global, out: &mut String, names: &Names<'_>, watch: &Watch<'_>) -> Said
    ensures { OnOk result (string_bytes out.new ≡ string_bytes out.old
        ++ def.run_line names.now watch.now.program (shown watch.now.state)) }
{
    match watch.state() {
        PlainState::Ended(end) => end_line(alloc, out, names, end),
        PlainState::Running | PlainState::Fault { .. } => {
            state_line(out, watch.program(), watch.state())
        }
    }
}

/// The files, the state of the run, the steps that it took, and which events are left out.
fn say_heading(
    alloc: Global,
    out: &mut String,
    files: Option<FileNames<'_>>,
    names: &Names<'_>,
    watch: &Watch<'_>,
    drawn: Drawn,
) -> Said
    requires { drawn.last ≤ drawn.all }
    ensures { OnOk result (string_bytes out.new ≡ string_bytes out.old
        ++ def.heading files.entry names.now watch.now drawn) }
{
    say_title(out, files)?;
    run_line(alloc, out, names, watch)?;
    out.push_str(" ")?;
    steps_line(out, watch.steps())?;
    left_out(out, drawn)
}

/// The heading as a string.
fn heading(
    alloc: Global,
    files: Option<FileNames<'_>>,
    names: &Names<'_>,
    watch: &Watch<'_>,
    drawn: Drawn,
) -> Result<String, AllocError>
    requires { drawn.last ≤ drawn.all }
    ensures { IfOk result (λ words. string_bytes words
        ≡ def.heading files.entry names.now watch.now drawn) }
{
    let mut words = String::new(alloc);
    say_heading(alloc, &mut words, files, names, watch, drawn)?;
    Ok(words)
}

/// The names of the lanes, and the legend.
fn below(alloc: Global, out: &mut String, told: Told<'_, '_, '_, '_>, keys: &[Mark]) -> Said
    requires { length keys.now ≤ MOST_KEYS }
    ensures { OnOk result (string_bytes out.new
        ≡ string_bytes out.old ++ def.below told.entry.names.now told.entry.story.now keys.now) }
{
    lane_names(alloc, out, told)?;
    let tasks = told.story.watch().world().records().tasks_born();
    foot(out, tasks, keys)
}

/// These many columns that are drawn, and what their frame is made of.
#[derive(Clone, Copy)]
struct Sheet<'s, 't, 'p, 'f> {
    files: Option<FileNames<'f>>,
    drawn: Drawn,
    names: &'s Names<'t>,
    story: &'s Story<'p>,
    brief: bool,
    count: usize,
    columns: &'s str,
}

/// Puts the columns under this heading, between the grid and the legend with these keys.
fn framed_under(
    alloc: Global,
    out: &mut String,
    heading: &str,
    sheet: Sheet<'_, '_, '_, '_>,
    keys: &[Mark],
) -> Said
    requires { length keys.now ≤ MOST_KEYS }
    ensures { OnOk result (string_bytes out.new ≡ string_bytes out.old
        ++ def.framed_under heading.now sheet.entry.names.now sheet.entry.story.now
        sheet.entry.brief sheet.entry.count sheet.entry.columns.now keys.now) }
{
    let watch = sheet.story.watch();
    head(out, heading, watch, sheet.brief, sheet.count, keys.len())?;
    backdrop(out, heading, watch, sheet.brief, sheet.count)?;
    out.push_str(sheet.columns)?;
    let told = Told {
        names: sheet.names,
        story: sheet.story,
    };
    below(alloc, out, told, keys)
}

/// Puts the columns under the heading, with these keys in the legend.
fn framed_with(alloc: Global, out: &mut String, sheet: Sheet<'_, '_, '_, '_>, keys: &[Mark]) -> Said
    requires ordered { sheet.drawn.last ≤ sheet.drawn.all }
    requires few { length keys.now ≤ MOST_KEYS }
    ensures { OnOk result (string_bytes out.new ≡ string_bytes out.old
        ++ def.framed_with sheet.entry.files sheet.entry.names.now sheet.entry.story.now
        sheet.entry.drawn sheet.entry.brief sheet.entry.count sheet.entry.columns.now keys.now) }
{
    let words = heading(
        alloc,
        sheet.files,
        sheet.names,
        sheet.story.watch(),
        sheet.drawn,
    )?;
    framed_under(alloc, out, words.as_str(), sheet, keys)
}

/// Puts the columns in their frame. The legend has the marks that they have.
fn framed(alloc: Global, out: &mut String, sheet: Sheet<'_, '_, '_, '_>) -> Said
    requires { sheet.drawn.last ≤ sheet.drawn.all }
    ensures { OnOk result (string_bytes out.new ≡ string_bytes out.old
        ++ def.framed sheet.entry.files sheet.entry.names.now sheet.entry.story.now
        sheet.entry.drawn sheet.entry.brief sheet.entry.count sheet.entry.columns.now) }
{
    let keys = keys(alloc, sheet.columns)?;
    framed_with(alloc, out, sheet, keys.as_slice())
}

/// The status of the machine's state.
fn status_of(story: &Story<'_>) -> u8
    ensures { result ≡ def.status_of story.now }
{
    state_status(story.watch().state())
}

/// The columns in their frame, and the status of the machine's state.
fn sheet_output(alloc: Global, sheet: Sheet<'_, '_, '_, '_>) -> Result<Output, AllocError>
    requires { sheet.drawn.last ≤ sheet.drawn.all }
    ensures { IfOk result (λ o. o
        ≡ def.sheet_output sheet.entry.files sheet.entry.names.now sheet.entry.story.now
        sheet.entry.drawn sheet.entry.brief sheet.entry.count sheet.entry.columns.now) }
{
    let mut text = String::new(alloc);
    framed(alloc, &mut text, sheet)?;
    Ok(Output::of(text, status_of(sheet.story)))
}

/// The picture of a run of these events, and the status of the machine's last state.
fn picture_of(
    alloc: Global,
    files: Option<FileNames<'_>>,
    manner: Manner<'_, '_>,
    program: &Program,
    drawn: Drawn,
    events: &[Event],
) -> Result<Output, AllocError>
    requires skips { drawn.before ≤ length events.now }
    requires ordered { drawn.last ≤ drawn.all }
    ensures { IfOk result (λ o. o
        ≡ def.drawn_output files.entry manner.entry.names.now manner.entry.brief program.now drawn
        events.now) }
{
    let mut columns_text = String::new(alloc);
    let found = columns(
        alloc,
        &mut columns_text,
        manner,
        program,
        drawn.before,
        events,
    )?;
    let sheet = Sheet {
        files,
        drawn,
        names: manner.names,
        story: &found.story,
        brief: manner.brief,
        count: found.count,
        columns: columns_text.as_str(),
    };
    sheet_output(alloc, sheet)
}

/// The picture of a run, of a window of its events or of the last ones, with the lines and the names
/// of a text. It is the picture up to the last event that is shown, with the status of the machine's
/// state there.
#[derive(Clone, Copy)]
struct Picture<'n, 't> {
    options: DrawOptions,
    files: Option<FileNames<'n>>,
    names: &'n Names<'t>,
}

impl<'n, 't> Form for Picture<'n, 't> {
    ghost shows = { λ picture. def.picture_form picture.files picture.names.now picture.options };

    fn of_run(&self, alloc: Global, run: Run<'_>) -> Result<Output, AllocError> {
        let shown = shown_events(self.options.window, run.events.len());
        let manner = Manner {
            names: self.names,
            brief: self.options.brief,
        };
        picture_of(
            alloc,
            self.files,
            manner,
            run.program,
            shown,
            &run.events[..shown.last],
        )
    }

    fn of_text_fault(&self, alloc: Global, error: AsmError) -> Result<Output, AllocError> {
        text_fault(alloc, error)
    }

    fn of_trace_fault(&self, alloc: Global, error: TraceError) -> Result<Output, AllocError> {
        trace_fault(alloc, error)
    }
}

fn of_text(
    alloc: Global,
    options: DrawOptions,
    files: Option<FileNames<'_>>,
    text: &[u8],
    trace: &[u8],
    assembled: &mut Assembled,
) -> Result<Output, Stopped>
    ensures output { Prints result (λ o. o
        ≡ text_output (def.picture_form files.entry text.now options) (judged text.now)
        trace.now) }
    ensures fault { Keeps result (judged text.now) assembled.old assembled.new }
{
    let Source { outline, program } = read(alloc, text)?;
    match program {
        Ok(program) => {
            let names = Names::new(alloc, text, outline)?;
            let form = Picture {
                options,
                files,
                names: &names,
            };
            Ok(shown(alloc, &form, program, trace, assembled)?)
        }
        Err(error) => {
            let shown = text_fault(alloc, error)?;
            *assembled = Assembled::Fault(error);
            Ok(shown)
        }
    }
}

/// Writes the picture of a text's run of a trace, and returns the status. The heading has the names
/// of their files, if they are files. `assembled` gets the program, or the fault of the text.
///
/// It takes all its memory before the first byte is written.
///
/// # Errors
///
/// A write failed.
pub fn draw<W: io::Write>(
    alloc: Global,
    options: DrawOptions,
    files: Option<FileNames<'_>>,
    text: &[u8],
    trace: &[u8],
    out: &mut W,
    assembled: &mut Assembled,
) -> Status
    ensures output { IfOk result (λ s. (o : cli.Output)
        × def.IsPictureOf options files.entry text.now trace.now o
        × cli.Writes (W.contents out.old) (W.contents out.new) s o) }
    ensures fault { IfOk result (λ s. s ≡ 3
        → KeepsFault (judged text.now) assembled.old assembled.new) }
{
    write_shown(of_text(alloc, options, files, text, trace, assembled), out)
}
