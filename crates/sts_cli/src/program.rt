//! The program `sts`, without its `main`: opens the files that a command line names, and writes the
//! output.

ghost use Rattle.std.specs.Prelude.{◌≡◌, ◌≤◌, ℕ, IfOk, List, Option, None, [], map};
ghost use Rattle.clap.specs.Words.{Text};
ghost use Rattle.sts_args.specs.Asked.{HasWorkers};
ghost use Rattle.sts_args.specs.Refused.{Refuses};
ghost use Rattle.sts_cli.specs.Aside.{LeavesFault, run_reason};
ghost use Rattle.sts_cli.specs.Ending as def;
ghost use Rattle.sts_asm.specs.Text.{judged};
ghost use Rattle.sts_trace.specs.Reading.{trace_read};
ghost use Rattle.sts_output.specs.Joined.{halves_of};
ghost use Rattle.sts_output.specs.Kept.{fault_in, kept_fault};
ghost use Rattle.sts_output.specs.Output.{IsOutputOf, Output, Writes};
ghost use Rattle.sts_output.specs.Reasons.{Adds, events_reason, first_reason, status_reason};
ghost use Rattle.sts_output.specs.Reasons.{trace_reason};
ghost use Rattle.sts_output.specs.Streams.{Files as AnyFiles, SameFile, same_file};

use crate::playing::{Aside, Job, play_and_keep, play_traced, play_untraced};
use crate::remarks::{Came, remark_outside};
use std::alloc::{AllocError, Global};
use std::io;
use std::io::{Input, Write};
use std::rt::{Env, Files};
use std::sync::Wait;
use std::thread::Threads;
use sts_args::{LineError, asked, line};
use sts_output::{
    Assembled, Events, Host, Mode, NOT_TEXT, Named, Notes, STATUS_OUTSIDE, Sinks, Sources, Status,
    TakeError, Texts, WordsError, borrowed, failed, file_failed, made, placeholder, read_input,
    read_text, read_texts, split, words, written,
};
use sts_remarks::{Remarks, Watched};

/// The name that the program goes by.
const NAME: &str = "sts";

/// Plays a text that was read.
fn play_text<W: Write>(
    alloc: Global,
    mode: Mode,
    text: Named<'_>,
    out: &mut W,
    notes: &mut Notes,
) -> Status
    ensures output { IfOk result (λ s. (o : Output) × IsOutputOf mode text.entry.text.now [] o
        × Writes (W.contents out.old) (W.contents out.new) s o) }
    ensures note { IfOk result (λ s. Adds notes.old.lines.items notes.new.lines.items
        (status_reason notes.old.program.now s text.entry.name.now text.entry.text.now
        (fault_in (judged text.entry.text.now)) None)) }
{
    let mut assembled = Assembled::Nothing;
    let status = play_and_keep(alloc, mode, text.text, &[], out, &mut assembled)?;
    notes.status(status, text, assembled.fault(), Events::None);
    Ok(status)
}

/// A mode that only reads a text.
fn on_text<S: Sources, W: Write>(
    alloc: Global,
    sources: &S,
    mode: Mode,
    path: &str,
    out: &mut W,
    notes: &mut Notes,
) -> Status
    ensures { IfOk result (λ s. (o : Output)
        × def.IsOfText mode (S.held sources.now path.now) o
        × Writes (W.contents out.old) (W.contents out.new) s o) }
{
    match read_text(alloc, sources, path) {
        Ok(text) => {
            let bytes = text.as_slice();
            let named = Named {
                name: path,
                text: bytes,
            };
            play_text(alloc, mode, named, out, notes)
        }
        Err(error) => file_failed(error, out, notes),
    }
}

/// Plays a text and a trace that were read.
fn play_trace<W: Write>(
    mode: Mode,
    text: Named<'_>,
    trace: Named<'_>,
    out: &mut W,
    remarks: &mut Remarks,
) -> Status
    ensures output { IfOk result (λ s. (o : Output)
        × IsOutputOf mode text.entry.text.now trace.entry.text.now o
        × Writes (W.contents out.old) (W.contents out.new) s o) }
    ensures note { IfOk result (λ s. Adds
        remarks.old.notes.lines.items remarks.new.notes.lines.items
        (status_reason remarks.old.notes.program.now s text.entry.name.now text.entry.text.now
        (fault_in (judged text.entry.text.now)) (trace_reason remarks.old.notes.program.now
        trace.entry.name.now trace.entry.text.now (trace_read trace.entry.text.now)))) }
{
    let mut assembled = Assembled::Nothing;
    let alloc = remarks.alloc;
    let status = play_and_keep(alloc, mode, text.text, trace.text, out, &mut assembled)?;
    let notes = &mut remarks.notes;
    notes.status(status, text, assembled.fault(), Events::Trace(trace));
    remarks.idle(status, "line", assembled.program(), trace);
    Ok(status)
}

/// A mode that looks at a text and a trace.
fn on_text_and_trace<S: Sources, W: Write>(
    sources: &S,
    mode: Mode,
    path: &str,
    trace: &str,
    out: &mut W,
    remarks: &mut Remarks,
) -> Status
    ensures { IfOk result (λ s. (o : Output)
        × def.IsOfTextAndTrace mode (S.held sources.now path.now) (S.held sources.now trace.now) o
        × Writes (W.contents out.old) (W.contents out.new) s o) }
{
    match read_texts(remarks.alloc, sources, path, Some(trace)) {
        Ok(texts) => {
            let (text, events) = (texts.program.as_slice(), texts.events.as_slice());
            let program = Named { name: path, text };
            let trace = Named {
                name: trace,
                text: events,
            };
            play_trace(mode, program, trace, out, remarks)
        }
        Err(error) => file_failed(error, out, &mut remarks.notes),
    }
}

/// Plays what was read from the input stream.
fn play_input<W: Write>(input: &[u8], out: &mut W, remarks: &mut Remarks) -> Status
    ensures { IfOk result (λ s. (o : Output)
        × IsOutputOf Mode.Plain (halves_of input.now).text (halves_of input.now).trace o
        × Writes (W.contents out.old) (W.contents out.new) s o) }
{
    let (text, trace) = split(input);
    let text = Named {
        name: "the text",
        text,
    };
    let trace = Named {
        name: "the trace",
        text: trace,
    };
    play_trace(Mode::Plain, text, trace, out, remarks)
}

/// A text and a trace on the input stream.
fn on_input<S: Sources, W: Write>(sources: &S, out: &mut W, remarks: &mut Remarks) -> Status
    ensures { IfOk result (λ s. (o : Output)
        × def.IsOfInput (S.offered sources.now) o
        × Writes (W.contents out.old) (W.contents out.new) s o) }
{
    match read_input(remarks.alloc, sources) {
        Ok(input) => play_input(input.as_slice(), out, remarks),
        Err(error) => file_failed(error, out, &mut remarks.notes),
    }
}

/// The request of `run`.
#[derive(Clone, Copy)]
struct RunRequest<'a> {
    file: &'a str,
    workers: u32,
    outside: Option<&'a str>,
    trace: Option<&'a str>,
}

/// Returns the outside text of a run, if it has one.
fn outside_of<'a>(wanted: RunRequest<'a>, texts: &'a Texts) -> Events<'a>
    ensures { (program : List ℕ) → events_reason program result
        ≡ run_reason program wanted.entry.outside texts.now.events.items }
{
    match wanted.outside {
        Some(name) => Events::Outside(Named::new(name, texts.events.as_slice())),
        None => Events::None,
    }
}

/// Runs texts that were read. The file of the trace is made first, if one is named.
fn on_texts<R: Threads + Wait + Sync, S: Sinks, W: Write>(
    rt: &R,
    alloc: Global,
    sinks: &mut S,
    wanted: RunRequest<'_>,
    texts: &Texts,
    out: &mut W,
    notes: &mut Notes,
    aside: &mut Aside,
) -> Status
    requires { (1 ≤ wanted.workers) × (wanted.workers ≤ 16) }
    ensures output { IfOk result (λ s. (o : Output)
        × def.IsPrinted (def.Spares
        (same_file (S.same sinks.old) (S.said_yes sinks.old) (S.said_yes sinks.new))
        wanted.entry.file.now wanted.entry.outside wanted.entry.trace)
        texts.now.program.items texts.now.events.items o
        × Writes (W.contents out.old) (W.contents out.new) s o) }
    ensures fault { IfOk result (λ s.
        LeavesFault s (judged texts.now.program.items) aside.old aside.new) }
    ensures notes { IfOk result (λ s. s ≡ 3 → notes.new ≡ notes.old) }
{
    let (program, outside) = (texts.program.as_slice(), texts.events.as_slice());
    let job = Job {
        text: program,
        outside,
        workers: wanted.workers,
    };
    match wanted.trace {
        None => play_untraced(rt, alloc, job, out, aside),
        Some(path) => match made(alloc, sinks, path, wanted.file, wanted.outside) {
            Ok(mut trace) => play_traced(rt, alloc, job, &mut trace, out, aside),
            Err(error) => file_failed(error, out, notes),
        },
    }
}

/// Adds why the trace of a run was not written, if it wasn't.
fn note_trace(trace: Option<&str>, error: Option<io::Error>, notes: &mut Notes)
    ensures program { notes.new.program ≡ notes.old.program }
    ensures lines { error ≡ None → notes.new.lines.items ≡ notes.old.lines.items }
{
    if let Some(path) = trace {
        notes.written(path, error);
    }
}

/// Adds which outside events had no effect, if some came.
fn remark_came(events: Events<'_>, came: Option<&Came>, remarks: &mut Remarks)
    ensures { remarks.new.notes ≡ remarks.old.notes }
{
    if let (Events::Outside(named), Some(came)) = (events, came) {
        remark_outside(remarks, named, came);
    }
}

/// Adds the lines about a run that was done: why it failed, and which outside events had no effect.
fn remark(
    wanted: RunRequest<'_>,
    texts: &Texts,
    status: u8,
    aside: &mut Aside,
    remarks: &mut Remarks,
)
    ensures { aside.old.unwritten ≡ None → Adds
        remarks.old.notes.lines.items remarks.new.notes.lines.items
        (status_reason remarks.old.notes.program.now status wanted.entry.file.now
        texts.now.program.items (kept_fault aside.old.assembled)
        (run_reason remarks.old.notes.program.now wanted.entry.outside texts.now.events.items)) }
{
    let events = outside_of(wanted, texts);
    note_trace(wanted.trace, aside.unwritten.take(), &mut remarks.notes);
    let text = Named::new(wanted.file, texts.program.as_slice());
    let fault = aside.assembled.fault();
    remarks.notes.status(status, text, fault, events);
    remark_came(events, aside.came.as_ref(), remarks);
}

/// Runs texts that were read, and adds the lines about the run.
fn run_texts<R: Threads + Wait + Sync, S: Sinks, W: Write>(
    rt: &R,
    sinks: &mut S,
    wanted: RunRequest<'_>,
    texts: &Texts,
    out: &mut W,
    remarks: &mut Remarks,
) -> Status
    requires { (1 ≤ wanted.workers) × (wanted.workers ≤ 16) }
    ensures output { IfOk result (λ s. (o : Output)
        × def.IsPrinted (def.Spares
        (same_file (S.same sinks.old) (S.said_yes sinks.old) (S.said_yes sinks.new))
        wanted.entry.file.now wanted.entry.outside wanted.entry.trace)
        texts.now.program.items texts.now.events.items o
        × Writes (W.contents out.old) (W.contents out.new) s o) }
    ensures note { IfOk result (λ s. s ≡ 3 → Adds
        remarks.old.notes.lines.items remarks.new.notes.lines.items
        (first_reason remarks.old.notes.program.now wanted.entry.file.now
        texts.now.program.items (fault_in (judged texts.now.program.items))
        (run_reason remarks.old.notes.program.now wanted.entry.outside texts.now.events.items))) }
{
    let mut aside = Aside::new();
    let alloc = remarks.alloc;
    let notes = &mut remarks.notes;
    let status = on_texts(rt, alloc, sinks, wanted, texts, out, notes, &mut aside)?;
    remark(wanted, texts, status, &mut aside, remarks);
    Ok(status)
}

/// Does a run. The text is read before the outside text, and both before the file of the trace is
/// made.
fn on_run<R: Threads + Wait + Sync, S: Sources + Sinks, W: Write>(
    rt: &R,
    sources: &mut S,
    wanted: RunRequest<'_>,
    out: &mut W,
    remarks: &mut Remarks,
) -> Status
    requires { (1 ≤ wanted.workers) × (wanted.workers ≤ 16) }
    ensures { IfOk result (λ s. (o : Output)
        × def.IsOfFiles wanted.entry.file.now wanted.entry.outside wanted.entry.trace
        (S.held sources.old)
        (same_file (S.same sources.old) (S.said_yes sources.old) (S.said_yes sources.new)) o
        × Writes (W.contents out.old) (W.contents out.new) s o) }
{
    match read_texts(remarks.alloc, &*sources, wanted.file, wanted.outside) {
        Ok(texts) => run_texts(rt, sources, wanted, &texts, out, remarks),
        Err(error) => file_failed(error, out, &mut remarks.notes),
    }
}

/// Does what a line asks for.
fn on_line<R: Threads + Wait + Sync, S: Sources + Sinks, W: Write>(
    rt: &R,
    sources: &mut S,
    wanted: asked::Line<'_>,
    out: &mut W,
    remarks: &mut Remarks,
) -> Status
    requires { HasWorkers wanted }
    ensures { IfOk result (λ s. (o : Output)
        × def.IsPlayed wanted.entry (S.held sources.old)
        (same_file (S.same sources.old) (S.said_yes sources.old) (S.said_yes sources.new))
        (S.offered sources.old) o
        × Writes (W.contents out.old) (W.contents out.new) s o) }
{
    match wanted {
        asked::Line::Joined => on_input(&*sources, out, remarks),
        asked::Line::Verify { file } => {
            let notes = &mut remarks.notes;
            on_text(remarks.alloc, &*sources, Mode::Verify, file, out, notes)
        }
        asked::Line::List { file } => {
            let notes = &mut remarks.notes;
            on_text(remarks.alloc, &*sources, Mode::List, file, out, notes)
        }
        asked::Line::Plain { file, trace } => {
            on_text_and_trace(&*sources, Mode::Plain, file, trace, out, remarks)
        }
        asked::Line::Replay { file, trace } => {
            on_text_and_trace(&*sources, Mode::Replay, file, trace, out, remarks)
        }
        asked::Line::Run {
            file,
            workers,
            outside,
            trace,
        } => {
            let wanted = RunRequest {
                file,
                workers,
                outside,
                trace,
            };
            on_run(rt, sources, wanted, out, remarks)
        }
    }
}

/// Writes why a line asks for nothing that can be done.
fn on_error<W: Write, E: Write>(error: LineError, out: &mut W, err: &mut E) -> Status
    ensures { (words : List Text) (files : AnyFiles) (same : SameFile) (input : Option (List ℕ))
        → Refuses words error → IfOk result (def.Ends words files same input
        (def.both_streams (W.contents out.old) (W.contents out.new)
        (E.contents err.old) (E.contents err.new))) }
{
    match error {
        LineError::Memory => failed(TakeError::Memory, out),
        LineError::Help(text) => written(err, text.as_bytes(), 0),
        LineError::Usage(text) => written(err, text.as_bytes(), 2),
    }
}

/// Does what a command line asks for, and gives the status. The first word is the program's name.
///
/// The status is 0 for accepted, listed, a root that succeeded, and help. It is 1 if the root
/// failed, 2 for usage, 3 for a fault of a text, and 4 for a refusal. It is 5 for a fault of the
/// run, or if the program still runs. It is 6 if memory ran out, or a file, a stream or a thread
/// failed.
///
/// Help and usage faults are written to `err`, everything else to `out`. `remarks` gets the lines
/// that say why a file, a text or its events failed, and which events had no effect; the function
/// doesn't write them.
///
/// # Errors
///
/// A write failed.
pub fn run<R: Threads + Wait + Sync, S: Sources + Sinks, W: Write, E: Write>(
    rt: &R,
    alloc: Global,
    sources: &mut S,
    words: &[&str],
    out: &mut W,
    err: &mut E,
    remarks: &mut Remarks,
) -> Status
    ensures { IfOk result (def.Ends (map (λ w. w.now) words.now) (S.held sources.old)
        (same_file (S.same sources.old) (S.said_yes sources.old) (S.said_yes sources.new))
        (S.offered sources.old)
        (def.both_streams (W.contents out.old) (W.contents out.new)
        (E.contents err.old) (E.contents err.new))) }
{
    match line(alloc, words) {
        Ok(wanted) => on_line(rt, sources, wanted, out, remarks),
        Err(error) => on_error(error, out, err),
    }
}

/// Does what the words ask for, if they could be read. A word that is no text is a usage fault.
///
/// # Errors
///
/// A write failed.
pub fn run_words<R: Threads + Wait + Sync, S: Sources + Sinks, W: Write, E: Write>(
    rt: &R,
    alloc: Global,
    sources: &mut S,
    words: &Result<Vec<String>, WordsError>,
    out: &mut W,
    err: &mut E,
    remarks: &mut Remarks,
) -> Status
    ensures { IfOk result (def.EndsFrom words.now (S.held sources.old)
        (same_file (S.same sources.old) (S.said_yes sources.old) (S.said_yes sources.new))
        (S.offered sources.old)
        (def.both_streams (W.contents out.old) (W.contents out.new)
        (E.contents err.old) (E.contents err.new))) }
{
    match words {
        Ok(words) => match borrowed(alloc, words.as_slice()) {
            Ok(texts) => run(rt, alloc, sources, texts.as_slice(), out, err, remarks),
            Err(_) => failed(TakeError::Memory, out),
        },
        Err(WordsError::Memory) => failed(TakeError::Memory, out),
        Err(WordsError::NotText) => written(err, NOT_TEXT, 2),
    }
}

/// A message for a person who may not know that the program waits.
const WAITS: &[u8] =
    b"sts: waits for a text, a line % and a trace on standard input; --help lists the commands\n";

/// Does what the words ask for with the files of the process, and gives the status; a stream that
/// fails is status 6.
fn watched<R: Files + Input + Threads + Wait + Sync, W: Write, E: Write>(
    rt: &R,
    words: &Result<Vec<String>, WordsError>,
    out: &mut W,
    err: &mut E,
    remarks: &mut Remarks,
) -> u8 {
    let mut files = Host::new(rt);
    let mut out = Watched::new(out);
    let alloc = remarks.alloc;
    let status = run_words(rt, alloc, &mut files, words, &mut out, err, remarks);
    if status.is_err() {
        remarks.unwritten(out.failure());
    }
    status.unwrap_or(STATUS_OUTSIDE)
}

/// Does what the process was asked for, and gives the status; a stream that fails is status 6.
///
/// `at_terminal` says whether a person types the input.
pub fn start<R: Env + Files + Input + Threads + Wait + Sync, W: Write, E: Write>(
    rt: &R,
    alloc: Global,
    at_terminal: bool,
    out: &mut W,
    err: &mut E,
) -> u8 {
    let _for_input = placeholder(rt);
    let _for_output = placeholder(rt);
    let _for_errors = placeholder(rt);
    let words = words(rt, alloc, NAME.as_bytes());
    let mut remarks = Remarks::new(alloc, NAME);
    // (if the message can't be written, output and status are the same)
    if at_terminal && words.as_ref().is_ok_and(|words| words.len() == 1) {
        let _told = err.write_all(WAITS);
    }
    let status = watched(rt, &words, out, err, &mut remarks);
    remarks.write(err);
    status
}
