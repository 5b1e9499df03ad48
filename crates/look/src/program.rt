//! The program `look`, except its `main`: opens the files that a command line names, and writes the
//! output.

ghost use Rattle.std.specs.Prelude.{IfOk, map, ⊤};
ghost use Rattle.sts_output.specs.Output.{Output, Writes};
ghost use Rattle.sts_output.specs.Streams.{same_file};
ghost use Rattle.look_cases.specs.Lines.{IsRepliesTo};
ghost use Rattle.look_shows.specs.Showing.{IsExplainedIn, ShowsInFull};
ghost use Rattle.look.specs.Ending as def;

use crate::ends::{listed_by, write_ends_by};
use crate::piped::{on_piped, piped_of};
use look_args::asked::{Asked, AskedEnds, ExplainForm};
use look_args::line;
use look_cases::write_answers;
use look_ends::{Listing, write_listing};
use look_host::{Dashed, Progress};
use look_picture::FileNames;
use look_shows::{Showing, explain_in, show_in_full};
use std::alloc::Global;
use std::io::{Input, Write};
use std::rt::{Env, Files};
use sts_args::LineError;
use sts_output::{
    Assembled, Events, FileError, MOST_OF_A_STREAM, NOT_TEXT, Named, Notes, STATUS_OUTSIDE, Sinks,
    Sources, Status, TakeError, WordsError, borrowed, failed, file, file_failed, made, placeholder,
    read_text, read_texts, spared, words, written,
};
use sts_remarks::{Remarks, Watched};

/// The name that the program goes by.
const NAME: &str = "look";

/// Writes what is shown for two files.
fn on_texts<S: Sources, W: Write>(
    alloc: Global,
    sources: &S,
    showing: Showing<'_>,
    path: &str,
    trace: &str,
    out: &mut W,
    remarks: &mut Remarks,
) -> Status
    ensures { IfOk result (λ s. (o : Output)
        × def.IsOfTexts (ShowsInFull showing.entry) (S.held sources.now path.now)
        (S.held sources.now trace.now) o
        × Writes (W.contents out.old) (W.contents out.new) s o) }
{
    match read_texts(alloc, sources, path, Some(trace)) {
        Ok(texts) => {
            let (text, events) = (texts.program.as_slice(), texts.events.as_slice());
            let mut assembled = Assembled::Nothing;
            let status = show_in_full(alloc, showing, text, events, out, &mut assembled)?;
            showing.remark(
                status,
                Named::new(path, text),
                Named::new(trace, events),
                &assembled,
                remarks,
            );
            Ok(status)
        }
        Err(error) => file_failed(error, out, &mut remarks.notes),
    }
}

/// Explains what is wrong with a text.
fn on_text<S: Sources, W: Write>(
    alloc: Global,
    sources: &S,
    path: &str,
    form: ExplainForm,
    out: &mut W,
    notes: &mut Notes,
) -> Status
    ensures { IfOk result (λ s. (o : Output)
        × def.IsOfText (IsExplainedIn form path.now) (S.held sources.now path.now) o
        × Writes (W.contents out.old) (W.contents out.new) s o) }
{
    match read_text(alloc, sources, path) {
        Ok(text) => explain_in(alloc, form, path, text.as_slice(), out),
        Err(error) => file_failed(error, out, notes),
    }
}

/// The answers to the cases of a file.
fn on_cases<S: Sources, W: Write>(
    alloc: Global,
    sources: &S,
    path: &str,
    out: &mut W,
    notes: &mut Notes,
) -> Status
    ensures { IfOk result (λ s. (o : Output)
        × def.IsOfStream IsRepliesTo (S.held sources.now path.now) o
        × Writes (W.contents out.old) (W.contents out.new) s o) }
{
    match file(alloc, sources, path, MOST_OF_A_STREAM) {
        Ok(input) => write_answers(alloc, input.as_slice(), out),
        Err(error) => file_failed(FileError::unread(path, &error), out, notes),
    }
}

/// What is wrong with a text, or the state of its run after a trace, if one is named.
fn on_explain<S: Sources, W: Write>(
    alloc: Global,
    sources: &S,
    path: &str,
    trace: Option<&str>,
    form: ExplainForm,
    out: &mut W,
    remarks: &mut Remarks,
) -> Status
    ensures { IfOk result (λ s. (o : Output)
        × def.IsExplained (S.held sources.now) path.now trace.entry form o
        × Writes (W.contents out.old) (W.contents out.new) s o) }
{
    match trace {
        None => on_text(alloc, sources, path, form, out, &mut remarks.notes),
        Some(trace) => on_texts(alloc, sources, Showing::Run, path, trace, out, remarks),
    }
}

/// Writes what was found of the ends of a text, and the trace of one of them.
fn on_kept<T: Write, W: Write>(
    listing: &Listing,
    file: &str,
    trace: &mut T,
    out: &mut W,
    notes: &mut Notes,
) -> Status
    ensures { IfOk result (λ s. (o : Output) × def.IsWritten listing.now ⊤ o
        × Writes (W.contents out.old) (W.contents out.new) s o) }
{
    let mut failure = None;
    let status = write_listing(listing, trace, out, &mut failure)?;
    notes.written(file, failure);
    Ok(status)
}

/// Writes what was found of the ends of a text. If one has the number that was asked for, its trace
/// is written to the file; if none has, no file is made.
fn on_listing<S: Sinks, W: Write>(
    alloc: Global,
    sinks: &mut S,
    path: &str,
    file: &str,
    listing: &Listing,
    out: &mut W,
    notes: &mut Notes,
) -> Status
    ensures { IfOk result (λ s. (o : Output)
        × def.IsWritten listing.now
        (def.SparesFile (same_file (S.same sinks.old) (S.said_yes sinks.old) (S.said_yes sinks.new))
        path.now file.now) o
        × Writes (W.contents out.old) (W.contents out.new) s o) }
{
    if listing.trace.is_empty() {
        match spared(sinks, file, path, None) {
            Ok(()) => on_kept(listing, file, &mut Vec::new(alloc), out, notes),
            Err(error) => file_failed(error, out, notes),
        }
    } else {
        match made(alloc, sinks, file, path, None) {
            Ok(mut trace) => on_kept(listing, file, &mut trace, out, notes),
            Err(error) => file_failed(error, out, notes),
        }
    }
}

/// The ends of a text that was read. If a trace is kept, its file is made once the ends are found.
fn on_ends_text<S: Sinks, P: Progress, W: Write>(
    alloc: Global,
    sinks: &mut S,
    path: &str,
    text: &[u8],
    ends: AskedEnds<'_>,
    progress: &mut P,
    out: &mut W,
    notes: &mut Notes,
) -> Status
    ensures { IfOk result (λ s. (o : Output)
        × def.IsPrinted ends.entry (def.Spares
        (same_file (S.same sinks.old) (S.said_yes sinks.old) (S.said_yes sinks.new))
        path.now ends.entry.kept) text.now o
        × Writes (W.contents out.old) (W.contents out.new) s o) }
{
    match ends.kept {
        None => write_ends_by(alloc, ends.json, ends.wanted, text, progress, out),
        Some(kept) => {
            let number = Some(kept.number);
            match listed_by(alloc, ends.json, ends.wanted, number, text, progress) {
                Ok(listing) => on_listing(alloc, sinks, path, kept.file, &listing, out, notes),
                Err(_) => failed(TakeError::Memory, out),
            }
        }
    }
}

/// The ends of a text.
fn on_ends<S: Sources + Sinks, P: Progress, W: Write>(
    alloc: Global,
    sources: &mut S,
    path: &str,
    ends: AskedEnds<'_>,
    progress: &mut P,
    out: &mut W,
    notes: &mut Notes,
) -> Status
    ensures { IfOk result (λ s. (o : Output)
        × def.IsOfEnds ends.entry (def.Spares
        (same_file (S.same sources.old) (S.said_yes sources.old) (S.said_yes sources.new))
        path.now ends.entry.kept) (S.held sources.old path.now) o
        × Writes (W.contents out.old) (W.contents out.new) s o) }
{
    match read_text(alloc, &*sources, path) {
        Ok(text) => on_ends_text(
            alloc,
            sources,
            path,
            text.as_slice(),
            ends,
            progress,
            out,
            notes,
        ),
        Err(error) => file_failed(error, out, notes),
    }
}

/// Does what a line asks for.
fn on_line<S: Sources + Sinks, P: Progress, W: Write>(
    alloc: Global,
    sources: &mut S,
    asked: Asked<'_>,
    progress: &mut P,
    out: &mut W,
    remarks: &mut Remarks,
) -> Status
    ensures { IfOk result (λ s. (o : Output)
        × def.IsShown asked.entry (S.held sources.old)
        (same_file (S.same sources.old) (S.said_yes sources.old) (S.said_yes sources.new)) o
        × Writes (W.contents out.old) (W.contents out.new) s o) }
{
    let notes = &mut remarks.notes;
    match asked {
        Asked::View { file, trace, view } => on_texts(
            alloc,
            &*sources,
            Showing::View(view),
            file,
            trace,
            out,
            remarks,
        ),
        Asked::Explain { file, trace, form } => {
            on_explain(alloc, &*sources, file, trace, form, out, remarks)
        }
        Asked::Draw {
            file,
            trace,
            draw: options,
        } => on_texts(
            alloc,
            &*sources,
            Showing::Picture {
                options,
                files: FileNames { text: file, trace },
            },
            file,
            trace,
            out,
            remarks,
        ),
        Asked::Tell { file, trace, tell } => on_texts(
            alloc,
            &*sources,
            Showing::Story(tell),
            file,
            trace,
            out,
            remarks,
        ),
        Asked::Ends { file, ends } => on_ends(alloc, sources, file, ends, progress, out, notes),
        Asked::Cases { file } => on_cases(alloc, &*sources, file, out, notes),
    }
}

/// Does what a command line asks for, and returns the status. The first word is the program's name.
///
/// The status is 0 if the text is accepted, the root succeeded, or help or the version was asked
/// for. It is 1 if the root failed, 2 for usage, 3 for a fault of a text, 4 for a refusal, and 5 if
/// the run faulted or goes on. It is 6 if memory, a file or a stream failed.
///
/// Usage faults are written to `err`, everything else to `out`. `remarks` gets the lines that say
/// why a file, a text or its events failed, and which event had no effect; the function doesn't write
/// them.
///
/// # Errors
///
/// A write failed.
pub fn run<S: Sources + Sinks, P: Progress, W: Write, E: Write>(
    alloc: Global,
    sources: &mut S,
    words: &[&str],
    progress: &mut P,
    out: &mut W,
    err: &mut E,
    remarks: &mut Remarks,
) -> Status
    ensures { IfOk result (def.Ends (map (λ w. w.now) words.now) (S.held sources.old)
        (same_file (S.same sources.old) (S.said_yes sources.old) (S.said_yes sources.new))
        (record {
          out_old = W.contents out.old;
          out_new = W.contents out.new;
          err_old = E.contents err.old;
          err_new = E.contents err.new;
        })) }
{
    match line(alloc, words) {
        Ok(asked) => match piped_of(asked) {
            Some(piped) => {
                let notes = &mut remarks.notes;
                on_piped(alloc, &*sources, piped, progress, out, err, notes)
            }
            None => on_line(alloc, sources, asked, progress, out, remarks),
        },
        Err(LineError::Memory) => failed(TakeError::Memory, out),
        Err(LineError::Help(text)) => written(out, text.as_bytes(), 0),
        Err(LineError::Usage(text)) => written(err, text.as_bytes(), 2),
    }
}

/// Does what the words ask for, if they could be read. A word that is no text is a usage fault.
///
/// # Errors
///
/// A write failed.
pub fn run_words<S: Sources + Sinks, P: Progress, W: Write, E: Write>(
    alloc: Global,
    sources: &mut S,
    words: &Result<Vec<String>, WordsError>,
    progress: &mut P,
    out: &mut W,
    err: &mut E,
    remarks: &mut Remarks,
) -> Status
    ensures { IfOk result (def.EndsFrom words.now (S.held sources.old)
        (same_file (S.same sources.old) (S.said_yes sources.old) (S.said_yes sources.new))
        (record {
          out_old = W.contents out.old;
          out_new = W.contents out.new;
          err_old = E.contents err.old;
          err_new = E.contents err.new;
        })) }
{
    match words {
        Ok(words) => match borrowed(alloc, words.as_slice()) {
            Ok(texts) => run(
                alloc,
                sources,
                texts.as_slice(),
                progress,
                out,
                err,
                remarks,
            ),
            Err(_) => failed(TakeError::Memory, out),
        },
        Err(WordsError::Memory) => failed(TakeError::Memory, out),
        Err(WordsError::NotText) => written(err, NOT_TEXT, 2),
    }
}

/// Does what the process was asked for, and gives the status; a stream that fails is status 6.
pub fn start<R: Env + Files + Input, P: Progress, W: Write, E: Write>(
    rt: &R,
    alloc: Global,
    progress: &mut P,
    out: &mut W,
    err: &mut E,
) -> u8 {
    let _for_input = placeholder(rt);
    let _for_output = placeholder(rt);
    let _for_errors = placeholder(rt);
    let words = words(rt, alloc, NAME.as_bytes());
    let mut remarks = Remarks::new(alloc, NAME);
    let mut sources = Dashed::new(rt);
    let mut out = Watched::new(out);
    let status = run_words(
        alloc,
        &mut sources,
        &words,
        progress,
        &mut out,
        err,
        &mut remarks,
    );
    if status.is_err() {
        remarks.unwritten(out.failure());
    }
    // (the output and the status are the same if no line can be written)
    remarks.write(err);
    status.unwrap_or(STATUS_OUTSIDE)
}
