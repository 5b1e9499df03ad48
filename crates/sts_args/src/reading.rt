//! Reads a command line.

ghost use Rattle.std.specs.Prelude.{◌≡◌, ◌↔◌, ◌≤◌, ◌&&◌, Ok, IfOk, IfErr, map, option_map};
ghost use Rattle.std.specs.Prelude.{None, List, is_some, Some, codes, Bool, false, length, ◌∷◌, [], IfSome};
ghost use Rattle.clap.specs.Words.{Row, first_of, rows_of, found_of, kind_of, subcommand_rows_of};
ghost use Rattle.sts_args.specs.declared.asked.Line.TheVariants.{Joined};
ghost use Rattle.sts_args.specs.Asked.{Asks, HasWorkers, IsGiven, IsLineOf, asked, given, options};
ghost use Rattle.sts_args.specs.Asked.{options_at, takes_trace, workers_at, workers_written};
ghost use Rattle.sts_args.specs.Refused.{BlamesUnless, Refuses, TellsKind, is_whole};

use crate::asked;
use crate::asked::LineError;
use crate::program::program;
use clap::error::ErrorKind;
use clap::{ArgMatches, Error};
use std::alloc::{AllocError, Global};
use sts_text::digits_up_to;

/// As many workers as may be asked for.
const MOST_WORKERS: u32 = 16;

/// The message where `clap` found no command of the program with its files. It never comes.
pub const NO_COMMAND: &str = "a command is missing";

/// What follows the message about a trace that is missing.
const TRACE_HINT: &str =
    "`./look ends FILE --trace 1 TRACE` and `./sts run FILE --workers 2 --trace TRACE` write a trace.\n";

/// The words of an error. If they say that a trace is missing, where one comes from follows.
fn words_of(error: &Error, kind: ErrorKind, alloc: Global) -> Result<String, AllocError> {
    let mut words = error.to_string(alloc)?;
    if matches!(kind, ErrorKind::MissingRequiredArgument) && words.as_str().contains("<TRACE>") {
        words.push_str(TRACE_HINT)?;
    }
    Ok(words)
}

/// The message for an error of `clap`.
pub fn told(error: &Error, alloc: Global) -> LineError
    ensures { TellsKind (kind_of error.now) result }
{
    let kind = error.kind();
    if matches!(kind, ErrorKind::OutOfMemory) {
        return LineError::Memory;
    }
    match words_of(error, kind, alloc) {
        Err(_) => LineError::Memory,
        Ok(text) => {
            if matches!(kind, ErrorKind::DisplayHelp) {
                LineError::Help(text)
            } else {
                LineError::Usage(text)
            }
        }
    }
}

/// The request of the words of a command line. The first word is the program's own name.
///
/// # Errors
///
/// Memory ran out, help was asked for, or the words are mistaken: then the text says how.
pub fn line<'a>(alloc: Global, words: &'a [&'a str]) -> Result<asked::Line<'a>, LineError>
    ensures joined { (result ≡ Ok Joined) ↔ (length words.entry.now ≤ 1) }
    ensures asked { IfOk result (Asks (map (λ w. w.now) words.entry.now)) }
    ensures workers { IfOk result HasWorkers }
    ensures refused { IfErr result (Refuses (map (λ w. w.now) words.entry.now)) }
{
    if words.len() <= 1 {
        return Ok(asked::Line::Joined);
    }
    let command = program(alloc)?;
    match command.try_get_matches_from(words) {
        Err(error) => Err(told(&error, alloc)),
        Ok(matches) => chosen(alloc, &matches),
    }
}

/// The request of the command that `clap` found.
fn chosen<'a>(alloc: Global, matches: &ArgMatches<'a>) -> Result<asked::Line<'a>, LineError>
    ensures asked { IfOk result (IsLineOf (subcommand_rows_of matches.now)) }
    ensures workers { IfOk result HasWorkers }
    ensures lacks { IfErr result (BlamesUnless (is_whole (subcommand_rows_of matches.now))) }
{
    match matches.subcommand() {
        Some((name, inner)) => asked_of(alloc, name, inner),
        None => Err(usage(alloc, NO_COMMAND)),
    }
}

/// The message for a command line that is mistaken.
pub fn usage(alloc: Global, message: &str) -> LineError
    ensures { (whole : Bool) → whole ≡ false → BlamesUnless whole result }
{
    match message.to_string(alloc) {
        Ok(text) => LineError::Usage(text),
        Err(AllocError) => LineError::Memory,
    }
}

/// The text that the command was given under an id.
pub fn text_of<'a>(inner: &ArgMatches<'a>, id: &str) -> Option<&'a str>
    ensures { option_map (λ t. t.now) result ≡ first_of id.now (rows_of (found_of inner.now)) }
{
    inner.get_str(id)
}

/// The request of a command of this name.
fn asked_of<'a>(
    alloc: Global,
    name: &'a str,
    inner: &ArgMatches<'a>,
) -> Result<asked::Line<'a>, LineError>
    ensures asked { IfOk result (IsGiven (name.now, rows_of (found_of inner.now))) }
    ensures workers { IfOk result HasWorkers }
    ensures lacks { IfErr result (BlamesUnless
        (is_whole (Some (name.now, rows_of (found_of inner.now))))) }
{
    match request_of(name, inner) {
        Some(line) => Ok(line),
        None => Err(mistake(alloc, inner)),
    }
}

/// The request of a command of this name; nothing if it lacks a file, or a number of workers.
fn request_of<'a>(name: &'a str, inner: &ArgMatches<'a>) -> Option<asked::Line<'a>>
    ensures asked { IfSome result (IsGiven (name.now, rows_of (found_of inner.now))) }
    ensures workers { IfSome result HasWorkers }
    ensures lacks { result ≡ None
        → is_whole (Some (name.now, rows_of (found_of inner.now))) ≡ false }
{
    let file = text_of(inner, "FILE")?;
    if name == "verify" {
        Some(asked::Line::Verify { file })
    } else if name == "list" {
        Some(asked::Line::List { file })
    } else if name == "run" {
        run_of(file, inner)
    } else {
        with_trace(name, file, text_of(inner, "TRACE"))
    }
}

/// `plain` or `replay` of a text and a trace, if that is the name of the command and there is a trace.
fn with_trace<'a>(name: &'a str, file: &'a str, trace: Option<&'a str>) -> Option<asked::Line<'a>>
    ensures given { IfSome result (λ l. (rows : List Row)
        → first_of (codes "FILE") rows ≡ Some file.now
        → option_map (λ t. t.now) trace.entry ≡ first_of (codes "TRACE") rows
        → IsGiven (name.now, rows) l) }
    ensures workers { IfSome result HasWorkers }
    ensures lacks { result ≡ None → (takes_trace name.now && is_some trace.entry) ≡ false }
{
    let trace = trace?;
    if name == "plain" {
        Some(asked::Line::Plain { file, trace })
    } else if name == "replay" {
        Some(asked::Line::Replay { file, trace })
    } else {
        None
    }
}

/// `run` of a text, with the options that it was given; nothing without a number of workers.
fn run_of<'a>(file: &'a str, inner: &ArgMatches<'a>) -> Option<asked::Line<'a>>
    ensures files { IfSome result (λ l. asked l ≡ Some (codes "run", file.now ∷ [])) }
    ensures options { IfSome result (λ l. options l ≡ options_at (rows_of (found_of inner.now))) }
    ensures workers { IfSome result HasWorkers }
    ensures lacks { result ≡ None → is_some (workers_at (rows_of (found_of inner.now))) ≡ false }
{
    let workers = workers_written(text_of(inner, "workers")?)?;
    Some(asked::Line::Run {
        file,
        workers,
        outside: text_of(inner, "outside"),
        trace: text_of(inner, "trace"),
    })
}

/// The number of workers, from 1 to 16, that digits write.
fn workers_written(text: &str) -> Option<u32>
    ensures number { result ≡ workers_written text.now }
    ensures within { IfSome result (λ n. (1 ≤ n) × (n ≤ 16)) }
{
    match digits_up_to(text.as_bytes(), MOST_WORKERS) {
        Some(workers) if workers > 0 => Some(workers),
        _ => None,
    }
}

/// The message for a command that asks for nothing: it has a text that is no number of workers.
/// `clap` refuses a command without its files.
fn mistake(alloc: Global, inner: &ArgMatches<'_>) -> LineError
    ensures { (whole : Bool) → whole ≡ false → BlamesUnless whole result }
{
    match text_of(inner, "workers") {
        Some(text) => no_workers(alloc, text),
        None => usage(alloc, NO_COMMAND),
    }
}

/// The message for a text that is no number of workers.
fn no_workers(alloc: Global, text: &str) -> LineError
    ensures { (whole : Bool) → whole ≡ false → BlamesUnless whole result }
{
    let told = format!(in alloc;
        "error: invalid value '{text}' for '--workers <N>': expected a number from 1 to 16\n"
    );
    match told {
        Ok(told) => LineError::Usage(told),
        Err(_) => LineError::Memory,
    }
}
