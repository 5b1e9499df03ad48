//! Reads a command line.

ghost use Rattle.std.specs.Prelude.{◌≡◌, IfOk, IfErr, IfSome, map, option_map, Some, None, Bool, false};
ghost use Rattle.std.specs.Prelude.{is_some, codes};
ghost use Rattle.clap.specs.Words.{all_of, first_of, rows_of, found_of, kind_of, subcommand_rows_of};
ghost use Rattle.clap.specs.declared.error.kind.ErrorKind.TheVariants as kind;
ghost use Rattle.sts_args.specs.Refused.{BlamesUnless};
ghost use Rattle.look_args.specs.Asked.{Asks, IsGiven, IsLineOf, Refuses, TellsKind, is_set, is_whole};
ghost use Rattle.look_args.specs.Asked.{form_by, is_explain, takes_one, view_at, wanted_at};
ghost use Rattle.look_args.specs.AskedDraw.{draw_at, window_at};
ghost use Rattle.look_args.specs.AskedEnds.{calls_at, calls_or_manner_at, is_beside_calls};
ghost use Rattle.look_args.specs.AskedEnds.{ends_at, ends_wanted_at, kept_of, kept_words, manner_at};
ghost use Rattle.look_args.specs.AskedEnds.{limits_at, maybe_number, number_at, said_ends};
ghost use Rattle.look_args.specs.AskedTell.{tell_at, tell_wanted_at};

use crate::asked::{
    Asked, AskedEnds, AskedTell, AskedView, ExplainForm, FIRST_EVENT, FIRST_SEED, Kept, LAST_EVENT,
};
use crate::command::program;
use crate::window::window_of;
use clap::error::ErrorKind;
use clap::{ArgMatches, Error};
use look_options::{DrawOptions, EndsOptions, Limits, Manner, TellOptions, ViewOptions, Window};
use std::alloc::{AllocError, Global};
use sts_args::{LineError, NO_COMMAND, text_of, told, usage};
use sts_text::digits_up_to;

/// The error for an option whose value is no number.
const NO_NUMBER: &str =
    "error: N, S and K of `ends` are numbers from 0 to 4294967295, and K comes first in `--trace K TRACE`\n\nFor more information, try '--help'.\n";

/// The error for an option that `--calls` doesn't go with.
const BESIDE_CALLS: &str =
    "error: `ends --calls` goes without `--sample`, `--seed` and `--seconds`\n\nFor more information, try '--help'.\n";

/// The error for a window that isn't written as one.
const NO_WINDOW: &str =
    "error: `--events` takes A..B, from line A to line B of the trace: numbers from 1 to 4294967295, B not below A\n\nFor more information, try '--help'.\n";

/// The error for an event of `tell` that is no number.
const NO_EVENT: &str =
    "error: FROM and TO of `tell` are numbers of events, from 0 to 4294967295\n\nFor more information, try '--help'.\n";

/// The error for a trace where none is expected.
const NO_TRACE: &str =
    "error: `explain` takes one of TRACE, `--lines` and `--json`\n\nFor more information, try '--help'.\n";

/// The words of the version, which were asked for.
fn version(error: &Error, alloc: Global) -> LineError
    requires { kind_of error.now ≡ kind.DisplayVersion }
    ensures { TellsKind (kind_of error.now) result }
{
    match error.to_string(alloc) {
        Ok(text) => LineError::Help(text),
        Err(_) => LineError::Memory,
    }
}

/// The message for an error of `clap`.
fn message(error: &Error, alloc: Global) -> LineError
    ensures { TellsKind (kind_of error.now) result }
{
    let kind = error.kind();
    if matches!(kind, ErrorKind::DisplayVersion) {
        version(error, alloc)
    } else {
        told(error, alloc)
    }
}

/// The request of the words of a command line. The first word is the program's own name.
///
/// # Errors
///
/// Memory ran out, help or the version was asked for, or the words are mistaken: then the text says
/// how.
pub fn line<'a>(alloc: Global, words: &'a [&'a str]) -> Result<Asked<'a>, LineError>
    ensures asked { IfOk result (Asks (map (λ w. w.now) words.entry.now)) }
    ensures refused { IfErr result (Refuses (map (λ w. w.now) words.entry.now)) }
{
    let command = program(alloc)?;
    match command.try_get_matches_from(words) {
        Err(error) => Err(message(&error, alloc)),
        Ok(matches) => chosen(alloc, &matches),
    }
}

/// The request of the command that `clap` found.
fn chosen<'a>(alloc: Global, matches: &ArgMatches<'a>) -> Result<Asked<'a>, LineError>
    ensures asked { IfOk result (IsLineOf (subcommand_rows_of matches.now)) }
    ensures lacks { IfErr result (BlamesUnless (is_whole (subcommand_rows_of matches.now))) }
{
    match matches.subcommand() {
        Some((name, inner)) => asked_of(alloc, name, inner),
        None => Err(usage(alloc, NO_COMMAND)),
    }
}

/// The request of a command of this name.
fn asked_of<'a>(
    alloc: Global,
    name: &'a str,
    inner: &ArgMatches<'a>,
) -> Result<Asked<'a>, LineError>
    ensures asked { IfOk result (IsGiven (name.now, rows_of (found_of inner.now))) }
    ensures lacks { IfErr result (BlamesUnless
        (is_whole (Some (name.now, rows_of (found_of inner.now))))) }
{
    match request_of(name, inner) {
        Some(asked) => Ok(asked),
        None => Err(mistake(alloc, name, inner)),
    }
}

/// The request of a command of this name; nothing if its options ask for nothing.
fn request_of<'a>(name: &'a str, inner: &ArgMatches<'a>) -> Option<Asked<'a>>
    ensures asked { IfSome result (IsGiven (name.now, rows_of (found_of inner.now))) }
    ensures lacks { result ≡ None
        → is_whole (Some (name.now, rows_of (found_of inner.now))) ≡ false }
{
    let file = text_of(inner, "FILE")?;
    if name == "cases" {
        Some(Asked::Cases { file })
    } else if name == "ends" {
        let ends = asked_ends(inner)?;
        Some(Asked::Ends { file, ends })
    } else if name == "explain" {
        let trace = text_of(inner, "TRACE");
        let form = asked_form(inner, trace)?;
        Some(Asked::Explain { file, trace, form })
    } else {
        with_trace(name, file, inner)
    }
}

/// The request of a command on a text and a trace.
fn with_trace<'a>(name: &'a str, file: &'a str, inner: &ArgMatches<'a>) -> Option<Asked<'a>>
    requires file { first_of (codes "FILE") (rows_of (found_of inner.now)) ≡ Some file.now }
    requires one { takes_one name.now ≡ false }
    requires explain { is_explain name.now ≡ false }
    ensures asked { IfSome result (IsGiven (name.now, rows_of (found_of inner.now))) }
    ensures lacks { result ≡ None
        → is_whole (Some (name.now, rows_of (found_of inner.now))) ≡ false }
{
    let trace = text_of(inner, "TRACE")?;
    if name == "view" {
        let view = view_of(inner);
        Some(Asked::View { file, trace, view })
    } else if name == "draw" {
        let draw = asked_draw(inner)?;
        Some(Asked::Draw { file, trace, draw })
    } else if name == "tell" {
        let tell = asked_tell(inner)?;
        Some(Asked::Tell { file, trace, tell })
    } else {
        None
    }
}

/// The error for a command whose options ask for nothing.
fn mistake(alloc: Global, name: &str, inner: &ArgMatches<'_>) -> LineError
    ensures { (whole : Bool) → whole ≡ false → BlamesUnless whole result }
{
    if name == "ends" {
        usage(alloc, ends_fault(inner))
    } else if name == "explain" {
        usage(alloc, NO_TRACE)
    } else if name == "draw" {
        usage(alloc, NO_WINDOW)
    } else if name == "tell" {
        usage(alloc, NO_EVENT)
    } else {
        usage(alloc, NO_COMMAND)
    }
}

/// Is this option given? It takes no value.
fn is_set(inner: &ArgMatches<'_>, id: &str) -> bool
    ensures { result ≡ is_set id.now (rows_of (found_of inner.now)) }
{
    match text_of(inner, id) {
        Some(text) => text == "true",
        None => false,
    }
}

/// The form of an explanation; nothing if more than one of a trace, `lines` and `json` is given.
fn asked_form(inner: &ArgMatches<'_>, trace: Option<&str>) -> Option<ExplainForm>
    ensures { result ≡ form_by (is_some trace.entry) (is_set (codes "lines") (rows_of (found_of inner.now)))
        (is_set (codes "json") (rows_of (found_of inner.now))) }
{
    match (
        trace.is_some(),
        is_set(inner, "lines"),
        is_set(inner, "json"),
    ) {
        (_, false, false) => Some(ExplainForm::Words),
        (false, true, false) => Some(ExplainForm::Places),
        (false, false, true) => Some(ExplainForm::Json),
        _ => None,
    }
}

/// Which views are asked for.
fn wanted_of(inner: &ArgMatches<'_>) -> ViewOptions
    ensures { result ≡ wanted_at (rows_of (found_of inner.now)) }
{
    ViewOptions {
        each: is_set(inner, "each"),
        full: is_set(inner, "full"),
        living: is_set(inner, "living"),
    }
}

/// The options of a view.
fn view_of(inner: &ArgMatches<'_>) -> AskedView
    ensures { result ≡ view_at (rows_of (found_of inner.now)) }
{
    AskedView {
        wanted: wanted_of(inner),
        json: is_set(inner, "json"),
    }
}

/// The events that `draw` is asked for, if any are; nothing if they aren't written as `A..B`.
fn asked_window(inner: &ArgMatches<'_>) -> Option<Option<Window>>
    ensures { result ≡ window_at (rows_of (found_of inner.now)) }
{
    match text_of(inner, "events") {
        None => Some(None),
        Some(text) => Some(Some(window_of(text.as_bytes())?)),
    }
}

/// What `draw` is asked for; nothing if the events aren't written as `A..B`.
fn asked_draw(inner: &ArgMatches<'_>) -> Option<DrawOptions>
    ensures { result ≡ draw_at (rows_of (found_of inner.now)) }
{
    let window = asked_window(inner)?;
    Some(DrawOptions {
        window,
        brief: is_set(inner, "brief"),
    })
}

/// The number that an option is given, or another one if the option isn't given.
fn number_of(inner: &ArgMatches<'_>, id: &str, otherwise: u32) -> Option<u32>
    ensures { result ≡ number_at id.now otherwise (rows_of (found_of inner.now)) }
{
    match text_of(inner, id) {
        None => Some(otherwise),
        Some(text) => digits_up_to(text.as_bytes(), u32::MAX),
    }
}

/// Which events `tell` tells; nothing if an event has no number.
fn tell_wanted(inner: &ArgMatches<'_>) -> Option<TellOptions>
    ensures { result ≡ tell_wanted_at (rows_of (found_of inner.now)) }
{
    let first = number_of(inner, "FROM", FIRST_EVENT)?;
    let last = number_of(inner, "TO", LAST_EVENT)?;
    Some(TellOptions {
        each: is_set(inner, "each"),
        strict: is_set(inner, "strict"),
        first,
        last,
    })
}

/// What `tell` is asked for; nothing if an event has no number.
fn asked_tell(inner: &ArgMatches<'_>) -> Option<AskedTell>
    ensures { result ≡ tell_at (rows_of (found_of inner.now)) }
{
    let wanted = tell_wanted(inner)?;
    let json = is_set(inner, "json");
    Some(AskedTell { wanted, json })
}

/// The number that an option is given, if the option is.
fn maybe_number_of(inner: &ArgMatches<'_>, id: &str) -> Option<Option<u32>>
    ensures { result ≡ maybe_number (first_of id.now (rows_of (found_of inner.now))) }
{
    match text_of(inner, id) {
        None => Some(None),
        Some(text) => Some(Some(digits_up_to(text.as_bytes(), u32::MAX)?)),
    }
}

/// When a search stops.
fn limits_of(inner: &ArgMatches<'_>) -> Option<Limits>
    ensures { result ≡ limits_at (rows_of (found_of inner.now)) }
{
    let states = maybe_number_of(inner, "most")?;
    let seconds = maybe_number_of(inner, "seconds")?;
    Some(Limits { states, seconds })
}

/// All schedules, or this number of random ones.
fn manner_of(inner: &ArgMatches<'_>) -> Option<Manner>
    ensures { result ≡ manner_at (rows_of (found_of inner.now)) }
{
    let limits = limits_of(inner)?;
    let seed = number_of(inner, "seed", FIRST_SEED)?;
    match text_of(inner, "sample") {
        None => Some(Manner::All { limits }),
        Some(text) => {
            let schedules = digits_up_to(text.as_bytes(), u32::MAX)?;
            Some(Manner::Sample { schedules, seed })
        }
    }
}

/// Is an option given that `--calls` doesn't go with?
fn is_beside_calls(inner: &ArgMatches<'_>) -> bool
    ensures { result ≡ is_beside_calls (rows_of (found_of inner.now)) }
{
    text_of(inner, "sample").is_some()
        || (text_of(inner, "seed").is_some() || text_of(inner, "seconds").is_some())
}

/// The calls; nothing if an option is given that they don't go with.
fn calls_of(inner: &ArgMatches<'_>) -> Option<Manner>
    ensures { result ≡ calls_at (rows_of (found_of inner.now)) }
{
    if is_beside_calls(inner) {
        return None;
    }
    let states = maybe_number_of(inner, "most")?;
    Some(Manner::Calls { states })
}

/// The calls if they are asked for, or the schedules.
fn calls_or_manner(inner: &ArgMatches<'_>) -> Option<Manner>
    ensures { result ≡ calls_or_manner_at (rows_of (found_of inner.now)) }
{
    if is_set(inner, "calls") {
        calls_of(inner)
    } else {
        manner_of(inner)
    }
}

/// Which events may come, and which schedules are tried.
fn ends_wanted(inner: &ArgMatches<'_>) -> Option<EndsOptions>
    ensures { result ≡ ends_wanted_at (rows_of (found_of inner.now)) }
{
    let interrupts = number_of(inner, "interrupts", 0)?;
    let manner = calls_or_manner(inner)?;
    Some(EndsOptions {
        expiries: !is_set(inner, "no-expiries"),
        interrupts,
        manner,
    })
}

/// The number and the file of `--trace`.
fn kept_of<'a>(words: &[&'a str]) -> Option<Kept<'a>>
    ensures { option_map kept_words result ≡ kept_of (map (λ w. w.now) words.now) }
{
    let number = digits_up_to(words.first()?.as_bytes(), u32::MAX)?;
    let file = words.get(1)?;
    Some(Kept { number, file })
}

/// The texts that the command was given under an id.
fn texts_of<'m, 'a>(inner: &'m ArgMatches<'a>, id: &str) -> Option<&'m [&'a str]>
    ensures { option_map (λ s. map (λ v. v.now) s.now) result
        ≡ all_of id.now (rows_of (found_of inner.now)) }
{
    inner.get_strs(id)
}

/// The error for options of `ends` that ask for nothing.
fn ends_fault(inner: &ArgMatches<'_>) -> &'static str {
    if is_set(inner, "calls") && is_beside_calls(inner) {
        BESIDE_CALLS
    } else {
        NO_NUMBER
    }
}

/// Reads the options of `ends`. Returns nothing if one has no number, or if `--calls` doesn't go
/// with it.
fn asked_ends<'a>(inner: &ArgMatches<'a>) -> Option<AskedEnds<'a>>
    ensures { option_map said_ends result ≡ ends_at (rows_of (found_of inner.now)) }
{
    let wanted = ends_wanted(inner)?;
    let kept = match texts_of(inner, "trace") {
        None => None,
        Some(words) => Some(kept_of(words)?),
    };
    let json = is_set(inner, "json");
    Some(AskedEnds { wanted, kept, json })
}
