//! A line of a story, as JSON.

ghost use Rattle.std.specs.Prelude.{◌≡◌, ◌++◌, IfOk, OnOk, option_copied, string_bytes};
ghost use Rattle.serde_json.specs.View.{view};
ghost use Rattle.sts_text.specs.Words.{lines};
ghost use Rattle.look_views.specs.Views as views;
ghost use Rattle.look_json.specs.Stories as def;

use look_cases::Made;
use look_lines::Said;
use look_views::{VERSION, event_string, push_made};
use serde_json::json;
use std::alloc::{AllocError, Global};
use std::str;
use sts_model::Event;
use sts_output::Output;
use sts_text::{cut_at, cut_at_newline, digits_up_to};

/// Bytes as a text. What `look` prints is one.
pub(crate) fn text_of(bytes: &[u8]) -> Result<&str, AllocError>
    ensures { IfOk result (λ t. t.now ≡ bytes.now) }
{
    match str::from_utf8(bytes) {
        Ok(text) => Ok(text),
        Err(_) => Err(AllocError),
    }
}

fn alone(alloc: Global, words: &[u8]) -> Made
    ensures { IfOk result (λ v. view v ≡ def.alone words.now) }
{
    let words = text_of(words)?;
    json!(in alloc; {"tells": words, "version": VERSION})
}

fn told_of(alloc: Global, n: u32, event: Event, words: &[u8]) -> Made
    ensures { IfOk result (λ v. view v ≡ def.told_of n event words.now) }
{
    let event = event_string(alloc, event)?;
    let words = text_of(words)?;
    json!(in alloc; {"after": n, "event": event, "tells": words, "version": VERSION})
}

/// The event of a number, the first one having number 1.
fn event_at(events: &[Event], n: u32) -> Option<&Event>
    ensures { option_copied result ≡ def.event_at events.now n }
{
    if n == 0 {
        None
    } else {
        events.get(n as usize - 1)
    }
}

fn told_by(alloc: Global, events: &[Event], n: u32, words: &[u8], line: &[u8]) -> Made
    ensures { IfOk result (λ v. view v
        ≡ def.told_by (def.event_at events.now n) n words.now line.now) }
{
    match event_at(events, n) {
        None => alone(alloc, line),
        Some(event) => told_of(alloc, n, *event, words),
    }
}

fn told(alloc: Global, events: &[Event], line: &[u8]) -> Made
    ensures { IfOk result (λ v. view v ≡ def.told events.now line.now) }
{
    let (number, words) = cut_at(line, b' ');
    match digits_up_to(number, u32::MAX) {
        None => alone(alloc, line),
        Some(n) => told_by(alloc, events, n, words, line),
    }
}

fn say_told(alloc: Global, out: &mut String, events: &[Event], line: &[u8]) -> Said
    ensures { OnOk result (string_bytes out.new
        ≡ string_bytes out.old ++ views.line (def.told events.now line.now)) }
{
    let value = told(alloc, events, line);
    push_made(alloc, out, value)
}

fn say_line(alloc: Global, out: &mut String, events: &[Event], line: &[u8]) -> Said
    ensures { OnOk result (string_bytes out.new
        ≡ string_bytes out.old ++ def.story_line events.now line.now) }
{
    if line.is_empty() {
        Ok(())
    } else {
        say_told(alloc, out, events, line)
    }
}

/// Appends the lines of a story, each as JSON.
fn say_lines(alloc: Global, out: &mut String, events: &[Event], story: &[u8]) -> Said
    ensures { OnOk result (string_bytes out.new
        ≡ string_bytes out.old ++ def.story_lines events.now (lines story.now)) }
{
    let mut rest = story;
    while let Some((line, after)) = cut_at_newline(rest) {
        say_line(alloc, out, events, line)?;
        rest = after;
    }
    say_line(alloc, out, events, rest)
}

/// Returns the lines of a story, each as JSON.
///
/// # Errors
///
/// Memory ran out.
pub(crate) fn said(alloc: Global, events: &[Event], story: &Output) -> Result<String, AllocError>
    ensures { IfOk result (λ s. string_bytes s ≡ def.story_lines events.now (lines story.now.bytes)) }
{
    let mut out = String::new(alloc);
    say_lines(alloc, &mut out, events, story.bytes.as_slice())?;
    Ok(out)
}
