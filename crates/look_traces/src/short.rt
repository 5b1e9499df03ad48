//! Traces in the short form.

ghost use Rattle.std.specs.Prelude.{◌≡◌, ◌++◌, ◌+◌, ◌-◌, [], IfOk, None, OnOk, Some, false, map};
ghost use Rattle.std.specs.Prelude.{nat_le, option_map, replicate, true};
ghost use Rattle.look_traces.specs.declared.part.TheConstants.{MOST_EVENTS};
ghost use Rattle.std.specs.List.{flat_map, range_with_len};
ghost use Rattle.sts_model.specs.declared.event.Event.TheVariants.{Step};
ghost use Rattle.sts_trace.specs.Spelling.{trace_text};
ghost use Rattle.sts_text.specs.Words.{words};
ghost use Rattle.look_traces.specs.Short as def;

use crate::part::{MOST_EVENTS, Part, part_of};
use std::alloc::{AllocError, Global};
use sts_model::Event;
use sts_text::{Words, cut_at_newline};
use sts_trace::write_trace;

/// Adds steps of a task.
fn add_steps(events: &mut Vec<Event>, task: u32, times: u32) -> Result<(), AllocError>
    ensures { OnOk result (events.new.items ≡ events.old.items ++ replicate times (Step task)) }
{
    for turn in 0..times {
        let _ = turn;
        events.push(Event::Step(task))?;
    }
    Ok(())
}

/// Adds steps of each task from a first to a last.
fn add_rows(events: &mut Vec<Event>, first: u32, last: u32, times: u32) -> Result<(), AllocError>
    ensures { OnOk result (events.new.items ≡ events.old.items
        ++ flat_map (λ t. replicate times (Step t)) (range_with_len first (last + 1 - first))) }
{
    for task in u64::from(first)..u64::from(last) + 1 {
        add_steps(events, task as u32, times)?;
    }
    Ok(())
}

/// Adds the events of a word.
fn add_part(events: &mut Vec<Event>, part: Part) -> Result<(), AllocError>
    ensures { OnOk result (events.new.items ≡ events.old.items ++ def.events_of part) }
{
    match part {
        Part::Steps(first, last, times) => add_rows(events, first, last, times),
        Part::Interrupt(t) => {
            events.push(Event::Interrupt(t))?;
            Ok(())
        }
        Part::Expire(s) => {
            events.push(Event::Expire(s))?;
            Ok(())
        }
    }
}

/// Returns all words of the lines of a text.
fn all_words<'t>(alloc: Global, text: &'t [u8]) -> Result<Vec<&'t [u8]>, AllocError>
    ensures { IfOk result (λ found. map (λ w. w.now) found.items ≡ def.all_words text.now) }
{
    let mut found = Vec::new(alloc);
    let mut rest = text;
    while let Some((line, after)) = cut_at_newline(rest) {
        add_words(&mut found, line)?;
        rest = after;
    }
    add_words(&mut found, rest)?;
    Ok(found)
}

/// Adds the words of a line.
fn add_words<'t>(found: &mut Vec<&'t [u8]>, line: &'t [u8]) -> Result<(), AllocError>
    ensures { OnOk result (map (λ w. w.now) found.new.items
        ≡ map (λ w. w.now) found.old.items ++ words line.now) }
{
    let mut left = Words::new(line);
    while let Some(word) = left.word() {
        found.push(word)?;
    }
    Ok(())
}

/// May a trace in the short form mean this number of events, and then that number?
fn fits(done: usize, size: u64) -> bool
    ensures { result ≡ nat_le (done + size) MOST_EVENTS }
{
    size <= u64::from(MOST_EVENTS) && done as u64 <= u64::from(MOST_EVENTS) - size
}

/// Adds the events of a word. Returns false if it is no word of the short form, or if there are too
/// many events then; the events are unchanged in that case.
fn add_word(events: &mut Vec<Event>, word: &[u8]) -> Result<bool, AllocError>
    ensures added { IfOk result (λ added. added ≡ true →
        def.with_word events.old.items word.now ≡ Some events.new.items) }
    ensures refused { IfOk result (λ added. added ≡ false →
        def.with_word events.old.items word.now ≡ None) }
{
    let Some(part) = part_of(word) else {
        return Ok(false);
    };
    if !fits(events.len(), part.size()) {
        return Ok(false);
    }
    add_part(events, part)?;
    Ok(true)
}

/// Returns the events that words mean, unless one is no word of the short form, or there are too
/// many events.
fn events_of(alloc: Global, found: &[&[u8]]) -> Result<Option<Vec<Event>>, AllocError>
    ensures { IfOk result (λ r. option_map (λ events. events.items) r
        ≡ def.events_from [] (map (λ w. w.now) found.now)) }
{
    let mut events = Vec::new(alloc);
    for word in found {
        if !add_word(&mut events, word)? {
            return Ok(None);
        }
    }
    Ok(Some(events))
}

/// Returns the events of a text in the short form.
fn short_read(alloc: Global, text: &[u8]) -> Result<Option<Vec<Event>>, AllocError>
    ensures { IfOk result (λ r. option_map (λ events. events.items) r ≡ def.short_read text.now) }
{
    let found = all_words(alloc, text)?;
    if found.is_empty() {
        return Ok(None);
    }
    events_of(alloc, found.as_slice())
}

fn written(alloc: Global, events: &[Event]) -> Result<Vec<u8>, AllocError>
    ensures { IfOk result (λ bytes. bytes.items ≡ trace_text events.now) }
{
    let mut bytes = Vec::new(alloc);
    match write_trace(events, &mut bytes) {
        Ok(()) => Ok(bytes),
        Err(_) => Err(AllocError),
    }
}

/// Returns a trace in the short form written in full, or nothing if it isn't in the short form.
///
/// # Errors
///
/// Memory ran out.
pub fn in_full(alloc: Global, text: &[u8]) -> Result<Option<Vec<u8>>, AllocError>
    ensures { IfOk result (λ r. option_map (λ bytes. bytes.items) r ≡ def.in_full text.now) }
{
    match short_read(alloc, text)? {
        None => Ok(None),
        Some(events) => Ok(Some(written(alloc, events.as_slice())?)),
    }
}
