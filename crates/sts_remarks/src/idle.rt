//! The line about the first event of a trace that did nothing.

ghost use Rattle.std.specs.Prelude.{◌≡◌, ◌++◌, IfOk, OnOk, option_map};
ghost use Rattle.std.specs.String.{string_bytes};
ghost use Rattle.sts_model.specs.Run as run;
ghost use Rattle.sts_model.specs.World.{Running, opening};
ghost use Rattle.sts_trace.specs.Spelling as spelling;
ghost use Rattle.sts_remarks.specs.Idle as def;

use std::alloc::{AllocError, Global};
use std::fmt::Write;
use sts_code::Program;
use sts_model::Event;
use sts_output::printed;
use sts_plain::{Position, can_step};
use sts_world::{Records, World};

fn has_task(records: &Records, t: u32) -> bool
    ensures { result ≡ def.has_task records.now t }
{
    (t as usize) < records.tasks_born()
}

fn has_scope(records: &Records, s: u32) -> bool
    ensures { result ≡ def.has_scope records.now s }
{
    (s as usize) < records.scopes_born()
}

fn say_task(out: &mut String, records: &Records, t: u32) -> Result<(), AllocError>
    ensures { OnOk result (string_bytes out.new
        ≡ string_bytes out.old ++ def.task_reason records.now t) }
{
    if has_task(records, t) {
        let words = printed::rest_words(records.lives(t), records.has_started(t));
        write!(out, "task {t}{words} then")
    } else {
        write!(out, "there is no task {t} then")
    }
}

/// Appends why an event does nothing.
fn say_reason(out: &mut String, records: &Records, event: Event) -> Result<(), AllocError>
    ensures { OnOk result (string_bytes out.new
        ≡ string_bytes out.old ++ def.reason records.now event) }
{
    match event {
        Event::Step(t) | Event::Interrupt(t) => say_task(out, records, t),
        Event::Expire(s) if has_scope(records, s) => write!(out, "scope {s} can't expire then"),
        Event::Expire(s) => write!(out, "there is no scope {s} then"),
    }
}

/// Appends an event as a trace spells it.
fn say_event(out: &mut String, event: Event) -> Result<(), AllocError>
    ensures { OnOk result (string_bytes out.new
        ≡ string_bytes out.old ++ spelling.event_text event) }
{
    match event {
        Event::Step(t) => write!(out, "step {t}"),
        Event::Interrupt(t) => write!(out, "interrupt {t}"),
        Event::Expire(s) => write!(out, "expire {s}"),
    }
}

/// Returns which event did nothing, and why.
fn idle_words(
    alloc: Global,
    unit: &str,
    number: usize,
    records: &Records,
    event: Event,
) -> Result<String, AllocError>
    ensures { IfOk result (λ words. string_bytes words
        ≡ def.idle_words unit.now number records.now event) }
{
    let mut words = String::new(alloc);
    write!(words, ", {unit} {number}: \"")?;
    say_event(&mut words, event)?;
    words.push_str("\" did nothing, since ")?;
    say_reason(&mut words, records, event)?;
    Ok(words)
}

/// Does the event count in this world?
fn counts(world: &World, program: &Program, event: Event) -> bool
    ensures { result ≡ run.counts program.now (Running world.now) event }
{
    match event {
        Event::Step(t) => can_step(world, program, t),
        Event::Interrupt(t) => world.records().lives(t),
        Event::Expire(s) => world.records().can_expire(s),
    }
}

/// Returns which of these events is the first that does nothing after a position, and why.
fn first_idle_after(
    alloc: Global,
    unit: &str,
    program: &Program,
    position: &mut Position,
    events: &[Event],
) -> Result<Option<String>, AllocError>
    ensures { IfOk result (λ r. option_map string_bytes r
        ≡ def.first_idle unit.now program.now position.old 1 events.now) }
{
    for i in 0..events.len() {
        let Some(world) = position.world() else {
            return Ok(None);
        };
        if !counts(world, program, events[i]) {
            let words = idle_words(alloc, unit, i + 1, world.records(), events[i])?;
            return Ok(Some(words));
        }
        position.apply(alloc, program, events[i])?;
    }
    Ok(None)
}

/// Returns which of these events is the first that did nothing, and why.
fn first_idle(
    alloc: Global,
    unit: &str,
    program: &Program,
    events: &[Event],
) -> Result<Option<String>, AllocError>
    ensures { IfOk result (λ r. option_map string_bytes r
        ≡ def.first_idle unit.now program.now (opening program.now) 1 events.now) }
{
    let mut position = Position::opening(alloc, program)?;
    first_idle_after(alloc, unit, program, &mut position, events)
}

/// Returns a line about a trace; the words follow the name of the trace.
fn line_about<'a>(
    alloc: Global,
    name: &'a str,
    trace: &'a str,
    words: &'a str,
) -> Result<Vec<u8>, AllocError>
    ensures { IfOk result (λ line. line.items ≡ def.line_about name.now trace.now words.now) }
{
    let parts = [name, ": ", trace, words, "\n"];
    Ok(parts.concat(alloc)?.into_bytes())
}

/// Returns the line about the first of these events that did nothing in a run of a program, or
/// `None` if there is none before a fault.
///
/// The line begins with the name of the program that reports it. `trace` is the name of the trace.
/// Events count from 1, and `unit` is the word before the number.
///
/// # Errors
///
/// Memory ran out.
pub fn idle_line(
    alloc: Global,
    name: &str,
    trace: &str,
    unit: &str,
    program: &Program,
    events: &[Event],
) -> Result<Option<Vec<u8>>, AllocError>
    ensures { IfOk result (λ r. option_map (λ line. line.items) r
        ≡ def.idle_line name.now trace.now unit.now program.now events.now) }
{
    match first_idle(alloc, unit, program, events)? {
        None => Ok(None),
        Some(words) => Ok(Some(line_about(alloc, name, trace, words.as_str())?)),
    }
}
