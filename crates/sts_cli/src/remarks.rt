//! The lines on standard error about outside events that had no effect, or came late.

ghost use Rattle.std.specs.Prelude.{◌≡◌};

use std::alloc::AllocError;
use std::fmt::Write;
use sts_model::Event;
use sts_output::Named;
use sts_remarks::Remarks;
use sts_trace::{Due, read_outside};

/// What came of the outside events of a run: whether each that came counted, and how many entries
/// the journal had at the end.
#[derive(Drop)]
pub(crate) struct Came {
    counted: Vec<bool>,
    entries: u64,
}

impl Came {
    /// The events of a run that took `steps` steps.
    pub(crate) fn new(counted: Vec<bool>, steps: u64) -> Came {
        let entries = steps.saturating_add(counted.len() as u64);
        Came { counted, entries }
    }

    /// Returns why the event of line `index`, counted from 0, had no effect; `None` if it had one.
    fn lost(&self, index: usize, due: Due) -> Option<Lost> {
        match self.counted.as_slice().get(index).copied() {
            Some(true) => None,
            Some(false) => Some(Lost::Idle),
            None if u64::from(due.at) > self.entries => Some(Lost::Undue(self.entries)),
            None => Some(Lost::Held(self.counted.len() as u64)),
        }
    }
}

/// Why an outside event had no effect, or came late.
#[derive(Clone, Copy)]
enum Lost {
    /// It changed nothing when it came.
    Idle,
    /// It was not due at the end, when the journal had this many entries.
    Undue(u64),
    /// The event of this line, counted from 0, came before it and was not due at the end.
    Held(u64),
    /// It came, but the event of this line comes before it, and was due later.
    Late(Latest),
}

/// The event, of those so far, that is due last: its line, counted from 0, and when it is due.
#[derive(Clone, Copy)]
struct Latest {
    index: usize,
    at: u32,
}

impl Latest {
    /// Returns why an event that comes after it is late, if it is.
    fn holds(self, due: Due) -> Option<Lost> {
        if due.at < self.at {
            Some(Lost::Late(self))
        } else {
            None
        }
    }

    /// Returns the one of both that is due last.
    fn or(self, index: usize, due: Due) -> Latest {
        if due.at > self.at {
            Latest { index, at: due.at }
        } else {
            self
        }
    }
}

/// Appends an outside event as its line has it, without `at N`.
fn say_event(out: &mut String, event: Event) -> Result<(), AllocError> {
    match event {
        Event::Step(task) => write!(out, "step {task}"),
        Event::Interrupt(task) => write!(out, "interrupt {task}"),
        Event::Expire(scope) => write!(out, "expire {scope}"),
    }
}

/// Appends why an outside event did nothing when it came.
fn say_idle(out: &mut String, event: Event) -> Result<(), AllocError> {
    match event {
        Event::Step(task) => write!(out, "did nothing, since task {task} could not step then"),
        Event::Interrupt(task) => write!(out, "did nothing, since task {task} did not live then"),
        Event::Expire(scope) => write!(
            out,
            "did nothing, since scope {scope} could not expire then"
        ),
    }
}

/// Appends what an outside event did, and why.
fn say_reason(out: &mut String, event: Event, lost: Lost) -> Result<(), AllocError> {
    match lost {
        Lost::Idle => say_idle(out, event),
        Lost::Undue(entries) => {
            write!(
                out,
                "was never due, since the journal ended with {entries} events"
            )
        }
        Lost::Held(index) => {
            let number = index.saturating_add(1);
            write!(
                out,
                "never came, since line {number} comes first and was never due"
            )
        }
        Lost::Late(Latest { index, at }) => {
            let number = (index as u64).saturating_add(1);
            write!(
                out,
                "waited for line {number}, which comes first and is due at {at}"
            )
        }
    }
}

/// Appends the line about the event of line `index`, counted from 0.
fn say_line(
    out: &mut String,
    program: &str,
    name: &str,
    index: usize,
    due: Due,
    lost: Lost,
) -> Result<(), AllocError> {
    let number = (index as u64).saturating_add(1);
    let at = due.at;
    write!(out, "{program}: {name}, line {number}: \"at {at} ")?;
    say_event(out, due.event)?;
    out.push_str("\" ")?;
    say_reason(out, due.event, lost)?;
    out.push_str("\n")
}

/// Adds the line about the event of line `index`, counted from 0, if there is memory for it.
fn remark_event(remarks: &mut Remarks, name: &str, index: usize, due: Due, lost: Lost)
    ensures { remarks.new.notes ≡ remarks.old.notes }
{
    let mut line = String::new(remarks.alloc);
    if say_line(&mut line, remarks.program, name, index, due, lost).is_ok() {
        remarks.add(line.as_bytes());
    }
}

/// Adds a line for each event of an outside text that had no effect in a run, or came late.
pub(crate) fn remark_outside(remarks: &mut Remarks, named: Named<'_>, came: &Came)
    ensures { remarks.new.notes ≡ remarks.old.notes }
{
    let Ok(dues) = read_outside(remarks.alloc, named.text) else {
        return;
    };
    let mut latest = Latest { index: 0, at: 0 };
    for (index, due) in dues.iter().enumerate() {
        if let Some(lost) = came.lost(index, *due).or(latest.holds(*due)) {
            remark_event(remarks, named.name, index, *due, lost);
        }
        latest = latest.or(index, *due);
    }
}
