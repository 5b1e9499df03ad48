//! The lines for standard error of one call.

ghost use Rattle.std.specs.Prelude.{◌≡◌, [], Some};
ghost use Rattle.sts_output.specs.Reasons.{Adds};

use crate::idle::idle_line;
use crate::watched::unwritten_line;
use std::alloc::Global;
use std::io::{ErrorKind, Write};
use sts_code::Program;
use sts_output::{Named, Notes};
use sts_trace::read_trace;

/// The status of a run that faulted, or that goes on.
const STATUS_NO_END: u8 = 5;

/// The bytes of a trace in which an event that did nothing is looked for.
const LOOKED_AT: usize = 64 * 1024;

/// Returns the whole lines among the bytes that are looked at.
fn beginning(trace: &[u8]) -> &[u8] {
    let first = &trace[..LOOKED_AT.min(trace.len())];
    match first.iter().rposition(|b| *b == b'\n') {
        Some(last) => &first[..last + 1],
        None => &[],
    }
}

/// Lines for standard error. A line for which there is no memory is left out.
#[derive(Drop)]
pub struct Remarks {
    pub alloc: Global,
    /// The name of the program.
    pub program: &'static str,
    /// Why something failed.
    pub notes: Notes,
    lines: Vec<u8>,
}

impl Remarks {
    /// Returns no lines, of a program of this name.
    pub fn new(alloc: Global, program: &'static str) -> Remarks
        ensures program { result.notes.program ≡ program.entry }
        ensures notes { result.notes.lines.items ≡ [] }
        ensures lines { result.lines.items ≡ [] }
    {
        Remarks {
            alloc,
            program,
            notes: Notes::new(alloc, program),
            lines: Vec::new(alloc),
        }
    }

    /// Returns the lines that are about no failure.
    pub fn lines(&self) -> &[u8]
        ensures { result.now ≡ self.now.lines.items }
    {
        self.lines.as_slice()
    }

    /// Adds a line, if there is memory for it.
    pub fn add(&mut self, line: &[u8])
        ensures notes { self.new.notes ≡ self.old.notes }
        ensures line { Adds self.old.lines.items self.new.lines.items (Some line.now) }
    {
        let _added = self.lines.extend_from_slice(line);
    }

    /// Adds which event of a trace is the first that did nothing, if a program ran the trace, and the
    /// run has no end. Only events among the first 64 KiB are looked at. Events count from 1, and
    /// `unit` is the word before the number.
    pub fn idle(&mut self, status: u8, unit: &str, program: Option<&Program>, trace: Named<'_>)
        ensures notes { self.new.notes ≡ self.old.notes }
    {
        if status != STATUS_NO_END {
            return;
        }
        let Some(program) = program else {
            return;
        };
        let Ok(events) = read_trace(self.alloc, beginning(trace.text)) else {
            return;
        };
        let line = idle_line(
            self.alloc,
            self.program,
            trace.name,
            unit,
            program,
            events.as_slice(),
        );
        if let Ok(Some(line)) = line {
            self.add(line.as_slice());
        }
    }

    /// Writes why something failed, and then the other lines, as far as they can be written.
    pub fn write<E: Write>(&self, err: &mut E) {
        let _told = err.write_all(self.notes.lines());
        let _told = err.write_all(self.lines());
    }

    /// Adds why standard output was not written, if a write failed.
    pub fn unwritten(&mut self, failure: Option<ErrorKind>)
        ensures notes { self.new.notes ≡ self.old.notes }
    {
        let Some(kind) = failure else {
            return;
        };
        if let Ok(Some(line)) = unwritten_line(self.alloc, self.program, kind) {
            self.add(line.as_slice());
        }
    }
}
