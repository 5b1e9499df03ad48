//! The lines on standard error that tell a person why something failed.

ghost use Rattle.std.specs.Prelude.{◌≡◌, ◌⊎◌, ◌++◌, [], Some, IfOk, option_map};
ghost use Rattle.std.specs.String.{string_bytes};
ghost use Rattle.sts_output.specs.Reasons as def;

use crate::file_error::FileError;
use crate::reasons::{Named, outside_reason, text_reason, trace_reason};
use std::alloc::{AllocError, Global};
use std::io;
use sts_asm::AsmError;

/// The status of a fault of a text, a trace or an outside text.
const STATUS_FAULT: u8 = 3;

/// The status of a program that is refused.
const STATUS_REFUSED: u8 = 4;

/// The events that a program is run with: a trace or an outside text.
#[derive(Clone, Copy)]
pub enum Events<'a> {
    None,
    Trace(Named<'a>),
    Outside(Named<'a>),
}

/// Lines for standard error. A line for which there is no memory is left out.
#[derive(Drop)]
pub struct Notes {
    alloc: Global,
    program: &'static str,
    lines: Vec<u8>,
}

impl Notes {
    /// Returns notes with no line, of a program of this name.
    pub fn new(alloc: Global, program: &'static str) -> Notes
        ensures program { result.program ≡ program.entry }
        ensures lines { result.lines.items ≡ [] }
    {
        Notes {
            alloc,
            program,
            lines: Vec::new(alloc),
        }
    }

    /// Returns the lines.
    pub fn lines(&self) -> &[u8]
        ensures { result.now ≡ self.now.lines.items }
    {
        self.lines.as_slice()
    }

    /// Adds a line, if there is memory for it.
    fn add(&mut self, line: &[u8])
        ensures program { self.new.program ≡ self.old.program }
        ensures line { def.Adds self.old.lines.items self.new.lines.items (Some line.now) }
    {
        let _added = self.lines.extend_from_slice(line);
    }

    /// Adds which file was not read or written, and why.
    pub fn file(&mut self, error: FileError<'_>)
        ensures program { self.new.program ≡ self.old.program }
        ensures line { def.Adds self.old.lines.items self.new.lines.items
            (Some (def.file_line self.old.program.now error.entry)) }
    {
        if let Ok(line) = error.line(self.alloc, self.program) {
            self.add(line.as_slice());
        }
    }

    /// Adds that a file was not written, if there was an error.
    pub fn written(&mut self, path: &str, error: Option<io::Error>)
        ensures program { self.new.program ≡ self.old.program }
        ensures line { def.Adds self.old.lines.items self.new.lines.items
            (def.unwritten_reason self.old.program.now path.now error) }
    {
        if let Some(error) = error {
            self.file(FileError::unwritten(path, &error));
        }
    }

    /// Adds a line that says where a text or its events have a fault, or where the reason of a
    /// refusal is. `fault` is the fault of the text, if it has one.
    pub fn status(
        &mut self,
        status: u8,
        text: Named<'_>,
        fault: Option<AsmError>,
        events: Events<'_>,
    )
        ensures program { self.new.program ≡ self.old.program }
        ensures line { def.Adds self.old.lines.items self.new.lines.items
            (def.status_reason self.old.program.now status
            text.entry.name.now text.entry.text.now fault
            (def.events_reason self.old.program.now events.entry)) }
    {
        let line = status_line(self.alloc, self.program, status, text, fault, events);
        if let Ok(Some(line)) = line {
            self.add(line.as_slice());
        }
    }
}

/// Returns the line that says why there was this status, if it has one.
fn status_line(
    alloc: Global,
    program: &str,
    status: u8,
    text: Named<'_>,
    fault: Option<AsmError>,
    events: Events<'_>,
) -> Result<Option<Vec<u8>>, AllocError>
    ensures { IfOk result (λ r. option_map (λ line. line.items) r
        ≡ def.status_reason program.now status text.entry.name.now text.entry.text.now
        fault (def.events_reason program.now events.entry)) }
{
    match status {
        STATUS_FAULT => fault_line(alloc, program, text, fault, events),
        STATUS_REFUSED => Ok(Some(refused_line(alloc, program)?.into_bytes())),
        _ => Ok(None),
    }
}

/// Returns the line about the first fault: one of the text comes before one of its events.
fn fault_line(
    alloc: Global,
    program: &str,
    text: Named<'_>,
    fault: Option<AsmError>,
    events: Events<'_>,
) -> Result<Option<Vec<u8>>, AllocError>
    ensures { IfOk result (λ r. option_map (λ line. line.items) r
        ≡ def.first_reason program.now text.entry.name.now text.entry.text.now
        fault (def.events_reason program.now events.entry)) }
{
    if let Some(error) = fault {
        return Ok(Some(text_reason(alloc, program, text, error)?));
    }
    match events {
        Events::None => Ok(None),
        Events::Trace(named) => trace_reason(alloc, program, named),
        Events::Outside(named) => outside_reason(alloc, program, named),
    }
}

fn refused_line(alloc: Global, program: &str) -> Result<String, AllocError>
    ensures { IfOk result (λ line. string_bytes line ≡ def.refused_reason program.now) }
{
    format!(in alloc; "{program}: ./look explain FILE says why\n")
}
