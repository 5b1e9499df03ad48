//! Writing traces.

ghost use Rattle.std.specs.Prelude.{◌++◌, OnOk, codes};
ghost use Rattle.std.specs.Io.KnownBytes.{Appends};
ghost use Rattle.sts_trace.specs.Spelling.{trace_text, event_text};

use std::io;
use std::io::Write;
use sts_model::Event;

fn write_event<W: Write>(event: Event, writer: &mut W) -> io::Result<()>
    ensures { OnOk result (Appends (W.contents writer.old) (W.contents writer.new)
        (event_text event ++ codes "\n")) }
{
    match event {
        Event::Step(n) => writeln!(writer, "step {n}"),
        Event::Interrupt(n) => writeln!(writer, "interrupt {n}"),
        Event::Expire(n) => writeln!(writer, "expire {n}"),
    }
}

/// Writes the trace text of the events.
///
/// # Errors
///
/// The writer's error if a write fails. Some of the text may then have been written.
pub fn write_trace<W: Write>(events: &[Event], writer: &mut W) -> io::Result<()>
    ensures { OnOk result (Appends (W.contents writer.old)
        (W.contents writer.new) (trace_text events.now)) }
{
    for event in events {
        write_event(*event, writer)?;
    }
    Ok(())
}
