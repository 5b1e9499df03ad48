//! What is shown of a text and a trace.

ghost use Rattle.std.specs.Prelude.{IfOk};
ghost use Rattle.sts_output.specs.Output.{Output, Writes};
ghost use Rattle.look_shows.specs.Showing as def;

use look_args::asked::{AskedTell, AskedView};
use look_json::{StoryOf, write_stories};
use look_options::DrawOptions;
use look_picture::{FileNames, draw};
use look_run::explain_run;
use look_tell::tell;
use look_traces::in_full;
use look_view::write_view;
use look_views::write_views;
use std::alloc::Global;
use std::io::Write;
use sts_output::{Assembled, Events, Named, Status, TakeError, failed};
use sts_remarks::Remarks;

/// The output for a text and a trace.
#[derive(Clone, Copy)]
pub enum Showing<'a> {
    View(AskedView),
    Run,
    Picture {
        options: DrawOptions,
        files: FileNames<'a>,
    },
    Story(AskedTell),
}

/// A text and a trace.
#[derive(Clone, Copy)]
struct Given<'t> {
    text: &'t [u8],
    trace: &'t [u8],
}

impl Showing<'_> {
    /// Does the output say where the text or the trace has its fault?
    fn says_faults(self) -> bool {
        match self {
            Showing::Run => true,
            Showing::Story(story) => !story.json,
            Showing::View(_) | Showing::Picture { .. } => false,
        }
    }

    /// Does the output say which events did nothing?
    fn says_idle(self) -> bool {
        match self {
            Showing::View(view) => view.wanted.each,
            Showing::Run => false,
            Showing::Picture { .. } | Showing::Story(_) => true,
        }
    }

    /// Adds where the text or the trace has its fault, and which event did nothing, if the output
    /// doesn't say it.
    pub fn remark(
        self,
        status: u8,
        text: Named<'_>,
        trace: Named<'_>,
        assembled: &Assembled,
        remarks: &mut Remarks,
    ) {
        if !self.says_faults() {
            let notes = &mut remarks.notes;
            notes.status(status, text, assembled.fault(), Events::Trace(trace));
        }
        if !self.says_idle() {
            remark_idle(status, assembled, trace, remarks);
        }
    }

    /// Writes what is shown of a text and a trace. The views and the story of a run are shown in
    /// lines or as JSON.
    fn show<W: Write>(
        self,
        alloc: Global,
        given: Given<'_>,
        out: &mut W,
        assembled: &mut Assembled,
    ) -> Status
        ensures { IfOk result (λ s. (o : Output)
            × def.Shows self.entry given.entry.text.now given.entry.trace.now o
            × Writes (W.contents out.old) (W.contents out.new) s o) }
    {
        let (text, trace) = (given.text, given.trace);
        match self {
            Showing::View(view) => {
                if view.json {
                    write_views(alloc, view.wanted, text, trace, out, assembled)
                } else {
                    write_view(alloc, view.wanted, text, trace, out, assembled)
                }
            }
            Showing::Run => explain_run(alloc, text, trace, out, assembled),
            Showing::Picture { options, files } => {
                draw(alloc, options, Some(files), text, trace, out, assembled)
            }
            Showing::Story(story) => {
                let options = story.wanted;
                if story.json {
                    let asked = StoryOf {
                        options,
                        text,
                        trace,
                    };
                    write_stories(alloc, asked, out, assembled)
                } else {
                    tell(alloc, options, text, trace, out)
                }
            }
        }
    }
}

/// Adds which event of a trace, which may be in the short form, is the first that did nothing.
fn remark_idle(status: u8, assembled: &Assembled, trace: Named<'_>, remarks: &mut Remarks) {
    match in_full(remarks.alloc, trace.text) {
        Ok(Some(full)) => {
            let trace = Named::new(trace.name, full.as_slice());
            remarks.idle(status, "event", assembled.program(), trace);
        }
        Ok(None) => remarks.idle(status, "event", assembled.program(), trace),
        Err(_) => {}
    }
}

/// Writes what is shown of a text and a trace, which may be in the short form, and returns the status.
/// `assembled` gets what `remark` needs of the text.
///
/// # Errors
///
/// A write failed.
pub fn show_in_full<W: Write>(
    alloc: Global,
    showing: Showing<'_>,
    text: &[u8],
    trace: &[u8],
    out: &mut W,
    assembled: &mut Assembled,
) -> Status
    ensures { IfOk result (λ s. (o : Output) × def.ShowsInFull showing.entry text.now trace.now o
        × Writes (W.contents out.old) (W.contents out.new) s o) }
{
    match in_full(alloc, trace) {
        Ok(Some(full)) => {
            let trace = full.as_slice();
            showing.show(alloc, Given { text, trace }, out, assembled)
        }
        Ok(None) => showing.show(alloc, Given { text, trace }, out, assembled),
        Err(_) => failed(TakeError::Memory, out),
    }
}
