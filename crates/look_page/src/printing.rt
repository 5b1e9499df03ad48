//! The output for a text and a trace.

ghost use Rattle.std.specs.Prelude.{IfOk, Some};
ghost use Rattle.sts_output.specs.Output.{Output, Writes};
ghost use Rattle.look_page.specs.Printed.{Prints};

use look_ends::write_ends;
use look_host::Silent;
use look_lines::write_run;
use look_options::{DrawOptions, EndsOptions, ViewOptions, Window};
use look_picture::draw;
use look_places::write_named;
use look_run::explain_run;
use look_view::write_view;
use std::alloc::Global;
use sts_output::{Assembled, Status, list, plain, verify, write_shown};

/// The events from the first to the last that a trace may have.
const ALL: Window = Window {
    first: 1,
    last: u32::MAX,
};

/// The request of a caller.
#[derive(Clone, Copy)]
pub(crate) enum Asked {
    Verify,
    List,
    Plain,
    View(ViewOptions),
    /// The same with lines and names of the text.
    NamedView(ViewOptions),
    Explanation,
    RunExplanation,
    /// Of all events, or of those that the story of the run lists.
    Picture { brief: bool },
    /// Every end that a search finds.
    Ends(EndsOptions),
}

/// Writes it, and gives the status.
///
/// # Errors
///
/// Memory ran out.
pub(crate) fn print(
    alloc: Global,
    asked: Asked,
    text: &[u8],
    trace: &[u8],
    printed: &mut Vec<u8>,
) -> Status
    ensures { IfOk result (λ s. (o : Output) × Prints asked text.now trace.now o
        × Writes (Some printed.old.items) (Some printed.new.items) s o) }
{
    let unused = &mut Assembled::Nothing;
    match asked {
        Asked::Verify => write_shown(verify::verified(alloc, text, unused), printed),
        Asked::List => write_shown(list::listed(alloc, text, unused), printed),
        Asked::Plain => write_shown(plain::after_trace(alloc, text, trace, unused), printed),
        Asked::View(wanted) => write_run(alloc, &wanted, text, trace, printed, unused),
        Asked::NamedView(wanted) => write_view(alloc, wanted, text, trace, printed, unused),
        Asked::Explanation => write_named(alloc, text, printed),
        Asked::RunExplanation => explain_run(alloc, text, trace, printed, unused),
        Asked::Picture { brief } => {
            let options = DrawOptions {
                window: Some(ALL),
                brief,
            };
            draw(alloc, options, None, text, trace, printed, unused)
        }
        Asked::Ends(wanted) => write_ends(alloc, wanted, text, &mut Silent, printed),
    }
}
