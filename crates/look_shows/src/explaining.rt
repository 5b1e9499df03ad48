//! What is shown of a text alone.

ghost use Rattle.std.specs.Prelude.{IfOk};
ghost use Rattle.sts_output.specs.Output.{Output, Writes};
ghost use Rattle.look_shows.specs.Showing as def;

use look_args::asked::ExplainForm;
use look_json::write_explained;
use look_places::{write_named, write_places};
use std::alloc::Global;
use std::io::Write;
use sts_output::Status;

/// Writes what is wrong with the text of a file, and returns the status.
///
/// # Errors
///
/// A write failed.
pub fn explain_in<W: Write>(
    alloc: Global,
    form: ExplainForm,
    path: &str,
    text: &[u8],
    out: &mut W,
) -> Status
    ensures { IfOk result (λ s. (o : Output) × def.IsExplainedIn form path.now text.now o
        × Writes (W.contents out.old) (W.contents out.new) s o) }
{
    match form {
        ExplainForm::Words => write_named(alloc, text, out),
        ExplainForm::Places => write_places(alloc, path, text, out),
        ExplainForm::Json => write_explained(alloc, text, out),
    }
}
