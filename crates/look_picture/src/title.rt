//! The names of the files of a picture, before the state of the run.

ghost use Rattle.std.specs.Prelude.{◌≡◌, ◌++◌, OnOk};
ghost use Rattle.std.specs.String.{string_bytes};
ghost use Rattle.look_picture.specs.Title as def;

use look_drawing::escape_words;
use look_lines::Said;

/// The files of a text and of a trace, by the names that a person knows them by.
#[derive(Clone, Copy)]
pub struct FileNames<'a> {
    pub text: &'a str,
    pub trace: &'a str,
}

/// `sum.sts, sum.trace: `
fn say_names(out: &mut String, files: FileNames<'_>) -> Said
    ensures { OnOk result (string_bytes out.new
        ≡ string_bytes out.old ++ def.names_words files.entry) }
{
    escape_words(out, files.text)?;
    out.push_str(", ")?;
    escape_words(out, files.trace)?;
    out.push_str(": ")
}

/// Appends the names, if the text and the trace are files.
pub(crate) fn say_title(out: &mut String, files: Option<FileNames<'_>>) -> Said
    ensures { OnOk result (string_bytes out.new
        ≡ string_bytes out.old ++ def.title_words files.entry) }
{
    match files {
        None => Ok(()),
        Some(files) => say_names(out, files),
    }
}
