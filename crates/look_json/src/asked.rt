//! Which story is written.

use look_options::TellOptions;

/// A text, a trace, and which events and steps of the run have lines.
#[derive(Clone, Copy)]
pub struct StoryOf<'t> {
    pub options: TellOptions,
    pub text: &'t [u8],
    pub trace: &'t [u8],
}
