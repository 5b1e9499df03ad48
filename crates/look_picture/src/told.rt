//! The words of an event: its line in the story of the run.

ghost use Rattle.std.specs.Prelude.{◌≡◌, ◌++◌, IfOk, OnOk, false};
ghost use Rattle.std.specs.String.{string_bytes};
ghost use Rattle.look_tell.specs.Story.{next};
ghost use Rattle.look_picture.specs.Told as def;

use look_drawing::escaped;
use look_lines::Said;
use look_names::Names;
use look_options::TellOptions;
use look_tell::{Story, Telling};
use std::alloc::{AllocError, Global};
use sts_model::Event;

/// Appends the lines of an event, if it has any, and goes on by it.
#[tactic(auto, unfolding(crate::specs::Told::lines))]
fn say_lines(
    alloc: Global,
    out: &mut Vec<u8>,
    names: &Names<'_>,
    story: &mut Story<'_>,
    brief: bool,
    number: usize,
    event: Event,
) -> Said
    ensures after { OnOk result (story.new ≡ next false story.old event) }
    ensures said { OnOk result (out.new.items
        ≡ out.old.items ++ def.lines names.now brief number story.old event) }
{
    let options = TellOptions {
        each: !brief,
        strict: false,
        first: 1,
        last: u32::MAX,
    };
    let telling = Telling {
        names,
        options,
        number,
    };
    telling.say_event(alloc, out, story, event)
}

/// All bytes but the last one.
fn but_last(bytes: &[u8]) -> &[u8]
    ensures { result.now ≡ def.but_last bytes.now }
{
    &bytes[..bytes.len().saturating_sub(1)]
}

/// The words of an event. They are empty if the picture is brief and the story in brief doesn't list
/// the event. The story goes on by it.
///
/// # Errors
///
/// Memory ran out.
#[tactic(auto, unfolding(crate::specs::Told::event_words))]
pub(crate) fn event_words(
    alloc: Global,
    names: &Names<'_>,
    story: &mut Story<'_>,
    brief: bool,
    number: usize,
    event: Event,
) -> Result<String, AllocError>
    ensures after { OnOk result (story.new ≡ next false story.old event) }
    ensures said { IfOk result (λ words. string_bytes words
        ≡ def.event_words names.now brief number story.old event) }
{
    let mut lines = Vec::new(alloc);
    say_lines(alloc, &mut lines, names, story, brief, number, event)?;
    escaped(alloc, but_last(lines.as_slice()))
}
