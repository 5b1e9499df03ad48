//! The lines of the notes.

ghost use Rattle.std.specs.Prelude.{◌≡◌, ◌++◌, OnOk};
ghost use Rattle.look_accepted.specs.Lines as def;

use crate::notes::Note;
use crate::reliance::Reliance;
use look_text::{Said, say, say_place};
use std::alloc::Global;
use sts_asm::Outline;
use sts_code::{Program, name_of};

/// What JDK 25 does there, up to the place.
fn rule_words(reliance: Reliance) -> &'static str
    ensures { result.now ≡ def.rule_words reliance }
{
    match reliance {
        Reliance::SecondJoin => {
            "JDK 25 throws IllegalStateException at a join after an interrupted one: in "
        }
        Reliance::FirstBinding => {
            "JDK 25 throws StructureViolationException at a fork behind a thread's first binding: in "
        }
        Reliance::LateRead => "JDK 25 throws IllegalStateException at a read after a timeout: in ",
    }
}

/// A program, and the outline of the text that spells it.
#[derive(Clone, Copy)]
struct Told<'a, 't> {
    outline: &'a Outline<'t>,
    program: &'a Program,
}

impl Told<'_, '_> {
    fn say_note(self, alloc: Global, out: &mut Vec<u8>, note: Note) -> Said
        ensures { OnOk result (out.new.items ≡ out.old.items
            ++ def.note_line self.entry.outline.now self.entry.program.now note) }
    {
        say(out, rule_words(note.reliance))?;
        say(out, name_of(self.program, note.function))?;
        say_place(alloc, out, self.outline.sentence(note.function, note.place))?;
        say(out, "\n")
    }
}

/// A line for each note.
///
/// # Errors
///
/// Memory ran out; `out` may then have a part of them.
pub fn note_lines(
    alloc: Global,
    out: &mut Vec<u8>,
    outline: &Outline<'_>,
    program: &Program,
    notes: &[Note],
) -> Said
    ensures { OnOk result (out.new.items
        ≡ out.old.items ++ def.note_lines outline.now program.now notes.now) }
{
    let told = Told { outline, program };
    for note in notes {
        told.say_note(alloc, out, *note)?;
    }
    Ok(())
}
