//! The notes on instructions that rely on a rule that JDK 25 doesn't share.

ghost use Rattle.std.specs.Prelude.{◌≡◌, ◌++◌, OnOk};
ghost use Rattle.std.specs.List.{flat_map};
ghost use Rattle.look_places.specs.Reports as def;

use crate::marks::Source;
use look_accepted::{Note, note_lines};
use look_names::Said;
use look_text::say;
use std::alloc::Global;
use sts_code::Program;

impl Source<'_, '_> {
    fn say_rule(&self, alloc: Global, out: &mut Vec<u8>, program: &Program, note: Note) -> Said
        ensures { OnOk result (out.new.items
            ≡ out.old.items ++ def.rule_note self.now program.now note) }
    {
        self.say_mark(alloc, out, self.line_of(note.function, note.place))?;
        say(out, ": note: ")?;
        note_lines(alloc, out, self.outline(), program, &[note])
    }

    /// Appends a note for each.
    ///
    /// # Errors
    ///
    /// Memory ran out; `out` may then have a part of them.
    pub(crate) fn say_rules(
        &self,
        alloc: Global,
        out: &mut Vec<u8>,
        program: &Program,
        notes: &[Note],
    ) -> Said
        ensures { OnOk result (out.new.items
            ≡ out.old.items ++ flat_map (def.rule_note self.now program.now) notes.now) }
    {
        for note in notes {
            self.say_rule(alloc, out, program, *note)?;
        }
        Ok(())
    }
}
