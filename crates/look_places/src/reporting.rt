//! The lines of a report.

ghost use Rattle.std.specs.Prelude.{◌≡◌, ◌++◌, OnOk};
ghost use Rattle.sts_text.specs.Words.{lines};
ghost use Rattle.look_places.specs.Faults.{code};
ghost use Rattle.look_places.specs.Reports as def;

use crate::faults::{Finding, say_code};
use crate::marks::Source;
use look_text::{Said, say};
use std::alloc::Global;
use sts_text::cut_at_newline;

impl Source<'_, '_> {
    /// `FILE:LINE:COLUMN: V13: what to do`
    fn say_problem(&self, alloc: Global, out: &mut Vec<u8>, found: Finding, message: &[u8]) -> Said
        ensures { OnOk result (out.new.items
            ≡ out.old.items ++ def.problem self.now found.line (code found.problem) message.now) }
    {
        self.say_mark(alloc, out, found.line)?;
        say(out, ": ")?;
        say_code(alloc, out, found.problem)?;
        say(out, ": ")?;
        out.extend_from_slice(message)?;
        say(out, "\n")
    }

    /// Appends `FILE:LINE:COLUMN: note: WORDS`.
    ///
    /// # Errors
    ///
    /// Memory ran out; `out` may then have a part of it.
    pub(crate) fn say_note(&self, alloc: Global, out: &mut Vec<u8>, line: u32, words: &[u8]) -> Said
        ensures { OnOk result (out.new.items
            ≡ out.old.items ++ def.note self.now line words.now) }
    {
        self.say_mark(alloc, out, line)?;
        say(out, ": note: ")?;
        out.extend_from_slice(words)?;
        say(out, "\n")
    }

    fn say_note_if(&self, alloc: Global, out: &mut Vec<u8>, line: u32, words: &[u8]) -> Said
        ensures { OnOk result (out.new.items
            ≡ out.old.items ++ def.note_if self.now line words.now) }
    {
        if words.is_empty() {
            Ok(())
        } else {
            self.say_note(alloc, out, line, words)
        }
    }

    /// A note for each line that has a byte.
    fn say_notes(&self, alloc: Global, out: &mut Vec<u8>, line: u32, words: &[u8]) -> Said
        ensures { OnOk result (out.new.items
            ≡ out.old.items ++ def.notes self.now line (lines words.now)) }
    {
        let mut rest = words;
        while let Some((one, after)) = cut_at_newline(rest) {
            self.say_note_if(alloc, out, line, one)?;
            rest = after;
        }
        self.say_note_if(alloc, out, line, rest)
    }

    /// The first line says what to do, and each other one is a note.
    fn say_below(&self, alloc: Global, out: &mut Vec<u8>, found: Finding, words: &[u8]) -> Said
        ensures { OnOk result (out.new.items ≡ out.old.items
            ++ def.below self.now found.line (code found.problem) (lines words.now)) }
    {
        match cut_at_newline(words) {
            None => self.say_problem(alloc, out, found, words),
            Some((message, more)) => {
                self.say_problem(alloc, out, found, message)?;
                self.say_notes(alloc, out, found.line, more)
            }
        }
    }

    /// Appends the lines of an explanation, as editors read them. Its first line says where it is.
    ///
    /// # Errors
    ///
    /// Memory ran out; `out` may then have a part of them.
    pub(crate) fn say_reported(
        &self,
        alloc: Global,
        out: &mut Vec<u8>,
        found: Finding,
        explained: &[u8],
    ) -> Said
        ensures { OnOk result (out.new.items ≡ out.old.items
            ++ def.reported self.now found.line (code found.problem) (lines explained.now)) }
    {
        match cut_at_newline(explained) {
            None => Ok(()),
            Some((_, rest)) => self.say_below(alloc, out, found, rest),
        }
    }
}
