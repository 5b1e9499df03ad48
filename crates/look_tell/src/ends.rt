//! The end of each task.

ghost use Rattle.std.specs.Prelude.{◌≡◌, ◌++◌, [], OnOk, if◌then◌else◌};
ghost use Rattle.look_tell.specs.Telling as def;

use crate::words::Told;
use look_lines::is_heard;
use look_names::Said;
use look_run::say_end;
use look_text::say;
use std::alloc::Global;
use sts_model::End;
use sts_plain::can_step;

impl Told<'_, '_, '_, '_> {
    /// The end of a task that doesn't live, and whether the joiner of its scope was told.
    fn say_outcome(self, alloc: Global, out: &mut Vec<u8>, t: u32, outcome: Option<End>) -> Said
        ensures { OnOk result (out.new.items ≡ out.old.items
            ++ def.outcome_words self.entry.names.now self.entry.story.now t outcome) }
    {
        let Some(end) = outcome else {
            return say(out, "never starts");
        };
        say_end(alloc, out, self.names, end)?;
        if is_heard(self.story.world(), t) {
            Ok(())
        } else {
            say(out, ", not told")
        }
    }

    fn say_life(self, alloc: Global, out: &mut Vec<u8>, t: u32) -> Said
        ensures { OnOk result (out.new.items ≡ out.old.items
            ++ def.life_words self.entry.names.now self.entry.story.now t) }
    {
        if !self.story.records().lives(t) {
            return self.say_outcome(alloc, out, t, self.story.records().outcome(t));
        }
        if can_step(self.story.world(), self.story.program(), t) {
            say(out, "ready")
        } else {
            say(out, "waits")
        }
    }

    fn say_end_line(self, alloc: Global, out: &mut Vec<u8>, t: u32) -> Said
        ensures { OnOk result (out.new.items ≡ out.old.items
            ++ def.end_line self.entry.names.now self.entry.story.now t) }
    {
        self.say_task(alloc, out, t)?;
        say(out, ": ")?;
        self.say_life(alloc, out, t)?;
        say(out, "\n")
    }

    /// A line for each task, with its end.
    fn say_end_lines(self, alloc: Global, out: &mut Vec<u8>) -> Said
        ensures { OnOk result (out.new.items ≡ out.old.items
            ++ def.end_lines self.entry.names.now self.entry.story.now
            self.entry.story.now.watched.last.tasks 0) }
    {
        for t in 0..self.story.records().tasks_born() {
            self.say_end_line(alloc, out, t as u32)?;
        }
        Ok(())
    }

    /// Appends a line for each task, with its end, if the story is strict.
    ///
    /// # Errors
    ///
    /// Memory ran out; `out` may then have a part of them.
    pub(crate) fn say_strict_ends(self, alloc: Global, out: &mut Vec<u8>, strict: bool) -> Said
        ensures { OnOk result (out.new.items ≡ out.old.items
            ++ (if strict then def.end_lines self.entry.names.now self.entry.story.now
            self.entry.story.now.watched.last.tasks 0 else [])) }
    {
        if strict {
            self.say_end_lines(alloc, out)
        } else {
            Ok(())
        }
    }
}
