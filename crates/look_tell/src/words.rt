//! The words for a task, for the place that it is at, and for a list of tasks.

ghost use Rattle.std.specs.Prelude.{◌≡◌, ◌++◌, [], OnOk, if◌then◌else◌};
ghost use Rattle.std.specs.Fmt.{decimal};
ghost use Rattle.look_tell.specs.Words as def;

use crate::story::Story;
use look_names::{Names, Said, say_arguments, say_function, say_sentence, say_value};
use look_run::is_living_subtask;
use look_text::say;
use std::alloc::Global;
use sts_code::Program;

/// A story, and the names of its text.
#[derive(Clone, Copy)]
pub struct Told<'n, 't, 's, 'p> {
    pub names: &'n Names<'t>,
    pub story: &'s Story<'p>,
}

/// Appends words and a number.
pub(crate) fn say_numbered(alloc: Global, out: &mut Vec<u8>, words: &str, number: u32) -> Said
    ensures { OnOk result (out.new.items ≡ out.old.items ++ (words.now ++ decimal number)) }
{
    let numbered = format!(in alloc; "{words}{number}")?;
    say(out, numbered.as_str())
}

/// Appends a value.
#[tactic(auto, unfolding(crate::specs::Words::shown_value))]
pub(crate) fn say_shown(alloc: Global, out: &mut Vec<u8>, names: &Names<'_>, value: i64) -> Said
    ensures { OnOk result (out.new.items ≡ out.old.items ++ def.shown_value names.now value) }
{
    say_value(alloc, out, names, value)
}

#[tactic(auto, unfolding(crate::specs::Words::shown_function))]
fn say_shown_function(
    out: &mut Vec<u8>,
    names: &Names<'_>,
    program: &Program,
    function: u32,
) -> Said
    ensures { OnOk result (out.new.items ≡ out.old.items
        ++ def.shown_function names.now program.now function) }
{
    say_function(out, names, program, function)
}

/// Appends words, if `holds` is true.
pub(crate) fn say_if(out: &mut Vec<u8>, holds: bool, words: &str) -> Said
    ensures { OnOk result (out.new.items ≡ out.old.items
        ++ (if holds then words.now else [])) }
{
    if holds { say(out, words) } else { Ok(()) }
}

/// The words before the next one that lives.
fn next_lead(lives: bool, lead: &'static str) -> &'static str
    ensures { result.now ≡ def.next_lead lives lead.now }
{
    if lives { " and " } else { lead }
}

impl Told<'_, '_, '_, '_> {
    /// Appends the function of a task and the arguments that it was forked with: `handle(1)`.
    ///
    /// # Errors
    ///
    /// Memory ran out; `out` may then have a part of it.
    #[tactic(auto, unfolding(crate::specs::Words::called_words))]
    pub fn say_called(self, alloc: Global, out: &mut Vec<u8>, t: u32) -> Said
        ensures { OnOk result (out.new.items ≡ out.old.items
            ++ def.called_words self.entry.names.now self.entry.story.now t) }
    {
        say_shown_function(
            out,
            self.names,
            self.story.program(),
            self.story.function_of(t),
        )?;
        say_arguments(alloc, out, self.names, self.story.given_to(t))
    }

    /// Appends a task: `task 2, handle(1)`.
    #[tactic(auto, unfolding(crate::specs::Words::task_words))]
    pub(crate) fn say_task(self, alloc: Global, out: &mut Vec<u8>, t: u32) -> Said
        ensures { OnOk result (out.new.items ≡ out.old.items
            ++ def.task_words self.entry.names.now self.entry.story.now t) }
    {
        say_numbered(alloc, out, "task ", t)?;
        say(out, ", ")?;
        self.say_called(alloc, out, t)
    }

    /// Appends a task and the line that it is at: `task 2, handle(1), line 5: ret`.
    #[tactic(auto, unfolding(crate::specs::Words::place_words))]
    pub(crate) fn say_place_of(self, alloc: Global, out: &mut Vec<u8>, t: u32) -> Said
        ensures { OnOk result (out.new.items ≡ out.old.items
            ++ def.place_words self.entry.names.now self.entry.story.now t) }
    {
        let story = self.story;
        self.say_task(alloc, out, t)?;
        say(out, ", ")?;
        say_sentence(alloc, out, self.names, story.function_of(t), story.pc_of(t))
    }

    /// A task that lives, with these words before it.
    fn say_living_one(
        self,
        alloc: Global,
        out: &mut Vec<u8>,
        lives: bool,
        lead: &'static str,
        t: u32,
    ) -> Said
        ensures { OnOk result (out.new.items ≡ out.old.items
            ++ def.living_word self.entry.names.now self.entry.story.now lives lead.entry.now t) }
    {
        if !lives {
            return Ok(());
        }
        say(out, lead)?;
        self.say_task(alloc, out, t)
    }

    /// The living ones of these tasks, if they are subtasks of the scope, with these words before
    /// the first.
    fn say_living_among(
        self,
        alloc: Global,
        out: &mut Vec<u8>,
        s: u32,
        lead: &'static str,
        births: &[u32],
    ) -> Said
        ensures { OnOk result (out.new.items ≡ out.old.items
            ++ def.living_among
            self.entry.names.now self.entry.story.now s lead.entry.now births.now) }
    {
        let mut words = lead;
        for t in births {
            let lives = is_living_subtask(self.story.records(), s, *t);
            self.say_living_one(alloc, out, lives, words, *t)?;
            words = next_lead(lives, words);
        }
        Ok(())
    }

    /// Appends the living subtasks of a scope, with these words before the first.
    #[tactic(auto, unfolding(crate::specs::Words::living_words))]
    pub(crate) fn say_living(
        self,
        alloc: Global,
        out: &mut Vec<u8>,
        lead: &'static str,
        s: u32,
    ) -> Said
        ensures { OnOk result (out.new.items ≡ out.old.items
            ++ def.living_words self.entry.names.now self.entry.story.now lead.entry.now s) }
    {
        self.say_living_among(alloc, out, s, lead, self.story.world().subtasks(s))
    }
}
