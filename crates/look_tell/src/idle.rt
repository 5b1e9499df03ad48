//! The line of an event that doesn't count.

ghost use Rattle.std.specs.Prelude.{◌≡◌, ◌++◌, OnOk, codes};
ghost use Rattle.sts_plain.specs.Seen.{shown};
ghost use Rattle.look_tell.specs.Line as def;

use crate::story::Story;
use crate::words::{Told, say_numbered};
use look_names::Said;
use look_text::say;
use std::alloc::Global;
use sts_model::Event;
use sts_output::printed;
use sts_plain::PlainState;

fn has_task(story: &Story<'_>, t: u32) -> bool
    ensures { result ≡ def.has_task story.now t }
{
    (t as usize) < story.records().tasks_born()
}

fn has_scope(story: &Story<'_>, s: u32) -> bool
    ensures { result ≡ def.has_scope story.now s }
{
    (s as usize) < story.records().scopes_born()
}

fn say_idle_scope(alloc: Global, out: &mut Vec<u8>, story: &Story<'_>, s: u32) -> Said
    ensures { OnOk result (out.new.items ≡ out.old.items ++ def.idle_scope story.now s) }
{
    if has_scope(story, s) {
        say_numbered(alloc, out, "scope ", s)?;
        say(out, " can't expire now")
    } else {
        say_numbered(alloc, out, "there is no scope ", s)
    }
}

impl Told<'_, '_, '_, '_> {
    fn say_idle_task(self, alloc: Global, out: &mut Vec<u8>, t: u32) -> Said
        ensures { OnOk result (out.new.items ≡ out.old.items
            ++ def.idle_task self.entry.names.now self.entry.story.now t) }
    {
        if has_task(self.story, t) {
            self.say_task(alloc, out, t)?;
            let records = self.story.records();
            say(
                out,
                printed::rest_words(records.lives(t), records.has_started(t)),
            )
        } else {
            say_numbered(alloc, out, "there is no task ", t)
        }
    }

    fn say_idle_words(self, alloc: Global, out: &mut Vec<u8>, event: Event) -> Said
        ensures { OnOk result (out.new.items ≡ out.old.items
            ++ def.idle_words self.entry.names.now self.entry.story.now event) }
    {
        match event {
            Event::Step(t) => {
                say(out, "idle: ")?;
                self.say_idle_task(alloc, out, t)
            }
            Event::Interrupt(t) => {
                say(out, "idle interrupt: ")?;
                self.say_idle_task(alloc, out, t)
            }
            Event::Expire(s) => {
                say(out, "idle expiry: ")?;
                say_idle_scope(alloc, out, self.story, s)
            }
        }
    }

    /// What is said of an event that doesn't count. After a fault none counts.
    fn say_idle_by(self, alloc: Global, out: &mut Vec<u8>, event: Event) -> Said
        ensures { OnOk result (out.new.items ≡ out.old.items
            ++ def.idle_by self.entry.names.now self.entry.story.now
            (shown self.entry.story.now.watched.state) event) }
    {
        match self.story.state() {
            PlainState::Fault { .. } => say(out, "idle: the run has stopped at its fault"),
            PlainState::Running | PlainState::Ended(_) => { self.say_idle_words(alloc, out, event) }
        }
    }

    /// Appends the line of an event that doesn't count, without its number.
    pub(crate) fn say_idle(self, alloc: Global, out: &mut Vec<u8>, event: Event) -> Said
        ensures { OnOk result (out.new.items ≡ out.old.items
            ++ (def.idle_by self.entry.names.now self.entry.story.now
            (shown self.entry.story.now.watched.state) event ++ codes "\n")) }
    {
        self.say_idle_by(alloc, out, event)?;
        say(out, "\n")
    }
}
