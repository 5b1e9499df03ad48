//! The lines of an event.

ghost use Rattle.std.specs.Prelude.{◌≡◌, ◌++◌, ◌<◌, OnOk, fold, length, true};
ghost use Rattle.sts_model.specs.Living as living;
ghost use Rattle.sts_model.specs.World as model;
ghost use Rattle.look_tell.specs.Deed as deeds;
ghost use Rattle.look_tell.specs.Line as def;
ghost use Rattle.look_tell.specs.Story.{next, program_of, world_of};

use crate::deed::{Deed, next_deed};
use crate::story::Story;
use crate::words::{Told, say_if, say_numbered};
use look_names::{Names, Said};
use look_options::TellOptions;
use look_text::say;
use std::alloc::Global;
use sts_model::{Event, Stand};
use sts_plain::{can_step, stand_at};

/// Appends the number of an event and a blank.
pub(crate) fn say_event_number(alloc: Global, out: &mut Vec<u8>, number: usize) -> Said
    ensures { OnOk result (out.new.items ≡ out.old.items ++ def.number_words number) }
{
    let word = format!(in alloc; "{number} ")?;
    say(out, word.as_str())
}

/// Does an event of this number have lines?
fn is_asked(options: TellOptions, number: usize) -> bool
    ensures { result ≡ def.is_asked options number }
{
    options.first as usize <= number
}

/// Does a step that does this have a line?
fn is_told(options: TellOptions, deed: Deed) -> bool
    ensures { result ≡ def.is_told options deed }
{
    match deed {
        Deed::Own => options.each,
        _ => true,
    }
}

/// May the task not step, although it lives?
fn is_waiting(story: &Story<'_>, t: u32) -> bool
    ensures value { result ≡ def.is_waiting story.now t }
    ensures lives { result ≡ true
        → living.lives (model.task_at story.now.watched.last t) ≡ true }
    ensures born { result ≡ true → t < length story.now.watched.last.tasks }
{
    story.records().lives(t) && !can_step(story.world(), story.program(), t)
}

impl Told<'_, '_, '_, '_> {
    /// The subtasks that a task waits for.
    fn say_waits_for(self, alloc: Global, out: &mut Vec<u8>, stand: Stand) -> Said
        ensures { OnOk result (out.new.items ≡ out.old.items
            ++ def.waits_for self.entry.names.now self.entry.story.now stand) }
    {
        match stand {
            Stand::Free => Ok(()),
            Stand::AtJoin(s) | Stand::AtClose(s) => {
                self.say_living(alloc, out, " waits for ", s)
            }
        }
    }

    /// Where a task is, after the number of an event.
    fn say_head(self, alloc: Global, out: &mut Vec<u8>, number: usize, t: u32) -> Said
        ensures { OnOk result (out.new.items ≡ out.old.items
            ++ def.head_words self.entry.names.now number self.entry.story.now t) }
    {
        say_event_number(alloc, out, number)?;
        self.say_place_of(alloc, out, t)
    }

    fn say_wait_line(self, alloc: Global, out: &mut Vec<u8>, number: usize, t: u32) -> Said
        requires born { t < length self.story.now.watched.last.tasks }
        requires lives { living.lives (model.task_at self.story.now.watched.last t) ≡ true }
        ensures { OnOk result (out.new.items ≡ out.old.items
            ++ def.wait_line self.entry.names.now number self.entry.story.now t) }
    {
        self.say_head(alloc, out, number, t)?;
        let stand = stand_at(self.story.world(), self.story.program(), t);
        self.say_waits_for(alloc, out, stand)?;
        say(out, "\n")
    }

    /// Says that the task waits now, if it does.
    fn say_wait(self, alloc: Global, out: &mut Vec<u8>, number: usize, t: u32) -> Said
        ensures { OnOk result (out.new.items ≡ out.old.items
            ++ def.wait_block self.entry.names.now number self.entry.story.now t) }
    {
        if is_waiting(self.story, t) {
            self.say_wait_line(alloc, out, number, t)
        } else {
            Ok(())
        }
    }

    fn say_interrupt(self, alloc: Global, out: &mut Vec<u8>, number: usize, t: u32) -> Said
        ensures { OnOk result (out.new.items ≡ out.old.items
            ++ def.interrupt_line self.entry.names.now number self.entry.story.now t) }
    {
        say_event_number(alloc, out, number)?;
        say(out, "interrupt of ")?;
        self.say_task(alloc, out, t)?;
        say_if(
            out,
            self.story.records().flag(t),
            ", which was interrupted before",
        )?;
        say(out, "\n")
    }

    /// Whether the scope was cancelled before its expiry.
    fn say_expired_words(
        self,
        alloc: Global,
        out: &mut Vec<u8>,
        s: u32,
        was_cancelled: bool,
    ) -> Said
        ensures { OnOk result (out.new.items ≡ out.old.items
            ++ def.expired_words self.entry.names.now self.entry.story.now s was_cancelled) }
    {
        if was_cancelled {
            return say(out, ", which was cancelled before");
        }
        say(out, " cancels it")?;
        self.say_interrupts(alloc, out, s)
    }
}

/// The number of an event, the names of its text, and the events and steps that get lines.
#[derive(Clone, Copy)]
pub struct Telling<'a, 't> {
    pub names: &'a Names<'t>,
    pub options: TellOptions,
    pub number: usize,
}

impl Telling<'_, '_> {
    /// A step of a task, in a line.
    fn say_step_line(
        self,
        alloc: Global,
        out: &mut Vec<u8>,
        story: &mut Story<'_>,
        t: u32,
        deed: Deed,
    ) -> Said
        ensures after { OnOk result (story.new
            ≡ next self.entry.options.strict story.old (Event.Step t)) }
        ensures said { OnOk result (out.new.items ≡ out.old.items ++ def.step_line
            self.entry.names.now self.entry.number story.old story.new t deed) }
    {
        let names = self.names;
        Told { names, story }.say_head(alloc, out, self.number, t)?;
        story.apply(alloc, self.options.strict, Event::Step(t))?;
        Told { names, story }.say_deed(alloc, out, t, deed)?;
        say(out, "\n")
    }

    /// A step of a task, if it has a line.
    #[tactic(auto, unfolding(crate::specs::Line::told_step))]
    fn say_if_told(self, alloc: Global, out: &mut Vec<u8>, story: &mut Story<'_>, t: u32) -> Said
        ensures after { OnOk result (story.new
            ≡ next self.entry.options.strict story.old (Event.Step t)) }
        ensures said { OnOk result (out.new.items ≡ out.old.items ++ def.told_step
            self.entry.names.now self.entry.options self.entry.number story.old story.new t
            (deeds.next_deed (program_of story.old) (world_of story.old) t)) }
    {
        let deed = next_deed(story.world(), story.program(), t);
        if is_told(self.options, deed) {
            self.say_step_line(alloc, out, story, t, deed)
        } else {
            story.apply(alloc, self.options.strict, Event::Step(t))
        }
    }

    /// A step of a task: its line, if it has one, and whether the task waits now.
    fn say_step(self, alloc: Global, out: &mut Vec<u8>, story: &mut Story<'_>, t: u32) -> Said
        ensures after { OnOk result (story.new
            ≡ next self.entry.options.strict story.old (Event.Step t)) }
        ensures said { OnOk result (out.new.items ≡ out.old.items ++ def.step_block
            self.entry.names.now self.entry.options self.entry.number story.old story.new t) }
    {
        let names = self.names;
        self.say_if_told(alloc, out, story, t)?;
        Told { names, story }.say_wait(alloc, out, self.number, t)
    }

    fn say_expiry(self, alloc: Global, out: &mut Vec<u8>, story: &mut Story<'_>, s: u32) -> Said
        ensures after { OnOk result (story.new
            ≡ next self.entry.options.strict story.old (Event.Expire s)) }
        ensures said { OnOk result (out.new.items ≡ out.old.items
            ++ def.expiry_line self.entry.names.now self.entry.number story.old story.new s) }
    {
        let names = self.names;
        let was_cancelled = story.records().is_cancelled(s);
        story.apply(alloc, self.options.strict, Event::Expire(s))?;
        say_event_number(alloc, out, self.number)?;
        say_numbered(alloc, out, "expiry of scope ", s)?;
        Told { names, story }.say_expired_words(alloc, out, s, was_cancelled)?;
        say(out, "\n")
    }

    /// Appends the lines of an event, whether it counts or not, and goes on by it.
    ///
    /// # Errors
    ///
    /// Memory ran out; `out` may then have a part of them.
    pub fn say_event(
        self,
        alloc: Global,
        out: &mut Vec<u8>,
        story: &mut Story<'_>,
        event: Event,
    ) -> Said
        ensures after { OnOk result (story.new
            ≡ next self.entry.options.strict story.old event) }
        ensures said { OnOk result (out.new.items ≡ out.old.items ++ def.event_block
            self.entry.names.now self.entry.options self.entry.number story.old event) }
    {
        let names = self.names;
        if story.is_idle(event) {
            say_event_number(alloc, out, self.number)?;
            Told { names, story }.say_idle(alloc, out, event)?;
            return story.apply(alloc, self.options.strict, event);
        }
        match event {
            Event::Step(t) => self.say_step(alloc, out, story, t),
            Event::Interrupt(t) => {
                Told { names, story }.say_interrupt(alloc, out, self.number, t)?;
                story.apply(alloc, self.options.strict, event)
            }
            Event::Expire(s) => self.say_expiry(alloc, out, story, s),
        }
    }
}

/// An event, its number, and which lines it gets.
#[derive(Clone, Copy)]
struct Happening<'a, 't> {
    telling: Telling<'a, 't>,
    event: Event,
}

impl Happening<'_, '_> {
    /// An event, if it is among those with lines.
    fn say_if_asked(self, alloc: Global, out: &mut Vec<u8>, story: &mut Story<'_>) -> Said
        ensures after { OnOk result (story.new
            ≡ next self.entry.telling.options.strict story.old self.entry.event) }
        ensures said { OnOk result (out.new.items ≡ out.old.items ++ def.asked_block
            self.entry.telling.names.now self.entry.telling.options self.entry.telling.number
            story.old self.entry.event) }
    {
        let telling = self.telling;
        if story.has_stopped() || !is_asked(telling.options, telling.number) {
            story.apply(alloc, telling.options.strict, self.event)
        } else {
            telling.say_event(alloc, out, story, self.event)
        }
    }
}

/// Appends the lines of these events, numbered from 1 on, and applies them.
///
/// # Errors
///
/// Memory ran out; `out` may then have a part of them.
pub(crate) fn say_events(
    alloc: Global,
    out: &mut Vec<u8>,
    names: &Names<'_>,
    options: TellOptions,
    story: &mut Story<'_>,
    events: &[Event],
) -> Said
    ensures after { OnOk result (story.new
        ≡ fold (next options.strict) story.old events.now) }
    ensures said { OnOk result (out.new.items ≡ out.old.items
        ++ def.lines_from names.now options 1 story.old events.now) }
{
    for i in 0..events.len() {
        let number = i + 1;
        let telling = Telling {
            names,
            options,
            number,
        };
        let event = events[i];
        Happening { telling, event }.say_if_asked(alloc, out, story)?;
    }
    Ok(())
}
