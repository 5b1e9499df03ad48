//! A story: the machine, and the arguments that each task was forked with.

ghost use Rattle.std.specs.Prelude.{◌≡◌, [], IfOk, OnOk, ℤ, List, option_map, slice_index_or};
ghost use Rattle.sts_model.specs.Run.{counts};
ghost use Rattle.sts_plain.specs.Seen.{shown};
ghost use Rattle.look_tell.specs.Story as def;

use look_lines::Watch;
use std::alloc::{AllocError, Global};
use std::marker::Model;
use sts_code::{Instr, Program, args};
use sts_frames::instr_at;
use sts_model::{Event, Frame};
use sts_plain::PlainState;
use sts_world::{Records, World};

/// The arguments that a task was forked with, the first one first.
#[derive(Drop)]
pub(crate) struct Arguments {
    values: Vec<i64>,
}

impl Model for Arguments {
    ghost use Rattle.std.specs.Prelude.{List, ℤ};

    ghost Value = { List ℤ };

    ghost view = { λ a. a.values.items };
}

/// A story.
#[derive(Drop)]
pub struct Story<'p> {
    watch: Watch<'p>,
    given: Vec<Arguments>,
    stopped: bool,
}

impl<'p> Model for Story<'p> {
    ghost use Rattle.look_tell.specs.Story.{Story};

    ghost Value = { Story };

    ghost view = { λ s. record {
      watched = s.watch;
      given = s.given.items;
      stopped = s.stopped;
    } };
}

fn arguments_among(given: &[Arguments], t: u32) -> &[i64]
    ensures { result.now ≡ slice_index_or given.now t [] }
{
    match given.get(t as usize) {
        Some(arguments) => arguments.values.as_slice(),
        None => &[],
    }
}

/// The operands that a `fork` of this function takes.
fn fork_arguments<'f>(program: &Program, frame: &'f Frame, function: u32) -> &'f [i64]
    ensures { result.now ≡ def.fork_arguments program.now frame.now function }
{
    let operands = frame.operands.as_slice();
    let first = operands
        .len()
        .saturating_sub(args(program, function) as usize);
    &operands[first..]
}

fn arguments_at<'f>(program: &Program, frame: &'f Frame, instr: Option<Instr>) -> Option<&'f [i64]>
    ensures { option_map (λ a. a.now) result ≡ def.arguments_at program.now frame.now instr }
{
    match instr {
        Some(Instr::Fork { function, .. }) => Some(fork_arguments(program, frame, function)),
        _ => None,
    }
}

fn arguments_of<'w>(program: &Program, records: &'w Records, t: u32) -> Option<&'w [i64]>
    ensures { option_map (λ a. a.now) result
        ≡ def.arguments_by program.now records.now (Event.Step t) }
{
    if !records.lives(t) {
        return None;
    }
    let frame = records.frame(t);
    arguments_at(program, frame, instr_at(program, frame))
}

/// The arguments of the task that an event forks, if it forks one.
fn arguments_by<'w>(program: &Program, records: &'w Records, event: Event) -> Option<&'w [i64]>
    ensures { option_map (λ a. a.now) result
        ≡ def.arguments_by program.now records.now event }
{
    match event {
        Event::Step(t) => arguments_of(program, records, t),
        Event::Interrupt(_) | Event::Expire(_) => None,
    }
}

/// Keeps the arguments of one task more, if there is one.
fn keep(
    alloc: Global,
    given: &mut Vec<Arguments>,
    arguments: Option<&[i64]>,
) -> Result<(), AllocError>
    ensures { OnOk result (given.new.items
        ≡ def.with_arguments given.old.items (option_map (λ a. a.now) arguments.entry)) }
{
    match arguments {
        None => Ok(()),
        Some(arguments) => {
            let values = Vec::from_slice(alloc, arguments)?;
            given.push(Arguments { values })?;
            Ok(())
        }
    }
}

impl<'p> Story<'p> {
    /// The story before the first event.
    ///
    /// # Errors
    ///
    /// Memory ran out.
    pub fn begun(alloc: Global, program: &'p Program) -> Result<Story<'p>, AllocError>
        ensures { IfOk result (λ s. s ≡ def.begun program.now) }
    {
        let watch = Watch::start(alloc, program)?;
        let mut given = Vec::new(alloc);
        given.push(Arguments {
            values: Vec::new(alloc),
        })?;
        Ok(Story {
            watch,
            given,
            stopped: false,
        })
    }

    /// The story after these events, whether each counts or not.
    ///
    /// # Errors
    ///
    /// Memory ran out.
    pub fn after(
        alloc: Global,
        program: &'p Program,
        events: &[Event],
    ) -> Result<Story<'p>, AllocError>
        ensures { IfOk result (λ s. s ≡ def.after_events program.now events.now) }
    {
        let mut story = Story::begun(alloc, program)?;
        for event in events {
            story.apply(alloc, false, *event)?;
        }
        Ok(story)
    }

    /// The machine that runs.
    pub fn watch(&self) -> &Watch<'p>
        ensures { result.now ≡ self.now.watched }
    {
        &self.watch
    }

    /// Does the event count here?
    pub fn counts(&self, event: Event) -> bool
        ensures { result ≡ counts self.now.watched.program self.now.watched.state event }
    {
        self.watch.counts(event)
    }

    pub(crate) fn program(&self) -> &Program
        ensures { result.now ≡ def.program_of self.now }
    {
        self.watch.program()
    }

    /// The world as it last ran.
    pub(crate) fn world(&self) -> &World
        ensures { result.now ≡ def.world_of self.now }
    {
        self.watch.world()
    }

    pub(crate) fn records(&self) -> &Records
        ensures { result.now ≡ def.world_of self.now }
    {
        self.watch.world().records()
    }

    /// The function of a task.
    pub(crate) fn function_of(&self, t: u32) -> u32
        ensures { result ≡ def.function_of self.now t }
    {
        self.watch.world().records().function(t)
    }

    /// The place of a task's next instruction.
    pub(crate) fn pc_of(&self, t: u32) -> u32
        ensures { result ≡ def.pc_of self.now t }
    {
        self.watch.world().records().pc(t)
    }

    pub(crate) fn state(&self) -> PlainState
        ensures { result ≡ shown self.now.watched.state }
    {
        self.watch.state()
    }

    /// The arguments that a task was forked with.
    pub(crate) fn given_to(&self, t: u32) -> &[i64]
        ensures { result.now ≡ def.given_to self.now t }
    {
        arguments_among(self.given.as_slice(), t)
    }

    pub(crate) fn has_stopped(&self) -> bool
        ensures { result ≡ self.now.stopped }
    {
        self.stopped
    }

    /// Does the event change nothing?
    pub(crate) fn is_idle(&self, event: Event) -> bool
        ensures { result ≡ def.is_idle self.now event }
    {
        !self.watch.counts(event)
    }

    /// Goes on by one event, in a story that hasn't stopped.
    fn one_more(&mut self, alloc: Global, strict: bool, event: Event) -> Result<(), AllocError>
        ensures { OnOk result (self.new ≡ def.one_more strict self.old event) }
    {
        let stops = strict && self.is_idle(event);
        let arguments = arguments_by(self.watch.program(), self.watch.world().records(), event);
        keep(alloc, &mut self.given, arguments)?;
        self.watch.apply(alloc, event)?;
        self.stopped = stops;
        Ok(())
    }

    /// Goes on by one event, unless the story has stopped. A strict story stops at an idle event.
    #[tactic(auto, unfolding(crate::specs::Story::next))]
    pub(crate) fn apply(
        &mut self,
        alloc: Global,
        strict: bool,
        event: Event,
    ) -> Result<(), AllocError>
        ensures { OnOk result (self.new ≡ def.next strict self.old event) }
    {
        if self.stopped {
            Ok(())
        } else {
            self.one_more(alloc, strict, event)
        }
    }
}
