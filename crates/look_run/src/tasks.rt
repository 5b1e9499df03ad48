//! The lines of a run: its state, where each living task is, and which tasks it waits for.

ghost use Rattle.std.specs.Prelude.{◌≡◌, ◌++◌, ◌<◌, OnOk, length, true};
ghost use Rattle.std.specs.List.{flat_map};
ghost use Rattle.sts_model.specs.Living as living;
ghost use Rattle.sts_model.specs.World as model;
ghost use Rattle.look_run.specs.Lines as def;

use crate::remedy::remedy_of;
use crate::states::Told;
use look_names::Said;
use look_refusal::remedy_sentence;
use look_text::say;
use std::alloc::Global;
use sts_code::Program;
use sts_model::{Fault, Stand};
use sts_plain::{PlainState, can_step, stand_at};
use sts_world::{Records, World};

/// What to do about a fault of a living task.
fn say_remedy(out: &mut Vec<u8>, program: &Program, records: &Records, kind: Fault, t: u32) -> Said
    ensures { OnOk result (out.new.items
        ≡ out.old.items ++ def.remedy_line program.now records.now kind t) }
{
    if !records.lives(t) {
        return Ok(());
    }
    say(out, remedy_sentence(remedy_of(program, records, t, kind)))?;
    say(out, "\n")
}

/// What to do about the fault of a run, if it has one.
fn say_remedy_part(
    out: &mut Vec<u8>,
    program: &Program,
    records: &Records,
    state: PlainState,
) -> Said
    ensures { OnOk result (out.new.items
        ≡ out.old.items ++ def.remedy_part program.now records.now state) }
{
    match state {
        PlainState::Fault { kind, task, .. } => say_remedy(out, program, records, kind, task),
        _ => Ok(()),
    }
}

/// Says whether the task is a living subtask of the scope.
pub fn is_living_subtask(records: &Records, s: u32, t: u32) -> bool
    ensures { result ≡ living.is_living_subtask s (model.task_at records.now t) }
{
    match records.parent(t) {
        None => false,
        Some(parent) => parent == s && records.lives(t),
    }
}

fn say_subtask(alloc: Global, out: &mut Vec<u8>, records: &Records, s: u32, t: u32) -> Said
    ensures { OnOk result (out.new.items ≡ out.old.items ++ def.subtask_word records.now s t) }
{
    if !is_living_subtask(records, s, t) {
        return Ok(());
    }
    let word = format!(in alloc; " {t}")?;
    say(out, word.as_str())
}

/// The living ones of these tasks, if they are subtasks of the scope.
fn say_births(alloc: Global, out: &mut Vec<u8>, records: &Records, s: u32, births: &[u32]) -> Said
    ensures { OnOk result (out.new.items ≡ out.old.items
        ++ flat_map (def.subtask_word records.now s) births.now) }
{
    for t in births {
        say_subtask(alloc, out, records, s, *t)?;
    }
    Ok(())
}

/// The living subtasks of a scope.
fn say_subtasks(alloc: Global, out: &mut Vec<u8>, world: &World, s: u32) -> Said
    ensures { OnOk result (out.new.items ≡ out.old.items
        ++ def.subtask_words world.now s world.now.tasks 0) }
{
    say_births(alloc, out, world.records(), s, world.subtasks(s))
}

/// `waits at join of scope S for T ..`
fn say_wait_for(alloc: Global, out: &mut Vec<u8>, world: &World, word: &str, s: u32) -> Said
    ensures { OnOk result (out.new.items ≡ out.old.items ++ def.wait_for world.now word.now s) }
{
    let head = format!(in alloc; "waits at {word} of scope {s} for")?;
    say(out, head.as_str())?;
    say_subtasks(alloc, out, world, s)
}

/// What a task that can't step waits for.
fn say_wait(alloc: Global, out: &mut Vec<u8>, world: &World, stand: Stand) -> Said
    ensures { OnOk result (out.new.items ≡ out.old.items ++ def.wait_words world.now stand) }
{
    match stand {
        Stand::Free => Ok(()),
        Stand::AtJoin(s) => say_wait_for(alloc, out, world, "join", s),
        Stand::AtClose(s) => say_wait_for(alloc, out, world, "close", s),
    }
}

/// The state of a living task.
fn say_life(alloc: Global, out: &mut Vec<u8>, program: &Program, world: &World, t: u32) -> Said
    requires born { t < length world.now.tasks }
    requires lives { living.lives (model.task_at world.now t) ≡ true }
    ensures { OnOk result (out.new.items ≡ out.old.items
        ++ def.life_words program.now world.now t) }
{
    if can_step(world, program, t) {
        return say(out, "ready");
    }
    say_wait(alloc, out, world, stand_at(world, program, t))
}

impl Told<'_, '_> {
    /// The state of the run, and what to do about its fault. After a fault, the records are those
    /// before it.
    ///
    /// # Errors
    ///
    /// Memory ran out; `out` may then have a part of it.
    pub(crate) fn say_outcome(
        self,
        alloc: Global,
        out: &mut Vec<u8>,
        records: &Records,
        state: PlainState,
    ) -> Said
        ensures { OnOk result (out.new.items ≡ out.old.items
            ++ def.state_lines self.entry.names.now self.entry.program.now records.now state) }
    {
        self.say_state(alloc, out, state)?;
        say_remedy_part(out, self.program, records, state)
    }

    /// `task T in NAME, line L: WORDS (ready)`
    fn say_task_line(self, alloc: Global, out: &mut Vec<u8>, world: &World, t: u32) -> Said
        requires born { t < length world.now.tasks }
        requires lives { living.lives (model.task_at world.now t) ≡ true }
        ensures { OnOk result (out.new.items ≡ out.old.items
            ++ def.task_line self.entry.names.now self.entry.program.now world.now t) }
    {
        let records = world.records();
        self.say_task(alloc, out, t, records.function(t), records.pc(t))?;
        say(out, " (")?;
        say_life(alloc, out, self.program, world, t)?;
        say(out, ")\n")
    }

    fn say_if_living(self, alloc: Global, out: &mut Vec<u8>, world: &World, t: u32) -> Said
        ensures { OnOk result (out.new.items ≡ out.old.items
            ++ def.living_line self.entry.names.now self.entry.program.now world.now t) }
    {
        if world.records().lives(t) {
            self.say_task_line(alloc, out, world, t)
        } else {
            Ok(())
        }
    }

    /// The lines of the tasks that live.
    ///
    /// # Errors
    ///
    /// Memory ran out; `out` may then have a part of them.
    pub(crate) fn say_living(self, alloc: Global, out: &mut Vec<u8>, world: &World) -> Said
        ensures { OnOk result (out.new.items ≡ out.old.items
            ++ def.living_lines self.entry.names.now self.entry.program.now world.now
            world.now.tasks 0) }
    {
        for t in 0..world.records().tasks_born() {
            self.say_if_living(alloc, out, world, t as u32)?;
        }
        Ok(())
    }
}
