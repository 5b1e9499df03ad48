//! The lines of the tasks.

ghost use Rattle.std.specs.Prelude.{◌≡◌, ◌++◌, ◌<◌, OnOk, length, reverse, true};
ghost use Rattle.std.specs.String.{string_bytes};
ghost use Rattle.sts_model.specs.Living as living;
ghost use Rattle.sts_model.specs.World as model;
ghost use Rattle.sts_output.specs.Printed.{ended};
ghost use Rattle.look_lines.specs.Lines as def;

use crate::naming::{Naming, Plain, Said};
use look_options::ViewOptions;
use std::fmt::Write;
use sts_code::Program;
use sts_model::{End, Stand};
use sts_plain::{can_step, stand_at};
use sts_world::{Records, World};

/// A world, and the program that it runs.
#[derive(Clone, Copy)]
struct Execution<'w> {
    program: &'w Program,
    world: &'w World,
}

/// Writes a word if `holds` is true, and the line's end.
pub(crate) fn ended_by(out: &mut String, holds: bool, word: &str) -> Said
    ensures { OnOk result (string_bytes out.new
        ≡ string_bytes out.old ++ ended (def.only_if holds word.now)) }
{
    if holds {
        writeln!(out, "{word}")
    } else {
        writeln!(out)
    }
}

/// How a task ended.
pub(crate) fn end_words<N: Naming>(out: &mut String, naming: &N, end: Option<End>) -> Said
    ensures { OnOk result (string_bytes out.new
        ≡ string_bytes out.old ++ def.end_words (N.names naming.now) end) }
{
    match end {
        None => Ok(()),
        Some(End::Success(value)) => {
            out.push_str(" success ")?;
            naming.say_value(out, value)
        }
        Some(End::Failed(code)) => {
            out.push_str(" failed ")?;
            naming.say_value(out, code)
        }
    }
}

/// What a task that can't step waits for.
fn wait_words(out: &mut String, stand: Stand) -> Said
    ensures { OnOk result (string_bytes out.new ≡ string_bytes out.old ++ def.wait_words stand) }
{
    match stand {
        Stand::Free => Ok(()),
        Stand::AtJoin(s) => write!(out, " waits join {s}"),
        Stand::AtClose(s) => write!(out, " waits close {s}"),
    }
}

/// Is the task the root, or was the joiner of its scope told of its end?
pub fn is_heard(world: &World, t: u32) -> bool
    ensures { result ≡ def.is_heard world.now t (model.task_at world.now t).scope }
{
    match world.records().parent(t) {
        None => true,
        Some(_) => world.sub_state(t).is_some(),
    }
}

/// How a task ended that was started.
fn ended_words<N: Naming>(out: &mut String, naming: &N, world: &World, t: u32) -> Said
    ensures { OnOk result (string_bytes out.new
        ≡ string_bytes out.old ++ def.ended_words (N.names naming.now) world.now t) }
{
    if !is_heard(world, t) {
        write!(out, " unheard")?;
    }
    end_words(out, naming, world.records().outcome(t))
}

/// The state of a task that doesn't live.
fn rest_words<N: Naming>(out: &mut String, naming: &N, world: &World, t: u32) -> Said
    ensures { OnOk result (string_bytes out.new
        ≡ string_bytes out.old ++ def.rest_words (N.names naming.now) world.now t) }
{
    if world.records().has_started(t) {
        ended_words(out, naming, world, t)
    } else {
        write!(out, " never-started")
    }
}

/// The state of a task: ready, what it waits for, or how it ended.
fn state_words<N: Naming>(out: &mut String, naming: &N, at: Execution<'_>, t: u32) -> Said
    requires { t < length at.world.now.tasks }
    ensures { OnOk result (string_bytes out.new ≡ string_bytes out.old
        ++ def.state_words (N.names naming.now) at.entry.program.now at.entry.world.now t) }
{
    let world = at.world;
    if !world.records().lives(t) {
        return rest_words(out, naming, world, t);
    }
    if can_step(world, at.program, t) {
        return write!(out, " ready");
    }
    wait_words(out, stand_at(world, at.program, t))
}

/// Appends the state of a task without names of a text.
///
/// # Errors
///
/// Memory ran out; `out` may then have a part of it.
pub fn stand_words(out: &mut String, program: &Program, world: &World, t: u32) -> Said
    requires { t < length world.now.tasks }
    ensures { OnOk result (string_bytes out.new
        ≡ string_bytes out.old ++ def.stand_words program.now world.now t) }
{
    state_words(out, &Plain, Execution { program, world }, t)
}

/// The scope that a task is a subtask of, or `-` for the root.
///
/// # Errors
///
/// Memory ran out; `out` may then have a part of it.
pub fn under_words(out: &mut String, scope: Option<u32>) -> Said
    ensures { OnOk result (string_bytes out.new ≡ string_bytes out.old ++ def.under_words scope) }
{
    match scope {
        None => write!(out, "-"),
        Some(s) => write!(out, "{s}"),
    }
}

/// `task T under S in NAME at PC`, and what is said of the place
fn task_place<N: Naming>(
    out: &mut String,
    naming: &N,
    program: &Program,
    records: &Records,
    t: u32,
) -> Said
    ensures { OnOk result (string_bytes out.new ≡ string_bytes out.old
        ++ def.task_place (N.names naming.now) program.now records.now t) }
{
    let pc = records.pc(t);
    write!(out, "task {t} under ")?;
    under_words(out, records.parent(t))?;
    out.push_str(" in ")?;
    naming.say_function(out, program, records.function(t))?;
    write!(out, " at {pc}")?;
    naming.say_place(out, records, t)
}

/// The state of a task, and whether an interrupt is pending.
fn task_stand<N: Naming>(out: &mut String, naming: &N, at: Execution<'_>, t: u32) -> Said
    requires { t < length at.world.now.tasks }
    ensures { OnOk result (string_bytes out.new ≡ string_bytes out.old
        ++ def.task_stand (N.names naming.now) at.entry.program.now at.entry.world.now t) }
{
    state_words(out, naming, at, t)?;
    ended_by(out, at.world.records().flag(t), " interrupted")
}

fn task_line<N: Naming>(out: &mut String, naming: &N, at: Execution<'_>, t: u32) -> Said
    requires { t < length at.world.now.tasks }
    ensures { OnOk result (string_bytes out.new ≡ string_bytes out.old
        ++ def.task_line (N.names naming.now) at.entry.program.now at.entry.world.now t) }
{
    task_place(out, naming, at.program, at.world.records(), t)?;
    task_stand(out, naming, at, t)
}

/// A value after a blank.
fn operand_words<N: Naming>(out: &mut String, naming: &N, value: i64) -> Said
    ensures { OnOk result (string_bytes out.new
        ≡ string_bytes out.old ++ def.operand_words (N.names naming.now) value) }
{
    out.push_str(" ")?;
    naming.say_value(out, value)
}

/// The operands, the top last.
fn operands_line<N: Naming>(out: &mut String, naming: &N, operands: &[i64]) -> Said
    ensures { OnOk result (string_bytes out.new ≡ string_bytes out.old
        ++ def.operands_line (N.names naming.now) (reverse operands.now)) }
{
    write!(out, "  operands")?;
    for value in operands {
        operand_words(out, naming, *value)?;
    }
    writeln!(out)
}

/// ` N=V`
fn pair_words<N: Naming>(out: &mut String, naming: &N, n: usize, value: i64) -> Said
    ensures { OnOk result (string_bytes out.new
        ≡ string_bytes out.old ++ def.pair_words (N.names naming.now) n value) }
{
    write!(out, " {n}=")?;
    naming.say_value(out, value)
}

/// The value of a local, unless it is 0.
fn local_words<N: Naming>(out: &mut String, naming: &N, x: usize, value: i64) -> Said
    ensures { OnOk result (string_bytes out.new
        ≡ string_bytes out.old ++ def.local_word (N.names naming.now) x value) }
{
    if value == 0 {
        Ok(())
    } else {
        pair_words(out, naming, x, value)
    }
}

/// The locals that aren't 0.
fn locals_line<N: Naming>(out: &mut String, naming: &N, locals: &[i64]) -> Said
    ensures { OnOk result (string_bytes out.new
        ≡ string_bytes out.old ++ def.locals_line (N.names naming.now) locals.now) }
{
    write!(out, "  locals")?;
    for x in 0..locals.len() {
        local_words(out, naming, x, locals[x])?;
    }
    writeln!(out)
}

/// The bound keys among these, with their values.
fn key_words<N: Naming>(
    out: &mut String,
    naming: &N,
    records: &Records,
    t: u32,
    keys: &[u8],
) -> Said
    ensures { OnOk result (string_bytes out.new ≡ string_bytes out.old
        ++ def.key_words (N.names naming.now) records.now t keys.now) }
{
    for k in keys {
        if let Some(value) = records.read(t, *k) {
            pair_words(out, naming, usize::from(*k), value)?;
        }
    }
    Ok(())
}

/// The keys that are bound for a task, with the innermost values.
fn bound_line<N: Naming>(out: &mut String, naming: &N, records: &Records, t: u32) -> Said
    ensures { OnOk result (string_bytes out.new
        ≡ string_bytes out.old ++ def.bound_line (N.names naming.now) records.now t) }
{
    let keys = [0, 1, 2, 3, 4, 5, 6, 7, 8, 9, 10, 11, 12, 13, 14, 15];
    write!(out, "  bound")?;
    key_words(out, naming, records, t, &keys)?;
    writeln!(out)
}

/// The own state of a living task.
fn frame_lines<N: Naming>(out: &mut String, naming: &N, records: &Records, t: u32) -> Said
    requires born { t < length records.now.tasks }
    requires lives { living.lives (model.task_at records.now t) ≡ true }
    ensures { OnOk result (string_bytes out.new
        ≡ string_bytes out.old ++ def.frame_lines (N.names naming.now) records.now t) }
{
    let frame = records.frame(t);
    operands_line(out, naming, frame.operands.as_slice())?;
    locals_line(out, naming, &frame.locals)?;
    bound_line(out, naming, records, t)
}

/// The lines of a task that is wanted. In full they show the own state of a living task.
fn task_block<N: Naming>(
    out: &mut String,
    naming: &N,
    at: Execution<'_>,
    wanted: ViewOptions,
    t: u32,
) -> Said
    requires { t < length at.world.now.tasks }
    ensures { OnOk result (string_bytes out.new ≡ string_bytes out.old ++ def.task_block
        (N.names naming.now) at.entry.program.now wanted at.entry.world.now t) }
{
    let records = at.world.records();
    let lives = records.lives(t);
    if wanted.living && !lives {
        return Ok(());
    }
    task_line(out, naming, at, t)?;
    if wanted.full && lives {
        frame_lines(out, naming, records, t)?;
    }
    Ok(())
}

/// The lines of all tasks that were ever born, or of those that live.
///
/// # Errors
///
/// Memory ran out; `out` may then have a part of them.
pub fn task_lines<N: Naming>(
    out: &mut String,
    naming: &N,
    program: &Program,
    wanted: ViewOptions,
    world: &World,
) -> Said
    ensures { OnOk result (string_bytes out.new ≡ string_bytes out.old ++ def.task_lines
        (N.names naming.now) program.now wanted world.now world.now.tasks 0) }
{
    for t in 0..world.records().tasks_born() {
        task_block(out, naming, Execution { program, world }, wanted, t as u32)?;
    }
    Ok(())
}
