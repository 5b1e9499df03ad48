//! The tasks, as JSON.

ghost use Rattle.std.specs.Prelude.{◌≡◌, ◌<◌, IfOk, length, true};
ghost use Rattle.serde_json.specs.View.{view, items_view, items_of};
ghost use Rattle.sts_model.specs.Living as living;
ghost use Rattle.sts_model.specs.World as model;
ghost use Rattle.look_views.specs.Task as def;

use crate::frames::frame;
use crate::named::{Listed, placed, with_name};
use look_cases::{Made, Scalar, object_of, widened, with_member};
use look_lines::{Watch, is_heard};
use look_names::Names;
use serde_json::Value;
use std::alloc::Global;
use sts_code::{Program, name_of};
use sts_model::{End, Stand};
use sts_plain::{can_step, stand_at};
use sts_world::{Records, World};

fn plain_state(alloc: Global, word: &str) -> Made
    ensures { IfOk result (λ v. view v ≡ def.plain_state word.now) }
{
    object_of(alloc, &[("is", Scalar::Text(word))])
}

fn waits(alloc: Global, word: &str, scope: u32) -> Made
    ensures { IfOk result (λ v. view v ≡ def.waits word.now scope) }
{
    object_of(
        alloc,
        &[
            ("is", Scalar::Text(word)),
            ("scope", Scalar::Count(scope as u64)),
        ],
    )
}

/// Returns for which scope a task that can't step waits, and where.
fn waiting(alloc: Global, stand: Stand) -> Made
    ensures { IfOk result (λ v. view v ≡ def.waiting stand) }
{
    match stand {
        Stand::Free => Ok(Value::Null),
        Stand::AtJoin(s) => waits(alloc, "waits join", s),
        Stand::AtClose(s) => waits(alloc, "waits close", s),
    }
}

/// Returns how a task ended, whether it is the root or its joiner was told, and the name of its
/// value or code.
fn ended(alloc: Global, names: &Names<'_>, is_heard: bool, end: Option<End>) -> Made
    ensures { IfOk result (λ v. view v ≡ def.ended names.now is_heard end) }
{
    let heard = ("heard", Scalar::Flag(is_heard));
    match end {
        None => Ok(Value::Null),
        Some(End::Success(value)) => {
            let is = ("is", Scalar::Text("success"));
            let ended = object_of(alloc, &[heard, is, ("value", Scalar::Integer(value))])?;
            with_name(alloc, ended, "name", names.value(value))
        }
        Some(End::Failed(code)) => {
            let is = ("is", Scalar::Text("failed"));
            let ended = object_of(alloc, &[("code", Scalar::Integer(code)), heard, is])?;
            with_name(alloc, ended, "name", names.value(code))
        }
    }
}

/// Returns the state of a task that doesn't live.
fn rest(alloc: Global, names: &Names<'_>, world: &World, t: u32) -> Made
    ensures { IfOk result (λ v. view v ≡ def.rest names.now world.now t) }
{
    if world.records().has_started(t) {
        ended(alloc, names, is_heard(world, t), world.records().outcome(t))
    } else {
        plain_state(alloc, "never-started")
    }
}

/// Returns the state of a task: ready, what it waits for, or how it ended.
fn state(alloc: Global, names: &Names<'_>, program: &Program, world: &World, t: u32) -> Made
    requires { t < length world.now.tasks }
    ensures { IfOk result (λ v. view v ≡ def.state names.now program.now world.now t) }
{
    if !world.records().lives(t) {
        return rest(alloc, names, world, t);
    }
    if can_step(world, program, t) {
        return plain_state(alloc, "ready");
    }
    waiting(alloc, stand_at(world, program, t))
}

fn brief(alloc: Global, names: &Names<'_>, program: &Program, world: &World, t: u32) -> Made
    requires { t < length world.now.tasks }
    ensures { IfOk result (λ v. view v ≡ def.brief names.now program.now world.now t) }
{
    let records = world.records();
    let brief = object_of(
        alloc,
        &[
            (
                "function",
                Scalar::Text(name_of(program, records.function(t))),
            ),
            ("interrupted", Scalar::Flag(records.flag(t))),
            ("place", Scalar::Count(records.pc(t) as u64)),
            ("task", Scalar::Count(t as u64)),
            ("under", Scalar::MaybeCount(widened(records.parent(t)))),
        ],
    );
    with_member(
        alloc,
        brief,
        "state",
        state(alloc, names, program, world, t),
    )
}

/// Returns a living task with its operands, locals and bindings.
fn whole(alloc: Global, names: &Names<'_>, program: &Program, world: &World, t: u32) -> Made
    requires born { t < length world.now.tasks }
    requires lives { living.lives (model.task_at world.now t) ≡ true }
    ensures { IfOk result (λ v. view v ≡ def.whole names.now program.now world.now t) }
{
    let brief = brief(alloc, names, program, world, t);
    with_member(alloc, brief, "frame", frame(alloc, world.records(), t))
}

fn plain_task(alloc: Global, names: &Names<'_>, full: bool, watch: &Watch<'_>, t: u32) -> Made
    requires { t < length watch.now.last.tasks }
    ensures { IfOk result (λ v. view v
        ≡ def.plain_task names.now watch.now.program full watch.now.last t) }
{
    let program = watch.program();
    let world = watch.world();
    if full && world.records().lives(t) {
        whole(alloc, names, program, world, t)
    } else {
        brief(alloc, names, program, world, t)
    }
}

/// Returns the place of the next instruction of a task, or after its end that of its last one.
fn shown_place(records: &Records, t: u32) -> u32
    ensures { result ≡ def.shown_place (model.task_at records.now t) }
{
    let place = records.pc(t);
    if records.has_started(t) && !records.lives(t) {
        place.saturating_sub(1)
    } else {
        place
    }
}

/// Returns a task with the names of its function and its line.
fn task(alloc: Global, names: &Names<'_>, full: bool, watch: &Watch<'_>, t: u32) -> Made
    requires { t < length watch.now.last.tasks }
    ensures { IfOk result (λ v. view v
        ≡ def.task names.now watch.now.program full watch.now.last t) }
{
    let task = plain_task(alloc, names, full, watch, t)?;
    let records = watch.world().records();
    let place = shown_place(records, t);
    placed(alloc, names, records.function(t), place, task)
}

/// Returns all tasks that were ever born. In full they have the frames of living tasks.
///
/// # Errors
///
/// Memory was refused.
pub(crate) fn tasks(alloc: Global, names: &Names<'_>, full: bool, watch: &Watch<'_>) -> Listed
    ensures { IfOk result (λ list. items_view list.items ≡ items_of
        (def.tasks names.now watch.now.program full watch.now.last watch.now.last.tasks 0)) }
{
    let mut list = Vec::new(alloc);
    let records = watch.world().records();
    for t in 0..records.tasks_born() {
        list.push(task(alloc, names, full, watch, t as u32)?)?;
    }
    Ok(list)
}

/// Returns the tasks that live. In full they have their frames.
///
/// # Errors
///
/// Memory was refused.
pub(crate) fn living_tasks(
    alloc: Global,
    names: &Names<'_>,
    full: bool,
    watch: &Watch<'_>,
) -> Listed
    ensures { IfOk result (λ list. items_view list.items ≡ items_of
        (def.living_tasks names.now watch.now.program full watch.now.last watch.now.last.tasks 0)) }
{
    let mut list = Vec::new(alloc);
    let records = watch.world().records();
    for t in 0..records.tasks_born() {
        if records.lives(t as u32) {
            list.push(task(alloc, names, full, watch, t as u32)?)?;
        }
    }
    Ok(list)
}
