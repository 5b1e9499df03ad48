//! The state of a machine, and an event with the state after it, as lines of JSON.

ghost use Rattle.std.specs.Prelude.{◌≡◌, ◌++◌, OnOk, IfOk, false};
ghost use Rattle.std.specs.String.{string_bytes};
ghost use Rattle.serde_json.specs.Data.{Data, Items, Members, object};
ghost use Rattle.serde_json.specs.View.{view};
ghost use Rattle.serde_json.specs.Written.{has_float};
ghost use Rattle.sts_trace.specs.Spelling.{event_text};
ghost use Rattle.look_cases.specs.Objects.{Makes, MakesList};
ghost use Rattle.look_views.specs.Stand as stand;
ghost use Rattle.look_views.specs.Views as def;

use crate::named::Listed;
use crate::runs::run;
use crate::scopes::{open_scopes, scopes};
use crate::tasks::{living_tasks, tasks};
use look_cases::{Made, Scalar, object_of, with_list, with_member, with_text};
use look_lines::{Applied, Said, View, Watch, closed, event_words, resting};
use look_names::Names;
use look_options::ViewOptions;
use serde_json::Value;
use std::alloc::{AllocError, Global};
use std::fmt::Write;
use sts_model::Event;
use sts_world::Records;

/// The version of the lines.
pub const VERSION: u64 = 1;

/// Returns how many tasks don't live, and how many scopes are closed.
fn not_shown(alloc: Global, records: &Records) -> Made
    ensures { IfOk result (λ v. view v ≡ def.not_shown records.now) }
{
    object_of(
        alloc,
        &[
            ("scopes", Scalar::Count(closed(records) as u64)),
            ("tasks", Scalar::Count(resting(records) as u64)),
        ],
    )
}

/// Adds to an object the state of the run.
fn with_run(alloc: Global, names: &Names<'_>, watch: &Watch<'_>, value: Made) -> Made
    ensures { (ms : Members) → Makes (object ms) value
        → Makes (object (stand.with_run names.now watch.now ms)) result }
{
    let state = run(alloc, names, watch.program(), watch.state(), watch.steps());
    with_member(alloc, value, "run", state)
}

/// Adds scopes and tasks to an object.
fn with_lists(alloc: Global, value: Made, scopes: Listed, tasks: Listed) -> Made
    ensures { (ms : Members) → (ss ts : Items) → Makes (object ms) value
        → MakesList ss scopes → MakesList ts tasks
        → Makes (object (stand.with_lists ss ts ms)) result }
{
    let value = with_list(alloc, value, "scopes", scopes);
    with_list(alloc, value, "tasks", tasks)
}

/// Adds to an object the state of the run, and all tasks and scopes.
fn with_whole(alloc: Global, names: &Names<'_>, watch: &Watch<'_>, full: bool, value: Made) -> Made
    ensures { (ms : Members) → Makes (object ms) value
        → Makes (object (stand.with_whole names.now full watch.now ms)) result }
{
    let value = with_run(alloc, names, watch, value);
    let scopes = scopes(alloc, names, full, watch.world().records());
    let tasks = tasks(alloc, names, full, watch);
    with_lists(alloc, value, scopes, tasks)
}

/// Adds to an object the state of the run, the tasks that live, and the scopes that are open.
fn with_living(alloc: Global, names: &Names<'_>, watch: &Watch<'_>, full: bool, value: Made) -> Made
    ensures { (ms : Members) → Makes (object ms) value
        → Makes (object (stand.with_living names.now full watch.now ms)) result }
{
    let others = not_shown(alloc, watch.world().records());
    let value = with_member(alloc, value, "not_shown", others);
    let value = with_run(alloc, names, watch, value);
    let scopes = open_scopes(alloc, names, full, watch.world().records());
    let tasks = living_tasks(alloc, names, full, watch);
    with_lists(alloc, value, scopes, tasks)
}

/// Returns an object with the number of a view's last event.
fn numbered(alloc: Global, n: usize) -> Made
    ensures { IfOk result (λ v. view v ≡ object (stand.numbered n)) }
{
    object_of(
        alloc,
        &[
            ("after", Scalar::Count(n as u64)),
            ("version", Scalar::Count(VERSION)),
        ],
    )
}

/// Returns an event as a trace spells it.
///
/// # Errors
///
/// Memory was refused.
pub fn event_string(alloc: Global, event: Event) -> Result<String, AllocError>
    ensures { IfOk result (λ s. string_bytes s ≡ event_text event) }
{
    let mut text = String::new(alloc);
    event_words(&mut text, event)?;
    Ok(text)
}

/// Returns an object with an event, its number and whether it counted.
fn applied_event(alloc: Global, applied: Applied) -> Made
    ensures { IfOk result (λ v. view v ≡ object (stand.applied_event applied)) }
{
    let value = object_of(
        alloc,
        &[
            ("after", Scalar::Count(applied.number as u64)),
            ("counts", Scalar::Flag(applied.is_counted)),
            ("version", Scalar::Count(VERSION)),
        ],
    );
    with_text(alloc, value, "event", event_string(alloc, applied.event))
}

/// Appends a value without floats as a line.
///
/// # Errors
///
/// Memory ran out.
pub fn push_line(alloc: Global, out: &mut String, value: &Value) -> Said
    ensures { has_float (view value.now) ≡ false → OnOk result (string_bytes out.new
        ≡ string_bytes out.old ++ def.line (view value.now)) }
{
    let text = value.to_string(alloc)?;
    writeln!(out, "{text}")
}

/// Appends the line of a value without floats, if it was made.
///
/// # Errors
///
/// Memory ran out, here or for the value.
pub fn push_made(alloc: Global, out: &mut String, made: Made) -> Said
    ensures { (d : Data) → Makes d made → has_float d ≡ false
        → OnOk result (string_bytes out.new ≡ string_bytes out.old ++ def.line d) }
{
    match made {
        Ok(value) => push_line(alloc, out, &value),
        Err(error) => Err(error),
    }
}

/// The views of a run as lines of JSON, with the names of a text.
#[derive(Clone, Copy)]
pub struct JsonViews<'n, 't> {
    pub alloc: Global,
    pub wanted: ViewOptions,
    pub names: &'n Names<'t>,
}

impl JsonViews<'_, '_> {
    /// Adds to an object the state of the run, and the tasks and scopes that are wanted.
    fn with_stand(self, watch: &Watch<'_>, value: Made) -> Made
        ensures { (ms : Members) → Makes (object ms) value → Makes
            (object (stand.with_stand self.entry.names.now self.entry.wanted watch.now ms)) result }
    {
        let wanted = self.wanted;
        if wanted.living {
            with_living(self.alloc, self.names, watch, wanted.full, value)
        } else {
            with_whole(self.alloc, self.names, watch, wanted.full, value)
        }
    }

    /// Returns the view of a machine after this number of events.
    fn state_view(self, n: usize, watch: &Watch<'_>) -> Made
        ensures { IfOk result (λ v. view v
            ≡ def.state_view self.entry.names.now self.entry.wanted n watch.now) }
    {
        self.with_stand(watch, numbered(self.alloc, n))
    }

    /// Returns the view of a machine after an event.
    fn event_view(self, applied: Applied, watch: &Watch<'_>) -> Made
        ensures { IfOk result (λ v. view v
            ≡ def.event_view self.entry.names.now self.entry.wanted applied watch.now) }
    {
        self.with_stand(watch, applied_event(self.alloc, applied))
    }
}

impl<'n, 't> View for JsonViews<'n, 't> {
    ghost writes = { λ views. def.json_view views.names.now views.wanted };

    fn say_state(&self, out: &mut String, number: usize, watch: &Watch<'_>) -> Said {
        let value = self.state_view(number, watch);
        push_made(self.alloc, out, value)
    }

    fn say_event(&self, out: &mut String, applied: Applied, watch: &Watch<'_>) -> Said {
        let value = self.event_view(applied, watch);
        push_made(self.alloc, out, value)
    }
}
