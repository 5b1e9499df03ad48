//! The ends of a text as lines of JSON.

ghost use Rattle.std.specs.Prelude.{◌≡◌, ◌++◌, ◌+◌, ◌<◌, ◌^◌, IfOk, OnOk};
ghost use Rattle.std.specs.String.{string_bytes};
ghost use Rattle.serde_json.specs.View.{view};
ghost use Rattle.look_views.specs.Named.{placed};
ghost use Rattle.look_views.specs.Views.{line};
ghost use Rattle.look_ends_json.specs.Ends as def;
ghost use Rattle.look_ends_json.specs.Outcome.{missing};

use crate::calls::say_calls;
use crate::outcome::{ended, missing};
use ends_plain::config::Found;
use look_cases::{Made, Scalar, object_of, value_of, widened, with_member};
use look_end_lines::{Bytes, Called, EndsForm, Sampled, Searched, Told, times_at};
use look_names::Said;
use look_views::{VERSION, faulty_text, line_at, placed, push_made};
use std::alloc::Global;
use sts_asm::AsmError;
use sts_code::{Program, name_of};
use sts_model::Fault;
use sts_output::Stopped;
use sts_output::printed::fault_word;
use sts_plain::PlainState;

/// The same count, if there is one.
fn count_of(number: Option<usize>) -> Option<u64>
    ensures { result ≡ number }
{
    match number {
        Some(number) => Some(number as u64),
        None => None,
    }
}

/// A fault with the names of its function and its line.
fn faulted(
    alloc: Global,
    told: Told<'_, '_>,
    kind: Fault,
    task: u32,
    function: u32,
    pc: u32,
) -> Made
    ensures { IfOk result (λ v. view v ≡ placed told.entry.names.now function pc
        (def.faulted told.entry.names.now told.entry.program.now kind task function pc)) }
{
    let line = line_at(told.names, function, pc);
    let fault = object_of(
        alloc,
        &[
            ("fault", Scalar::Text(fault_word(kind))),
            ("function", Scalar::Text(name_of(told.program, function))),
            ("line", Scalar::MaybeCount(widened(line))),
            ("outcome", Scalar::Text("fault")),
            ("place", Scalar::Count(pc as u64)),
            ("task", Scalar::Count(task as u64)),
        ],
    )?;
    placed(alloc, told.names, function, pc, fault)
}

/// The state of a run at its end.
fn run(alloc: Global, told: Told<'_, '_>, state: PlainState) -> Made
    ensures { IfOk result (λ v. view v
        ≡ def.run told.entry.names.now told.entry.program.now state) }
{
    match state {
        PlainState::Running => object_of(alloc, &[("outcome", Scalar::Text("running"))]),
        PlainState::Ended(end) => ended(alloc, told.names, end),
        PlainState::Fault {
            kind,
            task,
            function,
            pc,
        } => faulted(alloc, told, kind, task, function, pc),
    }
}

fn found_end(alloc: Global, told: Told<'_, '_>, place: usize, found: &Found) -> Made
    requires { place + 1 < 2 ^ 64 }
    ensures { IfOk result (λ v. view v
        ≡ def.found_end told.entry.names.now told.entry.program.now place found.now) }
{
    let value = object_of(
        alloc,
        &[
            ("after", Scalar::Count(found.trace.len() as u64)),
            ("end", Scalar::Count((place + 1) as u64)),
            ("version", Scalar::Count(VERSION)),
        ],
    );
    with_member(alloc, value, "run", run(alloc, told, found.end))
}

fn say_found_end(
    alloc: Global,
    out: &mut String,
    told: Told<'_, '_>,
    place: usize,
    found: &Found,
) -> Said
    requires { place + 1 < 2 ^ 64 }
    ensures { OnOk result (string_bytes out.new ≡ string_bytes out.old
        ++ line (def.found_end told.entry.names.now told.entry.program.now place found.now)) }
{
    push_made(alloc, out, found_end(alloc, told, place, found))
}

/// Appends the lines of these ends.
fn say_found(alloc: Global, out: &mut String, told: Told<'_, '_>, found: &[Found]) -> Said
    ensures { OnOk result (string_bytes out.new ≡ string_bytes out.old
        ++ def.found_lines told.entry.names.now told.entry.program.now found.now 0) }
{
    for k in 0..found.len() {
        say_found_end(alloc, out, told, k, &found[k])?;
    }
    Ok(())
}

fn sampled_end(alloc: Global, told: Told<'_, '_>, place: usize, found: &Found, times: u64) -> Made
    requires { place + 1 < 2 ^ 64 }
    ensures { IfOk result (λ v. view v
        ≡ def.sampled_end told.entry.names.now told.entry.program.now place found.now times) }
{
    let value = found_end(alloc, told, place, found);
    let count = value_of(alloc, Scalar::Count(times));
    with_member(alloc, value, "times", count)
}

fn say_sampled_end(
    alloc: Global,
    out: &mut String,
    told: Told<'_, '_>,
    place: usize,
    found: &Found,
    times: u64,
) -> Said
    requires { place + 1 < 2 ^ 64 }
    ensures { OnOk result (string_bytes out.new ≡ string_bytes out.old
        ++ line (def.sampled_end
        told.entry.names.now told.entry.program.now place found.now times)) }
{
    let end = sampled_end(alloc, told, place, found, times);
    push_made(alloc, out, end)
}

/// Appends the lines of these ends, with how often each came.
fn say_sampled(
    alloc: Global,
    out: &mut String,
    told: Told<'_, '_>,
    found: &[Found],
    times: &[u64],
) -> Said
    ensures { OnOk result (string_bytes out.new ≡ string_bytes out.old
        ++ def.sampled_lines told.entry.names.now told.entry.program.now found.now times.now 0) }
{
    for k in 0..found.len() {
        say_sampled_end(alloc, out, told, k, &found[k], times_at(times, k))?;
    }
    Ok(())
}

/// The last line of a search.
fn search(alloc: Global, searched: Searched<'_, '_>) -> Made
    ensures { IfOk result (λ v. view v ≡ def.search searched.entry.is_refused
        searched.entry.ends.now.states searched.entry.ends.now.whole
        searched.entry.ends.now.by_calls
        (missing searched.entry.number searched.entry.ends.now.found.items)) }
{
    let ends = searched.ends;
    let no_end = missing(searched.number, ends.found.as_slice());
    object_of(
        alloc,
        &[
            ("all_schedules", Scalar::Flag(ends.whole)),
            ("by_calls", Scalar::MaybeCount(count_of(ends.by_calls))),
            ("no_end", Scalar::MaybeCount(widened(no_end))),
            ("refused", Scalar::Flag(searched.is_refused)),
            ("states", Scalar::Count(ends.states as u64)),
            ("version", Scalar::Count(VERSION)),
        ],
    )
}

/// The last line of random schedules.
fn sample(alloc: Global, sampled: Sampled<'_, '_>) -> Made
    ensures { IfOk result (λ v. view v ≡ def.sample sampled.entry.schedules sampled.entry.seed
        sampled.entry.sample.now.unfinished
        (missing sampled.entry.number sampled.entry.sample.now.found.items)) }
{
    let no_end = missing(sampled.number, sampled.sample.found.as_slice());
    object_of(
        alloc,
        &[
            ("all_schedules", Scalar::Flag(false)),
            ("cut_off", Scalar::Count(sampled.sample.unfinished)),
            ("no_end", Scalar::MaybeCount(widened(no_end))),
            ("schedules", Scalar::Count(sampled.schedules as u64)),
            ("seed", Scalar::Count(sampled.seed as u64)),
            ("version", Scalar::Count(VERSION)),
        ],
    )
}

/// Appends the lines of a search.
fn say_search(alloc: Global, out: &mut String, searched: Searched<'_, '_>) -> Said
    ensures { OnOk result (string_bytes out.new ≡ string_bytes out.old ++ def.search_lines
        searched.entry.names.now searched.entry.setting.now searched.entry.is_refused
        searched.entry.number searched.entry.ends.now.found.items
        searched.entry.ends.now.states searched.entry.ends.now.whole
        searched.entry.ends.now.by_calls) }
{
    let (names, program) = (searched.names, &searched.setting.program);
    let found = searched.ends.found.as_slice();
    say_found(alloc, out, Told { program, names }, found)?;
    push_made(alloc, out, search(alloc, searched))
}

/// Appends the lines of random schedules.
fn say_sample(alloc: Global, out: &mut String, sampled: Sampled<'_, '_>) -> Said
    ensures { OnOk result (string_bytes out.new ≡ string_bytes out.old ++ def.sample_lines
        sampled.entry.told.names.now sampled.entry.told.program.now sampled.entry.schedules
        sampled.entry.seed sampled.entry.number sampled.entry.sample.now.found.items
        sampled.entry.sample.now.times.items sampled.entry.sample.now.unfinished) }
{
    let found = sampled.sample.found.as_slice();
    let times = sampled.sample.times.as_slice();
    say_sampled(alloc, out, sampled.told, found, times)?;
    push_made(alloc, out, sample(alloc, sampled))
}

/// Lines of JSON.
#[derive(Drop)]
pub struct JsonEnds;

impl EndsForm for JsonEnds {
    ghost use Rattle.look_ends_json.specs.Ends.{json_form};

    ghost shows = { λ _. json_form };

    fn of_search(&self, alloc: Global, search: Searched<'_, '_>) -> Bytes {
        let mut out = String::new(alloc);
        say_search(alloc, &mut out, search)?;
        Ok(out.into_bytes())
    }

    fn of_sample(&self, alloc: Global, sampled: Sampled<'_, '_>) -> Bytes {
        let mut out = String::new(alloc);
        say_sample(alloc, &mut out, sampled)?;
        Ok(out.into_bytes())
    }

    fn of_calls(&self, alloc: Global, called: Called<'_, '_>) -> Bytes {
        let mut out = String::new(alloc);
        say_calls(alloc, &mut out, called)?;
        Ok(out.into_bytes())
    }

    fn program_of(
        &self,
        alloc: Global,
        read: Result<Program, AsmError>,
        _text: &[u8],
    ) -> Result<Program, Stopped> {
        match read {
            Ok(program) => Ok(program),
            Err(error) => Err(Stopped::Shown(faulty_text(alloc, error)?)),
        }
    }
}
