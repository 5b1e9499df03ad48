//! The ends of calls as lines of JSON.

ghost use Rattle.std.specs.Prelude.{◌≡◌, ◌++◌, ◌+◌, ◌<◌, ◌^◌, IfOk, OnOk};
ghost use Rattle.std.specs.String.{string_bytes};
ghost use Rattle.serde_json.specs.View.{view};
ghost use Rattle.look_views.specs.Views.{line};
ghost use Rattle.look_ends_json.specs.Calls as def;
ghost use Rattle.look_ends_json.specs.Outcome.{missing};

use crate::outcome::{ended, missing};
use look_calls::CallEnd;
use look_cases::{Made, Scalar, object_of, widened, with_list, with_member};
use look_end_lines::{Called, Told};
use look_names::Said;
use look_views::{VERSION, integers, push_made, with_name};
use std::alloc::Global;
use sts_code::{Program, name_of};

/// The end of a call, without its arguments, its end and the name of its function.
fn call_head(alloc: Global, program: &Program, place: usize, call: &CallEnd) -> Made
    requires { place + 1 < 2 ^ 64 }
    ensures { IfOk result (λ v. view v ≡ def.call_head program.now place call.now) }
{
    object_of(
        alloc,
        &[
            ("after", Scalar::Count(call.trace.len() as u64)),
            ("end", Scalar::Count((place + 1) as u64)),
            ("function", Scalar::Text(name_of(program, call.function))),
            ("heard", Scalar::Flag(call.is_heard)),
            ("version", Scalar::Count(VERSION)),
        ],
    )
}

/// The end of a call, without the name of its function.
fn call(alloc: Global, told: Told<'_, '_>, place: usize, call: &CallEnd) -> Made
    requires { place + 1 < 2 ^ 64 }
    ensures { IfOk result (λ v. view v
        ≡ def.call told.entry.names.now told.entry.program.now place call.now) }
{
    let value = call_head(alloc, told.program, place, call);
    let arguments = integers(alloc, call.arguments.as_slice());
    let value = with_list(alloc, value, "arguments", arguments);
    with_member(alloc, value, "task", ended(alloc, told.names, call.end))
}

fn call_end(alloc: Global, told: Told<'_, '_>, place: usize, one: &CallEnd) -> Made
    requires { place + 1 < 2 ^ 64 }
    ensures { IfOk result (λ v. view v
        ≡ def.call_end told.entry.names.now told.entry.program.now place one.now) }
{
    let value = call(alloc, told, place, one)?;
    let name = told.names.function(one.function);
    with_name(alloc, value, "function_name", name)
}

fn say_call_end(
    alloc: Global,
    out: &mut String,
    told: Told<'_, '_>,
    place: usize,
    one: &CallEnd,
) -> Said
    requires { place + 1 < 2 ^ 64 }
    ensures { OnOk result (string_bytes out.new ≡ string_bytes out.old
        ++ line (def.call_end told.entry.names.now told.entry.program.now place one.now)) }
{
    push_made(alloc, out, call_end(alloc, told, place, one))
}

/// Appends the lines of these ends.
fn say_call_ends(alloc: Global, out: &mut String, told: Told<'_, '_>, found: &[CallEnd]) -> Said
    ensures { OnOk result (string_bytes out.new ≡ string_bytes out.old
        ++ def.call_lines told.entry.names.now told.entry.program.now found.now 0) }
{
    for k in 0..found.len() {
        say_call_end(alloc, out, told, k, &found[k])?;
    }
    Ok(())
}

/// The last line.
fn calls(alloc: Global, called: Called<'_, '_>) -> Made
    ensures { IfOk result (λ v. view v ≡ def.calls called.entry.is_refused
        called.entry.calls.now.states called.entry.calls.now.is_cut_off
        (missing called.entry.number called.entry.calls.now.found.items)) }
{
    let calls = called.calls;
    let no_end = missing(called.number, calls.found.as_slice());
    object_of(
        alloc,
        &[
            ("all_ends", Scalar::Flag(false)),
            ("no_end", Scalar::MaybeCount(widened(no_end))),
            ("refused", Scalar::Flag(called.is_refused)),
            ("states", Scalar::Count(calls.states as u64)),
            ("stopped", Scalar::Flag(calls.is_cut_off)),
            ("version", Scalar::Count(VERSION)),
        ],
    )
}

/// Appends the lines of the ends of calls.
pub(crate) fn say_calls(alloc: Global, out: &mut String, called: Called<'_, '_>) -> Said
    ensures { OnOk result (string_bytes out.new ≡ string_bytes out.old ++ def.calls_lines
        called.entry.told.names.now called.entry.told.program.now called.entry.is_refused
        called.entry.number called.entry.calls.now.found.items called.entry.calls.now.states
        called.entry.calls.now.is_cut_off) }
{
    say_call_ends(alloc, out, called.told, called.calls.found.as_slice())?;
    push_made(alloc, out, calls(alloc, called))
}
