//! The lines of the ends of calls.

ghost use Rattle.std.specs.Prelude.{◌≡◌, ◌++◌, OnOk};
ghost use Rattle.look_end_lines.specs.Calls as def;

use crate::answer::At;
use crate::lines::say_head;
use look_calls::{CallEnd, CallsFound};
use look_names::{say_arguments, say_function};
use look_run::{Told, say_end_line};
use look_text::{Said, say, say_number};
use std::alloc::Global;

/// A program, whether it is refused, the number of the end that is asked for, and the ends of its
/// calls.
#[derive(Clone, Copy)]
pub struct Called<'a, 't> {
    pub told: Told<'a, 't>,
    pub is_refused: bool,
    pub number: Option<u32>,
    pub calls: &'a CallsFound,
}

/// `charge(10)`
fn say_call(alloc: Global, out: &mut Vec<u8>, told: Told<'_, '_>, call: &CallEnd) -> Said
    ensures { OnOk result (out.new.items ≡ out.old.items
        ++ def.call_words told.entry.names.now told.entry.program.now call.now) }
{
    say_function(out, told.names, told.program, call.function)?;
    say_arguments(alloc, out, told.names, call.arguments.as_slice())
}

/// `unheard `, if the joiner wasn't told of the end.
fn say_unheard(out: &mut Vec<u8>, is_heard: bool) -> Said
    ensures { OnOk result (out.new.items ≡ out.old.items ++ def.unheard_words is_heard) }
{
    if is_heard {
        return Ok(());
    }
    say(out, "unheard ")
}

/// `K after N events: charge(10): unheard success 10`
fn say_call_line(alloc: Global, out: &mut Vec<u8>, at: At<'_, '_>, call: &CallEnd) -> Said
    ensures { OnOk result (out.new.items ≡ out.old.items ++ def.call_line
        at.entry.told.names.now at.entry.told.program.now at.entry.place call.now) }
{
    say_head(alloc, out, at.place, call.trace.len())?;
    say(out, ": ")?;
    say_call(alloc, out, at.told, call)?;
    say(out, ": ")?;
    say_unheard(out, call.is_heard)?;
    say_end_line(alloc, out, at.told.names, call.end)
}

/// The lines of the ends of calls, numbered from 1.
///
/// # Errors
///
/// Memory was refused; a part of them may then be in `out`.
pub(crate) fn say_calls(
    alloc: Global,
    out: &mut Vec<u8>,
    told: Told<'_, '_>,
    found: &[CallEnd],
) -> Said
    ensures { OnOk result (out.new.items ≡ out.old.items
        ++ def.call_lines told.entry.names.now told.entry.program.now found.now 0) }
{
    for k in 0..found.len() {
        say_call_line(alloc, out, At { told, place: k }, &found[k])?;
    }
    Ok(())
}

/// Says that the search stopped, if it did.
fn say_cut_off(out: &mut Vec<u8>, is_cut_off: bool) -> Said
    ensures { OnOk result (out.new.items ≡ out.old.items ++ def.cut_off_line is_cut_off) }
{
    if is_cut_off {
        return say(out, "stopped, not all calls were tried\n");
    }
    Ok(())
}

/// How many states were found.
fn say_searched(alloc: Global, out: &mut Vec<u8>, states: usize) -> Said
    ensures { OnOk result (out.new.items ≡ out.old.items ++ def.searched_line states) }
{
    say_number(alloc, out, "a search by calls of ", states as u128)?;
    say(out, " states; calls may have more ends than these\n")
}

/// What was searched of the calls.
pub(crate) fn say_below(alloc: Global, out: &mut Vec<u8>, called: Called<'_, '_>) -> Said
    ensures { OnOk result (out.new.items ≡ out.old.items ++ def.below_calls
        called.entry.is_refused called.entry.calls.now.states
        called.entry.calls.now.is_cut_off) }
{
    if called.is_refused {
        return say(out, "refused, so its calls were not searched\n");
    }
    say_cut_off(out, called.calls.is_cut_off)?;
    say_searched(alloc, out, called.calls.states)
}
