//! The lines below the ends.

ghost use Rattle.std.specs.Fmt.{decimal};
ghost use Rattle.std.specs.Prelude.{◌≡◌, ◌++◌, OnOk, codes, option_map};
ghost use Rattle.look_end_lines.specs.Lines as def;

use ends_plain::config::{Found, Setting};
use look_text::{Said, say, say_number};
use std::alloc::Global;
use sts_plain::PlainState;

fn is_fault(end: PlainState) -> bool
    ensures { result ≡ def.is_fault end }
{
    matches!(end, PlainState::Fault { .. })
}

fn has_fault(found: &[Found]) -> bool
    ensures { result ≡ def.has_fault found.now }
{
    found.iter().any(|one| is_fault(one.end))
}

/// `with at most N interrupts`
fn say_at_most(alloc: Global, out: &mut Vec<u8>, most: u32) -> Said
    ensures { OnOk result (out.new.items ≡ out.old.items
        ++ (codes "with at most " ++ decimal most ++ codes " interrupts")) }
{
    say_number(alloc, out, "with at most ", most as u128)?;
    say(out, " interrupts")
}

/// Appends how many interrupts the runs had that were searched.
fn say_interrupts(alloc: Global, out: &mut Vec<u8>, most: u32) -> Said
    ensures { OnOk result (out.new.items ≡ out.old.items ++ def.interrupt_words most) }
{
    if most == 0 {
        return say(out, "without interrupts");
    }
    if most == 1 {
        return say(out, "with at most 1 interrupt");
    }
    say_at_most(alloc, out, most)
}

/// Appends that the runs had no expiries, if none may come.
fn say_expiries(out: &mut Vec<u8>, may_expire: bool) -> Said
    ensures { OnOk result (out.new.items ≡ out.old.items ++ def.expiry_words may_expire) }
{
    if may_expire {
        return Ok(());
    }
    say(out, " and without expiries")
}

/// `refused, but no run without interrupts faults`
fn say_no_fault(alloc: Global, out: &mut Vec<u8>, setting: &Setting) -> Said
    ensures { OnOk result (out.new.items ≡ out.old.items
        ++ def.no_fault_words setting.now.expiries setting.now.interrupts) }
{
    say(out, "refused, but no run ")?;
    say_interrupts(alloc, out, setting.interrupts)?;
    say_expiries(out, setting.expiries)?;
    say(out, " faults\n")
}

/// Appends that no run with the events of the search faults, if the verifier refuses the program,
/// these are the ends of all such runs, and none is a fault.
pub(crate) fn say_refused(
    alloc: Global,
    out: &mut Vec<u8>,
    setting: &Setting,
    is_refused: bool,
    whole: bool,
    found: &[Found],
) -> Said
    ensures { OnOk result (out.new.items ≡ out.old.items
        ++ def.refused_line setting.now is_refused whole found.now) }
{
    if is_refused && whole && !has_fault(found) {
        say_no_fault(alloc, out, setting)
    } else {
        Ok(())
    }
}

/// How many states were found, and whether these are all.
pub(crate) fn say_states(alloc: Global, out: &mut Vec<u8>, whole: bool, states: usize) -> Said
    ensures { OnOk result (out.new.items ≡ out.old.items ++ def.states_line whole states) }
{
    if whole {
        say_number(alloc, out, "", states as u128)?;
        say(out, " states, all schedules\n")
    } else {
        say_number(alloc, out, "stopped at ", states as u128)?;
        say(out, " states, not all schedules\n")
    }
}

/// How many states a search by calls has, if it found no other end.
pub(crate) fn say_by_calls(alloc: Global, out: &mut Vec<u8>, by_calls: Option<usize>) -> Said
    ensures { OnOk result (out.new.items ≡ out.old.items ++ def.by_calls_line by_calls) }
{
    let Some(states) = by_calls else {
        return Ok(());
    };
    say_number(alloc, out, "a search by calls of ", states as u128)?;
    say(
        out,
        " states found no other end; that there is none is not proved\n",
    )
}

/// How many schedules came to no end, if any.
pub(crate) fn say_unfinished(alloc: Global, out: &mut Vec<u8>, unfinished: u64) -> Said
    ensures { OnOk result (out.new.items ≡ out.old.items ++ def.unfinished_line unfinished) }
{
    if unfinished == 0 {
        return Ok(());
    }
    say_number(alloc, out, "", unfinished as u128)?;
    say(out, " schedules were cut off\n")
}

/// How many schedules there were, and by which seed.
pub(crate) fn say_schedules(alloc: Global, out: &mut Vec<u8>, schedules: u32, seed: u32) -> Said
    ensures { OnOk result (out.new.items ≡ out.old.items ++ def.schedules_line schedules seed) }
{
    say_number(alloc, out, "", schedules as u128)?;
    say_number(alloc, out, " random schedules by seed ", seed as u128)?;
    say(out, ", not all schedules\n")
}

/// The end of this number, the first one having number 1.
pub fn found_at<T>(found: &[T], number: u32) -> Option<&T>
    ensures { option_map (λ f. f.now) result ≡ def.found_at found.now number }
{
    if number == 0 {
        None
    } else {
        found.get(number as usize - 1)
    }
}

/// Is there an end of this number?
fn is_number<T>(found: &[T], number: u32) -> bool
    ensures { result ≡ def.is_number found.now number }
{
    found_at(found, number).is_some()
}

/// Is there an end of the number that is asked for, if one is?
pub fn has_number<T>(number: Option<u32>, found: &[T]) -> bool
    ensures { result ≡ def.has_number number found.now }
{
    match number {
        None => true,
        Some(k) => is_number(found, k),
    }
}

/// Says that no end has the number that is asked for, if none has.
pub(crate) fn say_no_number<T>(
    alloc: Global,
    out: &mut Vec<u8>,
    number: Option<u32>,
    found: &[T],
) -> Said
    ensures { OnOk result (out.new.items ≡ out.old.items ++ def.no_number_line number found.now) }
{
    let Some(k) = number else {
        return Ok(());
    };
    if is_number(found, k) {
        return Ok(());
    }
    say_number(alloc, out, "no end has number ", k as u128)?;
    say(out, "\n")
}
