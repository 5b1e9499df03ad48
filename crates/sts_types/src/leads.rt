//! The causes that depend on the places after an instruction.

ghost use Rattle.std.specs.Prelude.{◌≡◌, ◌<◌, nat_le, option_to_list};
ghost use Rattle.std.specs.List.{list_any};
ghost use Rattle.sts_rules.specs.Around as around;
ghost use Rattle.sts_code.specs.Facts as facts;
ghost use Rattle.sts_rules.specs.Causes as def;
ghost use Rattle.sts_rules.specs.TypeState.{heads};
ghost use Rattle.sts_types.specs.Site.{IsSite};

use crate::loops::CodeLoops;
use crate::site::Site;
use crate::state::TypeState;
use sts_code::{Instr, falls_through};
use sts_model::Stack;
use sts_rules::TypedLoop;

/// The place after a `times` that makes no turn.
pub(crate) fn skip(loops: &CodeLoops<'_>, pc: u32, instr: Instr) -> Option<u32>
    ensures { option_to_list result ≡ around.skipped_to loops.now pc instr }
{
    match instr {
        Instr::Times(_) => match loops.end_of(pc) {
            Some(end) => Some(loops.after(end)),
            None => None,
        },
        _ => None,
    }
}

/// Is one of these places no instruction?
fn any_past(count: u32, places: &[u32]) -> bool
    ensures { result ≡ list_any (nat_le count) places.now }
{
    places.iter().any(|to| count <= *to)
}

fn is_past(count: u32, place: Option<u32>) -> bool
    ensures { result ≡ list_any (nat_le count) (option_to_list place) }
{
    match place {
        None => false,
        Some(to) => count <= to,
    }
}

pub(crate) fn falls_off(site: &Site<'_>, targets: &[u32]) -> bool
    requires site { IsSite site.now }
    requires targets { targets.now ≡ facts.targets site.now.instr }
    ensures { result ≡ def.falls_off site.now.loops.now site.now.pc site.now.instr }
{
    let count = site.loops.len();
    any_past(count, targets)
        || (falls_through(site.instr) && count <= site.loops.after(site.pc))
        || is_past(count, site.skip)
}

pub(crate) fn jumps_back(pc: u32, instr: Instr, targets: &[u32]) -> bool
    requires { targets.now ≡ facts.targets instr }
    ensures { result ≡ def.jumps_back pc instr }
{
    targets.iter().any(|to| *to <= pc)
}

fn is_unmatched(site: &Site<'_>, state: &TypeState) -> bool
    ensures { result ≡ def.is_unmatched site.now.loops.now site.now.pc site.now.instr state.now }
{
    match site.instr {
        Instr::Times(_) => site.loops.end_of(site.pc).is_none(),
        Instr::Next => !site.loops.closes_loop(site.pc, state.loops()),
        _ => false,
    }
}

/// Are loops other than these around one of the places?
fn any_other(loops: &CodeLoops<'_>, now: &Stack<TypedLoop, 8>, places: &[u32]) -> bool
    ensures { result ≡ list_any (def.is_other_loop loops.now (heads now.now)) places.now }
{
    places.iter().any(|to| !loops.are_around(*to, now, 0))
}

fn is_other(loops: &CodeLoops<'_>, now: &Stack<TypedLoop, 8>, place: Option<u32>) -> bool
    ensures { result ≡ list_any (def.is_other_loop loops.now (heads now.now))
        (option_to_list place) }
{
    match place {
        None => false,
        Some(to) => !loops.are_around(to, now, 0),
    }
}

/// Are loops around the next place other than those that are open then?
fn next_differs(site: &Site<'_>, state: &TypeState) -> bool
    requires { IsSite site.now }
    ensures { result ≡
        list_any (def.is_other_loop site.now.loops.now
        (around.open_after site.now.pc site.now.instr (heads state.now.loops)))
        (around.next_place site.now.pc site.now.instr) }
{
    let loops = site.loops;
    match site.instr {
        Instr::Times(_) => !loops.begins(site.pc, state.loops()),
        Instr::Next => !loops.are_around(loops.after(site.pc), state.loops(), 1),
        _ => falls_through(site.instr) && !loops.are_around(loops.after(site.pc), state.loops(), 0),
    }
}

pub(crate) fn mismatches(site: &Site<'_>, state: &TypeState, targets: &[u32]) -> bool
    requires site { IsSite site.now }
    requires targets { targets.now ≡ facts.targets site.now.instr }
    ensures { result ≡ def.mismatches site.now.loops.now site.now.pc site.now.instr state.now }
{
    is_unmatched(site, state)
        || any_other(site.loops, state.loops(), targets)
        || is_other(site.loops, state.loops(), site.skip)
        || next_differs(site, state)
}
