//! Tests for misuse that read only the frame.

ghost use Rattle.std.specs.Prelude.{◌≡◌, ◌≤◌, length};
ghost use Rattle.sts_model.specs.Misuse as misuse;
ghost use Rattle.sts_model.specs.World as def;

use sts_code::{
    Instr, MAX_INSTRUCTIONS, MAX_OPERANDS, Program, filled_slot, match_of, owners_slot, pops,
    pushes, subtask_slot,
};
use sts_frames::{code, is_empty, slot};
use sts_model::{Entry, Frame, Slot};

/// Does the instruction pop more operands than there are?
pub fn lacks_operands(program: &Program, frame: &Frame, instr: Instr) -> bool
    ensures { result ≡ misuse.lacks_operands program.now frame.now instr }
{
    frame.operands.len() < pops(program, instr) as usize
}

/// Would more operands be on the stack afterwards than it holds?
pub fn overflows(program: &Program, frame: &Frame, instr: Instr) -> bool
    ensures { result ≡ misuse.overflows program.now frame.now instr }
{
    let left = frame
        .operands
        .len()
        .saturating_sub(pops(program, instr) as usize);
    left + pushes(instr) as usize > usize::from(MAX_OPERANDS)
}

/// Is `pc` the match of the innermost open loop?
fn closes_loop(code: &[Instr], frame: &Frame) -> bool
    requires { length code.now ≤ MAX_INSTRUCTIONS }
    ensures { result ≡ misuse.closes_loop code.now frame.now.pc frame.now.loops }
{
    match frame.loops.get(0) {
        None => false,
        Some(innermost) => match match_of(code, innermost.at) {
            None => false,
            Some(q) => q == frame.pc,
        },
    }
}

/// Is a `times` without a match or one loop too many, or a `next` that isn't the match of the
/// innermost loop?
#[inline(always)]
pub fn breaks_loop(program: &Program, frame: &Frame, instr: Instr) -> bool
    ensures { result ≡ misuse.breaks_loop program.now frame.now instr }
{
    match instr {
        Instr::Times(_) => {
            match_of(code(program, frame), frame.pc).is_none() || frame.loops.len() >= 8
        }
        Instr::Next => !closes_loop(code(program, frame), frame),
        _ => false,
    }
}

fn is_scope(slot: Slot) -> bool
    ensures { result ≡ misuse.is_scope slot }
{
    matches!(slot, Slot::Own(_) | Slot::Lent(_))
}

fn is_sub(slot: Slot) -> bool
    ensures { result ≡ misuse.is_sub slot }
{
    matches!(slot, Slot::Sub(_))
}

/// Does a slot not hold the scope or subtask that the instruction needs?
pub fn has_wrong_slot(frame: &Frame, instr: Instr) -> bool
    ensures { result ≡ misuse.has_wrong_slot frame.now instr }
{
    if let Instr::Cancelled(x) = instr {
        return !is_scope(slot(frame, x));
    }
    let owners = match owners_slot(instr) {
        Some(x) => !is_scope(slot(frame, x)),
        None => false,
    };
    let subtasks = match subtask_slot(instr) {
        Some(x) => !is_sub(slot(frame, x)),
        None => false,
    };
    let filled = match filled_slot(instr) {
        Some(x) => !is_empty(slot(frame, x)),
        None => false,
    };
    owners || subtasks || filled
}

/// Is the instruction only for the owner of a scope, but about the parent scope?
pub fn is_strangers(frame: &Frame, instr: Instr) -> bool
    ensures { result ≡ misuse.is_strangers frame.now instr }
{
    match owners_slot(instr) {
        Some(x) => matches!(slot(frame, x), Slot::Lent(_)),
        None => false,
    }
}

fn is_binding(entry: &Entry) -> bool
    ensures { result ≡ misuse.is_binding entry.now }
{
    matches!(entry, Entry::Binding(_, _))
}

fn is_entry_of(s: u32, entry: &Entry) -> bool
    ensures { result ≡ misuse.is_entry_of s entry.now }
{
    match entry {
        Entry::Scope(r) => *r == s,
        Entry::Binding(_, _) => false,
    }
}

/// Is there a binding after the entry of this scope?
fn has_later_binding(frame: &Frame, s: u32) -> bool
    ensures { result ≡ misuse.binds_after s frame.now.entries }
{
    for i in 0..frame.entries.len() {
        let entry = frame.entries.get_or(i, Entry::Scope(0));
        if is_entry_of(s, &entry) {
            return false;
        }
        if is_binding(&entry) {
            return true;
        }
    }
    false
}

/// Is the innermost entry that of the scope?
fn is_innermost(frame: &Frame, s: u32) -> bool
    ensures { result ≡ misuse.innermost (misuse.is_entry_of s) frame.now.entries }
{
    match frame.entries.get(0) {
        Some(entry) => is_entry_of(s, &entry),
        None => false,
    }
}

/// Does the instruction break the order of the open scopes and bindings?
pub fn breaks_structure(frame: &Frame, instr: Instr) -> bool
    ensures { (w : def.World) → result ≡ misuse.breaks_structure w frame.now instr }
{
    match instr {
        Instr::Fork { slot: x, .. } => match slot(frame, x) {
            Slot::Own(s) => has_later_binding(frame, s),
            _ => false,
        },
        Instr::Close(x) => match slot(frame, x) {
            Slot::Own(s) => !is_innermost(frame, s),
            _ => false,
        },
        Instr::Unbind => match frame.entries.get(0) {
            Some(entry) => !is_binding(&entry),
            None => true,
        },
        Instr::Ret | Instr::Fail => frame.entries.len() > 0,
        _ => false,
    }
}
