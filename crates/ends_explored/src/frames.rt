//! The instructions that change only the frame of a task.

use ends_known::own::is_at_once;
use laws_calls::table::Call;
use std::alloc::{AllocError, Global};
use sts_code::{Instr, MAX_ENTRIES, MAX_OPERANDS, MAX_STEPS, Program};
use sts_frames::instr_at;
use sts_model::{Bound, Entry, Frame, Items};
use sts_plain::does_local;

/// Pops operands, pushes a value and goes to a place. Returns whether there is room for the value.
pub fn push_and_go(frame: &mut Frame, to: u32, n: usize, value: i64) -> bool {
    if frame.operands.len().saturating_sub(n) >= usize::from(MAX_OPERANDS) {
        return false;
    }
    frame.goes_with(to, n, value);
    true
}

/// The place after this one.
pub fn next_place(frame: &Frame) -> u32 {
    frame.pc.saturating_add(1)
}

/// Puts an entry on the structure list. Returns whether there is room for it.
pub fn push_entry(frame: &mut Frame, entry: Entry) -> bool {
    if frame.entries.len() >= MAX_ENTRIES {
        return false;
    }
    frame.entries.push(entry);
    true
}

/// Binds a key to the top operand.
fn binds(frame: &mut Frame, key: u8) -> bool {
    let value = frame.operand(0);
    let next = next_place(frame);
    frame.goes(next, 1);
    push_entry(frame, Entry::Binding(key, value))
}

/// The value of the task's own innermost binding of a key.
fn own_value(frame: &Frame, key: u8) -> Option<i64> {
    for place in 0..frame.entries.len() {
        if let Entry::Binding(bound, value) = frame.entries.get_or(place, Entry::Scope(0)) {
            if bound == key {
                return Some(value);
            }
        }
    }
    None
}

/// The value that a task inherits.
fn inherited(bindings: &[Bound], key: u8) -> Option<i64> {
    bindings
        .iter()
        .find(|bound| bound.key == key)
        .map(|bound| bound.value)
}

/// The innermost value of a key.
fn value_of(frame: &Frame, call: &Call, key: u8) -> Option<i64> {
    let own = own_value(frame, key);
    if own.is_some() {
        return own;
    }
    inherited(call.environment.as_slice(), key)
}

/// Does an instruction that a path does at once, and returns whether it did. (An
/// instruction that empties a slot is none of them, since what is held changes, too.)
fn does(frame: &mut Frame, program: &Program, call: &Call, instr: Instr) -> bool {
    let next = next_place(frame);
    match instr {
        Instr::Bind(key) => binds(frame, key),
        Instr::Unbind => {
            frame.goes(next, 0);
            frame.entries.drop_top(1);
            true
        }
        Instr::Read(key) => {
            let value = value_of(frame, call, key).unwrap_or(0);
            push_and_go(frame, next, 0, value)
        }
        Instr::Bound(key) => {
            let is_bound = value_of(frame, call, key).is_some();
            push_and_go(frame, next, 0, i64::from(is_bound))
        }
        Instr::OrElse(key) => {
            let value = value_of(frame, call, key).unwrap_or(frame.operand(0));
            push_and_go(frame, next, 1, value)
        }
        _ => does_local(frame, program, instr),
    }
}

/// Does the instructions up to the first that can't be done by the frame alone.
pub fn run_frame(frame: &mut Frame, program: &Program, call: &Call) {
    for _ in 0..MAX_STEPS {
        let Some(instr) = instr_at(program, frame) else {
            return;
        };
        if !is_at_once(instr) || !does(frame, program, call, instr) {
            return;
        }
    }
}

/// The bindings that a subtask inherits: the task's own, and the inherited ones.
pub fn environment(alloc: Global, frame: &Frame, call: &Call) -> Result<Items<Bound>, AllocError> {
    let mut bindings = Items::new(alloc);
    for place in 0..frame.entries.len() {
        if let Entry::Binding(key, value) = frame.entries.get_or(place, Entry::Scope(0)) {
            bindings.push(Bound { key, value })?;
        }
    }
    for bound in call.environment.as_slice() {
        bindings.push(*bound)?;
    }
    Ok(bindings)
}

/// The topmost operands, the top last.
pub fn arguments(alloc: Global, frame: &Frame, count: u8) -> Result<Items<i64>, AllocError> {
    let mut values = Items::new(alloc);
    for place in (0..count).rev() {
        values.push(frame.operand(place as usize))?;
    }
    Ok(values)
}
