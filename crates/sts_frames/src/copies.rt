//! Copies of frames. A stack is copied as far as it is used, and no copy takes memory.

ghost use Rattle.std.specs.Prelude.{◌≡◌, []};

use sts_model::{Entries, Entry, Frame, Stack};

/// Fills an empty stack with the values of another.
fn fill<T: Default + Copy + Drop, const N: usize>(stack: &mut Stack<T, N>, from: &Stack<T, N>)
    requires { stack.old ≡ [] }
    ensures { stack.new ≡ from.now }
{
    let len = from.len();
    for i in 0..len {
        stack.push(from.get_or(len - 1 - i, T::default()));
    }
}

/// Fills an empty structure list with the entries of another.
fn fill_entries(entries: &mut Entries, from: &Entries)
    requires { entries.old ≡ [] }
    ensures { entries.new ≡ from.now }
{
    let len = from.len();
    for i in 0..len {
        entries.push(from.get_or(len - 1 - i, Entry::Scope(0)));
    }
}

/// Writes the values of one stack over those of another.
fn write<T: Default + Copy + Drop, const N: usize>(stack: &mut Stack<T, N>, from: &Stack<T, N>)
    ensures { stack.new ≡ from.now }
{
    stack.drop_top(stack.len());
    fill(stack, from);
}

/// A copy of a frame.
pub fn copy_frame(frame: &Frame) -> Frame
    ensures { result ≡ frame.now }
{
    let mut copy = Frame {
        function: frame.function,
        pc: frame.pc,
        operands: Stack::new(),
        locals: frame.locals,
        loops: Stack::new(),
        entries: Entries::new(),
        slots: frame.slots,
    };
    fill(&mut copy.operands, &frame.operands);
    fill(&mut copy.loops, &frame.loops);
    fill_entries(&mut copy.entries, &frame.entries);
    copy
}

/// Writes a frame over one that has the same structure list.
pub fn write_frame(frame: &mut Frame, from: &Frame)
    requires { from.now.entries ≡ frame.old.entries }
    ensures { frame.new ≡ from.now }
{
    frame.function = from.function;
    frame.pc = from.pc;
    frame.locals = from.locals;
    frame.slots = from.slots;
    write(&mut frame.operands, &from.operands);
    write(&mut frame.loops, &from.loops);
}
