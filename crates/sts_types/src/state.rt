//! Typestates.

ghost use Rattle.std.specs.Prelude.{◌≡◌, ◌↔◌, ◌<◌, ◌≤◌, ◌+◌, IsTrue, length};
ghost use Rattle.sts_rules.specs.TypeState as def;

use crate::same::{are_same_entries, are_same_loops, are_same_slots, copy_stack};
use std::marker::Model;
use sts_code::{MAX_OPERANDS, Program};
use sts_model::Stack;
use sts_rules::{SlotKind, TypedEntry, TypedLoop};

/// The verifier's knowledge of a task at an instruction. Contracts see the number of operands, the
/// open loops, the structure list and the content of each slot. Loops and entries have the
/// innermost first.
#[derive(Drop)]
pub struct TypeState {
    pub(crate) height: u8,
    pub(crate) loops: Stack<TypedLoop, 8>,
    pub(crate) entries: Stack<TypedEntry, 16>,
    pub(crate) slots: [SlotKind; 16],
}

impl Model for TypeState {
    ghost use Rattle.std.specs.Prelude.{◌≤◌};
    ghost use Rattle.sts_rules.specs.TypeState.{TypeState};

    ghost Value = { TypeState };

    ghost view = { λ s. record {
      height = s.height;
      loops = s.loops;
      entries = s.entries;
      slots = s.slots;
    } };

    ghost invariant = { λ s. s.height ≤ 32 };
}

impl Default for TypeState {
    /// Nothing is open, and each slot is empty.
    fn default() -> TypeState {
        TypeState {
            height: 0,
            loops: Stack::new(),
            entries: Stack::new(),
            slots: [SlotKind::Empty; 16],
        }
    }
}

impl TypeState {
    /// A copy, which takes no memory.
    pub fn copy(&self) -> TypeState
        ensures { result ≡ self.now }
    {
        let mut copy = TypeState::default();
        copy.copy_from(self);
        copy
    }

    /// All parts are those of another from now on.
    pub fn copy_from(&mut self, other: &TypeState)
        ensures { self.new ≡ other.now }
    {
        self.height = other.height;
        copy_stack(&mut self.loops, &other.loops);
        copy_stack(&mut self.entries, &other.entries);
        self.slots = other.slots;
    }

    /// The number of operands.
    pub fn height(&self) -> u8
        ensures value { result ≡ self.now.height }
        ensures few { result ≤ MAX_OPERANDS }
    {
        self.height
    }

    /// The open loops.
    pub fn loops(&self) -> &Stack<TypedLoop, 8>
        ensures { result.now ≡ self.now.loops }
    {
        &self.loops
    }

    /// The structure list.
    pub fn entries(&self) -> &Stack<TypedEntry, 16>
        ensures { result.now ≡ self.now.entries }
    {
        &self.entries
    }

    /// Are all parts of the two the same?
    pub fn is_same(&self, other: &TypeState) -> bool
        ensures { IsTrue result ↔ (self.now ≡ other.now) }
    {
        self.height == other.height && self.is_like(other)
    }

    /// Do the two differ at most in their number of operands?
    pub fn is_like(&self, other: &TypeState) -> bool
        ensures { IsTrue result ↔ (record self.now { height = 0 } ≡
            record other.now { height = 0 }) }
    {
        are_same_loops(&self.loops, &other.loops)
            && are_same_entries(&self.entries, &other.entries)
            && are_same_slots(&self.slots, &other.slots)
    }

    /// Sets the number of operands.
    pub fn set_height(&mut self, height: u8)
        requires { height ≤ MAX_OPERANDS }
        ensures { self.new ≡ record self.old { height = height } }
    {
        self.height = height;
    }
}

/// The typestate at the beginning of one of the program's functions.
pub fn entry(program: &Program, function: u32) -> TypeState
    requires { function < length program.now.routines }
    ensures { result ≡ def.entry program.now function }
{
    let mut slots = [SlotKind::Empty; 16];
    if function as usize + 1 != program.functions().len() {
        slots[0] = SlotKind::Lent;
    }
    TypeState {
        height: 0,
        loops: Stack::new(),
        entries: Stack::new(),
        slots,
    }
}
