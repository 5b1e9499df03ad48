//! The effect of an instruction on a typestate, if no cause holds.

ghost use Rattle.std.specs.Prelude.{◌≡◌, ◌<◌, ◌≤◌, ◌-◌, ◌+◌, ◌∷◌, length, drop, map, true};
ghost use Rattle.std.specs.Prelude.{slice_set, slice_get, if◌then◌else◌, List, [], Some, IfSome};
ghost use Rattle.sts_types.specs.Room.{HasRoom};
ghost use Rattle.sts_rules.specs.Edges as def;
ghost use Rattle.sts_code.specs.Facts as facts;
ghost use Rattle.sts_rules.specs.TypeState as typed;

use crate::state::TypeState;
use sts_code::{
    Instr, Joiner, MAX_ENTRIES, MAX_INSTRUCTIONS, MAX_LOOPS, MAX_OPERANDS, Program, pops, pushes,
};
use sts_model::Stack;
use sts_rules::{Known, SlotKind, TypedEntry, TypedLoop, TypedPhase, TypedScope};

fn is_sub_of(slot: u8, kind: SlotKind) -> bool
    ensures { result ≡ def.is_sub_of slot kind }
{
    match kind {
        SlotKind::Sub(of, _) => of == slot,
        _ => false,
    }
}

/// The subtask in a slot with this known of its state.
fn known_as(known: Known, kind: SlotKind) -> SlotKind
    ensures { result ≡ def.known_as known kind }
{
    match kind {
        SlotKind::Sub(of, _) => SlotKind::Sub(of, known),
        other => other,
    }
}

/// Each subtask of the scope is a success.
fn succeeded(slot: u8, slots: &[SlotKind; 16]) -> [SlotKind; 16]
    ensures { result ≡ def.succeeded slot slots.now }
{
    let mut after = *slots;
    for kind in after.iter_mut() {
        if is_sub_of(slot, *kind) {
            *kind = SlotKind::Sub(slot, Known::Success);
        }
    }
    after
}

/// No slot holds a subtask of the scope.
fn forgotten(slot: u8, slots: &[SlotKind; 16]) -> [SlotKind; 16]
    ensures { result ≡ map (λ k. if def.is_sub_of slot k then SlotKind.Empty else k) slots.now }
{
    let mut after = *slots;
    for kind in after.iter_mut() {
        if is_sub_of(slot, *kind) {
            *kind = SlotKind::Empty;
        }
    }
    after
}

fn phase_set(slot: u8, phase: TypedPhase, entry: TypedEntry) -> TypedEntry
    ensures { result ≡ def.phase_set slot phase entry }
{
    match entry {
        TypedEntry::Scope(scope) if scope.slot == slot => {
            TypedEntry::Scope(TypedScope { phase, ..scope })
        }
        other => other,
    }
}

/// The structure list with the scope in this phase.
fn entries_with_phase(
    entries: &Stack<TypedEntry, 16>,
    slot: u8,
    phase: TypedPhase,
) -> Stack<TypedEntry, 16>
    ensures { result ≡ map (def.phase_set slot phase) entries.now }
{
    let mut after = Stack::new();
    let len = entries.len();
    for i in 0..len {
        let entry = entries.get_or(len - 1 - i, TypedEntry::Binding(0));
        after.push(phase_set(slot, phase, entry));
    }
    after
}

/// The scope is in this phase, where the structure list has one entry.
#[tactic(auto, using(crate::proofs::PhaseLemmas::only_entry))]
fn set_only(entries: &mut Stack<TypedEntry, 16>, slot: u8, phase: TypedPhase)
    requires { length entries.old ≡ 1 }
    ensures { entries.new ≡ map (def.phase_set slot phase) entries.old }
{
    let only = entries.get_or(0, TypedEntry::Binding(0));
    entries.replace_top(1, phase_set(slot, phase, only));
}

fn joiner_of(scope: Option<TypedScope>) -> Joiner
    ensures { result ≡ def.joiner_of scope }
{
    match scope {
        None => Joiner::AwaitAll,
        Some(scope) => scope.joiner,
    }
}

/// How many operands the ok outcome pushes.
fn ok_pushes(joiner: Joiner) -> u8
    ensures value { result ≡ def.ok_pushes joiner }
    ensures few { result ≤ 1 }
{
    match joiner {
        Joiner::AllSucceed | Joiner::AnySucceeds | Joiner::Until(_) => 1,
        Joiner::AwaitOk | Joiner::AwaitAll => 0,
    }
}

/// Does ok mean that each subtask succeeded?
fn is_all_success(joiner: Joiner) -> bool
    ensures { result ≡ def.is_all_success joiner }
{
    matches!(joiner, Joiner::AllSucceed | Joiner::AwaitOk)
}

impl TypeState {
    /// The operands are popped and pushed.
    pub fn move_operands(&mut self, program: &Program, instr: Instr)
        requires { self.old.height - facts.pops program.now instr + facts.pushes instr
            ≤ MAX_OPERANDS }
        ensures { self.new ≡ def.moved program.now instr self.old }
    {
        self.height = self.height.saturating_sub(pops(program, instr)) + pushes(instr);
    }

    /// Takes off `count` operands.
    pub fn pop(&mut self, count: u8)
        ensures { self.new ≡ record self.old { height = self.old.height - count } }
    {
        self.height = self.height.saturating_sub(count);
    }

    fn set_slot(&mut self, slot: u8, kind: SlotKind)
        ensures { self.new ≡ record self.old { slots = slice_set self.old.slots slot kind } }
    {
        let slot = slot as usize;
        if slot < 16 {
            self.slots[slot] = kind;
        }
    }

    /// This is known of a subtask.
    pub fn set_known(&mut self, handle: u8, known: Known)
        ensures { self.new ≡ def.with_known handle known self.old }
    {
        let kind = known_as(known, self.kind(handle));
        self.set_slot(handle, kind);
    }

    /// The scope is in this phase.
    pub fn set_phase(&mut self, slot: u8, phase: TypedPhase)
        ensures { self.new ≡ def.with_phase slot phase self.old }
    {
        if self.entries.len() == 1 {
            set_only(&mut self.entries, slot, phase);
            return;
        }
        let entries = entries_with_phase(&self.entries, slot, phase);
        self.entries = entries;
    }

    /// The ok outcome of the `join` of the scope in this slot.
    fn join_ok(&mut self, slot: u8)
        requires { self.old.height
            + def.ok_pushes (def.joiner_of (typed.scope_in self.old.entries slot)) ≤ MAX_OPERANDS }
        ensures { self.new ≡
            def.after_ok slot (def.joiner_of (typed.scope_in self.old.entries slot)) self.old }
    {
        let joiner = joiner_of(self.scope_in(slot));
        self.set_phase(slot, TypedPhase::Joined);
        self.height += ok_pushes(joiner);
        if is_all_success(joiner) {
            let slots = succeeded(slot, &self.slots);
            self.slots = slots;
        }
    }

    /// The failed outcome of the `join`.
    pub fn join_failed(&mut self, slot: u8)
        requires { self.old.height < MAX_OPERANDS }
        ensures { self.new ≡ def.raised 1 (def.with_phase slot TypedPhase.Joined self.old) }
    {
        self.set_phase(slot, TypedPhase::Joined);
        self.height += 1;
    }

    /// A `times` at `pc` makes a turn.
    fn enter(&mut self, program: &Program, pc: u32, instr: Instr)
        requires room { self.old.height - facts.pops program.now instr + facts.pushes instr
            ≤ MAX_OPERANDS }
        requires loops { length self.old.loops < MAX_LOOPS }
        ensures { self.new ≡ record (def.moved program.now instr self.old)
            { loops = record { at = pc; entries = length self.old.entries } ∷ self.old.loops } }
    {
        self.move_operands(program, instr);
        let entries = self.entries.len() as u8;
        self.loops.push(TypedLoop { at: pc, entries });
    }

    fn open_scope(&mut self, slot: u8, joiner: Joiner, timed: bool)
        requires { length self.old.entries < MAX_ENTRIES }
        ensures { self.new ≡
            record self.old {
              entries = TypedEntry.Scope
                  (record {
                    slot = slot;
                    joiner = joiner;
                    timed = timed;
                    phase = TypedPhase.Opened;
                  })
                  ∷ self.old.entries;
              slots = slice_set self.old.slots slot SlotKind.Own;
            } }
    {
        self.entries.push(TypedEntry::Scope(TypedScope {
            slot,
            joiner,
            timed,
            phase: TypedPhase::Opened,
        }));
        self.set_slot(slot, SlotKind::Own);
    }

    fn fork(&mut self, program: &Program, instr: Instr, slot: u8, handle: Option<u8>)
        requires { self.old.height - facts.pops program.now instr + facts.pushes instr
            ≤ MAX_OPERANDS }
        ensures { self.new ≡ def.with_slot handle (SlotKind.Sub slot Known.Unknown)
            (def.moved program.now instr self.old) }
    {
        self.move_operands(program, instr);
        if let Some(handle) = handle {
            self.set_slot(handle, SlotKind::Sub(slot, Known::Unknown));
        }
    }

    /// The innermost entry, a scope, is closed.
    fn close_scope(&mut self, slot: u8)
        ensures { self.new ≡ record self.old {
          entries = drop 1 self.old.entries;
          slots = def.cleared slot self.old.slots;
        } }
    {
        self.entries.drop_top(1);
        let slots = forgotten(slot, &self.slots);
        self.slots = slots;
        self.set_slot(slot, SlotKind::Empty);
    }

    fn bind(&mut self, program: &Program, instr: Instr, key: u8)
        requires room { self.old.height - facts.pops program.now instr + facts.pushes instr
            ≤ MAX_OPERANDS }
        requires entries { length self.old.entries < MAX_ENTRIES }
        ensures { self.new ≡ record (def.moved program.now instr self.old)
            { entries = TypedEntry.Binding key ∷ self.old.entries } }
    {
        self.move_operands(program, instr);
        self.entries.push(TypedEntry::Binding(key));
    }

    /// Goes to the next instruction, if that may follow.
    pub fn step(&mut self, program: &Program, pc: u32, instr: Instr)
        requires falls { facts.falls_through instr ≡ true }
        requires room { HasRoom program.now instr self.old }
        ensures { (code : List Instr) →
            slice_get (def.follows program.now code pc instr self.old) 0 ≡ Some (pc + 1, self.new) }
    {
        match instr {
            Instr::Div(_) => self.pop(1),
            Instr::Times(_) => self.enter(program, pc, instr),
            Instr::Next => self.loops.drop_top(1),
            Instr::Open {
                slot,
                joiner,
                timed,
            } => self.open_scope(slot, joiner, timed),
            Instr::Fork { slot, handle, .. } => self.fork(program, instr, slot, handle),
            Instr::Join { slot, .. } => self.join_ok(slot),
            Instr::Close(slot) => self.close_scope(slot),
            Instr::Case { handle, .. } => self.set_known(handle, Known::Unknown),
            Instr::Forget(handle) => self.set_slot(handle, SlotKind::Empty),
            Instr::Bind(key) => self.bind(program, instr, key),
            Instr::Unbind => self.entries.drop_top(1),
            _ => self.move_operands(program, instr),
        }
    }

    /// The place that an instruction leads to, and the number of operands there. The instruction
    /// must have one edge and change only the number of operands.
    pub fn moves_to(&self, program: &Program, pc: u32, instr: Instr) -> Option<(u32, u8)>
        requires pc { pc < MAX_INSTRUCTIONS }
        requires room { HasRoom program.now instr self.now }
        ensures edge { (code : List Instr) →
            IfSome result (λ e. def.follows program.now code pc instr self.now ≡
            (e.0, record self.now { height = e.1 }) ∷ []) }
        ensures few { IfSome result (λ e. e.1 ≤ MAX_OPERANDS) }
    {
        match instr {
            Instr::Jmp(to) => Some((to, self.height)),
            Instr::Div(_)
            | Instr::Jz(_)
            | Instr::Times(_)
            | Instr::Next
            | Instr::Open { .. }
            | Instr::Fork { .. }
            | Instr::Join { .. }
            | Instr::Close(_)
            | Instr::Case { .. }
            | Instr::Forget(_)
            | Instr::Bind(_)
            | Instr::Unbind
            | Instr::Ret
            | Instr::Fail => None,
            _ => Some((
                pc + 1,
                self.height.saturating_sub(pops(program, instr)) + pushes(instr),
            )),
        }
    }
}
