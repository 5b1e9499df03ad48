//! The verifier's knowledge of a task at an instruction, and why it refuses a program.

ghost use Rattle.std.specs.Prelude.{◌≡◌};
ghost use Rattle.sts_rules.specs.Causes as def;

use sts_code::Joiner;

/// The knowledge of the state of a subtask.
#[derive(Clone, Copy, Debug, PartialEq, Eq)]
pub enum Known {
    Unknown,
    Success,
    Failed,
}

/// The content of a slot: nothing, a scope of the task's own, the scope that the task is a subtask
/// of, or a subtask.
#[derive(Clone, Copy, Debug, PartialEq, Eq)]
pub enum SlotKind {
    Empty,
    Own,
    Lent,
    /// The slot of its scope, and what is known of its state.
    Sub(u8, Known),
}

/// The phase of a scope, as far as the verifier knows it. A scope is late once a timeout has joined
/// it.
#[derive(Clone, Copy, Debug, PartialEq, Eq)]
pub enum TypedPhase {
    Opened,
    Attempted,
    Joined,
    Late,
}

/// A scope in the structure list.
#[derive(Clone, Copy, Debug, PartialEq, Eq)]
pub struct TypedScope {
    pub slot: u8,
    pub timed: bool,
    pub phase: TypedPhase,
    pub joiner: Joiner,
}

/// An entry of the structure list: a scope, or the binding of a key.
#[derive(Clone, Copy, Debug, PartialEq, Eq)]
pub enum TypedEntry {
    Scope(TypedScope),
    Binding(u8),
}

impl Default for TypedEntry {
    fn default() -> TypedEntry {
        TypedEntry::Binding(0)
    }
}

/// An open loop: the place of its `times`, and the length that the structure list had there.
#[derive(Clone, Copy, Debug, PartialEq, Eq, Default)]
pub struct TypedLoop {
    pub at: u32,
    pub entries: u8,
}

/// Why a program is refused.
#[derive(Clone, Copy, Debug, PartialEq, Eq)]
pub enum Cause {
    /// V1: fewer operands than are popped.
    StackUnder,
    /// V2: more than 32 operands afterwards.
    StackOver,
    /// V3: it leads to the end of the function.
    FallsOff,
    /// V4: a target that is no later instruction.
    BackJump,
    /// V5: a `times` or a `next` without its partner, or a way into or out of a loop.
    LoopMismatch,
    /// V6: more than 8 open loops.
    LoopDepth,
    /// V7: two typestates arrive.
    StatesDiffer,
    /// V8: no typestate arrives.
    DeadCode,
    /// V9: a slot that doesn't hold the scope or subtask that the instruction needs.
    SlotKind,
    /// V10: a slot to be filled that isn't empty.
    SlotBusy,
    /// V11: a scope that the task does not own.
    WrongThread,
    /// V12: a scope or subtask that isn't in the state for the instruction.
    IllegalState,
    /// V13: an instruction that breaks the order of the structure list.
    Structure,
    /// V14: more than 16 entries in the structure list.
    Nesting,
    /// V15: a key that may be unbound.
    Unbound,
    /// V16: targets of `join` that don't fit the scope.
    JoinEdges,
    /// V17: more than 1,000,000 steps.
    TooManySteps,
    /// V18: more than 65,536 tasks.
    TooManyTasks,
    /// V19: more than 65,536 scopes.
    TooManyScopes,
    /// V20: more than 65,536 bindings.
    TooManyBinds,
}

impl Cause {
    /// The number of the cause in what is printed: 1 for V1.
    pub fn number(self) -> u8
        ensures { result ≡ def.cause_number self }
    {
        match self {
            Cause::StackUnder => 1,
            Cause::StackOver => 2,
            Cause::FallsOff => 3,
            Cause::BackJump => 4,
            Cause::LoopMismatch => 5,
            Cause::LoopDepth => 6,
            Cause::StatesDiffer => 7,
            Cause::DeadCode => 8,
            Cause::SlotKind => 9,
            Cause::SlotBusy => 10,
            Cause::WrongThread => 11,
            Cause::IllegalState => 12,
            Cause::Structure => 13,
            Cause::Nesting => 14,
            Cause::Unbound => 15,
            Cause::JoinEdges => 16,
            Cause::TooManySteps => 17,
            Cause::TooManyTasks => 18,
            Cause::TooManyScopes => 19,
            Cause::TooManyBinds => 20,
        }
    }
}
