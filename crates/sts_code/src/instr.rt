//! The instructions.

/// The condition of the joiner `until`: a number of failures, a number of successes, or one success
/// of at least the value.
#[derive(Clone, Copy, Debug, PartialEq, Eq)]
pub enum Pred {
    Failed(u32),
    Success(u32),
    AtLeast(i64),
}

/// How the subtasks of a scope are joined: when their ends cancel it, and what `join` gives.
///
/// `AllSucceed` and `AnySucceeds` are written `all` and `any` in a text.
#[derive(Clone, Copy, Debug, PartialEq, Eq)]
pub enum Joiner {
    AllSucceed,
    AnySucceeds,
    AwaitOk,
    AwaitAll,
    Until(Pred),
}

/// The state of a subtask, as `tally` counts it: `S` for success, `F` for failed, `U` for
/// unavailable.
#[derive(Clone, Copy, Debug, PartialEq, Eq)]
pub enum Kind {
    S,
    F,
    U,
}

/// One instruction.
///
/// A target is the number of an instruction in the same function, a function its index in the
/// program. Slots, locals and keys are below 16 in a program that passed its checks.
#[derive(Clone, Copy, PartialEq, Eq)]
pub enum Instr {
    Push(i64),
    Pop,
    Dup,
    Swap,
    Load(u8),
    Store(u8),
    Add,
    Sub,
    Mul,
    Lt,
    Eq,
    /// The place to go to if the divisor is 0.
    Div(u32),
    Jmp(u32),
    /// The place to go to if the popped operand is 0.
    Jz(u32),
    /// The bound on the number of turns.
    Times(u16),
    Next,
    Open {
        slot: u8,
        timed: bool,
        joiner: Joiner,
    },
    Fork {
        slot: u8,
        function: u32,
        /// The slot that gets the subtask, if one does.
        handle: Option<u8>,
    },
    /// The targets after a failed outcome, a timeout and an interrupt; after ok it goes to the next
    /// instruction.
    Join {
        slot: u8,
        failed: Option<u32>,
        timeout: Option<u32>,
        interrupted: u32,
    },
    Close(u8),
    Cancelled(u8),
    Case {
        handle: u8,
        success: u32,
        failed: u32,
    },
    Get(u8),
    Except(u8),
    Tally(u8, Kind),
    Total(u8),
    Forget(u8),
    Bind(u8),
    Unbind,
    Read(u8),
    Bound(u8),
    OrElse(u8),
    Interrupted,
    Ret,
    Fail,
}
