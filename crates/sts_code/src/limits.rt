//! The limits of this profile: all of them are its own.

/// Functions of a program.
pub const MAX_FUNCTIONS: usize = 64;
/// Instructions of a function.
pub const MAX_INSTRUCTIONS: usize = 4096;
/// Arguments of a function.
pub const MAX_ARGS: u8 = 8;
/// Bytes of a name.
pub const MAX_NAME: usize = 32;
/// The last slot, local and key.
pub const LAST_SLOT: u8 = 15;
/// Turns of a loop.
pub const MAX_TURNS: u16 = 10_000;
/// Ends for which the joiner `until` waits.
pub const MAX_ENDS: u32 = 65_536;
/// Operands of a task.
pub const MAX_OPERANDS: u8 = 32;
/// Open loops of a task.
pub const MAX_LOOPS: usize = 8;
/// Entries of a task's structure list.
pub const MAX_ENTRIES: usize = 16;
/// Steps of a path through a function, with those of its subtasks.
pub const MAX_STEPS: u32 = 1_000_000;
/// The limit for the tasks that count at once, and the same limit for scopes and for bindings.
pub const MAX_STANDING: u32 = 65_536;
/// The limit for the tasks that are born in a run, and the same limit for scopes.
pub const MAX_BIRTHS: usize = 1_000_000;
/// Events of a run that come from outside.
pub const MAX_OUTSIDE: u32 = 4096;
