//! The checks that a list of functions has to pass to be a program.

ghost use Rattle.std.specs.Prelude.{◌≡◌, ◌≤◌, ◌<◌, ◌^◌, [], length, nat_le, option_to_list};
ghost use Rattle.std.specs.List.{list_any};
ghost use Rattle.sts_code.specs.Checks as def;

use crate::code::needs_any;
use crate::instr::{Instr, Joiner, Pred};
use crate::limits::{LAST_SLOT, MAX_ARGS, MAX_ENDS, MAX_FUNCTIONS, MAX_INSTRUCTIONS, MAX_TURNS};
use crate::naming::is_name;
use crate::program::Function;
use thiserror::Error;

/// Which check fails.
#[derive(Clone, Copy, Debug, PartialEq, Eq)]
pub enum CodeCause {
    /// C1: more than 64 functions.
    TooManyFunctions,
    /// C2: more than 4,096 instructions in a function.
    TooLong,
    /// C3: a target that is no instruction of its function.
    BadTarget,
    /// C4: a `fork` of a function that isn't an earlier one.
    LaterFunction,
    /// C5: no function, or the last isn't `main` with no arguments and no needs.
    NoMain,
    /// C6: a name, slot, local, key or number out of its range, or a function with no instruction.
    BadRange,
    /// C7: the name of an earlier function.
    DuplicateName,
}

impl CodeCause {
    /// The number of the cause in what is printed: 1 for C1.
    pub fn number(self) -> u8
        ensures { result ≡ def.cause_number self }
    {
        match self {
            CodeCause::TooManyFunctions => 1,
            CodeCause::TooLong => 2,
            CodeCause::BadTarget => 3,
            CodeCause::LaterFunction => 4,
            CodeCause::NoMain => 5,
            CodeCause::BadRange => 6,
            CodeCause::DuplicateName => 7,
        }
    }
}

/// The first check that fails: the cause, and the indices of the function and of the instruction.
/// An index is 0 if the check is about the whole program or the whole function.
#[derive(Clone, Copy, Debug, PartialEq, Eq, Error)]
#[error("function {function} at {pc}: {cause:?}")]
pub struct CodeError {
    pub cause: CodeCause,
    pub function: u32,
    pub pc: u32,
}

/// Is this a place after the last of `count` instructions?
fn is_outside(count: usize, place: Option<u32>) -> bool
    ensures { result ≡ list_any (nat_le count) (option_to_list place) }
{
    match place {
        None => false,
        Some(to) => count <= to as usize,
    }
}

fn has_bad_target(count: usize, instr: Instr) -> bool
    ensures { result ≡ def.has_bad_target count instr }
{
    match instr {
        Instr::Div(to) | Instr::Jmp(to) | Instr::Jz(to) => count <= to as usize,
        Instr::Join {
            failed,
            timeout,
            interrupted,
            ..
        } => {
            is_outside(count, failed) || is_outside(count, timeout) || count <= interrupted as usize
        }
        Instr::Case {
            success,
            failed,
            ..
        } => count <= success as usize || count <= failed as usize,
        _ => false,
    }
}

fn forks_later(at: u32, instr: Instr) -> bool
    ensures { result ≡ def.forks_later at instr }
{
    match instr {
        Instr::Fork { function, .. } => at <= function,
        _ => false,
    }
}

fn is_past(x: u8) -> bool
    ensures { result ≡ def.is_past x }
{
    x > LAST_SLOT
}

fn handle_is_past(handle: Option<u8>) -> bool
    ensures { result ≡ def.handle_is_past handle }
{
    match handle {
        None => false,
        Some(h) => is_past(h),
    }
}

fn has_bad_count(joiner: Joiner) -> bool
    ensures { result ≡ def.has_bad_count joiner }
{
    match joiner {
        Joiner::Until(Pred::Failed(n)) | Joiner::Until(Pred::Success(n)) => n == 0 || n > MAX_ENDS,
        _ => false,
    }
}

fn has_bad_range(instr: Instr) -> bool
    ensures { result ≡ def.has_bad_range instr }
{
    match instr {
        Instr::Load(x)
        | Instr::Store(x)
        | Instr::Join { slot: x, .. }
        | Instr::Close(x)
        | Instr::Cancelled(x)
        | Instr::Case { handle: x, .. }
        | Instr::Get(x)
        | Instr::Except(x)
        | Instr::Tally(x, _)
        | Instr::Total(x)
        | Instr::Forget(x)
        | Instr::Bind(x)
        | Instr::Read(x)
        | Instr::Bound(x)
        | Instr::OrElse(x) => is_past(x),
        Instr::Times(n) => n == 0 || n > MAX_TURNS,
        Instr::Open { slot, joiner, .. } => is_past(slot) || has_bad_count(joiner),
        Instr::Fork { slot, handle, .. } => is_past(slot) || handle_is_past(handle),
        _ => false,
    }
}

fn instr_cause(at: u32, count: usize, instr: Instr) -> Option<CodeCause>
    ensures { result ≡ def.instr_cause at count instr }
{
    if has_bad_target(count, instr) {
        Some(CodeCause::BadTarget)
    } else if forks_later(at, instr) {
        Some(CodeCause::LaterFunction)
    } else if has_bad_range(instr) {
        Some(CodeCause::BadRange)
    } else {
        None
    }
}

/// The first fault of the instructions of the function at `at`.
fn code_fault(at: u32, code: &[Instr]) -> Option<CodeError>
    requires { length code.now ≤ MAX_INSTRUCTIONS }
    ensures { result ≡ def.code_fault at (length code.now) 0 code.now }
{
    for pc in 0..code.len() {
        if let Some(cause) = instr_cause(at, code.len(), code[pc]) {
            return Some(CodeError {
                cause,
                function: at,
                pc: pc as u32,
            });
        }
    }
    None
}

fn is_taken(name: &[u8], earlier: &[Function]) -> bool
    ensures { result ≡ list_any (def.is_named name.now) earlier.now }
{
    earlier.iter().any(|f| f.name.as_bytes() == name)
}

fn routine_cause(earlier: &[Function], function: &Function) -> Option<CodeCause>
    ensures { result ≡ def.routine_cause earlier.now function.now }
{
    let name = function.name.as_bytes();
    if function.code.len() > MAX_INSTRUCTIONS {
        Some(CodeCause::TooLong)
    } else if !is_name(name) || function.args > MAX_ARGS || function.code.is_empty() {
        Some(CodeCause::BadRange)
    } else if is_taken(name, earlier) {
        Some(CodeCause::DuplicateName)
    } else {
        None
    }
}

fn routine_fault(earlier: &[Function], function: &Function) -> Option<CodeError>
    requires { length earlier.now < 2 ^ 32 }
    ensures { result ≡ def.routine_fault earlier.now function.now }
{
    let at = earlier.len() as u32;
    match routine_cause(earlier, function) {
        Some(cause) => Some(CodeError {
            cause,
            function: at,
            pc: 0,
        }),
        None => code_fault(at, function.code.as_slice()),
    }
}

fn routines_fault(functions: &[Function]) -> Option<CodeError>
    requires { length functions.now ≤ MAX_FUNCTIONS }
    ensures { result ≡ def.routines_fault [] functions.now }
{
    for i in 0..functions.len() {
        let fault = routine_fault(&functions[..i], &functions[i]);
        if fault.is_some() {
            return fault;
        }
    }
    None
}

fn is_main(function: &Function) -> bool
    ensures { result ≡ def.is_main function.now }
{
    function.name.as_bytes() == b"main".as_slice()
        && function.args == 0
        && !needs_any(&function.needs)
}

fn ends_with_main(functions: &[Function]) -> bool
    ensures { result ≡ def.ends_with_main functions.now }
{
    match functions.last() {
        None => false,
        Some(last) => is_main(last),
    }
}

/// The first check that these functions fail.
pub fn program_fault(functions: &[Function]) -> Option<CodeError>
    ensures { result ≡ def.program_fault functions.now }
{
    if functions.len() > MAX_FUNCTIONS {
        return Some(CodeError {
            cause: CodeCause::TooManyFunctions,
            function: 0,
            pc: 0,
        });
    }
    let fault = routines_fault(functions);
    if fault.is_some() || ends_with_main(functions) {
        return fault;
    }
    Some(CodeError {
        cause: CodeCause::NoMain,
        function: 0,
        pc: 0,
    })
}
