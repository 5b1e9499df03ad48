//! The functions of a program.

ghost use Rattle.std.specs.Prelude.{◌≡◌, ◌≤◌, ◌<◌, length, None};
ghost use Rattle.std.specs.List.{list_any};
ghost use Rattle.sts_code.specs.Checks.{program_fault};
ghost use Rattle.sts_code.specs.Program.{routine};

use crate::instr::Instr;
use crate::limits::{MAX_ARGS, MAX_INSTRUCTIONS};
use crate::program::Program;

/// The number of arguments of a function.
pub fn args(program: &Program, function: u32) -> u8
    ensures value { result ≡ (routine program.now function).args }
    ensures few { result ≤ MAX_ARGS }
{
    match program.functions().get(function as usize) {
        Some(f) => f.args,
        None => 0,
    }
}

/// The instructions of a function.
pub fn code_of(program: &Program, function: usize) -> &[Instr]
    ensures value { result.now ≡ (routine program.now function).code }
    ensures checked { program_fault program.now.routines ≡ None }
    ensures short { length result.now ≤ MAX_INSTRUCTIONS }
    ensures some { function < length program.now.routines → 0 < length result.now }
{
    match program.functions().get(function) {
        Some(f) => f.code.as_slice(),
        None => &[],
    }
}

/// The name of a function.
pub fn name_of(program: &Program, function: u32) -> &str
    ensures { result.now ≡ (routine program.now function).name }
{
    match program.functions().get(function as usize) {
        Some(f) => f.name.as_str(),
        None => "",
    }
}

/// Does a function with these needs need any key?
pub fn needs_any(needs: &[bool; 16]) -> bool
    ensures { result ≡ list_any (λ needed. needed) needs.now }
{
    needs.iter().any(|needed| *needed)
}
