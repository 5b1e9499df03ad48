//! Whether a program reads scoped values.

ghost use Rattle.std.specs.Prelude.{◌≡◌, true};
ghost use Rattle.std.specs.List.{list_any};
ghost use Rattle.laws_names.specs.Names as law;

use sts_code::{Instr, Program, code_of};

/// Does the instruction read a scoped value?
fn is_reading(instr: Instr) -> bool
    ensures { result ≡ law.is_reading instr }
{
    matches!(instr, Instr::Read(_) | Instr::Bound(_) | Instr::OrElse(_))
}

/// Does one of these instructions read a scoped value?
fn any_reads(code: &[Instr]) -> bool
    ensures { result ≡ list_any law.is_reading code.now }
{
    code.iter().any(|instr| is_reading(*instr))
}

/// Does the program read no scoped value?
pub fn reads_nothing(program: &Program) -> bool
    ensures { result ≡ true → law.ReadsNothing program.now }
{
    for k in 0..program.functions().len() {
        if any_reads(code_of(program, k)) {
            return false;
        }
    }
    true
}
