//! The listing of a program.

ghost use Rattle.std.specs.Prelude.{◌≡◌, ◌++◌, ◌≤◌, OnOk, IfOk, Ok, length, string_bytes};
ghost use Rattle.std.specs.List.{list_any, AllByRecursion};
ghost use Rattle.sts_asm.specs.Text.{judged};
ghost use Rattle.sts_list.specs.RoundTrip.{FitsInstr, FitsRoutine};
ghost use Rattle.sts_list.specs.Listing.{keys_from, keys_text, needs_text, header, instr_line};
ghost use Rattle.sts_list.specs.Listing.{label_line, code_lines, function_lines, profile_line};
ghost use Rattle.sts_list.specs.Listing.{listing};

use crate::spelling::write_instr;
use crate::targets::target_marks;
use std::alloc::{AllocError, Global};
use std::fmt::Write;
use sts_code::{Function, Instr, Profile, Program};

fn needs_any(needs: &[bool; 16]) -> bool
    ensures { result ≡ list_any (λ needed. needed) needs.now }
{
    needs.iter().any(|needed| *needed)
}

fn write_keys(out: &mut String, needs: &[bool; 16]) -> Result<(), AllocError>
    ensures { OnOk result (string_bytes out.new ≡
        string_bytes out.old ++ keys_text (keys_from 0 needs.now)) }
{
    for key in 0..needs.len() {
        if needs[key] {
            write!(out, " {key}")?;
        }
    }
    Ok(())
}

fn write_needs(out: &mut String, needs: &[bool; 16]) -> Result<(), AllocError>
    ensures text { OnOk result (string_bytes out.new ≡
        string_bytes out.old ++ needs_text needs.now) }
    ensures keys { length needs.now ≡ 16 }
{
    if needs_any(needs) {
        out.push_str(" needs")?;
        write_keys(out, needs)?;
    }
    Ok(())
}

fn write_header(out: &mut String, function: &Function) -> Result<(), AllocError>
    ensures line { OnOk result (string_bytes out.new ≡
        string_bytes out.old ++ header function.now) }
    ensures keys { OnOk result (length function.now.needs ≡ 16) }
{
    write!(out, "func {} {}", function.name.as_str(), function.args)?;
    write_needs(out, &function.needs)?;
    out.push_str("\n")
}

fn write_label(out: &mut String, is_target: bool, pc: usize) -> Result<(), AllocError>
    ensures { OnOk result (string_bytes out.new ≡ string_bytes out.old ++ label_line is_target pc) }
{
    if is_target {
        writeln!(out, "L{pc}:")
    } else {
        Ok(())
    }
}

fn write_line(out: &mut String, instr: Instr, program: &Program) -> Result<(), AllocError>
    ensures line { OnOk result (string_bytes out.new ≡
        string_bytes out.old ++ instr_line program.now instr) }
    ensures fits { FitsInstr instr }
{
    out.push_str("  ")?;
    write_instr(out, instr, program)?;
    out.push_str("\n")
}

fn write_code(
    alloc: Global,
    out: &mut String,
    code: &[Instr],
    program: &Program,
) -> Result<(), AllocError>
    ensures lines { OnOk result (string_bytes out.new ≡
        string_bytes out.old ++ code_lines program.now code.now 0 code.now) }
    ensures fits { OnOk result (AllByRecursion FitsInstr code.now) }
{
    let marks = target_marks(alloc, code)?;
    for pc in 0..code.len() {
        write_label(out, marks[pc], pc)?;
        write_line(out, code[pc], program)?;
    }
    Ok(())
}

fn write_function(
    alloc: Global,
    out: &mut String,
    function: &Function,
    program: &Program,
) -> Result<(), AllocError>
    ensures lines { OnOk result (string_bytes out.new ≡
        string_bytes out.old ++ function_lines program.now function.now) }
    ensures fits { OnOk result (FitsRoutine function.now) }
{
    write_header(out, function)?;
    write_code(alloc, out, function.code.as_slice(), program)?;
    out.push_str("end\n")
}

fn write_profile(out: &mut String, profile: Profile) -> Result<(), AllocError>
    ensures { OnOk result (string_bytes out.new ≡ string_bytes out.old ++ profile_line profile) }
{
    match profile {
        Profile::One => Ok(()),
        Profile::Two => out.push_str("profile 2\n"),
    }
}

/// The listing of a program.
///
/// # Errors
///
/// Memory ran out.
pub fn list(alloc: Global, program: &Program) -> Result<String, AllocError>
    ensures listing { IfOk result (λ text. string_bytes text ≡ listing program.now) }

    // A listing within the limit for a text is assembled to the same program.
    ensures again { IfOk result (λ text. length (string_bytes text) ≤ 1048576 →
        judged (string_bytes text) ≡ Ok program.now) }
{
    let mut out = String::new(alloc);
    write_profile(&mut out, program.profile())?;
    for function in program.functions() {
        write_function(alloc, &mut out, function, program)?;
    }
    Ok(out)
}
