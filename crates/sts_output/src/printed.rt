//! The lines that are printed.

ghost use Rattle.std.specs.Prelude.{◌≡◌, ◌++◌, OnOk, slice_get, length};
ghost use Rattle.std.specs.String.{string_bytes};
ghost use Rattle.sts_code.specs.Program.{routine};
ghost use Rattle.sts_asm.specs.Fault.{code_error};
ghost use Rattle.sts_output.specs.Printed as def;

use std::alloc::{AllocError, Global};
use std::fmt::Write;
use sts_asm::AsmError;
use sts_code::{CodeError, Function, Instr, Program, name_of};
use sts_list::spell;
use sts_model::{End, Fault};
use sts_plain::PlainState;
use sts_rules::{Budgets, Cause};
use sts_trace::TraceError;

fn code_fault_line(out: &mut String, error: CodeError) -> Result<(), AllocError>
    ensures { OnOk result (string_bytes out.new
        ≡ string_bytes out.old ++ def.code_fault_line error) }
{
    let number = error.cause.number();
    let function = error.function;
    let pc = error.pc;
    writeln!(out, "error A9 C{number} function {function} at {pc}")
}

/// The line of a fault of a text.
///
/// # Errors
///
/// Memory ran out; `out` may then have a part of it.
pub fn text_fault_line(out: &mut String, error: AsmError) -> Result<(), AllocError>
    ensures { OnOk result (string_bytes out.new
        ≡ string_bytes out.old ++ def.text_fault_line error (code_error error.kind)) }
{
    match error.kind.code_error() {
        Some(refused) => code_fault_line(out, refused),
        None => {
            let number = error.kind.number();
            let line = error.line;
            writeln!(out, "error A{number} line {line}")
        }
    }
}

/// The line of a fault of a trace.
///
/// # Errors
///
/// Memory ran out; `out` may then have a part of it.
pub fn trace_fault_line(out: &mut String, error: TraceError) -> Result<(), AllocError>
    ensures { OnOk result (string_bytes out.new
        ≡ string_bytes out.old ++ def.trace_fault_line error) }
{
    match error {
        TraceError::BadLine(n) => writeln!(out, "error T1 line {n}"),
        TraceError::BadNumber(n) => writeln!(out, "error T2 line {n}"),
        TraceError::NoNewline => writeln!(out, "error T3"),
        TraceError::Memory => writeln!(out, "error memory"),
    }
}

/// The word of a fault of a run.
pub fn fault_word(fault: Fault) -> &'static str
    ensures { result.now ≡ def.fault_word fault }
{
    match fault {
        Fault::IllegalState => "IllegalState",
        Fault::WrongThread => "WrongThread",
        Fault::Structure => "Structure",
        Fault::Operand => "Operand",
        Fault::Unbound => "Unbound",
    }
}

/// Why a task can't step, or why it can't be interrupted, with a space before it.
pub fn rest_words(lives: bool, has_started: bool) -> &'static str
    ensures { result.now ≡ def.rest_words lives has_started }
{
    if lives {
        " waits"
    } else if has_started {
        " has ended"
    } else {
        " never starts"
    }
}

/// The line of the root's end.
///
/// # Errors
///
/// Memory ran out; `out` may then have a part of it.
pub fn end_line(out: &mut String, end: End) -> Result<(), AllocError>
    ensures { OnOk result (string_bytes out.new ≡ string_bytes out.old ++ def.end_line end) }
{
    match end {
        End::Success(value) => writeln!(out, "success {value}"),
        End::Failed(code) => writeln!(out, "failed {code}"),
    }
}

fn fault_line(
    out: &mut String,
    program: &Program,
    kind: Fault,
    task: u32,
    function: u32,
    pc: u32,
) -> Result<(), AllocError>
    ensures { OnOk result (string_bytes out.new ≡ string_bytes out.old
        ++ def.fault_line program.now kind task function pc) }
{
    let word = fault_word(kind);
    let name = name_of(program, function);
    writeln!(out, "fault {word} task {task} in {name} at {pc}")
}

/// The line that says the state of the plain machine.
///
/// # Errors
///
/// Memory ran out; `out` may then have a part of it.
pub fn state_line(out: &mut String, program: &Program, state: PlainState) -> Result<(), AllocError>
    ensures { OnOk result (string_bytes out.new
        ≡ string_bytes out.old ++ def.state_line program.now state) }
{
    match state {
        PlainState::Running => writeln!(out, "running"),
        PlainState::Ended(end) => end_line(out, end),
        PlainState::Fault {
            kind,
            task,
            function,
            pc,
        } => fault_line(out, program, kind, task, function, pc),
    }
}

/// The line of the steps taken.
///
/// # Errors
///
/// Memory ran out; `out` may then have a part of it.
pub fn steps_line(out: &mut String, steps: u64) -> Result<(), AllocError>
    ensures { OnOk result (string_bytes out.new ≡ string_bytes out.old ++ def.steps_line steps) }
{
    writeln!(out, "steps {steps}")
}

/// The instruction at a place of a function, or `end`.
fn place_words(
    alloc: Global,
    out: &mut String,
    program: &Program,
    instr: Option<Instr>,
) -> Result<(), AllocError>
    ensures { OnOk result (string_bytes out.new
        ≡ string_bytes out.old ++ def.place_words program.now instr) }
{
    match instr {
        None => out.push_str("end")?,
        Some(instr) => {
            let words = spell(alloc, &instr, program)?;
            out.push_str(words.as_str())?;
        }
    }
    Ok(())
}

/// The instruction at a place of a function.
fn instr_at(program: &Program, function: u32, pc: u32) -> Option<Instr>
    ensures { result ≡ slice_get (routine program.now function).code pc }
{
    match program.functions().get(function as usize) {
        Some(f) => f.code.get(pc as usize).copied(),
        None => None,
    }
}

/// The line that says where and why a program is refused.
///
/// # Errors
///
/// Memory ran out; `out` may then have a part of it.
pub fn refused_line(
    alloc: Global,
    out: &mut String,
    program: &Program,
    function: u32,
    pc: u32,
    cause: Cause,
) -> Result<(), AllocError>
    ensures { OnOk result (string_bytes out.new
        ≡ string_bytes out.old ++ def.refused_line program.now function pc cause) }
{
    let number = cause.number();
    let name = name_of(program, function);
    write!(out, "refused V{number} in {name} at {pc}: ")?;
    place_words(alloc, out, program, instr_at(program, function, pc))?;
    out.push('\n')?;
    Ok(())
}

/// The line of one budget of a function. The word has a space before it and after it.
fn budget_line(out: &mut String, name: &str, word: &str, budget: u32) -> Result<(), AllocError>
    ensures { OnOk result (string_bytes out.new
        ≡ string_bytes out.old ++ def.budget_line name.now word.now budget) }
{
    writeln!(out, "{name}{word}{budget}")
}

/// The four lines of a function's budgets.
fn budget_lines(out: &mut String, name: &str, budgets: Budgets) -> Result<(), AllocError>
    ensures { OnOk result (string_bytes out.new
        ≡ string_bytes out.old ++ def.budget_lines name.now budgets) }
{
    budget_line(out, name, " steps ", budgets.steps)?;
    budget_line(out, name, " tasks ", budgets.tasks)?;
    budget_line(out, name, " scopes ", budgets.scopes)?;
    budget_line(out, name, " binds ", budgets.binds)
}

/// The lines of the budgets of all functions.
///
/// # Errors
///
/// Memory ran out; `out` may then have a part of it.
pub fn accepted_lines(
    out: &mut String,
    functions: &[Function],
    budgets: &[Budgets],
) -> Result<(), AllocError>
    requires { length budgets.now ≡ length functions.now }
    ensures { OnOk result (string_bytes out.new
        ≡ string_bytes out.old ++ def.accepted_lines functions.now budgets.now) }
{
    for i in 0..functions.len() {
        let function = &functions[i];
        budget_lines(out, function.name.as_str(), budgets[i])?;
    }
    Ok(())
}
