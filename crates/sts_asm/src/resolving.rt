//! Looks up the names of a text, and makes its functions a program.

ghost use Rattle.std.specs.Prelude.{◌≡◌, Some, true, map, OnErr};
ghost use Rattle.sts_code.specs.Checks.{program_fault};
ghost use Rattle.sts_text.specs.Words.{words as words_in};
ghost use Rattle.sts_asm.specs.Fault.{Judges, StepsAt};
ghost use Rattle.sts_asm.specs.Kept.{are_naming, without_names, filled, routine_of, program_of};
ghost use Rattle.sts_asm.specs.Line.{has_names, instr_of};
ghost use Rattle.sts_asm.specs.Text.{each, instr_at, checked};

use crate::fault::{AsmError, AsmKind, LineFault, LineKind};
use crate::kept::Kept;
use crate::line::instr_of;
use crate::marks::{Marks, Names};
use crate::outline::{Outline, Sentence};
use std::alloc::Global;
use sts_code::{Function, Instr, Profile, Program};
use sts_text::Words;

fn instr_in(text: &[u8], names: &Names<'_, '_>) -> Result<Instr, LineFault>
    ensures { result ≡ instr_of (Some names.now) (words_in text.now) }
{
    let mut rest = Words::new(text);
    let Some(word) = rest.word() else {
        return Err(LineFault(LineKind::UnknownWord));
    };
    instr_of(word, &mut rest, Some(names))
}

/// Does it name a label or a function?
pub(crate) fn has_names(instr: &Instr) -> bool
    ensures { result ≡ has_names instr.now }
{
    matches!(
        *instr,
        Instr::Div(_)
            | Instr::Jmp(_)
            | Instr::Jz(_)
            | Instr::Fork { .. }
            | Instr::Join { .. }
            | Instr::Case { .. }
    )
}

fn instr_at(names: &Names<'_, '_>, sentence: &Sentence<'_>) -> Result<Instr, AsmError>
    ensures { Judges (λ i. i) result (instr_at names.now sentence.now) }
{
    match instr_in(sentence.text, names) {
        Ok(instr) => Ok(instr),
        Err(LineFault(LineKind::Memory)) => Err(AsmError {
            line: 0,
            kind: AsmKind::Memory,
        }),
        Err(fault) => Err(AsmError {
            line: sentence.line,
            kind: fault.kind(),
        }),
    }
}

/// Reads the instructions of a function that name something again, from their lines. After a fault,
/// those that name nothing are as they were.
pub(crate) fn fill(
    names: &Names<'_, '_>,
    again: &[Sentence<'_>],
    code: &mut Vec<Instr>,
) -> Result<(), AsmError>
    ensures steps { StepsAt result code.new.items
        (filled (instr_at names.now) again.now code.old.items) }
    ensures same { OnErr result (are_naming again.now ≡ true →
        map without_names code.new.items ≡ map without_names code.old.items) }
{
    let mut next = 0;
    for at in 0..code.len() {
        if next == again.len() {
            return Ok(());
        }
        if has_names(&code[at]) {
            code[at] = instr_at(names, &again[next])?;
            next += 1;
        }
    }
    Ok(())
}

fn routine_of<'a>(
    alloc: Global,
    functions: &Marks<'a>,
    kept: Kept<'a>,
) -> Result<Function, AsmError>
    ensures { Judges (λ f. f) result (routine_of functions.now kept.entry) }
{
    let mut kept = kept;
    kept.look_up(functions)?;
    let Kept {
        name,
        args,
        needs,
        code,
        ..
    } = kept;
    let name = String::from_str(alloc, name)?;
    Ok(Function {
        name,
        args,
        needs,
        code,
    })
}

fn routines_of<'a>(
    alloc: Global,
    functions: &Marks<'a>,
    all: Vec<Kept<'a>>,
) -> Result<Vec<Function>, AsmError>
    ensures { Judges (λ fs. fs.items) result (each (routine_of functions.now) all.entry.items) }
{
    let mut routines = Vec::new(alloc);
    for kept in all {
        let routine = routine_of(alloc, functions, kept)?;
        routines.push(routine)?;
    }
    Ok(routines)
}

/// The program of these functions, or its first unknown name, or the program check that fails.
///
/// # Errors
///
/// The first fault with its line, or memory ran out.
pub(crate) fn program_of<'a>(
    alloc: Global,
    outline: &Outline<'a>,
    all: Vec<Kept<'a>>,
) -> Result<Program, AsmError>
    ensures { Judges (λ p. p) result (program_of outline.now all.entry.items) }
{
    let routines = routines_of(alloc, &outline.functions, all)?;
    checked(outline.profile, routines)
}

/// The program of these functions, or the program check that fails.
pub(crate) fn checked(profile: Profile, routines: Vec<Function>) -> Result<Program, AsmError>
    ensures { Judges (λ p. p) result
        (checked profile routines.items (program_fault routines.items)) }
{
    match Program::new_in(profile, routines) {
        Ok(program) => Ok(program),
        Err(error) => Err(AsmError {
            line: 0,
            kind: AsmKind::Code(error),
        }),
    }
}
