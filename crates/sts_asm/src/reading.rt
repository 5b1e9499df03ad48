//! Reads a text once: its functions with their lines, and its program or its first fault.

ghost use Rattle.std.specs.Prelude.{◌≡◌, IfOk, Result};
ghost use Rattle.sts_code.specs.Program.{Program as AnyProgram};
ghost use Rattle.sts_asm.specs.Fault.{IsJudged, Judges};
ghost use Rattle.sts_asm.specs.Source.{outline_or_empty, outlined};
ghost use Rattle.sts_asm.specs.Text as def;
ghost use Rattle.sts_asm.specs.Text.{each, judged};

use crate::fault::{AsmError, AsmKind};
use crate::kept::naming_lines;
use crate::marks::{Marks, Names};
use crate::outline::{Draft, Lines, Outline};
use crate::resolving::{checked, fill};
use crate::source::outlined;
use std::alloc::{AllocError, Global};
use sts_code::{Function, Instr, Program};

/// A text that was read.
#[derive(Drop)]
pub struct Source<'a> {
    /// The functions with their lines. There is none if a line has a fault.
    pub outline: Outline<'a>,
    /// The program that the text spells, or its first fault. Running out of memory is no fault.
    pub program: Result<Program, AsmError>,
}

/// The instructions of these lines, their names looked up.
fn code_of(alloc: Global, names: &Names<'_, '_>, lines: &Lines<'_>) -> Result<Vec<Instr>, AsmError>
    ensures { Judges (λ code. code.items) result (each (def.instr_at names.now) lines.now) }
{
    let unnamed = lines.unnamed.as_slice();
    let again = naming_lines(alloc, lines.sentences.as_slice(), unnamed)?;
    let mut code = Vec::from_slice(alloc, unnamed)?;
    fill(names, again.as_slice(), &mut code)?;
    Ok(code)
}

fn routine_of<'x, 't>(
    alloc: Global,
    functions: &'x Marks<'t>,
    draft: &'x Draft<'t>,
) -> Result<Function, AsmError>
    ensures { Judges (λ f. f) result (def.routine_of functions.now draft.now) }
{
    let names = Names::new(&draft.labels, functions);
    let code = code_of(alloc, &names, &draft.code)?;
    let name = String::from_str(alloc, draft.name)?;
    Ok(Function {
        name,
        args: draft.args,
        needs: draft.needs,
        code,
    })
}

fn routines_of<'x, 't>(
    alloc: Global,
    functions: &'x Marks<'t>,
    drafts: &'x [Draft<'t>],
) -> Result<Vec<Function>, AsmError>
    ensures { Judges (λ fs. fs.items) result (each (def.routine_of functions.now) drafts.now) }
{
    let mut routines = Vec::new(alloc);
    for draft in drafts {
        routines.push(routine_of(alloc, functions, draft)?)?;
    }
    Ok(routines)
}

/// The program of the functions, or the first unknown name, or the program check that fails.
fn program_of(alloc: Global, outline: &Outline<'_>) -> Result<Program, AsmError>
    ensures { Judges (λ p. p) result (def.program_of outline.now) }
{
    let routines = routines_of(alloc, &outline.functions, outline.done.as_slice())?;
    checked(outline.profile, routines)
}

/// What was read, unless memory ran out.
fn judgement(judged: Result<Program, AsmError>) -> Result<Result<Program, AsmError>, AllocError>
    ensures same { (read : Result AnyProgram AsmError) → Judges (λ p. p) judged read
        → IfOk result (λ told. told ≡ read) }
    ensures fault { IfOk result IsJudged }
{
    match judged {
        Err(error) if matches!(error.kind, AsmKind::Memory) => Err(AllocError),
        judged => Ok(judged),
    }
}

/// Reads a text: its functions with the lines of their instructions, and the program that it spells
/// or its first fault.
///
/// # Errors
///
/// Memory ran out.
pub fn read<'a>(alloc: Global, text: &'a [u8]) -> Result<Source<'a>, AllocError>
    ensures outline { IfOk result (λ s. s.outline ≡ outline_or_empty (outlined text.now)) }
    ensures program { IfOk result (λ s. s.program ≡ judged text.now) }
    ensures fault { IfOk result (λ s. IsJudged s.program) }
{
    match outlined(alloc, text) {
        Ok(outline) => {
            let program = judgement(program_of(alloc, &outline))?;
            Ok(Source { outline, program })
        }
        Err(error) => {
            if matches!(error.kind, AsmKind::Memory) {
                return Err(AllocError);
            }
            Ok(Source {
                outline: Outline::new(alloc),
                program: Err(error),
            })
        }
    }
}
