//! The line and the code of a fault of a text.

ghost use Rattle.std.specs.Prelude.{◌≡◌, ◌≤◌, ◌++◌, IfOk, OnOk, length};
ghost use Rattle.look_text.specs.Functions.{functions_of};
ghost use Rattle.look_places.specs.Faults as def;

use crate::marks::Source;
use look_text::{
    Said, failing_function, functions_of, head_line, is_of_head, say_check, say_number,
};
use std::alloc::{AllocError, Global};
use sts_asm::{AsmError, AsmKind, Outline};
use sts_code::CodeError;
use sts_rules::Cause;

/// Why a text has a problem, as its code says it.
#[derive(Clone, Copy)]
pub(crate) enum Problem {
    Fault(AsmKind),
    Refusal(Cause),
}

/// A problem, and the line where it is.
#[derive(Clone, Copy)]
pub(crate) struct Finding {
    pub(crate) line: u32,
    pub(crate) problem: Problem,
}

/// The line of a failed check.
fn check_line(source: &Source<'_, '_>, outline: &Outline<'_>, error: CodeError) -> u32
    requires { length source.now.text ≤ 1048576 }
    ensures { result ≡ def.check_line source.now outline.now error }
{
    if is_of_head(outline, error) {
        head_line(source.text(), failing_function(outline, error)).unwrap_or(1)
    } else {
        source.line_of(error.function, error.pc)
    }
}

#[tactic(auto, using(look_text::proofs::HeadLemmas::functions_short))]
fn code_line(alloc: Global, source: &Source<'_, '_>, error: CodeError) -> Result<u32, AllocError>
    ensures { IfOk result (λ n. n
        ≡ def.code_line source.now (functions_of source.now.text) error) }
{
    match functions_of(alloc, source.text())? {
        None => Ok(1),
        Some(outline) => Ok(check_line(source, &outline, error)),
    }
}

/// The line of a fault.
///
/// # Errors
///
/// Memory ran out.
pub(crate) fn fault_line(
    alloc: Global,
    source: &Source<'_, '_>,
    error: AsmError,
) -> Result<u32, AllocError>
    ensures { IfOk result (λ n. n ≡ def.fault_line source.now error.kind error.line) }
{
    match error.kind {
        AsmKind::Code(failed) => code_line(alloc, source, failed),
        _ => Ok(if error.line == 0 { 1 } else { error.line }),
    }
}

/// Appends the code of a problem: `A2`, `A9 C4` or `V13`.
///
/// # Errors
///
/// Memory ran out; `out` may then have a part of it.
pub(crate) fn say_code(alloc: Global, out: &mut Vec<u8>, problem: Problem) -> Said
    ensures { OnOk result (out.new.items ≡ out.old.items ++ def.code problem) }
{
    match problem {
        Problem::Fault(kind) => {
            say_number(alloc, out, "A", kind.number() as u128)?;
            say_check(alloc, out, kind)
        }
        Problem::Refusal(cause) => say_number(alloc, out, "V", cause.number() as u128),
    }
}
