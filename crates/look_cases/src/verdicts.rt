//! The verdict on a program, as JSON.

ghost use Rattle.std.specs.Prelude.{◌≡◌, ℕ, IfOk, List, length};
ghost use Rattle.serde_json.specs.Data.{Items};
ghost use Rattle.serde_json.specs.View.{view, items_view, items_of};
ghost use Rattle.sts_asm.specs.Source.{sentence_at};
ghost use Rattle.look_cases.specs.Answer as def;
ghost use Rattle.look_cases.specs.Objects.{Makes, MakesList};

use crate::faults::code;
use crate::objects::{Made, Scalar, object_of, with_list, with_text};
use serde_json::Value;
use std::alloc::{AllocError, Global};
use sts_asm::{AsmKind, Outline, outlined};
use sts_code::{Function, name_of};
use sts_output::Refusal;
use sts_output::verify::all_budgets;
use sts_rules::Budgets;
use sts_verify::Verified;

fn line_in(outline: &Outline<'_>, function: u32, pc: u32) -> Option<u64>
    ensures { result ≡ def.line_number (sentence_at outline.now function pc) }
{
    match outline.sentence(function, pc) {
        Some(sentence) => Some(u64::from(sentence.line())),
        None => None,
    }
}

/// Returns the number of the line with an instruction, or null at the end of a function.
///
/// # Errors
///
/// Memory was refused.
pub(crate) fn line_of(
    alloc: Global,
    text: &[u8],
    function: u32,
    pc: u32,
) -> Result<Option<u64>, AllocError>
    ensures { IfOk result (λ n. n ≡ def.line_of text.now function pc) }
{
    match outlined(alloc, text) {
        Ok(outline) => Ok(line_in(&outline, function, pc)),
        Err(error) => {
            if matches!(error.kind, AsmKind::Memory) {
                return Err(AllocError);
            }
            Ok(None)
        }
    }
}

fn budget(alloc: Global, name: &str, budgets: Budgets) -> Made
    ensures { IfOk result (λ v. view v ≡ def.budget name.now budgets) }
{
    object_of(
        alloc,
        &[
            ("binds", Scalar::Count(budgets.binds as u64)),
            ("function", Scalar::Text(name)),
            ("scopes", Scalar::Count(budgets.scopes as u64)),
            ("steps", Scalar::Count(budgets.steps as u64)),
            ("tasks", Scalar::Count(budgets.tasks as u64)),
        ],
    )
}

/// Returns the budgets of these functions, in order.
fn budget_list(
    alloc: Global,
    functions: &[Function],
    budgets: &[Budgets],
) -> Result<Vec<Value>, AllocError>
    requires { length budgets.now ≡ length functions.now }
    ensures { IfOk result (λ list. items_view list.items
        ≡ items_of (def.budget_list functions.now budgets.now)) }
{
    let mut list = Vec::new(alloc);
    for i in 0..functions.len() {
        let function = &functions[i];
        list.push(budget(alloc, function.name.as_str(), budgets[i])?)?;
    }
    Ok(list)
}

fn accepted_with(alloc: Global, budgets: Result<Vec<Value>, AllocError>) -> Made
    ensures { (ds : Items) → MakesList ds budgets → Makes (def.accepted_with ds) result }
{
    let verdict = object_of(alloc, &[("accepted", Scalar::Flag(true))]);
    with_list(alloc, verdict, "budgets", budgets)
}

/// Returns the verdict on an accepted program.
///
/// # Errors
///
/// Memory was refused.
pub(crate) fn accepted(alloc: Global, verified: &Verified) -> Made
    ensures { IfOk result (λ v. (text : List ℕ) → def.IsVerdict verified.now text (view v)) }
{
    let budgets = all_budgets(alloc, verified)?;
    let functions = verified.program().functions();
    accepted_with(alloc, budget_list(alloc, functions, budgets.as_slice()))
}

/// Returns the verdict on a program that is refused.
///
/// # Errors
///
/// Memory was refused.
pub(crate) fn refused(alloc: Global, refusal: &Refusal, text: &[u8]) -> Made
    ensures { IfOk result (λ v. view v ≡ def.refused refusal.now.program text.now
        refusal.now.function refusal.now.pc refusal.now.cause) }
{
    let line = line_of(alloc, text, refusal.function, refusal.pc)?;
    let name = name_of(&refusal.program, refusal.function);
    let verdict = object_of(
        alloc,
        &[
            ("accepted", Scalar::Flag(false)),
            ("function", Scalar::Text(name)),
            ("line", Scalar::MaybeCount(line)),
            ("place", Scalar::Count(refusal.pc as u64)),
        ],
    );
    let cause = refusal.cause;
    with_text(alloc, verdict, "cause", code(alloc, "V", cause.number()))
}
