//! The scopes, as JSON.

ghost use Rattle.std.specs.Prelude.{◌≡◌, IfOk};
ghost use Rattle.std.specs.String.{string_bytes};
ghost use Rattle.serde_json.specs.View.{view, items_view, items_of};
ghost use Rattle.sts_model.specs.World as model;
ghost use Rattle.look_views.specs.Scope as def;

use crate::named::{Listed, with_name};
use look_cases::{Made, Scalar, object_of, with_list, with_text};
use look_lines::phase_word;
use look_names::Names;
use std::alloc::{AllocError, Global};
use sts_code::{Joiner, Pred};
use sts_model::{Completion, End};
use sts_world::Records;

/// Returns the words of a joiner, one space apart, as an `open` has them.
fn joiner_text(alloc: Global, joiner: Joiner) -> Result<String, AllocError>
    ensures { IfOk result (λ s. string_bytes s ≡ def.joiner_text joiner) }
{
    match joiner {
        Joiner::AllSucceed => format!(in alloc; "all"),
        Joiner::AnySucceeds => format!(in alloc; "any"),
        Joiner::AwaitOk => format!(in alloc; "awaitok"),
        Joiner::AwaitAll => format!(in alloc; "awaitall"),
        Joiner::Until(Pred::Failed(n)) => format!(in alloc; "until failed {n}"),
        Joiner::Until(Pred::Success(n)) => format!(in alloc; "until success {n}"),
        Joiner::Until(Pred::AtLeast(v)) => format!(in alloc; "until atleast {v}"),
    }
}

/// Returns an end that a joiner was told of, with its task and the name of its value or code.
fn told_end(alloc: Global, names: &Names<'_>, told: Completion) -> Made
    ensures { IfOk result (λ v. view v ≡ def.told_end names.now told) }
{
    let task = ("task", Scalar::Count(told.task as u64));
    match told.end {
        End::Success(value) => {
            let outcome = ("outcome", Scalar::Text("success"));
            let end = object_of(alloc, &[outcome, task, ("value", Scalar::Integer(value))])?;
            with_name(alloc, end, "name", names.value(value))
        }
        End::Failed(code) => {
            let outcome = ("outcome", Scalar::Text("failed"));
            let end = object_of(alloc, &[("code", Scalar::Integer(code)), outcome, task])?;
            with_name(alloc, end, "name", names.value(code))
        }
    }
}

/// Returns the ends that a joiner was told of, in order.
fn told_ends(alloc: Global, names: &Names<'_>, completions: &[Completion]) -> Listed
    ensures { IfOk result (λ list. items_view list.items
        ≡ items_of (def.told_ends names.now completions.now)) }
{
    let mut list = Vec::new(alloc);
    for told in completions {
        list.push(told_end(alloc, names, *told)?)?;
    }
    Ok(list)
}

fn brief(alloc: Global, records: &Records, s: u32) -> Made
    ensures { IfOk result (λ v. view v ≡ def.brief s (model.scope_at records.now s)) }
{
    let brief = object_of(
        alloc,
        &[
            ("cancelled", Scalar::Flag(records.is_cancelled(s))),
            ("expired", Scalar::Flag(records.is_expired(s))),
            ("may_expire", Scalar::Flag(records.can_expire(s))),
            ("owner", Scalar::Count(records.owner(s) as u64)),
            ("phase", Scalar::Text(phase_word(records.phase(s)))),
            ("scope", Scalar::Count(s as u64)),
            ("timed", Scalar::Flag(records.is_timed(s))),
        ],
    );
    with_text(
        alloc,
        brief,
        "joiner",
        joiner_text(alloc, records.joiner(s)),
    )
}

/// Returns a scope with the ends that its joiner was told of.
fn whole(alloc: Global, names: &Names<'_>, records: &Records, s: u32) -> Made
    ensures { IfOk result (λ v. view v ≡ def.whole names.now s (model.scope_at records.now s)) }
{
    let told = told_ends(alloc, names, records.completions(s));
    with_list(alloc, brief(alloc, records, s), "told", told)
}

fn scope(alloc: Global, names: &Names<'_>, full: bool, records: &Records, s: u32) -> Made
    ensures { IfOk result (λ v. view v
        ≡ def.scope names.now full s (model.scope_at records.now s)) }
{
    if full {
        whole(alloc, names, records, s)
    } else {
        brief(alloc, records, s)
    }
}

/// Returns all scopes that were ever born. In full they have the ends that their joiners got.
///
/// # Errors
///
/// Memory was refused.
pub(crate) fn scopes(alloc: Global, names: &Names<'_>, full: bool, records: &Records) -> Listed
    ensures { IfOk result (λ list. items_view list.items
        ≡ items_of (def.scopes names.now full records.now records.now.scopes 0)) }
{
    let mut list = Vec::new(alloc);
    for s in 0..records.scopes_born() {
        list.push(scope(alloc, names, full, records, s as u32)?)?;
    }
    Ok(list)
}

/// Returns the scopes that aren't closed. In full they have the ends that their joiners got.
///
/// # Errors
///
/// Memory was refused.
pub(crate) fn open_scopes(alloc: Global, names: &Names<'_>, full: bool, records: &Records) -> Listed
    ensures { IfOk result (λ list. items_view list.items
        ≡ items_of (def.open_scopes names.now full records.now records.now.scopes 0)) }
{
    let mut list = Vec::new(alloc);
    for s in 0..records.scopes_born() {
        if !records.phase(s as u32).is_closed() {
            list.push(scope(alloc, names, full, records, s as u32)?)?;
        }
    }
    Ok(list)
}
