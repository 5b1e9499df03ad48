//! What the picks come to that fit.

ghost use Rattle.std.specs.Prelude.{◌≡◌, List, Option, IfOk, OnOk, true};
ghost use Rattle.ends_picks.specs.Outcomes as def;
ghost use Rattle.ends_picks.specs.declared.outcomes.Outcome.{Outcome};
ghost use Rattle.laws_calls.specs.Fitting.{Agrees, Fits};
ghost use Rattle.laws_calls.specs.Tasks.{Among};
ghost use Rattle.sts_model.specs.declared.event.End.{End};

use crate::counts::counts_fit;
use crate::outcomes::{Failure, Outcome, outcomes};
use laws_calls::table::Seen;
use std::alloc::{AllocError, Global};

/// Is the count the answer that the owner got, if it asked?
fn is_count(answer: Option<u32>, count: u32) -> bool
    ensures { Agrees answer count → result ≡ true }
{
    match answer {
        None => true,
        Some(there) => there == count,
    }
}

/// Is its sum the answer that the owner got, if it asked?
fn is_sum(answer: Option<i64>, outcome: Outcome) -> bool
    ensures { Agrees answer outcome.total → result ≡ true }
{
    match answer {
        None => true,
        Some(there) => there == outcome.total,
    }
}

/// Are all true?
fn are_all(a: bool, b: bool, c: bool, d: bool, e: bool) -> bool
    ensures { a ≡ true → b ≡ true → c ≡ true → d ≡ true → e ≡ true → result ≡ true }
{
    a && b && c && d && e
}

/// Is the outcome one of a pick that fits? No if the answer is false.
fn fits(seen: &Seen, outcome: Outcome) -> bool
    ensures { (pick : List (Option End)) → Fits seen.now pick
        → outcome ≡ def.outcome_of seen.now pick → result ≡ true }
{
    let triggers = outcome.triggers as usize;
    let counts = counts_fit(seen.knowledge, seen.phase, seen.joiner, triggers, triggers);
    let successes = is_count(seen.asked.successes, outcome.successes);
    let failures = is_count(seen.asked.failures, outcome.failures);
    let unavailable = is_count(seen.asked.unavailable, outcome.unavailable);
    let total = is_sum(seen.asked.total, outcome);
    are_all(counts, successes, failures, unavailable, total)
}

/// Appends an outcome, if it fits.
fn push_fitting(list: &mut Vec<Outcome>, seen: &Seen, outcome: Outcome) -> Result<(), AllocError>
    ensures has { OnOk result ((pick : List (Option End)) → Fits seen.now pick
        → outcome ≡ def.outcome_of seen.now pick → Among list.new.items outcome) }
    ensures keeps { OnOk result
        ((o : Outcome) → Among list.old.items o → Among list.new.items o) }
{
    if !fits(seen, outcome) {
        return Ok(());
    }
    list.push(outcome)?;
    Ok(())
}

/// The outcomes that fit.
fn those_that_fit(alloc: Global, seen: &Seen, found: &[Outcome]) -> Result<Vec<Outcome>, AllocError>
    ensures { IfOk result (λ list. (pick : List (Option End)) → Fits seen.now pick
        → Among found.now (def.outcome_of seen.now pick)
        → Among list.items (def.outcome_of seen.now pick)) }
{
    let mut list = Vec::new(alloc);
    for outcome in found {
        push_fitting(&mut list, seen, *outcome)?;
    }
    Ok(list)
}

/// What the picks come to that fit.
///
/// # Errors
///
/// There are too many outcomes, or memory ran out.
pub fn fitting(alloc: Global, seen: &Seen) -> Result<Vec<Outcome>, Failure>
    ensures { IfOk result (λ list. (pick : List (Option End)) → Fits seen.now pick
        → Among list.items (def.outcome_of seen.now pick)) }
{
    let found = outcomes(alloc, seen)?;
    let list = those_that_fit(alloc, seen, found.as_slice())?;
    Ok(list)
}
