//! What the picks of a scope come to: how many ends count towards a cancel, the tallies that its
//! owner asked for, and the sum.

ghost use Rattle.std.specs.Prelude.{◌≡◌, [], ◌∷◌, ◌++◌, List, Option, IfOk, OnOk, true};
ghost use Rattle.ends_picks.specs.Outcomes as def;
ghost use Rattle.ends_picks.specs.declared.outcomes.Outcome.{Outcome};
ghost use Rattle.laws_calls.specs.Fitting.{Fits};
ghost use Rattle.laws_calls.specs.Tasks.{Among, May};
ghost use Rattle.sts_model.specs.Joining as joining;
ghost use Rattle.sts_model.specs.declared.event.End.{End};
ghost use Rattle.sts_model.specs.declared.event.End.TheVariants.{Success};

use crate::groups::{Group, is_in};
use crate::joiners::most;
use ends_search::index::Index;
use laws_calls::table::{Part, Seen};
use std::alloc::{AllocError, Global};
use sts_code::Kind;
use sts_model::End;

/// The most outcomes of some parts of a scope.
pub const MOST_OUTCOMES: usize = 8_192;

/// How many ends count towards a cancel, how many subtasks are of the kinds that the owner asked
/// for, and the sum of the values. A tally that was not asked for is 0.
#[derive(Clone, Copy, PartialEq, Eq)]
pub struct Outcome {
    pub triggers: u32,
    pub successes: u32,
    pub failures: u32,
    pub unavailable: u32,
    pub total: i64,
}

/// Why there is no list of outcomes.
#[derive(Clone, Copy, Drop)]
pub enum Failure {
    /// There is no memory.
    NoMemory(AllocError),
    /// There are too many.
    TooMany,
}

impl From<AllocError> for Failure {
    fn from(error: AllocError) -> Failure {
        Failure::NoMemory(error)
    }
}

/// One more, if the state passes.
fn counted(count: u32, passes: bool) -> Result<u32, Failure>
    ensures { IfOk result (λ n. n ≡ def.counted count passes) }
{
    if !passes {
        return Ok(count);
    }
    if count == u32::MAX {
        return Err(Failure::TooMany);
    }
    Ok(count + 1)
}

/// The sum with one value more. It wraps.
#[tactic(auto, using(std::proofs::lemmas::Int::wraps))]
fn plus(sum: i64, value: i64) -> i64
    ensures { result ≡ joining.plus_value sum (Success value) }
{
    sum.wrapping_add(value)
}

/// The sum with one end more.
fn added(sum: i64, state: Option<End>) -> i64
    ensures { result ≡ def.added sum state }
{
    match state {
        Some(End::Success(value)) => plus(sum, value),
        Some(End::Failed(_)) | None => sum,
    }
}

/// The outcome with one part more, which is in this state.
fn after(seen: &Seen, outcome: Outcome, state: Option<End>) -> Result<Outcome, Failure>
    ensures { IfOk result (λ o. o ≡ def.after seen.now outcome state) }
{
    let joiner = seen.joiner;
    let succeeds = seen.asked.successes.is_some() && is_in(joiner, Group::Of(Kind::S), state);
    let fails = seen.asked.failures.is_some() && is_in(joiner, Group::Of(Kind::F), state);
    let is_out = seen.asked.unavailable.is_some() && is_in(joiner, Group::Of(Kind::U), state);
    Ok(Outcome {
        triggers: counted(outcome.triggers, is_in(joiner, Group::Counting, state))?,
        successes: counted(outcome.successes, succeeds)?,
        failures: counted(outcome.failures, fails)?,
        unavailable: counted(outcome.unavailable, is_out)?,
        total: added(outcome.total, state),
    })
}

/// Has the count not passed an answer that the owner got?
fn is_at_most(answer: Option<u32>, count: u32) -> bool
    ensures { result ≡ def.is_at_most answer count }
{
    match answer {
        None => true,
        Some(most) => count <= most,
    }
}

/// May more parts lead to an outcome that fits?
fn is_within(seen: &Seen, outcome: Outcome) -> bool
    ensures { result ≡ def.is_within seen.now outcome }
{
    outcome.triggers <= most(seen.joiner)
        && is_at_most(seen.asked.successes, outcome.successes)
        && is_at_most(seen.asked.failures, outcome.failures)
        && is_at_most(seen.asked.unavailable, outcome.unavailable)
}

/// Are the outcomes the same?
fn is_same(a: Outcome, b: Outcome) -> bool
    ensures { result ≡ true → a ≡ b }
{
    a == b
}

/// A number that the same outcomes share, and most others don't: only a hint, with no contract.
fn fingerprint(outcome: Outcome) -> u64 {
    let counts = u64::from(outcome.triggers)
        ^ (u64::from(outcome.successes) << 20)
        ^ (u64::from(outcome.failures) << 40);
    let mixed = (outcome.total.cast_unsigned() ^ u64::from(outcome.unavailable)).wrapping_mul(
        0x9e37_79b9_7f4a_7c15,
    ) ^ counts;
    let product = mixed.wrapping_mul(0x9e37_79b9_7f4a_7c15);
    product ^ (product >> 32)
}

/// Different outcomes, with an index by fingerprint.
#[derive(Drop)]
struct Found {
    outcomes: Vec<Outcome>,
    index: Index,
}

impl Found {
    fn new(alloc: Global) -> Result<Found, AllocError> {
        Ok(Found {
            outcomes: Vec::new(alloc),
            index: Index::new(alloc)?,
        })
    }

    /// Is the outcome at this place?
    fn is_at(&self, place: usize, outcome: Outcome) -> bool
        ensures { result ≡ true → Among self.now.outcomes.items outcome }
    {
        let there = self.outcomes.as_slice();
        place < there.len() && is_same(there[place], outcome)
    }

    /// Was the outcome found before?
    fn has(&self, outcome: Outcome, print: u64) -> bool
        ensures { result ≡ true → Among self.now.outcomes.items outcome }
    {
        let mut place = self.index.first(print);
        for _ in 0..self.outcomes.len() {
            if self.is_at(place, outcome) {
                return true;
            }
            place = self.index.behind(place, print);
        }
        false
    }

    /// Adds an outcome.
    fn push(&mut self, alloc: Global, outcome: Outcome, print: u64) -> Result<(), AllocError>
        ensures { OnOk result (self.new.outcomes.items ≡ self.old.outcomes.items ++ outcome ∷ []) }
    {
        self.index.add(alloc, print)?;
        self.outcomes.push(outcome)?;
        Ok(())
    }

    /// Adds an outcome, unless it was found before.
    fn add(&mut self, alloc: Global, outcome: Outcome) -> Result<(), Failure>
        ensures has { OnOk result (Among self.new.outcomes.items outcome) }
        ensures keeps { OnOk result ((o : Outcome) → Among self.old.outcomes.items o
            → Among self.new.outcomes.items o) }
    {
        let print = fingerprint(outcome);
        if self.has(outcome, print) {
            return Ok(());
        }
        if self.outcomes.len() >= MOST_OUTCOMES {
            return Err(Failure::TooMany);
        }
        self.push(alloc, outcome, print)?;
        Ok(())
    }

    /// Adds the outcome with one part more, if it may lead to one that fits.
    fn add_after(
        &mut self,
        alloc: Global,
        seen: &Seen,
        outcome: Outcome,
        state: Option<End>,
    ) -> Result<(), Failure>
        ensures has { OnOk result (def.is_within seen.now (def.after seen.now outcome state) ≡ true
            → Among self.new.outcomes.items (def.after seen.now outcome state)) }
        ensures keeps { OnOk result ((o : Outcome) → Among self.old.outcomes.items o
            → Among self.new.outcomes.items o) }
    {
        let next = after(seen, outcome, state)?;
        if !is_within(seen, next) {
            return Ok(());
        }
        self.add(alloc, next)?;
        Ok(())
    }

    /// Adds each outcome with one part more, which is in this state.
    fn add_all(
        &mut self,
        alloc: Global,
        seen: &Seen,
        before: &[Outcome],
        state: Option<End>,
    ) -> Result<(), Failure>
        ensures has { OnOk result ((o : Outcome) → Among before.now o
            → def.is_within seen.now (def.after seen.now o state) ≡ true
            → Among self.new.outcomes.items (def.after seen.now o state)) }
        ensures keeps { OnOk result ((o : Outcome) → Among self.old.outcomes.items o
            → Among self.new.outcomes.items o) }
    {
        for outcome in before {
            self.add_after(alloc, seen, *outcome, state)?;
        }
        Ok(())
    }

    /// Adds each outcome with one part more, which came to one of its ends.
    fn add_ways(
        &mut self,
        alloc: Global,
        seen: &Seen,
        before: &[Outcome],
        part: &Part,
    ) -> Result<(), Failure>
        ensures has { OnOk result ((o : Outcome) → (e : End) → Among before.now o
            → May part.now (Option.Some e)
            → def.is_within seen.now (def.after seen.now o (Option.Some e)) ≡ true
            → Among self.new.outcomes.items (def.after seen.now o (Option.Some e))) }
        ensures keeps { OnOk result ((o : Outcome) → Among self.old.outcomes.items o
            → Among self.new.outcomes.items o) }
    {
        for way in part.ways.as_slice() {
            self.add_all(alloc, seen, before, Some(way.end))?;
        }
        Ok(())
    }

    /// Adds each outcome with one part more, which is unavailable, if it may be.
    fn add_open(
        &mut self,
        alloc: Global,
        seen: &Seen,
        before: &[Outcome],
        is_open: bool,
    ) -> Result<(), Failure>
        ensures { OnOk result ((o : Outcome) → Among before.now o → is_open ≡ true
            → def.is_within seen.now (def.after seen.now o Option.None) ≡ true
            → Among self.new.outcomes.items (def.after seen.now o Option.None)) }
    {
        if !is_open {
            return Ok(());
        }
        self.add_all(alloc, seen, before, None)?;
        Ok(())
    }
}

/// The outcomes with one part more.
fn extended(
    alloc: Global,
    seen: &Seen,
    before: &[Outcome],
    part: &Part,
) -> Result<Vec<Outcome>, Failure>
    ensures { IfOk result (λ found. (o : Outcome) → (state : Option End)
        → Among before.now o → May part.now state
        → def.is_within seen.now (def.after seen.now o state) ≡ true
        → Among found.items (def.after seen.now o state)) }
{
    let mut found = Found::new(alloc)?;
    found.add_open(alloc, seen, before, part.is_open)?;
    found.add_ways(alloc, seen, before, part)?;
    Ok(found.outcomes)
}

/// The outcome of no parts.
fn of_no_parts(alloc: Global) -> Result<Vec<Outcome>, AllocError>
    ensures { IfOk result (λ found. Among found.items def.nothing) }
{
    let mut found = Vec::new(alloc);
    found.push(Outcome {
        triggers: 0,
        successes: 0,
        failures: 0,
        unavailable: 0,
        total: 0,
    })?;
    Ok(found)
}

/// The outcomes of all picks that fit.
pub fn outcomes(alloc: Global, seen: &Seen) -> Result<Vec<Outcome>, Failure>
    ensures { IfOk result (λ found. (pick : List (Option End)) → Fits seen.now pick
        → Among found.items (def.outcome_of seen.now pick)) }
{
    let mut found = of_no_parts(alloc)?;
    for i in 0..seen.parts.len() {
        found = extended(alloc, seen, found.as_slice(), seen.parts.at(i))?;
    }
    Ok(found)
}
