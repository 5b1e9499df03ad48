//! The counters of the ends of a scope's subtasks.

ghost use Rattle.std.specs.Prelude.{◌≡◌, ◌<◌, ◌+◌, [], ◌∷◌, ◌++◌, List, count_by, option_map};
ghost use Rattle.sts_code.specs.declared.limits.TheConstants.{MAX_STANDING};
ghost use Rattle.sts_model.specs.declared.event.End.{End as AnyEnd};
ghost use Rattle.sts_model.specs.declared.event.End.TheVariants.{Success, Failed};
ghost use Rattle.sts_model.specs.Joining as joining;
ghost use Rattle.sts_model.specs.Told.{cancels_told, result_told, reaches};
ghost use Rattle.sts_joiners.specs.Tallied.{StandsFor, tallied, with_end, ends_told};

use std::marker::Model;
use sts_code::{Joiner, Pred};
use sts_model::{End, Verdict};

/// Counts the ends that a joiner is told of, in order of completion.
///
/// Contracts see the joiner and its counters. A tally that represents a list of ends answers as the
/// definitions do for that list.
#[derive(Drop)]
pub struct Tally {
    joiner: Joiner,
    successes: u32,
    failures: u32,
    first_success: Option<i64>,
    first_failure: Option<i64>,
    /// Has the success come that the joiner waits for?
    reached: bool,
    total: i64,
}

impl Model for Tally {
    ghost use Rattle.std.specs.Prelude.{option_map};
    ghost use Rattle.sts_model.specs.declared.event.End.TheVariants.{Success, Failed};
    ghost use Rattle.sts_joiners.specs.Tallied.{Tallied};

    ghost Value = { Tallied };

    ghost view = { λ t. record {
      joiner = t.joiner;
      told = record {
        successes = t.successes;
        failures = t.failures;
        success = option_map Success t.first_success;
        failure = option_map Failed t.first_failure;
        reached = t.reached;
        total = t.total;
      };
    } };
}

impl Tally {
    /// The same once more.
    pub fn copied(&self) -> Tally
        ensures { result ≡ self.now }
    {
        Tally {
            joiner: self.joiner,
            successes: self.successes,
            failures: self.failures,
            first_success: self.first_success,
            first_failure: self.first_failure,
            reached: self.reached,
            total: self.total,
        }
    }
}

/// Counts one end more.
#[inline(always)]
fn count_one(count: &mut u32)
    requires { count.old < MAX_STANDING }
    ensures { count.new ≡ count.old + 1 }
{
    *count += 1;
}

impl Tally {
    /// The tally of no ends.
    pub fn new(joiner: Joiner) -> Self
        ensures { result ≡ tallied joiner [] }
    {
        Tally {
            joiner,
            successes: 0,
            failures: 0,
            first_success: None,
            first_failure: None,
            reached: false,
            total: 0,
        }
    }

    /// Counts an end, and answers whether the joiner now asks to cancel the scope.
    pub fn on_complete(&mut self, end: End) -> bool
        requires { ends_told self.old < MAX_STANDING }
        ensures kept { self.new ≡ with_end self.old end }
        ensures asks { result ≡ cancels_told self.new.joiner self.new.told }
        ensures stands { (ends : List AnyEnd) → StandsFor self.old ends →
            StandsFor self.new (ends ++ end ∷ []) }
        ensures cancels { (ends : List AnyEnd) → StandsFor self.old ends →
            result ≡ joining.cancels self.old.joiner (ends ++ end ∷ []) }
    {
        self.tell(end);
        self.cancels()
    }

    fn tell(&mut self, end: End)
        requires { ends_told self.old < MAX_STANDING }
        ensures { self.new ≡ with_end self.old end }
    {
        match end {
            End::Success(value) => self.add_success(value),
            End::Failed(code) => self.add_failure(code),
        }
    }

    fn add_success(&mut self, value: i64)
        requires { ends_told self.old < MAX_STANDING }
        ensures { self.new ≡ with_end self.old (Success value) }
    {
        count_one(&mut self.successes);
        self.first_success = self.first_success.or(Some(value));
        self.reached = self.reached || is_awaited(self.joiner, value);
        self.total = sum(self.total, value);
    }

    fn add_failure(&mut self, code: i64)
        requires { ends_told self.old < MAX_STANDING }
        ensures { self.new ≡ with_end self.old (Failed code) }
    {
        count_one(&mut self.failures);
        self.first_failure = self.first_failure.or(Some(code));
    }

    fn cancels(&self) -> bool
        ensures { result ≡ cancels_told self.now.joiner self.now.told }
    {
        match self.joiner {
            Joiner::AllSucceed | Joiner::AwaitOk => self.first_failure.is_some(),
            Joiner::AnySucceeds => self.first_success.is_some(),
            Joiner::AwaitAll => false,
            Joiner::Until(Pred::Failed(n)) => n <= self.failures,
            Joiner::Until(Pred::Success(n)) => n <= self.successes,
            Joiner::Until(Pred::AtLeast(_)) => self.reached,
        }
    }

    /// The answer of `join` for a scope with `subtasks` subtasks. All of them count, even if one
    /// never ran, or ended after the scope was cancelled.
    pub fn result(&self, subtasks: u32) -> Verdict
        ensures kept { result ≡ result_told self.now.joiner self.now.told subtasks }
        ensures ends { (ends : List AnyEnd) → StandsFor self.now ends →
            result ≡ joining.result_of self.now.joiner ends subtasks }
    {
        let count = Verdict::Ok(Some(i64::from(subtasks)));
        match self.joiner {
            Joiner::AllSucceed => failed_or(self.first_failure, count),
            Joiner::AwaitOk => failed_or(self.first_failure, Verdict::Ok(None)),
            Joiner::AnySucceeds => match self.first_success {
                Some(value) => Verdict::Ok(Some(value)),
                None => failed_or(self.first_failure, Verdict::Failed(-1)),
            },
            Joiner::AwaitAll => Verdict::Ok(None),
            Joiner::Until(_) => count,
        }
    }

    /// The joiner that the tally counts for.
    pub fn joiner(&self) -> Joiner
        ensures { result ≡ self.now.joiner }
    {
        self.joiner
    }

    /// How many of the ends are successes.
    pub fn successes(&self) -> u32
        ensures kept { result ≡ self.now.told.successes }
        ensures ends { (ends : List AnyEnd) → StandsFor self.now ends →
            result ≡ count_by joining.is_success ends }
    {
        self.successes
    }

    /// How many of the ends are failures.
    pub fn failures(&self) -> u32
        ensures kept { result ≡ self.now.told.failures }
        ensures ends { (ends : List AnyEnd) → StandsFor self.now ends →
            result ≡ count_by joining.is_failure ends }
    {
        self.failures
    }

    /// The sum of the values of the successes, wrapping.
    pub fn total(&self) -> i64
        ensures kept { result ≡ self.now.told.total }
        ensures ends { (ends : List AnyEnd) → StandsFor self.now ends →
            result ≡ joining.total_of ends }
    {
        self.total
    }
}

/// Is this a success that the joiner waits for?
fn is_awaited(joiner: Joiner, value: i64) -> bool
    ensures { result ≡ reaches joiner (Success value) }
{
    match joiner {
        Joiner::Until(Pred::AtLeast(least)) => least <= value,
        _ => false,
    }
}

#[tactic(auto, using(std::proofs::lemmas::Int::wraps))]
fn sum(total: i64, value: i64) -> i64
    ensures { result ≡ joining.plus_value total (Success value) }
{
    total.wrapping_add(value)
}

fn failed_or(failure: Option<i64>, other: Verdict) -> Verdict
    ensures { result ≡ joining.verdict_or (option_map Failed failure) other }
{
    match failure {
        Some(code) => Verdict::Failed(code),
        None => other,
    }
}
