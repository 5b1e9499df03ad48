//! How many subtasks of a scope may have succeeded, failed, or be unavailable.

ghost use Rattle.std.specs.Prelude.{◌≡◌, ◌+◌, ℕ, List, Option, count_by, true};
ghost use Rattle.ends_picks.specs.Groups as groups;
ghost use Rattle.ends_picks.specs.Ranges.{IsIn};
ghost use Rattle.ends_picks.specs.declared.groups.Group.TheVariants.{Counting, Of};
ghost use Rattle.laws_calls.specs.Fitting.{Fits, MayCount};
ghost use Rattle.laws_runs.specs.Tallies as tallies;
ghost use Rattle.sts_model.specs.declared.event.End.{End};

use crate::groups::{Group, range_of};
use crate::joiners::most;
use crate::ranges::Range;
use laws_calls::joiners::limit;
use laws_calls::table::{Asked, Knowledge, Seen};
use sts_code::{Joiner, Kind};
use sts_model::Phase;

/// How many ends may count towards a cancel, for all that its owner knows of it.
fn allowed(knowledge: Knowledge, phase: Phase, joiner: Joiner) -> Range
    ensures { (n : ℕ) → MayCount knowledge phase joiner n → IsIn result n }
{
    let most = most(joiner) as usize;
    match (knowledge, phase) {
        (Knowledge::ByJoiner, Phase::Joined) => Range {
            least: limit(joiner) as usize,
            greatest: most,
        },
        (Knowledge::Heard, _) => Range {
            least: 0,
            greatest: most.saturating_sub(1),
        },
        _ => Range {
            least: 0,
            greatest: most,
        },
    }
}

/// How many subtasks ended by an end that counts.
fn counting(seen: &Seen) -> Range
    ensures { (pick : List (Option End)) → Fits seen.now pick
        → IsIn result (count_by (groups.is_in seen.now.joiner Counting) pick) }
{
    let allowed = allowed(seen.knowledge, seen.phase, seen.joiner);
    let range = range_of(seen.joiner, Group::Counting, &seen.parts);
    range.meet(allowed)
}

/// The kind of an end that is a success, or a failure.
fn kind_of(succeeds: bool) -> Kind
    ensures { result ≡ groups.kind_of succeeds }
{
    if succeeds { Kind::S } else { Kind::F }
}

/// How many subtasks succeeded, or failed. No more of their ends count than may count.
fn ended(seen: &Seen, succeeds: bool) -> Range
    ensures { (pick : List (Option End)) → Fits seen.now pick
        → IsIn result (count_by (groups.is_in seen.now.joiner (Of (groups.kind_of succeeds))) pick) }
{
    let parts = &seen.parts;
    let others = range_of(seen.joiner, Group::Counted(!succeeds), parts);
    let counting = counting(seen);
    let counted = counting.minus(others);
    let uncounted = range_of(seen.joiner, Group::Uncounted(succeeds), parts);
    let kind = kind_of(succeeds);
    let all = range_of(seen.joiner, Group::Of(kind), parts);
    all.meet_sum(counted, uncounted)
}

/// How many subtasks are of this kind, whatever was asked.
fn of_kind(seen: &Seen, kind: Kind) -> Range
    ensures { (pick : List (Option End)) → Fits seen.now pick
        → IsIn result (count_by (tallies.is_kind kind) pick) }
{
    match kind {
        Kind::S => ended(seen, true),
        Kind::F => ended(seen, false),
        Kind::U => range_of(seen.joiner, Group::Of(Kind::U), &seen.parts),
    }
}

/// The answer that the owner got to a `tally` of this kind.
fn answer_of(asked: Asked, kind: Kind) -> Option<u32>
    ensures { result ≡ groups.answer_of asked kind }
{
    match kind {
        Kind::S => asked.successes,
        Kind::F => asked.failures,
        Kind::U => asked.unavailable,
    }
}

/// How many subtasks are of this kind.
pub fn tally_range(seen: &Seen, kind: Kind) -> Range
    ensures { (pick : List (Option End)) → Fits seen.now pick
        → IsIn result (count_by (tallies.is_kind kind) pick) }
{
    let range = of_kind(seen, kind);
    let answer = answer_of(seen.asked, kind);
    range.answered(answer)
}

/// Are there three numbers in these ranges that have this sum? No if the answer is false.
fn have_sum(a: Range, b: Range, c: Range, sum: usize) -> bool
    ensures { (x y z : ℕ) → x + y + z ≡ sum → IsIn a x → IsIn b y → IsIn c z → result ≡ true }
{
    let two = a.plus(b);
    let all = two.plus(c);
    let has_sum = all.has(sum);
    a.has_numbers() && b.has_numbers() && c.has_numbers() && has_sum
}

/// Did the owner ask for a tally?
fn is_asked(asked: Asked) -> bool {
    asked.successes.is_some() || asked.failures.is_some() || asked.unavailable.is_some()
}

/// May the subtasks have come to the tallies that the owner has read? No if the answer is false.
pub fn tallies_fit(seen: &Seen) -> bool
    ensures { (pick : List (Option End)) → Fits seen.now pick → result ≡ true }
{
    if !is_asked(seen.asked) {
        return true;
    }
    let successes = tally_range(seen, Kind::S);
    let failures = tally_range(seen, Kind::F);
    let unavailable = tally_range(seen, Kind::U);
    let parts = &seen.parts;
    have_sum(successes, failures, unavailable, parts.len())
}
