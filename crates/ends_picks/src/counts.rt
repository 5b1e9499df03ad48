//! How many ends of a scope may count towards a cancel.

ghost use Rattle.std.specs.Prelude.{◌≡◌, count_by, not};
ghost use Rattle.std.specs.List.{list_any, list_all};
ghost use Rattle.ends_picks.specs.Bounds as bounds;
ghost use Rattle.laws_calls.specs.Steps as def;
ghost use Rattle.laws_calls.specs.Triggers as triggers;
ghost use Rattle.laws_calls.specs.declared.table.Part.{Part};
ghost use Rattle.laws_calls.specs.declared.table.Way.{Way};
ghost use Rattle.sts_repeats.specs.declared.runs.Run.{Run};

use crate::joiners::most;
use laws_calls::joiners::{is_trigger, limit};
use laws_calls::table::{Knowledge, Part, Seen, Way};
use sts_code::Joiner;
use sts_model::Phase;
use sts_repeats::repeats::Repeats;
use sts_repeats::runs::Run;

/// Is there a way that doesn't count?
fn has_other(joiner: Joiner, ways: &[Way]) -> bool
    ensures { result ≡ list_any (λ (way : Way). not (triggers.is_trigger joiner way.end)) ways.now }
{
    ways.iter().any(|way| !is_trigger(joiner, way.end))
}

/// Is there a way that counts?
fn has_trigger(joiner: Joiner, ways: &[Way]) -> bool
    ensures { result ≡ list_any (λ (way : Way). triggers.is_trigger joiner way.end) ways.now }
{
    ways.iter().any(|way| is_trigger(joiner, way.end))
}

/// Has the part ended by an end that counts, whichever it was?
pub fn is_sure(joiner: Joiner, part: &Part) -> bool
    ensures { result ≡ def.is_sure joiner part.now }
{
    !part.is_open && !has_other(joiner, part.ways.as_slice())
}

/// May the part end by an end that counts?
fn can_count(joiner: Joiner, part: &Part) -> bool
    ensures { result ≡ bounds.can_count joiner part.now }
{
    has_trigger(joiner, part.ways.as_slice())
}

/// Has the part a state that is possible?
fn can_be(part: &Part) -> bool
    ensures { result ≡ bounds.can_be part.now }
{
    part.is_open || !part.ways.as_slice().is_empty()
}

/// How many parts have ended by ends that count.
pub fn sure_count(joiner: Joiner, parts: &Repeats<Part>) -> usize
    ensures { result ≡ count_by (def.is_sure joiner) parts.now }
{
    parts.count(|part| is_sure(joiner, part))
}

/// How many parts may end by ends that count.
fn greatest_count(joiner: Joiner, parts: &Repeats<Part>) -> usize
    ensures { result ≡ count_by (bounds.can_count joiner) parts.now }
{
    parts.count(|part| can_count(joiner, part))
}

/// Has each run a state that is possible?
fn runs_can_be(runs: &[Run<Part>]) -> bool
    ensures { result ≡ list_all (λ (run : Run Part). bounds.can_be run.value) runs.now }
{
    runs.iter().all(|run| can_be(&run.value))
}

/// Has each part a state that is possible?
fn all_can_be(parts: &Repeats<Part>) -> bool
    ensures { result ≡ list_all bounds.can_be parts.now }
{
    runs_can_be(parts.runs())
}

/// May the number of ends that count be one from `least` to `greatest`?
pub fn counts_fit(
    knowledge: Knowledge,
    phase: Phase,
    joiner: Joiner,
    least: usize,
    greatest: usize,
) -> bool
    ensures { result ≡ bounds.counts_fit knowledge phase joiner least greatest }
{
    let most = most(joiner) as usize;
    match (knowledge, phase) {
        (Knowledge::Unseen, Phase::Joined) => false,
        (Knowledge::ByJoiner, Phase::Joined) => limit(joiner) as usize <= greatest && least <= most,
        (Knowledge::Heard, _) => least < most,
        _ => least <= most,
    }
}

/// May the scope have a pick that fits?
pub fn may_fit(seen: &Seen) -> bool
    ensures { result ≡ bounds.may_fit seen.now }
{
    let parts = &seen.parts;
    all_can_be(parts)
        && counts_fit(
            seen.knowledge,
            seen.phase,
            seen.joiner,
            sure_count(seen.joiner, parts),
            greatest_count(seen.joiner, parts),
        )
}
