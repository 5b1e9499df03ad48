//! What the subtasks of a scope may have come to together.

use crate::call::{Way, number};
use crate::part::{Filter, Part, Run, ways_left, with_part};
use crate::seen::{Facts, Seen};
use crate::table::Table;
use laws_calls::joiners::{is_success, is_trigger, limit};
use laws_calls::table::{Asked, Knowledge};
use std::alloc::{AllocError, Global};
use sts_code::Joiner;
use sts_model::End;

/// How many ends count towards a cancel, and the counts that are needed; the others are 0.
#[derive(Clone, Copy, PartialEq, Eq, PartialOrd, Ord)]
pub struct Count {
    pub triggers: u32,
    pub successes: u32,
    pub failures: u32,
    pub unavailable: u32,
    pub total: i64,
}

/// Which counts are needed.
#[derive(Clone, Copy)]
pub struct Needs {
    pub successes: bool,
    pub failures: bool,
    pub unavailable: bool,
    pub total: bool,
}

/// A count that some picks come to, and the fewest interrupts for it.
#[derive(Clone, Copy)]
pub struct Sum {
    pub count: Count,
    pub cost: u32,
    /// The place of the sum without the last part.
    before: u32,
    /// The way of the last part, or `None` if it is unavailable.
    way: Option<u32>,
}

/// What the sums may not exceed.
#[derive(Clone, Copy)]
struct Bounds {
    triggers: u32,
    cost: u32,
    asked: Asked,
}

const NOTHING: Count = Count {
    triggers: 0,
    successes: 0,
    failures: 0,
    unavailable: 0,
    total: 0,
};

/// The sum of no parts.
const NO_PARTS: Sum = Sum {
    count: NOTHING,
    cost: 0,
    before: 0,
    way: None,
};

impl Needs {
    /// The counts that the owner has asked for.
    pub fn asked(asked: Asked) -> Needs {
        Needs {
            successes: asked.successes.is_some(),
            failures: asked.failures.is_some(),
            unavailable: asked.unavailable.is_some(),
            total: asked.total.is_some(),
        }
    }
}

/// The count of one part that came to this end, or is unavailable.
fn contribution(joiner: Joiner, needs: Needs, end: Option<End>) -> Count {
    match end {
        None => Count {
            unavailable: u32::from(needs.unavailable),
            ..NOTHING
        },
        Some(end) => Count {
            triggers: u32::from(is_trigger(joiner, end)),
            successes: u32::from(needs.successes && is_success(end)),
            failures: u32::from(needs.failures && !is_success(end)),
            unavailable: 0,
            total: match end {
                End::Success(value) if needs.total => value,
                _ => 0,
            },
        },
    }
}

fn added(a: Count, b: Count) -> Count {
    Count {
        triggers: a.triggers.saturating_add(b.triggers),
        successes: a.successes.saturating_add(b.successes),
        failures: a.failures.saturating_add(b.failures),
        unavailable: a.unavailable.saturating_add(b.unavailable),
        total: a.total.wrapping_add(b.total),
    }
}

/// The count of a number of parts that count alike.
fn times(count: Count, parts: u32) -> Count {
    Count {
        triggers: count.triggers.saturating_mul(parts),
        successes: count.successes.saturating_mul(parts),
        failures: count.failures.saturating_mul(parts),
        unavailable: count.unavailable.saturating_mul(parts),
        total: count.total.wrapping_mul(i64::from(parts)),
    }
}

fn is_at_most(count: u32, most: Option<u32>) -> bool {
    match most {
        None => true,
        Some(most) => count <= most,
    }
}

impl Bounds {
    fn admit(&self, sum: &Sum) -> bool {
        sum.cost <= self.cost
            && sum.count.triggers <= self.triggers
            && is_at_most(sum.count.successes, self.asked.successes)
            && is_at_most(sum.count.failures, self.asked.failures)
            && is_at_most(sum.count.unavailable, self.asked.unavailable)
    }
}

/// The place of a count.
fn place_of(sums: &[Sum], count: Count) -> Option<usize> {
    sums.iter().position(|one| one.count == count)
}

/// Adds a choice, unless its count is there for no more interrupts.
fn keep(sums: &mut Vec<Sum>, sum: Sum) -> Result<(), AllocError> {
    let Some(place) = place_of(sums.as_slice(), sum.count) else {
        sums.push(sum)?;
        return Ok(());
    };
    if let Some(there) = sums.get_mut(place) {
        if sum.cost < there.cost {
            *there = sum;
        }
    }
    Ok(())
}

/// Adds the choices of those ways that a part may have come to.
fn push_ways(
    joiner: Joiner,
    needs: Needs,
    part: Part,
    ways: &[Way],
    found: &mut Vec<Sum>,
) -> Result<(), AllocError> {
    let mut place: u32 = 0;
    for way in ways {
        if part.filter.allows(joiner, place, way.end) {
            let sum = Sum {
                count: contribution(joiner, needs, Some(way.end)),
                cost: way.cost,
                before: 0,
                way: Some(place),
            };
            keep(found, sum)?;
        }
        place = place.saturating_add(1);
    }
    Ok(())
}

/// Adds the sums with this choice of one part more, in the same order.
fn push_shifted(
    bounds: &Bounds,
    sums: &[Sum],
    choice: &Sum,
    after: &mut Vec<Sum>,
) -> Result<(), AllocError> {
    let mut before: u32 = 0;
    for sum in sums {
        let next = Sum {
            count: added(sum.count, choice.count),
            cost: sum.cost.saturating_add(choice.cost),
            before,
            way: choice.way,
        };
        if bounds.admit(&next) {
            after.push(next)?;
        }
        before = before.saturating_add(1);
    }
    Ok(())
}

/// Which of two lists the next sum comes from.
#[derive(Clone, Copy)]
enum Source {
    Ours,
    Theirs,
    Both,
}

fn next_from(ours: &Sum, theirs: &Sum) -> Source {
    if ours.count < theirs.count {
        Source::Ours
    } else if theirs.count < ours.count {
        Source::Theirs
    } else {
        Source::Both
    }
}

/// The sum with fewer interrupts.
fn cheaper(ours: &Sum, theirs: &Sum) -> Sum {
    if theirs.cost < ours.cost {
        *theirs
    } else {
        *ours
    }
}

/// The next sum of two lists, and where it comes from, if one is left.
fn next_sum(ours: Option<&Sum>, theirs: Option<&Sum>) -> Option<(Sum, Source)> {
    match (ours, theirs) {
        (Some(one), Some(other)) => match next_from(one, other) {
            Source::Ours => Some((*one, Source::Ours)),
            Source::Theirs => Some((*other, Source::Theirs)),
            Source::Both => Some((cheaper(one, other), Source::Both)),
        },
        (Some(one), None) => Some((*one, Source::Ours)),
        (None, Some(other)) => Some((*other, Source::Theirs)),
        (None, None) => None,
    }
}

/// Adds two lists of sums in rising order of their counts as one, each count once. (Totals that wrap
/// break the order. Then a count may be there twice.)
fn push_merged(ours: &[Sum], theirs: &[Sum], after: &mut Vec<Sum>) -> Result<(), AllocError> {
    let mut i: usize = 0;
    let mut j: usize = 0;
    for _ in 0..ours.len().saturating_add(theirs.len()) {
        let Some((one, source)) = next_sum(ours.get(i), theirs.get(j)) else {
            break;
        };
        after.push(one)?;
        if !matches!(source, Source::Theirs) {
            i = i.saturating_add(1);
        }
        if !matches!(source, Source::Ours) {
            j = j.saturating_add(1);
        }
    }
    Ok(())
}

/// Merges in the sums with this choice of one part more.
fn merge_choice(
    alloc: Global,
    bounds: &Bounds,
    sums: &[Sum],
    choice: &Sum,
    after: &mut Vec<Sum>,
) -> Result<(), AllocError> {
    let mut more = Vec::new(alloc);
    push_shifted(bounds, sums, choice, &mut more)?;
    let mut merged = Vec::new(alloc);
    push_merged(after.as_slice(), more.as_slice(), &mut merged)?;
    *after = merged;
    Ok(())
}

/// The sums with one part more.
fn extended(
    alloc: Global,
    bounds: &Bounds,
    sums: &[Sum],
    choices: &[Sum],
) -> Result<Vec<Sum>, AllocError> {
    let mut after = Vec::new(alloc);
    for choice in choices {
        merge_choice(alloc, bounds, sums, choice, &mut after)?;
    }
    Ok(after)
}

/// Have these the same counts for the same interrupts?
fn are_same(ours: &[Sum], theirs: &[Sum]) -> bool {
    ours.len() == theirs.len()
        && ours.iter().zip(theirs.iter()).all(|(one, other)| one.count == other.count
            && one.cost == other.cost)
}

/// Goes on to the sums with a run of equal parts more, and returns whether there are at most `most`.
fn extend(
    alloc: Global,
    bounds: &Bounds,
    sums: &mut Vec<Sum>,
    choices: &[Sum],
    count: u32,
    most: usize,
) -> Result<bool, AllocError> {
    for _ in 0..count {
        let next = extended(alloc, bounds, sums.as_slice(), choices)?;
        let is_last = next.len() > most || are_same(sums.as_slice(), next.as_slice());
        *sums = next;
        if is_last {
            break;
        }
    }
    Ok(sums.len() <= most)
}

/// What fits the facts of a scope, if `left` interrupts are left.
fn bounds_of(facts: &Facts, left: u32) -> Bounds {
    let limit = limit(facts.joiner);
    let triggers = match facts.knowledge {
        Knowledge::Heard => limit.saturating_sub(1),
        _ => limit,
    };
    Bounds {
        triggers,
        cost: left,
        asked: facts.asked,
    }
}

fn is_count(count: u32, asked: Option<u32>) -> bool {
    match asked {
        None => true,
        Some(there) => count == there,
    }
}

/// Has a whole pick of this count all that the owner knows?
fn fits(facts: &Facts, count: Count) -> bool {
    let is_cancelled = facts.knowledge != Knowledge::ByJoiner
        || count.triggers >= limit(facts.joiner);
    let is_total = match facts.asked.total {
        None => true,
        Some(total) => count.total == total,
    };
    is_cancelled
        && is_total
        && is_count(count.successes, facts.asked.successes)
        && is_count(count.failures, facts.asked.failures)
        && is_count(count.unavailable, facts.asked.unavailable)
}

/// The sum of no parts, alone.
fn no_parts(alloc: Global) -> Result<Vec<Sum>, AllocError> {
    let mut sums = Vec::new(alloc);
    sums.push(NO_PARTS)?;
    Ok(sums)
}

/// What a part adds that is unavailable.
fn idle(facts: &Facts, needs: Needs) -> Sum {
    Sum {
        count: contribution(facts.joiner, needs, None),
        ..NO_PARTS
    }
}

/// What each part of a run may add to the counts.
fn choices_of(
    alloc: Global,
    table: &Table,
    facts: &Facts,
    needs: Needs,
    run: &Run,
) -> Result<Vec<Sum>, AllocError> {
    let mut found = Vec::new(alloc);
    if run.part.is_open {
        found.push(idle(facts, needs))?;
    }
    let ways = table.ways_of(run.part);
    push_ways(facts.joiner, needs, run.part, ways, &mut found)?;
    Ok(found)
}

/// The only way of a part, if there is one, with its place.
fn only_way(joiner: Joiner, part: Part, ways: &[Way]) -> Option<(u32, Way)> {
    let allowed = ways_left(joiner, part, ways, Filter::All);
    if allowed.count != 1 {
        return None;
    }
    let way = ways.get(allowed.place as usize)?;
    Some((allowed.place, *way))
}

/// The choice of a part that is unavailable if it may be. Another part has one if it has only one way.
fn idle_choice(table: &Table, facts: &Facts, needs: Needs, part: Part) -> Option<Sum> {
    if part.is_open {
        return Some(idle(facts, needs));
    }
    let (place, way) = only_way(facts.joiner, part, table.ways_of(part))?;
    Some(Sum {
        count: contribution(facts.joiner, needs, Some(way.end)),
        cost: way.cost,
        before: 0,
        way: Some(place),
    })
}

/// The sum with this choice of a number of parts more.
fn with_choices(sum: Sum, choice: &Sum, count: u32) -> Sum {
    Sum {
        count: added(sum.count, times(choice.count, count)),
        cost: sum.cost.saturating_add(choice.cost.saturating_mul(count)),
        ..sum
    }
}

/// The sum of the idle pick, if there is one and it fits. In it each part that may be unavailable is, and
/// each other one comes to its only way. No other pick that fits takes fewer interrupts, and none with
/// as many has a lower count.
fn idle_sum(table: &Table, scope: &Seen, left: u32) -> Option<Sum> {
    let needs = Needs::asked(scope.facts.asked);
    let mut sum = NO_PARTS;
    for run in scope.runs.as_slice() {
        let choice = idle_choice(table, &scope.facts, needs, run.part)?;
        sum = with_choices(sum, &choice, run.count);
    }
    let is_fit = bounds_of(&scope.facts, left).admit(&sum) && fits(&scope.facts, sum.count);
    is_fit.then_some(sum)
}

/// Goes on to the sums with all parts of a scope more, and returns whether no part made more than
/// `most`.
fn extend_by_all(
    alloc: Global,
    table: &Table,
    scope: &Seen,
    bounds: &Bounds,
    needs: Needs,
    most: usize,
    sums: &mut Vec<Sum>,
) -> Result<bool, AllocError> {
    for run in scope.runs.as_slice() {
        let choices = choices_of(alloc, table, &scope.facts, needs, run)?;
        if !extend(alloc, bounds, sums, choices.as_slice(), run.count, most)? {
            return Ok(false);
        }
    }
    Ok(true)
}

/// Adds those of some sums that fit what is known of a scope.
fn push_those_that_fit(
    facts: &Facts,
    sums: &[Sum],
    found: &mut Vec<Sum>,
) -> Result<(), AllocError> {
    for sum in sums {
        if fits(facts, sum.count) {
            found.push(*sum)?;
        }
    }
    Ok(())
}

/// The counts that fit a scope, if `left` interrupts are left, with the needed ones. Each comes
/// with the fewest interrupts for it. It returns none if it had to keep more than `most` counts.
pub fn fitting_within(
    alloc: Global,
    table: &Table,
    scope: &Seen,
    left: u32,
    needs: Needs,
    most: usize,
) -> Result<Option<Vec<Sum>>, AllocError> {
    let bounds = bounds_of(&scope.facts, left);
    let mut sums = no_parts(alloc)?;
    let is_whole = extend_by_all(alloc, table, scope, &bounds, needs, most, &mut sums)?;
    let mut found = Vec::new(alloc);
    if is_whole {
        push_those_that_fit(&scope.facts, sums.as_slice(), &mut found)?;
    }
    Ok(is_whole.then_some(found))
}

/// The same, however many counts there are.
pub fn fitting(
    alloc: Global,
    table: &Table,
    scope: &Seen,
    left: u32,
    needs: Needs,
) -> Result<Vec<Sum>, AllocError> {
    let found = fitting_within(alloc, table, scope, left, needs, usize::MAX)?;
    Ok(found.unwrap_or(Vec::new(alloc)))
}

/// The fewest interrupts of a pick that fits, if one does.
pub fn least_cost(
    alloc: Global,
    table: &Table,
    scope: &Seen,
    left: u32,
) -> Result<Option<u32>, AllocError> {
    if let Some(sum) = idle_sum(table, scope, left) {
        return Ok(Some(sum.cost));
    }
    let needs = Needs::asked(scope.facts.asked);
    let found = fitting(alloc, table, scope, left, needs)?;
    Ok(found.iter().map(|sum| sum.cost).min())
}

/// Does some pick fit?
pub fn some_fits(
    alloc: Global,
    table: &Table,
    scope: &Seen,
    left: u32,
) -> Result<bool, AllocError> {
    Ok(least_cost(alloc, table, scope, left)?.is_some())
}

/// Adds the sums with each part of a run more.
fn push_layers(
    alloc: Global,
    bounds: &Bounds,
    layers: &mut Vec<Vec<Sum>>,
    choices: &[Sum],
    count: u32,
) -> Result<(), AllocError> {
    for _ in 0..count {
        let next = match layers.last() {
            None => Vec::new(alloc),
            Some(last) => extended(alloc, bounds, last.as_slice(), choices)?,
        };
        layers.push(next)?;
    }
    Ok(())
}

/// Adds the sums of the first part of a scope, of the first two, and so on.
fn push_all_layers(
    alloc: Global,
    table: &Table,
    scope: &Seen,
    left: u32,
    layers: &mut Vec<Vec<Sum>>,
) -> Result<(), AllocError> {
    let bounds = bounds_of(&scope.facts, left);
    let needs = Needs::asked(scope.facts.asked);
    for run in scope.runs.as_slice() {
        let choices = choices_of(alloc, table, &scope.facts, needs, run)?;
        push_layers(alloc, &bounds, layers, choices.as_slice(), run.count)?;
    }
    Ok(())
}

/// The place of the sum that fits for the fewest interrupts.
fn best(facts: &Facts, sums: &[Sum]) -> Option<u32> {
    let mut found: Option<u32> = None;
    let mut least = u32::MAX;
    for (place, sum) in sums.iter().enumerate() {
        if fits(facts, sum.count) && (found.is_none() || sum.cost < least) {
            found = Some(number(place));
            least = sum.cost;
        }
    }
    found
}

/// The sum at a place of a layer.
fn sum_at(layers: &[Vec<Sum>], layer: usize, place: u32) -> Option<Sum> {
    layers.get(layer)?.get(place as usize).copied()
}

/// Adds the ways of a pick that fits for the fewest interrupts, the last part's first. Returns
/// whether there is one.
fn push_picked(
    facts: &Facts,
    layers: &[Vec<Sum>],
    picked: &mut Vec<Option<u32>>,
) -> Result<bool, AllocError> {
    let found = match layers.last() {
        None => None,
        Some(last) => best(facts, last.as_slice()),
    };
    let Some(mut place) = found else {
        return Ok(false);
    };
    for layer in (1..layers.len()).rev() {
        let Some(sum) = sum_at(layers, layer, place) else {
            return Ok(false);
        };
        picked.push(sum.way)?;
        place = sum.before;
    }
    Ok(true)
}

/// Appends the way of one part a number of times.
fn push_way(ways: &mut Vec<Option<u32>>, way: Option<u32>, count: u32) -> Result<(), AllocError> {
    for _ in 0..count {
        ways.push(way)?;
    }
    Ok(())
}

/// The ways of the idle pick, if it fits.
fn idle_pick(
    alloc: Global,
    table: &Table,
    scope: &Seen,
    left: u32,
) -> Result<Option<Vec<Option<u32>>>, AllocError> {
    if idle_sum(table, scope, left).is_none() {
        return Ok(None);
    }
    let needs = Needs::asked(scope.facts.asked);
    let mut ways = Vec::new(alloc);
    for run in scope.runs.as_slice() {
        let way = idle_choice(table, &scope.facts, needs, run.part).and_then(|choice| choice.way);
        push_way(&mut ways, way, run.count)?;
    }
    Ok(Some(ways))
}

/// A pick that fits for the fewest interrupts, found by adding part by part.
fn pick_by_layers(
    alloc: Global,
    table: &Table,
    scope: &Seen,
    left: u32,
) -> Result<Option<Vec<Option<u32>>>, AllocError> {
    let mut layers = Vec::new(alloc);
    layers.push(no_parts(alloc)?)?;
    push_all_layers(alloc, table, scope, left, &mut layers)?;
    let mut picked = Vec::new(alloc);
    let is_whole = push_picked(&scope.facts, layers.as_slice(), &mut picked)?;
    picked.reverse();
    Ok(is_whole.then_some(picked))
}

/// A pick that fits for the fewest interrupts: the way of each part, or `None` if it is
/// unavailable.
pub fn pick(
    alloc: Global,
    table: &Table,
    scope: &Seen,
    left: u32,
) -> Result<Option<Vec<Option<u32>>>, AllocError> {
    match idle_pick(alloc, table, scope, left)? {
        Some(ways) => Ok(Some(ways)),
        None => pick_by_layers(alloc, table, scope, left),
    }
}

/// The scope with other facts and another part at a place, if some pick fits it then.
pub fn with_fitting(
    alloc: Global,
    table: &Table,
    scope: &Seen,
    left: u32,
    facts: Facts,
    place: u32,
    part: Part,
) -> Result<Option<Seen>, AllocError> {
    let runs = with_part(alloc, scope.runs.as_slice(), place, part)?;
    if_fits(alloc, table, Seen { facts, runs }, left)
}

/// The scope, if some pick fits it.
pub fn if_fits(
    alloc: Global,
    table: &Table,
    scope: Seen,
    left: u32,
) -> Result<Option<Seen>, AllocError> {
    let fits = some_fits(alloc, table, &scope, left)?;
    Ok(fits.then_some(scope))
}
