//! What an owner knows of its subtasks after it looked.

ghost use Rattle.std.specs.Prelude.{◌≡◌, IfOk, map, ◌<◌, length, true};
ghost use Rattle.std.specs.List.{filter, list_any};
ghost use Rattle.ends_table.specs.Led as led;
ghost use Rattle.laws_calls.specs.Steps as def;
ghost use Rattle.laws_calls.specs.declared.table.Part.{Part};
ghost use Rattle.laws_calls.specs.declared.table.Way.{Way};
ghost use Rattle.sts_repeats.specs.declared.runs.Run.{Run};

use crate::places::{PlacedPart, with_part, with_parts};
use ends_picks::counts::sure_count;
use ends_picks::joiners::{is_unseen, most};
use laws_calls::joiners::{is_failure, is_success, is_trigger};
use laws_calls::shared::Shared;
use laws_calls::table::{Knowledge, Part, Seen, Way};
use std::alloc::{AllocError, Global};
use sts_code::Joiner;
use sts_model::{End, Items};
use sts_repeats::repeats::Repeats;
use sts_repeats::runs::{Run, push_run};
use sts_same::copied::Copied;

/// Ends of one kind: successes or failures, which count towards a cancel, or which don't.
#[derive(Clone, Copy)]
pub struct EndKind {
    pub succeeds: bool,
    pub counting: bool,
}

/// The part has ended by this end.
fn only(alloc: Global, end: End, part: &Part) -> Result<Part, AllocError>
    ensures { IfOk result (λ x. x ≡ def.only end part.now) }
{
    let mut ways = Items::new(alloc);
    ways.push(Way { end })?;
    Ok(Part {
        ways: Shared::new(alloc, ways)?,
        is_open: false,
        is_early: part.is_early,
    })
}

/// The part has ended.
fn ended(part: &Part) -> Result<Part, AllocError>
    ensures { IfOk result (λ x. x ≡ def.ended part.now) }
{
    Ok(Part {
        ways: part.ways.share()?,
        is_open: false,
        is_early: part.is_early,
    })
}

/// Each part has ended.
fn all_ended(alloc: Global, parts: &Repeats<Part>) -> Result<Repeats<Part>, AllocError>
    ensures { IfOk result (λ xs. xs ≡ map def.ended parts.now) }
{
    let mut after = Vec::new(alloc);
    for run in parts.runs() {
        push_run(&mut after, ended(&run.value)?, run.more)?;
    }
    Repeats::of(alloc, after)
}

/// The scope after all its subtasks ended.
pub fn after_all(alloc: Global, seen: &Seen) -> Result<Seen, AllocError>
    ensures { IfOk result (λ x. x ≡ def.after_all seen.now) }
{
    let parts = all_ended(alloc, &seen.parts)?;
    let mut after = with_parts(alloc, seen, parts)?;
    after.knowledge = Knowledge::Heard;
    Ok(after)
}

/// The scope after one part has ended by this end.
pub fn with_end(alloc: Global, known: PlacedPart<'_>, end: End) -> Result<Seen, AllocError>
    requires { known.i < length known.seen.now.parts }
    ensures { IfOk result (λ x. x
        ≡ def.decided known.entry.seen.now known.entry.i end known.entry.part.now) }
{
    let part = only(alloc, end, known.part)?;
    with_part(alloc, known.seen, known.i, part)
}

/// May a part of some run be unavailable?
fn has_open_run(runs: &[Run<Part>]) -> bool
    ensures { result ≡ list_any (λ (run : Run Part). run.value.is_open) runs.now }
{
    runs.iter().any(|run| run.value.is_open)
}

/// May some part be unavailable?
pub fn has_open(parts: &Repeats<Part>) -> bool
    ensures { result ≡ list_any (λ (part : Part). part.is_open) parts.now }
{
    has_open_run(parts.runs())
}

/// Is the end a success, or else a failure?
pub fn is_of_kind(succeeds: bool, end: End) -> bool
    ensures { result ≡ led.of_kind succeeds end }
{
    if succeeds {
        is_success(end)
    } else {
        is_failure(end)
    }
}

/// Is the end of this kind?
fn is_split(joiner: Joiner, kind: EndKind, end: End) -> bool
    ensures { result ≡ def.split joiner kind.counting (led.of_kind kind.succeeds) end }
{
    is_of_kind(kind.succeeds, end) && is_trigger(joiner, end) == kind.counting
}

/// The ways of this kind.
fn split(
    alloc: Global,
    joiner: Joiner,
    kind: EndKind,
    ways: &[Way],
) -> Result<Items<Way>, AllocError>
    ensures { IfOk result (λ xs. xs ≡ filter (λ (way : Way).
        def.split joiner kind.counting (led.of_kind kind.succeeds) way.end) ways.now) }
{
    let mut kept = Items::new(alloc);
    for way in ways {
        if is_split(joiner, kind, way.end) {
            kept.push(*way)?;
        }
    }
    Ok(kept)
}

/// The scope is known to be cancelled, if as many parts as cancel it have ended by ends that count.
fn settled(seen: Seen) -> Seen
    ensures { result ≡ def.settled seen }
{
    let mut seen = seen;
    let count = sure_count(seen.joiner, &seen.parts);
    if is_unseen(seen.knowledge) && most(seen.joiner) as usize <= count {
        seen.knowledge = Knowledge::ByJoiner;
    }
    seen
}

/// The part has ended by one of its ways of this kind.
fn kept(alloc: Global, joiner: Joiner, part: &Part, kind: EndKind) -> Result<Part, AllocError>
    ensures { IfOk result (λ x. x
        ≡ def.kept (def.split joiner kind.counting (led.of_kind kind.succeeds)) part.now) }
{
    let ways = split(alloc, joiner, kind, part.ways.as_slice())?;
    Ok(Part {
        ways: Shared::new(alloc, ways)?,
        is_open: false,
        is_early: part.is_early,
    })
}

/// The scope after its owner saw a failure, if there was one.
fn noted(seen: Seen, succeeds: bool) -> Seen
    ensures { result ≡ led.noted succeeds seen }
{
    let mut after = seen;
    if !succeeds {
        after.has_failure = true;
    }
    after
}

/// The scope after its owner saw that a part has ended by an end of this kind.
pub fn told(alloc: Global, known: PlacedPart<'_>, kind: EndKind) -> Result<Seen, AllocError>
    requires { known.i < length known.seen.now.parts }
    ensures { IfOk result (λ x. x ≡ def.told (led.noted kind.succeeds known.entry.seen.now)
        known.entry.i known.entry.part.now kind.counting (led.of_kind kind.succeeds)) }
{
    let part = kept(alloc, known.seen.joiner, known.part, kind)?;
    let after = with_part(alloc, known.seen, known.i, part)?;
    Ok(settled(noted(after, kind.succeeds)))
}

/// The part had not ended when the owner looked.
fn missed(
    alloc: Global,
    knowledge: Knowledge,
    has_failure: bool,
    part: &Part,
) -> Result<Part, AllocError>
    ensures { IfOk result (λ x. x ≡ def.missed knowledge has_failure part.now) }
{
    let mut after = part.copied(alloc)?;
    match (knowledge, has_failure) {
        (Knowledge::Unseen, false) => {}
        (Knowledge::Unseen, true) => after.is_early = false,
        _ => {
            after.ways = Shared::new(alloc, Items::new(alloc))?;
            after.is_open = true;
        }
    }
    Ok(after)
}

/// The scope after its owner looked at a part that had not ended.
pub fn with_missed(alloc: Global, known: PlacedPart<'_>) -> Result<Seen, AllocError>
    requires { known.i < length known.seen.now.parts }
    ensures { IfOk result (λ x. x ≡ def.parts_with known.entry.seen.now known.entry.i
        (def.missed known.entry.seen.now.knowledge known.entry.seen.now.has_failure
        known.entry.part.now)) }
{
    let part = missed(
        alloc,
        known.seen.knowledge,
        known.seen.has_failure,
        known.part,
    )?;
    with_part(alloc, known.seen, known.i, part)
}
