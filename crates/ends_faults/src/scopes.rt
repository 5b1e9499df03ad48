//! Whether a scope is as an instruction needs it.

ghost use Rattle.std.specs.Prelude.{◌≡◌, true, []};
ghost use Rattle.ends_faults.specs.Safe as def;
ghost use Rattle.sts_model.specs.Misuse as misuse;
ghost use Rattle.sts_code.specs.Facts as facts;

use laws_calls::table::{Knowledge, Seen};
use sts_code::{Joiner, MAX_OPERANDS, Profile, can_fail};
use sts_model::{Frame, Phase};

fn is_late(knowledge: Knowledge) -> bool
    ensures { result ≡ def.is_late knowledge }
{
    matches!(knowledge, Knowledge::Late)
}

fn is_joined(phase: Phase) -> bool
    ensures { result ≡ misuse.is_joined phase }
{
    matches!(phase, Phase::Joined)
}

fn is_two(profile: Profile) -> bool
    ensures { result ≡ facts.is_two profile }
{
    matches!(profile, Profile::Two)
}

/// May the scope's subtasks be read?
pub fn is_readable(profile: Profile, seen: &Seen) -> bool
    ensures { result ≡ def.is_readable profile seen.now }
{
    is_joined(seen.phase) && (is_two(profile) || !is_late(seen.knowledge))
}

/// Does the form of a `join` not fit the scope?
pub fn joins_wrongly(frame: &Frame, failed: Option<u32>, timeout: Option<u32>, seen: &Seen) -> bool
    ensures { result ≡ def.joins_wrongly frame.now failed timeout seen.now }
{
    let full = frame.operands.len() >= usize::from(MAX_OPERANDS)
        && !matches!(seen.joiner, Joiner::AwaitAll);
    full || failed.is_some() != can_fail(seen.joiner) || timeout.is_some() != seen.timed
}

/// Was nothing forked in the scope, or a `join` of it tried?
pub fn may_close(seen: &Seen) -> bool
    ensures { result ≡ true → misuse.is_opened seen.now.phase ≡ true → seen.now.parts ≡ [] }
{
    !seen.phase.is_opened() || seen.parts.is_empty()
}
