//! Whether ends that were found are all ends.

ghost use Rattle.std.specs.Prelude.{◌≡◌, true, IfOk};
ghost use Rattle.std.specs.List.{All, Contains};
ghost use Rattle.ends_whole.specs.Whole.{AreWhole};
ghost use Rattle.ends_plain.specs.Listed.{ends_of};
ghost use Rattle.laws_calls.specs.declared.table.Way.{Way};
ghost use Rattle.sts_plain.specs.declared.misstep.PlainState.TheVariants as plain;

use ends_plain::config::{Found, Setting};
use ends_plain::ends::is_found;
use ends_table::closing::closed_table;
use laws_calls::ends_are_ways;
use laws_calls::table::{Outside, Way};
use std::alloc::{AllocError, Global};
use sts_plain::PlainState;

/// Is the end of each way among these?
fn have_ways(found: &[Found], ways: &[Way]) -> bool
    ensures { result ≡ true
        → All (λ (way : Way). Contains (ends_of found.now) (plain.Ended way.end)) ways.now }
{
    for way in ways {
        if !is_found(found, PlainState::Ended(way.end)) {
            return false;
        }
    }
    true
}

/// Is each way of a closed table among these ends? Then they are all ends.
///
/// # Errors
///
/// Memory ran out.
pub fn are_whole(
    alloc: Global,
    setting: &Setting,
    found: &[Found],
    most: usize,
) -> Result<bool, AllocError>
    ensures { IfOk result (λ yes. AreWhole yes setting.now found.now) }
{
    ends_are_ways();
    let outside = Outside {
        interrupts: setting.interrupts,
        cancels: false,
    };
    let Some(rows) = closed_table(alloc, &setting.program, outside, most)? else {
        return Ok(false);
    };
    match rows.as_slice().get(0) {
        Some(root) => Ok(have_ways(found, root.ways.as_slice())),
        None => Ok(false),
    }
}
