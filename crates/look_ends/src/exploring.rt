//! A search that goes on until it is over, and reports the ends that it finds.

ghost use Rattle.std.specs.Prelude.{◌≡◌, IfOk};

use ends_plain::config::{Found, Setting};
use ends_plain::exploration::Exploration;
use look_end_lines::{At, say_found};
use look_host::Progress;
use look_names::Names;
use look_run::Told;
use look_text::Said;
use std::alloc::{AllocError, Global};
use sts_plain::PlainState;

/// How many states are expanded between two reports of progress.
const PIECE: usize = 64;

/// Appends the lines of those ends that weren't reported before, numbered on.
fn say_new(
    alloc: Global,
    out: &mut Vec<u8>,
    told: Told<'_, '_>,
    found: &[Found],
    reported: &mut Vec<PlainState>,
) -> Said {
    for one in found {
        if !reported.contains(&one.end) {
            let place = reported.len();
            say_found(alloc, out, At { told, place }, one)?;
            reported.push(one.end)?;
        }
    }
    Ok(())
}

/// Reports those of these ends that weren't reported before.
fn report<P: Progress>(
    alloc: Global,
    told: Told<'_, '_>,
    found: &[Found],
    reported: &mut Vec<PlainState>,
    progress: &mut P,
) -> Said {
    let mut lines = Vec::new(alloc);
    say_new(alloc, &mut lines, told, found, reported)?;
    progress.ends(lines.as_slice());
    Ok(())
}

/// Reports the ends that a search has found so far.
fn report_found<P: Progress>(
    alloc: Global,
    names: &Names<'_>,
    exploration: &Exploration,
    reported: &mut Vec<PlainState>,
    progress: &mut P,
) -> Said {
    let ends = exploration.ends(alloc)?;
    let program = &exploration.setting().program;
    let told = Told { program, names };
    report(alloc, told, ends.found.as_slice(), reported, progress)
}

/// Expands some more states, and reports the ends that weren't reported before, if it is time to.
fn step<P: Progress>(
    alloc: Global,
    names: &Names<'_>,
    exploration: Exploration,
    reported: &mut Vec<PlainState>,
    progress: &mut P,
) -> Result<Exploration, AllocError>
    ensures { IfOk result (λ x. x ≡ exploration) }
{
    let further = exploration.advance(alloc, PIECE)?;
    if progress.found(further.states()) {
        // (the search goes on where there is no memory for a report)
        let _told = report_found(alloc, names, &further, reported, progress);
    }
    Ok(further)
}

/// Expands states until none is left, there is no more room, or the seconds have passed.
fn expanded<P: Progress>(
    alloc: Global,
    names: &Names<'_>,
    exploration: Exploration,
    seconds: Option<u32>,
    reported: &mut Vec<PlainState>,
    progress: &mut P,
) -> Result<Exploration, AllocError>
    ensures { IfOk result (λ x. x ≡ exploration) }
{
    let mut search = exploration;
    for _ in 0..u64::MAX {
        if search.is_over() || !progress.goes_on(seconds) {
            break;
        }
        search = step(alloc, names, search, reported, progress)?;
    }
    progress.over();
    Ok(search)
}

/// Reports the ends that are known, and searches all schedules for more. It keeps `most` states.
pub(crate) fn explored<P: Progress>(
    alloc: Global,
    names: &Names<'_>,
    setting: Setting,
    most: usize,
    seconds: Option<u32>,
    known: &[Found],
    progress: &mut P,
) -> Result<Exploration, AllocError>
    ensures { IfOk result (λ x. x ≡ setting) }
{
    let told = Told {
        program: &setting.program,
        names,
    };
    let mut reported = Vec::new(alloc);
    report(alloc, told, known, &mut reported, progress)?;
    let exploration = Exploration::begin(alloc, setting, most)?;
    expanded(alloc, names, exploration, seconds, &mut reported, progress)
}
