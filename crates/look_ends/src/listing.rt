//! What is printed of the ends of a text.

ghost use Rattle.std.specs.Prelude.{◌≡◌, ℕ, List, true, false, IfOk, option_map};
ghost use Rattle.ends_plain.specs.Listed.{AreEnds};
ghost use Rattle.ends_whole.specs.Whole.{AreAllOf};
ghost use Rattle.laws_runs.specs.Runs.{NeverFaults};
ghost use Rattle.sts_asm.specs.Text.{judged};
ghost use Rattle.sts_model.specs.declared.event.Event.{Event as AnyEvent};
ghost use Rattle.look_end_lines.specs.InLines.{lines_form};
ghost use Rattle.look_ends.specs.Listing as def;

use crate::by_calls::{answered, by_calls, room_after};
use crate::calling::of_calls;
use crate::exploring::explored;
use crate::verdict::{Judged, verdict};
use ends_plain::config::{Found, Setting};
use ends_plain::exploration::Exploration;
use ends_plain::sample::{Sampling, sample_ends};
use ends_whole::EndsByCalls;
use look_end_lines::{Answer, EndLines, EndsForm, Sampled, Searched, found_at, has_number};
use look_host::Progress;
use look_names::Names;
use look_options::{EndsOptions, Limits, Manner};
use look_run::Told;
use std::alloc::{AllocError, Global};
use std::marker::Model;
use sts_asm::{Source, read};
use sts_code::Program;
use sts_model::Event;
use sts_output::{Output, Stopped};

/// The status where an answer is not about all schedules, or an end that was asked for isn't there.
pub(crate) const STATUS_PART: u8 = 5;

/// A random schedule is cut off after this number of events.
const LONGEST: usize = 100_000;

/// What is printed, and the trace that is kept: that of the end whose number was asked for.
#[derive(Drop)]
pub struct Listing {
    pub output: Output,
    pub trace: Vec<Event>,
}

/// A listing, if there was memory for it.
pub(crate) type Listed = Result<Listing, AllocError>;

impl Model for Listing {
    ghost use Rattle.look_ends.specs.Listing.{Listing};

    ghost Value = { Listing };

    ghost view = { λ l. record { output = l.output; trace = l.trace.items } };
}

/// A copy of the trace of an end, if there is one.
fn copied_trace(alloc: Global, one: Option<&Found>) -> Result<Vec<Event>, AllocError>
    ensures { IfOk result (λ es. es.items ≡ def.events_of (option_map (λ f. f.now) one.entry)) }
{
    match one {
        None => Ok(Vec::new(alloc)),
        Some(one) => one.trace.events(alloc),
    }
}

/// The trace of the end whose number is asked for; no event if there is no such end.
fn trace_of(alloc: Global, number: Option<u32>, found: &[Found]) -> Result<Vec<Event>, AllocError>
    ensures { IfOk result (λ es. es.items ≡ def.trace_of number found.now) }
{
    match number {
        None => Ok(Vec::new(alloc)),
        Some(k) => copied_trace(alloc, found_at(found, k)),
    }
}

/// These bytes, this status and this trace, if there was memory for them.
pub(crate) fn listing_of(
    bytes: Result<Vec<u8>, AllocError>,
    status: u8,
    trace: Result<Vec<Event>, AllocError>,
) -> Listed
    ensures { (b : List ℕ) → (es : List AnyEvent) → IfOk bytes (λ v. v.items ≡ b)
        → IfOk trace (λ v. v.items ≡ es) → IfOk result (λ l. l ≡ def.listing_of b status es) }
{
    Ok(Listing {
        output: Output {
            bytes: bytes?,
            status,
        },
        trace: trace?,
    })
}

/// The status of a search.
fn status_of(number: Option<u32>, ends: &Answer) -> u8
    ensures { result ≡ def.status_of ends.now.whole number ends.now.found.items }
{
    if ends.whole && has_number(number, ends.found.as_slice()) {
        0
    } else {
        STATUS_PART
    }
}

/// What is shown of a search.
fn searched<F: EndsForm>(alloc: Global, form: &F, search: Searched<'_, '_>) -> Listed
    ensures { IfOk result (λ l. l ≡ def.searched_listing (F.shows form.now)
        search.entry.names.now search.entry.setting.now search.entry.is_refused search.entry.number
        search.entry.ends.now.found.items search.entry.ends.now.states
        search.entry.ends.now.whole search.entry.ends.now.by_calls) }
{
    let (number, ends) = (search.number, search.ends);
    let bytes = form.of_search(alloc, search);
    let trace = trace_of(alloc, number, ends.found.as_slice());
    listing_of(bytes, status_of(number, ends), trace)
}

/// What is shown of random schedules.
fn sampled<F: EndsForm>(alloc: Global, form: &F, ends: Sampled<'_, '_>) -> Listed
    ensures { IfOk result (λ l. l ≡ def.sampled_listing (F.shows form.now)
        ends.entry.told.names.now ends.entry.told.program.now ends.entry.schedules
        ends.entry.seed ends.entry.number ends.entry.sample.now.found.items
        ends.entry.sample.now.times.items ends.entry.sample.now.unfinished) }
{
    let bytes = form.of_sample(alloc, ends);
    let trace = trace_of(alloc, ends.number, ends.sample.found.as_slice());
    listing_of(bytes, STATUS_PART, trace)
}

/// What is shown of the ends of a search by calls, and of those of a search over all schedules.
fn of_both<F: EndsForm>(
    alloc: Global,
    form: &F,
    names: &Names<'_>,
    calls: EndsByCalls,
    exploration: &Exploration,
    is_refused: bool,
    number: Option<u32>,
) -> Listed
    requires verdict { def.IsVerdict exploration.now.program is_refused }
    requires calls { AreEnds exploration.now calls.found.items }
    requires called { calls.whole ≡ true → AreAllOf exploration.now calls.found.items }
    ensures { IfOk result (def.IsSearch (F.shows form.now) names.now exploration.now number) }
{
    let ends = exploration.ends(alloc)?;
    let setting = exploration.setting();
    let all = answered(setting, calls, ends)?;
    let search = Searched {
        names,
        setting,
        is_refused,
        number,
        ends: &all,
    };
    searched(alloc, form, search)
}

/// The listing of all ends of a program. Each is reported when it is found.
fn of_all<F: EndsForm, P: Progress>(
    alloc: Global,
    form: &F,
    names: &Names<'_>,
    setting: Setting,
    is_refused: bool,
    limits: Limits,
    number: Option<u32>,
    progress: &mut P,
) -> Listed
    requires verdict { def.IsVerdict setting.program is_refused }
    requires never { is_refused ≡ false → NeverFaults setting.program }
    ensures { IfOk result (def.IsSearch (F.shows form.now) names.now setting number) }
{
    let calls = by_calls(alloc, &setting, is_refused, limits, progress)?;
    let room = room_after(limits, is_refused, &calls);
    let known = calls.found.as_slice();
    let exploration = explored(alloc, names, setting, room, limits.seconds, known, progress)?;
    of_both(alloc, form, names, calls, &exploration, is_refused, number)
}

/// The listing of the ends of random schedules of a program.
fn of_sample<F: EndsForm>(
    alloc: Global,
    form: &F,
    names: &Names<'_>,
    setting: &Setting,
    schedules: u32,
    seed: u32,
    number: Option<u32>,
) -> Listed
    ensures { IfOk result (def.IsSampling (F.shows form.now) names.now setting.now schedules seed
        number) }
{
    let sampling = Sampling {
        schedules: u64::from(schedules),
        seed: u64::from(seed),
        longest: LONGEST,
    };
    let sample = sample_ends(alloc, setting, sampling)?;
    let program = &setting.program;
    let ends = Sampled {
        told: Told { program, names },
        schedules,
        seed,
        number,
        sample: &sample,
    };
    sampled(alloc, form, ends)
}

/// The listing of the program of a text.
fn of_program<F: EndsForm, P: Progress>(
    alloc: Global,
    form: &F,
    program: Program,
    wanted: EndsOptions,
    number: Option<u32>,
    names: &Names<'_>,
    progress: &mut P,
) -> Listed
    ensures { IfOk result (def.ListsBy (F.shows form.now) wanted.manner names.now
        (def.setting program wanted) number) }
{
    let Judged {
        program,
        is_refused,
    } = verdict(alloc, program)?;
    let setting = Setting {
        program,
        expiries: wanted.expiries,
        interrupts: wanted.interrupts,
    };
    match wanted.manner {
        Manner::All { limits } => of_all(
            alloc, form, names, setting, is_refused, limits, number, progress,
        ),
        Manner::Sample { schedules, seed } => {
            of_sample(alloc, form, names, &setting, schedules, seed, number)
        }
        Manner::Calls { states } => {
            of_calls(alloc, form, names, &setting, is_refused, states, number)
        }
    }
}

/// An output with no trace.
fn alone(alloc: Global, output: Output) -> Listing
    ensures { result ≡ def.alone output }
{
    Listing {
        output,
        trace: Vec::new(alloc),
    }
}

/// Finds the ends of a text, and returns what is shown of them in a form. With a `number`, it keeps
/// the trace of the end of this number, as `sts replay` reads it.
///
/// # Errors
///
/// Memory was refused.
pub fn listed_in<F: EndsForm, P: Progress>(
    alloc: Global,
    form: &F,
    wanted: EndsOptions,
    number: Option<u32>,
    text: &[u8],
    progress: &mut P,
) -> Result<Listing, AllocError>
    ensures { IfOk result
        (def.ListsIn (F.shows form.now) (judged text.now) text.now wanted number) }
{
    let Source { outline, program } = read(alloc, text)?;
    match form.program_of(alloc, program, text) {
        Ok(program) => {
            let names = Names::new(alloc, text, outline)?;
            of_program(alloc, form, program, wanted, number, &names, progress)
        }
        Err(Stopped::Shown(output)) => Ok(alone(alloc, output)),
        Err(Stopped::Memory) => Err(AllocError),
    }
}

/// Finds the ends of a text, and returns the lines that are printed of them. With a `number`, it
/// keeps the trace of the end of this number, as `sts replay` reads it.
///
/// # Errors
///
/// Memory was refused.
pub fn listed<P: Progress>(
    alloc: Global,
    wanted: EndsOptions,
    number: Option<u32>,
    text: &[u8],
    progress: &mut P,
) -> Result<Listing, AllocError>
    ensures { IfOk result (def.ListsIn lines_form (judged text.now) text.now wanted number) }
{
    listed_in(alloc, &EndLines, wanted, number, text, progress)
}
