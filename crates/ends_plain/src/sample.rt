//! Random schedules: some of the ends, and how often each came. It says nothing of other ends.

ghost use Rattle.std.specs.Prelude.{◌≡◌, ◌<◌, ◌++◌, ◌∷◌, [], true, IfOk, IfSome, OnOk, length};
ghost use Rattle.ends_plain.specs.Configs.{can};
ghost use Rattle.ends_plain.specs.Listed.{AreEnds, IsEndOf};
ghost use Rattle.ends_plain.specs.Ways.{GoesOn};

use crate::config::{Config, Found, Setting};
use crate::ends::is_end_at;
use crate::moves::events_of;
use crate::schedule::Schedule;
use crate::trace::Trace;
use crate::way::Way;
use rand_core::SeedableRng;
use rand_xoshiro::Xoshiro256PlusPlus;
use std::alloc::{AllocError, Global};
use sts_model::Event;
use sts_plain::PlainState;

/// The ends that came, each once, with the trace of the first schedule that reached it.
#[derive(Drop)]
pub struct Sample {
    pub found: Vec<Found>,
    /// How many schedules came to each of them.
    pub times: Vec<u64>,
    /// The number of schedules that reached no end within their events.
    pub unfinished: u64,
}

/// How many schedules are tried, from which seed, and the limit for the events of one schedule.
#[derive(Clone, Copy)]
pub struct Sampling {
    pub schedules: u64,
    pub seed: u64,
    pub longest: usize,
}

/// The number of tasks that were born, or of scopes, if these are more.
fn born(config: &Config) -> usize {
    match config.position.world() {
        None => 0,
        Some(world) => {
            let records = world.records();
            records.tasks_born().max(records.scopes_born())
        }
    }
}

/// The event that comes at this moment by a schedule, if one can come.
fn drawn(
    alloc: Global,
    setting: &Setting,
    rng: &mut Xoshiro256PlusPlus,
    schedule: &mut Schedule,
    config: &Config,
    moment: usize,
) -> Result<Option<Event>, AllocError>
    ensures { IfOk result (λ next. IfSome next (λ e. can setting.now config.now e ≡ true)) }
{
    let events = events_of(alloc, config, setting)?;
    schedule.give_priorities(rng, born(config))?;
    Ok(schedule.next(rng, events.as_slice(), moment))
}

/// Goes on by a schedule up to its end. Is there one within `longest` events?
fn reach(
    alloc: Global,
    setting: &Setting,
    rng: &mut Xoshiro256PlusPlus,
    schedule: &mut Schedule,
    longest: usize,
    way: &mut Way,
) -> Result<bool, AllocError>
    ensures { OnOk result (GoesOn setting.now way.old way.new) }
{
    for moment in 0..longest.saturating_add(1) {
        if is_end_at(way.config.position.state()) {
            return Ok(true);
        }
        let Some(event) = drawn(alloc, setting, rng, schedule, &way.config, moment)? else {
            return Ok(false);
        };
        way.go(alloc, setting, event)?;
    }
    Ok(false)
}

/// Goes by a schedule up to its end. It returns nothing if there is no end within `longest` events.
fn walk(
    alloc: Global,
    setting: &Setting,
    rng: &mut Xoshiro256PlusPlus,
    schedule: &mut Schedule,
    longest: usize,
) -> Result<Option<Found>, AllocError>
    ensures { IfOk result (λ found. IfSome found (IsEndOf setting.now)) }
{
    let config = Config::start(alloc, setting)?;
    let trace = Trace::new(alloc);
    let mut way = Way { config, trace };
    if !reach(alloc, setting, rng, schedule, longest, &mut way)? {
        return Ok(None);
    }
    Ok(way.end())
}

/// The place of an end.
fn place_of(found: &[Found], end: PlainState) -> Option<usize>
    ensures { IfSome result (λ k. k < length found.now) }
{
    found.iter().position(|one| one.end == end)
}

impl Sample {
    /// Counts an end that was found before.
    fn count(&mut self, place: usize)
        ensures { self.new.found ≡ self.old.found }
    {
        if place < self.times.len() {
            self.times[place] = self.times[place].saturating_add(1);
        }
    }

    /// Adds an end that is new.
    fn push(&mut self, one: Found) -> Result<(), AllocError>
        ensures { OnOk result (self.new.found.items ≡ self.old.found.items ++ one ∷ []) }
    {
        self.found.push(one)?;
        self.times.push(1)?;
        Ok(())
    }

    /// Counts an end.
    fn add(&mut self, one: Found) -> Result<(), AllocError>
        ensures { (g : Setting) → AreEnds g self.old.found.items → IsEndOf g one
            → OnOk result (AreEnds g self.new.found.items) }
    {
        let Some(place) = place_of(self.found.as_slice(), one.end) else {
            return self.push(one);
        };
        self.count(place);
        Ok(())
    }
}

/// The number of events from which a schedule is drawn: that of the first end that was found.
fn length_of(sample: &Sample, longest: usize) -> usize {
    match sample.found.first() {
        None => longest,
        Some(one) => one.trace.len(),
    }
}

/// The schedule of this number. The first one has steps alone, so it shows how long a run is.
fn schedule_of(
    alloc: Global,
    rng: &mut Xoshiro256PlusPlus,
    number: u64,
    length: usize,
) -> Result<Schedule, AllocError> {
    if number == 0 {
        Ok(Schedule::of_steps(alloc))
    } else {
        Schedule::drawn(alloc, rng, length)
    }
}

/// Ends of random schedules; the same seed gives the same ones.
///
/// # Errors
///
/// There is no memory.
pub fn sample_ends(
    alloc: Global,
    setting: &Setting,
    sampling: Sampling,
) -> Result<Sample, AllocError>
    ensures { IfOk result (λ s. AreEnds setting.now s.found.items) }
{
    let mut rng = Xoshiro256PlusPlus::seed_from_u64(sampling.seed);
    let mut so_far = Sample {
        found: Vec::new(alloc),
        times: Vec::new(alloc),
        unfinished: 0,
    };
    for number in 0..sampling.schedules {
        let length = length_of(&so_far, sampling.longest);
        let mut schedule = schedule_of(alloc, &mut rng, number, length)?;
        match walk(alloc, setting, &mut rng, &mut schedule, sampling.longest)? {
            Some(one) => so_far.add(one)?,
            None => so_far.unfinished = so_far.unfinished.saturating_add(1),
        }
    }
    Ok(so_far)
}
