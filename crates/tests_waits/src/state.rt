//! A run with its workers, and what each hold of the lock leads to.

use crate::run::{Batch, EMPTY, Program, Run};
use sts_waits::{Held, Limits, Tasks, Waits, Wake, Worker};

/// How many workers there are at most.
pub const WORKERS: usize = 3;

/// The numbers of the rule, so small that short runs meet each of them.
const SMALL: Limits = Limits {
    worth: 3,
    tries: 2,
    least_row: 1,
    long_row: 8,
    in_a_batch: 2,
    many: 1,
    at_once: 4,
    at_once_in_a_batch: 2,
    in_a_row: 1,
    in_place: 3,
    in_place_for_several: 2,
    in_a_hold: 4,
    in_a_hold_for_several: 2,
    looks: 1,
};

/// A worker between two holds: where it is, and its slices. `is_woken` says whether it was woken since
/// it sleeps.
#[derive(Clone, Copy, PartialEq, Eq, Hash)]
struct Seat {
    worker: Worker,
    batch: Batch,
    is_woken: bool,
}

impl Seat {
    fn new(worker: Worker) -> Seat {
        Seat {
            worker,
            batch: EMPTY,
            is_woken: false,
        }
    }

    /// Does it sleep, and nobody has woken it?
    fn sleeps(&self) -> bool {
        matches!(self.worker, Worker::Asleep) && !self.is_woken
    }

    fn has_ended(&self) -> bool {
        matches!(self.worker, Worker::Ended)
    }
}

/// What some schedule comes to.
#[derive(Clone, Copy)]
pub struct Seen {
    /// A worker wakes another one.
    pub wakes: bool,
    /// A worker sleeps and leaves a task to another.
    pub leaves: bool,
    /// Two workers are out with slices at once.
    pub together: bool,
    /// A worker has two slices.
    pub batch: bool,
}

impl Seen {
    /// In what it differs from what is expected, if it does.
    pub fn differs(&self, expected: &Seen) -> Option<&'static str> {
        if self.wakes != expected.wakes {
            Some("it differs in whether a worker wakes another one")
        } else if self.leaves != expected.leaves {
            Some("it differs in whether a worker leaves a task to another")
        } else if self.together != expected.together {
            Some("it differs in whether two workers are out with slices at once")
        } else if self.batch != expected.batch {
            Some("it differs in whether a worker has two slices")
        } else {
            None
        }
    }
}

/// The state of a run and of its workers.
#[derive(Clone, Copy, PartialEq, Eq, Hash)]
pub struct State {
    waits: Waits,
    run: Run,
    seats: [Seat; WORKERS],
    may_stop: bool,
}

/// All workers sleep or have ended, and one of them sleeps.
const ALL_SLEEP: &str = "all workers sleep";

/// A task is left and several workers are to claim tasks. A worker sleeps, and all others sleep, have
/// ended, or are out with slices.
const NOBODY_COMES: &str = "a task is left, and nobody comes";

/// The number of workers that are awake isn't right, before the end or a stop.
const MISCOUNTED: &str = "workers are miscounted";

/// A worker was woken, and would claim no task if it came to the lock at once.
const WOKEN_FOR_NOTHING: &str = "a worker is woken for nothing";

/// All were woken, and a worker that came to the lock at once wouldn't end.
const WOKEN_FOR_NO_END: &str = "all are woken for no end";

/// The run has ended or is stopped, and a worker doesn't end at its next hold.
const GOES_ON: &str = "a worker goes on";

/// How many workers are where.
#[derive(Clone, Copy)]
struct Places {
    asleep: u32,
    awake: u32,
    out: u32,
    ended: u32,
}

/// What a hold leads to, before the wake-up is sent.
#[derive(Clone, Copy)]
pub struct Move {
    pub state: State,
    /// The worker woke up for no reason.
    pub is_false: bool,
    pub wake: Wake,
    /// What is wrong with the hold, if something is.
    pub bad: Option<&'static str>,
}

impl State {
    /// The state before the first worker has come to the lock.
    pub fn new(program: &Program, workers: u32, may_stop: bool) -> State {
        let mut seats = [Seat::new(Worker::Ended); WORKERS];
        for seat in seats.iter_mut().take(workers as usize) {
            *seat = Seat::new(Worker::New);
        }
        State {
            waits: Waits::new(workers, SMALL),
            run: Run::new(program),
            seats,
            may_stop,
        }
    }

    fn places(&self) -> Places {
        let mut places = Places {
            asleep: 0,
            awake: 0,
            out: 0,
            ended: 0,
        };
        for seat in &self.seats {
            let place = match seat.worker {
                Worker::Asleep if !seat.is_woken => &mut places.asleep,
                Worker::Looking(_) | Worker::Claiming(_) => &mut places.awake,
                Worker::Out { .. } => &mut places.out,
                Worker::Ended => &mut places.ended,
                _ => continue,
            };
            *place = place.saturating_add(1);
        }
        places
    }

    /// Have all workers ended?
    pub fn has_ended(&self) -> bool {
        self.places().ended as usize == WORKERS
    }

    /// Has a worker two slices?
    fn has_batch(&self) -> bool {
        let mut has_batch = false;
        for seat in &self.seats {
            has_batch |= matches!(seat.batch, [Some(_), Some(_)]);
        }
        has_batch
    }

    /// Notes what the state shows. Returns what is wrong with it, if something is.
    pub fn notes(&self, seen: &mut Seen) -> Option<&'static str> {
        let places = self.places();
        seen.together |= places.out > 1;
        seen.batch |= self.has_batch();
        seen.leaves |= places.asleep > 0 && self.run.has_more();
        self.fault(&places)
    }

    /// What is wrong with the state, if something is.
    fn fault(&self, places: &Places) -> Option<&'static str> {
        let idle = places.asleep.saturating_add(places.ended);
        let away = idle.saturating_add(places.out);
        if places.asleep > 0 && idle as usize == WORKERS {
            Some(ALL_SLEEP)
        } else if places.asleep > 0
            && away as usize == WORKERS
            && self.waits.wants_another(&self.run)
        {
            Some(NOBODY_COMES)
        } else if !self.is_over() && self.waits.awake() != places.awake {
            Some(MISCOUNTED)
        } else {
            None
        }
    }

    /// Has the run ended, or was it stopped?
    fn is_over(&self) -> bool {
        self.run.has_ended() || self.waits.has_stopped()
    }

    /// Wakes this worker, if it sleeps. Answers whether it did.
    fn wakes(&mut self, number: usize) -> bool {
        match self.seats.get_mut(number) {
            Some(seat) if seat.sleeps() => {
                seat.is_woken = true;
                true
            }
            _ => false,
        }
    }

    /// One of the states that a wake-up leads to. If a worker of those that sleep is to be woken, there
    /// is one for each of them; this state if none sleeps.
    pub fn woken(&self, wake: Wake, number: usize) -> Option<State> {
        let mut state = *self;
        let is_there = match wake {
            Wake::Nobody => number == 0,
            Wake::Another => { state.wakes(number) || (number == 0 && self.places().asleep == 0) }
            Wake::All => {
                for each in 0..WORKERS {
                    state.wakes(each);
                }
                number == 0
            }
        };
        is_there.then_some(state)
    }

    /// Lets a worker have the lock once, if it hasn't ended.
    fn hold(&mut self, number: usize) -> Option<Held> {
        let seat = self.seats.get_mut(number)?;
        if seat.has_ended() {
            return None;
        }
        if let Worker::Out { limit, .. } = seat.worker {
            self.run.work(&mut seat.batch, limit);
        }
        let held = self.waits.hold(&mut self.run, seat.worker, &mut seat.batch);
        seat.worker = held.worker;
        seat.is_woken = false;
        Some(held)
    }

    /// What is wrong with a wake-up that was sent in this state.
    fn fault_of(&self, wake: Wake) -> Option<&'static str> {
        let mut state = *self;
        let mut batch = EMPTY;
        let held = state.waits.hold(&mut state.run, Worker::Asleep, &mut batch);
        match (wake, held.worker) {
            (Wake::Nobody, _) | (Wake::Another, Worker::Claiming(_)) => None,
            (Wake::All, Worker::Ended) => None,
            (Wake::Another, _) => Some(WOKEN_FOR_NOTHING),
            (Wake::All, _) => Some(WOKEN_FOR_NO_END),
        }
    }

    /// What the next hold of this worker leads to.
    fn held(&self, number: usize) -> Option<Move> {
        let mut state = *self;
        let held = state.hold(number)?;
        let goes_on = self.is_over() && !matches!(held.worker, Worker::Ended);
        Some(Move {
            state,
            is_false: self.seats.get(number)?.sleeps(),
            wake: held.wake,
            bad: if goes_on {
                Some(GOES_ON)
            } else {
                state.fault_of(held.wake)
            },
        })
    }

    /// What a stop leads to, if there may be one.
    fn stopped(&self) -> Option<Move> {
        if !self.may_stop {
            return None;
        }
        let mut state = *self;
        state.may_stop = false;
        let wake = state.waits.stop();
        Some(Move {
            state,
            is_false: false,
            wake,
            bad: state.fault_of(wake),
        })
    }

    /// What the next hold of the worker of this number leads to. A stop has the number after the last
    /// worker's.
    pub fn turn(&self, number: usize) -> Option<Move> {
        if number < WORKERS {
            self.held(number)
        } else {
            self.stopped()
        }
    }
}
