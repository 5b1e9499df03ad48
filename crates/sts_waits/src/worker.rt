//! Where a worker is between two holds of the lock, and what comes of a hold.

ghost use Rattle.std.specs.Prelude.{◌≡◌};

/// Where a worker is between two holds of the lock.
#[derive(Clone, Copy, PartialEq, Eq, Hash)]
pub enum Worker {
    /// It comes to the lock for the first time.
    New,
    /// It found no task. It pauses, as it did this often before, and looks again.
    Looking(u32),
    /// It sleeps until it is woken.
    Asleep,
    /// It claimed this task, and passes the gate with it.
    Claiming(u32),
    /// It is out with `slices` slices, and does up to `limit` local instructions of each.
    Out { slices: u32, limit: u32 },
    /// It has ended.
    Ended,
}

/// Whom a worker wakes at a hold.
#[derive(Clone, Copy, PartialEq, Eq)]
pub enum Wake {
    Nobody,
    /// One of the workers that sleep.
    Another,
    All,
}

/// What comes of a hold: where the worker is then, and whom it wakes before it gives the lock up.
#[derive(Clone, Copy, PartialEq, Eq)]
pub struct Held {
    pub worker: Worker,
    pub wake: Wake,
}

impl Held {
    /// The worker ends, and wakes all others.
    pub(crate) fn last() -> Held
        ensures { result.wake ≡ Wake.All }
    {
        Held {
            worker: Worker::Ended,
            wake: Wake::All,
        }
    }

    /// The worker wakes nobody.
    pub(crate) fn quiet(worker: Worker) -> Held
        ensures { result.worker ≡ worker }
    {
        Held {
            worker,
            wake: Wake::Nobody,
        }
    }
}
