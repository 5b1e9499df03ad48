//! The calls that a run makes to its caller: a gate before each piece of work, and the events from
//! outside.

ghost use Rattle.std.specs.Prelude.{IfSome};
ghost use Rattle.sts_pool.specs.Outside.{IsOutside};

use sts_model::Event;

/// A worker calls this before it works on a task. It holds no lock then.
pub trait Gate {
    fn enter(&self, worker: u32, task: u32);
}

/// Gives the interrupts and expiries of a run; it never gives a step.
pub trait Outside {
    ghost use Rattle.std.specs.Prelude.{ℕ, Option};
    ghost use Rattle.sts_model.specs.declared.event.Event.{Event as AnyEvent};

    // May this state, asked at this length of the journal, give that answer and be in that state
    // then?
    ghost gives: { Self → ℕ → Option AnyEvent → Self → Type 0 };

    /// The next event, if one is due when the journal has `journal_length` entries. A worker asks
    /// under the lock before each turn, until the answer is `None` or 4,096 events were taken.
    fn next(&mut self, journal_length: u64) -> Option<Event>
        ensures outside { IfSome result IsOutside }
        ensures gives { gives self.old journal_length result self.new };
}
