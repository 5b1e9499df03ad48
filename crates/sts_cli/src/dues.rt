//! The events of an outside text, as a run asks for them.

ghost use Rattle.std.specs.Prelude.{◌≡◌, IfSome};
ghost use Rattle.std.specs.List.{All};
ghost use Rattle.sts_pool.specs.Outside.{IsOutside};
ghost use Rattle.sts_cli.specs.Dues.{due_event, dues_give, dues_left};

use std::collections::VecDeque;
use std::marker::Model;
use sts_model::Event;
use sts_pool::Outside;
use sts_trace::Due;

/// Outside events in the order of their lines.
#[derive(Drop)]
pub struct Dues {
    left: VecDeque<Due>,
}

impl Model for Dues {
    ghost use Rattle.std.specs.Prelude.{List};
    ghost use Rattle.std.specs.List.{All};
    ghost use Rattle.sts_trace.specs.declared.outside.Due.{Due};
    ghost use Rattle.sts_pool.specs.Outside.{IsOutside};

    ghost Value = { List Due };

    ghost view = { λ d. d.left.items };

    ghost invariant = { λ d. All (λ due. IsOutside due.event) d.left.items };
}

impl Dues {
    /// These events, first line first.
    pub fn new(dues: Vec<Due>) -> Dues
        requires { All (λ due. IsOutside due.event) dues.items }
        ensures { result ≡ dues.items }
    {
        Dues {
            left: VecDeque::from(dues),
        }
    }
}

impl Outside for Dues {
    ghost gives = { dues_give };

    /// The first event that is left, if it is due. One that isn't due holds back those after it.
    fn next(&mut self, journal_length: u64) -> Option<Event>
        ensures outside { IfSome result IsOutside }
        ensures gives { (result ≡ due_event self.old journal_length)
            × (self.new ≡ dues_left self.old journal_length) }
    {
        let due = *self.left.front()?;
        if u64::from(due.at) > journal_length {
            return None;
        }
        self.left.pop_front();
        Some(due.event)
    }
}
