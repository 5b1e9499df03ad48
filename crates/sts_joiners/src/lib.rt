//! The five joiners, by counters: a few words instead of the list of all ends.
#![tactic(auto)]

ghost use Rattle.std.specs.Prelude.{ℕ, List};
ghost use Rattle.sts_code.specs.declared.instr.Joiner.{Joiner};
ghost use Rattle.sts_model.specs.declared.event.End.{End};
ghost use Rattle.sts_joiners.specs.Enough.{IsEnough};

mod tally;

pub use sts_model::Verdict;
pub use tally::Tally;

/// A law of the definitions: the counters can be updated by each new end, and they answer as the
/// whole list does.
pub fn what_is_kept_is_enough()
    ensures { (joiner : Joiner) (ends : List End) (end : End) (subtasks : ℕ) →
        IsEnough joiner ends end subtasks }
{}
