//! Whether a state is possible.

ghost use Rattle.std.specs.Prelude.{◌≡◌, List, Option, true};
ghost use Rattle.laws_calls.specs.Fitting.{ArePossible, Fits};
ghost use Rattle.sts_model.specs.declared.event.End.{End};

use crate::counts::may_fit;
use crate::tallies::tallies_fit;
use laws_calls::table::{Own, Seen};

/// May the scope have a pick that fits? No if the answer is false.
pub fn has_pick(seen: &Seen) -> bool
    ensures { (pick : List (Option End)) → Fits seen.now pick → result ≡ true }
{
    may_fit(seen) && tallies_fit(seen)
}

/// May the state be possible? No if the answer is false.
pub fn is_possible(own: &Own) -> bool
    ensures { ArePossible own.now.scopes → result ≡ true }
{
    for seen in own.scopes.as_slice() {
        if !has_pick(seen) {
            return false;
        }
    }
    true
}
