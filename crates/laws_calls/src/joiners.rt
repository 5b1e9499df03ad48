//! Which ends count towards a cancel of a scope, and how many of them cancel it.

ghost use Rattle.std.specs.Prelude.{◌≡◌};
ghost use Rattle.laws_calls.specs.Triggers as triggers;
ghost use Rattle.sts_model.specs.Joining as joining;

use sts_code::{Joiner, Pred};
use sts_model::End;

/// Is the end a success?
pub fn is_success(end: End) -> bool
    ensures { result ≡ joining.is_success end }
{
    matches!(end, End::Success(_))
}

/// Is the end a failure?
pub fn is_failure(end: End) -> bool
    ensures { result ≡ joining.is_failure end }
{
    matches!(end, End::Failed(_))
}

/// Is the end a success of at least this value?
fn is_at_least(least: i64, end: End) -> bool
    ensures { result ≡ joining.is_at_least least end }
{
    match end {
        End::Success(value) => least <= value,
        End::Failed(_) => false,
    }
}

/// Does the end count towards a cancel?
pub fn is_trigger(joiner: Joiner, end: End) -> bool
    ensures { result ≡ triggers.is_trigger joiner end }
{
    match joiner {
        Joiner::AllSucceed | Joiner::AwaitOk | Joiner::Until(Pred::Failed(_)) => is_failure(end),
        Joiner::AnySucceeds | Joiner::Until(Pred::Success(_)) => is_success(end),
        Joiner::AwaitAll => false,
        Joiner::Until(Pred::AtLeast(least)) => is_at_least(least, end),
    }
}

/// How many such ends cancel the scope.
pub fn limit(joiner: Joiner) -> u32
    ensures { result ≡ triggers.limit joiner }
{
    match joiner {
        Joiner::Until(Pred::Failed(count) | Pred::Success(count)) => count,
        _ => 1,
    }
}
