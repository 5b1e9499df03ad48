//! Joiners: what is known of a cancel, and what `join` answers.

ghost use Rattle.std.specs.Prelude.{◌≡◌, [], ◌∷◌};
ghost use Rattle.laws_calls.specs.Fitting as fitting;
ghost use Rattle.laws_calls.specs.Steps as def;
ghost use Rattle.sts_model.specs.Joining as joining;

use laws_calls::joiners::limit;
use laws_calls::table::Knowledge;
use sts_code::Joiner;
use sts_model::{End, Verdict};

/// No more ends count in a scope.
pub fn most(joiner: Joiner) -> u32
    ensures { result ≡ fitting.most joiner }
{
    limit(joiner).max(1)
}

/// Is it `any`?
pub fn is_any(joiner: Joiner) -> bool
    ensures { result ≡ def.is_any joiner }
{
    matches!(joiner, Joiner::AnySucceeds)
}

/// Is the scope known to be cancelled?
pub fn is_cancelled(knowledge: Knowledge) -> bool
    ensures { result ≡ def.is_cancelled knowledge }
{
    matches!(knowledge, Knowledge::ByJoiner | Knowledge::Late)
}

/// Is it known that all subtasks ended, and that the scope is not cancelled?
pub fn is_heard(knowledge: Knowledge) -> bool
    ensures { result ≡ def.is_heard knowledge }
{
    matches!(knowledge, Knowledge::Heard)
}

/// May the joiner have cancelled the scope before any expiry?
pub fn may_decide(knowledge: Knowledge) -> bool
    ensures { result ≡ def.may_decide knowledge }
{
    matches!(knowledge, Knowledge::Unseen | Knowledge::ByJoiner)
}

/// May the scope have expired before its joiner has cancelled it?
pub fn may_be_late(knowledge: Knowledge) -> bool
    ensures { result ≡ def.may_be_late knowledge }
{
    matches!(knowledge, Knowledge::Unseen | Knowledge::Late)
}

/// Is nothing known of a cancel?
pub fn is_unseen(knowledge: Knowledge) -> bool
    ensures { result ≡ def.is_unseen knowledge }
{
    matches!(knowledge, Knowledge::Unseen)
}

/// The answer of `join` for `n` subtasks, one of which came to this end that decided.
pub fn answer_by(joiner: Joiner, end: End, n: u32) -> Verdict
    ensures { result ≡ joining.result_of joiner (end ∷ []) n }
{
    match joiner {
        Joiner::AllSucceed => match end {
            End::Success(_) => Verdict::Ok(Some(i64::from(n))),
            End::Failed(code) => Verdict::Failed(code),
        },
        Joiner::AwaitOk => match end {
            End::Success(_) => Verdict::Ok(None),
            End::Failed(code) => Verdict::Failed(code),
        },
        Joiner::AnySucceeds => match end {
            End::Success(value) => Verdict::Ok(Some(value)),
            End::Failed(code) => Verdict::Failed(code),
        },
        Joiner::AwaitAll => Verdict::Ok(None),
        Joiner::Until(_) => Verdict::Ok(Some(i64::from(n))),
    }
}

/// The answer of `join` for `n` subtasks, where no single end decided.
pub fn answer_by_none(joiner: Joiner, n: u32) -> Verdict
    ensures { result ≡ joining.result_of joiner [] n }
{
    match joiner {
        Joiner::AllSucceed | Joiner::Until(_) => Verdict::Ok(Some(i64::from(n))),
        Joiner::AnySucceeds => Verdict::Failed(-1),
        Joiner::AwaitOk | Joiner::AwaitAll => Verdict::Ok(None),
    }
}
