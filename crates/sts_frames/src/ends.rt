//! The end of a subtask, as the task that reads it sees it.

ghost use Rattle.std.specs.Prelude.{◌≡◌};
ghost use Rattle.sts_model.specs.Effect as effect;

use sts_model::End;

/// The place that `case` goes to for a subtask in this state; `None` means unavailable.
pub fn case_target(state: Option<End>, success: u32, failed: u32, otherwise: u32) -> u32
    ensures { result ≡ effect.case_target state success failed otherwise }
{
    match state {
        None => otherwise,
        Some(End::Success(_)) => success,
        Some(End::Failed(_)) => failed,
    }
}

/// The value of a success or the code of a failure, or 0 if there is neither.
pub fn value_or_zero(state: Option<End>) -> i64
    ensures { result ≡ effect.value_or_zero state }
{
    match state {
        None => 0,
        Some(End::Success(value)) => value,
        Some(End::Failed(code)) => code,
    }
}
