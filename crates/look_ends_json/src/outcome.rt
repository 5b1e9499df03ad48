//! What the lines of all searches share: how a task ended, and the number that no end has.

ghost use Rattle.std.specs.Prelude.{◌≡◌, IfOk};
ghost use Rattle.serde_json.specs.View.{view};
ghost use Rattle.look_ends_json.specs.Outcome as def;

use look_cases::{Made, Scalar, object_of};
use look_end_lines::has_number;
use look_names::Names;
use look_views::with_name;
use std::alloc::Global;
use sts_model::End;

/// A value or a code, and its name.
pub(crate) fn ended(alloc: Global, names: &Names<'_>, end: End) -> Made
    ensures { IfOk result (λ v. view v ≡ def.ended names.now end) }
{
    match end {
        End::Success(value) => {
            let outcome = ("outcome", Scalar::Text("success"));
            let ended = object_of(alloc, &[outcome, ("value", Scalar::Integer(value))])?;
            with_name(alloc, ended, "name", names.value(value))
        }
        End::Failed(code) => {
            let outcome = ("outcome", Scalar::Text("failed"));
            let ended = object_of(alloc, &[("code", Scalar::Integer(code)), outcome])?;
            with_name(alloc, ended, "name", names.value(code))
        }
    }
}

/// The number that is asked for, if no end has it.
pub(crate) fn missing<T>(number: Option<u32>, found: &[T]) -> Option<u32>
    ensures { result ≡ def.missing number found.now }
{
    if has_number(number, found) {
        None
    } else {
        number
    }
}
