//! The state of a run, as JSON.

ghost use Rattle.std.specs.Prelude.{◌≡◌, IfOk};
ghost use Rattle.serde_json.specs.View.{view};
ghost use Rattle.look_views.specs.Views as def;

use crate::named::{placed, with_name};
use look_cases::{Made, ended, outcome, running};
use look_names::Names;
use std::alloc::Global;
use sts_code::Program;
use sts_model::End;
use sts_plain::PlainState;

/// Returns how a run ended, the steps that it took, and the name of its value or code.
fn named_end(alloc: Global, names: &Names<'_>, end: End, steps: u64) -> Made
    ensures { IfOk result (λ v. view v ≡ def.named_end names.now end steps) }
{
    let ended = ended(alloc, end, steps)?;
    match end {
        End::Success(value) => with_name(alloc, ended, "name", names.value(value)),
        End::Failed(code) => with_name(alloc, ended, "name", names.value(code)),
    }
}

/// Returns the state of a run, and the steps that it took.
///
/// # Errors
///
/// Memory was refused.
pub(crate) fn run(
    alloc: Global,
    names: &Names<'_>,
    program: &Program,
    state: PlainState,
    steps: u64,
) -> Made
    ensures { IfOk result (λ v. view v ≡ def.run names.now program.now state steps) }
{
    match state {
        PlainState::Running => running(alloc, steps),
        PlainState::Ended(end) => named_end(alloc, names, end, steps),
        PlainState::Fault { function, pc, .. } => {
            let fault = outcome(alloc, program, state, steps)?;
            placed(alloc, names, function, pc, fault)
        }
    }
}
