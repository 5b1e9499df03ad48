//! The state of a run, as JSON.

ghost use Rattle.std.specs.Prelude.{◌≡◌, IfOk};
ghost use Rattle.serde_json.specs.View.{view};
ghost use Rattle.look_cases.specs.Answer as def;

use crate::objects::{Made, Scalar, object_of, value_of, with_member};
use crate::verdicts::line_of;
use std::alloc::Global;
use sts_code::{Program, name_of};
use sts_model::{End, Fault};
use sts_output::printed::fault_word;
use sts_plain::PlainState;

/// Returns the end of a run, and the steps that it took.
///
/// # Errors
///
/// Memory was refused.
pub fn ended(alloc: Global, end: End, steps: u64) -> Made
    ensures { IfOk result (λ v. view v ≡ def.ended end steps) }
{
    match end {
        End::Success(value) => object_of(
            alloc,
            &[
                ("outcome", Scalar::Text("success")),
                ("steps", Scalar::Count(steps)),
                ("value", Scalar::Integer(value)),
            ],
        ),
        End::Failed(code) => object_of(
            alloc,
            &[
                ("code", Scalar::Integer(code)),
                ("outcome", Scalar::Text("failed")),
                ("steps", Scalar::Count(steps)),
            ],
        ),
    }
}

/// Returns the state of a run that goes on, and the steps that it took.
///
/// # Errors
///
/// Memory was refused.
pub fn running(alloc: Global, steps: u64) -> Made
    ensures { IfOk result (λ v. view v ≡ def.running steps) }
{
    object_of(
        alloc,
        &[
            ("outcome", Scalar::Text("running")),
            ("steps", Scalar::Count(steps)),
        ],
    )
}

/// Returns a fault with its place, and the steps before it.
fn fault(
    alloc: Global,
    program: &Program,
    kind: Fault,
    task: u32,
    function: u32,
    pc: u32,
    steps: u64,
) -> Made
    ensures { IfOk result (λ v. view v ≡ def.fault program.now kind task function pc steps) }
{
    object_of(
        alloc,
        &[
            ("fault", Scalar::Text(fault_word(kind))),
            ("function", Scalar::Text(name_of(program, function))),
            ("outcome", Scalar::Text("fault")),
            ("place", Scalar::Count(pc as u64)),
            ("steps", Scalar::Count(steps)),
            ("task", Scalar::Count(task as u64)),
        ],
    )
}

/// Returns the state of a run, and the steps that it took. A fault comes without its line.
///
/// # Errors
///
/// Memory was refused.
pub fn outcome(alloc: Global, program: &Program, state: PlainState, steps: u64) -> Made
    ensures { IfOk result (λ v. view v ≡ def.outcome program.now state steps) }
{
    match state {
        PlainState::Running => running(alloc, steps),
        PlainState::Ended(end) => ended(alloc, end, steps),
        PlainState::Fault {
            kind,
            task,
            function,
            pc,
        } => fault(alloc, program, kind, task, function, pc, steps),
    }
}

/// Returns the state of a run of the program of a text, and the steps that it took.
///
/// # Errors
///
/// Memory was refused.
pub(crate) fn run(
    alloc: Global,
    program: &Program,
    text: &[u8],
    state: PlainState,
    steps: u64,
) -> Made
    ensures { IfOk result (λ v. view v ≡ def.run program.now text.now state steps) }
{
    match state {
        PlainState::Running => running(alloc, steps),
        PlainState::Ended(end) => ended(alloc, end, steps),
        PlainState::Fault { function, pc, .. } => {
            let line = line_of(alloc, text, function, pc)?;
            let fault = outcome(alloc, program, state, steps);
            let number = value_of(alloc, Scalar::MaybeCount(line));
            with_member(alloc, fault, "line", number)
        }
    }
}
