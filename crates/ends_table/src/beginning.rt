//! Where a call begins.

ghost use Rattle.std.specs.Prelude.{◌≡◌, ◌≤◌, IfOk, length};
ghost use Rattle.laws_calls.specs.Steps as def;
ghost use Rattle.laws_calls.specs.Tasks as tasks;
ghost use Rattle.sts_model.specs.World as world;

use crate::places::number;
use crate::stop::Stop;
use laws_calls::table::{Call, Held, Own};
use std::alloc::Global;
use sts_code::Program;
use sts_frames::root_frame;
use sts_model::Items;

/// The arguments, and zeros after them.
fn first_locals(args: &[i64]) -> [i64; 16]
    requires { length args.now ≤ 16 }
    ensures { result ≡ world.entry_locals args.now }
{
    let mut locals = [0i64; 16];
    locals[..args.len()].copy_from_slice(args);
    locals
}

/// The state in which the task of a call begins, with this in slot 0 and these births left.
pub fn first_state(alloc: Global, call: &Call, first: Held, births: u32) -> Result<Own, Stop>
    ensures { IfOk result (λ own. own ≡ tasks.begin first call.now births) }
{
    let args = call.args.as_slice();
    if args.len() > 16 {
        return Err(Stop::Unknown);
    }
    let mut frame = root_frame(call.function);
    frame.locals = first_locals(args);
    let mut held = [Held::Empty; 16];
    held[0] = first;
    Ok(Own {
        frame,
        held,
        scopes: Items::new(alloc),
        left: births,
    })
}

/// The call of the root task.
pub fn root_call(alloc: Global, program: &Program) -> Result<Call, Stop>
    ensures { IfOk result (λ call. call ≡ def.root_call program.now) }
{
    Ok(Call {
        function: number(program.functions().len().saturating_sub(1))?,
        args: Items::new(alloc),
        environment: Items::new(alloc),
    })
}
