//! The first state of a call.

use ends_known::call::number;
use ends_known::own::Own;
use laws_calls::table::{Call, Held};
use std::alloc::{AllocError, Global};
use sts_code::Program;
use sts_frames::root_frame;
use sts_model::Items;

/// The call of the root task.
pub fn root_call(alloc: Global, program: &Program) -> Call {
    Call {
        function: number(program.functions().len().saturating_sub(1)),
        args: Items::new(alloc),
        environment: Items::new(alloc),
    }
}

/// The locals of a task that has just been forked.
fn first_locals(args: &[i64]) -> [i64; 16] {
    let mut locals = [0i64; 16];
    for (place, value) in args.iter().enumerate() {
        if place < 16 {
            locals[place] = *value;
        }
    }
    locals
}

/// The state in which the task of a call begins. The root task has no parent scope.
pub fn first_state(alloc: Global, call: &Call, is_root: bool) -> Own {
    let mut frame = root_frame(call.function);
    frame.locals = first_locals(call.args.as_slice());
    let mut held = [Held::Empty; 16];
    if !is_root {
        held[0] = Held::Lent;
    }
    Own {
        frame,
        held,
        scopes: Vec::new(alloc),
        used: 0,
    }
}
