//! What the lines of a state say of a value, a function, a place and a run.

ghost use Rattle.std.specs.Prelude.{◌≡◌, ◌++◌, OnOk};
ghost use Rattle.std.specs.String.{string_bytes};
ghost use Rattle.sts_model.specs.World as model;

use std::alloc::AllocError;
use std::fmt::Write;
use sts_code::{Program, name_of};
use sts_output::state_line;
use sts_plain::PlainState;
use sts_world::Records;

/// What a call that appends words returns: memory may run out.
pub type Said = Result<(), AllocError>;

/// What is said of values, functions, places and runs.
pub trait Naming {
    ghost use Rattle.look_lines.specs.Naming.{Naming as AnyNaming};

    ghost names: { Self → AnyNaming };

    /// Appends a value.
    fn say_value(&self, out: &mut String, value: i64) -> Said
        ensures { OnOk result (string_bytes out.new
            ≡ string_bytes out.old ++ (names self.now).value value) };

    /// Appends a function.
    fn say_function(&self, out: &mut String, program: &Program, function: u32) -> Said
        ensures { OnOk result (string_bytes out.new
            ≡ string_bytes out.old ++ (names self.now).function program.now function) };

    /// Appends what is said of the place of a task after its number.
    fn say_place(&self, out: &mut String, records: &Records, t: u32) -> Said
        ensures { OnOk result (string_bytes out.new
            ≡ string_bytes out.old ++ (names self.now).place (model.task_at records.now t)) };

    /// Appends the line of a run's state.
    fn say_state(&self, out: &mut String, program: &Program, state: PlainState) -> Said
        ensures { OnOk result (string_bytes out.new
            ≡ string_bytes out.old ++ (names self.now).state program.now state) };
}

/// Numbers, the names in the program, and no lines of a text.
#[derive(Clone, Copy)]
pub struct Plain;

impl Naming for Plain {
    ghost use Rattle.look_lines.specs.Naming.{plain};

    ghost names = { λ _. plain };

    fn say_value(&self, out: &mut String, value: i64) -> Said {
        write!(out, "{value}")
    }

    fn say_function(&self, out: &mut String, program: &Program, function: u32) -> Said {
        out.push_str(name_of(program, function))
    }

    fn say_place(&self, _out: &mut String, _records: &Records, _t: u32) -> Said {
        Ok(())
    }

    fn say_state(&self, out: &mut String, program: &Program, state: PlainState) -> Said {
        state_line(out, program, state)
    }
}
