//! The frame that a program begins with.

ghost use Rattle.std.specs.Prelude.{◌≡◌, ◌-◌, [], length};
ghost use Rattle.sts_model.specs.World as def;
ghost use Rattle.sts_model.specs.declared.record.Slot.TheVariants.{Empty};

use sts_code::Program;
use sts_frames::root_frame;
use sts_model::Frame;

/// The frame at the beginning of `main`, the last function.
pub(crate) fn main_frame(program: &Program) -> Frame
    ensures { result ≡ def.entry_frame (length program.now.routines - 1) [] Empty }
{
    root_frame(program.functions().len() as u32 - 1)
}
