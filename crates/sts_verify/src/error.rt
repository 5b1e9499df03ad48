//! Why a program is not verified.

use sts_code::Program;
use sts_rules::Cause;

/// Why a program is not verified. The program is given back.
#[derive(Drop)]
pub enum VerifyError {
    /// Memory ran out.
    Memory(Program),
    /// The first place with a cause, function by function, and the cause that is named there.
    Refused {
        program: Program,
        function: u32,
        pc: u32,
        cause: Cause,
    },
}
