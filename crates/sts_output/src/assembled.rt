//! What an assembled text leaves for the lines on standard error.

ghost use Rattle.std.specs.Prelude.{◌≡◌};
ghost use Rattle.std.specs.Option.{option_copied};
ghost use Rattle.sts_output.specs.Kept as def;

use sts_asm::AsmError;
use sts_code::Program;

/// What an assembled text leaves for the lines on standard error, so that none of these lines needs
/// to assemble it again.
#[derive(Drop)]
pub enum Assembled {
    /// No line needs anything of the text.
    Nothing,
    /// The text has this fault. A line may say where it is.
    Fault(AsmError),
    /// The program ran a trace. A line may name an event that did nothing.
    Program(Program),
}

impl Assembled {
    /// Returns the fault of the text, if it is kept.
    pub fn fault(&self) -> Option<AsmError>
        ensures { result ≡ def.kept_fault self.now }
    {
        match self {
            Assembled::Fault(error) => Some(*error),
            _ => None,
        }
    }

    /// Returns the program, if it is kept.
    pub fn program(&self) -> Option<&Program>
        ensures { option_copied result ≡ def.kept_program self.now }
    {
        match self {
            Assembled::Program(program) => Some(program),
            _ => None,
        }
    }
}
