//! The faults of a text.

ghost use Rattle.std.specs.Prelude.{◌≡◌};
ghost use Rattle.sts_asm.specs.declared.fault.AsmKind.TheVariants.{Memory};
ghost use Rattle.sts_asm.specs.Fault.{kind_number, code_error, out_of_memory};

use std::alloc::{AllocError, AllocFailed};
use std::marker::Model;
use sts_code::CodeError;
use thiserror::Error;

/// What is wrong with a text, or that memory ran out.
#[derive(Clone, Copy, Debug, PartialEq, Eq)]
pub enum AsmKind {
    /// A1: a byte that isn't allowed.
    NotAscii,
    /// A2: an unknown first word, or one that isn't allowed on this line.
    UnknownWord,
    /// A3: a word in a number's place that isn't a number of its range.
    BadNumber,
    /// A4: an operand that is missing, of another kind, left over or badly spelled.
    BadOperands,
    /// A5: a label that isn't in the function, or a function that isn't in the text.
    UnknownLabel,
    /// A6: a label that the function has already.
    DuplicateLabel,
    /// A7: a function that isn't ended.
    Unclosed,
    /// A8: more than 1,048,576 bytes.
    TextTooLong,
    /// A9: what the program checks refuse.
    Code(CodeError),
    /// A10: memory ran out.
    Memory,
}

impl AsmKind {
    /// The number of the kind in what is printed: 1 for A1.
    pub fn number(self) -> u8
        ensures { result ≡ kind_number self }
    {
        match self {
            AsmKind::NotAscii => 1,
            AsmKind::UnknownWord => 2,
            AsmKind::BadNumber => 3,
            AsmKind::BadOperands => 4,
            AsmKind::UnknownLabel => 5,
            AsmKind::DuplicateLabel => 6,
            AsmKind::Unclosed => 7,
            AsmKind::TextTooLong => 8,
            AsmKind::Code(_) => 9,
            AsmKind::Memory => 10,
        }
    }

    /// The cause that the program checks refuse, for A9.
    pub fn code_error(self) -> Option<CodeError>
        ensures { result ≡ code_error self }
    {
        match self {
            AsmKind::Code(error) => Some(error),
            _ => None,
        }
    }
}

/// The first fault of a text and its line; the line is 0 if no line is meant (A8, A9 and A10).
#[derive(Clone, Copy, Debug, PartialEq, Eq, Error)]
#[error("line {line}: {kind:?}")]
pub struct AsmError {
    pub line: u32,
    pub kind: AsmKind,
}

/// The kinds of faults that a line can have.
#[derive(Clone, Copy)]
pub enum LineKind {
    NotAscii,
    UnknownWord,
    BadNumber,
    BadOperands,
    UnknownLabel,
    DuplicateLabel,
    Unclosed,
    Memory,
}

/// What is wrong with a line, or that memory ran out, in one byte: contracts see an `AsmKind`.
#[derive(Clone, Copy)]
pub struct LineFault(pub(crate) LineKind);

impl Model for LineFault {
    ghost use Rattle.sts_asm.specs.declared.fault.AsmKind.{AsmKind};
    ghost use Rattle.sts_asm.specs.LineFault.{kind_of, line_kind, line_kind_of};
    ghost use Rattle.std.proofs.Common.{ap};

    ghost Value = { AsmKind };

    ghost view = { λ f. kind_of f.0 };

    ghost inverse = { λ kind. record { 0 = line_kind kind } };

    ghost inverse_ok = { λ f h. ap (λ kind. record { 0 = kind }) (line_kind_of f.0) };
}

impl LineFault {
    /// The kind of the fault.
    pub fn kind(self) -> AsmKind
        ensures { result ≡ self }
    {
        match self.0 {
            LineKind::NotAscii => AsmKind::NotAscii,
            LineKind::UnknownWord => AsmKind::UnknownWord,
            LineKind::BadNumber => AsmKind::BadNumber,
            LineKind::BadOperands => AsmKind::BadOperands,
            LineKind::UnknownLabel => AsmKind::UnknownLabel,
            LineKind::DuplicateLabel => AsmKind::DuplicateLabel,
            LineKind::Unclosed => AsmKind::Unclosed,
            LineKind::Memory => AsmKind::Memory,
        }
    }
}

impl From<AllocError> for LineFault {
    ghost from_gives = { λ _ e. e ≡ Memory };

    fn from(_error: AllocError) -> LineFault {
        LineFault(LineKind::Memory)
    }
}

impl<T: Drop> From<AllocFailed<T>> for LineFault {
    ghost from_gives = { λ _ e. e ≡ Memory };

    fn from(_error: AllocFailed<T>) -> LineFault {
        LineFault(LineKind::Memory)
    }
}

impl From<AllocError> for AsmError {
    ghost from_gives = { λ _ e. e ≡ out_of_memory };

    fn from(_error: AllocError) -> AsmError {
        AsmError {
            line: 0,
            kind: AsmKind::Memory,
        }
    }
}

impl<T: Drop> From<AllocFailed<T>> for AsmError {
    ghost from_gives = { λ _ e. e ≡ out_of_memory };

    fn from(_error: AllocFailed<T>) -> AsmError {
        AsmError {
            line: 0,
            kind: AsmKind::Memory,
        }
    }
}
