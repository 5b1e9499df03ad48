//! The request of a command line, or why it has none.

use std::alloc::AllocError;

/// The task that a command line gives the program. Names of files are kept as they were written.
#[derive(Clone, Copy)]
pub enum Line<'a> {
    /// No word after the program's name: a text, a line `%` and a trace come on standard input.
    Joined,
    Verify {
        file: &'a str,
    },
    List {
        file: &'a str,
    },
    Plain {
        file: &'a str,
        trace: &'a str,
    },
    Replay {
        file: &'a str,
        trace: &'a str,
    },
    /// From 1 to 16 workers. The outside events come from a file, if one is named. The journal goes
    /// to a file, if one is named.
    Run {
        file: &'a str,
        workers: u32,
        outside: Option<&'a str>,
        trace: Option<&'a str>,
    },
}

/// Why a command line has no request. The text is for the person who wrote it.
#[derive(Drop)]
pub enum LineError {
    Memory,
    /// Help was asked for, which is no failure.
    Help(String),
    Usage(String),
}

impl From<AllocError> for LineError {
    ghost use Rattle.std.specs.Prelude.{◌≡◌};
    ghost use Rattle.sts_args.specs.declared.asked.LineError.TheVariants.{Memory};

    ghost from_gives = { λ _ e. e ≡ Memory };

    fn from(_error: AllocError) -> LineError {
        LineError::Memory
    }
}
