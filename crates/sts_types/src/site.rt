//! A place of a function that is being typed.

ghost use Rattle.std.specs.Prelude.{◌≡◌, ◌<◌, length, MatchResult, Some, None};
ghost use Rattle.sts_code.specs.Program.{routine};
ghost use Rattle.sts_rules.specs.Causes as def;
ghost use Rattle.sts_types.specs.Site.{IsSiteOf};

use crate::leads::skip;
use crate::least::least_cause;
use crate::loops::CodeLoops;
use crate::state::TypeState;
use sts_code::{Instr, Program};
use sts_rules::Cause;

/// A place of one of a program's functions, with the instruction there.
#[derive(Clone, Copy)]
pub(crate) struct Site<'c> {
    pub(crate) program: &'c Program,
    pub(crate) function: u32,
    pub(crate) loops: &'c CodeLoops<'c>,
    pub(crate) pc: u32,
    pub(crate) instr: Instr,
    /// The place after a `times` that makes no turn.
    pub(crate) skip: Option<u32>,
}

/// Tests an instruction at a place of a function. Answers the place if no cause holds there, and
/// else the lowest-numbered cause.
#[inline(always)]
pub(crate) fn tested<'c>(
    program: &'c Program,
    function: u32,
    loops: &'c CodeLoops<'c>,
    pc: u32,
    instr: Instr,
    state: &TypeState,
) -> Result<Site<'c>, Cause>
    requires code { loops.now ≡ (routine program.now function).code }
    requires inside { pc < length loops.now }
    ensures { MatchResult result
        (λ site. IsSiteOf program.now function loops.now pc instr site ×
        (def.least_cause program.now function pc instr state.now ≡ None))
        (λ cause. def.least_cause program.now function pc instr state.now ≡ Some cause) }
{
    let skip = skip(loops, pc, instr);
    let site = Site {
        program,
        function,
        loops,
        pc,
        instr,
        skip,
    };
    match least_cause(&site, state) {
        Some(cause) => Err(cause),
        None => Ok(site),
    }
}
