//! The edges of an instruction, or the lowest-numbered cause that holds there.

ghost use Rattle.std.specs.Prelude.{◌≡◌, ◌<◌, length, MatchResult, Ok, Err};
ghost use Rattle.sts_code.specs.Program.{routine};
ghost use Rattle.sts_rules.specs.Edges as def;
ghost use Rattle.sts_rules.specs.Refusal.{size};

use crate::follow::{Edges, all_edges};
use crate::loops::CodeLoops;
use crate::site::tested;
use crate::state::TypeState;
use sts_code::{Program, code_of};
use sts_rules::Cause;

/// The edges of the instruction at a place of one of the program's functions, or the
/// lowest-numbered cause that holds at it.
///
/// Causes that compare typestates or look for dead code aren't tested here: they are about a whole
/// function.
///
/// # Errors
///
/// The lowest-numbered cause from V1 to V16 that holds there.
pub fn edges(program: &Program, function: u32, pc: u32, state: &TypeState) -> Result<Edges, Cause>
    requires function { function < length program.now.routines }
    requires pc { pc < size program.now function }
    ensures { MatchResult result (λ edges. def.edges program.now function pc state.now ≡ Ok edges)
        (λ cause. def.edges program.now function pc state.now ≡ Err cause) }
{
    let loops = CodeLoops::new(code_of(program, function as usize));
    edges_with_loops(program, function, &loops, pc, state)
}

/// The edges of an instruction as `edges` has them, for a caller that keeps the loops of the
/// function. With tables, each of its places takes about the same time.
///
/// # Errors
///
/// The lowest-numbered cause from V1 to V16 that holds there.
pub fn edges_with_loops(
    program: &Program,
    function: u32,
    loops: &CodeLoops<'_>,
    pc: u32,
    state: &TypeState,
) -> Result<Edges, Cause>
    requires loops { loops.now ≡ (routine program.now function).code }
    requires pc { pc < size program.now function }
    ensures { MatchResult result (λ edges. def.edges program.now function pc state.now ≡ Ok edges)
        (λ cause. def.edges program.now function pc state.now ≡ Err cause) }
{
    let instr = code_of(program, function as usize)[pc as usize];
    match tested(program, function, loops, pc, instr, state) {
        Ok(site) => Ok(all_edges(&site, state)),
        Err(cause) => Err(cause),
    }
}
