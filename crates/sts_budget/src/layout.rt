//! What the passes read of a function's typing.

ghost use Rattle.std.specs.Prelude.{◌≡◌, ◌<◌, ◌++◌, length};
ghost use Rattle.sts_rules.specs.Around as around;
ghost use Rattle.sts_code.specs.Facts as facts;
ghost use Rattle.sts_budget.specs.Layout as def;
ghost use Rattle.sts_budget.specs.Ready.{end_in};

use arrayvec::ArrayVec;
use sts_code::{Instr, MAX_INSTRUCTIONS, falls_through, targets};
use sts_types::Typing;

/// The typing of a function, and the greatest number of entries that are open at a place.
#[derive(Clone, Copy)]
pub struct Layout<'t> {
    pub typing: &'t Typing,
    /// No place has more open entries.
    pub deepest: usize,
}

/// The layout of a function.
pub fn lay_out(typing: &Typing) -> Layout<'_>
    ensures typing { result.typing.now ≡ typing.now }
    ensures deepest { def.IsDeepest typing.now result.deepest }
{
    let mut deepest = 0;
    for pc in 0..typing.len() {
        deepest = typing.entries(pc).len().max(deepest);
    }
    Layout { typing, deepest }
}

/// The `next` that ends the loop of a `times`.
#[inline(always)]
pub fn end_of(layout: &Layout<'_>, at: usize) -> u32
    requires { at < length layout.now.typing.now.loops.ends }
    ensures { result ≡ end_in layout.now at }
{
    match layout.typing.end(at) {
        Some(end) => end,
        None => 0,
    }
}

/// The places after an instruction that is neither `times` nor `next`.
pub fn next_places(instr: Instr, pc: u32) -> ArrayVec<u32, 4>
    requires { pc < MAX_INSTRUCTIONS }
    ensures { result.items ≡ facts.targets instr ++ around.next_place pc instr }
{
    let mut places = targets(instr);
    if falls_through(instr) {
        places.push(pc + 1);
    }
    places
}
