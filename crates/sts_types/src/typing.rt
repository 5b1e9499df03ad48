//! The typing of a function: the typestate at each place, and its loops.

ghost use Rattle.std.specs.Prelude.{◌≡◌, ◌<◌, length, slice_index_or, None};
ghost use Rattle.sts_types.specs.Arrivals as def;
ghost use Rattle.sts_types.specs.declared.arrivals.Mark.{Mark};

use crate::arrival::Arrival;
use crate::arrivals::Mark;
use crate::loops::Tables;
use crate::state::TypeState;
use std::marker::Model;
use sts_model::Stack;
use sts_rules::TypedEntry;

/// The typing of a function: contracts see the typestate at each place, and the tables of its loops.
#[derive(Drop)]
pub struct Typing {
    pub(crate) marks: Vec<Arrival<Mark>>,
    pub(crate) kept: Vec<TypeState>,
    pub(crate) loops: Tables,
}

impl Model for Typing {
    ghost use Rattle.std.specs.Prelude.{◌<◌, length, map};
    ghost use Rattle.std.specs.List.{All};
    ghost use Rattle.sts_types.specs.Arrivals.{IsMarked, state_in};
    ghost use Rattle.sts_types.specs.Typing.{Typing};

    ghost Value = { Typing };

    ghost view = { λ t. record {
      states = map (state_in t.kept.items) t.marks.items;
      loops = t.loops;
    } };

    ghost invariant = { λ t. All (IsMarked (length t.kept.items)) t.marks.items
        × (0 < length t.kept.items) };
}

/// The mark of the typestate at a place.
#[inline(always)]
fn mark_in(arrival: Arrival<Mark>) -> Mark
    ensures { result ≡ def.mark_in arrival }
{
    match arrival {
        Arrival::One(mark) => mark,
        _ => Mark { height: 0, like: 0 },
    }
}

impl Typing {
    /// How many places the function has.
    #[inline(always)]
    pub fn len(&self) -> usize
        ensures { result ≡ length self.now.states }
    {
        self.marks.len()
    }

    /// The typestate at a place.
    pub fn state(&self, pc: usize) -> TypeState
        requires { pc < length self.now.states }
        ensures { result ≡ slice_index_or self.now.states pc def.none }
    {
        let mark = mark_in(self.marks[pc]);
        let mut state = self.kept[mark.like as usize].copy();
        state.set_height(mark.height as u8);
        state
    }

    /// The tables of the loops.
    pub fn tables(&self) -> &Tables
        ensures { result.now ≡ self.now.loops }
    {
        &self.loops
    }

    /// The open entries at a place.
    #[inline(always)]
    pub fn entries(&self, pc: usize) -> &Stack<TypedEntry, 16>
        requires { pc < length self.now.states }
        ensures { result.now ≡ (slice_index_or self.now.states pc def.none).entries }
    {
        self.kept[mark_in(self.marks[pc]).like as usize].entries()
    }

    /// The `times` of the innermost loop around a place, if there is one.
    #[inline(always)]
    pub fn head(&self, pc: usize) -> Option<u32>
        requires { pc < length self.now.loops.heads }
        ensures { result ≡ slice_index_or self.now.loops.heads pc None }
    {
        self.loops.heads[pc]
    }

    /// The `next` that ends the loop of a `times`, if there is one.
    #[inline(always)]
    pub fn end(&self, at: usize) -> Option<u32>
        requires { at < length self.now.loops.ends }
        ensures { result ≡ slice_index_or self.now.loops.ends at None }
    {
        self.loops.ends[at]
    }
}
