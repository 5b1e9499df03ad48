//! The typestates that have arrived at each place of a function, kept in little memory.

ghost use Rattle.std.specs.Prelude.{◌≡◌, ◌<◌, ◌≤◌, ◌↔◌, ◌++◌, List, length, replicate, slice_get};
ghost use Rattle.std.specs.Prelude.{slice_index_or, slice_set, All, IfOk, OnOk, ℕ, IsTrue};
ghost use Rattle.sts_rules.specs.TypeState.{TypeState};
ghost use Rattle.sts_types.specs.Site.{IsSite, HasRoomAt, LeadInside, follows_at};
ghost use Rattle.sts_types.specs.Arrivals.{Merged, ArriveAt, IsMarked, arrival_of, at_height};
ghost use Rattle.sts_types.specs.Arrivals.{filled, none, state_of};

use crate::arrival::Arrival;
use crate::follow::edge;
use crate::loops::Tables;
use crate::recent::{Recent, look_of};
use crate::site::Site;
use crate::state::TypeState;
use crate::typing::Typing;
use std::alloc::{AllocError, Global};
use std::marker::Model;
use sts_code::MAX_OPERANDS;
use sts_rules::filled;

/// A typestate that arrived at a place: its number of operands, and the index of a kept typestate
/// that differs from it only in that number.
#[derive(Clone, Copy)]
pub(crate) struct Mark {
    // (A byte in its place would leave three before `like`. A read after a move waits for those.)
    pub(crate) height: u32,
    pub(crate) like: u32,
}

/// The typestates that have arrived at each place, and the current typestate.
///
/// Most instructions only change the number of operands. Whole typestates are kept only for the
/// others.
#[derive(Drop)]
pub(crate) struct Arrivals {
    marks: Vec<Arrival<Mark>>,
    kept: Vec<TypeState>,
    state: TypeState,
    /// The index of a kept typestate that differs from the current one only in its number of
    /// operands.
    like: u32,
    /// The typestate of the place that was loaded last.
    start: Mark,
    recent: Recent,
}

impl Model for Arrivals {
    ghost use Rattle.std.specs.Prelude.{◌≡◌, ◌<◌, length, map, slice_index_or};
    ghost use Rattle.std.specs.List.{All};
    ghost use Rattle.sts_types.specs.Arrivals.{Arrived, IsMarked, arrival_of, none, state_of};
    ghost use Rattle.sts_types.specs.declared.arrival.Arrival.{Arrival};

    ghost Value = { Arrived };

    ghost view = { λ a. record {
      table = map (arrival_of a.kept.items) a.marks.items;
      state = a.state;
      start = state_of a.kept.items a.start;
    } };

    ghost invariant = { λ a. All (IsMarked (length a.kept.items)) a.marks.items
        × (a.like < length a.kept.items)
        × (a.state ≡ state_of a.kept.items (record { height = a.state.height; like = a.like }))
        × IsMarked (length a.kept.items) (Arrival.One a.start) };
}

/// Do these two refer to the same typestate?
fn are_same(kept: &[TypeState], a: Mark, b: Mark) -> bool
    requires a { a.like < length kept.now }
    requires b { b.like < length kept.now }
    ensures { IsTrue result ↔ (state_of kept.now a ≡ state_of kept.now b) }
{
    a.height == b.height
        && (a.like == b.like || kept[a.like as usize].is_like(&kept[b.like as usize]))
}

/// The typestates at a place after one more has arrived.
fn merged(kept: &[TypeState], before: Arrival<Mark>, mark: Mark) -> Arrival<Mark>
    requires before { IsMarked (length kept.now) before }
    requires mark { IsMarked (length kept.now) (Arrival.One mark) }
    ensures merged { Merged (arrival_of kept.now before) (state_of kept.now mark)
        (arrival_of kept.now result) }
    ensures marked { IsMarked (length kept.now) result }
{
    match before {
        Arrival::Nothing => Arrival::One(mark),
        Arrival::One(only) if are_same(kept, only, mark) => before,
        _ => Arrival::Several,
    }
}

/// The index of the kept typestate that a place refers to, or else `like`.
fn near(marks: &Vec<Arrival<Mark>>, place: usize, like: u32) -> u32
    requires { place < length marks.now.items }
    ensures { (n : ℕ) → All (IsMarked n) marks.now.items → like < n → result < n }
{
    match marks[place] {
        Arrival::One(only) => only.like,
        _ => like,
    }
}

/// Keeps a typestate at the end. It is written where it is kept, so it isn't moved. A function has
/// 4,096 places, so there are never 2^32 of them.
#[inline(never)]
fn keep_new(kept: &mut Vec<TypeState>, state: &TypeState) -> Result<u32, AllocError>
    ensures like { IfOk result (λ at. (at < length kept.new.items) ×
        (state_of kept.new.items (record { height = state.now.height; like = at }) ≡
        state.now)) }
    ensures more { (added : List TypeState) × (kept.new.items ≡ kept.old.items ++ added) }
{
    let Ok(count) = u32::try_from(kept.len()) else {
        return Err(AllocError);
    };
    kept.push(TypeState::default())?;
    kept[count as usize].copy_from(state);
    Ok(count)
}

/// Keeps a typestate, unless a kept one differs from it only in its number of operands: that at
/// `near`, the last one of the same look, or that at `like`. Answers the index of the kept one.
fn keep(
    kept: &mut Vec<TypeState>,
    near: u32,
    like: u32,
    recent: &mut Recent,
    state: &TypeState,
) -> Result<u32, AllocError>
    requires near { near < length kept.old.items }
    requires like { like < length kept.old.items }
    ensures like { IfOk result (λ at. (at < length kept.new.items) ×
        (state_of kept.new.items (record { height = state.now.height; like = at }) ≡
        state.now)) }
    ensures more { (added : List TypeState) × (kept.new.items ≡ kept.old.items ++ added) }
{
    if near != like && kept[near as usize].is_like(state) {
        return Ok(near);
    }
    let look = look_of(state);
    let guess = recent.kept_with(look);
    if (guess as usize) < kept.len() && kept[guess as usize].is_like(state) {
        return Ok(guess);
    }
    if guess != like && kept[like as usize].is_like(state) {
        return Ok(like);
    }
    let new = keep_new(kept, state)?;
    recent.note(look, new);
    Ok(new)
}

/// Makes the typestate of this mark the current one. The current one is like the kept typestate at
/// `like`.
fn come_to(state: &mut TypeState, like: &mut u32, kept: &[TypeState], mark: Mark)
    requires mark { IsMarked (length kept.now) (Arrival.One mark) }
    requires hand { state.old ≡ state_of kept.now
        (record { height = state.old.height; like = like.old }) }
    ensures state { state.new ≡ state_of kept.now mark }
    ensures like { like.new ≡ mark.like }
{
    if mark.like != *like {
        state.copy_from(&kept[mark.like as usize]);
        *like = mark.like;
    }
    state.set_height(mark.height as u8);
}

impl Arrivals {
    /// A table of `places` places. The typestate `first` has arrived at the first place, and is the
    /// current one.
    pub(crate) fn new(
        alloc: Global,
        places: usize,
        first: TypeState,
    ) -> Result<Arrivals, AllocError>
        requires { 0 < places }
        ensures { IfOk result
            (λ a. (a.table ≡ slice_set (replicate places Arrival.Nothing) 0 (Arrival.One first)) ×
            (a.state ≡ first)) }
    {
        // Room for one typestate a place, so that the kept ones needn't move.
        let mut kept = Vec::with_capacity(alloc, places)?;
        kept.push(first.copy())?;
        let start = Mark {
            height: first.height() as u32,
            like: 0,
        };
        let mut marks = filled(alloc, places, Arrival::Nothing)?;
        marks[0] = Arrival::One(start);
        let recent = Recent::new(alloc)?;
        Ok(Arrivals {
            marks,
            kept,
            state: first,
            like: 0,
            start,
            recent,
        })
    }

    /// The current typestate.
    pub(crate) fn state(&self) -> &TypeState
        ensures { result.now ≡ self.now.state }
    {
        &self.state
    }

    /// Has one typestate arrived at a place? If so, it becomes the current one.
    pub(crate) fn load(&mut self, place: u32) -> Arrival<()>
        requires { place < length self.old.table }
        ensures table { self.new.table ≡ self.old.table }
        ensures loaded { slice_index_or self.old.table place Arrival.Nothing ≡
            filled self.new.state result }
        ensures start { (result ≡ Arrival.One (record {})) → self.new.start ≡ self.new.state }
    {
        match self.marks[place as usize] {
            Arrival::Nothing => Arrival::Nothing,
            Arrival::Several => Arrival::Several,
            Arrival::One(mark) => {
                self.start = mark;
                come_to(&mut self.state, &mut self.like, self.kept.as_slice(), mark);
                Arrival::One(())
            }
        }
    }

    /// Makes the typestate that was loaded last the current one again.
    pub(crate) fn go_back(&mut self)
        ensures { self.new ≡ record self.old { state = self.old.start } }
    {
        come_to(
            &mut self.state,
            &mut self.like,
            self.kept.as_slice(),
            self.start,
        );
    }

    /// The current typestate arrives at a place, with another number of operands.
    pub(crate) fn arrive_moved(&mut self, place: u32, height: u8)
        requires place { place < length self.old.table }
        requires few { height ≤ MAX_OPERANDS }
        ensures table { (b : Arrival TypeState) ×
            (Merged (slice_index_or self.old.table place Arrival.Nothing)
            (at_height height self.old.state) b ×
            (self.new.table ≡ slice_set self.old.table place b)) }
        ensures state { self.new.state ≡ self.old.state }
        ensures start { self.new.start ≡ self.old.start }
    {
        let place = place as usize;
        let height = height as u32;
        let like = self.like;
        self.marks[place] = merged(
            self.kept.as_slice(),
            self.marks[place],
            Mark { height, like },
        );
    }

    /// The current typestate goes along an edge of an instruction, by number from 0, and arrives at
    /// the place where the edge ends.
    pub(crate) fn arrive_along(&mut self, site: &Site<'_>, number: usize) -> Result<(), AllocError>
        requires site { IsSite site.now }
        requires room { HasRoomAt site.now self.old.state }
        requires places { LeadInside site.now self.old }
        ensures table { OnOk result (ArriveAt self.old.table
            (slice_get (follows_at site.now self.old.state) number) self.new.table) }
        ensures start { self.new.start ≡ self.old.start }
    {
        if let Some(to) = edge(site, &mut self.state, number) {
            let near = near(&self.marks, to as usize, self.like);
            match keep(
                &mut self.kept,
                near,
                self.like,
                &mut self.recent,
                &self.state,
            ) {
                Ok(like) => self.like = like,
                Err(error) => {
                    self.state.copy_from(&self.kept[self.like as usize]);
                    return Err(error);
                }
            }
            let place = to as usize;
            let height = self.state.height() as u32;
            let like = self.like;
            self.marks[place] = merged(
                self.kept.as_slice(),
                self.marks[place],
                Mark { height, like },
            );
        }
        Ok(())
    }

    /// Is the current typestate the only one that arrived at a place?
    pub(crate) fn is_one(&self, place: u32) -> bool
        requires { place < length self.now.table }
        ensures { IsTrue result ↔ (slice_index_or self.now.table place Arrival.Nothing
            ≡ Arrival.One self.now.state) }
    {
        let here = Mark {
            height: self.state.height() as u32,
            like: self.like,
        };
        match self.marks[place as usize] {
            Arrival::One(only) => are_same(self.kept.as_slice(), only, here),
            _ => false,
        }
    }

    /// The typestates that have arrived, and the tables of the loops.
    pub(crate) fn into_typing(self, loops: Tables) -> Typing
        ensures long { length result.states ≡ length self.table }
        ensures each { (pc : ℕ) (s : TypeState) →
            slice_index_or self.table pc Arrival.Nothing ≡ Arrival.One s →
            slice_index_or result.states pc none ≡ s }
        ensures loops { result.loops ≡ loops }
    {
        Typing {
            marks: self.marks,
            kept: self.kept,
            loops,
        }
    }
}
