//! Runs of the root that begin alike.
//!
//! Before a scope of the root is cancelled, the subtasks that nobody hears run ahead, up to their last
//! step. All this is the same for each end that the same subtasks lead to. So the run is marked there,
//! and a run to another end may go on from the mark.

use crate::basis::Basis;
use crate::played::{Forked, Played, PlayedScope, Start};
use std::alloc::{AllocError, Global};

/// The steps of the root up to a cancel of its only open scope.
#[derive(Drop)]
pub struct Mark {
    /// The places of the states of the root, the first one first.
    path: Vec<u32>,
    /// How many steps it took before it opened the scope.
    opened: usize,
    /// The birth number of the scope.
    birth: u32,
    /// Its subtasks. Those that were played ended heard.
    forks: Vec<Forked>,
    /// The way of each subtask that ends heard.
    ways: Vec<Option<u32>>,
}

/// Does a subtask do in a run what it did in another one? It ended by its way, or it ran ahead.
fn does_same(played: bool, before: Option<u32>, now: Option<u32>) -> bool {
    if played || before.is_none() {
        now == before
    } else {
        // (it didn't begin)
        true
    }
}

impl Mark {
    /// The root before a cancel of this scope, which is its only open one.
    fn at(alloc: Global, top: &Played, scope: &PlayedScope) -> Result<Mark, AllocError> {
        let mut path = Vec::from_slice(alloc, top.path.as_slice())?;
        path.truncate(top.at.saturating_add(1));
        let forks = Vec::from_slice(alloc, scope.forks.as_slice())?;
        let ways = Vec::from_slice(alloc, scope.ways.as_slice())?;
        Ok(Mark {
            path,
            opened: scope.opened,
            birth: scope.birth,
            forks,
            ways,
        })
    }

    /// The root before a cancel of its only open scope.
    pub fn of(alloc: Global, top: &Played) -> Result<Option<Mark>, AllocError> {
        match top.scopes.first() {
            Some(scope) => Ok(Some(Mark::at(alloc, top, scope)?)),
            None => Ok(None),
        }
    }

    /// Do the subtasks of a scope what those that were forked did before the mark?
    fn fits(&self, scope: &PlayedScope) -> bool {
        self.forks.iter().enumerate().all(|(place, fork)| {
            let before = self.ways.get(place).copied().unwrap_or(None);
            let now = scope.ways.get(place).copied().unwrap_or(None);
            does_same(fork.is_played, before, now)
        })
    }

    /// Gives a scope the subtasks that were forked before the mark. Returns whether it can go on from
    /// there.
    fn refill(&self, scope: &mut PlayedScope, at: usize) -> Result<bool, AllocError> {
        scope.forks.extend_from_slice(self.forks.as_slice())?;
        Ok(scope.is_cancelled_at(at) && self.fits(scope))
    }

    /// Lets the root go on from the mark on its way, if it can. Returns whether it does.
    fn resume(
        &self,
        alloc: Global,
        basis: &Basis<'_>,
        top: &mut Played,
    ) -> Result<bool, AllocError> {
        if !top.path.as_slice().starts_with(self.path.as_slice()) {
            return Ok(false);
        }
        top.at = self.opened;
        if !top.open(alloc, basis, basis.root, self.birth, true)? {
            return Ok(false);
        }
        let at = self.path.len().saturating_sub(1);
        top.at = at;
        match top.scopes.last_mut() {
            Some(scope) => self.refill(scope, at),
            None => Ok(false),
        }
    }

    /// The root at the mark, on one of its ways, if it can go on from there.
    pub fn resumed(
        &self,
        alloc: Global,
        basis: &Basis<'_>,
        way: u32,
    ) -> Result<Option<Played>, AllocError> {
        let start = Start {
            call: None,
            way,
            birth: 0,
        };
        let Some(played) = Played::begin(alloc, basis.root, start)? else {
            return Ok(None);
        };
        let mut top = played;
        let goes_on = self.resume(alloc, basis, &mut top)?;
        Ok(goes_on.then_some(top))
    }
}
