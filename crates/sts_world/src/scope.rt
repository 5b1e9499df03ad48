//! A scope as it is kept.

ghost use Rattle.std.specs.Prelude.{◌≡◌, true};
ghost use Rattle.sts_world.specs.Scopes as def;

use std::alloc::{AllocError, Global};
use sts_code::Joiner;
use sts_model::{Completion, Items, Phase};
use sts_same::copied::{Copied, copy_items};
use sts_same::same::same_items;

/// A scope, with the place of its environment among the links.
#[derive(Drop)]
pub struct ScopeRecord {
    pub owner: u32,
    pub joiner: Joiner,
    pub timed: bool,
    pub phase: Phase,
    pub cancelled: bool,
    pub expired: bool,
    pub completions: Items<Completion>,
    pub front: Option<usize>,
}

/// The place of the environment that a scope keeps, if it keeps one.
pub fn front_of(scopes: &[ScopeRecord], scope: Option<u32>) -> Option<usize>
    ensures { result ≡ def.front_of scopes.now scope }
{
    match scope {
        None => None,
        Some(s) => match scopes.get(s as usize) {
            None => None,
            Some(scope) => scope.front,
        },
    }
}

/// Are the two scopes alike? Environments are not compared.
pub fn same_scope(a: &ScopeRecord, b: &ScopeRecord) -> bool
    ensures { result ≡ true → def.IsAlike a.now b.now }
{
    a.owner == b.owner
        && a.joiner == b.joiner
        && a.timed == b.timed
        && a.phase == b.phase
        && a.cancelled == b.cancelled
        && a.expired == b.expired
        && same_items(&a.completions, &b.completions)
}

impl Copied for ScopeRecord {
    fn copied(&self, alloc: Global) -> Result<ScopeRecord, AllocError> {
        let completions = copy_items(alloc, &self.completions)?;
        Ok(ScopeRecord {
            owner: self.owner,
            joiner: self.joiner,
            timed: self.timed,
            phase: self.phase,
            cancelled: self.cancelled,
            expired: self.expired,
            completions,
            front: self.front,
        })
    }
}
