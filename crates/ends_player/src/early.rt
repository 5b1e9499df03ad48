//! Cancels that come as early as they can.
//!
//! A subtask that is forked after a cancel never starts. So a run is shorter, the earlier a scope is
//! cancelled. The cancel comes after the forks of the subtasks that end heard, and after each look
//! that shows that the scope isn't cancelled yet.

use crate::played::Played;
use ends_known::call::number;
use ends_known::seen::Seen;
use ends_known::table::{Explored, Label};
use laws_calls::table::Knowledge;
use sts_model::Phase;

/// A cancel of a scope before the look that shows it.
#[derive(Clone, Copy)]
pub struct Early {
    /// How many steps the owner takes before this look.
    pub look: usize,
    /// How many steps it takes before the cancel, at least.
    pub steps: usize,
    /// How many subtasks are forked before the cancel, at least.
    pub forks: u32,
    /// Does the scope expire?
    pub expires: bool,
}

impl Early {
    /// May the cancel come after this number of steps and of forks?
    pub fn is_due(self, steps: usize, forks: usize) -> bool {
        steps < self.look && self.steps <= steps && self.forks <= number(forks)
    }
}

/// The way of a subtask, if the joiner is told of it.
pub fn way_at(ways: &[Option<u32>], child: u32) -> Option<u32> {
    match ways.get(child as usize) {
        Some(way) => *way,
        None => None,
    }
}

/// How many subtasks are forked up to the last one that ends heard.
fn forks_of(ways: &[Option<u32>]) -> u32 {
    let mut count: u32 = 0;
    for (place, way) in ways.iter().enumerate() {
        if way.is_some() {
            count = number(place).saturating_add(1);
        }
    }
    count
}

/// Can a step with this label come only before a cancel of the scope at a place? So the scope is
/// after it, and its subtasks have these ways.
fn is_before(label: Label, place: u32, after: &Seen, ways: &[Option<u32>]) -> bool {
    match label {
        Label::Plain | Label::First { .. } => false,
        Label::Pays => matches!(after.facts.phase, Phase::Attempted),
        Label::Open { scope } => scope == place,
        Label::Lives { scope, part } => scope == place && way_at(ways, part).is_some(),
    }
}

/// Does the scope expire, if this is what the first look at its cancel shows? `None` if the scope
/// isn't cancelled.
fn expires(knowledge: Knowledge) -> Option<bool> {
    match knowledge {
        Knowledge::Unseen | Knowledge::Heard => None,
        Knowledge::ByJoiner => Some(false),
        Knowledge::Late => Some(true),
    }
}

/// The cancel of the scope that the next step opens at a place, if the owner sees one before it closes
/// the scope. Its subtasks have these ways.
pub fn early_cancel(
    top: &Played,
    explored: &Explored,
    place: u32,
    close: usize,
    ways: &[Option<u32>],
) -> Option<Early> {
    let first = top.at.saturating_add(1);
    let mut steps = first;
    for look in first..close {
        let next = look.saturating_add(1);
        let node = top.node(explored, next)?;
        let after = node.own.scope(place)?;
        if after.facts.knowledge != Knowledge::Unseen {
            return Some(Early {
                look,
                steps,
                forks: forks_of(ways),
                expires: expires(after.facts.knowledge)?,
            });
        }
        if is_before(node.label, place, after, ways) {
            steps = next;
        }
    }
    None
}
