//! A scope, as its owner knows it.

use crate::part::Run;
use ends_search::hash::mixed;
use laws_calls::table::{Asked, Knowledge};
use std::alloc::{AllocError, Global};
use sts_code::Joiner;
use sts_model::Phase;

/// What the owner knows of a scope, apart from its subtasks.
#[derive(Clone, Copy, PartialEq, Eq)]
pub struct Facts {
    pub joiner: Joiner,
    pub timed: bool,
    pub phase: Phase,
    pub knowledge: Knowledge,
    /// Is it known that the scope has expired?
    pub expired: bool,
    /// Under `any`: has the owner seen a failure?
    pub has_failure: bool,
    pub asked: Asked,
}

/// A scope, as its owner knows it.
#[derive(Drop)]
pub struct Seen {
    pub facts: Facts,
    /// The subtasks, in fork order.
    pub runs: Vec<Run>,
}

fn number_of_phase(phase: Phase) -> u64 {
    match phase {
        Phase::Opened => 0,
        Phase::Attempted => 1,
        Phase::Joined => 2,
        Phase::Closing => 3,
        Phase::Closed => 4,
    }
}

fn number_of_knowledge(knowledge: Knowledge) -> u64 {
    match knowledge {
        Knowledge::Unseen => 0,
        Knowledge::ByJoiner => 1,
        Knowledge::Late => 2,
        Knowledge::Heard => 3,
    }
}

fn mixed_count(hash: u64, count: Option<u32>) -> u64 {
    match count {
        None => mixed(hash, 0),
        Some(n) => mixed(hash, u64::from(n) + 1),
    }
}

fn mixed_asked(hash: u64, asked: Asked) -> u64 {
    let hash = mixed_count(hash, asked.successes);
    let hash = mixed_count(hash, asked.failures);
    let hash = mixed_count(hash, asked.unavailable);
    match asked.total {
        None => hash,
        Some(total) => mixed(hash, total.cast_unsigned()),
    }
}

fn mixed_run(hash: u64, run: &Run) -> u64 {
    let hash = mixed_count(hash, run.part.call);
    let hash = match run.part.filter {
        crate::part::Filter::All => mixed(hash, 0),
        crate::part::Filter::Kind { succeeds, triggers } => {
            mixed(mixed(hash, 1 + u64::from(succeeds)), u64::from(triggers))
        }
        crate::part::Filter::Only(place) => mixed(hash, 4 + u64::from(place)),
        crate::part::Filter::Nothing => mixed(hash, 3),
    };
    let hash = mixed(hash, u64::from(run.part.is_open));
    mixed(hash, u64::from(run.count))
}

impl Seen {
    /// A scope that was opened just now.
    pub fn opened(alloc: Global, joiner: Joiner, timed: bool) -> Seen {
        Seen {
            facts: Facts {
                joiner,
                timed,
                phase: Phase::Opened,
                knowledge: Knowledge::Unseen,
                expired: false,
                has_failure: false,
                asked: Asked {
                    successes: None,
                    failures: None,
                    unavailable: None,
                    total: None,
                },
            },
            runs: Vec::new(alloc),
        }
    }

    /// The same, with other facts.
    pub fn with(&self, alloc: Global, facts: Facts) -> Result<Seen, AllocError> {
        Ok(Seen {
            facts,
            runs: Vec::from_slice(alloc, self.runs.as_slice())?,
        })
    }

    /// A copy.
    pub fn copied(&self, alloc: Global) -> Result<Seen, AllocError> {
        self.with(alloc, self.facts)
    }

    /// Are the two the same?
    pub fn is_same(&self, other: &Seen) -> bool {
        self.facts == other.facts && self.runs.as_slice() == other.runs.as_slice()
    }

    /// A number more for the hash of a state.
    pub fn mixed(&self, hash: u64) -> u64 {
        let hash = mixed(hash, number_of_phase(self.facts.phase));
        let hash = mixed(hash, number_of_knowledge(self.facts.knowledge));
        let mut hash = mixed_asked(hash, self.facts.asked);
        for run in self.runs.as_slice() {
            hash = mixed_run(hash, run);
        }
        hash
    }

    /// May the scope expire, if expiries come?
    pub fn can_expire(&self) -> bool {
        self.facts.timed
            && !self.facts.expired
            && matches!(self.facts.phase, Phase::Opened | Phase::Attempted)
    }
}
