//! Comparisons: if the answer is true, the two are the same.

ghost use Rattle.std.specs.Prelude.{◌≡◌, true};

use crate::table::{Asked, Call, Held, Own, Part, Seen, Way};
use sts_same::same::{Same, same_items, same_slices};

impl Same for Held {
    fn same(&self, other: &Held) -> bool {
        *self == *other
    }
}

impl Same for Way {
    fn same(&self, other: &Way) -> bool {
        *self == *other
    }
}

impl Same for Part {
    fn same(&self, other: &Part) -> bool {
        self.is_open == other.is_open
            && self.is_early == other.is_early
            && same_slices(self.ways.as_slice(), other.ways.as_slice())
    }
}

/// Are the two scopes the same, apart from their environments and parts?
fn same_facts(a: &Seen, b: &Seen) -> bool
    ensures joiner { result ≡ true → a.now.joiner ≡ b.now.joiner }
    ensures timed { result ≡ true → a.now.timed ≡ b.now.timed }
    ensures phase { result ≡ true → a.now.phase ≡ b.now.phase }
{
    a.joiner == b.joiner && a.timed == b.timed && a.phase == b.phase
}

/// Is what the owner knows of a cancel the same, and whether it saw a failure?
fn same_looks(a: &Seen, b: &Seen) -> bool
    ensures knowledge { result ≡ true → a.now.knowledge ≡ b.now.knowledge }
    ensures has_failure { result ≡ true → a.now.has_failure ≡ b.now.has_failure }
{
    a.knowledge == b.knowledge && a.has_failure == b.has_failure
}

/// Are the answers the same?
fn same_asked(a: Asked, b: Asked) -> bool
    ensures { result ≡ true → a ≡ b }
{
    a.successes == b.successes
        && a.failures == b.failures
        && a.unavailable == b.unavailable
        && a.total == b.total
}

impl Same for Seen {
    fn same(&self, other: &Seen) -> bool {
        same_facts(self, other)
            && same_looks(self, other)
            && same_asked(self.asked, other.asked)
            && same_items(&self.environment, &other.environment)
            && self.parts.same(&other.parts)
    }
}

impl Own {
    /// Are the two the same, apart from the births that are left?
    pub fn is_like(&self, other: &Own) -> bool
        ensures { result ≡ true → self.now ≡ record other.now { left = self.now.left } }
    {
        self.frame.same(&other.frame)
            && same_slices(&self.held, &other.held)
            && same_items(&self.scopes, &other.scopes)
    }
}

impl Same for Own {
    fn same(&self, other: &Own) -> bool {
        self.left == other.left && self.is_like(other)
    }
}

impl Same for Call {
    fn same(&self, other: &Call) -> bool {
        self.function == other.function
            && same_items(&self.args, &other.args)
            && same_items(&self.environment, &other.environment)
    }
}
