//! A state of a row, and what its steps depend on.

use ends_search::index::Index;
use laws_calls::table::{Call, Outside, Own, Row};
use sts_code::Program;

/// A state of a row, and what its steps depend on.
#[derive(Clone, Copy)]
pub struct Around<'a> {
    pub program: &'a Program,
    /// What may come to a task from outside.
    pub outside: Outside,
    pub table: &'a [Row],
    /// Where its rows are, by their calls.
    pub places: &'a Index,
    pub call: &'a Call,
    /// The states to which its steps have to lead.
    pub states: &'a [Own],
    pub own: &'a Own,
}
