//! What runs are made from.

use ends_known::outside::Outside;
use ends_known::table::{Explored, Table};
use sts_code::Program;

/// A program with the outside events that may come, and what a search found of its calls.
#[derive(Clone, Copy)]
pub struct Basis<'a> {
    pub program: &'a Program,
    pub outside: Outside,
    pub table: &'a Table,
    /// The root's call.
    pub root: &'a Explored,
}

impl<'a> Basis<'a> {
    /// What is known of the call of a task.
    pub fn explored(&self, call: Option<u32>) -> Option<&'a Explored> {
        match call {
            None => Some(self.root),
            Some(call) => self.table.calls.get(call as usize),
        }
    }
}
