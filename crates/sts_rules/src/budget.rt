//! The most that a function can cost.

/// The budgets of a function: the most steps of a path through it, and the most tasks, scopes and
/// bindings that count at one point of a path. Each includes those of its subtasks.
#[derive(Clone, Copy, Debug, PartialEq, Eq)]
pub struct Budgets {
    pub steps: u32,
    pub tasks: u32,
    pub scopes: u32,
    pub binds: u32,
}
