//! The parts of an environment.

use sts_model::Bound;

/// An environment: a list of bindings, innermost first. A `Chains` holds their records.
#[derive(Clone, Copy, Debug, PartialEq, Eq)]
pub struct Env {
    /// The key of the innermost binding's record, or `None` if nothing is bound.
    pub front: Option<usize>,
    /// How many bindings there are.
    pub length: u32,
}

/// The record of a binding.
#[derive(Clone, Copy, Debug, PartialEq, Eq)]
pub struct Record {
    pub bound: Bound,
    /// The environment before this binding was made.
    pub rest: Env,
}

impl Env {
    ghost use Rattle.std.specs.Prelude.{◌≡◌, None, []};
    ghost use Rattle.sts_env.specs.Environments.{Records, IsWhole, list_of};

    /// The environment without a binding.
    pub fn empty() -> Env
        ensures value { result ≡ record { front = None; length = 0 } }
        ensures list { (records : Records) →
            IsWhole records result × (list_of records result ≡ []) }
    {
        Env {
            front: None,
            length: 0,
        }
    }
}
