//! The keys that births were given, which only clauses read.
ghost use Rattle.std.specs.Prelude.{◌≡◌, ℕ, List, [], ◌∷◌, ◌++◌};
ghost use Rattle.std.specs.Borrow.{ftrue};

use std::marker::Model;

/// The key that each birth was given, by birth. It takes no bytes.
#[derive(Drop)]
pub struct Given {
    pub ghost keys: { List ℕ },
}

impl Model for Given {
    ghost also_owns = { λ _. ftrue };
}

// It owns nothing.
unsafe impl Send for Given {}

unsafe impl Sync for Given {}

impl Given {
    /// No births.
    pub(crate) fn new() -> Given
        ensures { result.keys ≡ [] }
    {
        Given {}
    }

    /// One more birth, with this key.
    #[inline(always)]
    pub(crate) fn and(&self, _key: &u32) -> Given
        ensures { result.keys ≡ self.now.keys ++ _key.now ∷ [] }
    {
        Given {}
    }
}
