//! The parts of a list by index: links, ends, and the store that holds the links.

/// The neighbours of a key in a list.
#[derive(Clone, Copy, Debug, PartialEq, Eq)]
pub struct Link {
    /// The key before this one, or `None` at the front of the list.
    pub before: Option<usize>,
    /// The key after this one, or `None` at the back of the list.
    pub after: Option<usize>,
}

/// A list by index: its two ends. Its keys are found by the links of a store.
#[derive(Clone, Copy, Debug, PartialEq, Eq)]
pub struct Ends {
    /// The first key, or `None` if the list is empty.
    pub first: Option<usize>,
    /// The last key, or `None` if the list is empty.
    pub last: Option<usize>,
}

impl Ends {
    ghost use Rattle.std.specs.Prelude.{◌≡◌, ℕ, Option, None, []};
    ghost use Rattle.sts_links.specs.Lists.{IsList};
    ghost use Rattle.sts_links.specs.declared.links.Link.{Link};

    /// The ends of the list without keys.
    pub fn empty() -> Ends
        ensures value { result ≡ record { first = None; last = None } }
        ensures keys { (at : ℕ → Option Link) → IsList at result [] }
    {
        Ends {
            first: None,
            last: None,
        }
    }
}

/// A store of records by key. Each record has one link in each layer.
pub trait Links {
    ghost use Rattle.std.specs.Prelude.{◌≡◌, ◌≢◌, ℕ, Option, Some, None};
    ghost use Rattle.sts_links.specs.declared.links.Link.{Link};

    /// The link of a key in a layer, if the store has that key and that layer.
    ghost at: { Self → ℕ → ℕ → Option Link };

    /// Two stores differ at most in their links.
    ghost alike: { Self → Self → Type 0 };

    /// The link of a key in a layer.
    fn link(&self, layer: u8, key: usize) -> Link
        requires { at self.now layer key ≢ None }
        ensures { at self.now layer key ≡ Some result };

    /// Sets the link of a key in a layer, and changes nothing else.
    fn set_link(&mut self, layer: u8, key: usize, link: Link)
        requires { at self.old layer key ≢ None }
        ensures set { at self.new layer key ≡ Some link }
        ensures others { (m j : ℕ) → (m ≡ layer → j ≢ key) → at self.new m j ≡ at self.old m j }
        ensures rest { alike self.old self.new };

    /// Each store is alike to itself.
    ghost same: { (a : Self) → alike a a };

    /// Being alike is transitive.
    ghost chained: { (a b c : Self) → alike a b → alike b c → alike a c };
}
