//! Bindings that environments share.

ghost use Rattle.std.specs.Prelude.{◌≡◌, ◌<◌, ◌≤◌, ◌++◌, [], ◌∷◌};
ghost use Rattle.std.specs.Prelude.{length, true, filter_map, IfOk, Some};
ghost use Rattle.sts_model.specs.Environment as scoped;
ghost use Rattle.sts_world.specs.Chains.{bindings_of, is_within, Grows, link_at};

use std::alloc::{AllocError, Global};
use std::marker::Model;
use sts_code::MAX_ENTRIES;
use sts_model::{Bound, Entry, Frame};

/// A binding, and the place of the next older link.
#[derive(Clone, Copy, Debug, PartialEq, Eq)]
pub struct BindingLink {
    pub bound: Bound,
    pub behind: Option<usize>,
}

/// The links of all environments, by place. An environment is the place of its innermost binding's
/// link, and no link is ever changed or taken out.
#[derive(Drop)]
pub struct BindingChains {
    links: Vec<BindingLink>,
}

impl Model for BindingChains {
    ghost use Rattle.std.specs.Prelude.{List};
    ghost use Rattle.sts_world.specs.declared.chains.BindingLink.{BindingLink};

    ghost Value = { List BindingLink };

    ghost view = { λ c. c.links.items };
}

/// Is it the place of an older link than this, or of none?
fn is_older(front: Option<usize>, place: usize) -> bool
    ensures { result ≡ is_within place front }
{
    match front {
        None => true,
        Some(i) => i < place,
    }
}

impl BindingChains {
    /// No links yet.
    pub fn new(alloc: Global) -> BindingChains
        ensures { result ≡ [] }
    {
        BindingChains {
            links: Vec::new(alloc),
        }
    }

    /// The value of the innermost binding of a key, from this link on.
    pub fn read(&self, front: Option<usize>, k: u8) -> Option<i64>
        ensures { result ≡ scoped.read (bindings_of self.now front) k }
    {
        let mut at = front;
        let mut younger = self.links.len();
        while let Some(place) = at {
            if place >= younger {
                return None;
            }
            let link = self.links[place];
            if link.bound.key == k {
                return Some(link.bound.value);
            }
            at = link.behind;
            younger = place;
        }
        None
    }

    /// Is this binding, in front of this link, at the place?
    #[tactic(auto, using(crate::proofs::Chaining::bindings_found))]
    fn is_at(&self, place: usize, bound: Bound, behind: Option<usize>) -> bool
        ensures within { result ≡ true → place < length self.now }
        ensures link { result ≡ true →
            link_at self.now place ≡ record { bound = bound; behind = behind } }
        ensures older { result ≡ true → is_within place behind ≡ true }
    {
        match self.links.get(place) {
            Some(link) => *link == BindingLink { bound, behind } && is_older(behind, place),
            None => false,
        }
    }

    /// The place of a link with this binding in front of that link. The hint may lead to such a
    /// link already.
    fn put(&mut self, bound: Bound, behind: Option<usize>, hint: usize) -> Result<usize, AllocError>
        requires { is_within (length self.old) behind ≡ true }
        ensures list { IfOk result (λ place. bindings_of self.new (Some place) ≡
            bound ∷ bindings_of self.old behind) }
        ensures within { IfOk result (λ place. place < length self.new) }
        ensures grows { Grows self.old self.new }
    {
        if self.is_at(hint, bound, behind) {
            return Ok(hint);
        }
        let place = self.links.len();
        self.links.push(BindingLink { bound, behind })?;
        Ok(place)
    }

    /// The place of the next older link, if there is one.
    fn behind(&self, place: usize) -> Option<usize> {
        match self.links.get(place) {
            Some(link) => link.behind,
            None => None,
        }
    }

    /// The places of the links from one on up to an environment, innermost first, and their number,
    /// at most the limit of a task's entries. They are only hints.
    fn places(&self, front: usize, rest: Option<usize>) -> ([usize; MAX_ENTRIES], usize)
        ensures { result.1 ≤ MAX_ENTRIES }
    {
        let mut places = [0; MAX_ENTRIES];
        let mut at = front;
        for n in 0..MAX_ENTRIES {
            places[n] = at;
            let behind = self.behind(at);
            if behind == rest {
                return (places, n + 1);
            }
            at = behind.unwrap_or(0);
        }
        (places, MAX_ENTRIES)
    }

    /// The environment of the frame's own bindings in front of an environment.
    ///
    /// The links of the environment that `hint` leads to are used again, as far as they fit.
    ///
    /// # Errors
    ///
    /// Memory ran out; links may have been added.
    pub fn extend(
        &mut self,
        frame: &Frame,
        rest: Option<usize>,
        hint: usize,
    ) -> Result<Option<usize>, AllocError>
        requires { is_within (length self.old) rest ≡ true }
        ensures list { IfOk result (λ front. bindings_of self.new front ≡
            filter_map scoped.bound_of frame.now.entries ++ bindings_of self.old rest) }
        ensures within { IfOk result (λ front. is_within (length self.new) front ≡ true) }
        ensures grows { Grows self.old self.new }
    {
        let (places, count) = self.places(hint, rest);
        let mut front = rest;
        let mut left = count;
        for entry in frame.entries.as_slice() {
            if let Entry::Binding(key, value) = entry.get() {
                left = left.saturating_sub(1);
                front = Some(self.put(Bound { key, value }, front, places[left % MAX_ENTRIES])?);
            }
        }
        Ok(front)
    }
}

impl BindingChains {
    /// If the answer is true, the two environments have the same bindings.
    pub fn same_bindings(
        &self,
        front: Option<usize>,
        other: &BindingChains,
        front_there: Option<usize>,
    ) -> bool
        ensures { result ≡ true → bindings_of self.now front ≡ bindings_of other.now front_there }
    {
        let mut at = front;
        let mut at_there = front_there;
        let mut younger = self.links.len();
        let mut younger_there = other.links.len();
        while let Some(place) = at {
            let Some(place_there) = at_there else {
                return false;
            };
            if place >= younger || place_there >= younger_there {
                return false;
            }
            let link = self.links[place];
            let link_there = other.links[place_there];
            if link.bound != link_there.bound {
                return false;
            }
            at = link.behind;
            at_there = link_there.behind;
            younger = place;
            younger_there = place_there;
        }
        at_there.is_none()
    }

    /// The same once more.
    pub fn copied(&self, alloc: Global) -> Result<BindingChains, AllocError>
        ensures { IfOk result (λ c. c ≡ self.now) }
    {
        Ok(BindingChains {
            links: Vec::from_slice(alloc, self.links.as_slice())?,
        })
    }
}
