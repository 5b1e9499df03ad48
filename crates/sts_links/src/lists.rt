//! The calls on lists by index.

ghost use Rattle.std.specs.Prelude.{◌≡◌, ◌≢◌, ℕ, List, [], ◌∷◌, ◌++◌, Option, Some, None};
ghost use Rattle.sts_links.specs.declared.links.Ends.{Ends};
ghost use Rattle.sts_links.specs.declared.links.Link.{Link};
ghost use Rattle.sts_links.specs.Lists as chain;
ghost use Rattle.sts_links.specs.Lists.{IsList, Relinks, BecomesList, first_or, with_after};
ghost use Rattle.laws_words.specs.Keys.{NotIn};
ghost use Rattle.sts_links.specs.Lists.{with_before};

use crate::links::{Ends, Link, Links};

/// Sets what comes after a key, if there is one.
fn set_after<S: Links>(store: &mut S, layer: u8, key: Option<usize>, after: Option<usize>)
    requires { (k : ℕ) → key ≡ Some k → S.at store.old layer k ≢ None }
    ensures links { Relinks (S.at store.old) (S.at store.new) (with_after after) layer key }
    ensures rest { S.alike store.old store.new }
{
    if let Some(k) = key {
        let link = store.link(layer, k);
        store.set_link(layer, k, Link { after, ..link });
    }
}

/// Sets what comes before a key, if there is one.
fn set_before<S: Links>(store: &mut S, layer: u8, key: Option<usize>, before: Option<usize>)
    requires { (k : ℕ) → key ≡ Some k → S.at store.old layer k ≢ None }
    ensures links { Relinks (S.at store.old) (S.at store.new) (with_before before) layer key }
    ensures rest { S.alike store.old store.new }
{
    if let Some(k) = key {
        let link = store.link(layer, k);
        store.set_link(layer, k, Link { before, ..link });
    }
}

/// One of two ends. It depends on whether there is a neighbour on that side.
fn if_none(neighbour: Option<usize>, none: Option<usize>, some: Option<usize>) -> Option<usize>
    ensures { result ≡ chain.if_none neighbour none some }
{
    match neighbour {
        None => none,
        Some(_) => some,
    }
}

/// Appends a key that is in no list of the layer, and gives the list with it.
#[inline(always)]
pub fn push_back<S: Links>(store: &mut S, layer: u8, list: Ends, key: usize) -> Ends
    requires list { (keys : List ℕ) × IsList (S.at store.old layer) list keys × NotIn key keys }
    requires key { S.at store.old layer key ≢ None }
    ensures list { (keys : List ℕ) → IsList (S.at store.old layer) list keys → NotIn key keys →
        BecomesList (S.at store.old) (S.at store.new) layer result (keys ++ key ∷ []) }
    ensures rest { S.alike store.old store.new }
{
    set_after(store, layer, list.last, Some(key));
    store.set_link(
        layer,
        key,
        Link {
            before: list.last,
            after: None,
        },
    );
    Ends {
        first: if_none(list.first, Some(key), list.first),
        last: Some(key),
    }
}

/// Takes out a key of the list, and gives the list without it.
///
/// The link of the key itself stays as it was.
#[inline(always)]
pub fn unlink<S: Links>(store: &mut S, layer: u8, list: Ends, key: usize) -> Ends
    requires { (front : List ℕ) × (back : List ℕ) ×
        IsList (S.at store.old layer) list (front ++ key ∷ back) }
    ensures list { (front back : List ℕ) →
        IsList (S.at store.old layer) list (front ++ key ∷ back) →
        BecomesList (S.at store.old) (S.at store.new) layer result (front ++ back) }
    ensures rest { S.alike store.old store.new }
{
    let link = store.link(layer, key);
    set_after(store, layer, link.before, link.after);
    set_before(store, layer, link.after, link.before);
    Ends {
        first: if_none(link.before, link.after, list.first),
        last: if_none(link.after, link.before, list.last),
    }
}

/// The first key of a list, or `None` if the list is empty.
pub fn front(list: Ends) -> Option<usize>
    ensures value { result ≡ list.first }
    ensures key { (at : ℕ → Option Link) (keys : List ℕ) → IsList at list keys →
        result ≡ first_or keys None }
{
    list.first
}

/// The key after a key of a list, or `None` at the back.
pub fn after<S: Links>(store: &S, layer: u8, key: usize) -> Option<usize>
    requires { S.at store.now layer key ≢ None }
    ensures value { result ≡ chain.after_of (S.at store.now layer key) }
    ensures key { (list : Ends) (front back : List ℕ) →
        IsList (S.at store.now layer) list (front ++ key ∷ back) → result ≡ first_or back None }
{
    store.link(layer, key).after
}
