//! Lists by index: doubly linked lists of keys, in several layers. The links are part of the
//! records of a store.
//!
//! A record of the store can be in one list of each layer. The crate asks nothing else of the
//! store, keeps no list of its own, and takes no memory.
#![tactic(auto)]

mod links;
mod lists;

pub use links::{Ends, Link, Links};
pub use lists::{after, front, push_back, unlink};
