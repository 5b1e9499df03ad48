//! Records by birth under recycled keys.
//!
//! Births rise by one and are never used twice; the memory of a record is. Each block of 4,096
//! births has a page with the keys of their records, and a record knows its birth. A key that
//! belongs to a later record by now leads nowhere. The page of a block whose records are gone goes
//! to a later block.
#![tactic(auto)]

mod given;
mod held;
mod pages;
mod places;

pub use held::Held;
