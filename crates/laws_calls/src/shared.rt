//! Lists that copies share, so that a copy takes no new memory.

ghost use Rattle.std.specs.Prelude.{◌≡◌, IfOk};

use std::alloc::{AllocError, Global};
use std::marker::Model;
use std::rc::Rc;
use sts_model::Items;

/// A list that its copies share. It never changes.
#[derive(Drop)]
pub struct Shared<T> {
    items: Rc<Items<T>, Global>,
}

impl<T> Model for Shared<T> {
    ghost use Rattle.std.specs.Prelude.{List};

    ghost Value = { List T };

    ghost view = { λ s. s.items.value };
}

impl<T: Drop> Shared<T> {
    /// A list whose copies share it.
    ///
    /// # Errors
    ///
    /// Memory ran out.
    pub fn new(alloc: Global, items: Items<T>) -> Result<Self, AllocError>
        ensures { IfOk result (λ s. s ≡ items) }
    {
        Ok(Shared {
            items: Rc::new(alloc, items)?,
        })
    }

    /// The same list once more, which shares its memory.
    ///
    /// # Errors
    ///
    /// There are too many copies.
    pub fn share(&self) -> Result<Self, AllocError>
        ensures { IfOk result (λ s. s ≡ self.now) }
    {
        Ok(Shared {
            items: self.items.clone()?,
        })
    }
}

impl<T> Shared<T> {
    /// The values, in order.
    pub fn as_slice(&self) -> &[T]
        ensures { result.now ≡ self.now }
    {
        self.items.as_slice()
    }
}
