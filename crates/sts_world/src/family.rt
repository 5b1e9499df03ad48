//! The subtasks of one scope.

ghost use Rattle.std.specs.Prelude.{◌≡◌, ◌<◌, ◌≤◌, ◌-◌, if◌then◌else◌};
ghost use Rattle.std.specs.Prelude.{length, take, nat_lt, OnOk, OnErr};
ghost use Rattle.sts_world.specs.Kept.{no_family, with_child, with_death};

use std::alloc::{AllocError, Global};
use std::marker::Model;
use sts_same::copied::Copied;

/// The subtasks of one scope: contracts see their birth numbers in fork order, and how many of
/// them live.
#[derive(Drop)]
pub struct Family {
    births: Vec<u32>,
    living: usize,
}

impl Model for Family {
    ghost use Rattle.sts_world.specs.Kept.{Family};

    ghost Value = { Family };

    ghost view = { λ f. record { births = f.births.items; living = f.living } };

    ghost use Rattle.std.specs.Prelude.{◌≤◌, length};

    ghost invariant = { λ f. f.living ≤ length f.births.items };
}

impl Family {
    /// No subtasks yet.
    pub fn new(alloc: Global) -> Family
        ensures { result ≡ no_family }
    {
        Family {
            births: Vec::new(alloc),
            living: 0,
        }
    }

    /// The birth numbers, in fork order.
    pub fn births(&self) -> &[u32]
        ensures { result.now ≡ self.now.births }
    {
        self.births.as_slice()
    }

    /// Does one of the subtasks live?
    pub fn any_lives(&self) -> bool
        ensures { result ≡ nat_lt 0 self.now.living }
    {
        self.living > 0
    }

    /// One more subtask.
    ///
    /// # Errors
    ///
    /// Memory ran out; the subtasks are unchanged.
    pub fn add(&mut self, task: u32, lives: bool) -> Result<(), AllocError>
        ensures ok { OnOk result (self.new ≡ with_child self.old task lives) }
        ensures err { OnErr result (self.new ≡ self.old) }
        ensures bound { self.old.living ≤ length self.old.births }
    {
        self.births.push(task)?;
        if lives {
            self.living += 1;
        }
        Ok(())
    }

    /// One living subtask less.
    pub fn lose(&mut self)
        requires { 0 < self.old.living }
        ensures { self.new ≡ with_death self.old }
    {
        self.living -= 1;
    }

    /// Takes back the subtask that was added last.
    pub fn take_back(&mut self, lives: bool)
        requires some { 0 < length self.old.births }
        requires fits { self.old.living - (if lives then 1 else 0) ≤ length self.old.births - 1 }
        ensures { self.new ≡ record {
          births = take (length self.old.births - 1) self.old.births;
          living = self.old.living - (if lives then 1 else 0);
        } }
    {
        self.births.truncate(self.births.len() - 1);
        self.living = self.living.saturating_sub(usize::from(lives));
    }
}

impl Copied for Family {
    fn copied(&self, alloc: Global) -> Result<Family, AllocError> {
        Ok(Family {
            births: Vec::from_slice(alloc, self.births.as_slice())?,
            living: self.living,
        })
    }
}
