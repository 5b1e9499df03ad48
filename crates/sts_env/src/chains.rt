//! The records of all environments, and the calls on them.

ghost use Rattle.std.specs.Prelude.{◌≡◌, ◌≢◌, ℕ, ◌+◌, ◌<◌, ◌^◌, [], ◌∷◌, Option, Some, None, IfOk};
ghost use Rattle.sts_env.specs.Environments.{list_of, IsWhole, record_at, Stays, PutsRecord};
ghost use Rattle.sts_env.specs.Environments.{TakesRecord, KeepsWithout};
ghost use Rattle.sts_env.specs.declared.env.Env.{Env};
ghost use Rattle.sts_model.specs.Environment as scoped;
ghost use Rattle.sts_model.specs.declared.record.Bound.{Bound};

use crate::env::{Env, Record};
use slab::Slab;
use std::alloc::{AllocError, Global};
use std::marker::Model;
use sts_model::Bound;

/// The records of all environments. Records are made in room that was reserved at the start. When a
/// record is taken out, a later one may get its key.
#[derive(Drop)]
pub struct Chains {
    slab: Slab<Record>,
    left: u32,
}

impl Model for Chains {
    ghost use Rattle.std.specs.Prelude.{◌<◌, ◌+◌, ◌^◌};
    ghost use Rattle.slab.specs.Slab.{HasRoomFor, slab_len};
    ghost use Rattle.sts_env.specs.Environments.{Records};

    ghost Value = { Records };

    ghost view = { λ c. record { slots = c.slab.slots; room = c.left } };

    ghost invariant = { λ c. HasRoomFor c.slab c.left × (slab_len c.slab + c.left < 2 ^ 32) };
}

impl Chains {
    /// No records, and room for `binds` bindings at once. No later call can answer that memory ran
    /// out.
    ///
    /// # Errors
    ///
    /// Memory ran out.
    pub fn with_room(alloc: Global, binds: u32) -> Result<Chains, AllocError>
        ensures room { IfOk result (λ c. c.room ≡ binds) }
        ensures empty { IfOk result (λ c. (k : ℕ) → record_at c k ≡ None) }
    {
        let mut slab = Slab::new(alloc);
        slab.reserve(binds as usize)?;
        Ok(Chains { slab, left: binds })
    }

    /// How many more bindings there is room for.
    pub fn room(&self) -> u32
        ensures { result ≡ self.now.room }
    {
        self.left
    }

    /// The environment with one more binding in front.
    pub fn bind(&mut self, env: Env, key: u8, value: i64) -> Env
        requires room { 0 < self.old.room }
        requires whole { IsWhole self.old env }
        ensures whole { IsWhole self.new result }
        ensures list { list_of self.new result ≡
            record { key = key; value = value } ∷ list_of self.old env }
        ensures puts { PutsRecord self.old self.new env result }
        ensures others { (other : Env) → IsWhole self.old other → Stays self.old self.new other }
        ensures room { self.new.room + 1 ≡ self.old.room }
    {
        self.put(env, Bound { key, value })
    }

    fn put(&mut self, env: Env, bound: Bound) -> Env
        requires room { 0 < self.old.room }
        requires whole { IsWhole self.old env }
        ensures whole { IsWhole self.new result }
        ensures list { list_of self.new result ≡ bound ∷ list_of self.old env }
        ensures puts { PutsRecord self.old self.new env result }
        ensures others { (other : Env) → IsWhole self.old other → Stays self.old self.new other }
        ensures room { self.new.room + 1 ≡ self.old.room }
    {
        let front = self.slab.insert_reserved(Record { bound, rest: env });
        self.left -= 1;
        Env {
            front: Some(front),
            length: env.length + 1,
        }
    }

    /// Takes out the record of the innermost binding, and gives the environment without it.
    ///
    /// Nothing is promised of other environments that hold that record.
    pub fn unbind(&mut self, env: Env) -> Env
        requires some { list_of self.old env ≢ [] }
        requires whole { IsWhole self.old env }
        ensures whole { IsWhole self.new result }
        ensures list { (b : Bound) × (list_of self.old env ≡ b ∷ list_of self.new result) }
        ensures takes { TakesRecord self.old self.new env result }
        ensures others { (other : Env) → IsWhole self.old other →
            KeepsWithout self.old self.new env other }
        ensures room { self.new.room ≡ self.old.room + 1 }
    {
        let front = env.front.unwrap();
        let record = self.slab.remove(front);
        self.left += 1;
        record.rest
    }

    /// The value of the innermost binding of this key, or `None` if it is not bound.
    pub fn read(&self, env: Env, key: u8) -> Option<i64>
        requires whole { IsWhole self.now env }
        ensures { result ≡ scoped.read (list_of self.now env) key }
    {
        let mut at = env.front;
        for _ in 0..env.length {
            let record = *self.slab.get(at.unwrap()).unwrap();
            if record.bound.key == key {
                return Some(record.bound.value);
            }
            at = record.rest.front;
        }
        None
    }
}
