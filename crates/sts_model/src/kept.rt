//! Slots and entries as a frame keeps them: as bytes, which leave no holes.

ghost use Rattle.std.specs.Prelude.{◌≡◌, ◌<◌, ◌≤◌, [], ◌∷◌, length, drop, reverse};
ghost use Rattle.std.specs.Prelude.{slice_get, slice_index_or};
ghost use Rattle.sts_model.specs.Kept as def;

use crate::record::{Entry, Slot};
use crate::stack::Stack;
use std::marker::Model;

/// A slot as bytes: what it holds, and the birth number.
#[derive(Clone, Copy, PartialEq, Eq)]
pub enum SlotBytes {
    Empty,
    Own([u8; 4]),
    Lent([u8; 4]),
    Sub([u8; 4]),
}

/// An entry as bytes: the birth number of a scope, or a key and its value.
#[derive(Clone, Copy, PartialEq, Eq)]
pub enum EntryBytes {
    Scope([u8; 4]),
    Binding(u8, [u8; 8]),
}

/// A slot in five bytes. Contracts see the slot.
#[derive(Clone, Copy, PartialEq, Eq)]
pub struct KeptSlot {
    bytes: SlotBytes,
}

impl Model for KeptSlot {
    ghost use Rattle.std.specs.Prelude.{◌≡◌};
    ghost use Rattle.sts_model.specs.declared.record.Slot.{Slot};

    ghost Value = { Slot };

    ghost use Rattle.sts_model.specs.Kept as def;
    ghost use Rattle.std.proofs.Common.{ap};

    ghost view = { λ k. def.slot k.bytes };

    ghost invariant = { λ k. def.slot_bytes (def.slot k.bytes) ≡ k.bytes };

    ghost inverse = { λ slot. record { bytes = def.slot_bytes slot } };

    ghost inverse_ok = { λ k h. ap (λ b. record { bytes = b }) h };
}

impl KeptSlot {
    /// A slot as bytes.
    #[inline(always)]
    pub fn new(slot: Slot) -> KeptSlot
        ensures { result ≡ slot }
    {
        let bytes = match slot {
            Slot::Empty => SlotBytes::Empty,
            Slot::Own(s) => SlotBytes::Own(s.to_le_bytes()),
            Slot::Lent(s) => SlotBytes::Lent(s.to_le_bytes()),
            Slot::Sub(t) => SlotBytes::Sub(t.to_le_bytes()),
        };
        KeptSlot { bytes }
    }

    /// The slot.
    #[inline(always)]
    pub fn get(&self) -> Slot
        ensures { result ≡ self.now }
    {
        match self.bytes {
            SlotBytes::Empty => Slot::Empty,
            SlotBytes::Own(s) => Slot::Own(u32::from_le_bytes(s)),
            SlotBytes::Lent(s) => Slot::Lent(u32::from_le_bytes(s)),
            SlotBytes::Sub(t) => Slot::Sub(u32::from_le_bytes(t)),
        }
    }
}

/// An entry in ten bytes. Contracts see the entry.
#[derive(Clone, Copy, PartialEq, Eq)]
pub struct KeptEntry {
    bytes: EntryBytes,
}

impl Model for KeptEntry {
    ghost use Rattle.std.specs.Prelude.{◌≡◌};
    ghost use Rattle.sts_model.specs.declared.record.Entry.{Entry};

    ghost Value = { Entry };

    ghost use Rattle.sts_model.specs.Kept as def;
    ghost use Rattle.std.proofs.Common.{ap};

    ghost view = { λ k. def.entry k.bytes };

    ghost invariant = { λ k. def.entry_bytes (def.entry k.bytes) ≡ k.bytes };

    ghost inverse = { λ entry. record { bytes = def.entry_bytes entry } };

    ghost inverse_ok = { λ k h. ap (λ b. record { bytes = b }) h };
}

impl KeptEntry {
    /// An entry as bytes.
    #[inline(always)]
    pub fn new(entry: Entry) -> KeptEntry
        ensures { result ≡ entry }
    {
        let bytes = match entry {
            Entry::Scope(s) => EntryBytes::Scope(s.to_le_bytes()),
            Entry::Binding(key, value) => EntryBytes::Binding(key, value.to_le_bytes()),
        };
        KeptEntry { bytes }
    }

    /// The entry.
    #[inline(always)]
    pub fn get(&self) -> Entry
        ensures { result ≡ self.now }
    {
        match self.bytes {
            EntryBytes::Scope(s) => Entry::Scope(u32::from_le_bytes(s)),
            EntryBytes::Binding(key, value) => Entry::Binding(key, i64::from_le_bytes(value)),
        }
    }
}

impl Default for KeptEntry {
    fn default() -> KeptEntry {
        KeptEntry::new(Entry::Scope(0))
    }
}

/// A structure list: at most 16 entries. Contracts see the list of them, the innermost first.
#[derive(Drop)]
pub struct Entries {
    kept: Stack<KeptEntry, 16>,
}

impl Model for Entries {
    ghost use Rattle.std.specs.Prelude.{List};
    ghost use Rattle.sts_model.specs.declared.record.Entry.{Entry};

    ghost Value = { List Entry };

    ghost view = { λ e. e.kept };
}

impl Entries {
    /// The empty list.
    #[inline(always)]
    pub fn new() -> Entries
        ensures { result ≡ [] }
    {
        Entries { kept: Stack::new() }
    }

    /// How many entries there are.
    #[inline(always)]
    pub fn len(&self) -> usize
        ensures len { result ≡ length self.now }
        ensures bound { result ≤ 16 }
    {
        self.kept.len()
    }

    /// Adds an innermost entry; there has to be room.
    #[inline(always)]
    pub fn push(&mut self, entry: Entry)
        requires { length self.old < 16 }
        ensures { self.new ≡ entry ∷ self.old }
    {
        self.kept.push(KeptEntry::new(entry));
    }

    /// The entries as they are kept, the innermost last.
    #[inline(always)]
    pub fn as_slice(&self) -> &[KeptEntry]
        ensures { reverse result.now ≡ self.now }
    {
        self.kept.as_slice()
    }

    /// Takes the innermost `n` entries off, or all if there are fewer.
    #[inline(always)]
    pub fn drop_top(&mut self, n: usize)
        ensures rest { self.new ≡ drop n self.old }
        ensures bound { length self.old ≤ 16 }
    {
        self.kept.drop_top(n);
    }

    /// The entry outside of the `n` innermost ones, or a default if there is none.
    #[inline(always)]
    pub fn get_or(&self, n: usize, default: Entry) -> Entry
        ensures { result ≡ slice_index_or self.now n default }
    {
        self.kept.get_or(n, KeptEntry::new(default)).get()
    }

    /// The entry outside of the `n` innermost ones, if there is one.
    #[inline(always)]
    pub fn get(&self, n: usize) -> Option<Entry>
        ensures { result ≡ slice_get self.now n }
    {
        match self.kept.get(n) {
            Some(kept) => Some(kept.get()),
            None => None,
        }
    }
}
