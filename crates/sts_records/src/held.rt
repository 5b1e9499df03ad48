//! Records found by birth, until they are discarded.

ghost use Rattle.std.specs.Prelude.{◌≡◌, ◌≢◌, ◌+◌, ◌-◌, ◌<◌, ◌≤◌, ◌++◌, [], ◌∷◌, ℕ, length};
ghost use Rattle.std.specs.Prelude.{Option, Some, None, IfOk, slice_index_or, slice_set};
ghost use Rattle.std.specs.Prelude.{true, false, option_copied};
ghost use Rattle.std.specs.Borrow.{sem};
ghost use Rattle.sts_records.specs.Holes.{key_at};
ghost use Rattle.sts_records.specs.Lends.{lends_slot};

use crate::given::Given;
use crate::pages::Pages;
use crate::places::Places;
use std::alloc::{AllocError, Global};
use std::marker::Model;

/// Records by birth. Contracts see a list by birth, with a hole for each record that was discarded.
///
/// Births count from 0 and are never used twice. Each record has a key. When it is discarded, it
/// stays where it lies, and a later record may be given its key and be written over it.
#[derive(Drop)]
pub struct Held<T> {
    /// The key of each birth that has a record.
    pages: Pages,
    places: Places<T>,
    /// The key that each birth was given.
    given: Given,
    born: u32,
    room: u32,
}

impl<T> Model for Held<T> {
    ghost use Rattle.std.specs.Prelude.{◌≡◌, ◌≤◌, ◌+◌, ◌/◌, ◌<◌, ◌^◌, length};
    ghost use Rattle.sts_records.specs.Places.{HasRoomFor, filled};
    ghost use Rattle.sts_records.specs.Holes.{Holes, holes_code};

    ghost Value = { Holes T };

    ghost coded = { holes_code T.code };

    ghost use Rattle.sts_records.specs.Pages.{HasPagesFor, KeepsKeys};
    ghost use Rattle.sts_records.specs.Slots.{AreGiven, births, slots};

    ghost view = { λ h. record {
      slots = slots 0 h.given.keys h.places.slots;
      keys = h.given.keys;
      room = h.room;
    } };

    ghost invariant = { λ h. HasRoomFor h.places h.room × (filled h.places + h.room < 2 ^ 32)
        × (h.born ≡ length h.given.keys) × (h.born ≤ 1000000)
        × AreGiven h.given.keys (births h.places.slots)
        × KeepsKeys h.pages (h.born / 4096) (births h.places.slots)
        × HasPagesFor h.pages (filled h.places + h.room) };
}

impl<T: Drop> Held<T> {
    /// No records, room for `room` records at once, and for 1,000,000 births. No other call takes
    /// memory.
    ///
    /// # Errors
    ///
    /// Memory ran out.
    pub fn with_room(alloc: Global, room: u32) -> Result<Held<T>, AllocError>
        ensures { IfOk result (λ h. h ≡ record { slots = []; keys = []; room = room }) }
    {
        let places = Places::with_room(alloc, room)?;
        let pages = Pages::with_room(alloc, room)?;
        Ok(Held {
            pages,
            places,
            given: Given::new(),
            born: 0,
            room,
        })
    }

    /// How many were born.
    pub fn born(&self) -> usize
        ensures value { result ≡ length self.now.slots }
        ensures few { result ≤ 1000000 }
    {
        self.born as usize
    }

    /// How many more fit.
    pub fn room(&self) -> u32
        ensures { result ≡ self.now.room }
    {
        self.room
    }

    /// The key of the record of a birth. It must exist.
    #[inline(always)]
    fn key(&self, birth: usize) -> usize
        requires { slice_index_or self.now.slots birth None ≢ None }
        ensures { result ≡ slice_index_or self.now.keys birth 0 }
    {
        self.pages.key(birth)
    }

    /// The record of a birth, if it exists.
    pub fn get(&self, birth: usize) -> Option<&T>
        ensures { option_copied result ≡ slice_index_or self.now.slots birth None }
    {
        if birth >= self.born as usize {
            return None;
        }
        self.places.get(self.pages.key(birth), birth as u32)
    }

    /// The record of a birth. It must exist.
    #[inline(always)]
    pub fn record(&self, birth: usize) -> &T
        requires { slice_index_or self.now.slots birth None ≢ None }
        ensures { slice_index_or self.now.slots birth None ≡ Some result.now }
    {
        let key = self.key(birth);
        self.places.record(key)
    }

    /// The record of a birth, for writing. It must exist.
    pub fn at(&mut self, birth: usize) -> &mut T
        requires { slice_index_or self.old.slots birth None ≢ None }
        ensures* writes_back { sem 𝓛 (lends_slot T.row self.entry birth result) }
        ensures value { slice_index_or self.old.slots birth None ≡ Some result.now }
    {
        let key = self.key(birth);
        self.places.at(key)
    }

    /// The key of the record of a birth, if it exists.
    pub fn key_of(&self, birth: usize) -> Option<usize>
        ensures { result ≡ key_at self.now.slots self.now.keys birth }
    {
        match self.get(birth) {
            None => None,
            Some(_) => Some(self.key(birth)),
        }
    }

    /// The birth of the record at a key. It must exist.
    pub fn birth(&self, key: usize) -> usize
        requires { (b : ℕ) × (key_at self.now.slots self.now.keys b ≡ Some key) }
        ensures value { (b : ℕ) → key_at self.now.slots self.now.keys b ≡ Some key → result ≡ b }
        ensures few { result < 1000000 }
    {
        self.places.birth(key).unwrap() as usize
    }

    /// Makes a record of the next birth, and answers that birth.
    #[inline(always)]
    pub fn push(&mut self, body: T) -> usize
        requires room { 0 < self.old.room }
        requires births { length self.old.slots < 1000000 }
        ensures birth { result ≡ length self.old.slots }
        ensures slots { self.new.slots ≡ self.old.slots ++ Some body ∷ [] }
        ensures keys { (key : ℕ) × (self.new.keys ≡ self.old.keys ++ key ∷ []) }
        ensures room { self.new.room ≡ self.old.room - 1 }
    {
        let birth = self.born as usize;
        let key = self.places.insert(self.born, body);
        self.pages.put(birth, key);
        self.given = self.given.and(&key);
        self.born = birth as u32 + 1;
        self.room -= 1;
        self.pages.turn(birth + 1, &self.places);
        birth
    }

    /// Makes a discarded record that of the next birth. It still has what it had, so the caller
    /// writes over it. Answers whether there was one; if not, nothing changes. No clause says when
    /// there is one, since a caller may `push` in any case.
    #[inline(always)]
    pub fn reuse(&mut self) -> bool
        requires room { 0 < self.old.room }
        requires births { length self.old.slots < 1000000 }
        ensures none { result ≡ false → self.new ≡ self.old }
        ensures slots { result ≡ true → (body : T)
            × (self.new.slots ≡ self.old.slots ++ Some body ∷ []) }
        ensures keys { result ≡ true → (key : ℕ) × (self.new.keys ≡ self.old.keys ++ key ∷ []) }
        ensures room { result ≡ true → self.new.room ≡ self.old.room - 1 }
    {
        let birth = self.born as usize;
        let Some(key) = self.places.reuse(self.born) else {
            return false;
        };
        self.pages.put(birth, key);
        self.given = self.given.and(&key);
        self.born = birth as u32 + 1;
        self.room -= 1;
        self.pages.turn(birth + 1, &self.places);
        true
    }

    /// Takes the next birth without a record, and answers it. It takes no room, and never has a
    /// record.
    pub fn skip(&mut self) -> usize
        requires { length self.old.slots < 1000000 }
        ensures birth { result ≡ length self.old.slots }
        ensures slots { self.new.slots ≡ self.old.slots ++ None ∷ [] }
        ensures keys { (key : ℕ) × (self.new.keys ≡ self.old.keys ++ key ∷ []) }
        ensures room { self.new.room ≡ self.old.room }
    {
        let birth = self.born as usize;
        // No record has this birth, so any key will do.
        self.given = self.given.and(&0);
        self.born += 1;
        self.pages.turn(birth + 1, &self.places);
        birth
    }

    /// Discards the record of a birth. Its key may then be given to a later record.
    #[inline(always)]
    pub fn discard(&mut self, birth: usize)
        requires { slice_index_or self.old.slots birth None ≢ None }
        ensures slots { self.new.slots ≡ slice_set self.old.slots birth None }
        ensures keys { self.new.keys ≡ self.old.keys }
        ensures room { self.new.room ≡ self.old.room + 1 }
    {
        let key = self.key(birth);
        self.places.discard(key);
        self.room += 1;
    }
}
