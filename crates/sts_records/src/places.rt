//! Records at keys. A key is given again once its record is discarded.

ghost use Rattle.std.specs.Prelude.{◌≡◌, ◌≢◌, ◌+◌, ◌<◌, ◌≤◌, [], length, IfOk, IfSome, OnSome};
ghost use Rattle.std.specs.Prelude.{true, false};
ghost use Rattle.std.specs.Prelude.{Option, Some, None, IfNone, IsSome, option_copied, vec_capacity};
ghost use Rattle.std.specs.Borrow.{Lends, sem};
ghost use Rattle.std.specs.contracts.option.Option.{the_row};
ghost use Rattle.sts_records.specs.Cells.{AreWhole, Lays, slots_of};
ghost use Rattle.sts_records.specs.Places.{Entry, HasRoomFor, Updates, filled, get};
ghost use Rattle.sts_records.specs.Slots.{body_of, births};

use slab::Slab;
use std::alloc::{AllocError, Global};
use std::marker::Model;

/// How many keys of 32 bits there are. That is more than any room has.
const KEYS: usize = 4_294_967_296;

/// The place of a record. Once the record is discarded, its body stays until another one is written
/// over it.
#[derive(Drop)]
pub(crate) struct Cell<T> {
    /// The birth of the record, if there is one.
    birth: Option<u32>,
    /// The body that lies here, if the place was ever used.
    body: Option<T>,
}

/// Records with their births, at keys. Contracts see a list by key, with a hole for each key
/// without a record.
#[derive(Drop)]
pub(crate) struct Places<T> {
    /// Gives the keys. It has the key of each record.
    keys: Slab<()>,
    /// The cell of each key.
    cells: Vec<Cell<T>>,
}

impl<T> Model for Places<T> {
    ghost use Rattle.std.specs.Prelude.{vec_capacity};
    ghost use Rattle.sts_records.specs.Places.{Places as Slots, places_code};

    ghost Value = { Slots T };

    ghost coded = { places_code T.code };

    ghost use Rattle.sts_records.specs.Cells.{AreWhole, IsSound, slots_of};

    ghost view = { λ p. record {
      slots = slots_of p.cells.items;
      capacity = p.keys.capacity;
    } };

    ghost invariant = { λ p. IsSound p.keys (slots_of p.cells.items) (vec_capacity p.cells)
        × AreWhole p.cells.items };
}

impl<T> Places<T> {
    /// How many keys were given.
    pub(crate) fn len(&self) -> usize
        ensures { result ≡ length self.now.slots }
    {
        self.cells.len()
    }

    /// The birth of the record at a key, if there is a record.
    pub(crate) fn birth(&self, key: usize) -> Option<u32>
        ensures { result ≡ births self.now.slots key }
    {
        match self.cells.get(key) {
            Some(cell) => cell.birth,
            None => None,
        }
    }
}

impl<T: Drop> Places<T> {
    ghost use Rattle.sts_records.specs.PlaceLends.{lends_body};

    /// No records, and room for so many. No other call takes memory.
    ///
    /// # Errors
    ///
    /// Memory ran out.
    pub(crate) fn with_room(alloc: Global, room: u32) -> Result<Places<T>, AllocError>
        ensures slots { IfOk result (λ p. p.slots ≡ []) }
        ensures capacity { IfOk result (λ p. room ≤ p.capacity) }
    {
        let keys = Slab::with_capacity(alloc, room as usize)?;
        // (a slab reserves no more than it is asked for, but no contract says so)
        if keys.capacity() >= KEYS {
            return Err(AllocError);
        }
        let cells = Vec::with_capacity(alloc, keys.capacity())?;
        Ok(Places { keys, cells })
    }

    /// The record at a key, if it is that of this birth.
    #[inline(always)]
    pub(crate) fn get(&self, key: usize, birth: u32) -> Option<&T>
        ensures { option_copied result ≡ body_of birth (get self.now key) }
    {
        match self.cells.get(key) {
            Some(cell) if cell.birth == Some(birth) => Some(body_in(cell)),
            _ => None,
        }
    }

    /// The record at a key. It must exist.
    #[inline(always)]
    pub(crate) fn record(&self, key: usize) -> &T
        requires { get self.now key ≢ None }
        ensures { (e : Entry T) → get self.now key ≡ Some e → result.now ≡ e.body }
    {
        body_in(&self.cells[key])
    }

    /// The record at a key, for writing. It must exist.
    #[inline(always)]
    pub(crate) fn at(&mut self, key: usize) -> &mut T
        requires { get self.old key ≢ None }
        ensures* writes_back { sem 𝓛 (lends_body T.row self.entry key result) }
        ensures value { (e : Entry T) → get self.old key ≡ Some e → result.now ≡ e.body }
    {
        some_mut(&mut self.cells[key].body)
    }

    /// Puts the record of a birth at a key that has none, and answers that key.
    #[inline(always)]
    pub(crate) fn insert(&mut self, birth: u32, body: T) -> u32
        requires { HasRoomFor self.old 1 }
        ensures was_vacant { get self.old result ≡ None }
        ensures updates { Updates self.old self.new result
            (Some (record { birth = birth; body = body })) }
        ensures filled { filled self.new ≡ filled self.old + 1 }
        ensures capacity { self.new.capacity ≡ self.old.capacity }
    {
        let key = self.keys.insert_reserved(());
        put(&mut self.cells, key, birth, body);
        key as u32
    }

    /// Makes a discarded record that of a birth, and answers its key, or `None` where no discarded
    /// record lies.
    #[inline(always)]
    pub(crate) fn reuse(&mut self, birth: u32) -> Option<u32>
        requires { HasRoomFor self.old 1 }
        ensures none { IfNone result (self.new ≡ self.old) }
        ensures was_vacant { IfSome result (λ key. get self.old key ≡ None) }
        ensures updates { IfSome result (λ key. (body : T) × Updates self.old self.new key
            (Some (record { birth = birth; body = body }))) }
        ensures filled { OnSome result (filled self.new ≡ filled self.old + 1) }
        ensures capacity { self.new.capacity ≡ self.old.capacity }
    {
        let key = self.keys.vacant_key();
        if !revive(&mut self.cells, key, birth) {
            return None;
        }
        self.keys.insert_reserved(());
        Some(key as u32)
    }

    /// Discards the record at a key. It must exist.
    #[inline(always)]
    pub(crate) fn discard(&mut self, key: usize)
        requires { get self.old key ≢ None }
        ensures updates { Updates self.old self.new key None }
        ensures filled { filled self.new + 1 ≡ filled self.old }
        ensures capacity { self.new.capacity ≡ self.old.capacity }
    {
        self.cells[key].birth = None;
        self.keys.remove(key);
    }
}

/// The body in a cell. It must exist.
#[inline(always)]
fn body_in<T>(cell: &Cell<T>) -> &T
    requires { cell.now.body ≢ None }
    ensures { cell.now.body ≡ Some result.now }
{
    match &cell.body {
        Some(body) => body,
        None => unreachable!(),
    }
}

/// What lies there, for writing. It must exist.
#[inline(always)]
fn some_mut<T>(body: &mut Option<T>) -> &mut T
    requires { IsSome body.old }
    ensures* writes_back { sem 𝓛 (Lends (the_row T.row) T.row body.entry result Some) }
    ensures value { body.old ≡ Some result.now }
{
    match body {
        Some(body) => body,
        None => unreachable!(),
    }
}

/// Makes the body that lies in the cell of a key the record of a birth. Answers whether one lies
/// there.
#[inline(always)]
fn revive<T>(cells: &mut Vec<Cell<T>>, key: usize, birth: u32) -> bool
    ensures none { result ≡ false → cells.new ≡ cells.old }
    ensures lays { result ≡ true → (body : T) × Lays (slots_of cells.old.items)
        (slots_of cells.new.items) key (record { birth = birth; body = body }) }
    ensures whole { AreWhole cells.old.items → AreWhole cells.new.items }
    ensures capacity { vec_capacity cells.new ≡ vec_capacity cells.old }
{
    if key >= cells.len() {
        return false;
    }
    if cells[key].body.is_none() {
        return false;
    }
    cells[key].birth = Some(birth);
    true
}

/// Puts a record into the cell of a key, over the body that lies there, if any.
#[inline(always)]
fn put<T: Drop>(cells: &mut Vec<Cell<T>>, key: usize, birth: u32, body: T)
    requires { key < vec_capacity cells.old }
    ensures lays { Lays (slots_of cells.old.items) (slots_of cells.new.items) key
        (record { birth = birth; body = body }) }
    ensures whole { AreWhole cells.old.items → AreWhole cells.new.items }
    ensures capacity { vec_capacity cells.new ≡ vec_capacity cells.old }
{
    let cell = Cell {
        birth: Some(birth),
        body: Some(body),
    };
    if key < cells.len() {
        cells[key] = cell;
        return;
    }
    while cells.len() < key {
        cells.push_reserved(Cell {
            birth: None,
            body: None,
        });
    }
    cells.push_reserved(cell);
}
