//! Pages with the keys of the records of one block of births each.

ghost use Rattle.std.specs.Prelude.{◌≡◌, ◌≢◌, ◌+◌, ◌-◌, ◌/◌, ◌<◌, ◌≤◌, ℕ, length, IfOk};
ghost use Rattle.std.specs.Prelude.{Option, Some, None, IsTrue, false, vec_capacity};
ghost use Rattle.sts_records.specs.Places.{filled};
ghost use Rattle.sts_records.specs.Pages.{Comes, Extends, HasPagesFor, KeepsKeys, cell_of, page_of};
ghost use Rattle.sts_records.specs.Slots.{births};

use crate::places::Places;
use std::alloc::{AllocError, Global};

/// How many births a block has. A page has as many cells.
const BLOCK: usize = 4_096;

/// How many blocks begin by the time that 1,000,000 births have come.
const BLOCKS: usize = 245;

/// How many births `BLOCKS` blocks have.
const BIRTHS: usize = 1_003_520;

/// The keys of records by birth.
///
/// Each block that has begun has a page, in which each birth has a cell. The page of a block whose
/// records are gone may be given to a later block.
#[derive(Drop)]
pub(crate) struct Pages {
    /// For each block that has begun: what is added to a birth, less `BIRTHS`, for its cell.
    offsets: [u32; BLOCKS],
    /// The cells of all pages, with the key of each birth.
    cells: Vec<u32>,
    /// How many pages there may be.
    pages: usize,
}

impl Pages {
    /// No keys, and pages for `room` records at once. No other call takes memory.
    ///
    /// # Errors
    ///
    /// Memory ran out.
    pub(crate) fn with_room(alloc: Global, room: u32) -> Result<Pages, AllocError>
        ensures keys { IfOk result (λ p. KeepsKeys p 0 (λ _. None)) }
        ensures room { IfOk result (λ p. HasPagesFor p room) }
    {
        let pages = (room as usize + 1).min(BLOCKS);
        let mut cells = Vec::with_capacity(alloc, pages * BLOCK)?;
        extend(&mut cells, BLOCK);
        Ok(Pages {
            offsets: [BIRTHS as u32; BLOCKS],
            cells,
            pages,
        })
    }

    /// The cell of a birth whose block has begun.
    #[inline(always)]
    fn cell(&self, birth: usize) -> usize
        requires { (latest : ℕ) × (at : ℕ → Option ℕ) × KeepsKeys self.now latest at
            × (birth / 4096 ≤ latest) }
        ensures value { result ≡ cell_of self.now.offsets birth }
        ensures inside { result < length self.now.cells.items }
    {
        self.offsets[birth / BLOCK] as usize + birth - BIRTHS
    }

    /// The key of the record of a birth whose block has begun. If it has none, this is any number.
    #[inline(always)]
    pub(crate) fn key(&self, birth: usize) -> usize
        requires { (latest : ℕ) × (at : ℕ → Option ℕ) × KeepsKeys self.now latest at
            × (birth / 4096 ≤ latest) }
        ensures { (latest : ℕ) (at : ℕ → Option ℕ) (key : ℕ) → KeepsKeys self.now latest at
            → at key ≡ Some birth → result ≡ key }
    {
        self.cells[self.cell(birth)] as usize
    }

    /// A birth of the latest block gets a record with this key.
    #[inline(always)]
    pub(crate) fn put(&mut self, birth: usize, key: u32)
        requires { (at : ℕ → Option ℕ) × KeepsKeys self.old (birth / 4096) at }
        ensures keys { (at after : ℕ → Option ℕ) → KeepsKeys self.old (birth / 4096) at
            → Comes at after key birth → KeepsKeys self.new (birth / 4096) after }
        ensures pages { self.new.pages ≡ self.old.pages }
    {
        let cell = self.cell(birth);
        self.cells[cell] = key;
    }

    /// So many births have come. Begins the block of the next one, if no birth of it has come.
    #[inline(always)]
    pub(crate) fn turn<T>(&mut self, born: usize, places: &Places<T>)
        requires born { (0 < born) × (born ≤ 1000000) }
        requires keys { KeepsKeys self.old ((born - 1) / 4096) (births places.now.slots) }
        requires room { HasPagesFor self.old (filled places.now) }
        ensures keys { KeepsKeys self.new (born / 4096) (births places.now.slots) }
        ensures pages { self.new.pages ≡ self.old.pages }
    {
        if born % BLOCK == 0 {
            self.begin(born / BLOCK, places);
        }
    }

    /// Begins this block, the next one. It gets a page in which no record has its cell.
    #[cold]
    #[inline(never)]
    fn begin<T>(&mut self, block: usize, places: &Places<T>)
        requires block { (0 < block) × (block < 245) }
        requires keys { KeepsKeys self.old (block - 1) (births places.now.slots) }
        requires room { HasPagesFor self.old (filled places.now) }
        ensures keys { KeepsKeys self.new block (births places.now.slots) }
        ensures pages { self.new.pages ≡ self.old.pages }
    {
        let page = if self.pages == BLOCKS {
            block
        } else {
            self.unused_page(places)
        };
        extend(&mut self.cells, page * BLOCK + BLOCK);
        self.offsets[block] = (page * BLOCK + BIRTHS - block * BLOCK) as u32;
    }

    /// The first page in which no record has its cell. There is one, since there are more pages
    /// than records.
    fn unused_page<T>(&self, places: &Places<T>) -> usize
        requires keys { (latest : ℕ) × KeepsKeys self.now latest (births places.now.slots) }
        requires room { filled places.now < self.now.pages }
        ensures few { result < self.now.pages }
        ensures unused { (key : ℕ)
            → page_of self.now.offsets (births places.now.slots key) ≢ Some result }
    {
        for page in 0..self.pages {
            if !self.is_used(places, page) {
                return page;
            }
        }
        0
    }

    /// Whether a record has its cell in this page.
    fn is_used<T>(&self, places: &Places<T>, page: usize) -> bool
        requires { (latest : ℕ) × KeepsKeys self.now latest (births places.now.slots) }
        ensures used { IsTrue result → (key : ℕ)
            × (page_of self.now.offsets (births places.now.slots key) ≡ Some page) }
        ensures unused { result ≡ false → (key : ℕ)
            → page_of self.now.offsets (births places.now.slots key) ≢ Some page }
    {
        for key in 0..places.len() {
            if let Some(birth) = places.birth(key) {
                if self.cell(birth as usize) / BLOCK == page {
                    return true;
                }
            }
        }
        false
    }
}

/// Adds cells until the list is this long.
fn extend(cells: &mut Vec<u32>, long: usize)
    requires { long ≤ vec_capacity cells.old }
    ensures long { long ≤ length cells.new.items }
    ensures kept { Extends cells.old.items cells.new.items }
    ensures capacity { vec_capacity cells.new ≡ vec_capacity cells.old }
{
    while cells.len() < long {
        cells.push_reserved(0);
    }
}
