//! A book with the outside that it asks.

ghost use Rattle.std.specs.Prelude.{◌≡◌, ◌+◌, ◌<◌, [], IfSome, is_some, false, true};
ghost use Rattle.sts_pool.specs.Asked.{HasGiven};
ghost use Rattle.sts_pool.specs.Book.{IsJournal, is_free};

use crate::book::{Book, OutsideFull};
use crate::gate::Outside;
use std::marker::{Brand, Model, PhantomData};
use sts_code::MAX_OUTSIDE;
use sts_machine::{Slice, Turned};
use sts_model::End;

/// The program of a run, whether its journal is written, and its outside: each call of `run` picks
/// its own.
pub(crate) trait Runs<O> {
    ghost use Rattle.std.specs.Prelude.{Bool, Option};
    ghost use Rattle.sts_code.specs.Program.{Program};

    ghost program: { Program };

    ghost is_written: { Bool };

    ghost outside: { Option O };
}

impl<O> Runs<O> for Brand {
    ghost use Rattle.std.specs.Prelude.{[], None, false};
    ghost use Rattle.sts_pool.specs.Book.{no_program};

    ghost program = { no_program };

    ghost is_written = { false };

    ghost outside = { None };
}

/// A book, and the outside that it asks. Contracts see it as its book. Its type keeps that the book
/// is of the picked program, and that the picked outside gave the interrupts and expiries of the
/// journal.
///
/// It also notes of each of them whether it counted. And it notes whether the outside has no event to
/// give: it had none when it was asked last, or the book is full, and no entry has come since.
#[derive(Drop)]
pub(crate) struct Asked<'p, O: Outside, B: Runs<O>> {
    book: Book<'p>,
    outside: O,
    counted: Vec<bool>,
    is_spent: bool,
    of: PhantomData<B>,
}

impl<'p, O: Outside, B: Runs<O>> Model for Asked<'p, O, B> {
    ghost use Rattle.sts_pool.specs.Asked.{IsAsked};
    ghost use Rattle.sts_pool.specs.Book.{BookSeen};

    ghost Value = { BookSeen };

    ghost view = { λ a. a.book };

    ghost invariant = { λ a. IsAsked O.gives B.program B.is_written B.outside
        a.book a.outside a.is_spent };
}

impl<'p, O: Outside, B: Runs<O>> Asked<'p, O, B> {
    /// A book before the first event, and an outside that was not asked yet. `counted` is empty,
    /// and has room for the limit of outside events.
    pub(crate) fn new(book: Book<'p>, outside: O, counted: Vec<bool>) -> Asked<'p, O, B>
        requires program { book.program ≡ B.program }
        requires written { is_some book.journal ≡ B.is_written }
        requires opening { IsJournal book [] }
        requires outside { IfSome B.outside (λ o. o ≡ outside) }
    {
        Asked {
            book,
            outside,
            counted,
            is_spent: false,
            of: PhantomData,
        }
    }

    /// Records the next event from outside, if one is due and the book isn't full. Answers whether
    /// it did.
    #[inline(always)]
    pub(crate) fn records_next(&mut self) -> bool
        ensures given { result ≡ false → HasGiven O.gives B.outside self.new }
        ensures room { result ≡ true → self.old.outside < MAX_OUTSIDE }
        ensures more { result ≡ true → self.new.outside ≡ self.old.outside + 1 }
        ensures none { result ≡ false → self.new ≡ self.old }
    {
        if self.book.is_full() {
            self.is_spent = true;
            return false;
        }
        let entries = self.book.entries();
        let Some(event) = self.outside.next(entries) else {
            self.is_spent = true;
            return false;
        };
        self.is_spent = false;
        match self.book.outside(event) {
            Ok(turned) => {
                let _has_room = self.counted.push(turned == Turned::Stepped);
                true
            }
            Err(OutsideFull) => unreachable!(),
        }
    }

    /// Records the events from outside that are due, until there is none or the book is full.
    /// Answers whether there was one.
    #[inline(always)]
    pub(crate) fn ask(&mut self) -> bool
        ensures given { HasGiven O.gives B.outside self.new }
        ensures none { result ≡ false → self.new ≡ self.old }
    {
        if !self.records_next() {
            return false;
        }
        self.ask_on();
        true
    }

    /// Goes on with that after the first event.
    #[inline(never)]
    fn ask_on(&mut self)
        ensures { HasGiven O.gives B.outside self.new }
    {
        while self.records_next() {}
    }

    /// Asks like `ask`, but only if an entry has come since the last question.
    fn ask_at_the_end(&mut self)
        ensures { HasGiven O.gives B.outside self.new }
    {
        if self.is_spent {
            return;
        }
        self.ask();
    }

    /// Takes a step of a task that can step and isn't out, and records it. Then asks. Answers
    /// whether the task can step after that.
    #[inline(always)]
    fn turn(&mut self, task: u32) -> bool
        requires { is_free self.old task ≡ true }
        ensures { result ≡ true → is_free self.new task ≡ true }
    {
        self.is_spent = false;
        if !self.book.step(task) {
            return false;
        }
        if self.ask() {
            return self.book.is_at_hand(task);
        }
        true
    }

    /// Takes up to `most` steps of a task, as long as it can step and isn't out, and records them.
    /// Asks before each. Answers whether it took all and the task can step.
    #[inline(always)]
    pub(crate) fn turns(&mut self, task: u32, most: u32) -> bool {
        self.ask();
        if !self.book.is_at_hand(task) {
            return false;
        }
        for _ in 0..most {
            if !self.turn(task) {
                return false;
            }
        }
        true
    }

    /// Does local steps of a task that isn't out, and records them. Answers how many.
    #[inline(always)]
    pub(crate) fn run_here(&mut self, task: u32, limit: u32) -> u32 {
        self.is_spent = false;
        self.book.run_here(task, limit)
    }

    /// Claims a task that can step and isn't out.
    pub(crate) fn claim(&mut self) -> Option<u32> {
        self.book.claim()
    }

    /// Ends a claim.
    pub(crate) fn release(&mut self, task: u32) {
        self.book.release(task);
    }

    /// Takes a slice back, and records its steps. Answers whether it was this book's.
    pub(crate) fn take_in(&mut self, slice: &Slice<'p>) -> bool {
        self.is_spent = false;
        self.book.take_in(slice)
    }

    /// Takes the slice of this task, if it can step and isn't out.
    pub(crate) fn lend(&mut self, task: u32) -> Option<Slice<'p>> {
        self.book.lend(task)
    }

    /// The book.
    pub(crate) fn book(&self) -> &Book<'p> {
        &self.book
    }
}

impl<'p, O: Outside + Drop, B: Runs<O>> Asked<'p, O, B> {
    /// The book, and which of the events from outside counted. The outside has no further event to
    /// give. It is asked for one only if an entry has come since it had none.
    pub(crate) fn close(self) -> (Book<'p>, Vec<bool>)
        ensures program { result.0.program ≡ B.program }
        ensures written { is_some result.0.journal ≡ B.is_written }
        ensures given { HasGiven O.gives B.outside result.0 }
    {
        let mut asked = self;
        asked.ask_at_the_end();
        let Asked { book, counted, .. } = asked;
        (book, counted)
    }
}
