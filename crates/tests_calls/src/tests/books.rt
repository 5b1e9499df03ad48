//! Two books, act by act: what each answers, and what it has recorded at the end.

use super::journals::one_by_one;
use super::rows::compare;
use super::texts::{SEVEN, TIMED, TURNS, accepted};
use std::alloc::Global;
use std::process::Abort;
use sts_machine::Turned::{Idle, Stepped};
use sts_machine::{Slice, Turned};
use sts_model::Event::{Expire, Interrupt, Step};
use sts_model::{End, Event};
use sts_pool::Book;
use sts_verify::Verified;

/// Which of the two books.
#[derive(Clone, Copy)]
enum Which {
    First,
    Second,
}

/// A call on a book, and its answer.
#[derive(Clone, Copy)]
enum Act {
    /// This many turns of a task, each with this effect.
    Turns(u32, u32, Turned),
    /// An interrupt or an expiry, this many times, each with this effect. Or the book is full.
    Tells(Event, u32, Option<Turned>),
    /// A slice is taken out, and this is its task, if there is one.
    Out(Option<u32>),
    /// The slice that is out does local instructions, at most the first number. The second number
    /// of them were done.
    Local(u32, u32),
    /// The slice that was taken out of the book is given back to it: whether the book takes it.
    In(bool),
    /// The slice that was taken out of the other book is given to it: whether the book takes it.
    Strange(bool),
}

/// A book, and the slice that was taken out of it last.
#[derive(Drop)]
struct Desk<'p> {
    book: Book<'p>,
    slice: Option<Slice<'p>>,
}

/// How a book's root has ended, and its journal: each event with how often it comes in a row.
struct Record(Option<End>, &'static [(Event, u32)]);

/// The texts of two books, the calls on them in turn, and what they have recorded then.
struct Row {
    name: &'static str,
    texts: (&'static str, &'static str),
    acts: &'static [(Which, Act)],
    first: Record,
    second: Record,
}

const NOTHING: Record = Record(None, &[]);

/// A row of calls on its first book alone.
macro_rules! alone {
    ($name:expr, $text:expr, [$($act:expr,)*], $record:expr) => {
        Row {
            name: $name,
            texts: ($text, SEVEN),
            acts: &[$((Which::First, $act),)*],
            first: $record,
            second: NOTHING,
        }
    };
}

/// Calls on the first book. Then a slice is out of each book, is given to the other, and is given
/// back.
macro_rules! swapped {
    ($($act:expr),*) => {
        &[
            $((Which::First, $act),)*
            (Which::First, Act::Out(Some(0))),
            (Which::Second, Act::Out(Some(0))),
            (Which::First, Act::Strange(false)),
            (Which::Second, Act::Strange(false)),
            (Which::First, Act::In(true)),
            (Which::Second, Act::In(true)),
        ]
    };
}

static ROWS: [Row; 7] = [
    alone!(
        "a full book",
        SEVEN,
        [
            Act::Tells(Interrupt(77), 4096, Some(Idle)),
            Act::Tells(Interrupt(0), 1, None),
            Act::Tells(Expire(0), 1, None),
            Act::Turns(0, 2, Stepped),
        ],
        Record(
            Some(End::Success(7)),
            &[(Interrupt(77), 4096), (Step(0), 2)],
        )
    ),
    alone!(
        "a task that is out takes an interrupt and no turn",
        SEVEN,
        [
            Act::Out(Some(0)),
            Act::Out(None),
            Act::Turns(0, 1, Idle),
            Act::Tells(Interrupt(0), 1, Some(Stepped)),
            Act::Local(0, 0),
            Act::Local(5, 1),
            Act::In(true),
            Act::Turns(0, 1, Stepped),
        ],
        Record(Some(End::Success(7)), &[(Interrupt(0), 1), (Step(0), 2)])
    ),
    alone!(
        "a scope expires while a subtask of it is out",
        TIMED,
        [
            Act::Turns(0, 2, Stepped),
            Act::Out(Some(1)),
            Act::Local(9, 1),
            Act::Tells(Expire(0), 1, Some(Stepped)),
            Act::In(true),
            Act::Turns(1, 1, Stepped),
            Act::Turns(0, 4, Stepped),
        ],
        Record(
            Some(End::Success(2)),
            &[(Step(0), 2), (Expire(0), 1), (Step(1), 2), (Step(0), 4)],
        )
    ),
    alone!(
        "a task that waits, and tasks and scopes unborn, ended and closed",
        TIMED,
        [
            Act::Turns(0, 2, Stepped),
            Act::Turns(0, 1, Idle),
            Act::Turns(9, 1, Idle),
            Act::Tells(Interrupt(9), 1, Some(Idle)),
            Act::Tells(Expire(4), 1, Some(Idle)),
            Act::Turns(1, 2, Stepped),
            Act::Tells(Interrupt(1), 1, Some(Idle)),
            Act::Turns(1, 1, Idle),
            Act::Turns(0, 2, Stepped),
            Act::Tells(Expire(0), 1, Some(Idle)),
            Act::Turns(0, 2, Stepped),
            Act::Tells(Interrupt(0), 1, Some(Idle)),
            Act::Turns(0, 1, Idle),
        ],
        Record(
            Some(End::Success(1)),
            &[
                (Step(0), 2),
                (Interrupt(9), 1),
                (Expire(4), 1),
                (Step(1), 2),
                (Interrupt(1), 1),
                (Step(0), 2),
                (Expire(0), 1),
                (Step(0), 2),
                (Interrupt(0), 1),
            ],
        )
    ),
    Row {
        name: "a slice of the other book is taken where the task is out at the same frame",
        texts: (SEVEN, SEVEN),
        acts: &[
            (Which::First, Act::Out(Some(0))),
            (Which::First, Act::Local(9, 1)),
            (Which::Second, Act::Strange(false)),
            (Which::Second, Act::Out(Some(0))),
            (Which::Second, Act::Strange(true)),
            (Which::Second, Act::In(false)),
            (Which::Second, Act::Turns(0, 1, Stepped)),
            (Which::Second, Act::In(false)),
            (Which::First, Act::Turns(0, 1, Idle)),
        ],
        first: NOTHING,
        second: Record(Some(End::Success(7)), &[(Step(0), 2)]),
    },
    Row {
        name: "a slice of another program",
        texts: (SEVEN, TURNS),
        acts: swapped![],
        first: NOTHING,
        second: NOTHING,
    },
    Row {
        name: "a slice at another frame of the same program",
        texts: (SEVEN, SEVEN),
        acts: swapped![Act::Turns(0, 1, Stepped)],
        first: Record(None, &[(Step(0), 1)]),
        second: NOTHING,
    },
];

/// Takes turns of a task, and returns whether each has this effect.
fn turns(book: &mut Book<'_>, task: u32, times: u32, effect: Turned) -> bool {
    for _ in 0..times {
        if book.turn(task) != effect {
            return false;
        }
    }
    true
}

/// Gives an event that is no step, and returns whether it has this effect each time.
fn tells(book: &mut Book<'_>, event: Event, times: u32, effect: Option<Turned>) -> bool {
    if matches!(event, Step(_)) {
        return false;
    }
    for _ in 0..times {
        if book.outside(event).ok() != effect {
            return false;
        }
    }
    true
}

/// Takes a slice out, if there is one, and returns its task.
fn takes_out(desk: &mut Desk<'_>) -> Option<u32> {
    let slice = desk.book.check_out()?;
    let task = slice.task();
    desk.slice = Some(slice);
    Some(task)
}

/// Gives the slice back that is there, and returns whether the book takes it or not as expected. What
/// it doesn't take stays there.
fn gives_back<'p>(book: &mut Book<'p>, from: &mut Option<Slice<'p>>, taken: bool) -> bool {
    let Some(slice) = from.take() else {
        return false;
    };
    match book.check_in(slice) {
        Ok(()) => taken,
        Err(stranger) => {
            *from = Some(stranger.slice);
            !taken
        }
    }
}

/// Does an act on the first of two books, and returns whether the answer is the one that it has.
fn does<'p>(desk: &mut Desk<'p>, other: &mut Desk<'p>, act: Act) -> bool {
    match act {
        Act::Turns(task, times, effect) => turns(&mut desk.book, task, times, effect),
        Act::Tells(event, times, effect) => tells(&mut desk.book, event, times, effect),
        Act::Out(task) => takes_out(desk) == task,
        Act::Local(limit, count) => match &mut desk.slice {
            Some(slice) => slice.run_local(limit) == count,
            None => false,
        },
        Act::In(taken) => gives_back(&mut desk.book, &mut desk.slice, taken),
        Act::Strange(taken) => gives_back(&mut desk.book, &mut other.slice, taken),
    }
}

/// Does the acts of a row in turn, and returns the place of the first whose answer is another one.
fn first_wrong<'p>(
    first: &mut Desk<'p>,
    second: &mut Desk<'p>,
    acts: &[(Which, Act)],
) -> Option<usize> {
    for (i, (which, act)) in acts.iter().enumerate() {
        let is_right = match which {
            Which::First => does(first, second, *act),
            Which::Second => does(second, first, *act),
        };
        if !is_right {
            return Some(i);
        }
    }
    None
}

/// Returns whether a book has recorded this end and these events.
fn has_recorded<R: Abort>(rt: &R, alloc: Global, book: &Book<'_>, record: &Record) -> bool {
    let journal = one_by_one(rt, alloc, record.1);
    book.root_end() == record.0 && book.journal() == journal.as_slice()
}

fn start<'p, R: Abort>(rt: &R, alloc: Global, verified: &'p Verified) -> Desk<'p> {
    Desk {
        book: Book::start(alloc, verified).expect(rt, "a book"),
        slice: None,
    }
}

/// Does the acts of a row with two books. Returns the place of the first act whose answer is another
/// one, and whether each book has recorded what it should.
fn plays<'p, R: Abort>(
    rt: &R,
    alloc: Global,
    row: &Row,
    first: &mut Desk<'p>,
    second: &mut Desk<'p>,
) -> (Option<usize>, bool, bool) {
    let wrong = first_wrong(first, second, row.acts);
    let has_first = has_recorded(rt, alloc, &first.book, &row.first);
    (
        wrong,
        has_first,
        has_recorded(rt, alloc, &second.book, &row.second),
    )
}

/// Does the same with this book, and with one of this program.
fn plays_beside<'p, R: Abort>(
    rt: &R,
    alloc: Global,
    row: &Row,
    first: &mut Desk<'p>,
    other: &'p Verified,
) -> (Option<usize>, bool, bool) {
    let mut second = start(rt, alloc, other);
    plays(rt, alloc, row, first, &mut second)
}

/// Does the same with a book of each of these programs.
fn plays_both<'p, R: Abort>(
    rt: &R,
    alloc: Global,
    row: &Row,
    one: &'p Verified,
    other: &'p Verified,
) -> (Option<usize>, bool, bool) {
    let mut first = start(rt, alloc, one);
    plays_beside(rt, alloc, row, &mut first, other)
}

#[test]
fn books_answer_and_record(rt: HostRuntime) {
    for row in &ROWS {
        let one = accepted(&rt, rt.alloc(), row.texts.0);
        let other = accepted(&rt, rt.alloc(), row.texts.1);
        let found = plays_both(&rt, rt.alloc(), row, &one, &other);
        compare(&rt, row.name, found, (None, true, true));
    }
}
