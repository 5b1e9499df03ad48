//! The smallest table that is closed.

ghost use Rattle.std.specs.Prelude.{IfOk, IfSome};
ghost use Rattle.ends_table.specs.Led as led;

use crate::around::Around;
use crate::beginning::{first_state, root_call};
use crate::births::{Births, Steps};
use crate::check::is_closed;
use crate::fingerprints::{fingerprint, sort};
use crate::rows::ends;
use crate::stop::Stop;
use ends_known::call::hash_of;
use ends_search::index::Index;
use laws_calls::shared::Shared;
use laws_calls::table::{Call, Held, Outside, Own, Row, Seen, Way};
use std::alloc::{AllocError, Global};
use sts_code::Program;
use sts_frames::instr_at;
use sts_model::{End, Items};
use sts_same::same::Same;

/// The most states of a row.
const MOST_OF_ROW: usize = 100_000;

/// The most memory of all states, in bytes, as `size` guesses it.
const MOST_MEMORY: usize = 200_000_000;

/// A state without scopes takes this number of bytes.
const OF_STATE: usize = 1_400;

/// A scope without parts takes this number of bytes.
const OF_SCOPE: usize = 150;

/// A run of equal parts takes this number of bytes.
const OF_RUN: usize = 32;

/// The births that are left to each state of a row while the row is made.
const PLENTY: u32 = u32::MAX;

/// A row whose states are not all done.
#[derive(Drop)]
struct Open {
    call: Call,
    /// Its states in the order in which they were found.
    states: Vec<Own>,
    /// What is known of the births of those that are done.
    births: Births,
    index: Index,
    ways: Items<Way>,
    /// How many states are done.
    done: usize,
    /// The states that one step of the state leads to that is worked on, as far as they are known.
    next: Vec<Own>,
}

/// A table that is being made.
#[derive(Drop)]
struct Closing {
    /// What may come to a task from outside.
    outside: Outside,
    /// The rows that are done.
    rows: Vec<Row>,
    /// Where they are, by their calls.
    places: Index,
    /// The rows whose states are not all done. Each waits for the one behind it.
    open: Vec<Open>,
    states: usize,
    memory: usize,
}

/// About how many bytes a scope takes. Those of parts that another scope shares count only once.
fn size_of(seen: &Seen) -> usize {
    if seen.parts.is_shared() {
        return OF_SCOPE;
    }
    let runs = seen.parts.runs().len().saturating_mul(OF_RUN);
    runs.saturating_add(OF_SCOPE)
}

/// About how many bytes a state takes.
fn size(own: &Own) -> usize {
    let mut size = OF_STATE;
    for seen in own.scopes.as_slice() {
        size = size.saturating_add(size_of(seen));
    }
    size
}

impl Open {
    /// The row of a call, with no state.
    fn new(alloc: Global, call: Call) -> Result<Open, AllocError> {
        let index = Index::new(alloc)?;
        Ok(Open {
            call,
            states: Vec::new(alloc),
            births: Births::new(alloc),
            index,
            ways: Items::new(alloc),
            done: 0,
            next: Vec::new(alloc),
        })
    }

    /// Adds the call's first state, with this in slot 0.
    fn add_first(&mut self, alloc: Global, first: Held) -> Result<(), Stop> {
        let own = first_state(alloc, &self.call, first, PLENTY)?;
        self.add(alloc, own)?;
        Ok(())
    }

    fn is_at(&self, place: usize, own: &Own) -> bool {
        match self.states.get(place) {
            Some(there) => there.is_like(own),
            None => false,
        }
    }

    /// Where the state is in the row.
    fn place_of(&self, own: &Own, print: u64) -> Option<usize> {
        let mut place = self.index.first(print);
        for _ in 0..self.states.len() {
            if place >= self.states.len() {
                return None;
            }
            if self.is_at(place, own) {
                return Some(place);
            }
            place = self.index.behind(place, print);
        }
        None
    }

    /// Adds a state.
    fn push(&mut self, alloc: Global, own: Own, print: u64) -> Result<(), AllocError> {
        let mut state = own;
        state.left = PLENTY;
        self.states.push(state)?;
        self.index.add(alloc, print)?;
        Ok(())
    }

    /// Adds a state, unless it is in the row. Returns its place, and the memory that it takes.
    fn add(&mut self, alloc: Global, own: Own) -> Result<(usize, usize), Stop> {
        let print = fingerprint(&own);
        if let Some(place) = self.place_of(&own, print) {
            return Ok((place, 0));
        }
        let place = self.states.len();
        if place >= MOST_OF_ROW {
            return Err(Stop::Unknown);
        }
        let size = size(&own);
        self.push(alloc, own, print)?;
        Ok((place, size))
    }

    /// Adds the states that the state leads to by these births. The state is done then.
    /// Returns the memory that they take.
    fn pass(&mut self, alloc: Global, born: u32) -> Result<usize, Stop> {
        let mut next = Vec::new(alloc);
        std::mem::swap(&mut next, &mut self.next);
        let mut memory: usize = 0;
        let mut steps = Steps::new(alloc, born);
        for own in next {
            let (place, size) = self.add(alloc, own)?;
            memory = memory.saturating_add(size);
            steps.push(place)?;
        }
        self.births.push(steps)?;
        self.done = self.done.saturating_add(1);
        Ok(memory)
    }

    /// Keeps a state that the state leads to.
    fn push_next(&mut self, own: Own) -> Result<(), AllocError> {
        let mut state = own;
        state.left = 0;
        self.next.push(state)?;
        Ok(())
    }

    /// Adds a state that the state leads to.
    fn lead_to_one(&mut self, own: Own) -> Result<(), AllocError> {
        self.push_next(own)?;
        sort(&mut self.next)
    }

    /// Adds states that the state leads to.
    fn lead_to(&mut self, states: Vec<Own>) -> Result<(), AllocError> {
        for own in states {
            self.push_next(own)?;
        }
        sort(&mut self.next)
    }

    /// The births by the steps of a state. The error has what is missing.
    fn look(
        &self,
        alloc: Global,
        program: &Program,
        outside: Outside,
        rows: &[Row],
        places: &Index,
        own: &Own,
    ) -> Result<u32, Stop> {
        let Some(instr) = instr_at(program, &own.frame) else {
            return Ok(0);
        };
        let around = Around {
            program,
            outside,
            table: rows,
            places,
            call: &self.call,
            states: self.next.as_slice(),
            own,
        };
        around.starts(alloc, instr)?;
        around.steps(alloc, instr)?;
        ends(self.ways.as_slice(), own, instr)?;
        around.born_by(alloc, instr)
    }

    /// The row, with its states in order.
    fn row(self, alloc: Global) -> Result<Row, Stop> {
        let left = self.births.left(alloc)?;
        Ok(row_of(alloc, self.call, self.states, self.ways, left.as_slice())?)
    }
}

/// The row of a call, with its states in order. These births are left to each of them.
fn row_of(
    alloc: Global,
    call: Call,
    states: Vec<Own>,
    ways: Items<Way>,
    left: &[u32],
) -> Result<Row, AllocError> {
    let states = in_order(alloc, states, left)?;
    let ways = Shared::new(alloc, ways)?;
    Ok(Row {
        call,
        births: left.first().copied().unwrap_or(0),
        states,
        ways,
    })
}

/// The states in order, each with the births that are left to it.
fn in_order(alloc: Global, states: Vec<Own>, left: &[u32]) -> Result<Items<Own>, AllocError> {
    let mut found = counted(alloc, states, left)?;
    sort(&mut found)?;
    listed(alloc, found)
}

/// The states, each with the births that are left to it.
fn counted(alloc: Global, states: Vec<Own>, left: &[u32]) -> Result<Vec<Own>, AllocError> {
    let mut found = Vec::new(alloc);
    let mut place: usize = 0;
    for own in states {
        let mut state = own;
        state.left = left.get(place).copied().unwrap_or(0);
        found.push(state)?;
        place = place.saturating_add(1);
    }
    Ok(found)
}

/// The states as a list that grows.
fn listed(alloc: Global, states: Vec<Own>) -> Result<Items<Own>, AllocError> {
    let mut list = Items::new(alloc);
    for own in states {
        list.push(own)?;
    }
    Ok(list)
}

/// What a look at the innermost open row found.
#[derive(Drop)]
enum Look {
    /// All its states are done.
    Done,
    /// The state has no other step. The number is that of the births by its steps.
    Passed(u32),
    /// Something is missing.
    Lacks(Stop),
}

impl Closing {
    /// Opens a row.
    fn push_open(&mut self, open: Open) -> Result<(), AllocError> {
        self.open.push(open)?;
        Ok(())
    }

    /// Begins with another call.
    fn begin(&mut self, alloc: Global, call: Call, first: Held) -> Result<(), Stop> {
        let mut open = Open::new(alloc, call)?;
        open.add_first(alloc, first)?;
        Ok(self.push_open(open)?)
    }

    /// Looks at a state of the innermost open row.
    fn look(&self, alloc: Global, program: &Program) -> Look {
        let Some(top) = self.open.last() else {
            return Look::Done;
        };
        let Some(own) = top.states.get(top.done) else {
            return Look::Done;
        };
        match top.look(
            alloc,
            program,
            self.outside,
            self.rows.as_slice(),
            &self.places,
            own,
        ) {
            Ok(born) => Look::Passed(born),
            Err(stop) => Look::Lacks(stop),
        }
    }

    /// Keeps a row.
    fn push_row(&mut self, alloc: Global, row: Row) -> Result<(), AllocError> {
        self.places.add(alloc, hash_of(&row.call))?;
        self.rows.push(row)?;
        Ok(())
    }

    /// Keeps the innermost open row, which is done.
    fn keep(&mut self, alloc: Global) -> Result<(), Stop> {
        if let Some(open) = self.open.pop() {
            self.states = self.states.saturating_add(open.states.len());
            self.push_row(alloc, open.row(alloc)?)?;
        }
        Ok(())
    }

    /// One state more is done.
    fn pass(&mut self, alloc: Global, born: u32) -> Result<(), Stop> {
        if let Some(top) = self.open.last_mut() {
            let memory = top.pass(alloc, born)?;
            self.memory = self.memory.saturating_add(memory);
        }
        if self.memory > MOST_MEMORY {
            return Err(Stop::Unknown);
        }
        Ok(())
    }

    /// Adds what is missing.
    fn mend(&mut self, alloc: Global, stop: Stop) -> Result<(), Stop> {
        if let Stop::Call(call) = stop {
            return self.begin(alloc, call, Held::Lent);
        }
        let Some(top) = self.open.last_mut() else {
            return Ok(());
        };
        match stop {
            Stop::State(own) => top.lead_to_one(own)?,
            Stop::States(states) => top.lead_to(states)?,
            Stop::Way(end) => top.ways.push(Way { end })?,
            other => return Err(other),
        }
        Ok(())
    }

    /// Works on a state of the innermost open row.
    fn advance(&mut self, alloc: Global, program: &Program) -> Result<(), Stop> {
        match self.look(alloc, program) {
            Look::Done => self.keep(alloc),
            Look::Passed(born) => self.pass(alloc, born),
            Look::Lacks(stop) => self.mend(alloc, stop),
        }
    }

    /// How many states were found.
    fn count(&self) -> usize {
        match self.open.last() {
            Some(top) => self.states.saturating_add(top.states.len()),
            None => self.states,
        }
    }
}

/// The rows of the smallest table that is closed, or that it has too many states, or steps that
/// can't be listed.
fn table_of(
    alloc: Global,
    program: &Program,
    outside: Outside,
    most: usize,
) -> Result<Vec<Row>, Stop> {
    let mut closing = Closing {
        outside,
        rows: Vec::new(alloc),
        places: Index::new(alloc)?,
        open: Vec::new(alloc),
        states: 0,
        memory: 0,
    };
    closing.begin(alloc, root_call(alloc, program)?, Held::Empty)?;
    for _ in 0..u64::MAX {
        if closing.open.is_empty() {
            break;
        }
        if closing.count() > most {
            return Err(Stop::Unknown);
        }
        closing.advance(alloc, program)?;
    }
    let mut rows = closing.rows;
    let count = rows.len();
    if count > 0 {
        rows.swap(0, count - 1);
    }
    Ok(rows)
}

/// A table of a program that is closed, if this may come to a task from outside. Its first row is
/// the root's. `None` if it has more than `most` states, or a row more than 100,000, or if it takes
/// too much memory, or if some instruction's steps can't be listed.
///
/// # Errors
///
/// Memory ran out.
pub fn closed_table(
    alloc: Global,
    program: &Program,
    outside: Outside,
    most: usize,
) -> Result<Option<Vec<Row>>, AllocError>
    ensures { IfOk result
        (λ table. IfSome table (λ rows. led.IsClosed program.now outside rows.items)) }
{
    let rows = match table_of(alloc, program, outside, most) {
        Ok(rows) => rows,
        Err(Stop::NoMemory(error)) => return Err(error),
        Err(_) => return Ok(None),
    };
    if is_closed(alloc, program, outside, rows.as_slice())? {
        Ok(Some(rows))
    } else {
        Ok(None)
    }
}
