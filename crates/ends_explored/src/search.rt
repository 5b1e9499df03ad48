//! The search: each call is explored once, by itself.

use crate::begin::{first_state, root_call};
use crate::next::{Around, Outcome, Step};
use crate::steps::followed;
use ends_known::call::{Way, number};
use ends_known::outside::Outside;
use ends_known::own::Own;
use ends_known::table::{Explored, Label, Node, Table};
use ends_search::index::Index;
use laws_calls::table::Call;
use std::alloc::{AllocError, Global};
use sts_code::Program;
use sts_model::End;

/// A call whose states are being found.
#[derive(Drop)]
struct Exploring {
    explored: Explored,
    index: Index,
    /// The places of the states that wait, by the interrupts that they took.
    waiting: Vec<Vec<u32>>,
}

/// A search so far.
#[derive(Drop)]
pub struct Search {
    pub table: Table,
    /// The calls that are being explored. Each waits for the one behind it.
    stack: Vec<Exploring>,
    pub outside: Outside,
    /// How many states were found.
    pub states: usize,
    /// Could each instruction be done, with no more totals of a scope than the search keeps?
    is_fine: bool,
}

fn empty_lists(alloc: Global, interrupts: u32) -> Result<Vec<Vec<u32>>, AllocError> {
    let mut lists = Vec::new(alloc);
    for _ in 0..u64::from(interrupts) + 1 {
        lists.push(Vec::new(alloc))?;
    }
    Ok(lists)
}

impl Exploring {
    /// A call of which no state was found.
    fn new(alloc: Global, interrupts: u32, call: Call) -> Result<Exploring, AllocError> {
        let index = Index::new(alloc)?;
        let waiting = empty_lists(alloc, interrupts)?;
        Ok(Exploring {
            explored: Explored {
                call,
                nodes: Vec::new(alloc),
                ways: Vec::new(alloc),
            },
            index,
            waiting,
        })
    }

    /// Adds the first state of the call.
    fn add_first(&mut self, alloc: Global, is_root: bool) -> Result<(), AllocError> {
        let first = first_state(alloc, &self.explored.call, is_root);
        let hash = first.hash();
        self.push(alloc, first, hash, None, Label::Plain)
    }

    /// Lets a state wait.
    fn wait(&mut self, used: u32, place: u32) -> Result<(), AllocError> {
        if let Some(list) = self.waiting.get_mut(used as usize) {
            list.push(place)?;
        }
        Ok(())
    }

    /// Adds a state that is not there.
    fn push(
        &mut self,
        alloc: Global,
        own: Own,
        hash: u64,
        before: Option<u32>,
        label: Label,
    ) -> Result<(), AllocError> {
        let place = number(self.explored.nodes.len());
        let used = own.used;
        self.explored.nodes.push(Node {
            own,
            before,
            label,
            is_done: false,
        })?;
        self.index.add(alloc, hash)?;
        self.wait(used, place)
    }

    fn is_at(&self, place: usize, own: &Own) -> bool {
        match self.explored.nodes.get(place) {
            Some(node) => node.own.is_same(own),
            None => false,
        }
    }

    /// The place of a state that differs at most by the interrupts that it took.
    fn find(&self, own: &Own, hash: u64) -> Option<usize> {
        let mut place = self.index.first(hash);
        for _ in 0..self.explored.nodes.len() {
            if place >= self.explored.nodes.len() {
                return None;
            }
            if self.is_at(place, own) {
                return Some(place);
            }
            place = self.index.behind(place, hash);
        }
        None
    }

    /// Is the state at a place not done, and did it take more interrupts than these?
    fn is_dearer(&self, place: usize, used: u32) -> bool {
        match self.explored.nodes.get(place) {
            Some(node) => !node.is_done && used < node.own.used,
            None => false,
        }
    }

    /// Puts a state in the place of another one.
    fn replace(&mut self, place: usize, step: Step, before: u32) {
        if let Some(node) = self.explored.nodes.get_mut(place) {
            node.own = step.own;
            node.before = Some(before);
            node.label = step.label;
        }
    }

    /// Puts a state in the place of one that took more interrupts.
    fn improve(&mut self, place: usize, step: Step, before: u32) -> Result<(), AllocError> {
        let used = step.own.used;
        if !self.is_dearer(place, used) {
            return Ok(());
        }
        self.replace(place, step, before);
        self.wait(used, number(place))
    }

    /// Adds a state, and returns whether it is new.
    fn add(&mut self, alloc: Global, step: Step, before: u32) -> Result<bool, AllocError> {
        let hash = step.own.hash();
        match self.find(&step.own, hash) {
            Some(place) => {
                self.improve(place, step, before)?;
                Ok(false)
            }
            None => {
                self.push(alloc, step.own, hash, Some(before), step.label)?;
                Ok(true)
            }
        }
    }

    /// Adds the states after one, and returns how many are new.
    fn add_all(
        &mut self,
        alloc: Global,
        steps: Vec<Step>,
        before: u32,
    ) -> Result<usize, AllocError> {
        let mut count: usize = 0;
        for step in steps {
            if self.add(alloc, step, before)? {
                count = count.saturating_add(1);
            }
        }
        Ok(count)
    }

    /// Takes the place of a state that waits and took the fewest interrupts.
    fn take(&mut self) -> Option<u32> {
        for used in 0..self.waiting.len() {
            if let Some(list) = self.waiting.get_mut(used) {
                if let Some(place) = list.pop() {
                    return Some(place);
                }
            }
        }
        None
    }

    /// Marks a state as done. Returns whether it was not.
    fn finish(&mut self, place: u32) -> bool {
        match self.explored.nodes.get_mut(place as usize) {
            Some(node) if !node.is_done => {
                node.is_done = true;
                true
            }
            _ => false,
        }
    }

    /// Lets a state wait again.
    fn wait_again(&mut self, place: u32) -> Result<(), AllocError> {
        let mut used: u32 = 0;
        if let Some(node) = self.explored.nodes.get_mut(place as usize) {
            node.is_done = false;
            used = node.own.used;
        }
        self.wait(used, place)
    }

    /// Adds an end of the call, unless it was found before, for no more interrupts.
    fn end(&mut self, place: u32, end: End) -> Result<(), AllocError> {
        if self.explored.ways.iter().any(|way| way.end == end) {
            return Ok(());
        }
        let cost = match self.explored.nodes.get(place as usize) {
            Some(node) => node.own.used,
            None => 0,
        };
        self.explored.ways.push(Way { end, cost, place })?;
        Ok(())
    }
}

impl Search {
    /// A search that has found the first state.
    pub fn begin(alloc: Global, program: &Program, outside: Outside) -> Result<Search, AllocError> {
        let mut search = Search {
            table: Table::new(alloc)?,
            stack: Vec::new(alloc),
            outside,
            states: 0,
            is_fine: true,
        };
        search.ask(alloc, root_call(alloc, program), true)?;
        Ok(search)
    }

    /// Was each state expanded?
    pub fn is_closed(&self) -> bool {
        self.is_fine && self.stack.is_empty()
    }

    /// The root's call, as far as it was explored.
    pub fn root(&self) -> Option<&Explored> {
        match self.stack.first() {
            Some(exploring) => Some(&exploring.explored),
            None => self.table.calls.last(),
        }
    }

    /// Keeps the innermost call, all of whose states were found.
    fn keep(&mut self, alloc: Global) -> Result<(), AllocError> {
        match self.stack.pop() {
            Some(done) => self.table.add(alloc, done.explored),
            None => Ok(()),
        }
    }

    /// Begins with another call.
    fn ask(&mut self, alloc: Global, call: Call, is_root: bool) -> Result<(), AllocError> {
        let mut exploring = Exploring::new(alloc, self.outside.interrupts, call)?;
        exploring.add_first(alloc, is_root)?;
        self.stack.push(exploring)?;
        self.states = self.states.saturating_add(1);
        Ok(())
    }

    /// What comes of a state of the innermost call.
    fn outcome(&self, alloc: Global, program: &Program, place: u32) -> Result<Outcome, AllocError> {
        let Some(top) = self.stack.last() else {
            return Ok(Outcome::Breaks);
        };
        let Some(node) = top.explored.nodes.get(place as usize) else {
            return Ok(Outcome::Breaks);
        };
        let around = Around {
            program,
            outside: self.outside,
            table: &self.table,
            call: &top.explored.call,
        };
        followed(alloc, around, &node.own)
    }

    /// Adds the states after one of the innermost call.
    fn add_all(&mut self, alloc: Global, place: u32, steps: Vec<Step>) -> Result<(), AllocError> {
        let Some(top) = self.stack.last_mut() else {
            return Ok(());
        };
        let count = top.add_all(alloc, steps, place)?;
        self.states = self.states.saturating_add(count);
        Ok(())
    }

    /// Lets a state of the innermost call wait for another call.
    fn wait_for(&mut self, alloc: Global, place: u32, call: Call) -> Result<(), AllocError> {
        if let Some(top) = self.stack.last_mut() {
            top.wait_again(place)?;
        }
        self.ask(alloc, call, false)
    }

    /// Adds an end of the innermost call.
    fn end(&mut self, place: u32, end: End) -> Result<(), AllocError> {
        match self.stack.last_mut() {
            Some(top) => top.end(place, end),
            None => Ok(()),
        }
    }

    /// Goes on with what comes of a state.
    fn follow(&mut self, alloc: Global, place: u32, outcome: Outcome) -> Result<(), AllocError> {
        match outcome {
            Outcome::Ends(end) => self.end(place, end),
            Outcome::Goes(steps) => self.add_all(alloc, place, steps),
            Outcome::Asks(call) => self.wait_for(alloc, place, call),
            Outcome::Breaks => {
                self.is_fine = false;
                Ok(())
            }
        }
    }

    /// Takes a state of the innermost call that waits, if one does.
    fn take(&mut self) -> Option<u32> {
        self.stack.last_mut()?.take()
    }

    /// Marks a state of the innermost call as done. Returns whether it was not.
    fn finish(&mut self, place: u32) -> bool {
        match self.stack.last_mut() {
            Some(top) => top.finish(place),
            None => false,
        }
    }

    /// Expands one state.
    fn advance(&mut self, alloc: Global, program: &Program) -> Result<(), AllocError> {
        let Some(place) = self.take() else {
            return self.keep(alloc);
        };
        if !self.finish(place) {
            return Ok(());
        }
        let outcome = self.outcome(alloc, program, place)?;
        self.follow(alloc, place, outcome)
    }
}

/// A search that has expanded each state, unless it found more than `most` of them.
pub fn explored(
    alloc: Global,
    program: &Program,
    outside: Outside,
    most: usize,
) -> Result<Search, AllocError> {
    let mut search = Search::begin(alloc, program, outside)?;
    for _ in 0..u64::MAX {
        if search.stack.is_empty() || !search.is_fine || search.states > most {
            break;
        }
        search.advance(alloc, program)?;
    }
    Ok(search)
}
