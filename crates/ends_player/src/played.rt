//! A task on its way to an end, as a trace plays it.

use crate::aim::{Aim, Role, restricted};
use crate::basis::Basis;
use crate::early::{Early, early_cancel, way_at};
use ends_known::call::{Way, number};
use ends_known::part::part_at;
use ends_known::pick::pick;
use ends_known::seen::Seen;
use ends_known::table::{Explored, Label, Node, Table};
use laws_calls::joiners::is_trigger;
use laws_calls::table::Knowledge;
use std::alloc::{AllocError, Global};
use sts_code::Joiner;
use sts_model::End;

/// A subtask that was forked.
#[derive(Clone, Copy)]
pub struct Forked {
    /// Its birth number.
    pub birth: u32,
    /// Was it played?
    pub is_played: bool,
}

/// A scope of a task that is being played.
#[derive(Drop)]
pub struct PlayedScope {
    /// Its birth number.
    pub birth: u32,
    /// How many steps its owner took before it opened the scope.
    pub opened: usize,
    pub forks: Vec<Forked>,
    /// The way of each subtask that ends before a cancel.
    pub ways: Vec<Option<u32>>,
    /// The subtask that fails first, if that matters.
    pub first: Option<u32>,
    /// The subtask that the run is about, if it is one of this scope.
    pub aim: Option<Aim>,
    /// The cancel that comes before its owner sees it, until it comes.
    pub early: Option<Early>,
    /// Is the scope to expire before the next step?
    pub is_due: bool,
    /// Has it expired before its owner sees that?
    pub is_late: bool,
}

/// A scope that the next step opens, as its owner knows it before its close. It has its place among
/// the open ones, the number of steps before its close, and how many interrupts its owner took by then.
#[derive(Clone, Copy)]
struct Opened<'t> {
    place: u32,
    close: usize,
    scope: &'t Seen,
    used: u32,
}

/// A task that is to be played up to the end of one of its call's ways.
#[derive(Clone, Copy)]
pub struct Start {
    /// The number of its call, or `None` for the root's.
    pub call: Option<u32>,
    pub way: u32,
    pub birth: u32,
}

/// Tasks that are to be played. It remembers whether there was memory for each.
#[derive(Drop)]
pub struct Starts {
    starts: Vec<Start>,
    /// Was there no memory for one of them?
    pub lacks_memory: bool,
}

impl Starts {
    /// No tasks.
    fn new(alloc: Global) -> Starts {
        Starts {
            starts: Vec::new(alloc),
            lacks_memory: false,
        }
    }

    /// Adds a task.
    fn push(&mut self, start: Start) {
        if self.starts.push(start).is_err() {
            self.lacks_memory = true;
        }
    }

    /// Takes the last task.
    pub fn pop(&mut self) -> Option<Start> {
        self.starts.pop()
    }

    fn reverse(&mut self) {
        self.starts.reverse();
    }

    /// Is no task left that is to be played?
    pub fn is_empty(&self) -> bool {
        self.starts.is_empty()
    }
}

/// A task that is being played.
#[derive(Drop)]
pub struct Played {
    /// The number of its call, or `None` for the root's.
    pub call: Option<u32>,
    pub birth: u32,
    /// The places of the states on the way, the first one first.
    pub path: Vec<u32>,
    /// How many steps of the way were taken.
    pub at: usize,
    pub scopes: Vec<PlayedScope>,
    /// The subtasks that have to be played before the next step, the first one last.
    pub waiting: Starts,
    /// Is it known which those are?
    pub is_ready: bool,
    /// The subtask that the run is about, if it is one of this task.
    pub aim: Option<Aim>,
}

/// The places of the states that lead to one, the first one first.
fn path_to(alloc: Global, nodes: &[Node], place: u32) -> Result<Vec<u32>, AllocError> {
    let mut path = Vec::new(alloc);
    let mut next = Some(place);
    for _ in 0..nodes.len() {
        let Some(here) = next else {
            break;
        };
        path.push(here)?;
        next = match nodes.get(here as usize) {
            Some(node) => node.before,
            None => None,
        };
    }
    path.reverse();
    Ok(path)
}

/// The end of a way.
pub fn end_of(ways: &[Way], way: Option<u32>) -> Option<End> {
    match way {
        None => None,
        Some(way) => ways.get(way as usize).map(|way| way.end),
    }
}

impl Played {
    /// A task that has taken no step.
    pub fn begin(
        alloc: Global,
        explored: &Explored,
        start: Start,
    ) -> Result<Option<Played>, AllocError> {
        let Some(way) = explored.ways.get(start.way as usize) else {
            return Ok(None);
        };
        let played = Played::towards(alloc, explored, start.call, start.birth, way.place, None)?;
        Ok(Some(played))
    }

    /// A task on its way to the state at a place, before its first step.
    pub fn towards(
        alloc: Global,
        explored: &Explored,
        call: Option<u32>,
        birth: u32,
        place: u32,
        aim: Option<Aim>,
    ) -> Result<Played, AllocError> {
        Ok(Played {
            call,
            birth,
            path: path_to(alloc, explored.nodes.as_slice(), place)?,
            at: 0,
            scopes: Vec::new(alloc),
            waiting: Starts::new(alloc),
            is_ready: false,
            aim,
        })
    }

    /// Were all steps but the last taken?
    pub fn is_at_end(&self) -> bool {
        self.at.saturating_add(1) >= self.path.len()
    }

    /// The state on the way after this number of steps.
    pub fn node<'t>(&self, explored: &'t Explored, at: usize) -> Option<&'t Node> {
        let place = self.path.get(at).copied()?;
        explored.nodes.get(place as usize)
    }

    /// The state before the next step.
    pub fn before<'t>(&self, explored: &'t Explored) -> Option<&'t Node> {
        self.node(explored, self.at)
    }

    /// The state after the next step.
    pub fn after<'t>(&self, explored: &'t Explored) -> Option<&'t Node> {
        self.node(explored, self.at.saturating_add(1))
    }

    /// The number of steps before the one that closes the scope at a place.
    fn closing(&self, explored: &Explored, place: u32) -> Option<usize> {
        for at in self.at.saturating_add(1)..self.path.len() {
            let next = self.node(explored, at.saturating_add(1))?;
            if next.own.scopes.len() <= place as usize {
                return Some(at);
            }
        }
        None
    }

    /// The number of steps before the one that closes the scope at a place. The way of a task with
    /// an aim may be over before that: then it is the number of all its steps.
    fn closing_or_last(&self, explored: &Explored, place: u32) -> Option<usize> {
        let close = self.closing(explored, place);
        if close.is_none() && self.aim.is_some() {
            return Some(self.path.len().saturating_sub(1));
        }
        close
    }

    /// The subtask that the run is about, if it is one of the scope at a place that is closed by the
    /// last step, or by none.
    fn aim_in(&self, place: u32, close: usize) -> Option<Aim> {
        let aim = self.aim?;
        if aim.scope == place && close.saturating_add(2) >= self.path.len() {
            Some(aim)
        } else {
            None
        }
    }

    /// The subtask that fails first in the scope at a place, if the way up to its close shows one.
    fn first_failed(&self, explored: &Explored, place: u32, close: usize) -> Option<u32> {
        for at in self.at..close.saturating_add(1) {
            let node = self.node(explored, at)?;
            if let Label::First { scope, part } = node.label {
                if scope == place {
                    return Some(part);
                }
            }
        }
        None
    }

    /// The scope that the next step opens, as its owner knows it before its close.
    fn opened<'t>(&self, explored: &'t Explored) -> Option<Opened<'t>> {
        let place = number(self.before(explored)?.own.scopes.len());
        let close = self.closing_or_last(explored, place)?;
        let last = self.node(explored, close)?;
        Some(Opened {
            place,
            close,
            scope: last.own.scope(place)?,
            used: last.own.used,
        })
    }

    /// The scope that the next step opens. It has this birth number. Its cancel comes as early as it can,
    /// if the run hurries.
    pub fn opening(
        &self,
        alloc: Global,
        basis: &Basis<'_>,
        explored: &Explored,
        birth: u32,
        hurries: bool,
    ) -> Result<Option<PlayedScope>, AllocError> {
        let Some(opened) = self.opened(explored) else {
            return Ok(None);
        };
        let aim = self.aim_in(opened.place, opened.close);
        let Some(ways) = opened.picked(alloc, basis, aim)? else {
            return Ok(None);
        };
        let early = if hurries {
            early_cancel(self, explored, opened.place, opened.close, ways.as_slice())
        } else {
            None
        };
        Ok(Some(PlayedScope {
            birth,
            opened: self.at,
            forks: Vec::new(alloc),
            ways,
            first: self.first_failed(explored, opened.place, opened.close),
            aim,
            early,
            is_due: false,
            is_late: false,
        }))
    }

    /// Notes the scope that the next step opens. Returns whether there is one.
    pub fn open(
        &mut self,
        alloc: Global,
        basis: &Basis<'_>,
        explored: &Explored,
        birth: u32,
        hurries: bool,
    ) -> Result<bool, AllocError> {
        match self.opening(alloc, basis, explored, birth, hurries)? {
            Some(scope) => {
                self.scopes.push(scope)?;
                Ok(true)
            }
            None => Ok(false),
        }
    }

    /// Notes the subtask that the next step forks in the scope at a place.
    pub fn fork(&mut self, place: u32, birth: u32) -> Result<(), AllocError> {
        if let Some(scope) = self.scopes.get_mut(place as usize) {
            scope.forks.push(Forked {
                birth,
                is_played: false,
            })?;
        }
        Ok(())
    }

    /// The birth number of a subtask, by the place of its scope and its place there.
    pub fn born_in(&self, scope: u32, part: u32) -> Option<u32> {
        self.scopes.get(scope as usize)?.birth_of(part)
    }
}

impl<'t> Opened<'t> {
    /// The ways of its subtasks, if the run is about this one of them.
    fn picked(
        &self,
        alloc: Global,
        basis: &Basis<'_>,
        aim: Option<Aim>,
    ) -> Result<Option<Vec<Option<u32>>>, AllocError> {
        let left = basis.outside.interrupts.saturating_sub(self.used);
        let scope = restricted(alloc, self.scope, aim)?;
        pick(alloc, basis.table, &scope, left)
    }
}

impl Played {
    /// The place of the scope whose cancel comes before the next step, though its owner sees it later.
    pub fn due(&self) -> Option<usize> {
        self.scopes
            .iter()
            .position(|scope| scope.is_cancelled_at(self.at))
    }

    /// The scope at a place, as its owner knows it after this number of steps.
    fn seen<'t>(&self, explored: &'t Explored, steps: usize, place: usize) -> Option<&'t Seen> {
        self.node(explored, steps)?.own.scope(number(place))
    }

    /// Notes what comes up to the cancel of the scope at a place: the subtasks that end heard, and an
    /// expiry, if the scope expires.
    pub fn cancel(&mut self, table: &Table, explored: &Explored, place: usize) {
        let Some(early) = self.scopes.get(place).and_then(|scope| scope.early) else {
            return;
        };
        let Some(seen) = self.seen(explored, early.look, place) else {
            return;
        };
        if let Some(scope) = self.scopes.get_mut(place) {
            scope.early = None;
            scope.is_due = early.expires;
            scope.push_all(table, seen, &mut self.waiting);
        }
        self.waiting.reverse();
    }

    /// Notes the subtasks that end before a look at the scope at a place. The look shows the scope as it
    /// is afterwards, and it may be at one subtask.
    pub fn look(
        &mut self,
        table: &Table,
        before: &Seen,
        after: &Seen,
        place: u32,
        child: Option<u32>,
    ) {
        if let Some(scope) = self.scopes.get_mut(place as usize) {
            scope.push_starts(table, before, after, child, &mut self.waiting);
        }
        self.waiting.reverse();
    }

    /// Notes the subtask that the run is about, if it ends heard and wasn't played before its scope is
    /// closed by the next step.
    pub fn close(&mut self, explored: &Explored) {
        let Some(node) = self.before(explored) else {
            return;
        };
        let (Some(seen), Some(scope)) = (node.own.scopes.last(), self.scopes.last_mut()) else {
            return;
        };
        scope.push_aim(seen, &mut self.waiting);
    }

    /// The scope that expires before the next step, though its owner sees it later.
    pub fn expiring(&mut self) -> Option<u32> {
        for scope in self.scopes.iter_mut() {
            if scope.is_due {
                scope.is_due = false;
                scope.is_late = true;
                return Some(scope.birth);
            }
        }
        None
    }
}

impl PlayedScope {
    /// Does its cancel come after this number of steps of its owner?
    pub fn is_cancelled_at(&self, steps: usize) -> bool {
        match self.early {
            Some(early) => early.is_due(steps, self.forks.len()),
            None => false,
        }
    }

    /// The way of a subtask, if the joiner is told of it.
    fn way(&self, child: u32) -> Option<u32> {
        way_at(self.ways.as_slice(), child)
    }

    /// Adds the birth numbers of the subtasks that were forked and that nobody hears.
    pub fn push_unheard(&self, found: &mut Vec<u32>) -> Result<(), AllocError> {
        for (child, fork) in self.forks.as_slice().iter().enumerate() {
            if self.way(number(child)).is_none() {
                found.push(fork.birth)?;
            }
        }
        Ok(())
    }

    /// The birth number of a subtask.
    fn birth_of(&self, child: u32) -> Option<u32> {
        self.forks.get(child as usize).map(|fork| fork.birth)
    }

    /// Notes that a subtask is played. Returns whether it wasn't before.
    fn note(&mut self, child: u32) -> bool {
        match self.forks.get_mut(child as usize) {
            Some(fork) if !fork.is_played => {
                fork.is_played = true;
                true
            }
            _ => false,
        }
    }

    /// A subtask on its way, if its end is heard.
    fn start_of(&self, scope: &Seen, child: u32) -> Option<Start> {
        let part = part_at(scope.runs.as_slice(), child)?;
        let way = self.way(child)?;
        let birth = self.birth_of(child)?;
        Some(Start {
            call: part.call,
            way,
            birth,
        })
    }

    /// Adds a subtask to those that are to be played, if its end is heard and it wasn't played yet.
    fn push(&mut self, scope: &Seen, child: u32, starts: &mut Starts) {
        if let Some(start) = self.start_of(scope, child) {
            if self.note(child) {
                starts.push(start);
            }
        }
    }

    /// Does the end of a subtask count towards a cancel?
    fn is_trigger(&self, table: &Table, scope: &Seen, child: u32) -> bool {
        let Some(part) = part_at(scope.runs.as_slice(), child) else {
            return false;
        };
        match end_of(table.ways_of(part), self.way(child)) {
            Some(end) => is_trigger(scope.facts.joiner, end),
            None => false,
        }
    }

    /// Adds the subtasks that end heard and whose ends count towards a cancel, or the others.
    fn push_those(&mut self, table: &Table, scope: &Seen, triggers: bool, starts: &mut Starts) {
        for child in 0..number(self.forks.len()) {
            if self.way(child).is_some() && self.is_trigger(table, scope, child) == triggers {
                self.push(scope, child, starts);
            }
        }
    }

    /// Adds the one that fails first, if that matters.
    fn push_first(&mut self, scope: &Seen, starts: &mut Starts) {
        if let Some(first) = self.first {
            self.push(scope, first, starts);
        }
    }

    /// Adds the subtasks that end heard before the owner sees that the scope is cancelled or heard.
    fn push_all(&mut self, table: &Table, scope: &Seen, starts: &mut Starts) {
        self.push_first(scope, starts);
        self.push_those(table, scope, false, starts);
        self.push_those(table, scope, true, starts);
    }

    /// Adds the subtask that the run is about, if it ends heard and wasn't played.
    fn push_aim(&mut self, scope: &Seen, starts: &mut Starts) {
        if let Some(aim) = self.aim {
            if matches!(aim.role, Role::Heard(_)) {
                self.push(scope, aim.part, starts);
            }
        }
    }

    /// The subtask that was forked last and what the run makes of it, if the run is about it.
    pub fn aimed(&self) -> Option<(u32, Role)> {
        let aim = self.aim?;
        if number(self.forks.len()) == aim.part.saturating_add(1) {
            Some((self.birth_of(aim.part)?, aim.role))
        } else {
            None
        }
    }

    /// Does a subtask end heard by a failure?
    fn fails(&self, table: &Table, scope: &Seen, child: u32) -> bool {
        match part_at(scope.runs.as_slice(), child) {
            Some(part) => matches!(
                end_of(table.ways_of(part), self.way(child)),
                Some(End::Failed(_))
            ),
            None => false,
        }
    }

    /// Adds the subtasks that end before the owner sees that this one has.
    fn push_child(&mut self, table: &Table, scope: &Seen, child: u32, starts: &mut Starts) {
        let is_any = matches!(scope.facts.joiner, Joiner::AnySucceeds);
        if is_any && !scope.facts.has_failure && self.fails(table, scope, child) {
            self.push_first(scope, starts);
        }
        self.push(scope, child, starts);
    }

    /// Adds the subtasks that end before a look of their owner, the first one first. The look shows
    /// the scope as it is afterwards, and it may be at one subtask.
    fn push_starts(
        &mut self,
        table: &Table,
        before: &Seen,
        after: &Seen,
        child: Option<u32>,
        starts: &mut Starts,
    ) {
        if before.facts.knowledge != Knowledge::Unseen {
            return;
        }
        if after.facts.knowledge != Knowledge::Unseen {
            return self.push_all(table, before, starts);
        }
        match child {
            Some(child) if hears(before, after, child) => {
                self.push_child(table, before, child, starts)
            }
            _ => {}
        }
    }
}

/// Does the owner see that this subtask has ended?
fn hears(before: &Seen, after: &Seen, child: u32) -> bool {
    match (
        part_at(before.runs.as_slice(), child),
        part_at(after.runs.as_slice(), child),
    ) {
        (Some(before), Some(after)) => before.is_open && !after.is_open,
        _ => false,
    }
}
