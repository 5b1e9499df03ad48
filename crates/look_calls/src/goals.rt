//! Where each call is forked, and what may come of its task.

use ends_known::call::number;
use ends_known::own::Own;
use ends_known::part::{Part, count_parts};
use ends_known::pick::some_fits;
use ends_known::seen::Seen;
use ends_known::table::{Explored, Table};
use ends_player::aim::{Aim, Leg, Role, with_role};
use laws_calls::table::Knowledge;
use std::alloc::{AllocError, Global};

/// The task of a call, which the task of a leg forks. A run is about it.
#[derive(Clone, Copy)]
pub struct Goal {
    pub call: u32,
    pub leg: Leg,
}

/// What was found of a call.
#[derive(Drop)]
struct Chances {
    /// The first leg that leads into it.
    entry: Option<Leg>,
    /// For each of its ways, the first leg after which it ends so.
    heard: Vec<Option<Leg>>,
    /// The first leg after which its end isn't heard.
    unheard: Option<Leg>,
}

/// What was found of each call of a table.
#[derive(Drop)]
pub struct Goals {
    chances: Vec<Chances>,
}

/// A table whose states are looked at, and what was found so far.
#[derive(Drop)]
struct Finding<'a> {
    alloc: Global,
    table: &'a Table,
    /// How many interrupts may come.
    interrupts: u32,
    goals: Goals,
}

/// A close of a scope: the scope before it, its place among the open ones, and how many interrupts
/// are left.
#[derive(Drop)]
struct Closing<'t> {
    scope: &'t Seen,
    place: u32,
    left: u32,
}

/// No legs for a number of ways.
fn no_legs(alloc: Global, ways: usize) -> Result<Vec<Option<Leg>>, AllocError> {
    let mut legs = Vec::new(alloc);
    for _ in 0..ways {
        legs.push(None)?;
    }
    Ok(legs)
}

/// The close that led to the state at a place, if one did.
fn close_before<'t>(explored: &'t Explored, place: usize, interrupts: u32) -> Option<Closing<'t>> {
    let node = explored.nodes.get(place)?;
    let before = explored.nodes.get(node.before? as usize)?;
    if before.own.scopes.len() <= node.own.scopes.len() {
        return None;
    }
    Some(Closing {
        scope: before.own.scopes.last()?,
        place: number(before.own.scopes.len().saturating_sub(1)),
        left: interrupts.saturating_sub(before.own.used),
    })
}

/// The call that a scope forked last, and its place in the scope, if its end wasn't seen.
fn forked_last(scope: &Seen) -> Option<(u32, u32)> {
    let last = scope.runs.last()?;
    let call = last.part.call?;
    if scope.facts.knowledge == Knowledge::Unseen && last.part.is_open {
        Some((call, count_parts(scope.runs.as_slice()).saturating_sub(1)))
    } else {
        None
    }
}

impl Chances {
    /// Nothing was found of a call with this number of ways.
    fn none(alloc: Global, ways: usize) -> Result<Chances, AllocError> {
        Ok(Chances {
            entry: None,
            heard: no_legs(alloc, ways)?,
            unheard: None,
        })
    }

    /// Was a leg found after which the call ends by this way?
    fn has_way(&self, way: u32) -> bool {
        match self.heard.get(way as usize) {
            Some(leg) => leg.is_some(),
            None => true,
        }
    }

    /// Adds the goals for a call.
    fn push_goals(&self, call: u32, goals: &mut Vec<Goal>) -> Result<(), AllocError> {
        for leg in self.heard.as_slice() {
            if let Some(leg) = *leg {
                goals.push(Goal { call, leg })?;
            }
        }
        if let Some(leg) = self.unheard {
            goals.push(Goal { call, leg })?;
        }
        Ok(())
    }
}

impl Goals {
    /// Nothing was found.
    fn none(alloc: Global, table: &Table) -> Result<Goals, AllocError> {
        let mut chances = Vec::new(alloc);
        for explored in table.calls.as_slice() {
            chances.push(Chances::none(alloc, explored.ways.len())?)?;
        }
        Ok(Goals { chances })
    }

    /// The first leg that leads into a call.
    fn entry(&self, call: u32) -> Option<Leg> {
        match self.chances.get(call as usize) {
            Some(chances) => chances.entry,
            None => None,
        }
    }

    /// Notes a leg that leads into a call, unless there is one.
    fn note_entry(&mut self, call: u32, leg: Leg) {
        if let Some(chances) = self.chances.get_mut(call as usize) {
            if chances.entry.is_none() {
                chances.entry = Some(leg);
            }
        }
    }

    /// Notes the calls that this state of a task has forked last.
    fn note_forks(&mut self, own: &Own, call: Option<u32>, place: u32) {
        let mut scope: u32 = 0;
        for seen in own.scopes.as_slice() {
            if let Some((forked, part)) = forked_last(seen) {
                let aim = Aim {
                    scope,
                    part,
                    role: Role::Entered,
                };
                self.note_entry(forked, Leg { call, place, aim });
            }
            scope = scope.saturating_add(1);
        }
    }

    /// Notes what comes of a subtask, unless a leg for that is there.
    fn note(&mut self, forked: u32, leg: Leg) {
        let Some(chances) = self.chances.get_mut(forked as usize) else {
            return;
        };
        match leg.aim.role {
            Role::Entered => {}
            Role::Heard(way) => {
                if let Some(there) = chances.heard.get_mut(way as usize) {
                    if there.is_none() {
                        *there = Some(leg);
                    }
                }
            }
            Role::Unheard => {
                if chances.unheard.is_none() {
                    chances.unheard = Some(leg);
                }
            }
        }
    }

    /// Was a leg found after which this comes of a call?
    fn has(&self, forked: u32, role: Role) -> bool {
        let Some(chances) = self.chances.get(forked as usize) else {
            return true;
        };
        match role {
            Role::Entered => true,
            Role::Heard(way) => chances.has_way(way),
            Role::Unheard => chances.unheard.is_some(),
        }
    }

    /// What a table and the root's call show of each call. A call is forked only by calls that are
    /// behind it in the table, and by the root's.
    pub fn find(
        alloc: Global,
        table: &Table,
        root: &Explored,
        interrupts: u32,
    ) -> Result<Goals, AllocError> {
        let mut finding = Finding {
            alloc,
            table,
            interrupts,
            goals: Goals::none(alloc, table)?,
        };
        finding.visit(root, None)?;
        for place in (0..table.calls.len()).rev() {
            let call = number(place);
            if finding.goals.entry(call).is_some() {
                if let Some(explored) = table.calls.get(place) {
                    finding.visit(explored, Some(call))?;
                }
            }
        }
        Ok(finding.goals)
    }

    /// The goals, call by call.
    pub fn all(&self, alloc: Global) -> Result<Vec<Goal>, AllocError> {
        let mut goals = Vec::new(alloc);
        let mut call: u32 = 0;
        for chances in self.chances.as_slice() {
            chances.push_goals(call, &mut goals)?;
            call = call.saturating_add(1);
        }
        Ok(goals)
    }

    /// The legs that lead to a goal, the root's last.
    pub fn legs(&self, alloc: Global, goal: Goal) -> Result<Vec<Leg>, AllocError> {
        let mut legs = Vec::new(alloc);
        let mut next = Some(goal.leg);
        for _ in 0..self.chances.len().saturating_add(1) {
            let Some(leg) = next else {
                break;
            };
            legs.push(leg)?;
            next = match leg.call {
                Some(call) => self.entry(call),
                None => None,
            };
        }
        Ok(legs)
    }
}

impl<'a> Finding<'a> {
    /// Notes that this may come of a subtask at the close of its scope, if it may.
    fn try_role(&mut self, close: &Closing<'_>, forked: u32, leg: Leg) -> Result<(), AllocError> {
        if self.goals.has(forked, leg.aim.role) {
            return Ok(());
        }
        let scope = with_role(self.alloc, close.scope, leg.aim.part, leg.aim.role)?;
        if some_fits(self.alloc, self.table, &scope, close.left)? {
            self.goals.note(forked, leg);
        }
        Ok(())
    }

    /// Notes what may have come of a part at the close of its scope.
    fn note_part(&mut self, close: &Closing<'_>, part: Part, leg: Leg) -> Result<(), AllocError> {
        let Some(forked) = part.call else {
            return Ok(());
        };
        let table = self.table;
        let mut way: u32 = 0;
        for it in table.ways_of(part) {
            if part.filter.allows(close.scope.facts.joiner, way, it.end) {
                self.try_role(close, forked, with(leg, Role::Heard(way)))?;
            }
            way = way.saturating_add(1);
        }
        if part.is_open {
            self.try_role(close, forked, with(leg, Role::Unheard))?;
        }
        Ok(())
    }

    /// Notes what may have come of the subtasks of a scope at its close.
    fn note_close(
        &mut self,
        close: &Closing<'_>,
        call: Option<u32>,
        place: u32,
    ) -> Result<(), AllocError> {
        let mut part: u32 = 0;
        for run in close.scope.runs.as_slice() {
            let aim = Aim {
                scope: close.place,
                part,
                role: Role::Entered,
            };
            let leg = Leg { call, place, aim };
            self.note_part(close, run.part, leg)?;
            part = part.saturating_add(run.count);
        }
        Ok(())
    }

    /// Notes what the states of a task lead to.
    fn visit(&mut self, explored: &Explored, call: Option<u32>) -> Result<(), AllocError> {
        for place in 0..explored.nodes.len() {
            if let Some(node) = explored.nodes.get(place) {
                self.goals.note_forks(&node.own, call, number(place));
            }
            if let Some(close) = close_before(explored, place, self.interrupts) {
                self.note_close(&close, call, number(place))?;
            }
        }
        Ok(())
    }
}

/// The leg, with another role of its subtask.
fn with(leg: Leg, role: Role) -> Leg {
    Leg {
        aim: Aim { role, ..leg.aim },
        ..leg
    }
}
