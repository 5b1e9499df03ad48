//! The runs that are tried, one after the other. Nothing is promised of them.

use crate::goals::{Goal, Goals};
use crate::runs::{Run, made};
use ends_explored::search::Search;
use ends_known::table::Explored;
use ends_plain::config::Setting;
use ends_player::aim::{FirstSteps, Role};
use ends_player::basis::Basis;
use ends_player::player::Player;
use std::alloc::{AllocError, Global};

/// Runs are made as long as those before cost no more than this number of events.
const MOST_EVENTS: usize = 16_000_000;

/// A run has no more events than this.
const MOST_EVENTS_OF_A_RUN: usize = 1_000_000;

/// A task whose end isn't heard takes fewer than this number of events before its owner goes on.
const MOST_FIRST_EVENTS: usize = 200;

/// What a run costs that comes to no end.
const COST_OF_A_FAILURE: usize = 1_000;

/// The runs that are tried, one for each end that a joiner may hear of. If the end of a call may be
/// unheard, its task takes 0, 1, 2 and so on first events, by each of its ways.
#[derive(Drop)]
pub(crate) struct Attempts<'a> {
    search: &'a Search,
    root: &'a Explored,
    goals: Goals,
    /// The goals that are left, the next one last.
    left: Vec<Goal>,
    /// The goal that is being tried.
    goal: Option<Goal>,
    way: u32,
    events: usize,
    /// Is the run that was made last one with first events?
    is_by_ways: bool,
    cost: usize,
    is_cut_off: bool,
}

impl<'a> Attempts<'a> {
    /// Before the first run.
    pub(crate) fn begin(
        alloc: Global,
        setting: &Setting,
        search: &'a Search,
        root: &'a Explored,
    ) -> Result<Attempts<'a>, AllocError> {
        let goals = Goals::find(alloc, &search.table, root, setting.interrupts)?;
        let mut left = goals.all(alloc)?;
        left.reverse();
        Ok(Attempts {
            search,
            root,
            goals,
            left,
            goal: None,
            way: 0,
            events: 0,
            is_by_ways: false,
            cost: 0,
            is_cut_off: false,
        })
    }

    /// Did the runs cost too much?
    pub(crate) fn is_cut_off(&self) -> bool {
        self.is_cut_off
    }

    /// Notes whether the run that was made last shows an end that a joiner was told of. Then its task
    /// has ended by its first events.
    pub(crate) fn note(&mut self, is_heard: bool) {
        if is_heard && self.is_by_ways {
            self.take_next_way();
        }
    }

    /// Goes on with the next way.
    fn take_next_way(&mut self) {
        self.way = self.way.saturating_add(1);
        self.events = 1;
    }

    /// Goes on with the next goal.
    fn take_next_goal(&mut self) {
        self.goal = self.left.pop();
        self.way = 0;
        self.events = 0;
    }

    /// The run for a goal, if one can be made.
    fn run(
        &mut self,
        alloc: Global,
        setting: &Setting,
        goal: Goal,
        first: Option<FirstSteps>,
    ) -> Result<Option<Run>, AllocError> {
        let basis = Basis {
            program: &setting.program,
            outside: self.search.outside,
            table: &self.search.table,
            root: self.root,
        };
        let legs = self.goals.legs(alloc, goal)?;
        let mut player = Player::towards(alloc, basis, legs, first)?;
        let run = made(alloc, setting, &mut player, MOST_EVENTS_OF_A_RUN)?;
        let cost = match &run {
            Some(run) => run.events.len(),
            None => COST_OF_A_FAILURE,
        };
        self.cost = self.cost.saturating_add(cost);
        Ok(run)
    }

    /// Is a way of the call left, or is this the run without first events?
    fn has_way(&self, goal: Goal) -> bool {
        self.events == 0 || (self.way as usize) < self.search.table.ways(Some(goal.call)).len()
    }

    /// The next run after which the task of a goal ends unheard, if one can be made.
    fn run_unheard(
        &mut self,
        alloc: Global,
        setting: &Setting,
        goal: Goal,
    ) -> Result<Option<Run>, AllocError> {
        let first = FirstSteps {
            call: goal.call,
            way: self.way,
            events: self.events,
        };
        let run = self.run(alloc, setting, goal, Some(first))?;
        self.is_by_ways = true;
        self.events = self.events.saturating_add(1);
        if self.events >= MOST_FIRST_EVENTS || (run.is_none() && self.events > 1) {
            self.take_next_way();
        }
        Ok(run)
    }

    /// The next run for a goal, if one can be made.
    fn run_for(
        &mut self,
        alloc: Global,
        setting: &Setting,
        goal: Goal,
    ) -> Result<Option<Run>, AllocError> {
        if goal.leg.aim.role != Role::Unheard {
            self.take_next_goal();
            self.is_by_ways = false;
            return self.run(alloc, setting, goal, None);
        }
        if !self.has_way(goal) {
            self.take_next_goal();
            return Ok(None);
        }
        self.run_unheard(alloc, setting, goal)
    }

    /// The next run, if there is one.
    pub(crate) fn next(
        &mut self,
        alloc: Global,
        setting: &Setting,
    ) -> Result<Option<Run>, AllocError> {
        if self.goal.is_none() {
            self.take_next_goal();
        }
        for _ in 0..u64::MAX {
            let Some(goal) = self.goal else {
                return Ok(None);
            };
            if self.cost > MOST_EVENTS {
                self.is_cut_off = true;
                return Ok(None);
            }
            let run = self.run_for(alloc, setting, goal)?;
            if run.is_some() {
                return Ok(run);
            }
        }
        Ok(None)
    }
}
