//! Finds the events that lead to an end, one at a time.
//!
//! The subtasks of a scope do nothing until their owner looks. Then those whose end it sees run
//! from their beginning to their end, one after the other. If it will see that the scope is cancelled,
//! they run as soon as they are forked, and no further subtask starts. The others run once their scope
//! is cancelled and its `close` waits for them. Nobody sees what they do, so a scope that they open
//! expires before they fork, if it can. Its subtasks then never start, and the trace is shorter.

use crate::aim::{FirstSteps, Leg, Role};
use crate::basis::Basis;
use crate::mark::Mark;
use crate::played::{Played, Start};
use ends_known::outside::Outside;
use ends_known::own::is_at_once;
use ends_known::seen::Seen;
use ends_known::table::{Explored, Label, Table};
use laws_calls::table::Held;
use std::alloc::{AllocError, Global};
use sts_code::{Instr, Program};
use sts_frames::instr_at;
use sts_model::{Event, Phase, Stand};
use sts_plain::{can_step, stand_at};
use sts_world::World;

/// What comes before the next step of the innermost task.
#[derive(Clone, Copy)]
enum Wait {
    /// Its `close` of a scope, before which tasks have to end. Are they known?
    Close { scope: u32, is_known: bool },
    /// Tasks that nobody hears run ahead of a cancel.
    Ahead,
}

/// What follows a turn of a task.
#[derive(Clone, Copy)]
enum Next {
    /// The task goes on.
    Stays,
    /// The task is over.
    IsOver,
    /// A subtask is played first.
    Starts(Start),
    /// The task closes a scope.
    Closes(u32),
    /// Tasks run ahead.
    RunsAhead,
    /// The task has forked the subtask that the run is about, by its birth number.
    Shows(u32, Role),
    /// The run leaves the task, and goes on with this one of its subtasks.
    GoesDeeper(Option<u32>),
}

/// A run that is being made.
#[derive(Drop)]
pub struct Player<'a> {
    basis: Basis<'a>,
    /// The tasks that are being played. Each waits for the one behind it.
    played: Vec<Played>,
    /// What the innermost one waits for, if it waits.
    wait: Option<Wait>,
    /// The tasks that this is about, the next one last.
    tasks: Vec<u32>,
    /// The events that come before the next turn, the first one last.
    coming: Vec<Event>,
    /// Was there no memory for one of them?
    lacks_memory: bool,
    /// Is the run not as it was planned?
    is_wrong: bool,
    /// Does each cancel come as early as it can?
    hurries: bool,
    /// May the subtasks of the root run ahead of a cancel?
    may_run_ahead: bool,
    /// Did they, just now?
    is_at_mark: bool,
    /// The tasks that lead to the one that the run is about, the root's last.
    legs: Vec<Leg>,
    /// The birth number of the task that the run is about.
    target: Option<u32>,
    /// The first events of this task, before its owner goes on, if its end isn't heard.
    first: Option<FirstSteps>,
    /// The number of tasks below it while it takes these, and of events that are left.
    cut: Option<(usize, usize)>,
}

/// The next instruction of a task that lives.
fn instr_of(program: &Program, world: &World, t: u32) -> Option<Instr> {
    if !world.records().lives(t) {
        return None;
    }
    instr_at(program, world.records().frame(t))
}

/// The slot that an instruction looks at, if it may show what became of a scope.
fn looked_slot(instr: Instr) -> Option<u8> {
    match instr {
        Instr::Join { slot, .. } | Instr::Cancelled(slot) => Some(slot),
        Instr::Case { handle, .. } => Some(handle),
        _ => None,
    }
}

/// The slot of the scope that an instruction forks into.
fn forked_slot(instr: Instr) -> Option<u8> {
    match instr {
        Instr::Fork { slot, .. } => Some(slot),
        _ => None,
    }
}

/// The scope at whose `join` or `close` a task waits.
fn waits_for(program: &Program, world: &World, t: u32) -> Option<u32> {
    if !world.records().lives(t) {
        return None;
    }
    match stand_at(world, program, t) {
        Stand::AtJoin(s) | Stand::AtClose(s) => Some(s),
        Stand::Free => None,
    }
}

/// What a player does about a task of a scope that is being closed.
#[derive(Clone, Copy)]
enum Turn {
    Steps,
    IsOver,
    Waits(u32),
}

fn turn_of(program: &Program, world: &World, t: u32) -> Turn {
    if !world.records().lives(t) {
        return Turn::IsOver;
    }
    if can_step(world, program, t) {
        return Turn::Steps;
    }
    match waits_for(program, world, t) {
        Some(s) => Turn::Waits(s),
        None => Turn::IsOver,
    }
}

/// The scope that a task has just opened, if it has no subtasks and can expire.
fn idle_scope(outside: Outside, world: &World, t: u32) -> Option<u32> {
    let (_, next) = births(world);
    let last = next.checked_sub(1)?;
    let is_its = world.records().owner(last) == t && world.subtasks(last).is_empty();
    if is_its && outside.expiries && world.records().can_expire(last) {
        Some(last)
    } else {
        None
    }
}

/// The numbers that the next task and the next scope get.
fn births(world: &World) -> (u32, u32) {
    (
        world.records().tasks_born() as u32,
        world.records().scopes_born() as u32,
    )
}

/// The place of the scope that a slot is about, and the place of the subtask that it holds, if it
/// holds one.
fn looked_at(held: Held) -> Option<(u32, Option<u32>)> {
    match held {
        Held::Own(place) => Some((place, None)),
        Held::Sub(scope, part) => Some((scope, Some(part))),
        Held::Empty | Held::Lent => None,
    }
}

/// What an instruction of a task looks at, if that is a scope.
fn look(top: &Played, explored: &Explored, instr: Instr) -> Option<(u32, Option<u32>)> {
    let slot = looked_slot(instr)?;
    looked_at(top.before(explored)?.own.slot(slot))
}

/// The scope at a place, as the task knows it before and after the next step.
fn seen_around<'t>(
    top: &Played,
    explored: &'t Explored,
    place: u32,
) -> Option<(&'t Seen, &'t Seen)> {
    let before = top.before(explored)?.own.scope(place)?;
    let after = top.after(explored)?.own.scope(place)?;
    Some((before, after))
}

/// The scope that expires just before an instruction, if one does.
fn expiring(top: &Played, explored: &Explored, instr: Instr) -> Option<u32> {
    let (place, _) = look(top, explored, instr)?;
    let (before, after) = seen_around(top, explored, place)?;
    let scope = top.scopes.get(place as usize)?;
    if scope.is_late || before.facts.expired || !after.facts.expired {
        return None;
    }
    Some(scope.birth)
}

/// The place of the scope that an instruction forks into.
fn forked_into(top: &Played, explored: &Explored, instr: Instr) -> Option<u32> {
    let slot = forked_slot(instr)?;
    top.before(explored)?.own.own_scope(slot)
}

/// The subtask that an instruction has forked and what the run makes of it, if the run is about it.
fn aimed_fork(top: &Played, explored: &Explored, instr: Instr) -> Option<(u32, Role)> {
    let place = forked_into(top, explored, instr)?;
    top.scopes.get(place as usize)?.aimed()
}

/// Notes the scope that an instruction opens, or the subtask that it forks. Returns whether all goes as
/// it was planned.
fn note(
    alloc: Global,
    basis: &Basis<'_>,
    world: &World,
    top: &mut Played,
    explored: &Explored,
    instr: Instr,
    hurries: bool,
) -> Result<bool, AllocError> {
    let (task, scope) = births(world);
    if matches!(instr, Instr::Open { .. }) {
        return top.open(alloc, basis, explored, scope, hurries);
    }
    if let Some(place) = forked_into(top, explored, instr) {
        top.fork(place, task)?;
    }
    Ok(true)
}

/// Notes the subtasks that have to be played before an instruction.
fn prepare(table: &Table, top: &mut Played, explored: &Explored, instr: Instr) {
    if matches!(instr, Instr::Close(_)) {
        return top.close(explored);
    }
    let Some((place, child)) = look(top, explored, instr) else {
        return;
    };
    if let Some((before, after)) = seen_around(top, explored, place) {
        top.look(table, before, after, place, child);
    }
}

/// Takes the step of a task. Returns what follows.
fn stepped(top: &mut Played, explored: &Explored, instr: Instr) -> Next {
    let next = match aimed_fork(top, explored, instr) {
        Some((birth, role)) => Next::Shows(birth, role),
        None => Next::Stays,
    };
    top.at = top.at.saturating_add(1);
    top.is_ready = false;
    if !matches!(instr, Instr::Close(_)) {
        return next;
    }
    match top.scopes.pop() {
        Some(scope) => Next::Closes(scope.birth),
        None => next,
    }
}

impl<'a> Player<'a> {
    /// A player with nothing to play.
    fn idle(alloc: Global, basis: Basis<'a>) -> Player<'a> {
        Player {
            basis,
            played: Vec::new(alloc),
            wait: None,
            tasks: Vec::new(alloc),
            coming: Vec::new(alloc),
            lacks_memory: false,
            is_wrong: false,
            hurries: false,
            may_run_ahead: false,
            is_at_mark: false,
            legs: Vec::new(alloc),
            target: None,
            first: None,
            cut: None,
        }
    }

    /// A run up to the end of one of the root's ways, before its first event.
    pub fn begin(alloc: Global, basis: Basis<'a>, way: u32) -> Result<Player<'a>, AllocError> {
        let mut player = Player::idle(alloc, basis);
        player.hurries = true;
        player.may_run_ahead = true;
        let start = Start {
            call: None,
            way,
            birth: 0,
        };
        player.start(alloc, start)?;
        Ok(player)
    }

    /// A run up to the end of one of the root's ways, from a mark on, if it goes by there.
    pub fn resume(
        alloc: Global,
        basis: Basis<'a>,
        way: u32,
        mark: &Mark,
    ) -> Result<Option<Player<'a>>, AllocError> {
        let Some(top) = mark.resumed(alloc, &basis, way)? else {
            return Ok(None);
        };
        let mut player = Player::idle(alloc, basis);
        player.hurries = true;
        player.played.push(top)?;
        Ok(Some(player))
    }

    /// A run up to the end of a subtask, before its first event. The legs lead to the subtask, the
    /// root's is the last one.
    pub fn towards(
        alloc: Global,
        basis: Basis<'a>,
        legs: Vec<Leg>,
        first: Option<FirstSteps>,
    ) -> Result<Player<'a>, AllocError> {
        let mut player = Player::idle(alloc, basis);
        player.legs = legs;
        player.first = first;
        player.enter(alloc, Some(0))?;
        Ok(player)
    }

    /// The mark at which the run has stopped, if it has stopped at one. It goes on after that.
    pub fn mark(&mut self, alloc: Global) -> Result<Option<Mark>, AllocError> {
        if !self.is_at_mark {
            return Ok(None);
        }
        self.is_at_mark = false;
        match self.played.last() {
            Some(top) => Mark::of(alloc, top),
            None => Ok(None),
        }
    }

    /// The birth number of the task that the run is about, once it is forked.
    pub fn target(&self) -> Option<u32> {
        self.target
    }

    /// Plays a task, if there is one.
    fn push(&mut self, played: Option<Played>) -> Result<(), AllocError> {
        match played {
            Some(played) => {
                self.played.push(played)?;
            }
            None => self.is_wrong = true,
        }
        Ok(())
    }

    /// Begins to play a task.
    fn start(&mut self, alloc: Global, start: Start) -> Result<(), AllocError> {
        let played = match self.basis.explored(start.call) {
            Some(explored) => Played::begin(alloc, explored, start)?,
            None => None,
        };
        self.push(played)
    }

    /// The task of a leg, before its first step.
    fn played_on(&self, alloc: Global, leg: Leg, birth: u32) -> Result<Option<Played>, AllocError> {
        let Some(explored) = self.basis.explored(leg.call) else {
            return Ok(None);
        };
        let aim = Some(leg.aim);
        let played = Played::towards(alloc, explored, leg.call, birth, leg.place, aim)?;
        Ok(Some(played))
    }

    /// Begins to play the task of the next leg, by its birth number.
    fn enter(&mut self, alloc: Global, birth: Option<u32>) -> Result<(), AllocError> {
        let (Some(leg), Some(birth)) = (self.legs.pop(), birth) else {
            self.is_wrong = true;
            return Ok(());
        };
        let played = self.played_on(alloc, leg, birth)?;
        self.push(played)
    }

    /// Notes the task that the run is about. If its end isn't heard, it takes its first steps.
    fn found(&mut self, alloc: Global, birth: u32, role: Role) -> Result<(), AllocError> {
        match role {
            Role::Entered => Ok(()),
            Role::Heard(_) => {
                self.target = Some(birth);
                Ok(())
            }
            Role::Unheard => {
                self.target = Some(birth);
                self.take_first(alloc, birth)
            }
        }
    }

    /// Lets the task that the run is about take its first steps.
    fn take_first(&mut self, alloc: Global, birth: u32) -> Result<(), AllocError> {
        let Some(first) = self.first else {
            return Ok(());
        };
        if first.events == 0 {
            return Ok(());
        }
        // (the fork comes before them)
        self.cut = Some((self.played.len(), first.events.saturating_add(1)));
        let start = Start {
            call: Some(first.call),
            way: first.way,
            birth,
        };
        self.start(alloc, start)
    }

    /// Takes the event that comes next, if there is one. The player leaves a task that is cut after its
    /// first steps.
    fn take_coming(&mut self) -> Option<Event> {
        let event = self.coming.pop()?;
        let Some((tasks, left)) = self.cut else {
            return Some(event);
        };
        if left > 0 {
            self.cut = Some((tasks, left.saturating_sub(1)));
            return Some(event);
        }
        self.cut = None;
        self.wait = None;
        self.played.truncate(tasks);
        self.coming.truncate(0);
        None
    }

    /// Lets an event come before those that come so far.
    fn come(&mut self, event: Event) {
        if self.coming.push(event).is_err() {
            self.lacks_memory = true;
        }
    }

    /// Lets the outside events come that an instruction needs.
    fn come_outside(&mut self, top: &Played, explored: &Explored, instr: Instr) {
        let pays = match top.after(explored) {
            Some(node) => matches!(node.label, Label::Pays),
            None => false,
        };
        if pays {
            self.come(Event::Interrupt(top.birth));
        }
        if let Some(s) = expiring(top, explored, instr) {
            self.come(Event::Expire(s));
        }
    }

    /// Lets a task take a step of its way, after the outside events that this step needs.
    fn act(
        &mut self,
        alloc: Global,
        world: &World,
        top: &mut Played,
        explored: &Explored,
        instr: Instr,
    ) -> Result<Next, AllocError> {
        self.come(Event::Step(top.birth));
        self.come_outside(top, explored, instr);
        let basis = self.basis;
        if !note(alloc, &basis, world, top, explored, instr, self.hurries)? {
            self.is_wrong = true;
        }
        Ok(stepped(top, explored, instr))
    }

    /// Lets the subtasks of the root's only scope run ahead that nobody hears.
    fn begin_ahead(&mut self, top: &Played) -> Next {
        self.may_run_ahead = false;
        self.tasks.truncate(0);
        if let Some(scope) = top.scopes.first() {
            if scope.push_unheard(&mut self.tasks).is_err() {
                self.lacks_memory = true;
            }
        }
        Next::RunsAhead
    }

    /// Goes on with tasks that run ahead. A task stops before its last step, and where it waits.
    fn go_ahead(&mut self, world: &World) {
        let Some(t) = self.tasks.last().copied() else {
            self.is_at_mark = true;
            self.wait = None;
            return;
        };
        let ends = matches!(
            instr_of(self.basis.program, world, t),
            None | Some(Instr::Ret | Instr::Fail)
        );
        match turn_of(self.basis.program, world, t) {
            Turn::Steps if !ends => self.step(world, t),
            _ => {
                let _ = self.tasks.pop();
            }
        }
    }

    /// Lets a task step that nobody hears, or a scope expire that it has just opened.
    fn step(&mut self, world: &World, t: u32) {
        let event = match idle_scope(self.basis.outside, world, t) {
            Some(s) => Event::Expire(s),
            None => Event::Step(t),
        };
        self.come(event);
    }

    /// Lets a task take its last step, or goes on from there to the subtask that the run is about.
    fn end(&mut self, top: &Played) -> Next {
        if let Some(aim) = top.aim {
            return Next::GoesDeeper(top.born_in(aim.scope, aim.part));
        }
        self.come(Event::Step(top.birth));
        Next::IsOver
    }

    /// Lets come what has to come before the next instruction of a task.
    fn go_up_to(&mut self, top: &mut Played, explored: &Explored, instr: Instr) -> Next {
        if let Some(place) = top.due() {
            if self.may_run_ahead && self.played.is_empty() && top.scopes.len() == 1 {
                return self.begin_ahead(top);
            }
            top.cancel(self.basis.table, explored, place);
        } else if let Some(s) = top.expiring() {
            self.come(Event::Expire(s));
        } else {
            prepare(self.basis.table, top, explored, instr);
            top.is_ready = true;
        }
        Next::Stays
    }

    /// Goes on with a task. Returns what follows.
    fn go_on(
        &mut self,
        alloc: Global,
        world: &World,
        top: &mut Played,
    ) -> Result<Next, AllocError> {
        if let Some(start) = top.waiting.pop() {
            return Ok(Next::Starts(start));
        }
        let explored = self.basis.explored(top.call);
        let instr = instr_of(self.basis.program, world, top.birth);
        let (Some(explored), Some(instr)) = (explored, instr) else {
            self.is_wrong = true;
            return Ok(Next::IsOver);
        };
        if top.is_at_end() {
            Ok(self.end(top))
        } else if top.is_ready {
            self.act(alloc, world, top, explored, instr)
        } else {
            Ok(self.go_up_to(top, explored, instr))
        }
    }

    /// Does what follows a turn of the innermost task.
    fn follow(&mut self, alloc: Global, next: Next) -> Result<(), AllocError> {
        match next {
            Next::Stays => {}
            Next::IsOver => {
                let _ = self.played.pop();
            }
            Next::Starts(start) => return self.start(alloc, start),
            Next::Closes(scope) => {
                self.wait = Some(Wait::Close {
                    scope,
                    is_known: false,
                });
            }
            Next::RunsAhead => self.wait = Some(Wait::Ahead),
            Next::Shows(birth, role) => return self.found(alloc, birth, role),
            Next::GoesDeeper(birth) => {
                let _ = self.played.pop();
                return self.enter(alloc, birth);
            }
        }
        Ok(())
    }

    /// Goes on with the innermost task.
    fn play(&mut self, alloc: Global, world: &World) -> Result<(), AllocError> {
        let Some(played) = self.played.pop() else {
            return Ok(());
        };
        let mut top = played;
        let next = self.go_on(alloc, world, &mut top);
        self.lacks_memory = self.lacks_memory || top.waiting.lacks_memory;
        self.played.push(top)?;
        self.follow(alloc, next?)
    }

    /// Adds a task to those that have to end before a close.
    fn push_task(&mut self, t: u32) {
        if self.tasks.push(t).is_err() {
            self.lacks_memory = true;
        }
    }

    /// Adds the subtasks of a scope that live.
    fn push_living(&mut self, world: &World, s: u32) {
        for t in world.subtasks(s) {
            if world.records().lives(*t) {
                self.push_task(*t);
            }
        }
    }

    /// Lets the last of the tasks step that have to end before a close, or those that it waits for.
    fn step_one(&mut self, world: &World, t: u32) {
        match turn_of(self.basis.program, world, t) {
            Turn::Steps => self.step(world, t),
            Turn::IsOver => {
                let _ = self.tasks.pop();
            }
            Turn::Waits(inner) => {
                let before = self.tasks.len();
                self.push_living(world, inner);
                self.is_wrong = self.is_wrong || self.tasks.len() == before;
            }
        }
    }

    /// Finds out which tasks have to end before a `close`.
    fn begin_close(&mut self, world: &World, scope: u32) {
        self.tasks.truncate(0);
        self.push_living(world, scope);
        self.wait = Some(Wait::Close {
            scope,
            is_known: true,
        });
    }

    /// Goes on with a `close`, up to its last step.
    fn close(&mut self, world: &World, scope: u32, is_known: bool) {
        if matches!(world.records().phase(scope), Phase::Closed) {
            self.wait = None;
            return;
        }
        if !is_known {
            self.begin_close(world, scope);
        }
        if let Some(t) = self.tasks.last().copied() {
            return self.step_one(world, t);
        }
        self.wait = None;
        if let Some(owner) = self.played.last().map(|owner| owner.birth) {
            self.come(Event::Step(owner));
        }
    }

    /// The task whose instruction comes next, if nothing else comes before it.
    fn next_task(&self) -> Option<u32> {
        match self.wait {
            Some(
                Wait::Close {
                    is_known: false,
                    ..
                },
            ) => None,
            Some(_) => self.tasks.last().copied(),
            None => {
                let top = self.played.last()?;
                let goes_deeper = top.aim.is_some() && top.is_at_end();
                if top.waiting.is_empty() && !goes_deeper {
                    Some(top.birth)
                } else {
                    None
                }
            }
        }
    }

    /// The next event, if it is a step by an instruction that changes only the frame of its task.
    fn at_once(&self, world: &World) -> Option<Event> {
        let t = self.next_task()?;
        let instr = instr_of(self.basis.program, world, t)?;
        if is_at_once(instr) {
            Some(Event::Step(t))
        } else {
            None
        }
    }

    /// Goes on, up to the next event at most.
    fn turn(&mut self, alloc: Global, world: &World) -> Result<(), AllocError> {
        if let Some(event) = self.at_once(world) {
            self.come(event);
            return Ok(());
        }
        match self.wait {
            None => return self.play(alloc, world),
            Some(Wait::Ahead) => self.go_ahead(world),
            Some(Wait::Close { scope, is_known }) => self.close(world, scope, is_known),
        }
        Ok(())
    }

    /// The next event, if the run isn't over or at a mark, and goes as it was planned. The events before
    /// it have led to this state.
    pub fn next(
        &mut self,
        alloc: Global,
        world: Option<&World>,
    ) -> Result<Option<Event>, AllocError> {
        let Some(world) = world else {
            return Ok(None);
        };
        for _ in 0..u64::MAX {
            if self.lacks_memory {
                return Err(AllocError);
            }
            if self.is_wrong || self.is_at_mark {
                break;
            }
            let event = self.take_coming();
            if event.is_some() {
                return Ok(event);
            }
            if self.wait.is_none() && self.played.is_empty() {
                break;
            }
            self.turn(alloc, world)?;
        }
        Ok(None)
    }
}
