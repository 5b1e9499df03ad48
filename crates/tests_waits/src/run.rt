//! A small run in place of a machine. Its tasks only count their steps.

use sts_waits::{Back, Tasks};

/// How many tasks a run has at most, with the root.
const TASKS: usize = 4;

/// How many slices a batch has at most.
const SLICES: usize = 2;

/// What the tasks do. The root does `row` local instructions, forks the subtasks, joins, closes and
/// ends. The join waits for the subtasks or for an event from outside, and the close for the subtasks.
/// A subtask does `rounds` rows of `row` local instructions, and another step behind each.
pub struct Program {
    /// At most 3.
    pub subtasks: u32,
    pub rounds: u32,
    pub row: u32,
    /// The event is due once the tasks have taken this many steps.
    pub due: u32,
}

/// What a task does next.
#[derive(Clone, Copy)]
enum Step {
    Local,
    Join,
    Close,
    Other,
    Ended,
}

/// Slices of tasks, with how many local instructions of each were done.
pub type Batch = [Option<(u32, u32)>; SLICES];

/// A batch of no slice.
pub const EMPTY: Batch = [None; SLICES];

/// The state of a run: what its tasks do, how many steps each has taken, and which tasks are out. And
/// whether the event from outside has come.
#[derive(Clone, Copy, PartialEq, Eq, Hash)]
pub struct Run {
    subtasks: u32,
    rounds: u32,
    row: u32,
    due: u32,
    taken: [u32; TASKS],
    out: [bool; TASKS],
    has_come: bool,
}

/// Adds a slice with nothing done, if there is room. Answers whether it did.
fn add(batch: &mut Batch, task: u32) -> bool {
    for place in batch {
        if place.is_none() {
            *place = Some((task, 0));
            return true;
        }
    }
    false
}

impl Run {
    /// The state before the first step.
    pub fn new(program: &Program) -> Run {
        Run {
            subtasks: program.subtasks,
            rounds: program.rounds,
            row: program.row,
            due: program.due,
            taken: [0; TASKS],
            out: [false; TASKS],
            has_come: false,
        }
    }

    /// Does up to `limit` local instructions of each slice, as a worker does with no lock held.
    pub fn work(&self, batch: &mut Batch, limit: u32) {
        for place in batch {
            if let Some((task, _)) = *place {
                *place = Some((task, self.row_of(task).min(limit)));
            }
        }
    }

    fn taken(&self, task: u32) -> u32 {
        self.taken.get(task as usize).copied().unwrap_or(0)
    }

    fn is_out(&self, task: u32) -> bool {
        self.out.get(task as usize).copied().unwrap_or(true)
    }

    fn set_out(&mut self, task: u32, is_out: bool) {
        if let Some(out) = self.out.get_mut(task as usize) {
            *out = is_out;
        }
    }

    /// Counts steps of a task.
    fn takes(&mut self, task: u32, count: u32) {
        if let Some(taken) = self.taken.get_mut(task as usize) {
            *taken = taken.saturating_add(count);
        }
    }

    /// How many subtasks are forked.
    fn forked(&self) -> u32 {
        self.taken(0).saturating_sub(self.row).min(self.subtasks)
    }

    /// The next step of the root, which has taken `taken`.
    fn step_of_root(&self, taken: u32) -> Step {
        let Some(taken) = taken.checked_sub(self.row) else {
            return Step::Local;
        };
        match taken.checked_sub(self.subtasks) {
            None => Step::Other,
            Some(0) => Step::Join,
            Some(1) => Step::Close,
            Some(2) => Step::Other,
            Some(_) => Step::Ended,
        }
    }

    /// The next step of a subtask that has taken `taken`.
    fn step_of_subtask(&self, taken: u32) -> Step {
        let round = self.row.saturating_add(1);
        if taken >= round.saturating_mul(self.rounds) {
            Step::Ended
        } else if taken % round < self.row {
            Step::Local
        } else {
            Step::Other
        }
    }

    fn step(&self, task: u32) -> Step {
        let taken = self.taken(task);
        if task == 0 {
            self.step_of_root(taken)
        } else {
            self.step_of_subtask(taken)
        }
    }

    fn has_ended_at(&self, task: u32) -> bool {
        matches!(self.step(task), Step::Ended)
    }

    /// Have all subtasks ended?
    fn is_alone(&self) -> bool {
        for task in 1..=self.subtasks {
            if !self.has_ended_at(task) {
                return false;
            }
        }
        true
    }

    /// Can the task step, out or not?
    fn can_step(&self, task: u32) -> bool {
        if task > self.forked() {
            return false;
        }
        match self.step(task) {
            Step::Local | Step::Other => true,
            Step::Join => self.has_come || self.is_alone(),
            Step::Close => self.is_alone(),
            Step::Ended => false,
        }
    }

    /// The task of this number or a later one that can step and isn't out.
    fn first_at_hand(&self) -> Option<u32> {
        for task in 0..=self.subtasks {
            if self.is_at_hand(task) {
                return Some(task);
            }
        }
        None
    }

    /// How many local instructions are ahead of the task.
    fn row_of(&self, task: u32) -> u32 {
        let taken = self.taken(task);
        let round = self.row.saturating_add(1);
        match self.step(task) {
            Step::Local if task == 0 => self.row.saturating_sub(taken),
            Step::Local => self.row.saturating_sub(taken % round),
            _ => 0,
        }
    }
}

impl Tasks for Run {
    type Batch = Batch;

    fn ask(&mut self) {
        let mut steps = 0u32;
        for taken in &self.taken {
            steps = steps.saturating_add(*taken);
        }
        self.has_come |= steps >= self.due;
    }

    fn has_ended(&self) -> bool {
        self.has_ended_at(0)
    }

    fn has_more(&self) -> bool {
        self.first_at_hand().is_some()
    }

    fn has_other(&self, task: u32) -> bool {
        let mut has_other = self.out.contains(&true);
        for other in 0..=self.subtasks {
            has_other |= other != task && self.can_step(other);
        }
        has_other
    }

    fn is_at_hand(&self, task: u32) -> bool {
        self.can_step(task) && !self.is_out(task)
    }

    fn claim(&mut self) -> Option<u32> {
        let task = self.first_at_hand()?;
        self.set_out(task, true);
        Some(task)
    }

    fn release(&mut self, task: u32) {
        self.set_out(task, false);
    }

    fn turns(&mut self, task: u32, most: u32) -> bool {
        for _ in 0..most {
            self.ask();
            if !self.is_at_hand(task) {
                return false;
            }
            self.takes(task, 1);
        }
        self.ask();
        self.is_at_hand(task)
    }

    fn run_here(&mut self, task: u32, limit: u32) -> u32 {
        if !self.is_at_hand(task) {
            return 0;
        }
        let done = self.row_of(task).min(limit);
        self.takes(task, done);
        done
    }

    fn lend(&mut self, task: u32, batch: &mut Batch) -> bool {
        let is_lent = self.is_at_hand(task) && add(batch, task);
        if is_lent {
            self.set_out(task, true);
        }
        is_lent
    }

    fn take_in(&mut self, batch: &Batch, place: u32) -> Option<Back> {
        let (task, done) = batch.get(place as usize).copied().flatten()?;
        self.takes(task, done);
        self.set_out(task, false);
        Some(Back { task, done })
    }

    fn clear(&self, batch: &mut Batch) {
        *batch = EMPTY;
    }
}
