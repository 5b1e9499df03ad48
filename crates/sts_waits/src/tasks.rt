//! The calls that a worker makes under the lock to the tasks of a run.

/// A slice that is back: its task, and how many local instructions of it were done.
#[derive(Clone, Copy, PartialEq, Eq)]
pub struct Back {
    pub task: u32,
    pub done: u32,
}

/// The tasks of a run. A task is *out* if a worker claimed it or took a slice of it.
pub trait Tasks {
    /// The slices that a worker takes at one hold of the lock.
    type Batch;

    /// Records the events from outside that are due.
    fn ask(&mut self);

    /// Has the root ended?
    fn has_ended(&self) -> bool;

    /// Is there a task that can step and isn't out?
    fn has_more(&self) -> bool;

    /// Is there another task that can step, or one that is out?
    fn has_other(&self, task: u32) -> bool;

    /// Can the task step, and isn't it out?
    fn is_at_hand(&self, task: u32) -> bool;

    /// Claims a task that can step and isn't out.
    fn claim(&mut self) -> Option<u32>;

    /// Ends a claim.
    fn release(&mut self, task: u32);

    /// Takes up to `most` steps of a task, as long as it can step and isn't out. Before each it
    /// records the events from outside that are due. Answers whether it took all and the task can
    /// step.
    fn turns(&mut self, task: u32, most: u32) -> bool;

    /// Does local steps of a task that isn't out, in place, up to the limit. Answers how many.
    fn run_here(&mut self, task: u32, limit: u32) -> u32;

    /// Adds the slice of this task to a batch, if the task can step and isn't out. Answers whether
    /// it did.
    fn lend(&mut self, task: u32, batch: &mut Self::Batch) -> bool;

    /// Takes back the slice at this place of a batch. Returns `None` if it isn't a slice of this run.
    fn take_in(&mut self, batch: &Self::Batch, place: u32) -> Option<Back>;

    /// Empties a batch whose slices are back.
    fn clear(&self, batch: &mut Self::Batch);
}
