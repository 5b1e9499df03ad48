//! The numbers of the rule. Runs use `LIMITS`, and tests use smaller ones.

/// A worker looks this often for a task before it sleeps, as a wake-up costs more.
pub const LOOKS: u32 = 64;

/// The numbers of the rule.
#[derive(Clone, Copy, PartialEq, Eq, Hash)]
pub struct Limits {
    /// This many local instructions in a row are long enough to justify waking another worker.
    pub worth: u32,
    /// Several workers may claim tasks until this many were claimed since the last worker came, the
    /// last batch or the last long row of local instructions. After that only one does.
    pub tries: u32,
    /// Slices are taken in batches if rows have at least this many local instructions on average.
    pub least_row: u32,
    /// Slices are taken one at a time if rows have at least this many.
    pub long_row: u32,
    /// The limit for the slices of a batch.
    pub in_a_batch: u32,
    /// A batch is taken only if the task that was born this many after its first can step, too.
    pub many: u32,
    /// The limit for the local instructions that a worker with one slice does with no lock held.
    pub at_once: u32,
    /// The same limit for each slice of a worker with several.
    pub at_once_in_a_batch: u32,
    /// Local instructions are done in place after this many turns of a task in a row.
    pub in_a_row: u32,
    /// The limit for the local instructions in a row under the lock, while one worker is enough.
    pub in_place: u32,
    /// The same limit, while several workers may claim tasks.
    pub in_place_for_several: u32,
    /// The limit for the turns under one hold of the lock, while one worker is enough. Eight local
    /// instructions in place count as a turn.
    pub in_a_hold: u32,
    /// The same limit, while several workers may claim tasks.
    pub in_a_hold_for_several: u32,
    /// A worker looks this often for a task before it sleeps.
    pub looks: u32,
}

/// The numbers for a run.
pub const LIMITS: Limits = Limits {
    worth: 900,
    tries: 64,
    least_row: 300,
    long_row: 2_048,
    in_a_batch: 8,
    many: 31,
    at_once: 65_536,
    at_once_in_a_batch: 4_096,
    in_a_row: 6,
    in_place: 1_024,
    in_place_for_several: 32,
    in_a_hold: 1_024,
    in_a_hold_for_several: 128,
    looks: LOOKS,
};
