//! The journal of a run: its entries, or only their number if they aren't asked for.

ghost use Rattle.std.specs.Prelude.{◌≡◌, ◌∷◌, [], IfOk, IfSome, unwrap_or};
ghost use Rattle.sts_machine.specs.Slice.{steps_of};
ghost use Rattle.sts_pool.specs.Journal as def;

use std::alloc::{AllocError, Global};
use sts_model::Event;

/// The entries so far, oldest first, or only their number.
#[derive(Drop)]
pub(crate) enum Journal {
    Written(Vec<Event>),
    Counted,
}

impl Journal {
    /// A journal before the first entry. A written one has room for `entries` entries.
    ///
    /// # Errors
    ///
    /// Memory ran out.
    pub(crate) fn start(
        alloc: Global,
        is_written: bool,
        entries: usize,
    ) -> Result<Journal, AllocError>
        ensures written { IfOk result (λ j. def.written j ≡ def.opened is_written) }
        ensures holds { IfOk result (λ j. def.Holds j [] entries) }
    {
        if !is_written {
            return Ok(Journal::Counted);
        }
        Ok(Journal::Written(Vec::with_capacity(alloc, entries)?))
    }

    /// The entries, if they are written.
    pub(crate) fn written(&self) -> &[Event]
        ensures { IfSome (def.written self.now) (λ entries. result.now ≡ entries) }
    {
        match self {
            Journal::Written(entries) => entries.as_slice(),
            Journal::Counted => &[],
        }
    }

    /// The entries, if they are written, taken out.
    pub(crate) fn into_entries(self, alloc: Global) -> Vec<Event>
        ensures { result.items ≡ unwrap_or (def.written self) [] }
    {
        match self {
            Journal::Written(entries) => entries,
            Journal::Counted => Vec::new(alloc),
        }
    }

    /// Records an event.
    #[inline(always)]
    pub(crate) fn push(&mut self, event: Event)
        requires { def.HasRoomFor self.old 1 }
        ensures { def.IsRecorded self.old self.new (event ∷ []) }
    {
        if let Journal::Written(entries) = self {
            entries.push_reserved(event);
        }
    }

    /// Records `count` steps of a task.
    pub(crate) fn push_steps(&mut self, task: u32, count: u32)
        requires { def.HasRoomFor self.old count }
        ensures { def.IsRecorded self.old self.new (steps_of count task) }
    {
        if let Journal::Written(entries) = self {
            let length = entries.len() + count as usize;
            entries.resize(length, Event::Step(task)).unwrap();
        }
    }
}
