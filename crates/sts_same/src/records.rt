//! The records.

use crate::same::{Same, same_slices, same_stacks};
use sts_model::{Bound, Completion, Frame, KeptEntry, KeptSlot, Loop};

impl Same for KeptSlot {
    fn same(&self, other: &KeptSlot) -> bool {
        self.get() == other.get()
    }
}

impl Same for KeptEntry {
    fn same(&self, other: &KeptEntry) -> bool {
        self.get() == other.get()
    }
}

impl Same for Loop {
    fn same(&self, other: &Loop) -> bool {
        *self == *other
    }
}

impl Same for Bound {
    fn same(&self, other: &Bound) -> bool {
        *self == *other
    }
}

impl Same for Completion {
    fn same(&self, other: &Completion) -> bool {
        *self == *other
    }
}

impl Same for Frame {
    fn same(&self, other: &Frame) -> bool {
        self.function == other.function
            && self.pc == other.pc
            && same_stacks(&self.operands, &other.operands)
            && same_slices(&self.locals, &other.locals)
            && same_stacks(&self.loops, &other.loops)
            && same_slices(self.entries.as_slice(), other.entries.as_slice())
            && same_slices(&self.slots, &other.slots)
    }
}
