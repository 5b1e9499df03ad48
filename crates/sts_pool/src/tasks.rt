//! The tasks of a run, as the rule of `sts_waits` sees them.

use crate::asked::{Asked, Runs};
use crate::gate::Outside;
use arrayvec::ArrayVec;
use sts_machine::Slice;
use sts_waits::{Back, Tasks};

/// The slices that a worker takes at one hold of the lock: one, or some of tasks born one after the
/// other. No place is `None`.
pub(crate) type Batch<'p> = ArrayVec<Option<Slice<'p>>, 8>;

impl<'p, O: Outside, B: Runs<O>> Tasks for Asked<'p, O, B> {
    type Batch = Batch<'p>;

    #[inline(always)]
    fn ask(&mut self) {
        Asked::ask(self);
    }

    fn has_ended(&self) -> bool {
        self.book().root_end().is_some()
    }

    fn has_more(&self) -> bool {
        self.book().has_more()
    }

    fn has_other(&self, task: u32) -> bool {
        self.book().has_other(task)
    }

    fn is_at_hand(&self, task: u32) -> bool {
        self.book().is_at_hand(task)
    }

    fn claim(&mut self) -> Option<u32> {
        Asked::claim(self)
    }

    fn release(&mut self, task: u32) {
        Asked::release(self, task);
    }

    #[inline(always)]
    fn turns(&mut self, task: u32, most: u32) -> bool {
        Asked::turns(self, task, most)
    }

    #[inline(always)]
    fn run_here(&mut self, task: u32, limit: u32) -> u32 {
        Asked::run_here(self, task, limit)
    }

    fn lend(&mut self, task: u32, batch: &mut Batch<'p>) -> bool {
        let Some(slice) = Asked::lend(self, task) else {
            return false;
        };
        batch.try_push(Some(slice)).is_ok()
    }

    fn take_in(&mut self, batch: &Batch<'p>, place: u32) -> Option<Back> {
        let slice = batch.as_slice().get(place as usize)?.as_ref()?;
        if !Asked::take_in(self, slice) {
            return None;
        }
        Some(Back {
            task: slice.task(),
            done: slice.count(),
        })
    }

    fn clear(&self, batch: &mut Batch<'p>) {
        batch.clear();
    }
}
