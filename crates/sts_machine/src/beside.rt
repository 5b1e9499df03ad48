//! The next task to step that isn't out.

ghost use Rattle.std.specs.Prelude.{not, ◌&&◌, ◌==◌};
ghost use Rattle.std.specs.List.{list_any};
ghost use Rattle.sts_machine.specs.Turned.{Picks};
ghost use Rattle.laws_live.specs.Waiting.{live_can_step};

use crate::machine::Machine;

impl<'p> Machine<'p> {
    /// A task that can step and is not in this list, or `None` if and only if there is no such
    /// task.
    pub fn ready_beside(&self, out: &[u32]) -> Option<u32>
        ensures { Picks (λ t. live_can_step self.now.program self.now.live t
            && not (list_any (λ o. o == t) out.now)) result }
    {
        self.store.ready_beside(out)
    }
}
