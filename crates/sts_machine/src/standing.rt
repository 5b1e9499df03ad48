//! The numbers of tasks, scopes and bindings that count, the room that is left, and the keys.

ghost use Rattle.std.specs.Prelude.{◌≡◌, List, is_some};
ghost use Rattle.sts_records.specs.Holes.{key_at};
ghost use Rattle.laws_accepted.specs.Accepted.{main_of};
ghost use Rattle.sts_machine.specs.Machine.{Stands};
ghost use Rattle.sts_machine.specs.Numbers.{AddUpTo, room_of, standing_in, standing_of};
ghost use Rattle.sts_model.specs.Run.{after};
ghost use Rattle.sts_model.specs.declared.event.Event.{Event as AnyEvent};
ghost use Rattle.sts_rules.specs.Refusal.{IsBudgetOf};
ghost use Rattle.sts_rules.specs.declared.budget.Budgets.{Budgets as AnyBudgets};
ghost use Rattle.laws_runs.specs.Runs.{In};
ghost use Rattle.laws_live.specs.Reading.{scope_in, task_in};

use crate::laws::main_budgets;
use crate::machine::Machine;
use laws_accepted::bindings_are_seen;
use laws_live::standing_is_seen;

/// A number of tasks, of scopes and of bindings.
#[derive(Clone, Copy, Debug, PartialEq, Eq)]
pub struct Standing {
    pub tasks: u32,
    pub scopes: u32,
    pub binds: u32,
}

impl<'p> Machine<'p> {
    /// The numbers of tasks, scopes and bindings that count. With the room that is left they add up
    /// to the budgets of `main`.
    pub fn standing(&self) -> Standing
        ensures seen { result ≡ standing_of self.now.live }
        ensures stands { (events : List AnyEvent) → Stands self.now events
            → In (λ w. result ≡ standing_in w) (after self.now.program events) }
        ensures adds_up { (budget : AnyBudgets)
            → IsBudgetOf self.now.program (main_of self.now.program) budget
            → AddUpTo budget result (room_of self.now.unseen) }
    {
        bindings_are_seen(self.verified);
        standing_is_seen();
        let budgets = main_budgets(self.verified);
        let room = self.room();
        Standing {
            tasks: budgets.tasks - room.tasks,
            scopes: budgets.scopes - room.scopes,
            binds: budgets.binds - room.binds,
        }
    }

    /// How many more tasks, scopes and bindings can be made.
    pub fn room(&self) -> Standing
        ensures { result ≡ room_of self.now.unseen }
    {
        Standing {
            tasks: self.store.task_room(),
            scopes: self.store.scope_room(),
            binds: self.store.binding_room(),
        }
    }

    /// The key of a task's record. A task has one if and only if it counts.
    pub fn key_of(&self, t: u32) -> Option<usize>
        ensures key { result ≡ key_at self.now.live.tasks self.now.unseen.task_keys t }
        ensures stands { is_some result ≡ is_some (task_in self.now.live t) }
    {
        self.store.key_of(t)
    }

    /// The key of a scope's record. A scope has one if and only if it isn't closed.
    pub fn scope_key_of(&self, s: u32) -> Option<usize>
        ensures key { result ≡ key_at self.now.live.scopes self.now.unseen.scope_keys s }
        ensures stands { is_some result ≡ is_some (scope_in self.now.live s) }
    {
        self.store.scope_key_of(s)
    }
}
