//! Laws over all event lists of every accepted program: each living task is typed, and misuses
//! nothing if there is room.

ghost use Rattle.laws_accepted.specs.Typed.{LivingTasksAreTyped, OnlyRoomIsWanted, ExpiredIsTimed};

use sts_verify::{Verified, typing_promises};

/// Only a scope with a timeout expires. This holds for every program.
pub fn expired_is_timed()
    ensures { ExpiredIsTimed }
{}

/// Each living task is typed: its frame fits a typestate that is reached at its pc.
pub fn living_tasks_are_typed(verified: &Verified)
    ensures { LivingTasksAreTyped verified.now }
{
    let program = verified.program();
    let _ = program.functions();
    typing_promises(program);
}

/// A living task misuses nothing, unless there is no room for the task or scope that it makes.
pub fn only_room_is_wanted(verified: &Verified)
    ensures { OnlyRoomIsWanted verified.now }
{
    let program = verified.program();
    let _ = program.functions();
    typing_promises(program);
}
