//! What a step does, seen from the world before it.

ghost use Rattle.std.specs.Prelude.{◌≡◌, ◌<◌};
ghost use Rattle.look_tell.specs.Deed as def;

use sts_code::{Instr, Program};
use sts_frames::{instr_at, named};
use sts_model::{End, Fault, Frame};
use sts_plain::misuse;
use sts_world::World;

/// What a step does.
#[derive(Clone, Copy)]
pub enum Deed {
    /// It changes the task alone, and asks for nothing that others change.
    Own,
    /// It pushes what it asks for.
    Gives,
    /// It goes on by the state of a subtask.
    Goes,
    /// It opens the scope of this number.
    Opens(u32),
    /// It forks the task of this number.
    Forks(u32),
    /// Its `join` of this scope has an outcome.
    Joins(u32),
    /// It begins to close this scope, which waits for subtasks. It cancels the scope, or that was
    /// done before.
    BeginsToClose { scope: u32, cancels: bool },
    /// It closes this scope.
    Closes(u32),
    /// The task ends.
    Ends(End),
    /// It is a fault.
    Faults(Fault),
}

/// What a `close` of this scope does.
fn closing(world: &World, s: u32) -> Deed
    ensures { result ≡ def.closing world.now s }
{
    if world.any_lives(s) {
        Deed::BeginsToClose {
            scope: s,
            cancels: !world.records().is_cancelled(s),
        }
    } else {
        Deed::Closes(s)
    }
}

/// What an instruction does that is no misuse.
fn deed_of(world: &World, frame: &Frame, instr: Instr) -> Deed
    ensures { result ≡ def.deed_of world.now frame.now instr }
{
    match instr {
        Instr::Open { .. } => Deed::Opens(world.records().scopes_born() as u32),
        Instr::Fork { .. } => Deed::Forks(world.records().tasks_born() as u32),
        Instr::Join { slot, .. } => Deed::Joins(named(frame, slot)),
        Instr::Close(slot) => closing(world, named(frame, slot)),
        Instr::Ret => Deed::Ends(End::Success(frame.operand(0))),
        Instr::Fail => Deed::Ends(End::Failed(frame.operand(0))),
        Instr::Case { .. } => Deed::Goes,
        Instr::Cancelled(_) | Instr::Interrupted => Deed::Gives,
        Instr::Get(_) | Instr::Except(_) | Instr::Tally(..) | Instr::Total(_) => Deed::Gives,
        _ => Deed::Own,
    }
}

fn deed_by(world: &World, frame: &Frame, fault: Option<Fault>, instr: Option<Instr>) -> Deed
    ensures { result ≡ def.deed_by world.now frame.now fault instr }
{
    match (fault, instr) {
        (Some(kind), _) => Deed::Faults(kind),
        (None, Some(instr)) => deed_of(world, frame, instr),
        (None, None) => Deed::Own,
    }
}

/// What the next step of a living task does.
pub(crate) fn next_deed(world: &World, program: &Program, t: u32) -> Deed
    ensures { result ≡ def.next_deed program.now world.now t }
{
    if !world.records().lives(t) {
        return Deed::Own;
    }
    let frame = world.records().frame(t);
    deed_by(
        world,
        frame,
        misuse(world, program, t),
        instr_at(program, frame),
    )
}
