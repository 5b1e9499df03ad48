//! What to do about a fault of a run. It depends on the instruction, and on the state of the task
//! there.

ghost use Rattle.std.specs.Prelude.{◌≡◌, ◌<◌, ◌^◌, length, true, if◌then◌else◌};
ghost use Rattle.sts_model.specs.Living as living;
ghost use Rattle.sts_model.specs.Misuse as misuse;
ghost use Rattle.sts_model.specs.World as model;
ghost use Rattle.look_run.specs.Remedies as def;

use look_refusal::{Remedy, label_remedy};
use sts_code::{
    Instr, MAX_ENTRIES, MAX_OPERANDS, Profile, Program, can_fail, filled_slot, match_of,
    owners_slot, subtask_slot,
};
use sts_frames::{code, instr_at, slot};
use sts_model::{Entry, Fault, Frame, Phase, Slot};
use sts_plain::frame_tests::{breaks_loop, has_wrong_slot, lacks_operands, overflows};
use sts_world::Records;

// ---- Operand

/// How many `times` are open after an instruction, from the number that were open before it.
fn open_after(depth: usize, instr: Instr) -> usize
    requires { depth < 2 ^ 63 }
    ensures { result ≡ def.open_after depth instr }
{
    match instr {
        Instr::Times(_) => depth + 1,
        Instr::Next => depth.saturating_sub(1),
        _ => depth,
    }
}

/// How many `times` of these instructions are still open after the last one?
fn open_loops(code: &[Instr]) -> usize
    ensures { result ≡ def.open_loops code.now }
{
    let mut depth = 0;
    for at in 0..code.len() {
        depth = open_after(depth, code[at]);
    }
    depth
}

/// Is the place of a frame inside of a loop?
fn is_in_loop(program: &Program, frame: &Frame) -> bool
    ensures { result ≡ def.is_in_loop program.now frame.now }
{
    let code = code(program, frame);
    let place = code.len().min(frame.pc as usize);
    open_loops(&code[..place]) > 0
}

fn loop_remedy(program: &Program, frame: &Frame, instr: Instr) -> Remedy
    ensures { result ≡ def.loop_remedy program.now frame.now instr }
{
    match instr {
        Instr::Next => if is_in_loop(program, frame) {
            Remedy::LoopCrossed
        } else {
            Remedy::NextWithoutTimes
        },
        _ => if match_of(code(program, frame), frame.pc).is_none() {
            Remedy::TimesWithoutNext
        } else {
            Remedy::TooManyLoops
        },
    }
}

fn no_scope(held: Slot) -> Remedy
    ensures { result ≡ def.no_scope held }
{
    match held {
        Slot::Sub(_) => Remedy::HoldsSubtask,
        _ => Remedy::NoScope,
    }
}

fn no_subtask(held: Slot) -> Remedy
    ensures { result ≡ def.no_subtask held }
{
    match held {
        Slot::Own(_) | Slot::Lent(_) => Remedy::HoldsScope,
        _ => Remedy::NoSubtask,
    }
}

fn not_empty(held: Slot) -> Remedy
    ensures { result ≡ def.not_empty held }
{
    match held {
        Slot::Own(_) => Remedy::FillsScope,
        Slot::Lent(_) => Remedy::FillsParentScope,
        _ => Remedy::FillsSubtask,
    }
}

fn scope_remedy(frame: &Frame, scope: u8, filled: Option<u8>) -> Remedy
    ensures { result ≡ def.scope_remedy frame.now scope filled }
{
    let held = slot(frame, scope);
    match (held, filled) {
        (Slot::Own(_) | Slot::Lent(_), Some(filled)) => not_empty(slot(frame, filled)),
        _ => no_scope(held),
    }
}

fn slot_remedy(frame: &Frame, instr: Instr) -> Remedy
    ensures { result ≡ def.slot_remedy frame.now instr }
{
    let owners = owners_slot(instr);
    let subtask = subtask_slot(instr);
    let filled = filled_slot(instr);
    match (instr, owners, subtask, filled) {
        (Instr::Cancelled(x), _, _, _) => no_scope(slot(frame, x)),
        (_, Some(x), _, filled) => scope_remedy(frame, x, filled),
        (_, None, Some(handle), _) => no_subtask(slot(frame, handle)),
        (_, None, None, Some(x)) => not_empty(slot(frame, x)),
        (_, None, None, None) => Remedy::NoScope,
    }
}

fn join_remedy(records: &Records, failed: bool, timeout: bool, held: Slot) -> Remedy
    ensures { result ≡ def.join_remedy records.now failed timeout held }
{
    match held {
        Slot::Own(s) => label_remedy(failed, timeout, can_fail(records.joiner(s))),
        _ => Remedy::FailedLabelMissing,
    }
}

fn room_remedy(records: &Records, frame: &Frame, instr: Instr) -> Remedy
    ensures { result ≡ def.room_remedy records.now frame.now instr }
{
    match instr {
        Instr::Open { .. } => if frame.entries.len() >= MAX_ENTRIES {
            Remedy::TooManyOpen
        } else {
            Remedy::NoRoomForScope
        },
        Instr::Fork { .. } => Remedy::NoRoomForTask,
        Instr::Join {
            slot: x,
            failed,
            timeout,
            ..
        } => if frame.operands.len() >= usize::from(MAX_OPERANDS) {
            Remedy::TooManyOperands
        } else {
            join_remedy(records, failed.is_some(), timeout.is_some(), slot(frame, x))
        },
        _ => Remedy::TooManyOpen,
    }
}

/// The first row of the fault that applies.
fn operand_remedy(program: &Program, records: &Records, frame: &Frame, instr: Instr) -> Remedy
    ensures { result ≡ def.operand_remedy program.now records.now frame.now instr }
{
    if lacks_operands(program, frame, instr) {
        Remedy::TooFewOperands
    } else if overflows(program, frame, instr) {
        Remedy::TooManyOperands
    } else if breaks_loop(program, frame, instr) {
        loop_remedy(program, frame, instr)
    } else if has_wrong_slot(frame, instr) {
        slot_remedy(frame, instr)
    } else {
        room_remedy(records, frame, instr)
    }
}

// ---- IllegalState

fn unread_in(records: &Records, s: u32) -> Remedy
    ensures { result ≡ def.unread_in (model.scope_at records.now s).phase }
{
    match records.phase(s) {
        Phase::Attempted => Remedy::ReadAfterInterrupt,
        Phase::Joined => Remedy::ReadAfterTimeout,
        _ => Remedy::ReadBeforeJoin,
    }
}

fn unread(records: &Records, held: Slot) -> Remedy
    ensures { result ≡ def.unread records.now held }
{
    match held {
        Slot::Own(s) => unread_in(records, s),
        _ => Remedy::ReadBeforeJoin,
    }
}

/// A subtask of this scope can't be read, or ended otherwise.
fn of_scope(records: &Records, profile: Profile, s: Option<u32>, otherwise: Remedy) -> Remedy
    ensures { result ≡ (if misuse.is_readable profile (living.parent records.now s) then otherwise
        else def.unread_in (living.parent records.now s).phase) }
{
    match s {
        None => Remedy::ReadBeforeJoin,
        Some(s) => if records.is_readable(profile, s) {
            otherwise
        } else {
            unread_in(records, s)
        },
    }
}

fn ended_otherwise(program: &Program, records: &Records, held: Slot, otherwise: Remedy) -> Remedy
    ensures { result ≡ def.ended_otherwise program.now records.now held otherwise }
{
    match held {
        Slot::Sub(t) => of_scope(records, program.profile(), records.parent(t), otherwise),
        _ => otherwise,
    }
}

fn state_remedy(program: &Program, records: &Records, frame: &Frame, instr: Instr) -> Remedy
    ensures { result ≡ def.state_remedy program.now records.now frame.now instr }
{
    match instr {
        Instr::Fork { .. } => Remedy::ForkAfterJoin,
        Instr::Join { .. } => Remedy::JoinedAlready,
        Instr::Tally(x, _) | Instr::Total(x) => unread(records, slot(frame, x)),
        Instr::Get(x) => { ended_otherwise(program, records, slot(frame, x), Remedy::NotSuccess) }
        Instr::Except(x) => { ended_otherwise(program, records, slot(frame, x), Remedy::NotFailed) }
        _ => Remedy::CloseBeforeJoin,
    }
}

// ---- Structure

fn close_remedy(frame: &Frame) -> Remedy
    ensures { result ≡ def.close_remedy frame.now.entries }
{
    match frame.entries.get(0) {
        Some(Entry::Binding(_, _)) => Remedy::BoundLater,
        _ => Remedy::OpenedLater,
    }
}

fn unbind_remedy(frame: &Frame) -> Remedy
    ensures { result ≡ def.unbind_remedy frame.now.entries }
{
    match frame.entries.get(0) {
        None => Remedy::NothingBound,
        Some(_) => Remedy::OpenedInBinding,
    }
}

fn order_remedy(frame: &Frame, instr: Instr) -> Remedy
    ensures { result ≡ def.order_remedy frame.now instr }
{
    match instr {
        Instr::Fork { .. } => Remedy::ForkAfterBind,
        Instr::Close(_) => close_remedy(frame),
        Instr::Unbind => unbind_remedy(frame),
        _ => Remedy::StillOpen,
    }
}

// ---- all faults

fn remedy_at(
    program: &Program,
    records: &Records,
    frame: &Frame,
    instr: Instr,
    kind: Fault,
) -> Remedy
    ensures { result ≡ def.remedy_at program.now records.now frame.now instr kind }
{
    match kind {
        Fault::Operand => operand_remedy(program, records, frame, instr),
        Fault::WrongThread => Remedy::ParentScope,
        Fault::IllegalState => state_remedy(program, records, frame, instr),
        Fault::Structure => order_remedy(frame, instr),
        Fault::Unbound => Remedy::KeyUnboundNow,
    }
}

/// What to do about a fault of a task.
pub(crate) fn remedy_of(program: &Program, records: &Records, t: u32, kind: Fault) -> Remedy
    requires born { t < length records.now.tasks }
    requires lives { living.lives (model.task_at records.now t) ≡ true }
    ensures { result ≡ def.remedy program.now records.now t kind }
{
    let frame = records.frame(t);
    match instr_at(program, frame) {
        None => Remedy::RunsPastEnd,
        Some(instr) => remedy_at(program, records, frame, instr, kind),
    }
}
