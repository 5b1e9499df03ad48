//! Tests for misuse, and the fault that they find.

ghost use Rattle.std.specs.Prelude.{◌≡◌, ◌<◌, ℕ, ◌||◌, length, true};
ghost use Rattle.sts_model.specs.Living as living;
ghost use Rattle.sts_model.specs.Local as local;
ghost use Rattle.sts_model.specs.Misuse as misuse;
ghost use Rattle.sts_model.specs.World as def;

use crate::frame_tests::{
    breaks_loop, breaks_structure, has_wrong_slot, is_strangers, lacks_operands, overflows,
};
use sts_code::{
    Instr, Joiner, MAX_BIRTHS, MAX_ENTRIES, MAX_OPERANDS, MAX_STANDING, Profile, Program, can_fail,
};
use sts_frames::{instr_at, is_local, slot};
use sts_model::{End, Fault, Frame, Slot};
use sts_world::{Records, World};

/// Does the form of a `join` not fit the scope?
fn joins_wrongly(
    records: &Records,
    s: u32,
    frame: &Frame,
    failed: Option<u32>,
    timeout: Option<u32>,
) -> bool
    ensures { result ≡ misuse.joins_wrongly frame.now failed timeout (def.scope_at records.now s) }
{
    let joiner = records.joiner(s);
    let full = frame.operands.len() >= usize::from(MAX_OPERANDS)
        && !matches!(joiner, Joiner::AwaitAll);
    full || failed.is_some() != can_fail(joiner) || timeout.is_some() != records.is_timed(s)
}

fn misjoins(records: &Records, frame: &Frame, instr: Instr) -> bool
    ensures { result ≡ misuse.misjoins records.now frame.now instr }
{
    match instr {
        Instr::Join {
            slot: x,
            failed,
            timeout,
            ..
        } => match slot(frame, x) {
            Slot::Own(s) => joins_wrongly(records, s, frame, failed, timeout),
            _ => false,
        },
        _ => false,
    }
}

/// Do too many count now, or were too many born?
fn is_crowded(standing: usize, born: usize) -> bool
    ensures { result ≡ misuse.is_crowded standing born }
{
    standing >= MAX_STANDING as usize || born >= MAX_BIRTHS
}

fn has_no_room(world: &World, frame: &Frame, instr: Instr) -> bool
    ensures { result ≡ misuse.has_no_room world.now frame.now instr }
{
    match instr {
        Instr::Open { .. } => {
            frame.entries.len() >= MAX_ENTRIES
                || is_crowded(world.standing_scopes(), world.records().scopes_born())
        }
        Instr::Bind(_) => frame.entries.len() >= MAX_ENTRIES,
        Instr::Fork { .. } => is_crowded(world.standing_tasks(), world.records().tasks_born()),
        _ => false,
    }
}

/// May this subtask be read?
fn is_readable_of(records: &Records, profile: Profile, t: u32) -> bool
    ensures { result ≡ misuse.is_readable profile (living.scope_of records.now t) }
{
    match records.parent(t) {
        Some(s) => records.is_readable(profile, s),
        None => false,
    }
}

fn has_succeeded(end: Option<End>) -> bool
    ensures { result ≡ misuse.has_succeeded end }
{
    matches!(end, Some(End::Success(_)))
}

fn has_failed(end: Option<End>) -> bool
    ensures { result ≡ misuse.has_failed end }
{
    matches!(end, Some(End::Failed(_)))
}

/// Is the scope or subtask not in the state for the instruction?
fn is_illegal(world: &World, program: &Program, frame: &Frame, instr: Instr) -> bool
    ensures { result ≡ misuse.is_illegal program.now world.now frame.now instr }
{
    let records = world.records();
    match instr {
        Instr::Fork { slot: x, .. } => match slot(frame, x) {
            Slot::Own(s) => !records.phase(s).is_opened(),
            _ => false,
        },
        Instr::Join { slot: x, .. } => match slot(frame, x) {
            Slot::Own(s) => !records.phase(s).can_join(),
            _ => false,
        },
        Instr::Close(x) => match slot(frame, x) {
            Slot::Own(s) => records.phase(s).is_opened() && world.subtask_count(s) > 0,
            _ => false,
        },
        Instr::Tally(x, _) | Instr::Total(x) => match slot(frame, x) {
            Slot::Own(s) => !records.is_readable(program.profile(), s),
            _ => false,
        },
        Instr::Get(x) => match slot(frame, x) {
            Slot::Sub(t) => {
                !(is_readable_of(records, program.profile(), t)
                    && has_succeeded(world.sub_state(t)))
            }
            _ => false,
        },
        Instr::Except(x) => match slot(frame, x) {
            Slot::Sub(t) => {
                !(is_readable_of(records, program.profile(), t) && has_failed(world.sub_state(t)))
            }
            _ => false,
        },
        _ => false,
    }
}

fn is_unbound(records: &Records, t: u32, instr: Instr) -> bool
    ensures { result ≡ misuse.is_unbound records.now t instr }
{
    match instr {
        Instr::Read(k) => records.read(t, k).is_none(),
        _ => false,
    }
}

/// Does the frame alone show that operands or loops are misused?
#[inline(always)]
fn misuses_frame(program: &Program, frame: &Frame, instr: Instr) -> bool
    ensures { result ≡ (misuse.lacks_operands program.now frame.now instr
        || misuse.overflows program.now frame.now instr
        || misuse.breaks_loop program.now frame.now instr) }
{
    lacks_operands(program, frame, instr)
        || overflows(program, frame, instr)
        || breaks_loop(program, frame, instr)
}

fn misuses_operand(world: &World, program: &Program, frame: &Frame, instr: Instr) -> bool
    ensures { result ≡ misuse.misuses_operand program.now world.now frame.now instr }
{
    misuses_frame(program, frame, instr)
        || has_wrong_slot(frame, instr)
        || misjoins(world.records(), frame, instr)
        || has_no_room(world, frame, instr)
}

/// The fault of a local instruction. It misuses neither a slot nor a scope nor the structure list.
#[tactic(auto, using(crate::proofs::Locals::local_fault))]
fn local_fault(program: &Program, frame: &Frame, instr: Instr) -> Option<Fault>
    requires { local.is_local instr ≡ true }
    ensures { (w : def.World) (t : ℕ)
        → result ≡ misuse.fault_of program.now w t frame.now instr }
{
    if misuses_frame(program, frame, instr) {
        Some(Fault::Operand)
    } else {
        None
    }
}

/// The fault of an instruction, the first kind that applies.
fn fault_of(world: &World, program: &Program, t: u32, frame: &Frame, instr: Instr) -> Option<Fault>
    ensures { result ≡ misuse.fault_of program.now world.now t frame.now instr }
{
    if is_local(instr) {
        local_fault(program, frame, instr)
    } else if misuses_operand(world, program, frame, instr) {
        Some(Fault::Operand)
    } else if is_strangers(frame, instr) {
        Some(Fault::WrongThread)
    } else if is_illegal(world, program, frame, instr) {
        Some(Fault::IllegalState)
    } else if breaks_structure(frame, instr) {
        Some(Fault::Structure)
    } else if is_unbound(world.records(), t, instr) {
        Some(Fault::Unbound)
    } else {
        None
    }
}

/// The fault of a step of this task, or `None` if the step may be taken.
pub fn misuse(world: &World, program: &Program, t: u32) -> Option<Fault>
    requires born { t < length world.now.tasks }
    requires lives { living.lives (def.task_at world.now t) ≡ true }
    ensures { result ≡ misuse.misuse program.now world.now t }
{
    let frame = world.records().frame(t);
    match instr_at(program, frame) {
        None => Some(Fault::Operand),
        Some(instr) => fault_of(world, program, t, frame, instr),
    }
}
