//! One instruction of one task.

ghost use Rattle.std.specs.Prelude.{◌≡◌, ◌<◌, ◌+◌, ◌-◌, ◌^◌, length, [], ◌∷◌, OnOk, OnErr, true};
ghost use Rattle.std.specs.Prelude.{false, Some, None};
ghost use Rattle.sts_code.specs.declared.limits.TheConstants.{MAX_OPERANDS};
ghost use Rattle.sts_model.specs.Effect as effect;
ghost use Rattle.sts_model.specs.Living as living;
ghost use Rattle.sts_model.specs.Local as frames;
ghost use Rattle.sts_model.specs.Misuse.{misuse, slot};
ghost use Rattle.sts_model.specs.Run as run;
ghost use Rattle.sts_model.specs.World as def;
ghost use Rattle.sts_plain.specs.Next.{IsNext};

use std::alloc::{AllocError, Global};
use sts_code::{Instr, Program};
use sts_frames::{
    case_target, code, enter_binding, instr_at, leave_entry, local, named, stays_in_frame,
    value_or_zero,
};
use sts_model::End;
use sts_world::{Records, World};

/// The scope or subtask that a slot of a task holds.
fn at_slot(records: &Records, t: u32, x: u8) -> u32
    requires born { t < length records.now.tasks }
    requires lives { living.lives (def.task_at records.now t) ≡ true }
    ensures { result ≡ effect.named (slot (def.task_at records.now t).frame x) }
{
    named(records.frame(t), x)
}

/// The top operand.
fn top(records: &Records, t: u32) -> i64
    requires born { t < length records.now.tasks }
    requires lives { living.lives (def.task_at records.now t) ≡ true }
    ensures { result ≡ frames.operand (def.task_at records.now t).frame 0 }
{
    records.frame(t).operand(0)
}

/// Pops `n` operands, pushes a value and goes on.
fn push_value(world: &mut World, t: u32, n: usize, value: i64)
    requires born { t < length world.old.tasks }
    requires lives { living.lives (def.task_at world.old t) ≡ true }
    requires more { (def.task_at world.old t).frame.pc + 1 < 2 ^ 32 }
    requires room { length (def.task_at world.old t).frame.operands - n < MAX_OPERANDS }
    ensures { world.new ≡ def.with_frame world.old t
        (frames.steps (def.task_at world.old t).frame n (value ∷ [])) }
{
    let frame = world.living(t);
    let next = frame.pc + 1;
    frame.goes_with(next, n, value);
}

/// Does the next instruction of a task. It must be no misuse.
///
/// # Errors
///
/// Memory ran out; the world is unchanged.
#[tactic(auto, using(sts_model::proofs::FineLemmas::fine))]
pub fn act(world: &mut World, alloc: Global, program: &Program, t: u32) -> Result<(), AllocError>
    requires born { t < length world.old.tasks }
    requires lives { living.lives (def.task_at world.old t) ≡ true }
    requires fine { misuse program.now world.old t ≡ None }
    ensures ok { OnOk result (world.new ≡ run.perform program.now world.old t
        (def.task_at world.old t).frame (def.instr_at program.now
        (def.task_at world.old t).frame)) }
    ensures err { OnErr result (world.new ≡ world.old) }
{
    match instr_at(program, world.records().frame(t)) {
        None => Ok(()),
        Some(instr) => perform(world, alloc, program, t, instr),
    }
}

/// Does an instruction that is no misuse.
#[tactic(auto, using(crate::proofs::Forks::forks_open))]
fn perform(
    world: &mut World,
    alloc: Global,
    program: &Program,
    t: u32,
    instr: Instr,
) -> Result<(), AllocError>
    requires { IsNext program.now world.old t instr }
    ensures ok { OnOk result (world.new ≡ effect.effect program.now world.old t
        (def.task_at world.old t).frame instr) }
    ensures err { OnErr result (world.new ≡ world.old) }
{
    match instr {
        Instr::Open {
            slot,
            joiner,
            timed,
        } => world.open_scope(alloc, t, slot, joiner, timed),
        Instr::Fork {
            slot,
            function,
            handle,
        } => {
            let s = at_slot(world.records(), t, slot);
            world.fork_task(alloc, program, t, s, function, handle)
        }
        Instr::Ret => {
            let value = top(world.records(), t);
            world.end_task(alloc, t, End::Success(value))
        }
        Instr::Fail => {
            let code = top(world.records(), t);
            world.end_task(alloc, t, End::Failed(code))
        }
        _ => {
            change(world, program, t, instr);
            Ok(())
        }
    }
}

/// Does an instruction that takes no memory.
fn change(world: &mut World, program: &Program, t: u32, instr: Instr)
    requires next { IsNext program.now world.old t instr }
    requires fixed { effect.takes_memory instr ≡ false }
    ensures { world.new ≡ effect.effect program.now world.old t
        (def.task_at world.old t).frame instr }
{
    match instr {
        _ if stays_in_frame(instr) => {
            let frame = world.living(t);
            let instructions = code(program, frame);
            local(frame, program, instructions, instr);
        }
        Instr::Join {
            slot,
            failed,
            timeout,
            interrupted,
        } => {
            let s = at_slot(world.records(), t, slot);
            let on_failure = failed.unwrap_or(0);
            let on_timeout = timeout.unwrap_or(0);
            world.join(t, s, on_failure, on_timeout, interrupted);
        }
        Instr::Close(x) => {
            let s = at_slot(world.records(), t, x);
            world.close(t, s);
        }
        Instr::Cancelled(x) => {
            let s = at_slot(world.records(), t, x);
            let cancelled = world.records().is_cancelled(s);
            push_value(world, t, 0, i64::from(cancelled));
        }
        Instr::Case {
            handle,
            success,
            failed,
        } => {
            let sub = at_slot(world.records(), t, handle);
            let next = world.records().frame(t).pc + 1;
            let to = case_target(world.sub_state(sub), success, failed, next);
            world.living(t).goes(to, 0);
        }
        Instr::Get(h) | Instr::Except(h) => {
            let sub = at_slot(world.records(), t, h);
            let value = value_or_zero(world.sub_state(sub));
            push_value(world, t, 0, value);
        }
        Instr::Tally(x, kind) => {
            let s = at_slot(world.records(), t, x);
            let count = world.tally(s, kind);
            push_value(world, t, 0, count);
        }
        Instr::Total(x) => {
            let s = at_slot(world.records(), t, x);
            let sum = world.total(s);
            push_value(world, t, 0, sum);
        }
        Instr::Bind(k) => enter_binding(world.living(t), k),
        Instr::Unbind => leave_entry(world.living(t)),
        Instr::Read(k) => {
            let value = world.records().read(t, k).unwrap_or(0);
            push_value(world, t, 0, value);
        }
        Instr::Bound(k) => {
            let bound = world.records().read(t, k).is_some();
            push_value(world, t, 0, i64::from(bound));
        }
        Instr::OrElse(k) => {
            let otherwise = top(world.records(), t);
            let value = world.records().read(t, k).unwrap_or(otherwise);
            push_value(world, t, 1, value);
        }
        Instr::Interrupted => world.take_flag(t),
        // `perform` does the instructions that take memory.
        _ => {}
    }
}
