//! The words of one instruction.

ghost use Rattle.std.specs.Prelude.{◌≡◌, ◌++◌, ◌∷◌, [], OnOk, IfOk, string_bytes};
ghost use Rattle.sts_list.specs.Spelling as def;
ghost use Rattle.sts_list.specs.Spelling.{keyword, after_spaces, operands, spelled};
ghost use Rattle.sts_code.specs.Program.{routine};

use std::alloc::{AllocError, Global};
use std::fmt::Write;
use sts_code::{Instr, Joiner, Kind, Pred, Program};
use sts_text::Words;

fn keyword(instr: &Instr) -> &'static str
    ensures { result.now ≡ keyword instr.now }
{
    match instr {
        Instr::Push(_) => "push",
        Instr::Pop => "pop",
        Instr::Dup => "dup",
        Instr::Swap => "swap",
        Instr::Load(_) => "load",
        Instr::Store(_) => "store",
        Instr::Add => "add",
        Instr::Sub => "sub",
        Instr::Mul => "mul",
        Instr::Lt => "lt",
        Instr::Eq => "eq",
        Instr::Div(_) => "div",
        Instr::Jmp(_) => "jmp",
        Instr::Jz(_) => "jz",
        Instr::Times(_) => "times",
        Instr::Next => "next",
        Instr::Open { .. } => "open",
        Instr::Fork { .. } => "fork",
        Instr::Join { .. } => "join",
        Instr::Close(_) => "close",
        Instr::Cancelled(_) => "cancelled",
        Instr::Case { .. } => "case",
        Instr::Get(_) => "get",
        Instr::Except(_) => "except",
        Instr::Tally(..) => "tally",
        Instr::Total(_) => "total",
        Instr::Forget(_) => "forget",
        Instr::Bind(_) => "bind",
        Instr::Unbind => "unbind",
        Instr::Read(_) => "read",
        Instr::Bound(_) => "bound",
        Instr::OrElse(_) => "orelse",
        Instr::Interrupted => "interrupted",
        Instr::Ret => "ret",
        Instr::Fail => "fail",
    }
}

/// Writes a space and the slot.
fn write_slot(out: &mut String, slot: u8) -> Result<(), AllocError>
    ensures { OnOk result (string_bytes out.new ≡ string_bytes out.old ++ (32 ∷ def.slot slot)) }
{
    write!(out, " s{slot}")
}

/// Writes a space and the label of the instruction.
fn write_label(out: &mut String, pc: u32) -> Result<(), AllocError>
    ensures { OnOk result (string_bytes out.new ≡ string_bytes out.old ++ (32 ∷ def.label pc)) }
{
    write!(out, " L{pc}")
}

fn write_maybe_label(out: &mut String, to: Option<u32>) -> Result<(), AllocError>
    ensures { OnOk result (string_bytes out.new ≡
        string_bytes out.old ++ (32 ∷ def.maybe_label to)) }
{
    match to {
        None => out.push_str(" -"),
        Some(pc) => write_label(out, pc),
    }
}

fn write_handle(out: &mut String, handle: Option<u8>) -> Result<(), AllocError>
    ensures { OnOk result (string_bytes out.new ≡
        string_bytes out.old ++ (32 ∷ def.handle handle)) }
{
    match handle {
        None => out.push_str(" _"),
        Some(slot) => write_slot(out, slot),
    }
}

fn write_kind(out: &mut String, kind: Kind) -> Result<(), AllocError>
    ensures { OnOk result (string_bytes out.new ≡
        string_bytes out.old ++ (32 ∷ def.kind_word kind)) }
{
    match kind {
        Kind::S => out.push_str(" S"),
        Kind::F => out.push_str(" F"),
        Kind::U => out.push_str(" U"),
    }
}

/// The words of a joiner, each after a space.
///
/// # Errors
///
/// Memory ran out; `out` may then have a part of them.
pub fn write_joiner(out: &mut String, joiner: Joiner) -> Result<(), AllocError>
    ensures { OnOk result (string_bytes out.new ≡
        string_bytes out.old ++ after_spaces (def.joiner_words joiner)) }
{
    match joiner {
        Joiner::AllSucceed => out.push_str(" all"),
        Joiner::AnySucceeds => out.push_str(" any"),
        Joiner::AwaitOk => out.push_str(" awaitok"),
        Joiner::AwaitAll => out.push_str(" awaitall"),
        Joiner::Until(Pred::Failed(n)) => write!(out, " until failed {n}"),
        Joiner::Until(Pred::Success(n)) => write!(out, " until success {n}"),
        Joiner::Until(Pred::AtLeast(v)) => write!(out, " until atleast {v}"),
    }
}

fn write_timed(out: &mut String, timed: bool) -> Result<(), AllocError>
    ensures { OnOk result (string_bytes out.new ≡
        string_bytes out.old ++ after_spaces (def.timed_words timed)) }
{
    if timed {
        out.push_str(" timed")
    } else {
        Ok(())
    }
}

fn name_of(program: &Program, function: u32) -> &str
    ensures { result.now ≡ (routine program.now function).name }
{
    match program.functions().get(function as usize) {
        None => "",
        Some(function) => function.name.as_str(),
    }
}

fn write_open(out: &mut String, slot: u8, joiner: Joiner, timed: bool) -> Result<(), AllocError>
    ensures { OnOk result (string_bytes out.new ≡
        string_bytes out.old ++ ((32 ∷ def.slot slot) ++
        (after_spaces (def.joiner_words joiner) ++ after_spaces (def.timed_words timed)))) }
{
    write_slot(out, slot)?;
    write_joiner(out, joiner)?;
    write_timed(out, timed)
}

fn write_fork(out: &mut String, slot: u8, name: &str, handle: Option<u8>) -> Result<(), AllocError>
    ensures { OnOk result (string_bytes out.new ≡
        string_bytes out.old ++
        after_spaces (def.slot slot ∷ name.now ∷ def.handle handle ∷ [])) }
{
    write!(out, " s{slot} {name}")?;
    write_handle(out, handle)
}

fn write_join(
    out: &mut String,
    slot: u8,
    failed: Option<u32>,
    timeout: Option<u32>,
    interrupted: u32,
) -> Result<(), AllocError>
    ensures { OnOk result (string_bytes out.new ≡
        string_bytes out.old ++ after_spaces (def.slot slot ∷ def.maybe_label failed ∷
        def.maybe_label timeout ∷ def.label interrupted ∷ [])) }
{
    write_slot(out, slot)?;
    write_maybe_label(out, failed)?;
    write_maybe_label(out, timeout)?;
    write_label(out, interrupted)
}

fn write_operands(out: &mut String, instr: Instr, program: &Program) -> Result<(), AllocError>
    ensures { OnOk result (string_bytes out.new ≡
        string_bytes out.old ++ after_spaces (operands program.now instr)) }
{
    match instr {
        Instr::Push(value) => write!(out, " {value}"),
        Instr::Load(x)
        | Instr::Store(x)
        | Instr::Bind(x)
        | Instr::Read(x)
        | Instr::Bound(x)
        | Instr::OrElse(x) => write!(out, " {x}"),
        Instr::Times(bound) => write!(out, " {bound}"),
        Instr::Div(to) | Instr::Jmp(to) | Instr::Jz(to) => write_label(out, to),
        Instr::Close(slot)
        | Instr::Cancelled(slot)
        | Instr::Get(slot)
        | Instr::Except(slot)
        | Instr::Total(slot)
        | Instr::Forget(slot) => write_slot(out, slot),
        Instr::Open {
            slot,
            joiner,
            timed,
        } => write_open(out, slot, joiner, timed),
        Instr::Fork {
            slot,
            function,
            handle,
        } => write_fork(out, slot, name_of(program, function), handle),
        Instr::Join {
            slot,
            failed,
            timeout,
            interrupted,
        } => write_join(out, slot, failed, timeout, interrupted),
        Instr::Case {
            handle,
            success,
            failed,
        } => write!(out, " s{handle} L{success} L{failed}"),
        Instr::Tally(slot, kind) => {
            write_slot(out, slot)?;
            write_kind(out, kind)
        }
        _ => Ok(()),
    }
}

/// Appends the words of an instruction.
///
/// # Errors
///
/// Memory ran out; some of the words may be written then.
pub fn write_instr(out: &mut String, instr: Instr, program: &Program) -> Result<(), AllocError>
    ensures { OnOk result (string_bytes out.new ≡
        string_bytes out.old ++ spelled program.now instr) }
{
    out.push_str(keyword(&instr))?;
    write_operands(out, instr, program)
}

/// The words of one instruction of a program, one space apart, as in its listing.
///
/// # Errors
///
/// Memory ran out.
pub fn spell(alloc: Global, instr: &Instr, program: &Program) -> Result<String, AllocError>
    ensures { IfOk result (λ text. string_bytes text ≡ spelled program.now instr.now) }
{
    let mut out = String::new(alloc);
    write_instr(&mut out, *instr, program)?;
    Ok(out)
}

/// Appends words as they are, each after a space.
///
/// # Errors
///
/// Memory ran out; `out` may then have a part of them.
pub fn write_words<'a>(out: &mut Vec<u8>, words: Words<'a>) -> Result<(), AllocError>
    ensures { OnOk result (out.new.items ≡ out.old.items ++ after_spaces words.entry) }
{
    let mut left = words;
    while let Some(word) = left.word() {
        out.push(b' ')?;
        out.extend_from_slice(word)?;
    }
    Ok(())
}
