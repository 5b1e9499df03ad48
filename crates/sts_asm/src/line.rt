//! Instructions from their words.

ghost use Rattle.std.specs.Prelude.{◌≡◌, ◌∷◌, None, Ok, Err, IfOk, IfErr, IfSome, IfNone};
ghost use Rattle.std.specs.Option.{option_copied};
ghost use Rattle.sts_asm.specs.Line.{open_at, fork_at, join_at, case_at, tally_at, operated};
ghost use Rattle.sts_asm.specs.Line.{plain_words, instr_of, without_operands};
ghost use Rattle.sts_asm.specs.Operand.{looked_up};
ghost use Rattle.sts_asm.specs.declared.mnemonic.Mnemonic.TheVariants.{WithNumber, WithSlot};
ghost use Rattle.sts_asm.specs.declared.mnemonic.Mnemonic.TheVariants.{WithTarget, Push, Times};

use crate::fault::{LineFault, LineKind};
use crate::marks::Names;
use crate::mnemonic::{
    Mnemonic, Numbered, Operandless, Slotted, Targeted, mnemonic_of, plain_word,
};
use crate::operand::{
    byte_at, finished, function_at, handle_at, joiner_at, kind_at, maybe_target_at, number_at,
    slot_at, target_at, timed_at, value_at,
};
use sts_code::Instr;
use sts_text::Words;

fn numbered_at(words: &mut Words<'_>, form: Numbered) -> Result<Instr, LineFault>
    ensures { result ≡ operated None (WithNumber form) words.old }
{
    let x = byte_at(words)?;
    finished(words, form.with(x))
}

fn slotted_at(words: &mut Words<'_>, form: Slotted) -> Result<Instr, LineFault>
    ensures { result ≡ operated None (WithSlot form) words.old }
{
    let slot = slot_at(words)?;
    finished(words, form.with(slot))
}

fn targeted_at(
    words: &mut Words<'_>,
    names: Option<&Names<'_, '_>>,
    form: Targeted,
) -> Result<Instr, LineFault>
    ensures { result ≡ operated (option_copied names.entry) (WithTarget form) words.old }
{
    let to = target_at(words, names)?;
    finished(words, form.with(to))
}

fn push_at(words: &mut Words<'_>) -> Result<Instr, LineFault>
    ensures { result ≡ operated None Push words.old }
{
    let value = value_at(words)?;
    finished(words, Instr::Push(value))
}

fn times_at(words: &mut Words<'_>) -> Result<Instr, LineFault>
    ensures { result ≡ operated None Times words.old }
{
    let bound = number_at(words, 65535)?;
    finished(words, Instr::Times(bound as u16))
}

fn open_at(words: &mut Words<'_>) -> Result<Instr, LineFault>
    ensures { result ≡ open_at words.old }
{
    let slot = slot_at(words)?;
    let joiner = joiner_at(words)?;
    let timed = timed_at(words)?;
    finished(
        words,
        Instr::Open {
            slot,
            joiner,
            timed,
        },
    )
}

fn fork_at(words: &mut Words<'_>, names: Option<&Names<'_, '_>>) -> Result<Instr, LineFault>
    ensures { result ≡ fork_at (option_copied names.entry) words.old }
{
    let slot = slot_at(words)?;
    let function = function_at(words, names)?;
    let handle = handle_at(words)?;
    finished(
        words,
        Instr::Fork {
            slot,
            function,
            handle,
        },
    )
}

fn join_at(words: &mut Words<'_>, names: Option<&Names<'_, '_>>) -> Result<Instr, LineFault>
    ensures { result ≡ join_at (option_copied names.entry) words.old }
{
    let slot = slot_at(words)?;
    let failed = maybe_target_at(words, names)?;
    let timeout = maybe_target_at(words, names)?;
    let interrupted = target_at(words, names)?;
    finished(
        words,
        Instr::Join {
            slot,
            failed,
            timeout,
            interrupted,
        },
    )
}

fn case_at(words: &mut Words<'_>, names: Option<&Names<'_, '_>>) -> Result<Instr, LineFault>
    ensures { result ≡ case_at (option_copied names.entry) words.old }
{
    let handle = slot_at(words)?;
    let success = target_at(words, names)?;
    let failed = target_at(words, names)?;
    finished(
        words,
        Instr::Case {
            handle,
            success,
            failed,
        },
    )
}

fn tally_at(words: &mut Words<'_>) -> Result<Instr, LineFault>
    ensures { result ≡ tally_at words.old }
{
    let slot = slot_at(words)?;
    let kind = kind_at(words)?;
    finished(words, Instr::Tally(slot, kind))
}

fn operated(
    words: &mut Words<'_>,
    names: Option<&Names<'_, '_>>,
    mnemonic: Mnemonic,
) -> Result<Instr, LineFault>
    ensures { result ≡ operated (option_copied names.entry) mnemonic words.old }
{
    match mnemonic {
        Mnemonic::Plain(instr) => finished(words, instr),
        Mnemonic::WithNumber(form) => numbered_at(words, form),
        Mnemonic::WithSlot(form) => slotted_at(words, form),
        Mnemonic::WithTarget(form) => targeted_at(words, names, form),
        Mnemonic::Push => push_at(words),
        Mnemonic::Times => times_at(words),
        Mnemonic::Open => open_at(words),
        Mnemonic::Fork => fork_at(words, names),
        Mnemonic::Join => join_at(words, names),
        Mnemonic::Case => case_at(words, names),
        Mnemonic::Tally => tally_at(words),
    }
}

/// The instruction without operands that a first word and the words after it spell, or `None` if
/// the first word is no such instruction's.
///
/// # Errors
///
/// A word is left over.
#[inline(always)]
#[tactic(auto, using(crate::proofs::TableLemmas::plain_first))]
pub fn operandless_of(word: &[u8], words: &mut Words<'_>) -> Result<Option<Operandless>, LineFault>
    ensures spelled { IfOk result (λ found. IfSome found (λ form.
        instr_of None (word.now ∷ words.old) ≡ Ok (without_operands form))) }
    ensures other { IfOk result (λ found. IfNone found
        (looked_up plain_words word.now ≡ None)) }
    ensures untouched { IfOk result (λ found. IfNone found (words.new ≡ words.old)) }
    ensures err { IfErr result (λ fault. instr_of None (word.now ∷ words.old) ≡ Err fault) }
{
    let Some(form) = plain_word(word) else {
        return Ok(None);
    };
    match words.word() {
        None => Ok(Some(form)),
        Some(_) => Err(LineFault(LineKind::BadOperands)),
    }
}

/// Kept out of line, so that the path of an instruction without operands is short.
#[inline(never)]
pub fn with_operands(
    word: &[u8],
    words: &mut Words<'_>,
    names: Option<&Names<'_, '_>>,
) -> Result<Instr, LineFault>
    requires { looked_up plain_words word.now ≡ None }
    ensures { result ≡ instr_of (option_copied names.entry) (word.now ∷ words.old) }
{
    let Some(mnemonic) = mnemonic_of(word) else {
        return Err(LineFault(LineKind::UnknownWord));
    };
    operated(words, names, mnemonic)
}

/// The instruction that a first word and the words after it spell, or the first place that is
/// wrong.
///
/// # Errors
///
/// The kind of the first fault among the words.
#[inline(always)]
#[tactic(auto, using(crate::proofs::TableLemmas::plain_first))]
pub fn instr_of(
    word: &[u8],
    words: &mut Words<'_>,
    names: Option<&Names<'_, '_>>,
) -> Result<Instr, LineFault>
    ensures { result ≡ instr_of (option_copied names.entry) (word.now ∷ words.old) }
{
    if let Some(form) = plain_word(word) {
        return finished(words, form.instr());
    }
    with_operands(word, words, names)
}
