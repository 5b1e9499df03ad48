//! The lines of a refusal.

ghost use Rattle.std.specs.Prelude.{◌≡◌, ◌++◌, OnOk};
ghost use Rattle.std.specs.Option.{option_copied};
ghost use Rattle.look_refusal.specs.Lines as def;

use crate::remedy::Remedy;
use crate::sentences::remedy_sentence;
use look_text::{Said, say, say_number, say_place};
use std::alloc::Global;
use sts_asm::Sentence;
use sts_code::{Program, name_of};
use sts_rules::Cause;

/// The lines of a refusal: where it is, and what to do about it.
///
/// # Errors
///
/// Memory ran out; `out` may then have a part of them.
pub(crate) fn refused_lines(
    alloc: Global,
    out: &mut Vec<u8>,
    program: &Program,
    sentence: Option<&Sentence<'_>>,
    function: u32,
    cause: Cause,
    remedy: Remedy,
) -> Said
    ensures { OnOk result (out.new.items ≡ out.old.items
        ++ def.refused_lines program.now (option_copied sentence.entry) function cause remedy) }
{
    say_number(alloc, out, "refused V", cause.number() as u128)?;
    say(out, " in ")?;
    say(out, name_of(program, function))?;
    say_place(alloc, out, sentence)?;
    say(out, "\n")?;
    say(out, remedy_sentence(remedy))?;
    say(out, "\n")
}
