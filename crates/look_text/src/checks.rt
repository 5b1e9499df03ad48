//! The place where a text's functions fail a program check.

ghost use Rattle.std.specs.Prelude.{◌≡◌, ◌++◌, ◌≤◌, Ok, OnOk, length, option_map, slice_get};
ghost use Rattle.std.specs.Option.{option_copied};
ghost use Rattle.sts_asm.specs.Source.{name_at, sentence_at};
ghost use Rattle.look_text.specs.Checks as def;
ghost use Rattle.look_text.specs.Functions.{functions_of};
ghost use Rattle.look_text.specs.Heads.{head_at};

use crate::functions::Source;
use crate::heads::head_line;
use crate::lines::{Said, say, say_line};
use std::alloc::Global;
use sts_asm::{Outline, Sentence, words_at};
use sts_code::{CodeCause, CodeError, MAX_ARGS, MAX_FUNCTIONS};
use sts_text::Words;

fn say_function(out: &mut Vec<u8>, name: Option<&str>) -> Said
    ensures { OnOk result (out.new.items
        ≡ out.old.items ++ def.in_function (option_map (λ n. n.now) name.entry)) }
{
    match name {
        None => Ok(()),
        Some(name) => {
            say(out, " in ")?;
            say(out, name)
        }
    }
}

/// The function that the line of its head names.
fn say_named<'a>(out: &mut Vec<u8>, words: Words<'a>) -> Said
    ensures { OnOk result (out.new.items
        ≡ out.old.items ++ def.in_function (slice_get words.entry 1)) }
{
    let mut words = words;
    let _ = words.word();
    match words.word() {
        None => Ok(()),
        Some(name) => {
            say(out, " in ")?;
            out.extend_from_slice(name)
        }
    }
}

fn say_head(alloc: Global, out: &mut Vec<u8>, text: &[u8], line: Option<u32>) -> Said
    ensures { OnOk result (out.new.items ≡ out.old.items ++ def.head_place text.now line) }
{
    match line {
        None => Ok(()),
        Some(line) => {
            say_named(out, words_at(text, line))?;
            say_line(alloc, out, line, words_at(text, line))
        }
    }
}

fn say_instr(alloc: Global, out: &mut Vec<u8>, sentence: Option<&Sentence<'_>>) -> Said
    ensures { OnOk result (out.new.items
        ≡ out.old.items ++ def.instr_place (option_copied sentence.entry)) }
{
    match sentence {
        None => Ok(()),
        Some(sentence) => say_line(alloc, out, sentence.line(), sentence.words()),
    }
}

/// Returns the function that a failed check is about.
pub fn failing_function(outline: &Outline<'_>, error: CodeError) -> usize
    ensures { result ≡ def.failing outline.now error.function error.cause }
{
    match error.cause {
        CodeCause::TooManyFunctions => MAX_FUNCTIONS,
        CodeCause::NoMain => outline.function_count().saturating_sub(1),
        _ => error.function as usize,
    }
}

pub(crate) fn takes_too_many(args: Option<u8>) -> bool
    ensures { result ≡ def.takes_too_many args }
{
    match args {
        None => false,
        Some(args) => args > MAX_ARGS,
    }
}

/// Says whether a failed check is about a whole function, and not about an instruction.
pub fn is_of_head(outline: &Outline<'_>, error: CodeError) -> bool
    ensures { result ≡ def.is_of_head outline.now error.function error.pc error.cause }
{
    match error.cause {
        CodeCause::BadTarget | CodeCause::LaterFunction => false,
        CodeCause::BadRange => {
            takes_too_many(outline.args(error.function))
                || outline.sentence(error.function, error.pc).is_none()
        }
        _ => true,
    }
}

/// The line of the head of the function that a failed check is about, if there is one.
pub(crate) fn failing_head(outline: &Outline<'_>, text: &[u8], error: CodeError) -> Option<u32>
    requires { length text.now ≤ 1048576 }
    ensures { result ≡ head_at text.now (def.failing outline.now error.function error.cause) }
{
    head_line(text, failing_function(outline, error))
}

/// The function and the line of an instruction.
fn say_instr_place(
    alloc: Global,
    out: &mut Vec<u8>,
    outline: &Outline<'_>,
    error: CodeError,
) -> Said
    ensures { OnOk result (out.new.items
        ≡ out.old.items ++ (def.in_function (name_at outline.now error.function)
        ++ def.instr_place (sentence_at outline.now error.function error.pc))) }
{
    say_function(out, outline.name(error.function))?;
    say_instr(alloc, out, outline.sentence(error.function, error.pc))
}

impl Source<'_, '_> {
    /// The place where a program check fails: the function, and the line of its head or of an
    /// instruction.
    ///
    /// # Errors
    ///
    /// Memory ran out; `out` may then have a part of it.
    #[tactic(auto, using(crate::proofs::HeadLemmas::functions_short))]
    pub(crate) fn say_code_place(&self, alloc: Global, out: &mut Vec<u8>, error: CodeError) -> Said
        ensures { OnOk result (out.new.items
            ≡ out.old.items ++ def.code_place self.now (functions_of self.now) error) }
    {
        let Some(outline) = self.functions() else {
            return Ok(());
        };
        if is_of_head(outline, error) {
            say_head(
                alloc,
                out,
                self.text(),
                failing_head(outline, self.text(), error),
            )
        } else {
            say_instr_place(alloc, out, outline, error)
        }
    }
}
