//! What is shown of a value, a function and a line.

ghost use Rattle.std.specs.List.{flat_map};
ghost use Rattle.std.specs.Prelude.{◌≡◌, ◌++◌, OnOk, Some, codes};
ghost use Rattle.look_names.specs.Words as def;

use crate::names::Names;
use std::alloc::{AllocError, Global};
use sts_asm::Sentence;
use sts_code::{Program, name_of};
use sts_list::write_words;

/// What a call that appends words returns: memory may run out.
pub type Said = Result<(), AllocError>;

/// Appends a text.
fn say(out: &mut Vec<u8>, text: &str) -> Said
    ensures { OnOk result (out.new.items ≡ out.old.items ++ text.now) }
{
    out.extend_from_slice(text.as_bytes())
}

/// Appends a value: its name, or its number.
///
/// # Errors
///
/// Memory ran out; `out` may then have a part of it.
pub fn say_value(alloc: Global, out: &mut Vec<u8>, names: &Names<'_>, value: i64) -> Said
    ensures { OnOk result (out.new.items ≡ out.old.items ++ def.value_words names.now value) }
{
    match names.value(value) {
        Some(name) => say(out, name),
        None => {
            let number = format!(in alloc; "{value}")?;
            say(out, number.as_str())
        }
    }
}

/// The arguments after the first one.
fn say_more(alloc: Global, out: &mut Vec<u8>, names: &Names<'_>, values: &[i64]) -> Said
    ensures { OnOk result (out.new.items ≡ out.old.items
        ++ flat_map (λ x. codes ", " ++ def.value_words names.now x) values.now) }
{
    for value in values {
        say(out, ", ")?;
        say_value(alloc, out, names, *value)?;
    }
    Ok(())
}

/// The arguments in brackets.
#[tactic(auto, unfolding(crate::specs::Words::listed_words))]
fn say_listed(
    alloc: Global,
    out: &mut Vec<u8>,
    names: &Names<'_>,
    first: i64,
    others: &[i64],
) -> Said
    ensures { OnOk result (out.new.items ≡ out.old.items
        ++ def.listed_words names.now first others.now) }
{
    say(out, "(")?;
    say_value(alloc, out, names, first)?;
    say_more(alloc, out, names, others)?;
    say(out, ")")
}

/// Appends the arguments of a call in brackets, if there are any: `(1, 2)`.
///
/// # Errors
///
/// Memory ran out; `out` may then have a part of it.
pub fn say_arguments(alloc: Global, out: &mut Vec<u8>, names: &Names<'_>, values: &[i64]) -> Said
    ensures { OnOk result (out.new.items ≡ out.old.items
        ++ def.arguments_words names.now values.now) }
{
    if values.len() == 0 {
        Ok(())
    } else {
        say_listed(alloc, out, names, values[0], &values[1..])
    }
}

/// Appends the name of a function: that of its marked comment, or the one in its `func`.
///
/// # Errors
///
/// Memory ran out; `out` may then have a part of it.
pub fn say_function(out: &mut Vec<u8>, names: &Names<'_>, program: &Program, function: u32) -> Said
    ensures { OnOk result (out.new.items
        ≡ out.old.items ++ def.function_words names.now program.now function) }
{
    match names.function(function) {
        Some(name) => say(out, name),
        None => say(out, name_of(program, function)),
    }
}

/// Appends a line: its name, or `line N`.
///
/// # Errors
///
/// Memory ran out; `out` may then have a part of it.
pub fn say_line(alloc: Global, out: &mut Vec<u8>, names: &Names<'_>, number: u32) -> Said
    ensures { OnOk result (out.new.items ≡ out.old.items ++ def.line_words names.now number) }
{
    match names.line(number) {
        Some(name) => say(out, name),
        None => {
            let words = format!(in alloc; "line {number}")?;
            say(out, words.as_str())
        }
    }
}

/// Appends the line of the instruction at a place of a function, or `its end`.
///
/// # Errors
///
/// Memory ran out; `out` may then have a part of it.
pub fn say_place(
    alloc: Global,
    out: &mut Vec<u8>,
    names: &Names<'_>,
    function: u32,
    pc: u32,
) -> Said
    ensures { OnOk result (out.new.items
        ≡ out.old.items ++ def.place_words names.now function pc) }
{
    match names.sentence(function, pc) {
        None => say(out, "its end"),
        Some(sentence) => say_line(alloc, out, names, sentence.line()),
    }
}

fn say_line_and_words(
    alloc: Global,
    out: &mut Vec<u8>,
    names: &Names<'_>,
    sentence: &Sentence<'_>,
) -> Said
    ensures { OnOk result (out.new.items
        ≡ out.old.items ++ def.said_by names.now (Some sentence.now)) }
{
    say_line(alloc, out, names, sentence.line())?;
    say(out, ":")?;
    write_words(out, sentence.words())
}

/// Appends the line of the instruction at a place of a function and its words, or `at its end`.
///
/// # Errors
///
/// Memory ran out; `out` may then have a part of it.
pub fn say_sentence(
    alloc: Global,
    out: &mut Vec<u8>,
    names: &Names<'_>,
    function: u32,
    pc: u32,
) -> Said
    ensures { OnOk result (out.new.items
        ≡ out.old.items ++ def.said_words names.now function pc) }
{
    match names.sentence(function, pc) {
        None => say(out, "at its end"),
        Some(sentence) => say_line_and_words(alloc, out, names, sentence),
    }
}
