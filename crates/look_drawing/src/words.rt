//! The words at the dots of steps.

ghost use Rattle.std.specs.Prelude.{◌≡◌, ◌++◌, OnOk, option_map};
ghost use Rattle.std.specs.String.{string_bytes};
ghost use Rattle.look_drawing.specs.Words as def;

use crate::place::word_line;
use crate::writing::text_at;
use look_lines::Said;
use sts_code::{Instr, Program};
use sts_frames::instr_at;
use sts_world::Records;

/// The word of an instruction that others can notice.
fn word_of(instr: Option<Instr>) -> Option<&'static str>
    ensures { option_map (λ word. word.now) result ≡ def.word_of instr }
{
    match instr {
        Some(Instr::Open { .. }) => Some("open"),
        Some(Instr::Fork { .. }) => Some("fork"),
        Some(Instr::Join { .. }) => Some("join"),
        Some(Instr::Close { .. }) => Some("close"),
        Some(Instr::Ret) => Some("ret"),
        Some(Instr::Fail) => Some("fail"),
        _ => None,
    }
}

/// The word of the next instruction of a living task.
pub(crate) fn next_word(program: &Program, records: &Records, t: u32) -> Option<&'static str>
    ensures { option_map (λ word. word.now) result ≡ def.next_word program.now records.now t }
{
    if !records.lives(t) {
        return None;
    }
    word_of(instr_at(program, records.frame(t)))
}

/// The word over the dot of a step.
pub(crate) fn step_word(out: &mut String, x: u128, t: u32, word: Option<&str>) -> Said
    ensures { OnOk result (string_bytes out.new ≡ string_bytes out.old
        ++ def.step_word x t (option_map (λ word. word.now) word.entry)) }
{
    let Some(word) = word else {
        return Ok(());
    };
    text_at(out, "word", x, word_line(t), word)
}
