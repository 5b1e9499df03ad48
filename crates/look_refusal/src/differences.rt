//! The differences between two ways that meet, part by part.

ghost use Rattle.std.specs.Prelude.{◌≡◌, [], ◌∷◌, ◌++◌, OnOk};
ghost use Rattle.std.specs.String.{string_bytes};
ghost use Rattle.sts_code.specs.Program.{routine, instr_at};
ghost use Rattle.sts_asm.specs.Source.{sentence_at};
ghost use Rattle.look_refusal.specs.Differences as def;
ghost use Rattle.look_refusal.specs.Reading.{IsHeldIn};

use crate::parts::{Part, is_same_part, write_name, write_part};
use crate::ways::{Meeting, Way, WayOrigin};
use look_text::{Said, say};
use std::alloc::Global;
use std::fmt::Write;
use sts_asm::Outline;
use sts_code::{Instr, Program, code_of};

/// Which of the outcomes of `join` an edge is, by its number.
fn outcome_words(failed: bool, timeout: bool, number: usize) -> &'static str
    ensures { result.now ≡ def.outcome_words failed timeout number }
{
    if number == 0 {
        " (ok)"
    } else if number == 1 && failed {
        " (failed)"
    } else if (number == 1 || (number == 2 && failed)) && timeout {
        " (timeout)"
    } else {
        " (interrupted)"
    }
}

/// Which of the outcomes of `case` an edge is, by its number.
fn case_words(number: usize) -> &'static str
    ensures { result.now ≡ def.case_words number }
{
    match number {
        0 => " (unavailable)",
        1 => " (success)",
        _ => " (failed)",
    }
}

/// Which edge of an instruction this is, if there are several.
fn edge_words(instr: Instr, number: usize) -> &'static str
    ensures { result.now ≡ def.edge_words instr number }
{
    match instr {
        Instr::Join {
            failed,
            timeout,
            ..
        } => outcome_words(failed.is_some(), timeout.is_some(), number),
        Instr::Case { .. } => case_words(number),
        Instr::Jz(_) if number > 0 => " (jumps: it was 0)",
        Instr::Div(_) if number > 0 => " (by 0)",
        Instr::Times(_) if number > 0 => " (no turn)",
        _ => "",
    }
}

/// The instruction at a place of a function.
fn instr_at(program: &Program, function: u32, pc: u32) -> Instr
    ensures { result ≡ instr_at (routine program.now function).code pc }
{
    match code_of(program, function as usize).get(pc as usize) {
        Some(instr) => *instr,
        None => Instr::Ret,
    }
}

/// Two ways that meet in a function, and the outline of the text that spells it.
#[derive(Clone, Copy)]
struct Compared<'a, 't> {
    outline: &'a Outline<'t>,
    program: &'a Program,
    function: u32,
    meeting: &'a Meeting,
}

impl Compared<'_, '_> {
    fn write_place(&self, out: &mut String, pc: u32) -> Said
        ensures { OnOk result (string_bytes out.new ≡ string_bytes out.old
            ++ def.place_name (sentence_at self.now.outline.now self.now.function pc) pc) }
    {
        match self.outline.sentence(self.function, pc) {
            None => write!(out, "place {pc}"),
            Some(sentence) => {
                let line = sentence.line();
                write!(out, "line {line}")
            }
        }
    }

    /// The line that a way comes from.
    fn write_origin(&self, out: &mut String, way: &Way) -> Said
        ensures { OnOk result (string_bytes out.new
            ≡ string_bytes out.old ++ def.way_words self.now way.now) }
    {
        match way.origin {
            WayOrigin::Beginning => write!(out, "the beginning"),
            WayOrigin::Edge(pc, number) => {
                self.write_place(out, pc)?;
                out.push_str(edge_words(instr_at(self.program, self.function, pc), number))
            }
            WayOrigin::Turn(pc) => {
                write!(out, "the turn that ends at ")?;
                self.write_place(out, pc)
            }
        }
    }

    /// The words for one way's side of a difference.
    fn write_side(&self, out: &mut String, part: Part, way: &Way) -> Said
        ensures words { OnOk result (string_bytes out.new ≡ string_bytes out.old
            ++ def.side (def.part_words part way.now.state) (def.way_words self.now way.now)) }
        ensures held { OnOk result (IsHeldIn part way.now.state) }
    {
        write_part(out, part, &way.state)?;
        out.push_str(" on the way from ")?;
        self.write_origin(out, way)
    }

    /// The line of a part.
    #[tactic(auto, unfolding(crate::specs::Differences::part_line))]
    fn write_line(&self, out: &mut String, part: Part) -> Said
        ensures line { OnOk result (string_bytes out.new ≡ string_bytes out.old
            ++ def.part_line self.now.meeting.now (def.way_words self.now self.now.meeting.now.one)
            (def.way_words self.now self.now.meeting.now.other) part) }
        ensures held { OnOk result (IsHeldIn part self.now.meeting.now.one.state
            × IsHeldIn part self.now.meeting.now.other.state) }
    {
        write_name(out, part)?;
        out.push_str(":")?;
        self.write_side(out, part, &self.meeting.one)?;
        out.push_str(";")?;
        self.write_side(out, part, &self.meeting.other)?;
        out.push_str("\n")
    }

    /// The line of a part, if the two differ in it.
    fn write_difference(&self, out: &mut String, part: Part) -> Said
        ensures { OnOk result (def.Writes self.now (part ∷ [])
            (string_bytes out.old) (string_bytes out.new)) }
    {
        if is_same_part(part, &self.meeting.one.state, &self.meeting.other.state) {
            return Ok(());
        }
        self.write_line(out, part)
    }

    /// The lines of the slots that differ.
    fn write_slots(&self, out: &mut String) -> Said
        ensures { OnOk result (def.Writes self.now (def.slots 16)
            (string_bytes out.old) (string_bytes out.new)) }
    {
        for slot in 0..16 {
            self.write_difference(out, Part::Slot(slot))?;
        }
        Ok(())
    }

    /// The lines of the parts that differ.
    fn write_differences(&self, out: &mut String) -> Said
        ensures { OnOk result (def.Writes self.now def.all_parts
            (string_bytes out.old) (string_bytes out.new)) }
    {
        self.write_difference(out, Part::Operands)?;
        self.write_difference(out, Part::Loops)?;
        self.write_difference(out, Part::Open)?;
        self.write_slots(out)
    }
}

/// A line for each part that differs in the typestates of two ways.
///
/// # Errors
///
/// Memory ran out; `out` may then have a part of them.
pub(crate) fn difference_lines(
    alloc: Global,
    out: &mut Vec<u8>,
    outline: &Outline<'_>,
    program: &Program,
    function: u32,
    meeting: &Meeting,
) -> Said
    ensures { OnOk result (def.SaysDifferences outline.now program.now function meeting.now
        out.old.items out.new.items) }
{
    let compared = Compared {
        outline,
        program,
        function,
        meeting,
    };
    let mut lines = String::new(alloc);
    compared.write_differences(&mut lines)?;
    say(out, lines.as_str())
}
