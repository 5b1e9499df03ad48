//! Explains what is wrong with a text, if anything is.

ghost use Rattle.std.specs.Prelude.{◌≡◌, IfErr, IfOk, OnOk};
ghost use Rattle.sts_rules.specs.Refusal.{IsRefusal};
ghost use Rattle.sts_asm.specs.Source.{outline_or_empty, outlined};
ghost use Rattle.sts_asm.specs.Text.{judged};
ghost use Rattle.sts_budget.specs.Change.{cause_of};
ghost use Rattle.sts_output.specs.Output as cli;
ghost use Rattle.sts_output.specs.Stops.{IsReported, Prints, program_in};
ghost use Rattle.look_refusal.specs.Output as def;

use crate::differences::difference_lines;
use crate::explanation::{Made, text_fault};
use crate::heavy::heaviest;
use crate::lines::refused_lines;
use crate::remedy::remedy_for;
use crate::ways::find_meeting;
use crate::weights::weight_lines;
use look_accepted::{all_notes, note_lines};
use look_text::{Said, say};
use std::alloc::{AllocError, Global};
use std::io::Write;
use sts_asm::{AsmError, Outline, Source, read};
use sts_budget::Resource;
use sts_code::Program;
use sts_output::{Output, Refusal, Status, Stopped, judge, write_shown};
use sts_rules::Cause;
use sts_verify::Verified;

/// A program, and the outline of the text that spells it.
#[derive(Clone, Copy)]
struct Told<'a, 't> {
    outline: &'a Outline<'t>,
    program: &'a Program,
}

impl Told<'_, '_> {
    /// Appends the differences of two ways that meet.
    fn say_meeting(self, alloc: Global, out: &mut Vec<u8>, function: u32, pc: u32) -> Said
        requires { IsRefusal self.program.now function pc Cause.StatesDiffer }
        ensures { OnOk result (def.Tells self.entry.program.now self.entry.outline.now function pc
            Cause.StatesDiffer out.old.items out.new.items) }
    {
        match find_meeting(alloc, self.program, function, pc)? {
            None => Ok(()),
            Some(meeting) => {
                difference_lines(alloc, out, self.outline, self.program, function, &meeting)
            }
        }
    }

    /// Appends the weights of a path that is over the budget of a resource.
    fn say_heavy(
        self,
        alloc: Global,
        out: &mut Vec<u8>,
        function: u32,
        pc: u32,
        resource: Resource,
    ) -> Said
        requires { IsRefusal self.program.now function pc (cause_of resource) }
        ensures { OnOk result (def.Tells self.entry.program.now self.entry.outline.now function pc
            (cause_of resource) out.old.items out.new.items) }
    {
        match heaviest(alloc, self.program, function, resource)? {
            None => Ok(()),
            Some(heavy) => weight_lines(alloc, out, self.outline, function, resource, &heavy),
        }
    }

    /// Appends the detail of a cause: the difference of two ways, or the weight of a path, if that
    /// is the cause.
    fn say_detail(
        self,
        alloc: Global,
        out: &mut Vec<u8>,
        function: u32,
        pc: u32,
        cause: Cause,
    ) -> Said
        requires { IsRefusal self.program.now function pc cause }
        ensures { OnOk result (def.Tells self.entry.program.now self.entry.outline.now function pc
            cause out.old.items out.new.items) }
    {
        match cause {
            Cause::StatesDiffer => self.say_meeting(alloc, out, function, pc),
            Cause::TooManySteps => self.say_heavy(alloc, out, function, pc, Resource::Steps),
            Cause::TooManyTasks => self.say_heavy(alloc, out, function, pc, Resource::Tasks),
            Cause::TooManyScopes => self.say_heavy(alloc, out, function, pc, Resource::Scopes),
            Cause::TooManyBinds => self.say_heavy(alloc, out, function, pc, Resource::Binds),
            _ => Ok(()),
        }
    }
}

fn accepted(alloc: Global, outline: &Outline<'_>, verified: &Verified) -> Made
    ensures { IfOk result (λ o. def.IsVerdict verified.now outline.now o) }
{
    let notes = all_notes(alloc, verified)?;
    let program = verified.program();
    let mut bytes = Vec::new(alloc);
    say(&mut bytes, "accepted\n")?;
    note_lines(alloc, &mut bytes, outline, program, notes.as_slice())?;
    Ok(Output { bytes, status: 0 })
}

/// Returns the explanation of a refusal.
///
/// # Errors
///
/// Memory ran out.
pub fn refused(alloc: Global, outline: &Outline<'_>, refusal: &Refusal) -> Made
    requires { IsRefusal refusal.now.program refusal.now.function refusal.now.pc
        refusal.now.cause }
    ensures { IfOk result (λ o. def.IsRefused refusal.now.program outline.now o) }
{
    let program = &refusal.program;
    let function = refusal.function;
    let pc = refusal.pc;
    let cause = refusal.cause;
    let remedy = remedy_for(alloc, refusal)?;
    let mut bytes = Vec::new(alloc);
    let sentence = outline.sentence(function, pc);
    refused_lines(
        alloc, &mut bytes, program, sentence, function, cause, remedy,
    )?;
    Told { outline, program }.say_detail(alloc, &mut bytes, function, pc, cause)?;
    Ok(Output { bytes, status: 4 })
}

/// Returns the explanation of a program that was judged.
///
/// # Errors
///
/// Memory ran out.
pub fn verdict(alloc: Global, outline: &Outline<'_>, judged: &Result<Verified, Refusal>) -> Made
    requires { IfErr judged.now IsReported }
    ensures { IfOk result (λ o. def.IsVerdict (program_in judged.now) outline.now o) }
{
    match judged {
        Ok(verified) => accepted(alloc, outline, verified),
        Err(refusal) => refused(alloc, outline, refusal),
    }
}

/// Returns the explanation of a text that was read.
///
/// # Errors
///
/// Memory ran out.
pub fn explained_by(
    alloc: Global,
    outline: &Outline<'_>,
    read: Result<Program, AsmError>,
    text: &[u8],
) -> Made
    requires outline { outline.now ≡ outline_or_empty (outlined text.now) }
    requires read { read ≡ judged text.now }
    ensures { IfOk result (λ o. def.Explains (judged text.now) text.now o) }
{
    match read {
        Ok(program) => verdict(alloc, outline, &judge(alloc, program)?),
        Err(error) => text_fault(alloc, error, text),
    }
}

fn explained(alloc: Global, text: &[u8]) -> Result<Output, Stopped>
    ensures { Prints result (def.Explains (judged text.now) text.now) }
{
    let Source { outline, program } = read(alloc, text)?;
    Ok(explained_by(alloc, &outline, program, text)?)
}

/// Says what is wrong with a text, if anything is, with line numbers, and gives the status that
/// `sts verify` gives.
///
/// It takes all its memory before the first byte is written.
///
/// # Errors
///
/// A write failed.
pub fn explain<W: Write>(alloc: Global, text: &[u8], out: &mut W) -> Status
    ensures { IfOk result (λ s. (o : cli.Output) × def.IsExplanation text.now o
        × cli.Writes (W.contents out.old) (W.contents out.new) s o) }
{
    write_shown(explained(alloc, text), out)
}
