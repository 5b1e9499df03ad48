//! What is said of a value, a function, a place and a run, with the lines and the names of a text.

ghost use Rattle.std.specs.Prelude.{◌≡◌, ◌++◌, OnOk};
ghost use Rattle.std.specs.String.{string_bytes};
ghost use Rattle.sts_model.specs.World as model;
ghost use Rattle.look_names.specs.Words as words;
ghost use Rattle.look_view.specs.Named as def;

use look_lines::{Naming, Said};
use look_names::Names;
use std::fmt::Write;
use sts_code::{Program, name_of};
use sts_model::{End, Fault};
use sts_output::printed::fault_word;
use sts_plain::PlainState;
use sts_world::Records;

/// Appends a line of the text: its name, or `line N`.
fn say_line(out: &mut String, names: &Names<'_>, number: u32) -> Said
    ensures { OnOk result (string_bytes out.new
        ≡ string_bytes out.old ++ words.line_words names.now number) }
{
    match names.line(number) {
        Some(name) => out.push_str(name),
        None => write!(out, "line {number}"),
    }
}

/// Appends the line of the instruction at a place, or `its end`.
fn say_place(out: &mut String, names: &Names<'_>, function: u32, pc: u32) -> Said
    ensures { OnOk result (string_bytes out.new
        ≡ string_bytes out.old ++ words.place_words names.now function pc) }
{
    match names.sentence(function, pc) {
        None => out.push_str("its end"),
        Some(sentence) => say_line(out, names, sentence.line()),
    }
}

/// Appends the line of the instruction at a place.
fn at_line(out: &mut String, names: &Names<'_>, function: u32, pc: u32) -> Said
    ensures { OnOk result (string_bytes out.new ≡ string_bytes out.old
        ++ def.at_line names.now function pc) }
{
    out.push_str(", ")?;
    say_place(out, names, function, pc)
}

/// Appends the line of the instruction before a place.
fn after_line(out: &mut String, names: &Names<'_>, function: u32, pc: u32) -> Said
    ensures { OnOk result (string_bytes out.new ≡ string_bytes out.old
        ++ def.after_line names.now function pc) }
{
    out.push_str(", after ")?;
    say_place(out, names, function, pc.saturating_sub(1))
}

/// Was the task started, and has it ended?
fn has_ended(records: &Records, t: u32) -> bool
    ensures { result ≡ def.has_ended (model.task_at records.now t) }
{
    records.has_started(t) && !records.lives(t)
}

fn end_line(out: &mut String, named: &Named<'_, '_>, end: End) -> Said
    ensures { OnOk result (string_bytes out.new
        ≡ string_bytes out.old ++ def.end_line named.now.names.now end) }
{
    match end {
        End::Success(value) => {
            out.push_str("success ")?;
            named.say_value(out, value)?;
            writeln!(out)
        }
        End::Failed(code) => {
            out.push_str("failed ")?;
            named.say_value(out, code)?;
            writeln!(out)
        }
    }
}

fn fault_line(
    out: &mut String,
    named: &Named<'_, '_>,
    program: &Program,
    kind: Fault,
    task: u32,
    function: u32,
    pc: u32,
) -> Said
    ensures { OnOk result (string_bytes out.new ≡ string_bytes out.old
        ++ def.fault_line named.now.names.now program.now kind task function pc) }
{
    let word = fault_word(kind);
    write!(out, "fault {word} task {task} in ")?;
    named.say_function(out, program, function)?;
    write!(out, " at {pc}")?;
    at_line(out, named.names, function, pc)?;
    writeln!(out)
}

/// The lines and the names of a text.
#[derive(Clone, Copy)]
pub struct Named<'n, 't> {
    pub names: &'n Names<'t>,
}

impl<'n, 't> Naming for Named<'n, 't> {
    ghost names = { λ n. def.named n.names.now };

    fn say_value(&self, out: &mut String, value: i64) -> Said {
        match self.names.value(value) {
            Some(name) => write!(out, "{name}"),
            None => write!(out, "{value}"),
        }
    }

    fn say_function(&self, out: &mut String, program: &Program, function: u32) -> Said {
        match self.names.function(function) {
            Some(name) => out.push_str(name),
            None => out.push_str(name_of(program, function)),
        }
    }

    fn say_place(&self, out: &mut String, records: &Records, t: u32) -> Said {
        let function = records.function(t);
        let pc = records.pc(t);
        if has_ended(records, t) {
            after_line(out, self.names, function, pc)
        } else {
            at_line(out, self.names, function, pc)
        }
    }

    fn say_state(&self, out: &mut String, program: &Program, state: PlainState) -> Said {
        match state {
            PlainState::Running => writeln!(out, "running"),
            PlainState::Ended(end) => end_line(out, self, end),
            PlainState::Fault {
                kind,
                task,
                function,
                pc,
            } => fault_line(out, self, program, kind, task, function, pc),
        }
    }
}
