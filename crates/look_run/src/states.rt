//! The state of a run, with the lines and the names of a text.

ghost use Rattle.std.specs.Prelude.{◌≡◌, ◌++◌, OnOk};
ghost use Rattle.look_run.specs.States as def;

use look_names::{Names, Said, say_function, say_sentence, say_value};
use look_text::say;
use std::alloc::Global;
use sts_code::Program;
use sts_model::{End, Fault};
use sts_output::printed::fault_word;
use sts_plain::PlainState;

/// A program, and the lines and names of the text that spells it.
#[derive(Clone, Copy)]
pub struct Told<'a, 't> {
    pub program: &'a Program,
    pub names: &'a Names<'t>,
}

/// Appends an end: `success V` or `failed C`.
///
/// # Errors
///
/// Memory ran out; `out` may then have a part of it.
pub fn say_end(alloc: Global, out: &mut Vec<u8>, names: &Names<'_>, end: End) -> Said
    ensures { OnOk result (out.new.items ≡ out.old.items ++ def.end_words names.now end) }
{
    match end {
        End::Success(value) => {
            say(out, "success ")?;
            say_value(alloc, out, names, value)
        }
        End::Failed(code) => {
            say(out, "failed ")?;
            say_value(alloc, out, names, code)
        }
    }
}

/// Appends an end as a line.
///
/// # Errors
///
/// Memory ran out; `out` may then have a part of it.
pub fn say_end_line(alloc: Global, out: &mut Vec<u8>, names: &Names<'_>, end: End) -> Said
    ensures { OnOk result (out.new.items ≡ out.old.items ++ def.end_line names.now end) }
{
    say_end(alloc, out, names, end)?;
    say(out, "\n")
}

impl Told<'_, '_> {
    /// `task T in NAME, line L: WORDS`
    pub(crate) fn say_task(
        self,
        alloc: Global,
        out: &mut Vec<u8>,
        t: u32,
        function: u32,
        pc: u32,
    ) -> Said
        ensures { OnOk result (out.new.items ≡ out.old.items
            ++ def.task_place self.entry.names.now self.entry.program.now t function pc) }
    {
        let head = format!(in alloc; "task {t} in ")?;
        say(out, head.as_str())?;
        say_function(out, self.names, self.program, function)?;
        say(out, ", ")?;
        say_sentence(alloc, out, self.names, function, pc)
    }

    /// `fault KIND, task T in NAME, line L: WORDS`
    fn say_fault(
        self,
        alloc: Global,
        out: &mut Vec<u8>,
        kind: Fault,
        task: u32,
        function: u32,
        pc: u32,
    ) -> Said
        ensures { OnOk result (out.new.items ≡ out.old.items
            ++ def.fault_line self.entry.names.now self.entry.program.now kind task function pc) }
    {
        say(out, "fault ")?;
        say(out, fault_word(kind))?;
        say(out, ", ")?;
        self.say_task(alloc, out, task, function, pc)?;
        say(out, "\n")
    }

    /// Appends the state of a run: `running`, `success V`, `failed C` or a fault.
    ///
    /// # Errors
    ///
    /// Memory ran out; `out` may then have a part of it.
    pub fn say_state(self, alloc: Global, out: &mut Vec<u8>, state: PlainState) -> Said
        ensures { OnOk result (out.new.items ≡ out.old.items
            ++ def.state_line self.entry.names.now self.entry.program.now state) }
    {
        match state {
            PlainState::Running => say(out, "running\n"),
            PlainState::Ended(end) => say_end_line(alloc, out, self.names, end),
            PlainState::Fault {
                kind,
                task,
                function,
                pc,
            } => self.say_fault(alloc, out, kind, task, function, pc),
        }
    }
}
