//! The forms in which the ends of a text are shown.

ghost use Rattle.std.specs.Prelude.{◌≡◌, ◌++◌, IfOk, OnOk, Ok};
ghost use Rattle.sts_asm.specs.Fault.{IsJudged};
ghost use Rattle.sts_output.specs.Stops.{Gives};
ghost use Rattle.look_end_lines.specs.Calls.{calls_lines};
ghost use Rattle.look_end_lines.specs.Form.{IsFaultIn};
ghost use Rattle.look_end_lines.specs.InLines as def;

use crate::answer::{Sampled, Searched};
use crate::below::{
    say_by_calls, say_no_number, say_refused, say_schedules, say_states, say_unfinished,
};
use crate::calls::{Called, say_below, say_calls};
use crate::lines::{say_all, say_shares};
use look_refusal::program_of;
use look_run::Told;
use look_text::Said;
use std::alloc::{AllocError, Global};
use sts_asm::AsmError;
use sts_code::Program;
use sts_output::Stopped;

/// What is shown: bytes, if there was memory for them.
pub type Bytes = Result<Vec<u8>, AllocError>;

/// A form in which the ends of a text are shown, or its fault.
pub trait EndsForm {
    ghost use Rattle.look_end_lines.specs.Form.{EndsForm as AnyForm};

    /// What is shown in this form.
    ghost shows: { Self → AnyForm };

    /// Returns what is shown of a search.
    fn of_search(&self, alloc: Global, search: Searched<'_, '_>) -> Bytes
        ensures { IfOk result (λ b. b.items ≡ (shows self.now).of_search
            search.entry.names.now search.entry.setting.now search.entry.is_refused
            search.entry.number search.entry.ends.now.found.items search.entry.ends.now.states
            search.entry.ends.now.whole search.entry.ends.now.by_calls) };

    /// Returns what is shown of random schedules.
    fn of_sample(&self, alloc: Global, sampled: Sampled<'_, '_>) -> Bytes
        ensures { IfOk result (λ b. b.items ≡ (shows self.now).of_sample
            sampled.entry.told.names.now sampled.entry.told.program.now sampled.entry.schedules
            sampled.entry.seed sampled.entry.number sampled.entry.sample.now.found.items
            sampled.entry.sample.now.times.items sampled.entry.sample.now.unfinished) };

    /// Returns what is shown of the ends of calls.
    fn of_calls(&self, alloc: Global, called: Called<'_, '_>) -> Bytes
        ensures { IfOk result (λ b. b.items ≡ (shows self.now).of_calls
            called.entry.told.names.now called.entry.told.program.now called.entry.is_refused
            called.entry.number called.entry.calls.now.found.items called.entry.calls.now.states
            called.entry.calls.now.is_cut_off) };

    /// Returns the program of a text that was read, or what is shown of its fault.
    fn program_of(
        &self,
        alloc: Global,
        read: Result<Program, AsmError>,
        text: &[u8],
    ) -> Result<Program, Stopped>
        requires { IsJudged read }
        ensures { Gives result (λ p. read ≡ Ok p) (IsFaultIn (shows self.now) read text.now) };
}

/// Appends the lines of a search.
fn say_search(alloc: Global, out: &mut Vec<u8>, search: Searched<'_, '_>) -> Said
    ensures { OnOk result (out.new.items ≡ out.old.items ++ def.search_lines
        search.entry.names.now search.entry.setting.now search.entry.is_refused
        search.entry.number search.entry.ends.now.found.items search.entry.ends.now.states
        search.entry.ends.now.whole search.entry.ends.now.by_calls) }
{
    let ends = search.ends;
    let (names, program) = (search.names, &search.setting.program);
    let found = ends.found.as_slice();
    say_all(alloc, out, Told { program, names }, found)?;
    say_refused(
        alloc,
        out,
        search.setting,
        search.is_refused,
        ends.whole,
        found,
    )?;
    say_by_calls(alloc, out, ends.by_calls)?;
    say_states(alloc, out, ends.whole, ends.states)?;
    say_no_number(alloc, out, search.number, found)
}

/// Appends the lines of random schedules.
fn say_sample(alloc: Global, out: &mut Vec<u8>, sampled: Sampled<'_, '_>) -> Said
    ensures { OnOk result (out.new.items ≡ out.old.items ++ def.sample_lines
        sampled.entry.told.names.now sampled.entry.told.program.now sampled.entry.schedules
        sampled.entry.seed sampled.entry.number sampled.entry.sample.now.found.items
        sampled.entry.sample.now.times.items sampled.entry.sample.now.unfinished) }
{
    let (told, sample) = (sampled.told, sampled.sample);
    let (found, times) = (sample.found.as_slice(), sample.times.as_slice());
    say_shares(alloc, out, told, found, times, sampled.schedules)?;
    say_unfinished(alloc, out, sample.unfinished)?;
    say_schedules(alloc, out, sampled.schedules, sampled.seed)?;
    say_no_number(alloc, out, sampled.number, found)
}

/// Appends the lines of the ends of calls.
fn say_found_calls(alloc: Global, out: &mut Vec<u8>, called: Called<'_, '_>) -> Said
    ensures { OnOk result (out.new.items ≡ out.old.items ++ calls_lines
        called.entry.told.names.now called.entry.told.program.now called.entry.is_refused
        called.entry.number called.entry.calls.now.found.items called.entry.calls.now.states
        called.entry.calls.now.is_cut_off) }
{
    let found = called.calls.found.as_slice();
    say_calls(alloc, out, called.told, found)?;
    say_below(alloc, out, called)?;
    say_no_number(alloc, out, called.number, found)
}

/// Lines for people.
#[derive(Drop)]
pub struct EndLines;

impl EndsForm for EndLines {
    ghost shows = { λ _. def.lines_form };

    fn of_search(&self, alloc: Global, search: Searched<'_, '_>) -> Bytes {
        let mut out = Vec::new(alloc);
        say_search(alloc, &mut out, search)?;
        Ok(out)
    }

    fn of_sample(&self, alloc: Global, sampled: Sampled<'_, '_>) -> Bytes {
        let mut out = Vec::new(alloc);
        say_sample(alloc, &mut out, sampled)?;
        Ok(out)
    }

    fn of_calls(&self, alloc: Global, called: Called<'_, '_>) -> Bytes {
        let mut out = Vec::new(alloc);
        say_found_calls(alloc, &mut out, called)?;
        Ok(out)
    }

    fn program_of(
        &self,
        alloc: Global,
        read: Result<Program, AsmError>,
        text: &[u8],
    ) -> Result<Program, Stopped> {
        program_of(alloc, read, text)
    }
}
