//! What is kept of a function that has ended.

ghost use Rattle.std.specs.Prelude.{◌≡◌, ◌<◌, ◌≤◌, ◌+◌, ◌++◌, ◌∷◌, [], length, IfOk, OnOk};
ghost use Rattle.std.specs.Prelude.{if◌then◌else◌, map, true, OnErr};
ghost use Rattle.sts_asm.specs.Fault.{StepsAt};
ghost use Rattle.sts_asm.specs.Kept as def;
ghost use Rattle.sts_asm.specs.Kept.{AreTaken, IsKept, IsShortened};
ghost use Rattle.sts_asm.specs.Kept.{are_naming, filled, without_names};
ghost use Rattle.sts_asm.specs.Line.{has_names};
ghost use Rattle.sts_asm.specs.Outline.{Draft, Outline, size_of};
ghost use Rattle.sts_asm.specs.Text.{instr_at};

use crate::fault::AsmError;
use crate::marks::{Marks, Names};
use crate::outline::{Draft, Lines, Outline, Sentence};
use crate::resolving::{fill, has_names};
use std::alloc::{AllocError, Global};
use std::marker::Model;
use sts_code::Instr;

/// A function that has ended: its instructions, and the lines that are read again after the last
/// line of the text. These are all lines that name a label or a function, if one of the names wasn't
/// known yet when the function ended, or else none.
#[derive(Drop)]
pub(crate) struct Kept<'a> {
    pub(crate) name: &'a str,
    pub(crate) args: u8,
    pub(crate) needs: [bool; 16],
    pub(crate) labels: Marks<'a>,
    pub(crate) again: Vec<Sentence<'a>>,
    pub(crate) code: Vec<Instr>,
}

impl<'a> Model for Kept<'a> {
    ghost use Rattle.sts_asm.specs.Kept.{Kept};

    ghost Value = { Kept };

    ghost view = { λ k. record {
      name = k.name.now;
      args = k.args;
      needs = k.needs;
      labels = k.labels;
      again = k.again.items;
      code = k.code.items;
    } };
}

/// How many lines that are read again have room from the first on. Most functions have fewer.
const FIRST_ROOM: usize = 64;

/// Adds a line if its instruction names a label or a function.
fn add_naming<'a>(
    again: &mut Vec<Sentence<'a>>,
    line: &Sentence<'a>,
    instr: &Instr,
) -> Result<(), AllocError>
    ensures { OnOk result (again.new.items ≡ (if has_names instr.now
        then again.old.items ++ line.now ∷ [] else again.old.items)) }
{
    if has_names(instr) {
        again.push(line.copy())?;
    }
    Ok(())
}

/// The lines whose instructions name a label or a function.
pub(crate) fn naming_lines<'a>(
    alloc: Global,
    lines: &[Sentence<'a>],
    code: &[Instr],
) -> Result<Vec<Sentence<'a>>, AllocError>
    requires { length lines.now ≡ length code.now }
    ensures { IfOk result (λ again. again.items ≡ def.naming_lines lines.now code.now) }
{
    let mut again = Vec::with_capacity(alloc, lines.len().min(FIRST_ROOM))?;
    for at in 0..lines.len() {
        add_naming(&mut again, &lines[at], &code[at])?;
    }
    Ok(again)
}

/// Keeps what is needed of a function, and drops its other lines.
fn shortened<'a>(alloc: Global, draft: Draft<'a>) -> Result<Kept<'a>, AllocError>
    ensures { IfOk result (IsShortened draft.entry) }
{
    let Draft {
        name,
        args,
        needs,
        labels,
        code,
    } = draft;
    let Lines { sentences, unnamed } = code;
    let again = naming_lines(alloc, sentences.as_slice(), unnamed.as_slice())?;
    Ok(Kept {
        name,
        args,
        needs,
        labels,
        again,
        code: unnamed,
    })
}

impl<'a> Kept<'a> {
    /// Looks up the names of its labels and of these functions in its lines that are read again.
    /// After a fault, instructions that name nothing are as they were.
    pub(crate) fn look_up(&mut self, functions: &Marks<'a>) -> Result<(), AsmError>
        ensures others { self.new ≡ record self.old { code = self.new.code } }
        ensures steps { StepsAt result self.new.code (filled (instr_at (record {
          labels = self.old.labels;
          functions = functions.now;
        })) self.old.again self.old.code) }
        ensures same { OnErr result (are_naming self.old.again ≡ true →
            map without_names self.new.code ≡ map without_names self.old.code) }
    {
        fill(
            &Names::new(&self.labels, functions),
            self.again.as_slice(),
            &mut self.code,
        )
    }
}

/// Looks up the names of a function that has ended, and drops its labels and lines. If a name isn't
/// known yet, labels and lines are kept: it may name a later function, or it may be a fault of the
/// text, but not its first.
fn settled<'a>(alloc: Global, functions: &Marks<'a>, kept: Kept<'a>) -> Kept<'a>
    ensures { (d : Draft) → IsShortened d kept.entry → IsKept functions.now d result }
{
    let mut kept = kept;
    if kept.look_up(functions).is_err() {
        return kept;
    }
    Kept {
        labels: Marks::new(alloc),
        again: Vec::new(alloc),
        ..kept
    }
}

/// Takes the first function that was not taken yet out of the outline, and keeps what is needed.
#[inline(never)]
fn keep_next<'a>(
    alloc: Global,
    outline: &mut Outline<'a>,
    all: &mut Vec<Kept<'a>>,
) -> Result<(), AllocError>
    requires { length all.old.items < length outline.old.done }
    ensures taken { OnOk result ((o : Outline) → AreTaken o outline.old all.old.items →
        AreTaken o outline.new all.new.items) }
    ensures size { OnOk result (size_of outline.new ≡ size_of outline.old) }
    ensures done { OnOk result (length outline.new.done ≡ length outline.old.done) }
    ensures more { OnOk result (length all.new.items ≡ length all.old.items + 1) }
{
    all.reserve(1)?;
    let draft = outline.take(all.len());
    let kept = shortened(alloc, draft)?;
    let function = settled(alloc, &outline.functions, kept);
    all.push_reserved(function);
    Ok(())
}

/// Keeps what is needed of each function that has ended, and drops its other lines. Kept in line, as
/// few lines end a function.
#[inline(always)]
pub(crate) fn keep_ended<'a>(
    alloc: Global,
    outline: &mut Outline<'a>,
    all: &mut Vec<Kept<'a>>,
) -> Result<(), AllocError>
    requires { length all.old.items ≤ length outline.old.done }
    ensures taken { OnOk result ((o : Outline) → AreTaken o outline.old all.old.items →
        AreTaken o outline.new all.new.items) }
    ensures size { OnOk result (size_of outline.new ≡ size_of outline.old) }
    ensures all { OnOk result (length all.new.items ≡ length outline.new.done) }
{
    while all.len() < outline.function_count() {
        keep_next(alloc, outline, all)?;
    }
    Ok(())
}
