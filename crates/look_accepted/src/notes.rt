//! The instructions of a program that rely on a rule that JDK 25 doesn't share.

ghost use Rattle.std.specs.Prelude.{◌<◌, length, IfOk, OnOk};
ghost use Rattle.sts_rules.specs.Refusal.{size, IsAccepted};
ghost use Rattle.look_accepted.specs.Notes as def;

use crate::reliance::Reliance;
use crate::search::all_rules;
use std::alloc::{AllocError, Global};
use sts_code::{Program, code_of};
use sts_types::typing_of;
use sts_verify::Verified;

/// An instruction that relies on such a rule.
#[derive(Clone, Copy, PartialEq, Eq)]
pub struct Note {
    pub function: u32,
    pub place: u32,
    pub reliance: Reliance,
}

/// Adds the notes of a function.
fn add_notes(
    alloc: Global,
    program: &Program,
    function: u32,
    notes: &mut Vec<Note>,
) -> Result<(), AllocError>
    requires accepted { IsAccepted program.now }
    requires in_program { function < length program.now.routines }
    ensures { OnOk result (def.AddsNotes program.now function (size program.now function)
        notes.old.items notes.new.items) }
{
    let count = code_of(program, function as usize).len();
    let typing = typing_of(alloc, program, function)?;
    let rules = all_rules(alloc, program, function, &typing)?;
    for place in 0..count {
        if let Some(reliance) = rules[place] {
            notes.push(Note {
                function,
                place: place as u32,
                reliance,
            })?;
        }
    }
    Ok(())
}

/// The instructions that rely on a rule that JDK 25 doesn't share, by function and place.
///
/// # Errors
///
/// Memory ran out.
pub fn all_notes(alloc: Global, verified: &Verified) -> Result<Vec<Note>, AllocError>
    ensures { IfOk result (λ v. def.AreNotes verified.now v.items) }
{
    let program = verified.program();
    let mut notes = Vec::new(alloc);
    for function in 0..program.functions().len() as u32 {
        add_notes(alloc, program, function, &mut notes)?;
    }
    Ok(notes)
}
