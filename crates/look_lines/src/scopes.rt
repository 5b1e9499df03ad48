//! The lines of the scopes.

ghost use Rattle.std.specs.Prelude.{◌≡◌, ◌++◌, OnOk};
ghost use Rattle.std.specs.String.{string_bytes};
ghost use Rattle.sts_model.specs.World as model;
ghost use Rattle.look_lines.specs.Lines as def;

use crate::naming::{Naming, Said};
use crate::tasks::{end_words, ended_by};
use look_options::ViewOptions;
use std::fmt::Write;
use sts_list::write_joiner;
use sts_model::{Completion, Phase};
use sts_world::Records;

/// Writes a word if `holds` is true.
fn only_if(out: &mut String, holds: bool, word: &str) -> Said
    ensures { OnOk result (string_bytes out.new
        ≡ string_bytes out.old ++ def.only_if holds word.now) }
{
    if holds { write!(out, "{word}") } else { Ok(()) }
}

/// The word of a phase.
pub fn phase_word(phase: Phase) -> &'static str
    ensures { result.now ≡ def.phase_word phase }
{
    match phase {
        Phase::Opened => "opened",
        Phase::Attempted => "attempted",
        Phase::Joined => "joined",
        Phase::Closing => "closing",
        Phase::Closed => "closed",
    }
}

/// `scope S of OWNER JOINER`
///
/// # Errors
///
/// Memory ran out; `out` may then have a part of it.
pub fn scope_place(out: &mut String, records: &Records, s: u32) -> Said
    ensures { OnOk result (string_bytes out.new
        ≡ string_bytes out.old ++ def.scope_place s (model.scope_at records.now s)) }
{
    let owner = records.owner(s);
    write!(out, "scope {s} of {owner}")?;
    write_joiner(out, records.joiner(s))
}

/// The phase of a scope, and its marks.
fn scope_marks(out: &mut String, records: &Records, s: u32) -> Said
    ensures { OnOk result (string_bytes out.new
        ≡ string_bytes out.old ++ def.scope_marks (model.scope_at records.now s)) }
{
    let phase = phase_word(records.phase(s));
    write!(out, " {phase}")?;
    only_if(out, records.is_timed(s), " timed")?;
    only_if(out, records.is_cancelled(s), " cancelled")?;
    only_if(out, records.is_expired(s), " expired")?;
    ended_by(out, records.can_expire(s), " may-expire")
}

/// `told T success V` or `told T failed C`
fn told_line<N: Naming>(out: &mut String, naming: &N, told: Completion) -> Said
    ensures { OnOk result (string_bytes out.new
        ≡ string_bytes out.old ++ def.told_line (N.names naming.now) told) }
{
    let t = told.task;
    write!(out, "  told {t}")?;
    end_words(out, naming, Some(told.end))?;
    writeln!(out)
}

/// The ends that a joiner was told of.
fn told_lines<N: Naming>(out: &mut String, naming: &N, completions: &[Completion]) -> Said
    ensures { OnOk result (string_bytes out.new
        ≡ string_bytes out.old ++ def.told_lines (N.names naming.now) completions.now) }
{
    for told in completions {
        told_line(out, naming, *told)?;
    }
    Ok(())
}

/// The lines of a scope that is wanted. In full they show all ends that the joiner counted.
fn scope_block<N: Naming>(
    out: &mut String,
    naming: &N,
    wanted: ViewOptions,
    records: &Records,
    s: u32,
) -> Said
    ensures { OnOk result (string_bytes out.new ≡ string_bytes out.old ++ def.scope_block
        (N.names naming.now) wanted s (model.scope_at records.now s)) }
{
    if wanted.living && records.phase(s).is_closed() {
        return Ok(());
    }
    scope_place(out, records, s)?;
    scope_marks(out, records, s)?;
    if wanted.full {
        told_lines(out, naming, records.completions(s))?;
    }
    Ok(())
}

/// The lines of all scopes that were ever born, or of those that aren't closed.
///
/// # Errors
///
/// Memory ran out; `out` may then have a part of them.
pub fn scope_lines<N: Naming>(
    out: &mut String,
    naming: &N,
    wanted: ViewOptions,
    records: &Records,
) -> Said
    ensures { OnOk result (string_bytes out.new ≡ string_bytes out.old ++ def.scope_lines
        (N.names naming.now) wanted records.now records.now.scopes 0) }
{
    for s in 0..records.scopes_born() {
        scope_block(out, naming, wanted, records, s as u32)?;
    }
    Ok(())
}
