//! The instructions that others name, found in one pass.

ghost use Rattle.std.specs.Prelude.{◌≡◌, ◌∷◌, [], ◌++◌, ◌<◌, length, slice_index_or, IfOk, true};
ghost use Rattle.std.specs.Prelude.{false, ℕ, option_to_list};
ghost use Rattle.sts_list.specs.Listing.{is_target, with_marks};
ghost use Rattle.sts_code.specs.Facts.{targets};

use std::alloc::{AllocError, Global};
use sts_code::Instr;

fn mark(marks: &mut Vec<bool>, to: u32)
    ensures { marks.new.items ≡ with_marks marks.old.items (to ∷ []) }
{
    let to = to as usize;
    if to < marks.len() {
        marks[to] = true;
    }
}

fn mark_maybe(marks: &mut Vec<bool>, to: Option<u32>)
    ensures { marks.new.items ≡ with_marks marks.old.items (option_to_list to) }
{
    if let Some(to) = to {
        mark(marks, to);
    }
}

fn mark_join(marks: &mut Vec<bool>, failed: Option<u32>, timeout: Option<u32>, interrupted: u32)
    ensures { marks.new.items ≡ with_marks marks.old.items
        (option_to_list failed ++ option_to_list timeout ++ interrupted ∷ []) }
{
    mark_maybe(marks, failed);
    mark_maybe(marks, timeout);
    mark(marks, interrupted);
}

fn mark_targets(marks: &mut Vec<bool>, instr: Instr)
    ensures { marks.new.items ≡ with_marks marks.old.items (targets instr) }
{
    match instr {
        Instr::Div(to) | Instr::Jmp(to) | Instr::Jz(to) => mark(marks, to),
        Instr::Join {
            failed,
            timeout,
            interrupted,
            ..
        } => mark_join(marks, failed, timeout, interrupted),
        Instr::Case {
            success,
            failed,
            ..
        } => {
            mark(marks, success);
            mark(marks, failed);
        }
        _ => {}
    }
}

/// Says for each instruction whether another one names it.
///
/// # Errors
///
/// Memory ran out.
pub fn target_marks(alloc: Global, code: &[Instr]) -> Result<Vec<bool>, AllocError>
    ensures length { IfOk result (λ marks. length marks.items ≡ length code.now) }
    ensures named { IfOk result (λ marks. (pc : ℕ) → pc < length code.now →
        slice_index_or marks.items pc false ≡ is_target code.now pc) }
{
    let mut marks = vec![in alloc; false; code.len()]?;
    for instr in code {
        mark_targets(&mut marks, *instr);
    }
    Ok(marks)
}
