//! The tables of a function's loops, made once.

ghost use Rattle.std.specs.Prelude.{◌≡◌, ◌≤◌, ◌<◌, ◌&&◌, length, map, nat_lt, nat_le};
ghost use Rattle.std.specs.Prelude.{if◌then◌else◌, slice_index_or, IfOk, Some, None, ℕ, vec_len};
ghost use Rattle.std.specs.List.{range_with_len};
ghost use Rattle.sts_types.specs.Tables as table;

use crate::loops::Tables;
use std::alloc::{AllocError, Global};
use sts_code::{Instr, MAX_INSTRUCTIONS, is_times, match_of};
use sts_rules::filled;

/// The match of a `times` at `at`, if there is one.
fn end_at(code: &[Instr], at: usize) -> Option<u32>
    requires short { length code.now ≤ MAX_INSTRUCTIONS }
    requires inside { at < length code.now }
    ensures { result ≡ table.end_at code.now at }
{
    if is_times(code[at]) {
        match_of(code, at as u32)
    } else {
        None
    }
}

/// The match of each `times`, by place.
fn ends_of(alloc: Global, code: &[Instr]) -> Result<Vec<Option<u32>>, AllocError>
    requires { length code.now ≤ MAX_INSTRUCTIONS }
    ensures { IfOk result (λ ends. ends.items ≡ map (table.end_at code.now)
        (range_with_len 0 (length code.now))) }
{
    let mut ends = Vec::with_capacity(alloc, code.len())?;
    for at in 0..code.len() {
        ends.push(end_at(code, at))?;
    }
    Ok(ends)
}

/// The loop at `at` is the innermost around the places after it, up to its match.
fn mark(heads: &mut Vec<Option<u32>>, at: u32, end: u32)
    requires inside { end < vec_len heads.old }
    requires after { at ≤ end }
    ensures len { vec_len heads.new ≡ vec_len heads.old }
    ensures marked { (q : ℕ) →
        slice_index_or heads.new.items q None ≡
        (if nat_lt at q && nat_le q end then Some at else slice_index_or heads.old.items q None) }
{
    for place in at as usize + 1..end as usize + 1 {
        heads[place] = Some(at);
    }
}

impl Tables {
    /// The tables of a function's code.
    ///
    /// # Errors
    ///
    /// Memory ran out.
    pub fn new(alloc: Global, code: &[Instr]) -> Result<Tables, AllocError>
        requires { length code.now ≤ MAX_INSTRUCTIONS }
        ensures { IfOk result (table.AreTablesOf code.now) }
    {
        let ends = ends_of(alloc, code)?;
        let mut heads = filled(alloc, code.len(), None)?;
        for at in 0..code.len() {
            if let Some(end) = ends[at] {
                mark(&mut heads, at as u32, end);
            }
        }
        Ok(Tables { ends, heads })
    }
}
