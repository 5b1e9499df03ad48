//! Whether no run of a program faults.

ghost use Rattle.std.specs.Prelude.{◌≡◌, true, IfOk};
ghost use Rattle.ends_table.specs.Led.{IsClosed};
ghost use Rattle.laws_runs.specs.Runs.{NeverFaults};

use crate::tables::are_safe;
use ends_table::closing::closed_table;
use laws_calls::table::{Outside, Row};
use std::alloc::{AllocError, Global};
use sts_code::{MAX_STANDING, Program};

/// Does the table show that no run faults?
fn shows(
    alloc: Global,
    program: &Program,
    outside: Outside,
    table: &[Row],
) -> Result<bool, AllocError>
    requires closed { IsClosed program.now outside table.now }
    requires cancels { outside.cancels ≡ true }
    ensures { IfOk result (λ yes. yes ≡ true → NeverFaults program.now) }
{
    let Some(root) = table.get(0) else {
        return Ok(false);
    };
    if root.births >= MAX_STANDING - 1 {
        return Ok(false);
    }
    let safe = are_safe(alloc, program, table)?;
    Ok(safe)
}

/// Is it known that no run of the program faults? It is not if a table that shows it would have more
/// than `most` states, or if more tasks and scopes may be born than may count at once.
///
/// # Errors
///
/// Memory ran out.
pub fn never_faults(alloc: Global, program: &Program, most: usize) -> Result<bool, AllocError>
    ensures { IfOk result (λ yes. yes ≡ true → NeverFaults program.now) }
{
    let outside = Outside {
        interrupts: 0,
        cancels: true,
    };
    let Some(table) = closed_table(alloc, program, outside, most)? else {
        return Ok(false);
    };
    shows(alloc, program, outside, table.as_slice())
}
