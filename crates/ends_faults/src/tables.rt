//! Whether each state of a table is safe.

ghost use Rattle.std.specs.Prelude.{◌≡◌, true, All, OnOk, IfOk};
ghost use Rattle.ends_faults.specs.Safe as def;

use crate::safe::check_safe;
use ends_table::stop::Stop;
use laws_calls::table::Row;
use std::alloc::{AllocError, Global};
use sts_code::Program;

/// Each state of the row is safe.
fn check_row(alloc: Global, program: &Program, row: &Row) -> Result<(), Stop>
    ensures { OnOk result (All (def.IsSafe program.now row.now.call) row.now.states) }
{
    for own in row.states.as_slice() {
        check_safe(alloc, program, &row.call, own)?;
    }
    Ok(())
}

/// Each state of the table is safe.
fn check_rows(alloc: Global, program: &Program, table: &[Row]) -> Result<(), Stop>
    ensures { OnOk result (def.AreSafe program.now table.now) }
{
    for row in table {
        check_row(alloc, program, row)?;
    }
    Ok(())
}

/// Is each state of the table safe? The answer may be false though it is.
///
/// # Errors
///
/// Memory ran out.
pub fn are_safe(alloc: Global, program: &Program, table: &[Row]) -> Result<bool, AllocError>
    ensures { IfOk result (λ yes. yes ≡ true → def.AreSafe program.now table.now) }
{
    match check_rows(alloc, program, table) {
        Ok(()) => Ok(true),
        Err(Stop::NoMemory(error)) => Err(error),
        Err(_) => Ok(false),
    }
}
