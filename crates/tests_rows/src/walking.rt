//! The tables of rows, one after the other.

use crate::failure::Failure;
use crate::table::Table;
use std::fs;

/// Reads a file of rows.
fn read(rt: &HostRuntime, name: &str) -> Result<String, Failure> {
    match fs::read_to_string(rt, name) {
        Ok(text) => Ok(text),
        Err(_) => Err(Failure::Unfit("a table can't be read")),
    }
}

fn walk(rt: &HostRuntime, name: &str) -> Result<(), Failure> {
    let text = read(rt, name)?;
    let mut table = Table::new(rt, name);
    table.take_lines(text.as_str())
}

/// Walks each table of a list. Its first lines define the notation.
fn walk_each(rt: &HostRuntime, names: &str) -> Result<(), Failure> {
    for name in names.lines() {
        if !name.starts_with("#") {
            walk(rt, name)?;
        }
    }
    Ok(())
}

/// Walks each table that the file `tables` names.
///
/// # Errors
///
/// There was no memory, a file or a line can't be read, or a write failed.
pub fn walk_all(rt: &HostRuntime) -> Result<(), Failure> {
    let names = read(rt, "tables")?;
    walk_each(rt, names.as_str())
}
