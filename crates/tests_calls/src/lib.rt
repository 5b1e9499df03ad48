//! Tests of runs by workers, of books, and of records.
#![tactic(auto)]

#[cfg(test)]
mod tests;
