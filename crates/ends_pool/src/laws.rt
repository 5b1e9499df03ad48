//! Runs by workers, and all ends.

ghost use Rattle.ends_pool.specs.Reports.{ReportsAreEnds};

/// The end that a run reports is among all ends.
pub fn reports_are_ends()
    ensures { ReportsAreEnds }
{}
