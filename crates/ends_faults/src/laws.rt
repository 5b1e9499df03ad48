//! Laws on scopes whose close waits, and on states that are safe.

ghost use Rattle.ends_faults.specs.Closing.{ClosingIsAtClose};
ghost use Rattle.ends_faults.specs.Faults.{SafeIsFine, SafeNeverFaults};

/// While the close of a scope waits, its owner is at this `close`.
pub fn closing_is_at_close()
    ensures { ClosingIsAtClose }
{}

/// The next step of a task in a safe state is no fault, if it stays within the limits of births.
pub fn safe_is_fine()
    ensures { SafeIsFine }
{}

/// No run of a program faults, within the limits of births, if each state of a table is safe.
pub fn safe_never_faults()
    ensures { SafeNeverFaults }
{}
