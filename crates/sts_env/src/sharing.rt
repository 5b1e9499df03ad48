//! Which environments hold the record of a binding: a law that the definitions of this crate keep.

ghost use Rattle.sts_env.specs.Sharing.{FrontIsUnshared};

/// A law of environments that are built up as tasks build them: a task's own bindings in front of
/// those that its scope keeps. If the last entry of a task is a binding, only that task's
/// environment holds its record.
///
/// So the task may take that record out, and no other environment in use changes.
pub fn front_is_unshared()
    ensures { FrontIsUnshared }
{}
