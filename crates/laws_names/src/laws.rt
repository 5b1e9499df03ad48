//! The law of states that are alike.

ghost use Rattle.laws_names.specs.Names.{BirthsAreNames};

/// In a program that reads no scoped values, the same events lead from two states that are alike to
/// two that are alike. The events of the second state have the names of its tasks and scopes.
pub fn births_are_names()
    ensures { BirthsAreNames }
{}
