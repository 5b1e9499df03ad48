//! The law that ties the listing to the assembler.

ghost use Rattle.sts_list.specs.RoundTrip.{AssembledAgain};

/// A law: a listing within the limit for a text is assembled to the program that it lists. The
/// function itself does nothing.
pub fn listings_are_assembled_again()
    ensures { AssembledAgain }
{}
