//! The law of the words for a part.

ghost use Rattle.look_refusal.specs.Reading.{PartsReadApart};

/// A law: if two typestates differ in a part, so do the words for that part. Its numbers must have
/// 64 bits, as all numbers of the code do. The function itself does nothing.
pub fn parts_read_apart()
    ensures { PartsReadApart }
{}
