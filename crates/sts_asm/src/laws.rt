//! Laws of the assembler's definitions, in the words of the instruction table.

ghost use Rattle.sts_asm.specs.Table.{ReadByTable};

/// A law: words are read as an instruction if and only if the instruction table says that they
/// spell it. The function itself does nothing.
pub fn instructions_are_read_by_the_table()
    ensures { ReadByTable }
{}
