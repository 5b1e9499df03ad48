//! The laws of the lines that an explanation names: those of instructions, functions and labels. Two
//! more laws are about the word that it names as the wrong one.

ghost use Rattle.look_text.specs.Places.{LinesSayInstructions, FunctionsSayInstructions};
ghost use Rattle.look_text.specs.Places.{LinesStandInText};
ghost use Rattle.look_text.specs.Heads.{HeadsBeginFunctions};
ghost use Rattle.look_text.specs.Labels.{BehindNamesNone};
ghost use Rattle.look_text.specs.Names.{UnknownNamesStop};
ghost use Rattle.look_text.specs.Near.{AllAreKnown};
ghost use Rattle.look_text.specs.WrongWord.{OperandsStop};

/// A law: each instruction of the program that a text spells has a line in the text. The words of
/// that line spell the instruction, and a refusal names that line. The function itself does
/// nothing.
pub fn lines_say_their_instructions()
    ensures { LinesSayInstructions }
{}

/// The same law for the functions that a text spells, even if they fail a check. The report of the
/// check names the line. The function itself does nothing.
pub fn lines_say_the_instructions_of_functions()
    ensures { FunctionsSayInstructions }
{}

/// A law: each line that is named for an instruction is in the text, by its number and with its
/// words. The function itself does nothing.
pub fn lines_stand_in_the_text()
    ensures { LinesStandInText }
{}

/// A law: each line that is named for a function is in the text, and begins with `func` and its
/// name. The function itself does nothing.
pub fn heads_begin_functions()
    ensures { HeadsBeginFunctions }
{}

/// A law: a label that is reported to come after the last instruction of its function names none of
/// them. The function itself does nothing.
pub fn labels_behind_name_no_instruction()
    ensures { BehindNamesNone }
{}

/// A law: the first word of a line that isn't what is expected there is the word where the
/// assembler finds the fault of an operand. The words before it allow a line without this fault;
/// with the word no line does. The function itself does nothing.
pub fn operands_stop()
    ensures { OperandsStop }
{}

/// A law: the first word of a text that names nothing is the word where the assembler finds an
/// unknown name. The words before it allow a line without this fault; with the word no line does.
/// The function itself does nothing.
pub fn unknown_names_stop()
    ensures { UnknownNamesStop }
{}

/// A law: the first word of each instruction, joiner and condition may be the near word of a wrong
/// one. The function itself does nothing.
pub fn words_of_all_kinds_are_known()
    ensures { AllAreKnown }
{}
