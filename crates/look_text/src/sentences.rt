//! The only table of the sentences about a text: one for each fault, and one for what is expected
//! at each place.

ghost use Rattle.std.specs.Prelude.{◌≡◌};
ghost use Rattle.std.specs.Option.{option_copied};
ghost use Rattle.look_text.specs.Sentences as def;

use crate::checks::takes_too_many;
use crate::functions::Source;
use crate::wanted::{Expected, begins_line};
use sts_asm::{AsmError, AsmKind, Outline, words_at};
use sts_code::{CodeCause, CodeError};
use sts_text::Words;

/// What is out of its range, by the function: its arguments, if there is one, and whether it has
/// the instruction.
fn range_sentence(args: Option<u8>, has_instr: bool) -> &'static str
    ensures { result.now ≡ def.range_sentence args has_instr }
{
    if takes_too_many(args) {
        "a function takes at most 8 arguments"
    } else if has_instr {
        "a number here is out of its range"
    } else {
        "the function has no instruction: add ret or fail before its end"
    }
}

/// Why functions are no program, C1 to C7.
fn check_sentence(code: CodeCause, args: Option<u8>, has_instr: bool) -> &'static str
    ensures { result.now ≡ def.check_sentence code args has_instr }
{
    match code {
        CodeCause::TooManyFunctions => "there are more than 64 functions",
        CodeCause::TooLong => "the function has more than 4096 instructions",
        CodeCause::BadTarget => "no instruction follows this label",
        CodeCause::LaterFunction => "fork only a function that is written above this one",
        CodeCause::NoMain => "the text must end with a function main 0, without needs",
        CodeCause::BadRange => range_sentence(args, has_instr),
        CodeCause::DuplicateName => "an earlier function has the same name",
    }
}

/// The sentence of an instruction, where the functions of the text were not read.
fn code_sentence(code: CodeCause) -> &'static str
    ensures { result.now ≡ def.code_sentence code }
{
    check_sentence(code, None, true)
}

/// The sentence of a failed check, which depends on the functions of the text if they were read.
fn checked_sentence(outline: Option<&Outline<'_>>, error: CodeError) -> &'static str
    ensures { result.now ≡ def.checked_sentence (option_copied outline.entry) error }
{
    match outline {
        None => code_sentence(error.cause),
        Some(outline) => check_sentence(
            error.cause,
            outline.args(error.function),
            outline.sentence(error.function, error.pc).is_some(),
        ),
    }
}

/// What is wrong with the first word of a line.
fn first_sentence(word: &[u8]) -> &'static str
    ensures { result.now ≡ def.first_sentence word.now }
{
    if word == b"profile".as_slice() {
        "profile must be line 1, above comments and empty lines"
    } else if begins_line(word) {
        "this belongs inside a function, below its func line"
    } else {
        "no line begins with this word"
    }
}

fn unknown_sentence<'a>(words: Words<'a>) -> &'static str
    ensures { result.now ≡ def.unknown_sentence words.entry }
{
    let mut words = words;
    match words.word() {
        None => "",
        Some(word) => first_sentence(word),
    }
}

/// What is wrong with a text, A1 to A10.
fn kind_sentence(kind: AsmKind) -> &'static str
    ensures { result.now ≡ def.kind_sentence kind }
{
    match kind {
        AsmKind::NotAscii => {
            "a byte that isn't allowed: use printable ASCII, tab and carriage return"
        }
        AsmKind::UnknownWord => "no line begins with this word",
        AsmKind::BadNumber => "this must be a number in the range given below",
        AsmKind::BadOperands => "an operand is missing, extra, misspelled or of the wrong kind",
        AsmKind::UnknownLabel => {
            "a label that isn't in this function, or a function that isn't in this text"
        }
        AsmKind::DuplicateLabel => "this function has that label already",
        AsmKind::Unclosed => "a function is open here: an end is missing before this line",
        AsmKind::TextTooLong => "the text has more than 1048576 bytes",
        AsmKind::Memory => "out of memory",
        AsmKind::Code(error) => code_sentence(error.cause),
    }
}

impl Source<'_, '_> {
    /// What is wrong with a text, from the text, its functions and the line of the fault.
    pub(crate) fn fault_sentence(&self, error: AsmError) -> &'static str
        ensures { result.now ≡ def.fault_sentence error.kind self.now error.line }
    {
        match error.kind {
            AsmKind::UnknownWord => unknown_sentence(words_at(self.text(), error.line)),
            AsmKind::Code(code) => checked_sentence(self.functions(), code),
            kind => kind_sentence(kind),
        }
    }
}

/// The form of a line that begins with `join`.
pub(crate) fn join_form() -> &'static str
    ensures { result.now ≡ def.join_form }
{
    "a whole line: join SCOPE FAILED TIMEOUT INTERRUPTED, with - for the first two if none"
}

/// What is expected at a place of a line.
pub(crate) fn wanted_sentence(wanted: Expected) -> &'static str
    ensures { result.now ≡ def.wanted_sentence wanted }
{
    match wanted {
        Expected::First =>
            "an instruction, a label or end inside a function, func outside, profile on line 1",
        Expected::Inner => "an instruction, a label or end",
        Expected::Outer => "func, or profile on line 1",
        Expected::NewLabel => "a label that this function hasn't yet",
        Expected::KnownLabel => "a label before an instruction of this function",
        Expected::KnownFunction => "a function that is written above this one",
        Expected::Nothing => "nothing more",
        Expected::Byte => "a number from 0 to 15",
        Expected::Value => "a number from -9223372036854775808 to 9223372036854775807",
        Expected::Turns => "the bound, a number from 1 to 10000",
        Expected::Slot => "a slot, s0 to s15",
        Expected::Label => "the name of a label",
        Expected::OpenSlot => "the slot of the scope, s0 to s15",
        Expected::Joiner => "the joiner: all, any, awaitok, awaitall or until",
        Expected::Condition => "failed, success or atleast",
        Expected::Count => "how many of them, a number from 1 to 65536",
        Expected::Least =>
            "the least value, a number from -9223372036854775808 to 9223372036854775807",
        Expected::Timed => "timed, or nothing more",
        Expected::ForkSlot => "the slot of the scope, s0 to s15",
        Expected::Function => "the name of the function",
        Expected::Handle =>
            "the slot of the subtask, s0 to s15, or _ for none (arguments are pushed before)",
        Expected::JoinSlot => "the slot of the scope, s0 to s15",
        Expected::JoinFailed => "the label for failed, or - for none",
        Expected::JoinTimeout => "the label for timeout, or - for none",
        Expected::JoinInterrupted => "the label for interrupted",
        Expected::CaseSlot => "the slot of the subtask, s0 to s15",
        Expected::CaseSuccess => "the label for success",
        Expected::CaseFailed => "the label for failed",
        Expected::TallySlot => "the slot of the scope, s0 to s15",
        Expected::State => "S, F or U",
        Expected::Name => "the name of the function, which no earlier one has",
        Expected::Args => "how many arguments it takes, a number from 0 to 8",
        Expected::Needs => "needs, or nothing more",
        Expected::Key => "a key, a number from 0 to 15",
        Expected::Profile => "the profile, 1 or 2",
    }
}
