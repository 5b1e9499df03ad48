//! What is expected at each place of a line.

ghost use Rattle.std.specs.Prelude.{◌≡◌};
ghost use Rattle.sts_text.specs.Number.{number_up_to};
ghost use Rattle.sts_asm.specs.Line.{mnemonic_of};
ghost use Rattle.look_text.specs.Wanted as def;

use sts_asm::{Mnemonic, first_word, handle, kind_counted, label_of, one_word_joiner, slot};
use sts_code::is_name;
use sts_text::{number, number_up_to};

/// What is expected at a place of a line.
#[derive(Clone, Copy)]
pub enum Expected {
    /// The first word of a line.
    First,
    /// The first word of a line in a function.
    Inner,
    /// The first word of a line outside a function.
    Outer,
    /// A label that the function hasn't.
    NewLabel,
    /// A label that the function has.
    KnownLabel,
    /// A function that the text has.
    KnownFunction,
    /// Nothing more.
    Nothing,
    /// The local or key of an instruction.
    Byte,
    /// The value of `push`.
    Value,
    /// The bound of `times`.
    Turns,
    /// The slot of an instruction that has just this.
    Slot,
    /// The label of an instruction that has just this.
    Label,
    OpenSlot,
    Joiner,
    /// What follows `until`.
    Condition,
    /// The number of `failed` and `success`.
    Count,
    /// The value of `atleast`.
    Least,
    /// `timed`, or nothing.
    Timed,
    ForkSlot,
    Function,
    Handle,
    JoinSlot,
    JoinFailed,
    JoinTimeout,
    JoinInterrupted,
    CaseSlot,
    CaseSuccess,
    CaseFailed,
    TallySlot,
    /// What `tally` counts.
    State,
    /// The name of a function.
    Name,
    /// How many arguments it takes.
    Args,
    /// `needs`, or nothing.
    Needs,
    Key,
    Profile,
}

fn is_profile(word: &[u8]) -> bool
    ensures { result ≡ def.is_profile (number_up_to 2 word.now) }
{
    match number_up_to(word, 2) {
        None => false,
        Some(n) => n == 1 || n == 2,
    }
}

fn is_condition(word: &[u8]) -> bool
    ensures { result ≡ def.is_condition word.now }
{
    word == b"failed".as_slice() || word == b"success".as_slice() || word == b"atleast".as_slice()
}

fn is_joiner(word: &[u8]) -> bool
    ensures { result ≡ def.is_joiner word.now }
{
    word == b"until".as_slice() || one_word_joiner(word).is_some()
}

fn is_maybe_name(word: &[u8]) -> bool
    ensures { result ≡ def.is_maybe_name word.now }
{
    word == b"-".as_slice() || is_name(word)
}

pub(crate) fn begins_line(word: &[u8]) -> bool
    ensures { result ≡ def.begins_line word.now }
{
    word == b"func".as_slice()
        || word == b"end".as_slice()
        || word == b"profile".as_slice()
        || label_of(word).is_some()
        || first_word(word).is_some()
}

fn of_mnemonic(mnemonic: Option<Mnemonic>) -> Expected
    ensures { result ≡ def.of_mnemonic mnemonic }
{
    match mnemonic {
        None | Some(Mnemonic::Plain(_)) => Expected::Nothing,
        Some(Mnemonic::WithNumber(_)) => Expected::Byte,
        Some(Mnemonic::WithSlot(_)) => Expected::Slot,
        Some(Mnemonic::WithTarget(_)) => Expected::Label,
        Some(Mnemonic::Push) => Expected::Value,
        Some(Mnemonic::Times) => Expected::Turns,
        Some(Mnemonic::Open) => Expected::OpenSlot,
        Some(Mnemonic::Fork) => Expected::ForkSlot,
        Some(Mnemonic::Join) => Expected::JoinSlot,
        Some(Mnemonic::Case) => Expected::CaseSlot,
        Some(Mnemonic::Tally) => Expected::TallySlot,
    }
}

fn after_inner(word: &[u8]) -> Expected
    ensures { result ≡ def.after_inner word.now }
{
    if label_of(word).is_some() {
        Expected::Nothing
    } else {
        of_mnemonic(first_word(word))
    }
}

fn after_first(word: &[u8]) -> Expected
    ensures { result ≡ def.after_first word.now }
{
    if word == b"func".as_slice() {
        Expected::Name
    } else if word == b"end".as_slice() {
        Expected::Nothing
    } else if word == b"profile".as_slice() {
        Expected::Profile
    } else {
        after_inner(word)
    }
}

impl Expected {
    /// Is the word what is expected?
    pub fn fits(self, word: &[u8]) -> bool
        ensures { result ≡ def.fits self word.now }
    {
        match self {
            Expected::First => begins_line(word),
            Expected::Inner
            | Expected::Outer
            | Expected::NewLabel
            | Expected::KnownLabel
            | Expected::KnownFunction
            | Expected::Nothing => false,
            Expected::Byte | Expected::Args => number_up_to(word, 255).is_some(),
            Expected::Value | Expected::Least => number(word).is_some(),
            Expected::Turns => number_up_to(word, 65535).is_some(),
            Expected::Count => number_up_to(word, u32::MAX).is_some(),
            Expected::Key => number_up_to(word, 15).is_some(),
            Expected::Slot
            | Expected::OpenSlot
            | Expected::ForkSlot
            | Expected::JoinSlot
            | Expected::CaseSlot
            | Expected::TallySlot => slot(word).is_some(),
            Expected::Handle => handle(word).is_some(),
            Expected::Label
            | Expected::Function
            | Expected::JoinInterrupted
            | Expected::CaseSuccess
            | Expected::CaseFailed
            | Expected::Name => is_name(word),
            Expected::JoinFailed | Expected::JoinTimeout => is_maybe_name(word),
            Expected::Joiner => is_joiner(word),
            Expected::Condition => is_condition(word),
            Expected::Timed => word == b"timed".as_slice(),
            Expected::State => kind_counted(word).is_some(),
            Expected::Needs => word == b"needs".as_slice(),
            Expected::Profile => is_profile(word),
        }
    }

    /// What is expected after a word that is as expected.
    pub fn after(self, word: &[u8]) -> Expected
        ensures { result ≡ def.after self word.now }
    {
        match self {
            Expected::First => after_first(word),
            Expected::OpenSlot => Expected::Joiner,
            Expected::Joiner if word == b"until".as_slice() => Expected::Condition,
            Expected::Condition if word == b"atleast".as_slice() => Expected::Least,
            Expected::Condition => Expected::Count,
            Expected::Joiner | Expected::Count | Expected::Least => Expected::Timed,
            Expected::ForkSlot => Expected::Function,
            Expected::Function => Expected::Handle,
            Expected::JoinSlot => Expected::JoinFailed,
            Expected::JoinFailed => Expected::JoinTimeout,
            Expected::JoinTimeout => Expected::JoinInterrupted,
            Expected::CaseSlot => Expected::CaseSuccess,
            Expected::CaseSuccess => Expected::CaseFailed,
            Expected::TallySlot => Expected::State,
            Expected::Name => Expected::Args,
            Expected::Args => Expected::Needs,
            Expected::Needs | Expected::Key => Expected::Key,
            _ => Expected::Nothing,
        }
    }
}

/// What is expected after the first word of an instruction.
pub fn operand(first: &[u8]) -> Expected
    ensures { result ≡ def.of_mnemonic (mnemonic_of first.now) }
{
    of_mnemonic(first_word(first))
}

/// What is expected instead of a first word that isn't allowed there. It depends on whether a
/// function is open.
pub fn in_place_of(inside: bool) -> Expected
    ensures { result ≡ def.in_place_of inside }
{
    if inside {
        Expected::Inner
    } else {
        Expected::Outer
    }
}
