//! The first words of instructions.

ghost use Rattle.std.specs.Prelude.{◌≡◌, None, option_map};
ghost use Rattle.sts_asm.specs.Line.{plain_words, numbered_words, slotted_words, other_words};
ghost use Rattle.sts_asm.specs.Line.{mnemonic_of, without_operands};
ghost use Rattle.sts_asm.specs.Line.{with_number, with_slot, with_target};
ghost use Rattle.sts_asm.specs.Operand.{looked_up};
ghost use Rattle.sts_asm.specs.declared.mnemonic.Mnemonic.TheVariants.{Plain, WithNumber, WithSlot};

use crate::operand::is_word;
use sts_code::Instr;

/// Instructions without operands.
#[derive(Clone, Copy)]
pub enum Operandless {
    Pop,
    Dup,
    Swap,
    Add,
    Sub,
    Mul,
    Lt,
    Eq,
    Next,
    Unbind,
    Interrupted,
    Ret,
    Fail,
}

impl Operandless {
    /// The instruction.
    #[inline(always)]
    pub fn instr(self) -> Instr
        ensures { result ≡ without_operands self }
    {
        match self {
            Operandless::Pop => Instr::Pop,
            Operandless::Dup => Instr::Dup,
            Operandless::Swap => Instr::Swap,
            Operandless::Add => Instr::Add,
            Operandless::Sub => Instr::Sub,
            Operandless::Mul => Instr::Mul,
            Operandless::Lt => Instr::Lt,
            Operandless::Eq => Instr::Eq,
            Operandless::Next => Instr::Next,
            Operandless::Unbind => Instr::Unbind,
            Operandless::Interrupted => Instr::Interrupted,
            Operandless::Ret => Instr::Ret,
            Operandless::Fail => Instr::Fail,
        }
    }
}

/// Instructions of one local or key.
#[derive(Clone, Copy)]
pub enum Numbered {
    Load,
    Store,
    Bind,
    Read,
    Bound,
    OrElse,
}

impl Numbered {
    /// The instruction with this number as its local or key.
    pub fn with(self, x: u8) -> Instr
        ensures { result ≡ with_number self x }
    {
        match self {
            Numbered::Load => Instr::Load(x),
            Numbered::Store => Instr::Store(x),
            Numbered::Bind => Instr::Bind(x),
            Numbered::Read => Instr::Read(x),
            Numbered::Bound => Instr::Bound(x),
            Numbered::OrElse => Instr::OrElse(x),
        }
    }
}

/// Instructions of one slot.
#[derive(Clone, Copy)]
pub enum Slotted {
    Close,
    Cancelled,
    Get,
    Except,
    Total,
    Forget,
}

impl Slotted {
    /// The instruction with this slot.
    pub fn with(self, slot: u8) -> Instr
        ensures { result ≡ with_slot self slot }
    {
        match self {
            Slotted::Close => Instr::Close(slot),
            Slotted::Cancelled => Instr::Cancelled(slot),
            Slotted::Get => Instr::Get(slot),
            Slotted::Except => Instr::Except(slot),
            Slotted::Total => Instr::Total(slot),
            Slotted::Forget => Instr::Forget(slot),
        }
    }
}

/// Instructions of one label.
#[derive(Clone, Copy)]
pub enum Targeted {
    Div,
    Jmp,
    Jz,
}

impl Targeted {
    /// The instruction with this target.
    pub fn with(self, to: u32) -> Instr
        ensures { result ≡ with_target self to }
    {
        match self {
            Targeted::Div => Instr::Div(to),
            Targeted::Jmp => Instr::Jmp(to),
            Targeted::Jz => Instr::Jz(to),
        }
    }
}

/// The operands that follow the first word of an instruction.
#[derive(Clone, Copy)]
pub enum Mnemonic {
    /// No operands follow.
    Plain(Instr),
    WithNumber(Numbered),
    WithSlot(Slotted),
    WithTarget(Targeted),
    Push,
    Times,
    Open,
    Fork,
    Join,
    Case,
    Tally,
}

/// The instruction without operands that this word spells.
#[inline(always)]
pub fn plain_word(word: &[u8]) -> Option<Operandless>
    ensures { option_map (λ form. Plain (without_operands form)) result ≡
        looked_up plain_words word.now }
{
    if is_word(word, b"pop") {
        return Some(Operandless::Pop);
    }
    if is_word(word, b"dup") {
        return Some(Operandless::Dup);
    }
    if is_word(word, b"swap") {
        return Some(Operandless::Swap);
    }
    if is_word(word, b"add") {
        return Some(Operandless::Add);
    }
    if is_word(word, b"sub") {
        return Some(Operandless::Sub);
    }
    if is_word(word, b"mul") {
        return Some(Operandless::Mul);
    }
    if is_word(word, b"lt") {
        return Some(Operandless::Lt);
    }
    if is_word(word, b"eq") {
        return Some(Operandless::Eq);
    }
    if is_word(word, b"next") {
        return Some(Operandless::Next);
    }
    if is_word(word, b"unbind") {
        return Some(Operandless::Unbind);
    }
    if is_word(word, b"interrupted") {
        return Some(Operandless::Interrupted);
    }
    if is_word(word, b"ret") {
        return Some(Operandless::Ret);
    }
    if is_word(word, b"fail") {
        return Some(Operandless::Fail);
    }
    None
}

fn numbered_word(word: &[u8]) -> Option<Numbered>
    ensures { option_map (λ form. WithNumber form) result ≡ looked_up numbered_words word.now }
{
    if is_word(word, b"load") {
        return Some(Numbered::Load);
    }
    if is_word(word, b"store") {
        return Some(Numbered::Store);
    }
    if is_word(word, b"bind") {
        return Some(Numbered::Bind);
    }
    if is_word(word, b"read") {
        return Some(Numbered::Read);
    }
    if is_word(word, b"bound") {
        return Some(Numbered::Bound);
    }
    if is_word(word, b"orelse") {
        return Some(Numbered::OrElse);
    }
    None
}

fn slotted_word(word: &[u8]) -> Option<Slotted>
    ensures { option_map (λ form. WithSlot form) result ≡ looked_up slotted_words word.now }
{
    if is_word(word, b"close") {
        return Some(Slotted::Close);
    }
    if is_word(word, b"cancelled") {
        return Some(Slotted::Cancelled);
    }
    if is_word(word, b"get") {
        return Some(Slotted::Get);
    }
    if is_word(word, b"except") {
        return Some(Slotted::Except);
    }
    if is_word(word, b"total") {
        return Some(Slotted::Total);
    }
    if is_word(word, b"forget") {
        return Some(Slotted::Forget);
    }
    None
}

fn other_word(word: &[u8]) -> Option<Mnemonic>
    ensures { result ≡ looked_up other_words word.now }
{
    if is_word(word, b"push") {
        return Some(Mnemonic::Push);
    }
    if is_word(word, b"jz") {
        return Some(Mnemonic::WithTarget(Targeted::Jz));
    }
    if is_word(word, b"jmp") {
        return Some(Mnemonic::WithTarget(Targeted::Jmp));
    }
    if is_word(word, b"div") {
        return Some(Mnemonic::WithTarget(Targeted::Div));
    }
    if is_word(word, b"times") {
        return Some(Mnemonic::Times);
    }
    if is_word(word, b"open") {
        return Some(Mnemonic::Open);
    }
    if is_word(word, b"fork") {
        return Some(Mnemonic::Fork);
    }
    if is_word(word, b"join") {
        return Some(Mnemonic::Join);
    }
    if is_word(word, b"case") {
        return Some(Mnemonic::Case);
    }
    if is_word(word, b"tally") {
        return Some(Mnemonic::Tally);
    }
    None
}

/// The operands that follow this first word, if it is an instruction's with operands.
pub fn mnemonic_of(word: &[u8]) -> Option<Mnemonic>
    requires { looked_up plain_words word.now ≡ None }
    ensures { result ≡ mnemonic_of word.now }
{
    if let Some(found) = other_word(word) {
        return Some(found);
    }
    if let Some(form) = numbered_word(word) {
        return Some(Mnemonic::WithNumber(form));
    }
    match slotted_word(word) {
        Some(form) => Some(Mnemonic::WithSlot(form)),
        None => None,
    }
}

/// The operands that follow this first word, if it is an instruction's.
pub fn first_word(word: &[u8]) -> Option<Mnemonic>
    ensures { result ≡ mnemonic_of word.now }
{
    if let Some(found) = other_word(word) {
        return Some(found);
    }
    if let Some(form) = plain_word(word) {
        return Some(Mnemonic::Plain(form.instr()));
    }
    if let Some(form) = numbered_word(word) {
        return Some(Mnemonic::WithNumber(form));
    }
    match slotted_word(word) {
        Some(form) => Some(Mnemonic::WithSlot(form)),
        None => None,
    }
}
