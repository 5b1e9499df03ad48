//! The functions of a text with their labels and lines, before names are looked up.

ghost use Rattle.std.specs.Prelude.{◌≡◌, ◌∷◌, ◌++◌, ◌+◌, ◌<◌, ◌≤◌, ◌^◌, [], length, option_map};
ghost use Rattle.std.specs.Prelude.{is_some, None, OnOk, IfOk, IfSome, MatchResult, Ok, IsTrue, true};
ghost use Rattle.std.specs.Prelude.{Some, slice_get, slice_set};
ghost use Rattle.std.specs.List.{list_all, position, before_first};
ghost use Rattle.sts_text.specs.Words.{words as words_in};
ghost use Rattle.sts_asm.specs.Fault.{Steps, Fails};
ghost use Rattle.sts_asm.specs.Line.{instr_of};
ghost use Rattle.sts_asm.specs.Operand.{finished};
ghost use Rattle.sts_asm.specs.Outline as def;
ghost use Rattle.sts_asm.specs.Outline.{profile_at, with_keys, keys_at, needs_at};
ghost use Rattle.sts_asm.specs.Outline.{label_of, is_allowed, is_semicolon, is_plain, size_of};
ghost use Rattle.sts_asm.specs.Kept.{no_draft};

use crate::fault::{AsmKind, LineFault, LineKind};
use crate::line::{operandless_of, with_operands};
use crate::marks::Marks;
use crate::operand::{byte_at, is_word, name_at, name_text};
use crate::plain::Known;
use std::alloc::{AllocError, Global};
use std::marker::Model;
use std::mem;
use sts_code::{Instr, Profile, is_name};
use sts_text::{Words, number_up_to};

/// A line of an instruction, without its comment.
#[derive(Drop)]
pub struct Sentence<'a> {
    pub(crate) line: u32,
    pub(crate) text: &'a [u8],
}

impl<'a> Model for Sentence<'a> {
    ghost use Rattle.sts_text.specs.Words.{words};
    ghost use Rattle.sts_asm.specs.Outline.{Sentence};

    ghost Value = { Sentence };

    ghost view = { λ s. record { line = s.line; words = words s.text.now } };
}

impl<'a> Sentence<'a> {
    pub(crate) fn copy(&self) -> Sentence<'a>
        ensures { result ≡ self.now }
    {
        Sentence {
            line: self.line,
            text: self.text,
        }
    }
}

/// The lines of a function's instructions, and the instruction of each, as read without names.
#[derive(Drop)]
pub struct Lines<'a> {
    pub(crate) sentences: Vec<Sentence<'a>>,
    pub(crate) unnamed: Vec<Instr>,
}

impl<'a> Model for Lines<'a> {
    ghost use Rattle.std.specs.Prelude.{List};
    ghost use Rattle.sts_asm.specs.Outline.{Sentence, AreUnnamed};

    ghost Value = { List Sentence };

    ghost view = { λ l. l.sentences.items };

    ghost invariant = { λ l. AreUnnamed l.sentences.items l.unnamed.items };
}

impl<'a> Lines<'a> {
    /// No line.
    fn new(alloc: Global) -> Lines<'a>
        ensures { result ≡ [] }
    {
        Lines {
            sentences: Vec::new(alloc),
            unnamed: Vec::new(alloc),
        }
    }

    /// No line yet, and room for `count` lines.
    fn with_room(alloc: Global, count: usize) -> Result<Lines<'a>, AllocError>
        ensures { IfOk result (λ lines. lines ≡ []) }
    {
        let sentences = Vec::with_capacity(alloc, count)?;
        let unnamed = Vec::with_capacity(alloc, count)?;
        Ok(Lines { sentences, unnamed })
    }

    fn len(&self) -> usize
        ensures { result ≡ length self.now }
    {
        self.sentences.len()
    }

    #[inline(always)]
    fn push(&mut self, at: u32, text: &'a [u8], unnamed: Instr) -> Result<(), AllocError>
        requires { instr_of None (words_in text.now) ≡ Ok unnamed }
        ensures { OnOk result (self.new ≡ self.old ++
            record { line = at; words = words_in text.now } ∷ []) }
    {
        self.sentences.reserve(1)?;
        self.unnamed.reserve(1)?;
        self.sentences.push_reserved(Sentence { line: at, text });
        self.unnamed.push_reserved(unnamed);
        Ok(())
    }
}

/// A function as far as it was read.
#[derive(Drop)]
pub struct Draft<'a> {
    pub(crate) name: &'a str,
    pub(crate) args: u8,
    pub(crate) needs: [bool; 16],
    pub(crate) labels: Marks<'a>,
    pub(crate) code: Lines<'a>,
}

impl<'a> Model for Draft<'a> {
    ghost use Rattle.sts_asm.specs.Outline.{Draft};

    ghost Value = { Draft };

    ghost view = { λ d. record {
      name = d.name.now;
      args = d.args;
      needs = d.needs;
      labels = d.labels;
      code = d.code;
    } };
}

fn no_more(rest: &mut Words<'_>) -> Result<(), LineFault>
    ensures { result ≡ finished tt rest.old }
{
    match rest.word() {
        None => Ok(()),
        Some(_) => Err(LineFault(LineKind::BadOperands)),
    }
}

fn profile_at(rest: &mut Words<'_>) -> Result<Profile, LineFault>
    ensures { result ≡ profile_at rest.old }
{
    let Some(word) = rest.word() else {
        return Err(LineFault(LineKind::BadOperands));
    };
    let profile = match number_up_to(word, 2) {
        Some(1) => Profile::One,
        Some(2) => Profile::Two,
        _ => return Err(LineFault(LineKind::BadNumber)),
    };
    no_more(rest)?;
    Ok(profile)
}

/// Adds the keys that the other words name to `needs`.
fn with_keys(needs: [bool; 16], rest: &mut Words<'_>) -> Result<[bool; 16], LineFault>
    ensures { result ≡ with_keys needs rest.old }
{
    let mut needs = needs;
    while let Some(word) = rest.word() {
        match number_up_to(word, 15) {
            Some(key) => needs[key as usize] = true,
            None => return Err(LineFault(LineKind::BadNumber)),
        }
    }
    Ok(needs)
}

fn keys_at(rest: &mut Words<'_>) -> Result<[bool; 16], LineFault>
    ensures { result ≡ keys_at rest.old }
{
    let Some(word) = rest.word() else {
        return Err(LineFault(LineKind::BadOperands));
    };
    let mut needs = [false; 16];
    match number_up_to(word, 15) {
        Some(key) => needs[key as usize] = true,
        None => return Err(LineFault(LineKind::BadNumber)),
    }
    with_keys(needs, rest)
}

fn needs_at(rest: &mut Words<'_>) -> Result<[bool; 16], LineFault>
    ensures { result ≡ needs_at rest.old }
{
    let Some(word) = rest.word() else {
        return Ok([false; 16]);
    };
    if is_word(word, b"needs") {
        keys_at(rest)
    } else {
        Err(LineFault(LineKind::BadOperands))
    }
}

/// A function without lines, and with room for `count` instructions.
fn header_at<'a>(alloc: Global, count: usize, rest: &mut Words<'a>) -> Result<Draft<'a>, LineFault>
    ensures { MatchResult result (λ draft. def.header_at rest.old ≡ Ok draft)
        (λ kind. Fails kind (def.header_at rest.old)) }
{
    let name = name_text(name_at(rest)?);
    let args = byte_at(rest)?;
    let needs = needs_at(rest)?;
    let code = Lines::with_room(alloc, count)?;
    Ok(Draft {
        name,
        args,
        needs,
        labels: Marks::new(alloc),
        code,
    })
}

/// The name of a label, if the word is a name and a colon.
pub fn label_of(word: &[u8]) -> Option<&[u8]>
    ensures { option_map (λ name. name.now) result ≡ label_of word.now }
{
    match word {
        [name @ .., b':'] => { if is_name(name) { Some(name) } else { None } }
        _ => None,
    }
}

impl<'a> Draft<'a> {
    /// A function without a name and without lines.
    fn new(alloc: Global) -> Draft<'a>
        ensures { result ≡ no_draft }
    {
        Draft {
            name: "",
            args: 0,
            needs: [false; 16],
            labels: Marks::new(alloc),
            code: Lines::new(alloc),
        }
    }

    #[inline(never)]
    fn label(&mut self, name: &'a [u8]) -> Result<(), LineFault>
        requires { length self.old.code < 2 ^ 32 }
        ensures steps { Steps result self.new (def.labelled self.old name.now) }
        ensures same { OnOk result (length self.new.code ≡ length self.old.code) }
    {
        if self.labels.find(name).is_some() {
            return Err(LineFault(LineKind::DuplicateLabel));
        }
        let at = self.code.len() as u32;
        self.labels.push_new(name, at)?;
        Ok(())
    }

    /// Kept in line, so that the instruction is written where it is kept and not moved there.
    #[inline(always)]
    fn sentence(&mut self, at: u32, text: &'a [u8], unnamed: Instr) -> Result<(), LineFault>
        requires { instr_of None (words_in text.now) ≡ Ok unnamed }
        ensures { Steps result self.new (Ok (def.with_sentence at self.old (words_in text.now))) }
    {
        self.code.push(at, text, unnamed)?;
        Ok(())
    }

    /// A line of a function: a label, or an instruction. `word` and `rest` are the words of `text`.
    #[inline(always)]
    fn inner(
        &mut self,
        at: u32,
        text: &'a [u8],
        word: &'a [u8],
        rest: &mut Words<'a>,
    ) -> Result<(), LineFault>
        requires size { length self.old.code < 2 ^ 32 }
        requires words { words_in text.now ≡ word.now ∷ rest.old }
        ensures steps { Steps result self.new (def.inner at self.old
            (label_of word.now) word.now rest.old) }
        ensures grows { OnOk result (length self.new.code ≤ length self.old.code + 1) }
    {
        if let Some(name) = label_of(word) {
            no_more(rest)?;
            return self.label(name);
        }
        if let Some(form) = operandless_of(word, rest)? {
            return self.sentence(at, text, form.instr());
        }
        let unnamed = with_operands(word, rest, None)?;
        self.sentence(at, text, unnamed)
    }
}

/// A text as far as it was read.
#[derive(Drop)]
pub struct Outline<'a> {
    pub(crate) profile: Profile,
    pub(crate) functions: Marks<'a>,
    pub(crate) done: Vec<Draft<'a>>,
    pub(crate) current: Option<Draft<'a>>,
    /// How many instructions the function has that ended last.
    room: usize,
    pub(crate) alloc: Global,
}

impl<'a> Model for Outline<'a> {
    ghost use Rattle.sts_asm.specs.Outline.{Outline};

    ghost Value = { Outline };

    ghost view = { λ o. record {
      profile = o.profile;
      functions = o.functions;
      done = o.done.items;
      current = o.current;
    } };
}

/// A tab, a carriage return, or a byte from the space to `~`?
#[inline(always)]
pub fn is_allowed(byte: u8) -> bool
    ensures { result ≡ is_allowed byte }
{
    matches!(byte, b'\t' | b'\r' | b' '..=b'~')
}

fn all_allowed(line: &[u8]) -> bool
    ensures { result ≡ list_all is_allowed line.now }
{
    line.iter().all(|b| is_allowed(*b))
}

fn semicolon_in(line: &[u8]) -> Option<usize>
    ensures { result ≡ position is_semicolon line.now }
{
    line.iter().position(|b| *b == b';')
}

#[tactic(auto, using(sts_text::proofs::WordLemmas::positions))]
pub(crate) fn uncommented(line: &[u8]) -> &[u8]
    ensures { result.now ≡ before_first is_semicolon line.now }
{
    match semicolon_in(line) {
        Some(end) => &line[..end],
        None => line,
    }
}

/// Are all bytes of a line allowed? `known` says that they are known to be.
fn is_allowed_line(line: &[u8], known: bool) -> bool
    requires { IsTrue known → list_all is_allowed line.now ≡ true }
    ensures { result ≡ list_all is_allowed line.now }
{
    known || all_allowed(line)
}

/// The part of a line before its comment. `plain` says that its bytes are known to be plain.
#[tactic(auto, using(crate::proofs::PlainLemmas::plain_whole))]
fn said_part(line: &[u8], plain: bool) -> &[u8]
    requires { IsTrue plain → list_all is_plain line.now ≡ true }
    ensures { result.now ≡ before_first is_semicolon line.now }
{
    if plain { line } else { uncommented(line) }
}

impl<'a> Outline<'a> {
    /// The outline before the first line.
    pub fn new(alloc: Global) -> Outline<'a>
        ensures { result ≡ def.empty }
    {
        Outline {
            profile: Profile::One,
            functions: Marks::new(alloc),
            done: Vec::new(alloc),
            current: None,
            room: 0,
            alloc,
        }
    }

    /// Is a function open?
    pub fn is_open(&self) -> bool
        ensures { result ≡ is_some self.now.current }
    {
        self.current.is_some()
    }

    /// Takes an ended function out, and leaves an empty one in its place.
    pub(crate) fn take(&mut self, number: usize) -> Draft<'a>
        requires { number < length self.old.done }
        ensures taken { slice_get self.old.done number ≡ Some result }
        ensures left { self.new ≡ record self.old {
          done = slice_set self.old.done number no_draft;
        } }
    {
        let empty = Draft::new(self.alloc);
        mem::replace(&mut self.done[number], empty)
    }

    #[inline(never)]
    fn profile(&mut self, rest: &mut Words<'a>) -> Result<(), LineFault>
        ensures steps { Steps result self.new (def.profiled self.old rest.old) }
        ensures same { OnOk result (size_of self.new ≡ size_of self.old) }
    {
        self.profile = profile_at(rest)?;
        Ok(())
    }

    #[inline(never)]
    fn begin(&mut self, rest: &mut Words<'a>) -> Result<(), LineFault>
        requires { size_of self.old < 2 ^ 32 }
        ensures steps { Steps result self.new (def.begun self.old rest.old) }
        ensures same { OnOk result (size_of self.new ≡ size_of self.old) }
    {
        if self.current.is_some() {
            return Err(LineFault(LineKind::Unclosed));
        }
        // Functions of a text are often alike, so there's room for as many lines as the last had.
        let draft = header_at(self.alloc, self.room, rest)?;
        self.open(draft)?;
        Ok(())
    }

    /// Opens a function, and adds its name.
    fn open(&mut self, draft: Draft<'a>) -> Result<(), AllocError>
        requires { length self.old.done < 2 ^ 32 }
        ensures { OnOk result (self.new ≡ def.with_function self.old draft.entry) }
    {
        let name = draft.name.as_bytes();
        let at = self.done.len() as u32;
        self.current.insert(draft);
        self.functions.push(name, at)
    }

    #[inline(never)]
    fn end(&mut self, rest: &mut Words<'a>) -> Result<(), LineFault>
        ensures steps { Steps result self.new (def.ended self.old self.old.current rest.old) }
        ensures grows { OnOk result (size_of self.new ≤ size_of self.old + 1) }
    {
        if self.current.is_none() {
            return Err(LineFault(LineKind::UnknownWord));
        }
        no_more(rest)?;
        self.close()?;
        Ok(())
    }

    /// Adds the open function to those that are ended.
    fn close(&mut self) -> Result<(), AllocError>
        ensures { OnOk result (IfSome self.old.current (λ draft. self.new ≡
            record self.old { done = self.old.done ++ draft ∷ []; current = None })) }
    {
        self.done.reserve(1)?;
        if let Some(draft) = self.current.take() {
            self.room = draft.code.len();
            self.done.push_reserved(draft);
        }
        Ok(())
    }

    #[inline(always)]
    fn inside(
        &mut self,
        at: u32,
        text: &'a [u8],
        word: &'a [u8],
        rest: &mut Words<'a>,
    ) -> Result<(), LineFault>
        requires size { size_of self.old < 2 ^ 32 }
        requires words { words_in text.now ≡ word.now ∷ rest.old }
        ensures steps { Steps result self.new (def.inside at self.old
            self.old.current word.now rest.old) }
        ensures grows { OnOk result (size_of self.new ≤ size_of self.old + 1) }
    {
        let Some(draft) = &mut self.current else {
            return Err(LineFault(LineKind::UnknownWord));
        };
        draft.inner(at, text, word, rest)
    }

    #[inline(always)]
    fn say(&mut self, at: u32, text: &'a [u8]) -> Result<(), LineFault>
        requires { size_of self.old < 2 ^ 32 }
        ensures steps { Steps result self.new (def.said at self.old (words_in text.now)) }
        ensures grows { OnOk result (size_of self.new ≤ size_of self.old + 1) }
    {
        let mut rest = Words::new(text);
        let Some(word) = rest.word() else {
            return Ok(());
        };
        if is_word(word, b"func") {
            return self.begin(&mut rest);
        }
        if is_word(word, b"end") {
            return self.end(&mut rest);
        }
        if at == 1 && is_word(word, b"profile") {
            return self.profile(&mut rest);
        }
        self.inside(at, text, word, &mut rest)
    }

    /// Reads the line of this number.
    ///
    /// # Errors
    ///
    /// The kind of the line's fault, or memory ran out.
    pub fn line(&mut self, at: u32, line: &'a [u8]) -> Result<(), AsmKind>
        requires { size_of self.old < 2 ^ 32 }
        ensures steps { Steps result self.new (def.line_read at self.old line.now) }
        ensures grows { OnOk result (size_of self.new ≤ size_of self.old + 1) }
    {
        match self.read(at, line, Known::nothing()) {
            Ok(()) => Ok(()),
            Err(fault) => Err(fault.kind()),
        }
    }

    /// Reads the line of this number. `known` is what is known of its bytes.
    ///
    /// # Errors
    ///
    /// The kind of the line's fault, or memory ran out.
    pub(crate) fn read(&mut self, at: u32, line: &'a [u8], known: Known) -> Result<(), LineFault>
        requires size { size_of self.old < 2 ^ 32 }
        requires plain { IsTrue known.plain → list_all is_plain line.now ≡ true }
        requires allowed { IsTrue known.allowed → list_all is_allowed line.now ≡ true }
        ensures steps { Steps result self.new (def.line_read at self.old line.now) }
        ensures grows { OnOk result (size_of self.new ≤ size_of self.old + 1) }
    {
        if !is_allowed_line(line, known.allowed) {
            return Err(LineFault(LineKind::NotAscii));
        }
        self.say(at, said_part(line, known.plain))
    }
}
