//! A whole text.

ghost use Rattle.std.specs.Prelude.{◌≡◌, ◌<◌, ◌^◌, ◌≤◌, ◌+◌, ◌∷◌, [], length, true, OnOk};
ghost use Rattle.std.specs.Prelude.{IfSome, IsTrue, MatchOption};
ghost use Rattle.std.specs.List.{list_all};
ghost use Rattle.sts_text.specs.Words.{lines};
ghost use Rattle.sts_asm.specs.Fault.{Judges, StepsAt, at_line};
ghost use Rattle.sts_asm.specs.Outline.{empty, outline_of, line_read, size_of};
ghost use Rattle.sts_asm.specs.Outline.{is_plain, is_allowed};
ghost use Rattle.sts_asm.specs.Kept.{AllTaken};
ghost use Rattle.sts_asm.specs.Plain.{is_in};
ghost use Rattle.sts_asm.specs.Text.{judged};

use crate::fault::{AsmError, AsmKind, LineFault, LineKind};
use crate::kept::{Kept, keep_ended};
use crate::outline::Outline;
use crate::plain::{Class, Known, end_of};
use crate::resolving::program_of;
use std::alloc::Global;
use sts_code::Program;
use sts_text::cut_at_newline;

/// Cuts the text after its first line, if the bytes of the line are in the class. It may miss a
/// line that ends in the last 16 bytes.
#[inline(always)]
#[tactic(auto, using(crate::proofs::PlainLemmas::allowed_cut))]
fn cut_class(class: Class, text: &[u8]) -> Option<(&[u8], &[u8])>
    ensures inside { IfSome result (λ cut. list_all (is_in class) cut.0.now ≡ true) }
    ensures allowed { IfSome result (λ cut. list_all is_allowed cut.0.now ≡ true) }
    ensures lines { IfSome result (λ cut. lines text.now ≡ cut.0.now ∷ lines cut.1.now) }
    ensures shorter { IfSome result (λ cut. length cut.1.now < length text.now) }
{
    let end = end_of(class, text);
    if end < text.len() && text[end] == b'\n' {
        return Some((&text[..end], &text[end + 1..]));
    }
    None
}

/// The first line, the text after its newline, and what is known of the line's bytes. Most lines
/// are found and judged in one pass.
#[inline(always)]
fn cut_line(text: &[u8]) -> Option<(&[u8], &[u8], Known)>
    ensures lines { MatchOption result (lines text.now ≡ text.now ∷ [])
        (λ cut. lines text.now ≡ cut.0.now ∷ lines cut.1.now) }
    ensures shorter { IfSome result (λ cut. length cut.1.now < length text.now) }
    ensures plain { IfSome result (λ cut.
        IsTrue cut.2.plain → list_all is_plain cut.0.now ≡ true) }
    ensures allowed { IfSome result (λ cut.
        IsTrue cut.2.allowed → list_all is_allowed cut.0.now ≡ true) }
{
    if let Some((line, after)) = cut_class(Class::Plain, text) {
        let known = Known {
            plain: true,
            allowed: true,
        };
        return Some((line, after, known));
    }
    if let Some((line, after)) = cut_class(Class::Allowed, text) {
        let known = Known {
            plain: false,
            allowed: true,
        };
        return Some((line, after, known));
    }
    match cut_at_newline(text) {
        Some((line, after)) => Some((line, after, Known::nothing())),
        None => None,
    }
}

fn line_at<'a>(
    outline: &mut Outline<'a>,
    at: u32,
    line: &'a [u8],
    known: Known,
) -> Result<(), AsmError>
    requires size { size_of outline.old < 2 ^ 32 }
    requires plain { IsTrue known.plain → list_all is_plain line.now ≡ true }
    requires allowed { IsTrue known.allowed → list_all is_allowed line.now ≡ true }
    ensures steps { StepsAt result outline.new (at_line at (line_read at outline.old line.now)) }
    ensures grows { OnOk result (size_of outline.new ≤ size_of outline.old + 1) }
{
    match outline.read(at, line, known) {
        Ok(()) => Ok(()),
        Err(LineFault(LineKind::Memory)) => Err(AsmError {
            line: 0,
            kind: AsmKind::Memory,
        }),
        Err(fault) => {
            let kind = fault.kind();
            Err(AsmError { line: at, kind })
        }
    }
}

/// Reads the text into the outline before the first line.
#[tactic(auto, using(crate::proofs::TextLemmas::reads))]
fn read_text<'a>(outline: &mut Outline<'a>, text: &'a [u8]) -> Result<(), AsmError>
    requires new { outline.old ≡ empty }
    requires short { length text.now ≤ 1048576 }
    ensures { StepsAt result outline.new (outline_of text.now) }
{
    let mut rest = text;
    let mut at: u32 = 1;
    while let Some((line, after, known)) = cut_line(rest) {
        line_at(outline, at, line, known)?;
        rest = after;
        at += 1;
    }
    line_at(outline, at, rest, Known::nothing())?;
    if outline.is_open() {
        return Err(AsmError {
            line: at,
            kind: AsmKind::Unclosed,
        });
    }
    Ok(())
}

/// Reads the text into the outline before the first line. Functions that have ended are taken out
/// of it, and lines that aren't read again are dropped.
fn read_kept<'a>(
    alloc: Global,
    outline: &mut Outline<'a>,
    all: &mut Vec<Kept<'a>>,
    text: &'a [u8],
) -> Result<(), AsmError>
    requires new { outline.old ≡ empty }
    requires none { all.old.items ≡ [] }
    requires short { length text.now ≤ 1048576 }
    ensures { AllTaken result outline.new all.new.items (outline_of text.now) }
{
    let mut rest = text;
    let mut at: u32 = 1;
    while let Some((line, after, known)) = cut_line(rest) {
        line_at(outline, at, line, known)?;
        keep_ended(alloc, outline, all)?;
        rest = after;
        at += 1;
    }
    line_at(outline, at, rest, Known::nothing())?;
    keep_ended(alloc, outline, all)?;
    if outline.is_open() {
        return Err(AsmError {
            line: at,
            kind: AsmKind::Unclosed,
        });
    }
    Ok(())
}

/// The functions of the text, before names are looked up.
pub(crate) fn outline_of<'a>(alloc: Global, text: &'a [u8]) -> Result<Outline<'a>, AsmError>
    requires { length text.now ≤ 1048576 }
    ensures { Judges (λ o. o) result (outline_of text.now) }
{
    let mut outline = Outline::new(alloc);
    read_text(&mut outline, text).and(Ok(outline))
}

/// The program that a text spells, or its first fault.
///
/// # Errors
///
/// The kind and the line of the first fault. If memory ran out, it is A10 at line 0.
pub fn assemble(alloc: Global, text: &[u8]) -> Result<Program, AsmError>
    ensures { Judges (λ p. p) result (judged text.now) }
{
    if text.len() > 1048576 {
        return Err(AsmError {
            line: 0,
            kind: AsmKind::TextTooLong,
        });
    }
    let mut outline = Outline::new(alloc);
    let mut all = Vec::new(alloc);
    read_kept(alloc, &mut outline, &mut all, text)?;
    program_of(alloc, &outline, all)
}
