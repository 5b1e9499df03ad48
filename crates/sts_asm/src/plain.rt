//! Bytes of a class, looked at 16 at a time.

ghost use Rattle.std.specs.Prelude.{◌≡◌, ℕ, ◌+◌, ◌<◌, ◌≤◌, ◌==◌, if◌then◌else◌, length, take, true};
ghost use Rattle.std.specs.Prelude.{false, slice_index};
ghost use Rattle.std.specs.Int.{w64, trailing_zeros};
ghost use Rattle.std.specs.List.{list_all};
ghost use Rattle.sts_asm.specs.Outline.{is_allowed};
ghost use Rattle.sts_asm.specs.Plain.{is_in};

use std::simd::prelude::*;

/// What the bytes of a line may be. Most lines are plain: they have no comment.
#[derive(Clone, Copy)]
pub(crate) enum Class {
    Plain,
    Allowed,
}

/// What is known of the bytes of a line: that all are plain, or that all are allowed.
#[derive(Clone, Copy)]
pub(crate) struct Known {
    pub(crate) plain: bool,
    pub(crate) allowed: bool,
}

impl Known {
    /// Nothing is known of them.
    #[inline(always)]
    pub(crate) fn nothing() -> Known
        ensures { result ≡ record { plain = false; allowed = false } }
    {
        Known {
            plain: false,
            allowed: false,
        }
    }
}

/// How many bytes are looked at together.
const LANES: usize = 16;

/// Returns the place of the lowest bit that is set, or `LANES`.
#[inline(always)]
fn lowest_of(marks: u64) -> usize
    ensures { result ≡ (if marks == 0 then LANES else trailing_zeros w64 marks) }
{
    if marks == 0 {
        LANES
    } else {
        marks.trailing_zeros() as usize
    }
}

/// Counts the bytes of the class from a place on, up to another one, among `LANES` bytes.
#[inline(always)]
fn run_of(class: Class, text: &[u8], from: usize) -> usize
    requires { from + LANES ≤ length text.now }
    ensures few { result ≤ LANES }
    ensures inside { (k : ℕ) → from ≤ k → k < from + result →
        is_in class (slice_index text.now k) ≡ true }
{
    let bytes = u8x16::from_slice(&text[from..]);
    let unprinted = bytes.simd_lt(u8x16::splat(b' ')) | bytes.simd_gt(u8x16::splat(b'~'));
    match class {
        Class::Plain => {
            let stops = unprinted | bytes.simd_eq(u8x16::splat(b';'));
            lowest_of(stops.to_bitmask())
        }
        Class::Allowed => {
            let other = bytes.simd_ne(u8x16::splat(b'\t')) & bytes.simd_ne(u8x16::splat(b'\r'));
            let stops = unprinted & other;
            lowest_of(stops.to_bitmask())
        }
    }
}

/// Returns a place before which all bytes are in the class. It is that of the first byte that
/// isn't, or fewer than `LANES` bytes follow.
#[inline(always)]
pub(crate) fn end_of(class: Class, text: &[u8]) -> usize
    ensures within { result ≤ length text.now }
    ensures inside { list_all (is_in class) (take result text.now) ≡ true }
    ensures allowed { list_all is_allowed (take result text.now) ≡ true }
{
    let mut at = 0;
    while LANES <= text.len() - at {
        let run = run_of(class, text, at);
        at += run;
        if run < LANES {
            return at;
        }
    }
    at
}
