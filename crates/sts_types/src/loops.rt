//! The loops around a place, looked up in tables if there are any.

ghost use Rattle.std.specs.Prelude.{◌≡◌, ◌≤◌, ◌<◌, ◌+◌, ◌∷◌, length, drop, bytes_eq, ◌↔◌, IsTrue};
ghost use Rattle.std.specs.Prelude.{Some};
ghost use Rattle.sts_rules.specs.Around as def;
ghost use Rattle.sts_code.specs.Program as program;
ghost use Rattle.sts_rules.specs.Causes.{closes_loop};
ghost use Rattle.sts_rules.specs.TypeState.{heads};
ghost use Rattle.sts_code.specs.Loops as matching;
ghost use Rattle.sts_types.specs.Tables.{head, AreTablesOf};

use std::marker::Model;
use sts_code::{Instr, MAX_INSTRUCTIONS, is_times, match_of};
use sts_model::Stack;
use sts_rules::TypedLoop;

/// For each place of a function's code, the match of a `times` there, and the innermost loop around
/// it.
#[derive(Drop)]
pub struct Tables {
    pub(crate) ends: Vec<Option<u32>>,
    pub(crate) heads: Vec<Option<u32>>,
}

impl Model for Tables {
    ghost use Rattle.sts_types.specs.Tables.{Tables};

    ghost Value = { Tables };

    ghost view = { λ t. record { ends = t.ends.items; heads = t.heads.items } };
}

/// The code of a function, with or without its tables: contracts see the code.
#[derive(Drop)]
pub struct CodeLoops<'c> {
    code: &'c [Instr],
    tables: Option<&'c Tables>,
}

impl<'c> Model for CodeLoops<'c> {
    ghost use Rattle.std.specs.Prelude.{◌≤◌, List, length, IfSome};
    ghost use Rattle.sts_code.specs.declared.instr.Instr.{Instr};
    ghost use Rattle.sts_code.specs.declared.limits.TheConstants.{MAX_INSTRUCTIONS};
    ghost use Rattle.sts_types.specs.Tables.{AreTablesOf};

    ghost Value = { List Instr };

    ghost view = { λ l. l.code.now };

    ghost invariant = { λ l. (length l.code.now ≤ MAX_INSTRUCTIONS)
        × IfSome l.tables (λ t. AreTablesOf l.code.now t.now) };
}

impl<'c> CodeLoops<'c> {
    /// The loops of this code, each looked up when it is asked for.
    pub fn new(code: &'c [Instr]) -> CodeLoops<'c>
        requires { length code.now ≤ MAX_INSTRUCTIONS }
        ensures { result ≡ code.now }
    {
        CodeLoops { code, tables: None }
    }

    /// The loops of this code, read off tables that were made of it.
    pub fn with_tables(code: &'c [Instr], tables: &'c Tables) -> CodeLoops<'c>
        requires short { length code.now ≤ MAX_INSTRUCTIONS }
        requires tables { AreTablesOf code.now tables.now }
        ensures { result ≡ code.now }
    {
        CodeLoops {
            code,
            tables: Some(tables),
        }
    }

    /// How many places the function has.
    pub fn len(&self) -> u32
        ensures value { result ≡ length self.now }
        ensures short { result ≤ MAX_INSTRUCTIONS }
    {
        self.code.len() as u32
    }

    /// The place after this one.
    pub fn after(&self, place: u32) -> u32
        requires { place < length self.now }
        ensures { result ≡ place + 1 }
    {
        let _ = &self.code;
        place + 1
    }

    /// Is the instruction at this place a `times`?
    fn has_times(&self, at: u32) -> bool
        ensures value { result ≡ matching.is_times (program.instr_at self.now at) }
    {
        match self.code.get(at as usize) {
            Some(instr) => is_times(*instr),
            None => false,
        }
    }

    /// The match of a `times` at `at`.
    pub fn end_of(&self, at: u32) -> Option<u32>
        ensures { result ≡ matching.match_of self.now at }
    {
        match self.tables {
            Some(tables) if self.has_times(at) => tables.ends[at as usize],
            _ => match_of(self.code, at),
        }
    }

    /// Is there a `times` at `at` with a match that isn't before this place?
    fn is_inside(&self, place: u32, at: u32) -> bool
        ensures { result ≡ def.is_inside self.now place at }
    {
        if !self.has_times(at) {
            return false;
        }
        match match_of(self.code, at) {
            Some(end) => place <= end,
            None => false,
        }
    }

    fn found_head(&self, place: u32) -> Option<u32>
        ensures { result ≡ head self.now place }
    {
        for at in (0..place).rev() {
            if self.is_inside(place, at) {
                return Some(at);
            }
        }
        None
    }

    /// The innermost loop around a place.
    pub fn head(&self, place: u32) -> Option<u32>
        ensures { result ≡ head self.now place }
    {
        match self.tables {
            Some(tables) if (place as usize) < self.code.len() => tables.heads[place as usize],
            _ => self.found_head(place),
        }
    }

    /// Are the loops around this place the open ones without the innermost `closed`?
    #[inline(always)]
    pub fn are_around(&self, place: u32, loops: &Stack<TypedLoop, 8>, closed: usize) -> bool
        ensures { result ≡ bytes_eq (def.around self.now place) (drop closed (heads loops.now)) }
    {
        let mut place = place;
        for i in closed..loops.len() {
            let at = loops.get_or(i, TypedLoop::default()).at;
            if self.head(place) != Some(at) {
                return false;
            }
            place = at;
        }
        self.head(place).is_none()
    }

    /// Are the loops around the next place this one and the open ones?
    pub fn begins(&self, pc: u32, loops: &Stack<TypedLoop, 8>) -> bool
        requires { pc < length self.now }
        ensures { result ≡ bytes_eq (def.around self.now (pc + 1)) (pc ∷ heads loops.now) }
    {
        self.begins_at(pc) && self.are_around(pc, loops, 0)
    }

    /// Is the loop at this place the innermost around the next?
    fn begins_at(&self, pc: u32) -> bool
        requires { pc < length self.now }
        ensures { IsTrue result ↔ (head self.now (pc + 1) ≡ Some pc) }
    {
        match self.head(self.after(pc)) {
            None => false,
            Some(at) => at == pc,
        }
    }

    /// Is this the match of the innermost open loop?
    pub fn closes_loop(&self, pc: u32, loops: &Stack<TypedLoop, 8>) -> bool
        ensures { result ≡ closes_loop self.now pc loops.now }
    {
        match loops.get(0) {
            None => false,
            Some(innermost) => match self.end_of(innermost.at) {
                None => false,
                Some(end) => end == pc,
            },
        }
    }
}
