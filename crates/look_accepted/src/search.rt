//! All points that the control paths of a function reach, and the rules that they rely on.

ghost use Rattle.std.specs.Prelude.{◌≡◌, ◌<◌, length, true, [], IfOk, OnOk, Some};
ghost use Rattle.std.specs.List.{All, Contains};
ghost use Rattle.sts_code.specs.Program.{instr_at};
ghost use Rattle.look_accepted.specs.Notes.{AreRules};
ghost use Rattle.look_accepted.specs.Points as def;

use crate::point::{Point, along, by_loop, first};
use crate::reliance::{Reliance, relied_on};
use std::alloc::{AllocError, Global};
use sts_budget::next_places;
use sts_code::{Instr, Program, code_of};
use sts_rules::filled;
use sts_types::Typing;

/// The points that were found, in order, also as lists of their numbers by place. `last` has the
/// point that was found last at each place, and `earlier` has, for each point, the one before it at
/// its place. A place has few points.
#[derive(Drop)]
struct Points {
    found: Vec<Point>,
    last: Vec<Option<usize>>,
    earlier: Vec<Option<usize>>,
}

/// The number that is linked to this one.
fn linked(links: &Vec<Option<usize>>, at: usize) -> Option<usize> {
    match links.get(at) {
        Some(link) => *link,
        None => None,
    }
}

/// Links a number to this one, and returns the one that was linked to it before.
fn relink(links: &mut Vec<Option<usize>>, at: usize, number: usize) -> Option<usize> {
    let before = linked(links, at);
    if at < links.len() {
        links[at] = Some(number);
    }
    before
}

impl Points {
    /// No points yet, at this number of places.
    fn new(alloc: Global, count: usize) -> Result<Points, AllocError>
        ensures { IfOk result (λ points. points.found.items ≡ []) }
    {
        Ok(Points {
            found: Vec::new(alloc),
            last: filled(alloc, count, None)?,
            earlier: Vec::new(alloc),
        })
    }

    /// Was the point found?
    fn has(&self, point: Point) -> bool
        ensures { result ≡ true → Contains self.now.found.items point }
    {
        let mut at = linked(&self.last, point.pc);
        let mut younger = self.found.len();
        while let Some(number) = at {
            if number >= younger {
                return false;
            }
            if self.found[number] == point {
                return true;
            }
            at = linked(&self.earlier, number);
            younger = number;
        }
        false
    }

    /// Adds a point, unless it is there.
    fn add(&mut self, point: Point) -> Result<(), AllocError>
        ensures { OnOk result (def.Adds self.old.found.items (λ y. point ≡ y)
            self.new.found.items) }
    {
        if self.has(point) {
            return Ok(());
        }
        let before = relink(&mut self.last, point.pc, self.found.len());
        self.earlier.push(before)?;
        self.found.push(point)?;
        Ok(())
    }

    /// Adds the points at the places that the instruction of a point leads to.
    fn add_along(
        &mut self,
        typing: &Typing,
        instr: Instr,
        point: Point,
        places: &[u32],
    ) -> Result<(), AllocError>
        requires here { point.pc < length typing.now.states }
        requires next { All (λ to. to < length typing.now.states) places.now }
        ensures { OnOk result (def.Adds self.old.found.items
            (def.IsAlong typing.now instr point places.now) self.new.found.items) }
    {
        for to in places {
            self.add(along(typing, instr, point, *to as usize))?;
        }
        Ok(())
    }

    /// Adds the points that follow the one at this instruction.
    fn add_next(&mut self, typing: &Typing, instr: Instr, point: Point) -> Result<(), AllocError>
        requires { def.IsInside typing.now instr point }
        ensures { OnOk result (def.Adds self.old.found.items (def.Follows typing.now instr point)
            self.new.found.items) }
    {
        let places = next_places(instr, point.pc as u32);
        self.add_along(typing, instr, point, places.as_slice())?;
        match by_loop(typing, instr, point) {
            Some(next) => self.add(next),
            None => Ok(()),
        }
    }
}

/// Notes a rule for a place, if it is one.
fn note(rules: &mut Vec<Option<Reliance>>, pc: usize, rule: Option<Reliance>)
    requires { pc < length rules.old.items }
    ensures { rules.new.items ≡ def.noted rules.old.items pc rule }
{
    if rule.is_some() {
        rules[pc] = rule;
    }
}

fn instr_here(code: &[Instr], pc: usize) -> Instr
    requires { pc < length code.now }
    ensures { result ≡ instr_at code.now pc }
{
    code[pc]
}

/// The rule that the instruction at each place relies on, in some point that a control path reaches.
///
/// # Errors
///
/// Memory ran out.
pub fn all_rules(
    alloc: Global,
    program: &Program,
    function: u32,
    typing: &Typing,
) -> Result<Vec<Option<Reliance>>, AllocError>
    requires { def.IsTyped program.now function typing.now }
    ensures { IfOk result (λ rules. AreRules program.now function rules.items) }
{
    let code = code_of(program, function as usize);
    let mut rules = filled(alloc, code.len(), None)?;
    let mut points = Points::new(alloc, code.len())?;
    points.add(first(program, function))?;
    for at in 0..usize::MAX {
        if at >= points.found.len() {
            break;
        }
        let point = points.found[at];
        let instr = instr_here(code, point.pc);
        note(&mut rules, point.pc, relied_on(typing, instr, point));
        points.add_next(typing, instr, point)?;
    }
    Ok(rules)
}
