//! The places that control paths reach, with what is known there of the thread's first binding.

ghost use Rattle.std.specs.Prelude.{◌≡◌, ◌<◌, length};
ghost use Rattle.std.specs.List.{list_any};
ghost use Rattle.look_accepted.specs.Nodes as node;
ghost use Rattle.look_accepted.specs.Points as def;

use sts_code::{Instr, Program};
use sts_types::Typing;

/// A place that a control path can reach. If the thread has made its first binding, `mark` is the
/// number of entries that were open then and still are.
#[derive(Clone, Copy, PartialEq, Eq)]
pub struct Point {
    pub pc: usize,
    pub mark: Option<usize>,
}

/// Is one of these needed?
fn needs_any(needs: &[bool; 16]) -> bool
    ensures { result ≡ list_any (λ needed. needed) needs.now }
{
    needs.iter().any(|needed| *needed)
}

/// Does the function need a key?
fn needs_key(program: &Program, function: usize) -> bool
    requires { function < length program.now.routines }
    ensures { result ≡ node.needs_key program.now function }
{
    let routine = &program.functions()[function];
    needs_any(&routine.needs)
}

/// The first point of a function. If its thread needs a key, a binding was in force where it was
/// forked.
pub fn first(program: &Program, function: u32) -> Point
    requires { function < length program.now.routines }
    ensures { result ≡ def.first_point program.now function }
{
    let mark = if needs_key(program, function as usize) {
        Some(0)
    } else {
        None
    };
    Point { pc: 0, mark }
}

/// The mark after an instruction: a first binding sets it to the number of open entries.
fn first_mark(instr: Instr, entries: usize) -> Option<usize>
    ensures { result ≡ node.first_mark instr entries }
{
    match instr {
        Instr::Bind(_) => Some(entries),
        _ => None,
    }
}

/// The mark at a place that the instruction leads to: an entry that is closed no longer counts.
fn next_mark(typing: &Typing, instr: Instr, point: Point, to: usize) -> Option<usize>
    requires from { point.pc < length typing.now.states }
    requires to { to < length typing.now.states }
    ensures { result ≡ node.next_mark instr (def.state_at typing.now point.pc)
        (def.state_at typing.now to) point.mark }
{
    match point.mark {
        None => first_mark(instr, typing.entries(point.pc).len()),
        Some(outer) => {
            let open = typing.entries(to).len();
            if outer <= open {
                Some(outer)
            } else {
                Some(open)
            }
        }
    }
}

/// The point at a place that the instruction leads to.
pub fn along(typing: &Typing, instr: Instr, point: Point, to: usize) -> Point
    requires from { point.pc < length typing.now.states }
    requires to { to < length typing.now.states }
    ensures { result ≡ def.along typing.now instr point to }
{
    Point {
        pc: to,
        mark: next_mark(typing, instr, point, to),
    }
}

/// The point past a loop that makes no turn, or where the next turn begins.
pub fn by_loop(typing: &Typing, instr: Instr, point: Point) -> Option<Point>
    requires { def.IsInside typing.now instr point }
    ensures { result ≡ def.loop_point typing.now point instr }
{
    match instr {
        Instr::Times(_) => {
            let end = typing.end(point.pc)?;
            Some(along(typing, instr, point, end as usize + 1))
        }
        Instr::Next => {
            let at = typing.head(point.pc)?;
            Some(Point {
                pc: at as usize + 1,
                mark: point.mark,
            })
        }
        _ => None,
    }
}
