//! The ends of the loops of a function's code.

ghost use Rattle.std.specs.Prelude.{◌≡◌, ◌<◌, ◌^◌, length, IfSome};
ghost use Rattle.sts_code.specs.Loops as def;

use crate::instr::Instr;

/// Does the instruction open a loop?
pub fn is_times(instr: Instr) -> bool
    ensures { result ≡ def.is_times instr }
{
    matches!(instr, Instr::Times(_))
}

fn is_next(instr: Instr) -> bool
    ensures { result ≡ def.is_next instr }
{
    matches!(instr, Instr::Next)
}

/// The match of the `times` at `at`, if there is one, found in one pass that counts the `times` and
/// `next` so far.
pub fn match_of(code: &[Instr], at: u32) -> Option<u32>
    requires { length code.now < 2 ^ 32 }
    ensures value { result ≡ def.match_of code.now at }
    ensures bound { IfSome result (λ q. q < length code.now) }
{
    let at = at as usize;
    if at >= code.len() {
        return None;
    }
    let mut times = usize::from(is_times(code[at]));
    let mut nexts = usize::from(is_next(code[at]));
    for q in at + 1..code.len() {
        times += usize::from(is_times(code[q]));
        nexts += usize::from(is_next(code[q]));
        if times == nexts {
            return Some(q as u32);
        }
    }
    None
}
