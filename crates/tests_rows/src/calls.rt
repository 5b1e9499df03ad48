//! Makes one call after another on a row and says what each answers. A script makes allocations
//! fail meanwhile.
//!
//! Standard input has a line of calls, a text, a line `%` and a trace. If a call finds no memory, the
//! program prints `error memory in` and its name, with status 6. These are the calls:
//!
//! - `spell` finds the words of each instruction.
//! - `apply` applies the trace to the plain machine. An event that finds no memory is applied again.
//! - `tree` makes a tree with room for many scopes.
//! - `verify` verifies the program, and once more if it comes back since there was no memory.
//! - `run_alone` is a whole run, and `book` one in a book, each with two marks. Both verify first.

use crate::failure::{Failure, within};
use std::alloc::Global;
use std::fmt::Debug;
use std::io::Print;
use std::str;
use sts_asm::{AsmKind, assemble};
use sts_code::Program;
use sts_list::spell;
use sts_machine::{Machine, Turned, run_alone};
use sts_model::Event;
use sts_output::{TakeError, split, take};
use sts_plain::Plain;
use sts_pool::Book;
use sts_text::cut_at_newline;
use sts_trace::{TraceError, read_trace};
use sts_tree::Tree;
use sts_verify::{Verified, VerifyError, verify};

/// How many scopes have room in the tree: one more than an accepted program has at once.
const SCOPES: u32 = 65_537;

/// As many rounds as no run of a row takes.
const MOST_ROUNDS: u32 = 100_000;

/// The limit for the local instructions of a slice.
const LOCALS: u32 = 64;

/// A task that is never born.
const NOBODY: u32 = u32::MAX;

fn assembled(alloc: Global, text: &[u8]) -> Result<Program, Failure> {
    match assemble(alloc, text) {
        Ok(program) => Ok(program),
        Err(error) if error.kind == AsmKind::Memory => Err(Failure::Memory("assemble")),
        Err(_) => Err(Failure::Unfit("the text has a fault")),
    }
}

fn events(alloc: Global, trace: &[u8]) -> Result<Vec<Event>, Failure> {
    match read_trace(alloc, trace) {
        Ok(events) => Ok(events),
        Err(TraceError::Memory) => Err(Failure::Memory("read_trace")),
        Err(_) => Err(Failure::Unfit("the trace has a fault")),
    }
}

/// Says what a call answers.
fn tell<T: Copy + Debug>(rt: &HostRuntime, answer: T) -> Result<(), Failure> {
    println!(rt; "{answer:?}")?;
    Ok(())
}

/// Says whether a call that found no memory left a value unchanged.
fn tell_refused(rt: &HostRuntime, is_same: bool) -> Result<(), Failure> {
    rt.println(if is_same {
        "refused, unchanged"
    } else {
        "refused, changed"
    })?;
    Ok(())
}

/// Says the words of each instruction.
fn spelled(rt: &HostRuntime, program: &Program) -> Result<(), Failure> {
    for function in program.functions() {
        for instr in &function.code {
            let words = within("spell", spell(rt.alloc(), instr, program))?;
            rt.println(words.as_str())?;
        }
    }
    Ok(())
}

/// Applies an event, and once more if there was no memory.
fn apply_again(rt: &HostRuntime, plain: &mut Plain<'_>, event: Event) -> Result<(), Failure> {
    let (state, steps) = (plain.state(), plain.steps());
    if plain.apply(rt.alloc(), event).is_ok() {
        return Ok(());
    }
    tell_refused(rt, plain.state() == state && plain.steps() == steps)?;
    within("apply", plain.apply(rt.alloc(), event))
}

/// Applies events, and says what comes of them.
fn apply_each(rt: &HostRuntime, plain: &mut Plain<'_>, events: &[Event]) -> Result<(), Failure> {
    for event in events {
        apply_again(rt, plain, *event)?;
    }
    tell(rt, (plain.state(), plain.steps()))
}

/// Applies the events of a trace to the beginning of a program.
fn applied(rt: &HostRuntime, program: &Program, trace: &[u8]) -> Result<(), Failure> {
    let events = events(rt.alloc(), trace)?;
    match Plain::start(rt.alloc(), program) {
        Ok(mut plain) => apply_each(rt, &mut plain, events.as_slice()),
        Err(_) => Err(Failure::Memory("start")),
    }
}

/// Makes a tree, and says for how many more tasks and scopes it has room.
fn with_room(rt: &HostRuntime) -> Result<(), Failure> {
    match Tree::<u8>::with_room(rt.alloc(), 2, SCOPES) {
        Ok(tree) => tell(rt, (tree.task_room(), tree.scope_room())),
        Err(_) => Err(Failure::Memory("tree")),
    }
}

fn are_same(one: &Program, other: &Program) -> bool {
    one.profile() == other.profile()
        && one.functions().len() == other.functions().len()
        && one.functions().iter().zip(other.functions()).all(|(one, other)| {
            one.name == other.name
                && one.args == other.args
                && one.needs == other.needs
                && one.code == other.code
        })
}

fn in_verifying(answer: Result<Verified, VerifyError>) -> Result<Verified, Failure> {
    match answer {
        Ok(verified) => Ok(verified),
        Err(VerifyError::Memory(_)) => Err(Failure::Memory("verify")),
        Err(_) => Err(Failure::Unfit("the program is refused")),
    }
}

/// Verifies a program, and once more if it comes back since memory ran out.
fn verified(rt: &HostRuntime, program: Program, same: &Program) -> Result<Verified, Failure> {
    match verify(rt.alloc(), program) {
        Err(VerifyError::Memory(back)) => {
            tell_refused(rt, are_same(&back, same))?;
            in_verifying(verify(rt.alloc(), back))
        }
        answer => in_verifying(answer),
    }
}

/// Says the budgets of each function of an accepted program.
fn tell_budgets(rt: &HostRuntime, verified: &Verified) -> Result<(), Failure> {
    for (i, function) in verified.program().functions().iter().enumerate() {
        let most = verified.budgets(i);
        let name = function.name.as_str();
        tell(rt, (name, most.steps, most.tasks, most.scopes, most.binds))?;
    }
    Ok(())
}

/// Prepares a machine between two marks, and runs the program alone. So a script sees whether a whole
/// run asks for more memory than the machine does that is prepared.
fn ran_alone(rt: &HostRuntime, verified: &Verified) -> Result<(), Failure> {
    rt.println("from here")?;
    drop(within("prepare", Machine::prepare(rt.alloc(), verified))?);
    rt.println("to here")?;
    let end = within("run_alone", run_alone(rt.alloc(), verified))?;
    tell(rt, end)
}

/// Takes out a task that can step, does what it can, gives it back and steps once; meanwhile an
/// event comes from outside. `None` if no task can step, or the book doesn't go on.
fn round(book: &mut Book<'_>) -> Option<Turned> {
    let mut slice = book.check_out()?;
    let task = slice.task();
    slice.run_local(LOCALS);
    // a book that is full refuses it
    let _ = book.outside(Event::Interrupt(NOBODY));
    if book.check_in(slice).is_err() {
        return None;
    }
    Some(book.turn(task))
}

/// Does the rounds of one worker between two marks, and says how the root has ended.
fn go_on(rt: &HostRuntime, book: &mut Book<'_>) -> Result<(), Failure> {
    rt.println("from here")?;
    for _ in 0..MOST_ROUNDS {
        if round(book) != Some(Turned::Stepped) {
            break;
        }
    }
    rt.println("to here")?;
    tell(rt, book.root_end())
}

/// A whole run in a book.
fn booked(rt: &HostRuntime, verified: &Verified) -> Result<(), Failure> {
    match Book::start(rt.alloc(), verified) {
        Ok(mut book) => go_on(rt, &mut book),
        Err(_) => Err(Failure::Memory("book")),
    }
}

/// Makes a call on an accepted program.
fn answer_for(rt: &HostRuntime, call: &str, verified: &Verified) -> Result<(), Failure> {
    match call {
        "verify" => tell_budgets(rt, verified),
        "run_alone" => ran_alone(rt, verified),
        "book" => booked(rt, verified),
        _ => Err(Failure::Unfit("there is no such call")),
    }
}

/// Verifies a program that is the same as this one, and makes a call on it.
fn accepted(rt: &HostRuntime, call: &str, text: &[u8], same: &Program) -> Result<(), Failure> {
    match verified(rt, assembled(rt.alloc(), text)?, same) {
        Ok(verified) => answer_for(rt, call, &verified),
        Err(failure) => Err(failure),
    }
}

/// Makes a call on a row, whose text is that of this program.
fn answer(
    rt: &HostRuntime,
    call: &str,
    program: &Program,
    text: &[u8],
    trace: &[u8],
) -> Result<(), Failure> {
    match call {
        "spell" => spelled(rt, program),
        "apply" => applied(rt, program, trace),
        "tree" => with_room(rt),
        _ => accepted(rt, call, text, program),
    }
}

/// Makes these calls, one after the other.
fn answer_each(
    rt: &HostRuntime,
    calls: &str,
    program: &Program,
    text: &[u8],
    trace: &[u8],
) -> Result<(), Failure> {
    for call in calls.split_ascii_whitespace() {
        answer(rt, call, program, text, trace)?;
    }
    Ok(())
}

/// Makes the calls of the first line of an input on the row after it.
fn answer_input(rt: &HostRuntime, input: &[u8]) -> Result<(), Failure> {
    let Some((line, row)) = cut_at_newline(input) else {
        return Err(Failure::Unfit("there is no line of calls"));
    };
    let calls = str::from_utf8(line).unwrap_or("");
    let (text, trace) = split(row);
    match assembled(rt.alloc(), text) {
        Ok(program) => answer_each(rt, calls, &program, text, trace),
        Err(failure) => Err(failure),
    }
}

/// Makes the calls that standard input names on the row that follows.
///
/// # Errors
///
/// There was no memory, the row doesn't fit a call, or a write failed.
pub fn answer_all(rt: &HostRuntime) -> Result<(), Failure> {
    match take(rt.alloc(), &mut rt.reader(), u64::MAX) {
        Ok(input) => answer_input(rt, input.as_slice()),
        Err(TakeError::Memory) => Err(Failure::Memory("take")),
        Err(TakeError::Read) => Err(Failure::Unfit("a read failed")),
    }
}
