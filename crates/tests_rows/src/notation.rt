//! Lines and traces in their short notation.

use crate::failure::{Failure, within, written};
use std::io::Write;

/// Pushes bytes of a table.
fn push(text: &mut Vec<u8>, more: &str) -> Result<(), Failure> {
    within("a table", text.extend_from_slice(more.as_bytes()))
}

/// Pushes the byte that two digits stand for, and what follows them.
fn push_escaped(text: &mut Vec<u8>, escaped: &str) -> Result<(), Failure> {
    let Some((code, rest)) = escaped.split_at_checked(2) else {
        return Err(Failure::Unfit("a code of two digits is missing"));
    };
    let Ok(byte) = u8::from_str_radix(code, 16) else {
        return Err(Failure::Unfit("a code has other characters than digits"));
    };
    match text.push(byte) {
        Ok(()) => push(text, rest),
        Err(_) => Err(Failure::Memory("a table")),
    }
}

/// Pushes the parts of a line that `\` separates, each but the first with its code of two digits.
fn push_parts(text: &mut Vec<u8>, line: &str) -> Result<(), Failure> {
    let mut parts = line.split("\\");
    push(text, parts.next().unwrap_or(""))?;
    for escaped in parts {
        push_escaped(text, escaped)?;
    }
    Ok(())
}

/// Pushes one line. `\1f` stands for the byte of that code, and a line that ends with `\` has no
/// newline.
fn push_line(text: &mut Vec<u8>, line: &str) -> Result<(), Failure> {
    let Some(unended) = line.strip_suffix("\\") else {
        push_parts(text, line)?;
        return push(text, "\n");
    };
    push_parts(text, unended)
}

/// Pushes lines that this separates.
///
/// # Errors
///
/// Out of memory, or a `\` that doesn't end its line and has no two digits after it.
pub fn push_lines(text: &mut Vec<u8>, lines: &str, between: &str) -> Result<(), Failure> {
    for line in lines.split(between) {
        push_line(text, line)?;
    }
    Ok(())
}

/// A number of a table.
///
/// # Errors
///
/// The word is no number.
pub fn number(word: &str) -> Result<u32, Failure> {
    match word.parse::<u32>() {
        Ok(number) => Ok(number),
        Err(_) => Err(Failure::Unfit("a number is missing")),
    }
}

/// Pushes `count` lines, each a step of the task.
fn push_steps(trace: &mut Vec<u8>, task: u32, count: u32) -> Result<(), Failure> {
    for _ in 0..count {
        writeln!(trace, "step {task}")?;
    }
    Ok(())
}

/// Pushes the steps of each task from one to another.
fn push_tasks(trace: &mut Vec<u8>, first: u32, last: u32, count: u32) -> Result<(), Failure> {
    for task in first..=last {
        push_steps(trace, task, count)?;
    }
    Ok(())
}

/// Pushes the steps of one task, or of each task from one to another.
fn push_turns(trace: &mut Vec<u8>, steps: &str) -> Result<(), Failure> {
    let Some((tasks, count)) = steps.split_once("*") else {
        return Err(Failure::Unfit("a word of a trace is no event"));
    };
    let (first, last) = tasks.split_once("..").unwrap_or((tasks, tasks));
    push_tasks(trace, number(first)?, number(last)?, number(count)?)
}

/// Pushes the line of an event from outside: its word, and the number of a task or a scope.
fn push_outside(trace: &mut Vec<u8>, word: &str, number: &str) -> Result<(), Failure> {
    written(writeln!(trace, "{word} {number}"))
}

fn push_event(trace: &mut Vec<u8>, word: &str) -> Result<(), Failure> {
    if let Some(task) = word.strip_prefix("i") {
        push_outside(trace, "interrupt", task)
    } else if let Some(scope) = word.strip_prefix("x") {
        push_outside(trace, "expire", scope)
    } else {
        push_turns(trace, word)
    }
}

/// Pushes the lines of a trace in its short notation. `0*5` is `step 0` five times, and `1..3*5` is
/// five steps of task 1, then of task 2, then of task 3. `i0` is `interrupt 0`, and `x0` is `expire
/// 0`.
///
/// # Errors
///
/// Out of memory, or a word that is no event.
pub fn push_events(trace: &mut Vec<u8>, short: &str) -> Result<(), Failure> {
    for word in short.split_ascii_whitespace() {
        push_event(trace, word)?;
    }
    Ok(())
}
