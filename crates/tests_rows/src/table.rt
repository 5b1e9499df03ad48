//! One table, read line by line.

use crate::failure::Failure;
use crate::notation::{number, push_events, push_lines};
use std::alloc::Global;
use std::{mem, str};
use sts_cli::{play, play_joined};
use sts_output::Mode;
use sts_output::printed::trace_fault_line;
use sts_trace::read_outside;

/// A listing of more bytes than a text may have isn't listed again.
const MOST: usize = 1_048_576;

/// The status if a trace or an outside text has a fault.
const FAULT: u8 = 3;

/// The status if a program is refused.
const REFUSED: u8 = 4;

/// The text and the question that the next answer belongs to, and how many answers were compared.
#[derive(Drop)]
pub struct Table<'t> {
    rt: &'t HostRuntime,
    name: &'t str,
    /// A line for each word: the word, and the lines that it stands for.
    words: String,
    text: Vec<u8>,
    /// The trace or the outside text that is asked for.
    trace: Vec<u8>,
    asked: &'t str,
    /// The status that is expected.
    status: u8,
    /// Whether the answer has more than its status.
    is_whole: bool,
    /// What is expected to be printed.
    expected: Vec<u8>,
    /// The status that was answered.
    said: u8,
    /// What was printed.
    printed: Vec<u8>,
    line: u32,
    compared: u32,
    wrong: u32,
}

/// Asks the program in a mode, or with no words, and returns the status.
fn said(
    alloc: Global,
    mode: Option<Mode>,
    text: &[u8],
    trace: &[u8],
    printed: &mut Vec<u8>,
) -> Result<u8, Failure> {
    printed.clear();
    let written = match mode {
        Some(mode) => play(alloc, mode, text, trace, printed),
        None => play_joined(alloc, text, printed),
    };
    match written {
        Ok(status) => Ok(status),
        Err(_) => Err(Failure::Unfit("an answer is not written")),
    }
}

/// Says how an outside text is read: the fault if there is one. Returns the status.
fn push_read(alloc: Global, text: &[u8], printed: &mut Vec<u8>) -> Result<u8, Failure> {
    let Err(error) = read_outside(alloc, text) else {
        return Ok(0);
    };
    let mut line = String::new(alloc);
    trace_fault_line(&mut line, error)?;
    printed.extend_from_slice(line.as_bytes())?;
    Ok(FAULT)
}

/// Returns the lines that a word stands for, or the line itself.
fn meaning<'s>(words: &'s str, line: &'s str) -> &'s str {
    for definition in words.lines() {
        if let Some((word, lines)) = definition.split_once(" ")
            && word == line
        {
            return lines;
        }
    }
    line
}

/// Pushes what a line stands for that is repeated.
fn push_repeated(text: &mut Vec<u8>, count: u32, repeated: &str) -> Result<(), Failure> {
    for _ in 0..count {
        push_lines(text, repeated, ", ")?;
    }
    Ok(())
}

/// Pushes what one line stands for.
fn push_meant(words: &str, text: &mut Vec<u8>, line: &str) -> Result<(), Failure> {
    match line.split_once(" * ") {
        Some((count, repeated)) => push_repeated(text, number(count)?, repeated),
        None => push_lines(text, meaning(words, line), " / "),
    }
}

/// Pushes the bytes that lines stand for.
fn push_short(words: &str, text: &mut Vec<u8>, short: &str) -> Result<(), Failure> {
    for line in short.split(" / ") {
        push_meant(words, text, line)?;
    }
    Ok(())
}

/// Pushes the trace that is asked for.
fn push_trace(words: &str, trace: &mut Vec<u8>, asked: &str) -> Result<(), Failure> {
    match asked.strip_prefix("trace ") {
        Some(lines) => push_short(words, trace, lines),
        None => push_events(trace, asked),
    }
}

/// The text of bytes, to be shown.
fn shown(bytes: &[u8]) -> &str {
    str::from_utf8(bytes).unwrap_or("bytes that are no text")
}

impl<'t> Table<'t> {
    /// Returns a table before its first line is read.
    pub fn new(rt: &'t HostRuntime, name: &'t str) -> Table<'t> {
        let alloc = rt.alloc();
        Table {
            rt,
            name,
            words: String::new(alloc),
            text: Vec::new(alloc),
            trace: Vec::new(alloc),
            asked: "",
            status: 0,
            is_whole: false,
            expected: Vec::new(alloc),
            said: 0,
            printed: Vec::new(alloc),
            line: 0,
            compared: 0,
            wrong: 0,
        }
    }

    /// Is the last answer the expected one?
    fn is_right(&self) -> bool {
        self.said == self.status
            && (!self.is_whole || self.printed.as_slice() == self.expected.as_slice())
    }

    /// Asks one thing of the text, and compares the answer.
    fn ask(&mut self, mode: Option<Mode>) -> Result<bool, Failure> {
        let (text, trace) = (self.text.as_slice(), self.trace.as_slice());
        self.said = said(self.rt.alloc(), mode, text, trace, &mut self.printed)?;
        Ok(self.is_right())
    }

    /// Lists the expected listing, which is listed as itself.
    fn list_again(&mut self) -> Result<bool, Failure> {
        let (list, listing) = (Some(Mode::List), self.expected.as_slice());
        self.said = said(self.rt.alloc(), list, listing, b"", &mut self.printed)?;
        Ok(self.is_right())
    }

    /// A listing, which is listed again as itself.
    fn list(&mut self) -> Result<bool, Failure> {
        let is_right = self.ask(Some(Mode::List))?;
        if is_right && self.is_whole && self.said == 0 && self.expected.len() <= MOST {
            self.list_again()
        } else {
            Ok(is_right)
        }
    }

    /// A trace by `replay`, which answers what `plain` does, or the verdict if the program is refused.
    fn replay(&mut self) -> Result<bool, Failure> {
        let (verify, text) = (Some(Mode::Verify), self.text.as_slice());
        let status = said(self.rt.alloc(), verify, text, b"", &mut self.printed)?;
        if status == REFUSED && self.status != FAULT {
            self.status = status;
            self.is_whole = true;
            mem::swap(&mut self.expected, &mut self.printed);
        }
        self.ask(Some(Mode::Replay))
    }

    /// A trace by `plain`, and then by `replay`.
    fn run(&mut self) -> Result<bool, Failure> {
        if self.ask(Some(Mode::Plain))? {
            self.replay()
        } else {
            Ok(false)
        }
    }

    /// An outside text, which is read alone.
    fn outside(&mut self) -> Result<bool, Failure> {
        self.printed.clear();
        self.said = push_read(self.rt.alloc(), self.trace.as_slice(), &mut self.printed)?;
        Ok(self.is_right())
    }

    /// The trace or the outside text that is asked for.
    fn run_asked(&mut self) -> Result<bool, Failure> {
        if let Some(lines) = self.asked.strip_prefix("outside ") {
            push_short(self.words.as_str(), &mut self.trace, lines)?;
            return self.outside();
        }
        push_trace(self.words.as_str(), &mut self.trace, self.asked)?;
        self.run()
    }

    /// Asks the question, and compares the answer.
    fn question(&mut self) -> Result<bool, Failure> {
        self.trace.clear();
        match self.asked {
            "verify" => self.ask(Some(Mode::Verify)),
            "joined" => self.ask(None),
            "list" => self.list(),
            _ => self.run_asked(),
        }
    }

    /// Expects the answer that a line has: the status alone, or with a blank and what is printed.
    fn expect(&mut self, answer: &str) -> Result<(), Failure> {
        self.expected.clear();
        self.is_whole = false;
        let mut status = answer;
        if let Some((first, short)) = answer.split_once(" ") {
            status = first;
            self.is_whole = true;
            push_short(self.words.as_str(), &mut self.expected, short)?;
        }
        match status.parse::<u8>() {
            Ok(status) => {
                self.status = status;
                Ok(())
            }
            Err(_) => Err(Failure::Unfit("a status is missing")),
        }
    }

    /// Says what differs.
    fn tell_wrong(&self) -> Result<(), Failure> {
        let said = (self.said, shown(self.printed.as_slice()));
        let expected = (self.status, shown(self.expected.as_slice()));
        println!(self.rt;
            "{}: line {}: {said:?}, expected {expected:?}",
            self.name, self.line
        )?;
        Ok(())
    }

    /// Asks the question whose answer a line has, and says what differs.
    fn answer(&mut self, answer: &str) -> Result<(), Failure> {
        self.compared = self.compared.saturating_add(1);
        self.expect(answer)?;
        if self.question()? {
            return Ok(());
        }
        self.wrong = self.wrong.saturating_add(1);
        self.tell_wrong()
    }

    /// Reads a line, and says what differs if it is an answer that does.
    fn take_line(&mut self, line: &'t str) -> Result<(), Failure> {
        self.line = self.line.saturating_add(1);
        if line.is_empty() {
            self.text.clear();
        } else if let Some(definition) = line.strip_prefix("! ") {
            writeln!(self.words, "{definition}")?;
        } else if let Some(asked) = line.strip_prefix("? ") {
            self.asked = asked;
        } else if let Some(answer) = line.strip_prefix("= ") {
            return self.answer(answer);
        } else if !line.starts_with("# ") {
            return push_short(self.words.as_str(), &mut self.text, line);
        }
        Ok(())
    }

    /// Reads the lines of a table. Says how many answers it compared, how many of them are wrong, and
    /// which.
    ///
    /// # Errors
    ///
    /// There was no memory, a line has no meaning, or a write failed.
    pub fn take_lines(&mut self, text: &'t str) -> Result<(), Failure> {
        for line in text.lines() {
            self.take_line(line)?;
        }
        println!(self.rt;
            "{}: {} answers, {} wrong",
            self.name, self.compared, self.wrong
        )?;
        Ok(())
    }
}
