//! Lines of cases, and the lines that answer them.

ghost use Rattle.std.specs.Prelude.{◌≡◌, ◌++◌, ℕ, IfOk, OnOk, List};
ghost use Rattle.serde_json.specs.View.{view};
ghost use Rattle.sts_text.specs.Words.{lines};
ghost use Rattle.sts_output.specs.Output.{Output, Writes};
ghost use Rattle.look_cases.specs.Lines as def;

use crate::answering::answer;
use crate::objects::Made;
use crate::reading::case_of;
use serde_json::Value;
use std::alloc::{AllocError, Global};
use std::io::Write;
use sts_output::{Status, TakeError, failed, written};
use sts_text::cut_at_newline;

/// Returns the answer to a line, which may be JSON.
fn reply(alloc: Global, number: u64, line: &[u8]) -> Made
    ensures { IfOk result (λ v. def.IsReply number line.now (view v)) }
{
    match Value::from_slice(alloc, line) {
        Ok(said) => answer(alloc, number, case_of(&said)),
        Err(error) => {
            if error.is_memory() {
                return Err(AllocError);
            }
            answer(alloc, number, None)
        }
    }
}

/// Appends the answer to a line; nothing if the line is empty.
fn push_reply(alloc: Global, out: &mut Vec<u8>, number: u64, line: &[u8]) -> Result<(), AllocError>
    ensures { OnOk result ((reply : List ℕ) × def.IsReplyLine number line.now reply
        × (out.new.items ≡ out.old.items ++ reply)) }
{
    if line.is_empty() {
        return Ok(());
    }
    let reply = reply(alloc, number, line)?;
    let text = reply.to_vec(alloc)?;
    out.extend_from_slice(text.as_slice())?;
    out.push(b'\n')?;
    Ok(())
}

/// Returns the answers to all lines, in order, each a line of JSON; an empty line has no answer.
///
/// # Errors
///
/// Memory was refused.
pub fn answers(alloc: Global, input: &[u8]) -> Result<Vec<u8>, AllocError>
    ensures { IfOk result (λ out. def.AreReplies (lines input.now) out.items) }
{
    let mut out = Vec::new(alloc);
    let mut rest = input;
    let mut number: u64 = 1;
    while let Some((line, after)) = cut_at_newline(rest) {
        push_reply(alloc, &mut out, number, line)?;
        rest = after;
        number += 1;
    }
    push_reply(alloc, &mut out, number, rest)?;
    Ok(out)
}

/// Writes the answers to all lines, and returns status 0.
///
/// It takes all its memory before the first byte is written.
///
/// # Errors
///
/// A write failed.
pub fn write_answers<W: Write>(alloc: Global, input: &[u8], out: &mut W) -> Status
    ensures { IfOk result (λ s. (o : Output) × def.IsRepliesTo input.now o
        × Writes (W.contents out.old) (W.contents out.new) s o) }
{
    match answers(alloc, input) {
        Ok(lines) => written(out, lines.as_slice(), 0),
        Err(_) => failed(TakeError::Memory, out),
    }
}
