//! Names as members of objects.

ghost use Rattle.std.specs.Prelude.{◌≡◌, IfOk, option_and_then, option_map};
ghost use Rattle.serde_json.specs.Data.{object, put, string};
ghost use Rattle.serde_json.specs.View.{members_view, view};
ghost use Rattle.look_names.specs.Names.{line_name as name_of_line};
ghost use Rattle.look_views.specs.Named as def;

use look_cases::Made;
use look_names::Names;
use serde_json::{Map, Value};
use std::alloc::{AllocError, Global};

/// What a call that makes a list of values returns.
pub(crate) type Listed = Result<Vec<Value>, AllocError>;

fn with_text(alloc: Global, members: Map<String, Value>, key: &str, text: &str) -> Made
    ensures { IfOk result (λ v. view v
        ≡ object (put key.now (string text.now) (members_view members.entries))) }
{
    let mut members = members;
    let text = Value::try_from_str(alloc, text)?;
    serde_json::put(&mut members, alloc, key, text)?;
    Ok(Value::Object(members))
}

/// Adds a text to an object as a member.
fn with_member(alloc: Global, value: Value, key: &str, text: &str) -> Made
    ensures { IfOk result (λ v. view v ≡ def.with_member key.now (string text.now) (view value)) }
{
    match value {
        Value::Object(members) => with_text(alloc, members, key, text),
        other => Ok(other),
    }
}

/// Adds a name to an object as a member, if there is one.
///
/// # Errors
///
/// Memory ran out.
pub fn with_name(alloc: Global, value: Value, key: &str, name: Option<&str>) -> Made
    ensures { IfOk result (λ v. view v
        ≡ def.named key.now (option_map (λ n. n.now) name.entry) (view value)) }
{
    match name {
        None => Ok(value),
        Some(name) => with_member(alloc, value, key, name),
    }
}

/// Returns the line with the instruction at a place of a function; after the last one there is none.
pub fn line_at(names: &Names<'_>, function: u32, pc: u32) -> Option<u32>
    ensures { result ≡ def.line_at names.now function pc }
{
    match names.sentence(function, pc) {
        None => None,
        Some(sentence) => Some(sentence.line()),
    }
}

fn line_name<'t>(names: &Names<'t>, line: Option<u32>) -> Option<&'t str>
    ensures { option_map (λ n. n.now) result ≡ option_and_then (name_of_line names.now) line }
{
    names.line(line?)
}

/// Adds to an object the name of a function, and that of the line of a place in it.
///
/// # Errors
///
/// Memory ran out.
pub fn placed(alloc: Global, names: &Names<'_>, function: u32, pc: u32, value: Value) -> Made
    ensures { IfOk result (λ v. view v ≡ def.placed names.now function pc (view value)) }
{
    let value = with_name(alloc, value, "function_name", names.function(function))?;
    let line = line_name(names, line_at(names, function, pc));
    with_name(alloc, value, "line_name", line)
}
