//! Objects of JSON, built member by member.
//!
//! What adds a member takes and gives a `Result`. So a function that builds an object has one way
//! out, and a proof of it is short.

ghost use Rattle.std.specs.Prelude.{◌≡◌, ℕ, IfOk, List, Ok};
ghost use Rattle.serde_json.specs.Data.{Data, Items, Members, array, no_members, object, put, string};
ghost use Rattle.serde_json.specs.View.{members_view, view};
ghost use Rattle.look_cases.specs.Objects as def;

use serde_json::{Map, Value};
use std::alloc::{AllocError, Global};

/// A value, if memory was enough for it.
pub type Made = Result<Value, AllocError>;

/// A value that owns no memory.
#[derive(Clone, Copy)]
pub enum Scalar<'a> {
    Text(&'a str),
    Count(u64),
    /// Null if there is none.
    MaybeCount(Option<u64>),
    Integer(i64),
    Flag(bool),
}

/// Returns the same number, if there is one, in a wider type.
pub fn widened(number: Option<u32>) -> Option<u64>
    ensures { result ≡ number }
{
    match number {
        Some(number) => Some(number as u64),
        None => None,
    }
}

fn count_or_null(number: Option<u64>) -> Value
    ensures { view result ≡ def.data_of (Scalar.MaybeCount number) }
{
    match number {
        Some(number) => Value::from(number),
        None => Value::Null,
    }
}

/// Returns the value of a scalar.
///
/// # Errors
///
/// Memory was refused.
pub fn value_of(alloc: Global, scalar: Scalar<'_>) -> Made
    ensures { IfOk result (λ v. view v ≡ def.data_of scalar.entry) }
{
    match scalar {
        Scalar::Text(text) => Value::try_from_str(alloc, text),
        Scalar::Count(number) => Ok(Value::from(number)),
        Scalar::MaybeCount(number) => Ok(count_or_null(number)),
        Scalar::Integer(number) => Ok(Value::from(number)),
        Scalar::Flag(holds) => Ok(Value::from(holds)),
    }
}

fn put_scalar(
    alloc: Global,
    members: &mut Map<String, Value>,
    key: &str,
    scalar: Scalar<'_>,
) -> Result<(), AllocError>
    ensures { IfOk result (λ _. members_view members.new.entries
        ≡ put key.now (def.data_of scalar.entry) (members_view members.old.entries)) }
{
    let value = value_of(alloc, scalar)?;
    serde_json::put(members, alloc, key, value)
}

/// Returns the object with these members.
///
/// # Errors
///
/// Memory was refused.
pub fn object_of(alloc: Global, members: &[(&str, Scalar<'_>)]) -> Made
    ensures { IfOk result (λ v. view v ≡ object (def.all_put members.now no_members)) }
{
    let mut object = Map::new(alloc);
    for member in members {
        put_scalar(alloc, &mut object, member.0, member.1)?;
    }
    Ok(Value::Object(object))
}

/// Two values, if both were made.
fn both<A: Drop, B: Drop>(
    first: Result<A, AllocError>,
    second: Result<B, AllocError>,
) -> Result<(A, B), AllocError>
    ensures { IfOk result (λ p. (first ≡ Ok p.0) × (second ≡ Ok p.1)) }
{
    Ok((first?, second?))
}

fn put_value(alloc: Global, members: Map<String, Value>, key: &str, member: Value) -> Made
    ensures { IfOk result (λ v. view v
        ≡ object (put key.now (view member) (members_view members.entries))) }
{
    let mut members = members;
    serde_json::put(&mut members, alloc, key, member)?;
    Ok(Value::Object(members))
}

fn with_value(alloc: Global, value: Value, key: &str, member: Value) -> Made
    ensures { (ms : Members) → view value ≡ object ms
        → IfOk result (λ v. view v ≡ object (put key.now (view member) ms)) }
{
    match value {
        Value::Object(members) => put_value(alloc, members, key, member),
        other => Ok(other),
    }
}

/// Adds a member to an object, if both were made.
///
/// # Errors
///
/// Memory was refused, here or for one of the two.
pub fn with_member(alloc: Global, value: Made, key: &str, member: Made) -> Made
    ensures { (ms : Members) → (d : Data) → def.Makes (object ms) value → def.Makes d member
        → def.Makes (object (put key.now d ms)) result }
{
    match both(value, member) {
        Ok((value, member)) => with_value(alloc, value, key, member),
        Err(error) => Err(error),
    }
}

fn listed(list: Result<Vec<Value>, AllocError>) -> Made
    ensures { (ds : Items) → def.MakesList ds list → def.Makes (array ds) result }
{
    Ok(Value::Array(list?))
}

/// Adds a list to an object as a member, if both were made.
///
/// # Errors
///
/// Memory was refused, here or for one of the two.
pub fn with_list(
    alloc: Global,
    value: Made,
    key: &str,
    list: Result<Vec<Value>, AllocError>,
) -> Made
    ensures { (ms : Members) → (ds : Items) → def.Makes (object ms) value → def.MakesList ds list
        → def.Makes (object (put key.now (array ds) ms)) result }
{
    with_member(alloc, value, key, listed(list))
}

fn worded(text: Result<String, AllocError>) -> Made
    ensures { (t : List ℕ) → def.MakesText t text → def.Makes (string t) result }
{
    Ok(Value::String(text?))
}

/// Adds a text to an object as a member, if both were made.
///
/// # Errors
///
/// Memory was refused, here or for one of the two.
pub fn with_text(alloc: Global, value: Made, key: &str, text: Result<String, AllocError>) -> Made
    ensures { (ms : Members) → (t : List ℕ) → def.Makes (object ms) value → def.MakesText t text
        → def.Makes (object (put key.now (string t) ms)) result }
{
    with_member(alloc, value, key, worded(text))
}
