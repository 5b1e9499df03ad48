//! The operands, locals and bindings of a task, as JSON.

ghost use Rattle.std.specs.Prelude.{◌≡◌, ◌<◌, IfOk, length, reverse, true};
ghost use Rattle.serde_json.specs.View.{view, items_view, items_of};
ghost use Rattle.sts_model.specs.Living as living;
ghost use Rattle.sts_model.specs.World as model;
ghost use Rattle.look_views.specs.Task as def;

use crate::named::Listed;
use look_cases::{Made, Scalar, object_of, with_list};
use serde_json::Value;
use std::alloc::{AllocError, Global};
use sts_world::Records;

/// Returns these values, in order.
///
/// # Errors
///
/// Memory was refused.
pub fn integers(alloc: Global, values: &[i64]) -> Result<Vec<Value>, AllocError>
    ensures { IfOk result (λ list. items_view list.items ≡ items_of (def.integers values.now)) }
{
    let mut list = Vec::new(alloc);
    for value in values {
        list.push(Value::from(*value))?;
    }
    Ok(list)
}

/// Returns the operands, the top last.
fn operands(alloc: Global, values: &[i64]) -> Listed
    ensures { IfOk result (λ list. items_view list.items
        ≡ items_of (def.operands (reverse values.now))) }
{
    integers(alloc, values)
}

fn binding(alloc: Global, key: u8, value: i64) -> Made
    ensures { IfOk result (λ v. view v ≡ def.binding key value) }
{
    object_of(
        alloc,
        &[
            ("key", Scalar::Count(key as u64)),
            ("value", Scalar::Integer(value)),
        ],
    )
}

/// Returns the bound keys among these, with their values.
fn bindings(alloc: Global, records: &Records, t: u32, keys: &[u8]) -> Listed
    ensures { IfOk result (λ list. items_view list.items
        ≡ items_of (def.bindings records.now t keys.now)) }
{
    let mut list = Vec::new(alloc);
    for key in keys {
        if let Some(value) = records.read(t, *key) {
            list.push(binding(alloc, *key, value)?)?;
        }
    }
    Ok(list)
}

/// Returns the bindings that a task finds, by key.
fn bound(alloc: Global, records: &Records, t: u32) -> Listed
    ensures { IfOk result (λ list. items_view list.items ≡ items_of (def.bound records.now t)) }
{
    let keys = [0, 1, 2, 3, 4, 5, 6, 7, 8, 9, 10, 11, 12, 13, 14, 15];
    bindings(alloc, records, t, &keys)
}

/// Returns the operands, locals and bindings of a living task.
///
/// # Errors
///
/// Memory was refused.
pub(crate) fn frame(alloc: Global, records: &Records, t: u32) -> Made
    requires born { t < length records.now.tasks }
    requires lives { living.lives (model.task_at records.now t) ≡ true }
    ensures { IfOk result (λ v. view v ≡ def.frame records.now t) }
{
    let frame = records.frame(t);
    let shown = with_list(
        alloc,
        object_of(alloc, &[]),
        "bound",
        bound(alloc, records, t),
    );
    let shown = with_list(alloc, shown, "locals", integers(alloc, &frame.locals));
    with_list(
        alloc,
        shown,
        "operands",
        operands(alloc, frame.operands.as_slice()),
    )
}
