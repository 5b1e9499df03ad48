//! Bindings, one after another.

ghost use Rattle.std.specs.Prelude.{◌≡◌, filter_map};
ghost use Rattle.sts_model.specs.Environment as scoped;

use sts_model::{Entry, Frame};

/// The value of the task's own innermost binding of a key.
pub fn own_value(frame: &Frame, k: u8) -> Option<i64>
    ensures { result ≡ scoped.read (filter_map scoped.bound_of frame.now.entries) k }
{
    for i in 0..frame.entries.len() {
        if let Entry::Binding(key, value) = frame.entries.get_or(i, Entry::Scope(0)) {
            if key == k {
                return Some(value);
            }
        }
    }
    None
}
