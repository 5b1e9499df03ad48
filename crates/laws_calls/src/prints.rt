//! Numbers that equal parts have in common, and most others don't.

use crate::table::Part;
use sts_model::End;
use sts_repeats::repeats::{Printed, mixed};

fn with_end(hash: u64, end: End) -> u64 {
    match end {
        End::Success(value) => mixed(hash, value.cast_unsigned()),
        End::Failed(code) => mixed(hash, !code.cast_unsigned()),
    }
}

impl Printed for Part {
    /// A part goes by the number of its ways, and by the first and the last one.
    fn print(&self, hash: u64) -> u64 {
        let ways = self.ways.as_slice();
        let flags = 2 * u64::from(self.is_open) + u64::from(self.is_early);
        let mut hash = mixed(hash, 4 * (ways.len() as u64 & 0xffff) + flags);
        if let Some(way) = ways.first() {
            hash = with_end(hash, way.end);
        }
        if let Some(way) = ways.last() {
            hash = with_end(hash, way.end);
        }
        hash
    }
}
