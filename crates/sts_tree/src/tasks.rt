//! The records of tasks as a store of links.

ghost use Rattle.std.specs.Prelude.{◌-◌, ◌<◌};

use crate::record::{TaskNode, TaskRecord};
use sts_links::{Link, Links};
use sts_records::Held;

/// The tasks that count, with their links.
#[derive(Drop)]
pub(crate) struct Tasks {
    pub(crate) held: Held<TaskRecord>,
}

impl Links for Tasks {
    ghost use Rattle.sts_tree.specs.Stored as stored;

    ghost at = { λ s l k. stored.link_at s.held.slots l k };

    ghost alike = { λ a b. stored.SameTasks a.held b.held };

    fn link(&self, layer: u8, key: usize) -> Link {
        self.held.record(key).links[layer as usize]
    }

    fn set_link(&mut self, layer: u8, key: usize, link: Link) {
        self.held.at(key).links[layer as usize] = link;
    }

    ghost same = { λ a. stored.same a.held };

    ghost chained = { λ a b c h l. stored.chained a.held b.held c.held h l };
}
