//! Memory for large trees, and a discarded record that is used again.

use sts_records::Held;
use sts_tree::Tree;

/// For how many tasks and scopes a tree has room.
static ROOMS: [(u32, u32); 4] = [(65_536, 1), (1, 65_536), (1, 65_537), (1, 200_000)];

/// No contract refuses a tree that finds no memory. No later call of a tree takes any.
#[test]
fn there_is_memory_for_large_trees(rt: HostRuntime) {
    for (tasks, scopes) in ROOMS {
        assert!(rt; 0 < tasks && tasks <= 65_536);
        let tree: Tree<u8> = Tree::with_room(rt.alloc(), tasks, scopes).expect(&rt, "a tree");
        drop(tree);
    }
}

/// No contract refuses records that are never used again.
#[test]
fn a_discarded_record_is_used_again(rt: HostRuntime) {
    let mut held = Held::with_room(rt.alloc(), 2).expect(&rt, "records");
    assert!(rt; !held.reuse());
    let birth = held.push(10u32);
    held.push(20);
    held.discard(birth);
    assert!(rt; held.reuse());
}
