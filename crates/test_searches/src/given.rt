// Shares what the tests of searches need: the bytes of small trees, and their live slots.
use small_trees::{six_entries, two_leaves};
use std::process::Abort;
use tree_shape::Live;

// Ends a test in which `is_so` is false.
pub(crate) fn holds(rt: &impl Abort, is_so: bool) {
    assert!(rt; is_so);
}

// Gives the bytes of the numbers 0 to 32 in two leaves. The root names the second leaf as the page `second`.
pub(crate) fn leaves(rt: &(impl AllocGlobal + Abort), second: u32) -> Vec<u8> {
    two_leaves(rt.alloc(), Vec::new(rt.alloc()), second).expect(rt, "memory")
}

// Gives the same bytes in which the byte at `at` is `byte`.
pub(crate) fn torn_leaves(rt: &(impl AllocGlobal + Abort), at: usize, byte: u8) -> Vec<u8> {
    let mut bytes = leaves(rt, 4);
    if at < bytes.len() {
        bytes[at] = byte;
    }
    bytes
}

// Gives the bytes of a tree whose root names the page `child` six times.
pub(crate) fn six(rt: &(impl AllocGlobal + Abort), child: u32) -> Vec<u8> {
    six_entries(rt.alloc(), Vec::new(rt.alloc()), child).expect(rt, "memory")
}

// Describes the live tree of height 1 with this root below `pages` pages.
pub(crate) fn live(root: u32, pages: u32) -> Live {
    Live {
        side: 0,
        generation: 1,
        root,
        height: 1,
        count: 33,
        pages,
    }
}
