use crate::caches::holds;
use disk_model::{Disk, MemoryDisk};
use node_page::{NodeFault, Version};
use page_store::{DiskPages, ImagePages, PageFault, Pages, Staged, laws};
use std::alloc::{AllocError, Global};
use std::process::Abort;
use tree_shape::{LeafEntries, Node};

// Sets the byte at `at` of a file.
fn put(bytes: &mut [u8], at: usize, byte: u8) {
    if at < bytes.len() {
        bytes[at] = byte;
    }
}

// Gives a file of five pages. The last has one object of two coordinates as version 2 has it, and the one before level 15.
fn file(rt: &(impl AllocGlobal + Abort)) -> Vec<u8> {
    let mut bytes = vec![in rt.alloc(); 0u8; 20480].expect(rt, "memory");
    put(&mut bytes, 12288, 15);
    put(&mut bytes, 16387, 1);
    put(&mut bytes, 16423, 3);
    put(&mut bytes, 16427, 4);
    bytes
}

// Makes a disk of `bytes` that all calls from `stop` on fail.
fn disk_of(alloc: Global, bytes: Vec<u8>, stop: Option<u64>) -> Result<MemoryDisk, AllocError> {
    let room = bytes.len() as u64;
    MemoryDisk::new(alloc, bytes, room, 100, Vec::new(alloc), stop)
}

// Says why a page gives no node.
fn fault_at<P: Pages>(alloc: Global, pages: &mut P, page: u32) -> Option<PageFault> {
    pages.node(alloc, page, None).err()
}

// Says whether a node is a leaf of one object at (3, 4).
fn is_leaf(node: &Node) -> bool {
    match node {
        Node::Leaf(entries) => entries.len() == 1 && entries.at(0).point == [3, 4].as_slice(),
        Node::Inner { .. } => false,
    }
}

// Says whether a page gives such a leaf.
fn gives_leaf<P: Pages>(rt: &(impl AllocGlobal + Abort), pages: &mut P, page: u32) -> bool {
    let node = pages.node(rt.alloc(), page, None).expect(rt, "a node");
    is_leaf(node.as_ref())
}

// Checks what the pages of the file give.
fn check_pages<P: Pages>(rt: &(impl AllocGlobal + Abort), pages: &mut P) {
    let bad = PageFault::Bad(3, NodeFault::Kind);
    holds(
        rt,
        fault_at(rt.alloc(), pages, 2) == Some(PageFault::Outside(2)),
    );
    holds(
        rt,
        fault_at(rt.alloc(), pages, 5) == Some(PageFault::Outside(5)),
    );
    holds(rt, fault_at(rt.alloc(), pages, 3) == Some(bad));
    holds(rt, gives_leaf(rt, pages, 4));
}

// Checks the pages of the file in memory, and counts those that are asked for.
fn asked_in_memory(rt: &(impl AllocGlobal + Abort)) -> u64 {
    let bytes = file(rt);
    let mut pages = ImagePages::new(&bytes, 2, 5);
    check_pages(rt, &mut pages);
    pages.asked
}

// Checks the pages of the file on a disk, and counts those that are asked for.
fn asked_on<D: Disk>(rt: &(impl AllocGlobal + Abort), disk: &mut D) -> u64 {
    let mut pages = DiskPages::new(disk, 2, 5);
    check_pages(rt, &mut pages);
    pages.asked
}

#[test]
fn pages_of_a_file(rt: HostRuntime) {
    holds(&rt, asked_in_memory(&rt) == 4);
    let mut disk = disk_of(rt.alloc(), file(&rt), None).expect(&rt, "memory");
    holds(&rt, asked_on(&rt, &mut disk) == 4);
}

// Says why page 4 of a disk with a file of version 1 gives no node.
fn old_fault<D: Disk>(alloc: Global, disk: &mut D) -> Option<PageFault> {
    let mut pages = DiskPages::of_version(disk, 2, 5, Version::First);
    fault_at(alloc, &mut pages, 4)
}

#[test]
fn a_read_that_fails(rt: HostRuntime) {
    let mut disk = disk_of(rt.alloc(), file(&rt), Some(0)).expect(&rt, "memory");
    holds(
        &rt,
        old_fault(rt.alloc(), &mut disk) == Some(PageFault::Disk),
    );
}

// Says whether a node is a leaf.
fn is_any_leaf(node: &Node) -> bool {
    matches!(node, Node::Leaf(_))
}

#[test]
fn nodes_are_staged(rt: HostRuntime) {
    let mut staged = Staged::new(rt.alloc());
    holds(&rt, staged.is_empty());
    let leaf = Node::Leaf(LeafEntries::new(Vec::new(rt.alloc())));
    staged.stage(7, leaf).expect(&rt, "memory");
    assert!(rt; staged.len() == 1);
    holds(&rt, staged.page_at(0) == 7);
    holds(&rt, staged.at(0).page == 7);
    holds(&rt, is_any_leaf(staged.node_at(0)));
    holds(&rt, staged.get(7).is_some());
    holds(&rt, staged.get(8).is_none());
    laws::sound_trees_are_whole();
    laws::trees_stand_on_pages();
    laws::placements_are_new();
    laws::tour_has_one_course();
    laws::trees_go_on();
    laws::new_trees_stand();
}
