use crate::caches::holds;
use node_page::{
    Head, HeadFault, NodeFault, Slot, Unread, Version, decode_head, decode_node, decode_slot,
    encode_head, encode_node, encode_slot,
};
use std::process::Abort;
use tree_shape::{LeafEntries, LeafRef, Node, TryClone};

// Is the head of a small index of points of two coordinates under L1.
const HEAD: Head = Head {
    version: 2,
    kind: 2,
    dim: 2,
    promote: 2,
    split: 1,
    limit: 16_777_216,
};

const HEAD_BYTES: [u8; 20] = [
    0x4d, 0x54, 0x52, 0x45, 0x45, 0x49, 0x44, 0x58, 0, 2, 2, 2, 2, 1, 0, 0, 1, 0, 0, 0,
];

// Gives the page of that head.
fn head_page() -> [u8; 4096] {
    let mut page = [0xffu8; 4096];
    encode_head(&HEAD, &mut page);
    page
}

// Gives the page of a slot.
fn slot_page(slot: &Slot) -> [u8; 4096] {
    let mut page = [0xffu8; 4096];
    encode_slot(slot, &mut page);
    page
}

// Gives the first `count` bytes of a page.
fn front(page: &[u8; 4096], count: usize) -> &[u8] {
    &page[..count.min(4096)]
}

// Says whether the bytes from `from` on are 0.
fn is_zero_from(page: &[u8; 4096], from: usize) -> bool {
    let mut is_so = true;
    for byte in &page[from.min(4096)..] {
        is_so = is_so && *byte == 0;
    }
    is_so
}

// Sets the byte at `at` of a page.
fn put(page: &mut [u8; 4096], at: usize, byte: u8) {
    if at < 4096 {
        page[at] = byte;
    }
}

#[test]
fn the_head_of_a_small_index(rt: HostRuntime) {
    let mut page = head_page();
    holds(&rt, front(&page, 20) == HEAD_BYTES.as_slice());
    holds(&rt, is_zero_from(&page, 20));
    holds(&rt, decode_head(&page) == Ok(HEAD));
    put(&mut page, 9, 1);
    holds(&rt, decode_head(&page) == Ok(Head { version: 1, ..HEAD }));
}

// Sets the byte at `at` of the page of a head, and checks the first fault then.
fn check_head(rt: &impl Abort, page: &mut [u8; 4096], at: usize, byte: u8, fault: HeadFault) {
    put(page, at, byte);
    holds(rt, decode_head(page) == Err(fault));
}

// Makes heads with faults of a sound one, by bytes that are changed from the last fault to the first.
#[test]
fn a_head_is_refused_for_its_first_fault(rt: HostRuntime) {
    let mut page = head_page();
    check_head(&rt, &mut page, 4095, 1, HeadFault::Tail);
    check_head(&rt, &mut page, 14, 1, HeadFault::Tail);
    check_head(&rt, &mut page, 19, 1, HeadFault::Limit);
    check_head(&rt, &mut page, 13, 3, HeadFault::Policy);
    check_head(&rt, &mut page, 10, 9, HeadFault::Space);
    check_head(&rt, &mut page, 9, 3, HeadFault::Version);
    check_head(&rt, &mut page, 0, b'm', HeadFault::Magic);
}

// Is a slot of the small index after one commit.
const SLOT: Slot = Slot {
    gate: true,
    generation: 2,
    root: 4,
    height: 0,
    count: 1,
    pages: 5,
};

const SLOT_BYTES: [u8; 32] = [
    0xa5, 0, 0, 0, 0, 0, 0, 0, 0, 0, 0, 0, 0, 0, 0, 2, 0, 0, 0, 4, 0, 0, 0, 0, 0, 0, 0, 1, 0, 0, 0,
    5,
];

#[test]
fn the_slots_of_a_small_index(rt: HostRuntime) {
    let mut page = slot_page(&SLOT);
    holds(&rt, front(&page, 32) == SLOT_BYTES.as_slice());
    holds(&rt, decode_slot(&page) == Some(SLOT));
    // Closes the gate by another byte.
    put(&mut page, 0, 0xa4);
    let closed = Slot {
        gate: false,
        ..SLOT
    };
    holds(&rt, decode_slot(&page) == Some(closed));
    put(&mut page, 4095, 1);
    holds(&rt, decode_slot(&page) == None);
}

// Gives the page of a leaf of one object at (3, 4), whose second coordinate ends at `last`.
fn leaf_page(last: usize) -> [u8; 4096] {
    let mut page = [0u8; 4096];
    put(&mut page, 3, 1);
    put(&mut page, last.saturating_sub(4), 3);
    put(&mut page, last, 4);
    page
}

// Says whether an object has id 0 and tag 0, and is at (3, 4).
fn is_object(entry: LeafRef) -> bool {
    (entry.id, entry.tag) == (0, 0) && entry.point == [3u32, 4].as_slice()
}

// Says whether a node is a leaf of one object with id 0 and tag 0 at (3, 4).
fn is_leaf(node: &Node) -> bool {
    match node {
        Node::Leaf(entries) => entries.len() == 1 && is_object(entries.at(0)),
        Node::Inner { .. } => false,
    }
}

// Checks the node of a page.
fn check_leaf(rt: &(impl AllocGlobal + Abort), page: &[u8; 4096]) {
    let node = decode_node(rt.alloc(), page, 2, Version::Second, None).expect(rt, "a leaf");
    holds(rt, is_leaf(&node));
}

// Sets the byte at `at` of the page of a leaf, and checks the first fault then.
fn check_fault(
    rt: &(impl AllocGlobal + Abort),
    page: &mut [u8; 4096],
    at: usize,
    byte: u8,
    fault: NodeFault,
) {
    put(page, at, byte);
    holds(
        rt,
        decode_node(rt.alloc(), page, 2, Version::Second, None).err()
            == Some(Unread::NoNode(fault)),
    );
}

// Reads the root of the small index, and pages with faults, made by bytes that are changed from the last fault to the first.
#[test]
fn a_leaf_is_read_or_refused_for_its_first_fault(rt: HostRuntime) {
    let mut page = leaf_page(43);
    check_leaf(&rt, &page);
    check_fault(&rt, &mut page, 44, 1, NodeFault::Tail);
    check_fault(&rt, &mut page, 30, 0x41, NodeFault::Distance);
    check_fault(&rt, &mut page, 3, 33, NodeFault::Count);
    check_fault(&rt, &mut page, 0, 15, NodeFault::Kind);
}

// Reads the node of a page, and writes it to another page.
fn written_again(rt: &(impl AllocGlobal + Abort), page: &[u8; 4096]) -> [u8; 4096] {
    let node = decode_node(rt.alloc(), page, 2, Version::Second, None).expect(rt, "a leaf");
    let mut written = [0xffu8; 4096];
    encode_node(&node, 2, &mut written);
    written
}

#[test]
fn a_leaf_that_was_read_is_written_again(rt: HostRuntime) {
    let page = leaf_page(43);
    holds(&rt, written_again(&rt, &page) == page);
}

// Checks the node of a page of the first version of the format.
fn check_old_leaf(rt: &(impl AllocGlobal + Abort), page: &[u8; 4096]) {
    let node = decode_node(rt.alloc(), page, 2, Version::First, None).expect(rt, "a leaf");
    holds(rt, is_leaf(&node));
}

// Reads the root of the small index as the first version of the format has it: with no tag, which is the id.
#[test]
fn a_leaf_of_the_first_version(rt: HostRuntime) {
    let mut page = leaf_page(35);
    check_old_leaf(&rt, &page);
    put(&mut page, 36, 1);
    let fault = decode_node(rt.alloc(), &page, 2, Version::First, None).err();
    holds(&rt, fault == Some(Unread::NoNode(NodeFault::Tail)));
}

// Is an object of three coordinates: its id, its tag, its parent distance and its point.
type Object = (u32, u64, u64, [u32; 3]);

const FIRST: Object = (
    0x0102_0304,
    0x0506_0708_090a_0b0c,
    0x3f_1112_1314,
    [0x1516_1718, 0xffff_ffff, 0],
);

const SECOND: Object = (7, u64::MAX, 1 << 38, [1, 0, 0x8000_0000]);

const OBJECTS: [u8; 64] = [
    1, 2, 3, 4, 5, 6, 7, 8, 9, 10, 11, 12, 0, 0, 0, 0x3f, 0x11, 0x12, 0x13, 0x14, 0x15, 0x16, 0x17,
    0x18, 0xff, 0xff, 0xff, 0xff, 0, 0, 0, 0, 0, 0, 0, 7, 0xff, 0xff, 0xff, 0xff, 0xff, 0xff, 0xff,
    0xff, 0, 0, 0, 0x40, 0, 0, 0, 0, 0, 0, 0, 1, 0, 0, 0, 0, 0x80, 0, 0, 0,
];

// Gives the page of a leaf of these two objects.
fn page_of_two() -> [u8; 4096] {
    let mut page = [0u8; 4096];
    put(&mut page, 3, 2);
    for index in 0..OBJECTS.len() {
        put(&mut page, index.saturating_add(16), OBJECTS[index]);
    }
    page
}

// Says whether this object is seen.
fn is_seen(entry: LeafRef, object: &Object) -> bool {
    (entry.id, entry.tag, entry.parent) == (object.0, object.1, object.2)
        && entry.point == object.3.as_slice()
}

// Says whether a node is a leaf of these two objects.
fn are_two(node: &Node) -> bool {
    match node {
        Node::Leaf(entries) => {
            entries.len() == 2 && is_seen(entries.at(0), &FIRST) && is_seen(entries.at(1), &SECOND)
        }
        Node::Inner { .. } => false,
    }
}

// Takes the objects of a leaf out, and makes a leaf of them again.
fn made_again(rt: &(impl AllocGlobal + Abort), node: Node) -> Node {
    match node {
        Node::Leaf(entries) => {
            let objects = entries.into_vec(rt.alloc()).expect(rt, "memory");
            Node::Leaf(LeafEntries::new(objects))
        }
        inner => inner,
    }
}

// Sees the same objects in the list of numbers, in its copy, and each by itself.
#[test]
fn the_objects_of_a_leaf_are_seen_taken_out_and_copied(rt: HostRuntime) {
    let node = decode_node(rt.alloc(), &page_of_two(), 3, Version::Second, None).expect(
        &rt, "a leaf",
    );
    holds(&rt, are_two(&node));
    let copy = node.try_clone(rt.alloc()).expect(&rt, "memory");
    holds(&rt, are_two(&copy));
    let apart = made_again(&rt, copy);
    holds(&rt, are_two(&apart));
    let again = apart.try_clone(rt.alloc()).expect(&rt, "memory");
    holds(&rt, are_two(&again));
}

// Reads the same objects into the memory of lists that are shorter and longer, whatever they hold, and gives that memory back.
#[test]
fn a_leaf_is_read_into_the_memory_of_any_list(rt: HostRuntime) {
    for len in [0, 3, 16, 17, 1020, 2000] {
        let mut spare = Vec::new(rt.alloc());
        spare.resize(len, 7u32).expect(&rt, "memory");
        let node = decode_node(rt.alloc(), &page_of_two(), 3, Version::Second, Some(spare)).expect(
            &rt, "a leaf",
        );
        holds(&rt, are_two(&node));
        let numbers = node.into_numbers().expect(&rt, "one list of numbers");
        holds(&rt, numbers.len() == 16 && numbers.capacity() >= len);
    }
}
