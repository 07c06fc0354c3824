ghost use Rattle.std.specs.Prelude.{◌^◌, ◌≤◌};

use crate::given::holds;
use metric_laws::{Meter, Point};
use node_page::NodeFault;
use page_store::{ImagePages, PageFault};
use std::process::Abort;
use tree_audit::{AuditFault, Audited, Part, audit, audit_part, join_parts, laws};
use tree_shape::{InnerEntry, Live};
use vector_kinds::L1;

// Describes the live tree of a small index.
const LIVE: Live = Live {
    side: 1,
    generation: 2,
    root: 4,
    height: 0,
    count: 1,
    pages: 5,
};

// Sets the byte at `at` of a file.
fn put(bytes: &mut [u8], at: usize, byte: u8) {
    if at < bytes.len() {
        bytes[at] = byte;
    }
}

// Gives the bytes of five pages that are all zeros.
fn zeros(rt: &(impl AllocGlobal + Abort)) -> Vec<u8> {
    vec![in rt.alloc(); 0u8; 20480].expect(rt, "memory")
}

// Gives a file of five pages whose last holds one object at (3, 4), and in which the byte at `at` of that page is `byte`.
fn file_with(rt: &(impl AllocGlobal + Abort), at: usize, byte: u8) -> Vec<u8>
    requires { at ≤ 4095 }
{
    let mut bytes = zeros(rt);
    put(&mut bytes, 16387, 1);
    put(&mut bytes, 16423, 3);
    put(&mut bytes, 16427, 4);
    put(&mut bytes, 16384 + at, byte);
    bytes
}

// Audits a file of these bytes.
fn audit_of(
    rt: &(impl AllocGlobal + Abort),
    bytes: &[u8],
    live: &Live,
) -> Result<Audited, AuditFault>
    requires { live.now.pages ≤ 2 ^ 24 }
{
    let mut pages = ImagePages::new(bytes, 2, live.pages);
    let mut ruler = Meter::new(L1::new(2));
    audit(rt.alloc(), &mut pages, &mut ruler, 2, live)
}

// Checks the audit of the small index in which the byte at `at` of its page is `byte`.
fn check_changed(rt: &(impl AllocGlobal + Abort), at: usize, byte: u8, fault: AuditFault)
    requires { at ≤ 4095 }
{
    let bytes = file_with(rt, at, byte);
    holds(rt, audit_of(rt, &bytes, &LIVE) == Err(fault));
}

// Describes what the audit of the small index gives.
const ONE: Audited = Audited {
    objects: 1,
    nodes: 1,
};

#[test]
fn a_sound_index(rt: HostRuntime) {
    laws::audit_faults_are_unsoundness();
    let bytes = file_with(&rt, 3, 1);
    holds(&rt, audit_of(&rt, &bytes, &LIVE) == Ok(ONE));
}

// Says that the small index's page holds no node.
fn bad(fault: NodeFault) -> AuditFault {
    AuditFault::Page(PageFault::Bad(4, fault))
}

#[test]
fn faults_of_a_page(rt: HostRuntime) {
    check_changed(&rt, 0, 15, bad(NodeFault::Kind));
    check_changed(&rt, 3, 33, bad(NodeFault::Count));
    check_changed(&rt, 28, 1, bad(NodeFault::Distance));
    check_changed(&rt, 4095, 1, bad(NodeFault::Tail));
    check_changed(&rt, 35, 1, AuditFault::ParentDistance(4, 0));
    check_changed(&rt, 19, 5, AuditFault::Id(5));
}

#[test]
fn faults_of_the_slot(rt: HostRuntime) {
    let bytes = file_with(&rt, 3, 1);
    let high = Live { height: 1, ..LIVE };
    holds(
        &rt,
        audit_of(&rt, &bytes, &high) == Err(AuditFault::Fill(4)),
    );
    let two = Live { count: 2, ..LIVE };
    let count = AuditFault::Count { slot: 2, found: 1 };
    holds(&rt, audit_of(&rt, &bytes, &two) == Err(count));
}

// Gives a file of `pages` pages, 4 or 5. Page 3 is an inner node of level 1 with six entries to the last page, all at
// (0, 0). Page 4 is a leaf of six objects there. With 4 pages the last page is the inner node's own.
fn file_of_six(rt: &(impl AllocGlobal + Abort), pages: u32) -> Vec<u8>
    requires { pages ≤ 5 }
{
    let mut bytes = zeros(rt);
    put(&mut bytes, 12288, 1);
    put(&mut bytes, 12291, 6);
    put(&mut bytes, 16387, 6);
    for place in 0..6u8 {
        let at = usize::from(place) * 28;
        put(&mut bytes, 12307 + at, pages.saturating_sub(1) as u8);
        put(&mut bytes, 16403 + at, place);
    }
    bytes
}

// Checks that the audit of such a file finds that its last page is reached twice.
fn check_twice(rt: &(impl AllocGlobal + Abort), pages: u32)
    requires { pages ≤ 5 }
{
    let bytes = file_of_six(rt, pages);
    let live = Live {
        root: 3,
        height: 1,
        count: 36,
        pages,
        ..LIVE
    };
    let last = pages.saturating_sub(1);
    holds(
        rt,
        audit_of(rt, &bytes, &live) == Err(AuditFault::Twice(last)),
    );
}

#[test]
fn a_page_that_is_reached_twice(rt: HostRuntime) {
    check_twice(&rt, 4);
    check_twice(&rt, 5);
}

// Describes the live tree of the file of six with 5 pages, where the root has one entry.
const SIX: Live = Live {
    side: 1,
    generation: 2,
    root: 3,
    height: 1,
    count: 6,
    pages: 5,
};

// Makes an entry of the root of the file of six, whose child is the page `child`.
fn entry_to(rt: &(impl AllocGlobal + Abort), child: u32) -> InnerEntry {
    InnerEntry {
        child,
        radius: 0,
        parent: 0,
        point: Point::new(rt.alloc(), &[0, 0]).expect(rt, "memory"),
    }
}

// Audits the part of the file of six below such an entry.
fn part_of(rt: &(impl AllocGlobal + Abort), bytes: &[u8], child: u32) -> Result<Part, AuditFault> {
    let entry = entry_to(rt, child);
    let mut pages = ImagePages::new(bytes, 2, 5);
    let mut ruler = Meter::new(L1::new(2));
    audit_part(
        rt.alloc(),
        &mut pages,
        &mut ruler,
        2,
        &SIX,
        0,
        entry.as_ref(),
    )
}

// Gives `count` times the part of the file of six below the root's child.
fn parts(rt: &(impl AllocGlobal + Abort), bytes: &[u8], count: usize) -> Vec<Part> {
    let mut parts = Vec::new(rt.alloc());
    for _ in 0..count {
        let part = part_of(rt, bytes, 4).expect(rt, "a part");
        parts.push(part).expect(rt, "memory");
    }
    parts
}

// Joins `count` such parts.
fn joined(rt: &(impl AllocGlobal + Abort), bytes: &[u8], count: usize) -> Option<Audited> {
    let parts = parts(rt, bytes, count);
    join_parts(rt.alloc(), &SIX, &parts).expect(rt, "memory")
}

// Describes what the audit of the whole file of six gives.
const WHOLE: Audited = Audited {
    objects: 6,
    nodes: 2,
};

// Checks the pages and the ids of a part of the file of six.
fn check_part(rt: &(impl AllocGlobal + Abort), bytes: &[u8]) {
    let part = part_of(rt, bytes, 4).expect(rt, "a part");
    holds(rt, part.pages.as_slice() == [4].as_slice());
    holds(rt, part.ids.as_slice() == [0, 1, 2, 3, 4, 5].as_slice());
}

#[test]
fn parts_of_a_tree(rt: HostRuntime) {
    laws::parts_make_the_whole();
    let bytes = file_of_six(&rt, 5);
    check_part(&rt, &bytes);
    let root = part_of(&rt, &bytes, 3).err();
    holds(&rt, root == Some(AuditFault::Fill(3)));
    holds(&rt, joined(&rt, &bytes, 1) == Some(WHOLE));
    holds(&rt, joined(&rt, &bytes, 2) == None);
}
