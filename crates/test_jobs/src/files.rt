use disk_model::{Disk, MemoryDisk};
use job_files::{audit_index, create_index, shape_index};
use node_page::Head;
use outside_io::{MemorySink, Sink, Status};
use std::alloc::{AllocError, Global};
use std::process::Abort;

// Is the head of a small index of points of two coordinates under L1.
const HEAD: Head = Head {
    version: 2,
    kind: 2,
    dim: 2,
    promote: 2,
    split: 1,
    limit: 16_777_216,
};

// Ends a test in which `is_so` is false.
pub(crate) fn holds(rt: &impl Abort, is_so: bool) {
    assert!(rt; is_so);
}

// Makes a disk of `bytes` that all calls from `stop` on fail.
fn try_disk(alloc: Global, bytes: &[u8], stop: Option<u64>) -> Result<MemoryDisk, AllocError> {
    let bytes = bytes.to_vec(alloc)?;
    let room = (bytes.len() as u64).max(65536);
    MemoryDisk::new(alloc, bytes, room, 1_000_000, Vec::new(alloc), stop)
}

// Does the same, and ends the test where memory is lacking.
pub(crate) fn disk_of(
    rt: &(impl AllocGlobal + Abort),
    bytes: &[u8],
    stop: Option<u64>,
) -> MemoryDisk {
    try_disk(rt.alloc(), bytes, stop).expect(rt, "memory")
}

// Lists no call, or one.
pub(crate) fn calls(rt: &(impl AllocGlobal + Abort), call: Option<u64>) -> Vec<u64> {
    let mut calls = Vec::new(rt.alloc());
    if let Some(call) = call {
        calls.push(call).expect(rt, "memory");
    }
    calls
}

// Makes a sink whose call `fails` fails, if any.
pub(crate) fn sink_of(rt: &(impl AllocGlobal + Abort), fails: Option<u64>) -> MemorySink {
    MemorySink::new(rt.alloc(), 1000, calls(rt, fails)).expect(rt, "memory")
}

// Makes an index of the small head.
fn make<D: Disk, K: Sink>(disk: &mut D, out: &mut K) -> Status {
    create_index(disk, &HEAD, out)
}

// Audits an index.
fn audit<D: Disk, K: Sink>(alloc: Global, disk: &mut D, out: &mut K) -> Status {
    audit_index(alloc, disk, out)
}

// Tells the shape of an index.
fn shape<D: Disk, K: Sink>(alloc: Global, disk: &mut D, out: &mut K) -> Status {
    shape_index(alloc, disk, out)
}

// Says which call of the disk is the first to fail, and which of the sink fails.
type Fails = (Option<u64>, Option<u64>);

const NONE: Fails = (None, None);

// Makes an index on a disk of `bytes`, and checks the status and the line.
fn check_make(rt: &(impl AllocGlobal + Abort), bytes: &[u8], fails: Fails, ended: (u8, &str)) {
    let mut disk = disk_of(rt, bytes, fails.0);
    let mut out = sink_of(rt, fails.1);
    holds(rt, make(&mut disk, &mut out) == Status(ended.0));
    holds(rt, out.written() == ended.1.as_bytes());
}

// Audits a file of `bytes`, and checks the status and the lines.
fn check_audit(rt: &(impl AllocGlobal + Abort), bytes: &[u8], fails: Fails, ended: (u8, &str)) {
    let mut disk = disk_of(rt, bytes, fails.0);
    let mut out = sink_of(rt, fails.1);
    let status = audit(rt.alloc(), &mut disk, &mut out);
    holds(rt, status == Status(ended.0));
    holds(rt, out.written() == ended.1.as_bytes());
}

// Tells the shape of a file of `bytes`, and checks the status and the lines.
fn check_shape_of(rt: &(impl AllocGlobal + Abort), bytes: &[u8], fails: Fails, ended: (u8, &str)) {
    let mut disk = disk_of(rt, bytes, fails.0);
    let mut out = sink_of(rt, fails.1);
    let status = shape(rt.alloc(), &mut disk, &mut out);
    holds(rt, status == Status(ended.0));
    holds(rt, out.written() == ended.1.as_bytes());
}

// Gives the bytes of a new index.
fn made(rt: &(impl AllocGlobal + Abort)) -> Vec<u8> {
    let mut disk = disk_of(rt, &[], None);
    let mut out = sink_of(rt, None);
    holds(rt, make(&mut disk, &mut out) == Status(0));
    disk.bytes().to_vec(rt.alloc()).expect(rt, "memory")
}

// Audits a new index in which the byte at `at` is `byte`, with a sink whose call `fails` fails.
fn check_changed(
    rt: &(impl AllocGlobal + Abort),
    at: usize,
    byte: u8,
    fails: Option<u64>,
    ended: (u8, &str),
) {
    let mut bytes = made(rt);
    place(&mut bytes, at, &[byte]);
    check_audit(rt, &bytes, (None, fails), ended);
}

// Puts `change` into a file from `at` on.
pub(crate) fn place(file: &mut [u8], at: usize, change: &[u8]) {
    for i in 0..change.len() {
        let here = at.saturating_add(i);
        if here < file.len() {
            file[here] = change[i];
        }
    }
}

#[test]
fn a_new_index_is_sound(rt: HostRuntime) {
    check_make(&rt, b"", NONE, (0, "created\n"));
    let bytes = made(&rt);
    check_audit(&rt, &bytes, NONE, (0, "sound\nobjects 0\nnodes 1\n"));
}

#[test]
fn files_of_no_index(rt: HostRuntime) {
    check_make(&rt, b"x", NONE, (6, "fault notindex notempty\n"));
    check_audit(&rt, b"x", NONE, (6, "fault notindex short\n"));
    check_make(&rt, b"", (Some(0), None), (5, "fault disk\n"));
    check_audit(&rt, b"", (Some(0), None), (5, "fault disk\n"));
    check_make(&rt, b"x", (None, Some(0)), (6, ""));
    check_audit(&rt, b"x", (None, Some(0)), (6, ""));
}

#[test]
fn a_new_index_with_a_changed_byte(rt: HostRuntime) {
    let sound = (0, "sound\nobjects 0\nnodes 1\n");
    check_changed(&rt, 0, 0, None, (6, "fault notindex magic\n"));
    check_changed(&rt, 9, 1, None, (6, "fault notindex version\n"));
    check_changed(&rt, 4096, 0, None, (6, "fault notindex unfinished\n"));
    check_changed(&rt, 4096 + 40, 1, None, (6, "fault notindex slot\n"));
    check_changed(&rt, 4096 + 27, 1, None, (1, "rejected count 1 0\n"));
    check_changed(&rt, 4096 + 27, 1, Some(0), (4, ""));
    check_changed(&rt, 8192 + 27, 1, None, sound);
    check_changed(&rt, 8192 + 27, 1, Some(0), (4, ""));
    check_changed(&rt, 12288, 15, None, (1, "rejected page bad 3 kind\n"));
}

#[test]
fn a_sink_that_fails(rt: HostRuntime) {
    check_make(&rt, b"", (None, Some(0)), (4, ""));
}

// Describes bytes, and the place where they are put.
type Change = (usize, &'static [u8]);

// Gives a new index of a page more into which bytes are put.
fn made_with(rt: &(impl AllocGlobal + Abort), changes: &[Change]) -> Vec<u8> {
    let mut bytes = made(rt);
    bytes.extend_from_slice(&[0; 4096]).expect(rt, "memory");
    for (at, change) in changes {
        place(&mut bytes, *at, change);
    }
    bytes
}

// Checks the shape of such an index, with a sink whose call `fails` fails.
fn check_shape(
    rt: &(impl AllocGlobal + Abort),
    changes: &[Change],
    fails: Option<u64>,
    ended: (u8, &str),
) {
    let bytes = made_with(rt, changes);
    check_shape_of(rt, &bytes, (None, fails), ended);
}

// Says in the live slot: the root on page 4, height 1, two objects and five pages.
const HIGHER: Change = (4096 + 16, &[0, 0, 0, 4, 0, 0, 0, 1, 0, 0, 0, 2, 0, 0, 0, 5]);

// Makes page 3 a leaf of two entries.
const LEAF: Change = (12288, &[0, 0, 0, 2]);

// Make page 4 an inner node of one entry: its child on page 3, the radius 7 and the point (3, 4).
const ROOT: Change = (16384, &[1, 0, 0, 1]);

const ENTRY: Change = (
    16384 + 16,
    &[
        0, 0, 0, 3, 0, 0, 0, 0, 0, 0, 0, 7, 0, 0, 0, 0, 0, 0, 0, 0, 0, 0, 0, 3, 0, 0, 0, 4,
    ],
);

const OUTSIDE: Change = (16403, &[5]);

const REPEATS: Change = (16403, &[4]);

#[test]
fn the_shape_of_a_tree(rt: HostRuntime) {
    let new = (0, "height 0\nobjects 0\nnodes 1\n0 0 - -\n");
    check_shape(&rt, &[], None, new);
    let higher = (0, "height 1\nobjects 2\nnodes 2\n1 1 - -\n0 2 3,4 7\n");
    check_shape(&rt, &[HIGHER, LEAF, ROOT, ENTRY], None, higher);
    check_shape(&rt, &[HIGHER, LEAF, ROOT, ENTRY], Some(0), (4, ""));
    check_shape(&rt, &[(0, b"x")], None, (6, "fault notindex magic\n"));
}

#[test]
fn the_shape_of_a_damaged_tree(rt: HostRuntime) {
    let bad = (9, "fault damaged bad 3 kind\n");
    check_shape(&rt, &[HIGHER, ROOT, ENTRY, (12288, &[15])], None, bad);
    let outside = (9, "fault damaged outside 5\n");
    check_shape(&rt, &[HIGHER, ROOT, ENTRY, OUTSIDE], None, outside);
    let repeats = (9, "fault damaged repeats 4\n");
    check_shape(&rt, &[HIGHER, ROOT, ENTRY, REPEATS], None, repeats);
    check_shape(&rt, &[HIGHER, ROOT, ENTRY, REPEATS], Some(0), (9, ""));
}
