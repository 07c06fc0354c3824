ghost use Rattle.std.specs.Prelude.{◌≡◌, ◌≤◌, ◌<◌, ◌^◌, length};

use batch_run::laws::images_hold_the_file;
use batch_run::{ImageFault, audit_image, batch, read_image, read_parts, sound_by_parts};
use disk_model::{Disk, MemoryDisk, SharedDisk};
use image_answers::Outcome;
use meeting::{Meeting, Seen};
use metric_laws::Metric;
use node_page::NodeFault;
use page_store::PageFault;
use rows_text::{read_script, reply_text};
use std::alloc::{AllocError, Global};
use std::process::Abort;
use std::thread::Threads;
use tree_audit::{AuditFault, Audited};
use tree_shape::Live;
use vector_kinds::L1;

// Lists numbers of workers: one, some, and more than there are commands or entries.
const WORKERS: [usize; 4] = [1, 2, 3, 64];

// Ends a test in which `is_so` is false.
pub(crate) fn holds(rt: &impl Abort, is_so: bool) {
    assert!(rt; is_so);
}

// Sets the byte at `at` of an image.
pub(crate) fn put(image: &mut [u8], at: usize, byte: u8) {
    if at < image.len() {
        image[at] = byte;
    }
}

// Writes an entry over points of one coordinate: the child or the id, the radius or the tag, the distance, and the point.
pub(crate) fn put_entry(image: &mut [u8], page: usize, place: usize, fields: [u8; 4])
    requires page { page ≤ 10 }
    requires place { place ≤ 32 }
{
    let at = page * 4096 + 16 + place * 24;
    put(image, at + 3, fields[0]);
    put(image, at + 11, fields[1]);
    put(image, at + 19, fields[2]);
    put(image, at + 23, fields[3]);
}

// Describes the live tree of the index of the points 0 to 32.
const LINE: Live = Live {
    side: 1,
    generation: 34,
    root: 6,
    height: 1,
    count: 33,
    pages: 7,
};

// Puts the nodes of that index. The objects 0 to 15 stand under 7 on page 4, the others under 24 on page 5, and the root
// stands on page 6.
pub(crate) fn put_line(image: &mut [u8]) {
    put(image, 16387, 16);
    put(image, 20483, 17);
    put(image, 24576, 1);
    put(image, 24579, 2);
    for x in 0..16u8 {
        put_entry(image, 4, usize::from(x), [x, x, x.abs_diff(7), x]);
    }
    for x in 0..17u8 {
        let fields = [x + 16, x + 16, x.abs_diff(8), x + 16];
        put_entry(image, 5, usize::from(x), fields);
    }
    put_entry(image, 6, 0, [4, 8, 0, 7]);
    put_entry(image, 6, 1, [5, 8, 0, 24]);
}

// Gives `count` bytes that are all zeros.
fn zeros(rt: &(impl AllocGlobal + Abort), count: usize) -> Vec<u8> {
    vec![in rt.alloc(); 0u8; count].expect(rt, "memory")
}

// Gives that index.
fn line(rt: &(impl AllocGlobal + Abort)) -> Vec<u8> {
    let mut image = zeros(rt, 28672);
    put_line(&mut image);
    image
}

// Adds what an outcome says.
fn push_outcome(outcome: &Outcome, text: &mut Vec<u8>) -> Result<(), AllocError> {
    match outcome {
        Outcome::Done { reply, .. } => reply_text(reply, false, text),
        Outcome::Damaged(PageFault::Bad(4, NodeFault::Kind)) => text.extend_from_slice(
            b"bad 4 kind\n",
        ),
        Outcome::Damaged(PageFault::Bad(4, _)) => text.extend_from_slice(b"bad 4\n"),
        Outcome::Damaged(PageFault::Repeats(4)) => text.extend_from_slice(b"repeats 4\n"),
        Outcome::Damaged(_) => text.extend_from_slice(b"damaged\n"),
    }
}

// Adds what all outcomes say.
fn push_all(outcomes: &[Outcome], text: &mut Vec<u8>) -> Result<(), AllocError> {
    for outcome in outcomes {
        push_outcome(outcome, text)?;
    }
    Ok(())
}

// Gives the outcomes of a script.
fn outcomes_of<R: AllocGlobal + Abort + Threads + Sync, M: Metric>(
    rt: &R,
    image: &[u8],
    metric: M,
    live: &Live,
    script: &str,
    workers: usize,
) -> Vec<Outcome>
    requires pages { live.now.pages ≤ 2 ^ 24 }
    requires script { length script.now < 2 ^ 32 }
    requires some { 1 ≤ workers }
    requires few { workers ≤ 64 }
{
    let alloc = rt.alloc();
    let commands = read_script(alloc, script.as_bytes(), metric.dimension()).expect(rt, "memory");
    batch(rt, alloc, image, metric, live, &commands, workers).expect(rt, "memory")
}

// Says whether the outcomes of a script say this.
fn says<R: AllocGlobal + Abort + Threads + Sync, M: Metric>(
    rt: &R,
    image: &[u8],
    metric: M,
    live: &Live,
    script: (&str, &str),
    workers: usize,
) -> bool
    requires pages { live.now.pages ≤ 2 ^ 24 }
    requires some { 1 ≤ workers }
    requires few { workers ≤ 64 }
{
    assert!(rt; script.0.len() < 1000);
    let outcomes = outcomes_of(rt, image, metric, live, script.0, workers);
    let mut text = Vec::new(rt.alloc());
    push_all(&outcomes, &mut text).expect(rt, "memory");
    text.as_slice() == script.1.as_bytes()
}

// Checks what a script on the index of the points 0 to 32 says, for each number of workers.
fn check_line<R: AllocGlobal + Abort + Threads + Sync>(rt: &R, image: &[u8], script: (&str, &str)) {
    for workers in WORKERS {
        holds(rt, says(rt, image, L1::new(1), &LINE, script, workers));
    }
}

#[test]
fn a_batch_answers_in_order(rt: HostRuntime) {
    images_hold_the_file();
    let image = line(&rt);
    let script = "range,2,0\ncount\ninsert,5\nnearest,1,33\nnext,0,0\ncursor,1\n";
    let wanted =
        "hits 3\n0 0\n1 1\n2 2\ncount 33\nrefused readonly\nhits 1\n32 1\nrefused count\nrefused readonly\n";
    check_line(&rt, &image, (script, wanted));
    check_line(&rt, &image, ("", ""));
}

#[test]
fn dear_and_cheap_commands_keep_their_order(rt: HostRuntime) {
    let image = line(&rt);
    let script =
        "range,0,5\ncount\nrange,0,6\ncount\nrange,0,7\ncount\nnearest,1,8\nnearest,1,9\nnearest,1,10\nrange,0,11\n";
    let wanted =
        "hits 1\n5 0\ncount 33\nhits 1\n6 0\ncount 33\nhits 1\n7 0\ncount 33\nhits 1\n8 0\nhits 1\n9 0\nhits 1\n10 0\nhits 1\n11 0\n";
    check_line(&rt, &image, (script, wanted));
}

// Describe the live tree of a small index, and one that reaches the same page six times.
const SMALL: Live = Live {
    side: 1,
    generation: 2,
    root: 4,
    height: 0,
    count: 1,
    pages: 5,
};

const SIXFOLD: Live = Live {
    side: 1,
    generation: 2,
    root: 3,
    height: 1,
    count: 36,
    pages: 5,
};

// Gives five pages whose last holds the object 0 at 4, and in which the byte at `at` of that page is `byte`.
fn small(rt: &(impl AllocGlobal + Abort), at: usize, byte: u8) -> Vec<u8>
    requires { at ≤ 4095 }
{
    let mut image = zeros(rt, 20480);
    put(&mut image, 16387, 1);
    put_entry(&mut image, 4, 0, [0, 0, 0, 4]);
    put(&mut image, 16384 + at, byte);
    image
}

// Puts a root on page 3 with six entries to page 4, which holds six objects, all at 0.
pub(crate) fn put_sixfold(image: &mut [u8]) {
    put(image, 12288, 1);
    put(image, 12291, 6);
    put(image, 16387, 6);
    for place in 0..6u8 {
        put_entry(image, 3, usize::from(place), [4, 0, 0, 0]);
        put_entry(image, 4, usize::from(place), [place, 0, 0, 0]);
    }
}

// Audits an image.
fn audit<R: AllocGlobal + Threads + Sync>(
    rt: &R,
    image: &[u8],
    live: &Live,
    workers: usize,
) -> Result<Audited, AuditFault>
    requires pages { live.now.pages ≤ 2 ^ 24 }
    requires some { 1 ≤ workers }
    requires few { workers ≤ 64 }
{
    audit_image(rt, rt.alloc(), image, L1::new(1), 1, live, workers)
}

const SCRIPT: &str = "range,7,0\ncount\n";

// Checks what a script says of an image, and what the audit finds in it, for each number of workers.
fn check<R: AllocGlobal + Abort + Threads + Sync>(
    rt: &R,
    image: &[u8],
    live: &Live,
    said: &str,
    audited: Result<Audited, AuditFault>,
)
    requires { live.now.pages ≤ 2 ^ 24 }
{
    for workers in WORKERS {
        let script = (SCRIPT, said);
        holds(rt, says(rt, image, L1::new(1), live, script, workers));
        holds(rt, audit(rt, image, live, workers) == audited);
    }
}

// Checks the small index in which the byte at `at` of its page is `byte`.
fn check_changed<R: AllocGlobal + Abort + Threads + Sync>(
    rt: &R,
    at: usize,
    byte: u8,
    said: &str,
    fault: AuditFault,
)
    requires { at ≤ 4095 }
{
    let image = small(rt, at, byte);
    check(rt, &image, &SMALL, said, Err(fault));
}

// Says that page 4 of the small index holds no node.
fn bad(fault: NodeFault) -> AuditFault {
    AuditFault::Page(PageFault::Bad(4, fault))
}

#[test]
fn damaged_images(rt: HostRuntime) {
    check_changed(&rt, 0, 15, "bad 4 kind\ncount 1\n", bad(NodeFault::Kind));
    check_changed(&rt, 3, 33, "bad 4\ncount 1\n", bad(NodeFault::Count));
    check_changed(&rt, 28, 1, "bad 4\ncount 1\n", bad(NodeFault::Distance));
    check_changed(&rt, 4095, 1, "bad 4\ncount 1\n", bad(NodeFault::Tail));
    let stored = AuditFault::ParentDistance(4, 0);
    check_changed(&rt, 35, 1, "hits 1\n0 4\ncount 1\n", stored);
    let id = AuditFault::Id(5);
    check_changed(&rt, 19, 5, "hits 1\n5 4\ncount 1\n", id);
}

#[test]
fn a_page_that_is_reached_six_times(rt: HostRuntime) {
    let mut image = zeros(&rt, 20480);
    put_sixfold(&mut image);
    let twice = Err(AuditFault::Twice(4));
    check(&rt, &image, &SIXFOLD, "repeats 4\ncount 36\n", twice);
}

// Describes what the audit of the index of the points 0 to 32 gives.
const NUMBERS: Audited = Audited {
    objects: 33,
    nodes: 3,
};

#[test]
fn the_first_fault_is_told_for_any_workers(rt: HostRuntime) {
    let sound = "hits 8\n0 0\n1 1\n2 2\n3 3\n4 4\n5 5\n6 6\n7 7\ncount 33\n";
    let mut image = line(&rt);
    check(&rt, &image, &LINE, sound, Ok(NUMBERS));
    // Stores a wrong distance at an object of the second subtree.
    put_entry(&mut image, 5, 0, [16, 16, 9, 16]);
    let second = Err(AuditFault::ParentDistance(5, 0));
    check(&rt, &image, &LINE, sound, second);
    // Stores another at one of the first.
    put_entry(&mut image, 4, 15, [15, 15, 9, 15]);
    let first = Err(AuditFault::ParentDistance(4, 15));
    check(&rt, &image, &LINE, sound, first);
    // Puts an id of the first subtree into the second again, before its fault.
    let mut image = line(&rt);
    put_entry(&mut image, 5, 0, [3, 16, 8, 16]);
    put_entry(&mut image, 5, 1, [17, 17, 9, 17]);
    check(&rt, &image, &LINE, sound, Err(AuditFault::Id(3)));
}

// Makes a metric by which two points meet.
fn meeting<'a>(first: &'a [u32], second: &'a [u32], seen: &'a Seen) -> Meeting<'a>
    ensures { result.plain.dim ≡ 1 }
{
    Meeting {
        plain: L1::new(1),
        first,
        second,
        seen,
    }
}

// Says whether two workers of a batch met.
fn batch_meets<R: AllocGlobal + Abort + Threads + Sync>(rt: &R, workers: usize) -> bool
    requires some { 1 ≤ workers }
    requires few { workers ≤ 64 }
{
    let image = line(rt);
    let seen = Seen::new();
    let metric = meeting(&[100], &[200], &seen);
    let script = ("range,2,100\nrange,2,200\n", "hits 0\nhits 0\n");
    holds(rt, says(rt, &image, metric, &LINE, script, workers));
    seen.met()
}

#[test]
fn two_workers_of_a_batch_meet(rt: HostRuntime) {
    holds(&rt, batch_meets(&rt, 2));
    holds(&rt, !batch_meets(&rt, 1));
}

// Says whether two workers of an audit met.
fn audit_meets<R: AllocGlobal + Abort + Threads + Sync>(rt: &R, workers: usize) -> bool
    requires some { 1 ≤ workers }
    requires few { workers ≤ 64 }
{
    let image = line(rt);
    let seen = Seen::new();
    let metric = meeting(&[1], &[32], &seen);
    let found = audit_image(rt, rt.alloc(), &image, metric, 1, &LINE, workers);
    holds(rt, found == Ok(NUMBERS));
    seen.met()
}

#[test]
fn two_workers_of_an_audit_meet(rt: HostRuntime) {
    holds(&rt, audit_meets(&rt, 2));
    holds(&rt, !audit_meets(&rt, 1));
}

// Makes a disk of `bytes` with room for `room` bytes whose calls numbered in `fails` fail.
fn try_disk(
    alloc: Global,
    bytes: Vec<u8>,
    room: u64,
    fails: &[u64],
) -> Result<MemoryDisk, AllocError> {
    let room = room.max(bytes.len() as u64);
    MemoryDisk::new(alloc, bytes, room, room, fails.to_vec(alloc)?, None)
}

// Says what two threads show of the index of the points 0 to 32, where the calls of the readers numbered in `fails` fail.
fn shown<R: AllocGlobal + Abort + Threads + Sync>(rt: &R, fails: &[u64]) -> Option<Audited> {
    let disk = try_disk(rt.alloc(), line(rt), 0, fails).expect(rt, "memory");
    sound_by_parts(rt, rt.alloc(), &disk, L1::new(1), &LINE, 2).expect(rt, "memory")
}

#[test]
fn parts_that_cannot_be_read_show_nothing(rt: HostRuntime) {
    holds(&rt, shown(&rt, &[]) == Some(NUMBERS));
    holds(&rt, shown(&rt, &[0]) == None);
}

// Makes a disk of 5000 sevens whose call `fails` fails.
fn sevens(rt: &(impl AllocGlobal + Abort), fails: u64) -> MemoryDisk {
    let bytes = vec![in rt.alloc(); 7u8; 5000].expect(rt, "memory");
    try_disk(rt.alloc(), bytes, 8192, &[fails]).expect(rt, "memory")
}

// Reads `pages` pages of a disk.
fn image_of<D: Disk>(alloc: Global, disk: &mut D, pages: u32) -> Result<Vec<u8>, ImageFault> {
    read_image(alloc, disk, pages)
}

// Says why pages of a disk are not read.
fn image_fault<D: Disk>(alloc: Global, disk: &mut D, pages: u32) -> Option<ImageFault> {
    image_of(alloc, disk, pages).err()
}

// Reads two pages of sevens, and checks where they end.
fn check_two<D: Disk>(rt: &(impl AllocGlobal + Abort), disk: &mut D) {
    let image = image_of(rt.alloc(), disk, 2).expect(rt, "an image");
    holds(rt, image.len() == 8192);
    holds(rt, image.get(4999).copied() == Some(7));
    holds(rt, image.get(5000).copied() == Some(0));
}

// Reads one page.
fn check_one<D: Disk>(rt: &(impl AllocGlobal + Abort), disk: &mut D) {
    let image = image_of(rt.alloc(), disk, 1).expect(rt, "an image");
    holds(rt, image.len() == 4096);
}

#[test]
fn images_are_read(rt: HostRuntime) {
    let mut disk = sevens(&rt, 2);
    check_two(&rt, &mut disk);
    check_one(&rt, &mut disk);
    let failed = image_fault(rt.alloc(), &mut disk, 1);
    holds(&rt, failed == Some(ImageFault::Disk));
    let long = image_fault(rt.alloc(), &mut disk, 262_145);
    holds(&rt, long == Some(ImageFault::TooLong));
    holds(&rt, disk.moments() == 3);
}

// Says why pages of a disk are not read by two readers.
fn parts_fault<R: AllocGlobal + Threads + Sync, D: SharedDisk>(
    rt: &R,
    disk: &mut D,
    pages: u32,
) -> Option<ImageFault> {
    read_parts(rt, rt.alloc(), disk, pages, 2).err()
}

#[test]
fn parts_are_read_by_readers(rt: HostRuntime) {
    let mut disk = sevens(&rt, 0);
    // Fails at the first calls of the readers and of the disk itself, but not at the disk's second one.
    holds(
        &rt,
        parts_fault(&rt, &mut disk, 2) == Some(ImageFault::Disk),
    );
    holds(&rt, parts_fault(&rt, &mut disk, 2) == None);
    holds(&rt, disk.moments() == 2);
    let long = parts_fault(&rt, &mut disk, 262_145);
    holds(&rt, long == Some(ImageFault::TooLong));
    holds(&rt, disk.moments() == 2);
}
