ghost use Rattle.std.specs.Prelude.{◌≡◌, ◌<◌, All};
ghost use Rattle.log_model.specs.Grammar.{IsValidLog};

use disk_model::{Disk, MemoryDisk};
use log_model::{Log, Mark, NodeMarks, Record};
use log_verify::Verdict;
use metric_laws::{Listed, Point};
use node_page::HeadFault;
use prune_log::LogFault;
use scan_model::{Hit, Query};
use seal_log::{Carried, ProofFault, SealFault, Tree, carry, read_proof, seal, verify_carried};
use std::alloc::{AllocError, Global};
use std::process::Abort;
use vector_kinds::L1;

// Ends a test in which `is_so` is false.
pub(crate) fn holds(rt: &impl Abort, is_so: bool) {
    assert!(rt; is_so);
}

// Is the root digest of the small file, told by another program.
pub(crate) const ROOT: [u8; 32] = [
    0x96, 0xfa, 0xee, 0x49, 0x89, 0x62, 0x94, 0xab, 0x7b, 0x68, 0xc0, 0x3e, 0x93, 0x62, 0x84, 0xbf,
    0xed, 0x83, 0x7c, 0xd7, 0xa8, 0x58, 0x19, 0xd3, 0xf5, 0x73, 0xc3, 0xa6, 0xc6, 0x64, 0x9e, 0x7a,
];

// Is the size of the carried log of the small file.
const SIZE: usize = 16806;

// Puts bytes at a place of a file.
pub(crate) fn put(file: &mut [u8], at: usize, bytes: &[u8]) {
    for (i, byte) in bytes.iter().enumerate() {
        if let Some(place) = file.get_mut(at.saturating_add(i)) {
            *place = *byte;
        }
    }
}

// Gives a file of five pages of points of two coordinates under L1. Object 0 lies at (3, 4), on page 4.
pub(crate) fn small_file(rt: &(impl AllocGlobal + Abort)) -> Vec<u8> {
    let mut file = vec![in rt.alloc(); 0; 20480].expect(rt, "memory");
    put(
        &mut file,
        0,
        b"MTREEIDX\x00\x02\x02\x02\x02\x01\x00\x00\x01\x00\x00\x00",
    );
    put(&mut file, 4096, &[0xa5]);
    put(
        &mut file,
        4111,
        &[1, 0, 0, 0, 3, 0, 0, 0, 0, 0, 0, 0, 0, 0, 0, 0, 4],
    );
    put(&mut file, 8192, &[0xa5]);
    put(
        &mut file,
        8207,
        &[2, 0, 0, 0, 4, 0, 0, 0, 0, 0, 0, 0, 1, 0, 0, 0, 5],
    );
    put(&mut file, 16387, &[1]);
    put(&mut file, 16423, &[3, 0, 0, 0, 4]);
    file
}

// Is the object of that file, as a hit of a query about (0, 0).
const HIT: Hit = Hit { id: 0, dist: 7 };

// Gives the log of the query for all objects within 7 of (0, 0) on that file.
pub(crate) fn small_log(rt: &(impl AllocGlobal + Abort)) -> Log
    ensures valid { IsValidLog result }
    ensures within { All (λ r. r.page < 5) result.records }
{
    let alloc = rt.alloc();
    let marks = NodeMarks::from_slice(alloc, &[Mark::Near]).expect(rt, "memory");
    let q = Point::new(alloc, &[0, 0]).expect(rt, "memory");
    let answers = vec![in alloc; HIT].expect(rt, "memory");
    let records = vec![in alloc; Record { page: 4, marks }].expect(rt, "memory");
    Log {
        generation: 2,
        root: 4,
        query: Query::Range { q, r: 7 },
        answers: Listed::new(answers),
        records: Listed::new(records),
    }
}

// Makes a disk with a file whose calls numbered in `fails` fail.
fn try_disk(alloc: Global, file: Vec<u8>, fails: &[u64]) -> Result<MemoryDisk, AllocError> {
    let room = file.len() as u64;
    MemoryDisk::new(alloc, file, room, 100, fails.to_vec(alloc)?, None)
}

// Does the same, and ends the test where memory is lacking.
fn disk_of(rt: &(impl AllocGlobal + Abort), file: Vec<u8>, fails: &[u64]) -> MemoryDisk {
    try_disk(rt.alloc(), file, fails).expect(rt, "memory")
}

// Gives the carried log over a disk, and the disk's root digest.
fn carried_on<D: Disk>(rt: &(impl AllocGlobal + Abort), disk: &mut D) -> (Vec<u8>, [u8; 32]) {
    let tree = seal(rt.alloc(), disk, 5).expect(rt, "sealed");
    let log = small_log(rt);
    let bytes = carry(rt.alloc(), disk, &tree, &log).expect(rt, "carried");
    (bytes, tree.root())
}

// Gives the carried log over a file, and the file's root digest.
fn carried_log(rt: &(impl AllocGlobal + Abort), file: Vec<u8>) -> (Vec<u8>, [u8; 32]) {
    let mut disk = disk_of(rt, file, &[]);
    carried_on(rt, &mut disk)
}

// Gives the answers that a carried log over points of two coordinates shows.
fn verified(alloc: Global, carried: &Carried) -> Result<Listed<Hit>, ProofFault> {
    if carried.head().dim != 2 {
        return Err(ProofFault::Slot);
    }
    match verify_carried(alloc, carried, L1::new(2)) {
        Ok(proved) => Ok(proved.answers),
        Err(fault) => Err(fault),
    }
}

// Reads a carried log, and gives the answers that it shows.
fn shown(alloc: Global, bytes: &[u8], root: &[u8; 32]) -> Result<Listed<Hit>, ProofFault> {
    let carried = read_proof(alloc, bytes, root)?;
    verified(alloc, &carried)
}

// Says why a carried log shows nothing.
fn fault_of(alloc: Global, bytes: &[u8], root: &[u8; 32]) -> Option<ProofFault> {
    shown(alloc, bytes, root).err()
}

// Says whether the answers are the one of the small log.
fn are_answers(answers: &[Hit]) -> bool {
    answers == [HIT].as_slice()
}

// Says whether a carried log shows the answers of the small log, or nothing.
fn shows_no_others(alloc: Global, bytes: &[u8], root: &[u8; 32]) -> bool {
    match shown(alloc, bytes, root) {
        Ok(answers) => are_answers(answers.as_slice()),
        Err(_) => true,
    }
}

// Counts the digests of a page's path.
fn digests_of(rt: &(impl AllocGlobal + Abort), tree: &Tree, page: u32) -> usize {
    tree.path(rt.alloc(), page).expect(rt, "memory").len()
}

// Seals the small file.
fn small_tree(rt: &(impl AllocGlobal + Abort)) -> Tree {
    let mut disk = disk_of(rt, small_file(rt), &[]);
    seal(rt.alloc(), &mut disk, 5).expect(rt, "sealed")
}

#[test]
fn a_file_of_five_pages_has_its_digest_and_paths(rt: HostRuntime) {
    let tree = small_tree(&rt);
    holds(&rt, tree.root() == ROOT);
    holds(&rt, tree.pages() == 5);
    for page in 0..4 {
        holds(&rt, digests_of(&rt, &tree, page) == 3);
    }
    holds(&rt, digests_of(&rt, &tree, 4) == 1);
}

// Says why a disk is not sealed.
fn seal_fault<D: Disk>(alloc: Global, disk: &mut D) -> Option<SealFault> {
    seal(alloc, disk, 5).err()
}

#[test]
fn a_page_that_cannot_be_read_is_told(rt: HostRuntime) {
    let mut disk = disk_of(&rt, small_file(&rt), &[3, 7]);
    holds(
        &rt,
        seal_fault(rt.alloc(), &mut disk) == Some(SealFault::Disk),
    );
    holds(
        &rt,
        seal_fault(rt.alloc(), &mut disk) == Some(SealFault::Disk),
    );
}

#[test]
fn a_carried_log_shows_its_answers(rt: HostRuntime) {
    let (bytes, root) = carried_log(&rt, small_file(&rt));
    holds(&rt, bytes.len() == SIZE);
    let answers = shown(rt.alloc(), &bytes, &root).expect(&rt, "answers");
    holds(&rt, are_answers(answers.as_slice()));
}

// Sets one byte of a carried log, or of a file before it is sealed.
#[derive(Clone, Copy)]
struct Change {
    at: usize,
    byte: u8,
    fault: ProofFault,
}

// Lists changes of the carried log of the small file. It has 13 bytes, then each of its pages with 4 bytes before it and 97
// or 33 after it, then the log with 8 bytes before it.
const CHANGES: [Change; 9] = [
    Change {
        at: 3,
        byte: 0x47,
        fault: ProofFault::Magic,
    },
    Change {
        at: 4,
        byte: 2,
        fault: ProofFault::Version,
    },
    // Say two pages, or pages 0 and 4, or pages 0, 1, 2 and 1.
    Change {
        at: 12,
        byte: 2,
        fault: ProofFault::Order,
    },
    Change {
        at: 4213,
        byte: 4,
        fault: ProofFault::Order,
    },
    Change {
        at: 12607,
        byte: 1,
        fault: ProofFault::Order,
    },
    // Change one coordinate on page 4, and one bit of its path.
    Change {
        at: 12647,
        byte: 2,
        fault: ProofFault::Path(4),
    },
    Change {
        at: 16720,
        byte: 0,
        fault: ProofFault::Path(4),
    },
    // Change the log's kind, and the distance of its answer.
    Change {
        at: 16750,
        byte: 4,
        fault: ProofFault::Log(LogFault::Kind),
    },
    Change {
        at: 16795,
        byte: 6,
        fault: ProofFault::Verdict(Verdict::WrongAnswer(0)),
    },
];

// Checks that a changed carried log is refused.
fn check_change(rt: &(impl AllocGlobal + Abort), bytes: &[u8], root: &[u8; 32], change: &Change) {
    let mut other = bytes.to_vec(rt.alloc()).expect(rt, "memory");
    put(&mut other, change.at, &[change.byte]);
    let fault = fault_of(rt.alloc(), &other, root);
    assert!(rt; fault == Some(change.fault), "at {}", change.at);
}

#[test]
fn a_changed_carried_log_is_refused_for_its_first_fault(rt: HostRuntime) {
    let (bytes, root) = carried_log(&rt, small_file(&rt));
    for change in &CHANGES {
        check_change(&rt, &bytes, &root, change);
    }
}

// Says whether the byte at `at` is to be changed: each that is none of a page's, and some of the pages'.
fn is_tried(at: usize) -> bool {
    let in_page = at >= 13 && at < 16704 && (at - 13) % 4197 >= 4 && (at - 13) % 4197 < 4100;
    !in_page || at % 61 == 0
}

// Changes a bit of the byte at `at`, and puts it back.
fn check_bit(
    rt: &(impl AllocGlobal + Abort),
    bytes: &mut [u8],
    root: &[u8; 32],
    at: usize,
    byte: u8,
) {
    put(bytes, at, &[byte ^ 1]);
    assert!(rt; shows_no_others(rt.alloc(), bytes, root), "at {at}");
    put(bytes, at, &[byte]);
}

#[test]
fn no_changed_or_cut_carried_log_shows_other_answers(rt: HostRuntime) {
    let (bytes, root) = carried_log(&rt, small_file(&rt));
    let mut other = bytes.as_slice().to_vec(rt.alloc()).expect(&rt, "memory");
    for (at, byte) in bytes.iter().enumerate() {
        if is_tried(at) {
            check_bit(&rt, &mut other, &root, at, *byte);
        }
    }
    for at in 0..bytes.len() {
        let fault = fault_of(rt.alloc(), part(&bytes, 0, at), &root);
        assert!(rt; fault.is_some(), "cut at {at}");
    }
}

// Lists changes of the file before it is sealed.
const DAMAGES: [Change; 4] = [
    Change {
        at: 9,
        byte: 1,
        fault: ProofFault::Head(HeadFault::Version),
    },
    Change {
        at: 20,
        byte: 1,
        fault: ProofFault::Head(HeadFault::Tail),
    },
    // Shuts the live gate, or counts six pages in its slot.
    Change {
        at: 8192,
        byte: 0,
        fault: ProofFault::Slot,
    },
    Change {
        at: 8223,
        byte: 6,
        fault: ProofFault::Slot,
    },
];

// Checks that the carried log of a changed file is refused.
fn check_damage(rt: &(impl AllocGlobal + Abort), damage: &Change) {
    let mut file = small_file(rt);
    put(&mut file, damage.at, &[damage.byte]);
    let (bytes, root) = carried_log(rt, file);
    let fault = fault_of(rt.alloc(), &bytes, &root);
    assert!(rt; fault == Some(damage.fault), "at {}", damage.at);
}

#[test]
fn a_file_that_does_not_open_is_refused(rt: HostRuntime) {
    for damage in &DAMAGES {
        check_damage(&rt, damage);
    }
}

// Gives the bytes from `from` up to `to`.
pub(crate) fn part(bytes: &[u8], from: usize, to: usize) -> &[u8] {
    match bytes.get(from..to) {
        Some(part) => part,
        None => &[],
    }
}

// Gives a carried log of the small file without its page 4, which takes 4133 bytes.
fn without_last(rt: &(impl AllocGlobal + Abort), bytes: &[u8]) -> Vec<u8> {
    let mut other = part(bytes, 0, 12604)
        .to_vec(rt.alloc())
        .expect(rt, "memory");
    other
        .extend_from_slice(part(bytes, 16737, SIZE))
        .expect(rt, "memory");
    put(&mut other, 12, &[3]);
    other
}

#[test]
fn a_page_that_is_not_carried_is_missing(rt: HostRuntime) {
    let (bytes, root) = carried_log(&rt, small_file(&rt));
    holds(&rt, bytes.len() == SIZE);
    let other = without_last(&rt, &bytes);
    let fault = fault_of(rt.alloc(), &other, &root);
    holds(&rt, fault == Some(ProofFault::Missing(0)));
}
