ghost use Rattle.std.specs.Prelude.{◌≡◌, IsTrue, IfOk, OnOk};
ghost use Rattle.node_page.specs.Nodes.{IsValidNode};
ghost use Rattle.disk_model.specs.Disk.{LeavesOnly};
ghost use Rattle.disk_model.specs.FileCounts.{state_of, told_nothing};
ghost use Rattle.shadow_root.specs.Making.{IsMade};

use crate::caches::holds;
use disk_model::{Disk, Failed, MemoryDisk};
use metric_laws::Point;
use node_page::{Head, HeadFault};
use page_store::Staged;
use shadow_root::{CreateFault, OpenFault, commit, create, laws, open};
use std::alloc::{AllocError, Global};
use std::process::Abort;
use tree_shape::{LeafEntries, LeafEntry, Live, Node};

// Is the head of a small index of points of two coordinates under L1.
const HEAD: Head = Head {
    version: 2,
    kind: 2,
    dim: 2,
    promote: 2,
    split: 1,
    limit: 16_777_216,
};

// Describe the live tree of a new file, and the one that an object makes of it.
const FIRST: Live = Live {
    side: 0,
    generation: 1,
    root: 3,
    height: 0,
    count: 0,
    pages: 4,
};

const NEXT: Live = Live {
    side: 1,
    generation: 2,
    root: 4,
    height: 0,
    count: 1,
    pages: 5,
};

// Makes a disk of `bytes` that all calls from `stop` on fail.
fn try_disk(alloc: Global, bytes: Vec<u8>, stop: Option<u64>) -> Result<MemoryDisk, AllocError> {
    let room = (bytes.len() as u64).max(65536);
    MemoryDisk::new(alloc, bytes, room, 1_000_000, Vec::new(alloc), stop)
}

// Does the same, and ends the test where memory is lacking.
fn disk_of(rt: &(impl AllocGlobal + Abort), bytes: Vec<u8>, stop: Option<u64>) -> MemoryDisk {
    try_disk(rt.alloc(), bytes, stop).expect(rt, "memory")
}

// Makes an empty disk that all calls from `stop` on fail.
fn empty_disk(rt: &(impl AllocGlobal + Abort), stop: Option<u64>) -> MemoryDisk {
    disk_of(rt, Vec::new(rt.alloc()), stop)
}

// Makes a new file.
fn make<D: Disk>(disk: &mut D) -> Result<Live, CreateFault>
    ensures made { OnOk result (IsTrue (D.state disk.old).is_known → IsMade HEAD (D.state disk.new).bytes) }
    ensures only { OnOk result (LeavesOnly (D.state disk.new) (D.state disk.new).bytes) }
    ensures is_known { (D.state disk.new).is_known ≡ (D.state disk.old).is_known }
{
    create(disk, &HEAD)
}

// Makes a leaf with one object at (`x`, 4).
fn leaf(alloc: Global, x: u32) -> Result<Node, AllocError>
    ensures { IfOk result (IsValidNode 2) }
{
    let mut entries = Vec::new(alloc);
    entries.push(LeafEntry {
        id: 0,
        tag: 0,
        parent: 0,
        point: Point::new(alloc, &[x, 4])?,
    })?;
    Ok(Node::Leaf(LeafEntries::new(entries)))
}

// Opens a disk.
fn open_on<D: Disk>(disk: &mut D) -> Result<(Head, Live), OpenFault> {
    open(disk)
}

// Says what the bytes of a file open to.
fn opened(rt: &(impl AllocGlobal + Abort), bytes: Vec<u8>) -> Result<(Head, Live), OpenFault> {
    let mut disk = disk_of(rt, bytes, None);
    open_on(&mut disk)
}

// Says whether this is the first or the second of the two trees.
fn is_either(opened: &Result<(Head, Live), OpenFault>) -> bool {
    match opened {
        Ok((head, live)) => *head == HEAD && (*live == FIRST || *live == NEXT),
        Err(_) => false,
    }
}

// Gives the bytes of a new file.
fn made(rt: &(impl AllocGlobal + Abort)) -> Vec<u8> {
    let mut disk = empty_disk(rt, None);
    make(&mut disk).expect(rt, "made");
    disk.bytes().to_vec(rt.alloc()).expect(rt, "memory")
}

// Gives the fault of a new file in which the byte at `at` is `byte`.
fn fault_with(rt: &(impl AllocGlobal + Abort), at: usize, byte: u8) -> Option<OpenFault> {
    let mut bytes = made(rt);
    if at < bytes.len() {
        bytes[at] = byte;
    }
    opened(rt, bytes).err()
}

// Makes a file on a disk that has none, opens it, and makes none again.
fn check_made<D: Disk>(rt: &impl Abort, disk: &mut D) {
    holds(rt, make(disk) == Ok(FIRST));
    holds(rt, open_on(disk) == Ok((HEAD, FIRST)));
    holds(rt, make(disk) == Err(CreateFault::NotEmpty));
}

// Says why a file is not made on a disk that all calls from `stop` on fail.
fn make_fault(rt: &(impl AllocGlobal + Abort), stop: u64) -> Option<CreateFault> {
    let mut disk = empty_disk(rt, Some(stop));
    make(&mut disk).err()
}

#[test]
fn a_new_file_opens(rt: HostRuntime) {
    laws::placements_can_follow();
    laws::new_is_beside();
    laws::in_place_is_written();
    laws::commits_keep_lists();
    check_made(&rt, &mut empty_disk(&rt, None));
    let short = vec![in rt.alloc(); 0; 100].expect(&rt, "memory");
    holds(&rt, opened(&rt, short) == Err(OpenFault::Short));
    holds(&rt, make_fault(&rt, 3) == Some(CreateFault::Disk));
}

#[test]
fn a_file_with_a_fault_does_not_open(rt: HostRuntime) {
    let version = Some(OpenFault::Head(HeadFault::Version));
    holds(&rt, fault_with(&rt, 9, 3) == version);
    holds(&rt, fault_with(&rt, 4096, 0) == Some(OpenFault::Unfinished));
    holds(&rt, fault_with(&rt, 4096 + 19, 5) == Some(OpenFault::Slot));
    holds(&rt, fault_with(&rt, 8192, 0xa5) == None);
}

// Commits one object to a new file.
fn add_one<D: Disk>(alloc: Global, disk: &mut D) -> Result<Result<(), Failed>, AllocError>
    requires made { IsTrue (D.state disk.old).is_known → IsMade HEAD (D.state disk.old).bytes }
    requires only { LeavesOnly (D.state disk.old) (D.state disk.old).bytes }
{
    let mut staged = Staged::new(alloc);
    let node = leaf(alloc, 3)?;
    staged.stage(4, node)?;
    Ok(commit(disk, 2, &FIRST, &NEXT, &staged))
}

// Makes a new file, and commits one object to it. Says whether that is done.
fn adds_one<D: Disk>(rt: &(impl AllocGlobal + Abort), disk: &mut D) -> bool {
    let Ok(_live) = make(disk) else {
        panic!(rt; "no file was made");
    };
    add_one(rt.alloc(), disk).expect(rt, "memory").is_ok()
}

// Gives a file that a crash within the call `moment` leaves.
fn left_at(rt: &(impl AllocGlobal + Abort), disk: &MemoryDisk, moment: u64, pick: u64) -> Vec<u8> {
    disk.image(rt.alloc(), moment.min(disk.moments()), pick)
        .expect(rt, "memory")
}

// Opens a file that a crash within the call `moment` leaves.
fn check_left(rt: &(impl AllocGlobal + Abort), disk: &MemoryDisk, moment: u64, pick: u64) {
    let opened = opened(rt, left_at(rt, disk, moment, pick));
    holds(rt, is_either(&opened));
}

// Stops a commit at the call `stop`, and opens each file that a crash at any moment of it may leave.
fn check_stop(rt: &(impl AllocGlobal + Abort), stop: u64) {
    let mut disk = empty_disk(rt, Some(stop));
    holds(rt, adds_one(rt, &mut disk) == (stop > 14));
    for moment in 8..=disk.moments() {
        for pick in [0, 1, 165, 255] {
            check_left(rt, &disk, moment, pick);
        }
    }
}

#[test]
fn a_commit_stopped_at_each_call(rt: HostRuntime) {
    for stop in 8..16 {
        check_stop(&rt, stop);
    }
}

// Is a disk in memory that tells nothing, as a real file does.
#[derive(Drop)]
struct QuietDisk {
    disk: MemoryDisk,
}

impl Disk for QuietDisk {
    ghost state = { λ quiet. state_of (record { faults = quiet.disk.faults; reads = quiet.disk.reads }) };

    ghost read_is_image = { λ _ told. told_nothing told };

    ghost places_mix = { λ _ one other i left _ _ _. left };

    fn size(&mut self) -> Result<u64, Failed> {
        self.disk.size()
    }

    fn read_at(&mut self, at: u64, buf: &mut [u8]) -> Result<(), Failed> {
        self.disk.read_at(at, buf)
    }

    fn write_at(&mut self, at: u64, bytes: &[u8]) -> Result<(), Failed> {
        self.disk.write_at(at, bytes)
    }

    fn sync(&mut self) -> Result<(), Failed> {
        self.disk.sync()
    }
}

// Commits an object at (`x`, 4) to a new file.
fn add_at(alloc: Global, quiet: &mut QuietDisk, x: u32) -> Result<Result<(), Failed>, AllocError> {
    let mut staged = Staged::new(alloc);
    let node = leaf(alloc, x)?;
    staged.stage(4, node)?;
    Ok(commit(quiet, 2, &FIRST, &NEXT, &staged))
}

// Does the same, and says whether the commit is done.
fn adds_at(rt: &(impl AllocGlobal + Abort), quiet: &mut QuietDisk, x: u32) -> bool {
    add_at(rt.alloc(), quiet, x).expect(rt, "memory").is_ok()
}

// Says whether this is the new file's tree, or that with an object at (5, 4), where the object lies at `x`.
fn is_second(opened: &Result<(Head, Live), OpenFault>, x: Option<u8>) -> bool {
    match opened {
        Ok((_, live)) => *live == FIRST || (*live == NEXT && x == Some(5)),
        Err(_) => false,
    }
}

// Opens a file that a crash within the call `moment` leaves.
fn check_second_left(rt: &(impl AllocGlobal + Abort), disk: &MemoryDisk, moment: u64, pick: u64) {
    let bytes = left_at(rt, disk, moment, pick);
    let x = bytes.get(16423).copied();
    let opened = opened(rt, bytes);
    holds(rt, is_second(&opened, x));
}

// Makes a quiet disk whose call 13 fails, and all calls from `stop` on.
fn quiet_disk(rt: &(impl AllocGlobal + Abort), stop: u64) -> QuietDisk {
    let fails = vec![in rt.alloc(); 13; 1].expect(rt, "memory");
    let none = Vec::new(rt.alloc());
    let disk = MemoryDisk::new(rt.alloc(), none, 65536, 1_000_000, fails, Some(stop));
    QuietDisk {
        disk: disk.expect(rt, "memory"),
    }
}

// Stops a commit before it opens its gate, and opens the file anew.
fn stop_first(rt: &(impl AllocGlobal + Abort), quiet: &mut QuietDisk) {
    make(quiet).expect(rt, "made");
    holds(rt, !adds_at(rt, quiet, 3));
    holds(rt, quiet.sync() == Ok(()));
    holds(rt, open_on(quiet) == Ok((HEAD, FIRST)));
}

// Stops a second commit at the call `stop`, and opens each file that a crash at any moment of it may leave.
fn check_second(rt: &(impl AllocGlobal + Abort), stop: u64) {
    let mut quiet = quiet_disk(rt, stop);
    stop_first(rt, &mut quiet);
    let begun = quiet.disk.moments();
    holds(rt, begun == 19);
    holds(rt, adds_at(rt, &mut quiet, 5) == (stop > 25));
    for moment in begun..=quiet.disk.moments() {
        for pick in [0, 1, 165, 255] {
            check_second_left(rt, &quiet.disk, moment, pick);
        }
    }
}

#[test]
fn a_second_commit_after_one_that_stopped_before_its_gate(rt: HostRuntime) {
    for stop in 19..27 {
        check_second(&rt, stop);
    }
}
