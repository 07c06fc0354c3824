ghost use Rattle.std.specs.Prelude.{◌≤◌};
ghost use Rattle.index_core.specs.Index.{MayGoOn};

use crate::index::{SIX, file_of};
use crate::trial::{
    Watched, check_found, check_images, check_stopped, copied, count_on, crashed, disk_of,
    empty_disk, holds, insert, insert_all, opened, stopping, worn_disk,
};
use disk_model::{Disk, MemoryDisk};
use index_core::{Index, IndexFault};
use metric_laws::Metric;
use page_store::PageFault;
use small_trees::six_entries;
use std::alloc::{AllocError, Global};
use std::process::Abort;
use tree_shape::Live;

// Keeps `nodes` nodes of an index that goes on.
fn keep_nodes<D: Disk, M: Metric>(
    rt: &(impl AllocGlobal + Abort),
    index: &mut Index<M>,
    disk: &D,
    nodes: usize,
)
    requires goes_on { MayGoOn index.old (D.state disk.now) }
    requires some { 1 ≤ nodes }
    ensures { MayGoOn index.new (D.state disk.now) }
{
    let _disk = disk;
    index.use_cache(rt.alloc(), nodes).expect(rt, "memory");
}

// Inserts the numbers below `count` into an empty index, and finds them.
fn fill<D: Disk>(rt: &(impl AllocGlobal + Abort), disk: &mut D, count: u32) -> Live {
    let mut index = opened(rt, disk);
    insert_all(rt, &mut index, disk, 0, count);
    check_found(rt, &mut index, disk);
    index.live()
}

// Does the same with 120 numbers, while `nodes` nodes are kept.
fn fill_kept<D: Disk>(rt: &(impl AllocGlobal + Abort), disk: &mut D, nodes: usize)
    requires { 1 ≤ nodes }
{
    let mut index = opened(rt, disk);
    keep_nodes(rt, &mut index, disk, nodes);
    insert_all(rt, &mut index, disk, 0, 120);
    check_found(rt, &mut index, disk);
}

// Gives the bytes of an index of the numbers below `count`.
fn numbers_below<D: Disk + Watched + Drop>(rt: &(impl AllocGlobal + Abort), count: u32) -> Vec<u8> {
    let mut disk: D = empty_disk(rt, 1_000, None);
    fill(rt, &mut disk, count);
    copied(rt, &disk)
}

// Lists counts of inserts, each with the root's page and the number of pages after it.
const PAGES: [(u32, u32, u32); 6] = [
    (1, 4, 5),
    (2, 3, 5),
    (3, 4, 5),
    (32, 3, 5),
    (33, 6, 7),
    (34, 7, 8),
];

// Checks the slot and the size of a file after `count` inserts.
fn check_pages<D: Disk + Watched + Drop>(
    rt: &(impl AllocGlobal + Abort),
    count: u32,
    root: u32,
    pages: u32,
) {
    let mut disk: D = empty_disk(rt, 1_000, None);
    let live = fill(rt, &mut disk, count);
    holds(
        rt,
        (live.count, live.root, live.pages) == (count, root, pages),
    );
    holds(rt, disk.file().len() == pages as usize * 4096);
}

#[test]
fn pages_that_are_left_are_used_again(rt: HostRuntime) {
    for (count, root, pages) in PAGES {
        check_pages::<MemoryDisk>(&rt, count, root, pages);
    }
}

// Checks that a file has the bytes of `plain` when `nodes` nodes are kept.
fn check_kept<D: Disk + Watched + Drop>(rt: &(impl AllocGlobal + Abort), plain: &[u8], nodes: usize)
    requires { 1 ≤ nodes }
{
    let mut disk: D = empty_disk(rt, 1_000, None);
    fill_kept(rt, &mut disk, nodes);
    holds(rt, disk.file() == plain);
}

#[test]
fn a_cache_changes_no_byte(rt: HostRuntime) {
    let plain = numbers_below::<MemoryDisk>(&rt, 120);
    check_kept::<MemoryDisk>(&rt, plain.as_slice(), 1);
    check_kept::<MemoryDisk>(&rt, plain.as_slice(), 256);
}

// Says whether an insert of 32 may answer so. Where the disk failed before the commit, the file is to be `same`.
fn may_answer(answer: &Result<u32, IndexFault>, same: bool) -> bool {
    match answer {
        Ok(id) => *id == 32,
        Err(IndexFault::Commit) => true,
        Err(fault) => *fault == IndexFault::Disk && same,
    }
}

// Inserts 32 into the numbers below it, on a disk that may stop. A crash at any moment leaves the numbers with it or
// without. Says whether the insert is done.
fn check_insert<D: Disk + Watched + Drop>(
    rt: &(impl AllocGlobal + Abort),
    disk: &mut D,
    before: &[u8],
) -> bool {
    let mut index = opened(rt, disk);
    let began = disk.calls();
    let answer = insert(rt, &mut index, disk, 32);
    check_images(rt, disk, began, (32, 33), answer.is_ok());
    holds(rt, may_answer(&answer, disk.file() == before));
    if answer == Err(IndexFault::Commit) {
        check_stopped(rt, &mut index, disk);
    }
    answer.is_ok()
}

// Checks that what a crash left is opened and goes on.
fn check_goes_on<D: Disk>(rt: &(impl AllocGlobal + Abort), disk: &mut D) {
    let mut index = opened(rt, disk);
    let count = index.count();
    insert_all(rt, &mut index, disk, count, 36);
    holds(rt, count_on(rt, disk) == 36);
}

// Checks an insert on a disk that stops at the call `stop`, and what comes of the file that is left. Says whether the
// insert is done.
fn check_stop<D: Disk + Watched + Drop>(
    rt: &(impl AllocGlobal + Abort),
    before: &[u8],
    stop: u64,
) -> bool {
    let mut disk: D = stopping(rt, before, Some(stop));
    let done = check_insert(rt, &mut disk, before);
    let mut again: D = crashed(rt, &disk, 1);
    check_goes_on(rt, &mut again);
    done
}

#[test]
fn an_insert_is_stopped_at_each_call(rt: HostRuntime) {
    let before = numbers_below::<MemoryDisk>(&rt, 32);
    let mut done = false;
    for stop in 5..22 {
        done = check_stop::<MemoryDisk>(&rt, before.as_slice(), stop);
    }
    holds(&rt, done);
}

// Makes a disk of a copy of `bytes` whose call `call` fails.
fn failing<D: Watched>(rt: &(impl AllocGlobal + Abort), bytes: &[u8], call: u64) -> D {
    let file = bytes.to_vec(rt.alloc()).expect(rt, "memory");
    D::of(rt.alloc(), file, &[call], None).expect(rt, "memory")
}

// Checks that an insert that fails at the read `call` changes nothing, and that the next ones go on.
fn check_read<D: Disk + Watched + Drop>(rt: &(impl AllocGlobal + Abort), before: &[u8], call: u64) {
    let mut disk: D = failing(rt, before, call);
    let mut index = opened(rt, &mut disk);
    holds(
        rt,
        insert(rt, &mut index, &mut disk, 34) == Err(IndexFault::Disk),
    );
    holds(rt, disk.file() == before);
    insert_all(rt, &mut index, &mut disk, 34, 36);
    check_found(rt, &mut index, &mut disk);
}

#[test]
fn inserts_go_on_after_a_read_that_fails(rt: HostRuntime) {
    let before = numbers_below::<MemoryDisk>(&rt, 34);
    for call in 5..8 {
        check_read::<MemoryDisk>(&rt, before.as_slice(), call);
    }
}

// Checks that inserts are refused, and that the file stays as it was.
fn check_refused<D: Disk + Watched>(
    rt: &(impl AllocGlobal + Abort),
    disk: &mut D,
    expected: IndexFault,
) {
    let before = copied(rt, disk);
    let mut index = opened(rt, disk);
    holds(rt, insert(rt, &mut index, disk, 3) == Err(expected));
    holds(rt, insert(rt, &mut index, disk, 4) == Err(expected));
    holds(rt, disk.file() == before.as_slice());
}

// Checks that a head of three objects allows no more.
fn check_full<D: Disk + Watched + Drop>(rt: &(impl AllocGlobal + Abort)) {
    let mut disk: D = empty_disk(rt, 3, None);
    fill(rt, &mut disk, 3);
    check_refused(rt, &mut disk, IndexFault::Full);
    holds(rt, count_on(rt, &mut disk) == 3);
}

#[test]
fn a_full_index_takes_no_more(rt: HostRuntime) {
    check_full::<MemoryDisk>(&rt);
}

#[test]
fn a_worn_index_takes_no_more(rt: HostRuntime) {
    let mut disk: MemoryDisk = worn_disk(&rt);
    check_refused(&rt, &mut disk, IndexFault::Worn);
}

// Gives the bytes of a tree whose root names the page `child` six times.
fn damaged_file(alloc: Global, child: u32) -> Result<Vec<u8>, AllocError> {
    six_entries(alloc, file_of(alloc, &SIX)?, child)
}

// Checks that inserts into that tree are refused.
fn check_damaged<D: Disk + Watched + Drop>(
    rt: &(impl AllocGlobal + Abort),
    child: u32,
    fault: PageFault,
) {
    let bytes = damaged_file(rt.alloc(), child).expect(rt, "memory");
    let mut disk: D = disk_of(rt, bytes, None);
    check_refused(rt, &mut disk, IndexFault::Damaged(fault));
}

#[test]
fn a_damaged_tree_takes_no_more(rt: HostRuntime) {
    check_damaged::<MemoryDisk>(&rt, 4, PageFault::Repeats(4));
    check_damaged::<MemoryDisk>(&rt, 9, PageFault::Outside(9));
}
