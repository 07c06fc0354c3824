ghost use Rattle.std.specs.Prelude.{◌≡◌, ◌≤◌, All, IsTrue, length};
ghost use Rattle.index_core.specs.Index.{MayGoOn};
ghost use Rattle.index_core.specs.Pinning.{IsPinned};

use crate::trial::{
    Watched, check_images, check_stopped, copied, count_on, disk_of, empty_disk, holds, insert,
    insert_all, keeps_middle, opened, stopping, worn_disk,
};
use bulk_load::{Alone, Crew};
use disk_model::{Disk, MemoryDisk};
use index_core::{Index, IndexFault};
use meeting::{Meeting, Seen, Threaded};
use metric_laws::{Metric, Rows};
use std::alloc::Global;
use std::process::Abort;
use std::thread::Threads;
use tree_shape::Live;
use vector_kinds::L1;

// Gives the numbers below `count`, each as a point.
fn numbers<M: Metric>(rt: &(impl AllocGlobal + Abort), metric: &M, count: u32) -> Rows
    ensures points { length result.points ≡ count }
    ensures fit { All (λ p. IsTrue ((M.space metric.now).is_point p)) result.points }
{
    let mut rows = Rows::new(rt.alloc(), 1);
    for x in 0..count {
        assert!(rt; metric.is_point(&[x]));
        rows.push(&[x]).expect(rt, "memory");
    }
    rows
}

// Loads the numbers 0 to 32.
fn load<W: Crew<M>, D: Disk, M: Metric>(
    rt: &(impl AllocGlobal + Abort),
    crew: &W,
    index: &mut Index<M>,
    disk: &mut D,
) -> Result<u32, IndexFault>
    requires ready { W.ready crew.now }
    requires stands { MayGoOn index.old (D.state disk.old) }
    ensures { MayGoOn index.new (D.state disk.new) }
{
    let rows = numbers(rt, &index.metric(), 33);
    index.load(crew, rt.alloc(), disk, &rows)
}

// Describes the live tree after that load into an empty index.
const LOADED: Live = Live {
    side: 1,
    generation: 2,
    root: 8,
    height: 1,
    count: 33,
    pages: 9,
};

// Opens a disk for writing with this metric.
fn opened_by<D: Disk, M: Metric>(rt: &impl Abort, disk: &mut D, metric: M) -> Index<M>
    ensures { MayGoOn result (D.state disk.new) }
{
    Index::open_write(disk, metric).expect(rt, "opened")
}

// Loads the numbers 0 to 32 into an empty index, by a crew of `workers` workers.
fn check_load<W: Crew<M>, D: Disk, M: Metric>(
    rt: &(impl AllocGlobal + Abort),
    crew: &W,
    metric: M,
    disk: &mut D,
    workers: usize,
)
    requires ready { W.ready crew.now }
    requires some { 1 ≤ workers }
    requires few { workers ≤ 64 }
{
    let mut index = opened_by(rt, disk, metric);
    index.set_workers(workers);
    holds(rt, index.workers() == workers);
    holds(rt, load(rt, crew, &mut index, disk) == Ok(33));
    holds(rt, index.live() == LOADED);
}

// Makes the disk of an index into which the numbers 0 to 32 were loaded.
fn loaded<R: AllocGlobal + Abort, D: Disk + Watched + Drop>(rt: &R) -> D {
    let mut disk: D = empty_disk(rt, 1_000, None);
    check_load(rt, &Alone, L1::new(1), &mut disk, 1);
    disk_of(rt, copied(rt, &disk), None)
}

// Checks that the caller alone and many threads make the same bytes.
fn check_workers<R: AllocGlobal + Abort + Threads + Sync, D: Disk + Watched + Drop>(rt: &R) {
    let mut first: D = empty_disk(rt, 33, None);
    check_load(rt, &Alone, L1::new(1), &mut first, 1);
    holds(rt, count_on(rt, &mut first) == 33);
    let mut second: D = empty_disk(rt, 33, None);
    let seen = Seen::new();
    check_load(
        rt,
        &Threaded::new(rt),
        Meeting::of_none(&seen),
        &mut second,
        64,
    );
    holds(rt, first.file() == second.file());
}

#[test]
fn a_load_makes_one_tree(rt: HostRuntime) {
    check_workers::<HostRuntime, MemoryDisk>(&rt);
}

// Checks that a load is refused, and that it makes no call of the disk.
fn check_refused<R: AllocGlobal + Abort, D: Disk + Watched>(
    rt: &R,
    disk: &mut D,
    expected: IndexFault,
) {
    let mut index = opened(rt, disk);
    let calls = disk.calls();
    holds(rt, load(rt, &Alone, &mut index, disk) == Err(expected));
    holds(rt, disk.calls() == calls);
}

// Loads more rows than an index may have, into one that has objects, and into one without a further generation.
fn check_refusals<R: AllocGlobal + Abort, D: Disk + Watched + Drop>(rt: &R) {
    let mut small: D = empty_disk(rt, 32, None);
    check_refused(rt, &mut small, IndexFault::Full);
    let mut used: D = loaded(rt);
    check_refused(rt, &mut used, IndexFault::NotEmpty);
    let mut worn: D = worn_disk(rt);
    check_refused(rt, &mut worn, IndexFault::Worn);
}

#[test]
fn loads_that_are_refused(rt: HostRuntime) {
    check_refusals::<HostRuntime, MemoryDisk>(&rt);
}

// Says whether a load of 33 rows may answer so on a disk that stops.
fn may_answer(answer: &Result<u32, IndexFault>) -> bool {
    match answer {
        Ok(count) => *count == 33,
        Err(fault) => *fault == IndexFault::Commit || *fault == IndexFault::Disk,
    }
}

// Loads into an empty index on a disk that stops at the call `stop`. A crash at any moment leaves all of the rows or
// none. Says whether the load is done.
fn check_stop<R: AllocGlobal + Abort, D: Disk + Watched + Drop>(rt: &R, stop: u64) -> bool {
    let mut disk: D = empty_disk(rt, 1_000, Some(stop));
    let mut index = opened(rt, &mut disk);
    let began = disk.calls();
    let answer = load(rt, &Alone, &mut index, &mut disk);
    check_images(rt, &disk, began, (0, 33), answer.is_ok());
    holds(rt, may_answer(&answer));
    if answer == Err(IndexFault::Commit) {
        check_stopped(rt, &mut index, &mut disk);
    }
    answer.is_ok()
}

#[test]
fn a_load_is_stopped_at_each_call(rt: HostRuntime) {
    let mut done = false;
    for stop in 5..24 {
        done = check_stop::<HostRuntime, MemoryDisk>(&rt, stop);
    }
    holds(&rt, done);
}

// Says whether a pin may answer so on a disk that stops, over the tree `live`.
fn may_pin(answer: &Result<Live, IndexFault>, live: &Live) -> bool {
    match answer {
        Ok(pinned) => pinned == live,
        Err(fault) => *fault == IndexFault::Disk,
    }
}

// Pins the live tree on a disk that may stop, and says whether it is pinned.
fn pin<D: Disk, M: Metric>(
    rt: &(impl AllocGlobal + Abort),
    index: &mut Index<M>,
    disk: &mut D,
) -> bool
    requires { MayGoOn index.old (D.state disk.old) }
    ensures { MayGoOn index.new (D.state disk.new) }
{
    let live = index.live();
    let answer = index.pin(rt.alloc(), disk);
    holds(rt, may_pin(&answer, &live));
    answer.is_ok()
}

// Checks that at each moment from `began` on a crash leaves the pages of the tree as they are in `before`.
fn check_kept<D: Watched>(rt: &(impl AllocGlobal + Abort), disk: &D, began: u64, before: &[u8]) {
    for moment in began..=disk.calls() {
        for pick in [1, 170] {
            holds(rt, keeps_middle(rt, disk, moment, pick, before));
        }
    }
}

// Inserts an object into the pinned tree `before`, and says whether it is inserted.
fn check_pinned<D: Disk + Watched>(
    rt: &(impl AllocGlobal + Abort),
    index: &mut Index<L1>,
    disk: &mut D,
    before: &[u8],
) -> bool
    requires { MayGoOn index.old (D.state disk.old) }
{
    let began = disk.calls();
    if !pin(rt, index, disk) {
        return false;
    }
    let done = insert(rt, index, disk, 33).is_ok();
    check_kept(rt, disk, began, before);
    done
}

// Does so on a disk that stops at the call `stop`.
fn check_pin<D: Disk + Watched + Drop>(
    rt: &(impl AllocGlobal + Abort),
    before: &[u8],
    stop: u64,
) -> bool {
    let mut disk: D = stopping(rt, before, Some(stop));
    let mut index = opened(rt, &mut disk);
    check_pinned(rt, &mut index, &mut disk, before)
}

#[test]
fn a_pinned_tree_stays_at_each_stop(rt: HostRuntime) {
    let disk: MemoryDisk = loaded(&rt);
    let mut done = false;
    for stop in 5..22 {
        done = check_pin::<MemoryDisk>(&rt, disk.file(), stop);
    }
    holds(&rt, done);
}

// Takes back the pin of `generation`.
fn release<D: Disk, M: Metric>(index: &mut Index<M>, disk: &D, generation: u64)
    requires goes_on { MayGoOn index.old (D.state disk.now) }
    requires pinned { IsPinned generation index.old }
    ensures { MayGoOn index.new (D.state disk.now) }
{
    let _disk = disk;
    index.unpin(generation);
}

// Pins the live tree and takes the pin back.
fn pin_shortly<D: Disk, M: Metric>(
    alloc: Global,
    index: &mut Index<M>,
    disk: &mut D,
) -> Result<(), IndexFault>
    requires { MayGoOn index.old (D.state disk.old) }
    ensures { MayGoOn index.new (D.state disk.new) }
{
    let live = match index.pin(alloc, disk) {
        Ok(live) => live,
        Err(fault) => return Err(fault),
    };
    release(index, disk, live.generation);
    Ok(())
}

// Gives the live tree after two inserts into what was loaded, below a pin.
fn live_pinned<D: Disk>(rt: &(impl AllocGlobal + Abort), disk: &mut D) -> Live {
    let mut index = opened(rt, disk);
    holds(rt, pin(rt, &mut index, disk));
    holds(rt, pin_shortly(rt.alloc(), &mut index, disk) == Ok(()));
    insert_all(rt, &mut index, disk, 33, 35);
    index.live()
}

// Gives the live tree after two inserts into what was loaded, after a pin that was taken back.
fn live_after<D: Disk>(rt: &(impl AllocGlobal + Abort), disk: &mut D) -> Live {
    let mut index = opened(rt, disk);
    holds(rt, pin_shortly(rt.alloc(), &mut index, disk) == Ok(()));
    insert_all(rt, &mut index, disk, 33, 35);
    index.live()
}

// Checks the pages after two inserts, after a pin and below one.
fn check_released<R: AllocGlobal + Abort, D: Disk + Watched + Drop>(rt: &R) {
    let mut disk: D = loaded(rt);
    let live = live_after(rt, &mut disk);
    holds(rt, (live.root, live.pages) == (8, 10));
    let mut disk: D = loaded(rt);
    let live = live_pinned(rt, &mut disk);
    holds(rt, (live.root, live.pages) == (11, 12));
}

#[test]
fn the_pages_of_a_pin_that_is_taken_back_are_used_again(rt: HostRuntime) {
    check_released::<HostRuntime, MemoryDisk>(&rt);
}

// Inserts 34 with the tag 700 into what was loaded.
fn insert_tagged<D: Disk>(
    rt: &(impl AllocGlobal + Abort),
    index: &mut Index<L1>,
    disk: &mut D,
) -> Result<u32, IndexFault>
    requires { MayGoOn index.old (D.state disk.old) }
    ensures { MayGoOn index.new (D.state disk.new) }
{
    assert!(rt; index.metric().is_point(&[34]));
    index.insert_tagged(rt.alloc(), disk, &[34], 700)
}

// Gives the tags of what lies within 2 of 32.
fn tags_near<D: Disk>(
    rt: &(impl AllocGlobal + Abort),
    index: &mut Index<L1>,
    disk: &mut D,
) -> Vec<u64>
    requires { MayGoOn index.old (D.state disk.old) }
{
    assert!(rt; index.metric().is_point(&[32]));
    let found = index.range(rt.alloc(), disk, &[32], 2).expect(rt, "found");
    index.tags(rt.alloc(), disk, &found).expect(rt, "tags")
}

// Checks a tag that was given, and those of a load.
fn check_tagged<R: AllocGlobal + Abort, D: Disk + Watched + Drop>(rt: &R) {
    let mut disk: D = loaded(rt);
    let mut index = opened(rt, &mut disk);
    holds(rt, insert_tagged(rt, &mut index, &mut disk) == Ok(33));
    let tags = tags_near(rt, &mut index, &mut disk);
    holds(rt, tags.as_slice() == [32u64, 31, 30, 700].as_slice());
}

#[test]
fn hits_have_their_tags(rt: HostRuntime) {
    check_tagged::<HostRuntime, MemoryDisk>(&rt);
}

// Says whether the two halves of a load by `workers` threads met.
fn has_met<R: AllocGlobal + Abort + Threads + Sync, D: Disk>(
    rt: &R,
    disk: &mut D,
    workers: usize,
) -> bool
    requires some { 1 ≤ workers }
    requires few { workers ≤ 64 }
{
    let seen = Seen::new();
    let metric = Meeting {
        plain: L1::new(1),
        first: &[1],
        second: &[32],
        seen: &seen,
    };
    let mut index = opened_by(rt, disk, metric);
    index.set_workers(workers);
    holds(rt, load(rt, &Threaded::new(rt), &mut index, disk) == Ok(33));
    seen.met()
}

// Loads into an empty index by `workers` threads, and says whether two of them met.
fn meets<R: AllocGlobal + Abort + Threads + Sync, D: Disk + Watched + Drop>(
    rt: &R,
    workers: usize,
) -> bool
    requires some { 1 ≤ workers }
    requires few { workers ≤ 64 }
{
    let mut disk: D = empty_disk(rt, 1_000, None);
    has_met(rt, &mut disk, workers)
}

#[test]
fn two_workers_of_a_load_meet(rt: HostRuntime) {
    holds(&rt, meets::<HostRuntime, MemoryDisk>(&rt, 2));
    holds(&rt, !meets::<HostRuntime, MemoryDisk>(&rt, 1));
}
