// Shares what tests of writing calls need: disks that stop, indexes on them, and what a crash leaves of them.
ghost use Rattle.std.specs.Prelude.{◌≡◌, ◌≤◌, ◌^◌, IfOk, OnOk};
ghost use Rattle.node_page.specs.Heads.{IsValidHead};
ghost use Rattle.index_core.specs.Index.{MayGoOn};

use crate::index::{file_of, has_first};
use disk_model::{Disk, MemoryDisk};
use index_core::{Index, IndexFault};
use log_model::Found;
use metric_laws::Metric;
use node_page::Head;
use shadow_root::{OpenFault, create};
use small_trees::pad;
use std::alloc::{AllocError, Global};
use std::process::Abort;
use tree_shape::{LAST_GENERATION, Live};
use vector_kinds::L1;

// Ends a test in which `is_so` is false.
pub(crate) fn holds(rt: &impl Abort, is_so: bool) {
    assert!(rt; is_so);
}

// Is a disk that tests make, and whose calls, bytes and images they see. Tests are generic over it, so that no proof of
// theirs looks into its state.
pub(crate) trait Watched: Sized {
    // Makes a disk of `bytes` with room for sixteen pages. The calls numbered in `fails` fail, and all from `stop` on.
    fn of(
        alloc: Global,
        bytes: Vec<u8>,
        fails: &[u64],
        stop: Option<u64>,
    ) -> Result<Self, AllocError>;

    // Counts the calls made.
    fn calls(&self) -> u64;

    // Gives what a read gives.
    fn file(&self) -> &[u8];

    // Gives a file that a crash within the call `moment`, or after the last one, may leave.
    fn left(&self, alloc: Global, moment: u64, pick: u64) -> Result<Vec<u8>, AllocError>;
}

impl Watched for MemoryDisk {
    fn of(
        alloc: Global,
        bytes: Vec<u8>,
        fails: &[u64],
        stop: Option<u64>,
    ) -> Result<Self, AllocError> {
        let room = (bytes.len() as u64).max(1 << 16);
        MemoryDisk::new(alloc, bytes, room, 1 << 22, fails.to_vec(alloc)?, stop)
    }

    fn calls(&self) -> u64 {
        self.moments()
    }

    fn file(&self) -> &[u8] {
        self.bytes()
    }

    fn left(&self, alloc: Global, moment: u64, pick: u64) -> Result<Vec<u8>, AllocError> {
        self.image(alloc, moment.min(self.moments()), pick)
    }
}

// Makes a disk of `bytes` that all calls from `stop` on fail.
pub(crate) fn disk_of<D: Watched>(
    rt: &(impl AllocGlobal + Abort),
    bytes: Vec<u8>,
    stop: Option<u64>,
) -> D {
    D::of(rt.alloc(), bytes, &[], stop).expect(rt, "memory")
}

// Copies the bytes of a disk.
pub(crate) fn copied<D: Watched>(rt: &(impl AllocGlobal + Abort), disk: &D) -> Vec<u8> {
    disk.file().to_vec(rt.alloc()).expect(rt, "memory")
}

// Makes a disk of a copy of `bytes` that all calls from `stop` on fail.
pub(crate) fn stopping<D: Watched>(
    rt: &(impl AllocGlobal + Abort),
    bytes: &[u8],
    stop: Option<u64>,
) -> D {
    disk_of(rt, bytes.to_vec(rt.alloc()).expect(rt, "memory"), stop)
}

// Gives a file that a crash within the call `moment` may leave.
fn left_at<D: Watched>(
    rt: &(impl AllocGlobal + Abort),
    disk: &D,
    moment: u64,
    pick: u64,
) -> Vec<u8> {
    disk.left(rt.alloc(), moment, pick).expect(rt, "memory")
}

// Makes a disk of what a crash after the last call leaves.
pub(crate) fn crashed<D: Watched>(rt: &(impl AllocGlobal + Abort), disk: &D, pick: u64) -> D {
    disk_of(rt, left_at(rt, disk, disk.calls(), pick), None)
}

// Says whether a crash within the call `moment` leaves the pages from the fourth to the eighth as they are in `before`.
pub(crate) fn keeps_middle<D: Watched>(
    rt: &(impl AllocGlobal + Abort),
    disk: &D,
    moment: u64,
    pick: u64,
    before: &[u8],
) -> bool {
    middle(left_at(rt, disk, moment, pick).as_slice()) == middle(before)
}

// Gives the pages from the fourth to the eighth.
fn middle(bytes: &[u8]) -> Option<&[u8]> {
    bytes.get(4 * 4096..9 * 4096)
}

// Gives a head of points of one coordinate under L1 and of at most `limit` objects.
#[tactic(auto, unfolding(node_page::specs::Heads::is_version, node_page::specs::Heads::is_space, node_page::specs::Heads::is_policy, node_page::specs::Heads::is_limit))]
pub(crate) fn head_of(limit: u32) -> Head
    requires some { 1 ≤ limit }
    requires most { limit ≤ 2 ^ 24 }
    ensures valid { IsValidHead result }
    ensures version { result.version ≡ 2 }
{
    Head {
        version: 2,
        kind: 2,
        dim: 1,
        promote: 2,
        split: 1,
        limit,
    }
}

// Makes an index that has no objects and may have `limit` objects.
fn make_on<D: Disk>(rt: &impl Abort, disk: &mut D, limit: u32)
    requires some { 1 ≤ limit }
    requires most { limit ≤ 2 ^ 24 }
{
    create(disk, &head_of(limit)).expect(rt, "made");
}

// Makes a disk of an index that has no objects and may have `limit` objects. All calls from `stop` on fail.
pub(crate) fn empty_disk<D: Disk + Watched + Drop>(
    rt: &(impl AllocGlobal + Abort),
    limit: u32,
    stop: Option<u64>,
) -> D
    requires some { 1 ≤ limit }
    requires most { limit ≤ 2 ^ 24 }
{
    let mut disk: D = disk_of(rt, Vec::new(rt.alloc()), None);
    make_on(rt, &mut disk, limit);
    disk_of(rt, copied(rt, &disk), stop)
}

// Gives the bytes of an index that has no objects and no further generation.
fn worn_file(alloc: Global) -> Result<Vec<u8>, AllocError> {
    let last = Live {
        side: 0,
        generation: LAST_GENERATION,
        root: 3,
        height: 0,
        count: 0,
        pages: 4,
    };
    let mut bytes = file_of(alloc, &last)?;
    pad(&mut bytes, 4 * 4096)?;
    Ok(bytes)
}

// Makes a disk of that index.
pub(crate) fn worn_disk<D: Watched>(rt: &(impl AllocGlobal + Abort)) -> D {
    disk_of(rt, worn_file(rt.alloc()).expect(rt, "memory"), None)
}

// Opens a file of points of one coordinate for writing.
fn open_on<D: Disk>(disk: &mut D) -> Result<Index<L1>, OpenFault>
    ensures { IfOk result (λ index. MayGoOn index (D.state disk.new)) }
{
    Index::open_write(disk, L1::new(1))
}

// Does the same, and ends the test where the file is refused.
pub(crate) fn opened<D: Disk>(rt: &impl Abort, disk: &mut D) -> Index<L1>
    ensures { MayGoOn result (D.state disk.new) }
{
    open_on(disk).expect(rt, "opened")
}

// Inserts the number `x`.
pub(crate) fn insert<D: Disk, M: Metric>(
    rt: &(impl AllocGlobal + Abort),
    index: &mut Index<M>,
    disk: &mut D,
    x: u32,
) -> Result<u32, IndexFault>
    requires { MayGoOn index.old (D.state disk.old) }
    ensures { MayGoOn index.new (D.state disk.new) }
{
    assert!(rt; index.metric().is_point(&[x]));
    index.insert(rt.alloc(), disk, &[x])
}

// Inserts the numbers from `from` up to `to`, which are their ids.
pub(crate) fn insert_all<D: Disk, M: Metric>(
    rt: &(impl AllocGlobal + Abort),
    index: &mut Index<M>,
    disk: &mut D,
    from: u32,
    to: u32,
)
    requires { MayGoOn index.old (D.state disk.old) }
    ensures { MayGoOn index.new (D.state disk.new) }
{
    for x in from..to {
        holds(rt, insert(rt, index, disk, x) == Ok(x));
    }
}

// Asks an index for what lies within 2 of 0.
pub(crate) fn index_range<D: Disk, M: Metric>(
    rt: &(impl AllocGlobal + Abort),
    index: &mut Index<M>,
    disk: &mut D,
) -> Result<Found, IndexFault>
    requires { MayGoOn index.old (D.state disk.old) }
    ensures { MayGoOn index.new (D.state disk.new) }
{
    assert!(rt; index.metric().is_point(&[0]));
    index.range(rt.alloc(), disk, &[0], 2)
}

// Asks an index for the `k` objects nearest to 0.
pub(crate) fn index_nearest<D: Disk, M: Metric>(
    rt: &(impl AllocGlobal + Abort),
    index: &mut Index<M>,
    disk: &mut D,
    k: u64,
) -> Result<Found, IndexFault>
    requires goes_on { MayGoOn index.old (D.state disk.old) }
    requires some { 1 ≤ k }
    ensures { MayGoOn index.new (D.state disk.new) }
{
    assert!(rt; index.metric().is_point(&[0]));
    index.nearest(rt.alloc(), disk, &[0], k)
}

// Checks that all objects are found, which are the numbers below their count.
pub(crate) fn check_found<D: Disk, M: Metric>(
    rt: &(impl AllocGlobal + Abort),
    index: &mut Index<M>,
    disk: &mut D,
)
    requires { MayGoOn index.old (D.state disk.old) }
    ensures { MayGoOn index.new (D.state disk.new) }
{
    let count = index.count() as usize;
    let found = index_nearest(rt, index, disk, 200);
    holds(rt, has_first(&found, &Ok(count)));
}

// Opens a disk anew, checks that all objects are found, and counts them.
pub(crate) fn count_on<D: Disk>(rt: &(impl AllocGlobal + Abort), disk: &mut D) -> u32 {
    let mut index = opened(rt, disk);
    check_found(rt, &mut index, disk);
    index.count()
}

// Counts the objects that a crash within the call `moment` leaves.
fn count_at<D: Disk + Watched + Drop>(
    rt: &(impl AllocGlobal + Abort),
    disk: &D,
    moment: u64,
    pick: u64,
) -> u32 {
    let mut image: D = disk_of(rt, left_at(rt, disk, moment, pick), None);
    count_on(rt, &mut image)
}

// Says whether a crash may leave `count` objects: those after a call, and those before it where it is not done.
fn may_leave(count: u32, counts: (u32, u32), done: bool) -> bool {
    let (before, after) = counts;
    count == after || (count == before && !done)
}

// Checks that at each moment from `began` on a crash leaves one of the two `counts`. Where the call is `done`, the last
// moment leaves the second.
pub(crate) fn check_images<D: Disk + Watched + Drop>(
    rt: &(impl AllocGlobal + Abort),
    disk: &D,
    began: u64,
    counts: (u32, u32),
    done: bool,
) {
    let ended = disk.calls();
    for moment in began..=ended {
        for pick in [0, 1, 165, 255] {
            let count = count_at(rt, disk, moment, pick);
            holds(rt, may_leave(count, counts, done && moment == ended));
        }
    }
}

// Says why an index refuses a range query.
fn range_fault<D: Disk, M: Metric>(
    rt: &(impl AllocGlobal + Abort),
    index: &mut Index<M>,
    disk: &mut D,
) -> Option<IndexFault>
    requires { MayGoOn index.old (D.state disk.old) }
    ensures { MayGoOn index.new (D.state disk.new) }
{
    index_range(rt, index, disk).err()
}

// Says why an index refuses a query for the nearest.
fn nearest_fault<D: Disk, M: Metric>(
    rt: &(impl AllocGlobal + Abort),
    index: &mut Index<M>,
    disk: &mut D,
) -> Option<IndexFault>
    requires { MayGoOn index.old (D.state disk.old) }
    ensures { MayGoOn index.new (D.state disk.new) }
{
    index_nearest(rt, index, disk, 2).err()
}

// Says why an index does not give its shape.
fn shape_fault<D: Disk, M: Metric>(
    alloc: Global,
    index: &mut Index<M>,
    disk: &mut D,
) -> Option<IndexFault>
    requires { MayGoOn index.old (D.state disk.old) }
    ensures { MayGoOn index.new (D.state disk.new) }
{
    index.shape(alloc, disk).err()
}

// Checks that after a commit that failed nothing goes on, and that the disk is left alone.
pub(crate) fn check_stopped<D: Disk + Watched, M: Metric>(
    rt: &(impl AllocGlobal + Abort),
    index: &mut Index<M>,
    disk: &mut D,
)
    requires { MayGoOn index.old (D.state disk.old) }
{
    let stopped = IndexFault::Stopped;
    let calls = disk.calls();
    holds(rt, insert(rt, index, disk, 7) == Err(stopped));
    holds(rt, range_fault(rt, index, disk) == Some(stopped));
    holds(rt, nearest_fault(rt, index, disk) == Some(stopped));
    holds(rt, shape_fault(rt.alloc(), index, disk) == Some(stopped));
    holds(rt, index.pin(rt.alloc(), disk) == Err(stopped));
    holds(rt, disk.calls() == calls);
}
