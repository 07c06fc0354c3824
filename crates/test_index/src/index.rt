ghost use Rattle.std.specs.Prelude.{◌≡◌, ◌≤◌, IsTrue, IfOk, OnOk};
ghost use Rattle.disk_model.specs.Disk.{IsUnchanged};
ghost use Rattle.index_core.specs.Files.{StandsOn};
ghost use Rattle.index_core.specs.Index.{MayGoOn};

use crate::trial::{holds, index_nearest, index_range, opened};
use disk_model::{Disk, MemoryDisk};
use index_core::{Index, IndexFault, Shape, ShapeLine, View};
use log_model::Found;
use metric_laws::Metric;
use node_page::{Head, HeadFault, Slot, encode_head, encode_slot};
use page_store::PageFault;
use scan_model::Hit;
use shadow_root::OpenFault;
use small_trees::{pad, six_entries, two_leaves};
use std::alloc::{AllocError, Global};
use std::process::Abort;
use tree_shape::Live;
use vector_kinds::L1;

const HEAD: Head = Head {
    version: 2,
    kind: 2,
    dim: 1,
    promote: 2,
    split: 1,
    limit: 16_777_216,
};

// Describes the live tree of the numbers 0 to 32.
const NUMBERS: Live = Live {
    side: 0,
    generation: 34,
    root: 5,
    height: 1,
    count: 33,
    pages: 6,
};

// Describes the live tree of a root whose six entries name one page.
pub(crate) const SIX: Live = Live {
    side: 0,
    generation: 1,
    root: 3,
    height: 1,
    count: 36,
    pages: 5,
};

// Gives the head, the slot of `live`, and a slot that is closed.
#[tactic(auto, unfolding(node_page::specs::Heads::is_version, node_page::specs::Heads::is_space, node_page::specs::Heads::is_policy, node_page::specs::Heads::is_limit))]
pub(crate) fn file_of(alloc: Global, live: &Live) -> Result<Vec<u8>, AllocError> {
    let mut page = [0; 4096];
    encode_head(&HEAD, &mut page);
    let mut bytes = page.to_vec(alloc)?;
    let slot = Slot {
        gate: true,
        generation: live.generation,
        root: live.root,
        height: live.height,
        count: live.count,
        pages: live.pages,
    };
    encode_slot(&slot, &mut page);
    bytes.extend_from_slice(&page)?;
    pad(&mut bytes, 3 * 4096)?;
    Ok(bytes)
}

// Makes a disk of `bytes` whose calls numbered in `fails` fail.
fn disk_of(alloc: Global, bytes: Vec<u8>, fails: &[u64]) -> Result<MemoryDisk, AllocError> {
    let room = bytes.len() as u64;
    MemoryDisk::new(alloc, bytes, room, 100, fails.to_vec(alloc)?, None)
}

// Makes the disk of the numbers 0 to 32 whose calls numbered in `fails` fail.
fn try_numbers(alloc: Global, fails: &[u64]) -> Result<MemoryDisk, AllocError> {
    disk_of(
        alloc,
        two_leaves(alloc, file_of(alloc, &NUMBERS)?, 4)?,
        fails,
    )
}

// Does the same, and ends the test where memory is lacking.
fn numbers(rt: &(impl AllocGlobal + Abort), fails: &[u64]) -> MemoryDisk {
    try_numbers(rt.alloc(), fails).expect(rt, "memory")
}

// Opens a file of points of one coordinate.
fn open_view<D: Disk>(disk: &mut D) -> Result<View<L1>, OpenFault>
    ensures stands { IfOk result (λ view. StandsOn view (D.state disk.new)) }
    ensures same { IsUnchanged (D.state disk.old) (D.state disk.new) }
{
    View::open_read(disk, L1::new(1))
}

// Does the same, and ends the test where the file is refused.
fn view_on<D: Disk>(rt: &impl Abort, disk: &mut D) -> View<L1>
    ensures { StandsOn result (D.state disk.new) }
{
    open_view(disk).expect(rt, "opened")
}

// Looks at the disk behind the view's back.
fn look_aside<D: Disk, M: Metric>(view: &View<M>, disk: &mut D) -> Option<u64>
    requires { StandsOn view.now (D.state disk.old) }
    ensures { StandsOn view.now (D.state disk.new) }
{
    let _metric = view.metric();
    disk.size().ok()
}

// Keeps `nodes` nodes of a view.
fn keep_nodes<D: Disk, M: Metric>(
    rt: &(impl AllocGlobal + Abort),
    view: &mut View<M>,
    disk: &D,
    nodes: usize,
)
    requires stands { StandsOn view.old (D.state disk.now) }
    requires some { 1 ≤ nodes }
    ensures { StandsOn view.new (D.state disk.now) }
{
    let _disk = disk;
    view.use_cache(rt.alloc(), nodes).expect(rt, "memory");
}

// Asks for what lies within `r` of the number `q`.
fn ask_range<D: Disk, M: Metric>(
    rt: &(impl AllocGlobal + Abort),
    view: &mut View<M>,
    disk: &mut D,
    q: u32,
    r: u64,
) -> Result<Found, IndexFault>
    requires { StandsOn view.old (D.state disk.old) }
    ensures { StandsOn view.new (D.state disk.new) }
{
    assert!(rt; view.metric().is_point(&[q]));
    view.range(rt.alloc(), disk, &[q], r)
}

// Says whether a search gave the hits, or the fault, of `expected`.
fn has_hits(found: &Result<Found, IndexFault>, expected: &Result<&[Hit], IndexFault>) -> bool {
    match (found, expected) {
        (Ok(found), Ok(hits)) => found.hits.as_slice() == *hits,
        (Err(fault), Err(other)) => fault == other,
        _ => false,
    }
}

// Checks the answer of a range query for the number and the radius in `at`.
fn check_range<D: Disk, M: Metric>(
    rt: &(impl AllocGlobal + Abort),
    view: &mut View<M>,
    disk: &mut D,
    at: (u32, u64),
    expected: &Result<&[Hit], IndexFault>,
)
    requires { StandsOn view.old (D.state disk.old) }
    ensures { StandsOn view.new (D.state disk.new) }
{
    let (q, r) = at;
    let found = ask_range(rt, view, disk, q, r);
    holds(rt, has_hits(&found, expected));
}

// Asks for the `k` objects nearest to the number `q`.
fn ask_nearest<D: Disk, M: Metric>(
    rt: &(impl AllocGlobal + Abort),
    view: &mut View<M>,
    disk: &mut D,
    q: u32,
    k: u64,
) -> Result<Found, IndexFault>
    requires stands { StandsOn view.old (D.state disk.old) }
    requires some { 1 ≤ k }
    ensures { StandsOn view.new (D.state disk.new) }
{
    assert!(rt; view.metric().is_point(&[q]));
    view.nearest(rt.alloc(), disk, &[q], k)
}

// Says whether `hits` are the numbers below `count`, each at its own distance from 0.
fn are_first(hits: &[Hit], count: usize) -> bool {
    let mut is_so = hits.len() == count;
    for (i, hit) in hits.iter().enumerate() {
        is_so = is_so && hit.id as usize == i && hit.dist == i as u64;
    }
    is_so
}

// Says whether a search gave the numbers below the count, or the fault, of `expected`.
pub(crate) fn has_first(
    found: &Result<Found, IndexFault>,
    expected: &Result<usize, IndexFault>,
) -> bool {
    match (found, expected) {
        (Ok(found), Ok(count)) => are_first(found.hits.as_slice(), *count),
        (Err(fault), Err(other)) => fault == other,
        _ => false,
    }
}

// Checks the answer of a query for the `k` objects nearest to the number `q`.
fn check_nearest<D: Disk, M: Metric>(
    rt: &(impl AllocGlobal + Abort),
    view: &mut View<M>,
    disk: &mut D,
    q: u32,
    k: u64,
    expected: &Result<usize, IndexFault>,
)
    requires stands { StandsOn view.old (D.state disk.old) }
    requires some { 1 ≤ k }
    ensures { StandsOn view.new (D.state disk.new) }
{
    let found = ask_nearest(rt, view, disk, q, k);
    holds(rt, has_first(&found, expected));
}

// Describes a node: its level, its number of entries, and its routing point of one coordinate with the radius.
type Line = (u8, u32, Option<(u32, u64)>);

// Gives the line of a node.
fn line_of(line: &ShapeLine) -> Line {
    let named = match (&line.centre, line.radius) {
        (Some(centre), Some(radius)) => centre.as_slice().first().map(|c| (*c, radius)),
        _ => None,
    };
    (line.level, line.entries, named)
}

// Says whether the nodes in `lines` are those of `expected`.
fn are_lines(lines: &[ShapeLine], expected: &[Line]) -> bool {
    let mut is_so = lines.len() == expected.len();
    for (line, other) in lines.iter().zip(expected) {
        is_so = is_so && line_of(line) == *other;
    }
    is_so
}

// Says whether a shape has this height, this number of objects and these nodes.
fn has_lines(shape: &Shape, height: u32, objects: u32, expected: &[Line]) -> bool {
    let lines = shape.lines.as_slice();
    (shape.height, shape.objects, shape.nodes as usize) == (height, objects, lines.len())
        && are_lines(lines, expected)
}

// Says whether a walk gave the nodes, or the fault, of `expected`.
fn has_shape(
    shape: &Result<Shape, IndexFault>,
    live: &Live,
    expected: &Result<&[Line], IndexFault>,
) -> bool {
    match (shape, expected) {
        (Ok(shape), Ok(lines)) => has_lines(shape, live.height, live.count, lines),
        (Err(fault), Err(other)) => fault == other,
        _ => false,
    }
}

// Checks the shape that a view gives.
fn check_shape<D: Disk, M: Metric>(
    rt: &(impl AllocGlobal + Abort),
    view: &mut View<M>,
    disk: &mut D,
    expected: &Result<&[Line], IndexFault>,
)
    requires { StandsOn view.old (D.state disk.old) }
    ensures { StandsOn view.new (D.state disk.new) }
{
    let live = view.live();
    let shape = view.shape(rt.alloc(), disk);
    holds(rt, has_shape(&shape, &live, expected));
}

// Lists what lies within 2 of 0 among the numbers 0 to 32.
const NEAR: [Hit; 3] = [
    Hit { id: 0, dist: 0 },
    Hit { id: 1, dist: 1 },
    Hit { id: 2, dist: 2 },
];

// Lists the nodes of the tree of the numbers 0 to 32.
const LINES: [Line; 3] = [(1, 2, None), (0, 16, Some((7, 8))), (0, 17, Some((24, 8)))];

#[test]
fn the_numbers_to_32_are_searched(rt: HostRuntime) {
    let mut disk = numbers(&rt, &[]);
    let mut view = view_on(&rt, &mut disk);
    holds(
        &rt,
        (view.count(), view.live(), view.head()) == (33, NUMBERS, HEAD),
    );
    check_range(&rt, &mut view, &mut disk, (0, 2), &Ok(&NEAR));
    check_range(&rt, &mut view, &mut disk, (100, 2), &Ok(&[]));
    check_nearest(&rt, &mut view, &mut disk, 0, 50, &Ok(33));
    holds(&rt, look_aside(&view, &mut disk) == Some(6 * 4096));
    check_nearest(&rt, &mut view, &mut disk, 0, 3, &Ok(3));
    check_shape(&rt, &mut view, &mut disk, &Ok(&LINES));
}

#[test]
fn a_cache_saves_reads(rt: HostRuntime) {
    let mut disk = numbers(&rt, &[]);
    let mut view = view_on(&rt, &mut disk);
    holds(&rt, disk.moments() == 4);
    keep_nodes(&rt, &mut view, &disk, 256);
    check_range(&rt, &mut view, &mut disk, (0, 2), &Ok(&NEAR));
    holds(&rt, disk.moments() == 6);
    check_range(&rt, &mut view, &mut disk, (0, 2), &Ok(&NEAR));
    holds(&rt, disk.moments() == 6);
    check_shape(&rt, &mut view, &mut disk, &Ok(&LINES));
    check_nearest(&rt, &mut view, &mut disk, 0, 50, &Ok(33));
    holds(&rt, disk.moments() == 7);
}

#[test]
fn a_read_that_fails(rt: HostRuntime) {
    let mut disk = numbers(&rt, &[5, 8, 11]);
    let mut view = view_on(&rt, &mut disk);
    check_range(&rt, &mut view, &mut disk, (0, 2), &Err(IndexFault::Disk));
    check_range(&rt, &mut view, &mut disk, (0, 2), &Ok(&NEAR));
    check_nearest(&rt, &mut view, &mut disk, 0, 50, &Err(IndexFault::Disk));
    check_shape(&rt, &mut view, &mut disk, &Err(IndexFault::Disk));
    check_shape(&rt, &mut view, &mut disk, &Ok(&LINES));
}

// Makes the disk of a tree whose root names the page `child` six times.
fn try_damaged(alloc: Global, child: u32) -> Result<MemoryDisk, AllocError> {
    disk_of(
        alloc,
        six_entries(alloc, file_of(alloc, &SIX)?, child)?,
        &[],
    )
}

// Checks that each call refuses that tree, through a cache too.
fn check_damaged(rt: &(impl AllocGlobal + Abort), child: u32, fault: PageFault) {
    let mut disk = try_damaged(rt.alloc(), child).expect(rt, "memory");
    let mut view = view_on(rt, &mut disk);
    let damaged = IndexFault::Damaged(fault);
    check_range(rt, &mut view, &mut disk, (0, 0), &Err(damaged));
    keep_nodes(rt, &mut view, &disk, 2);
    check_range(rt, &mut view, &mut disk, (0, 0), &Err(damaged));
    check_nearest(rt, &mut view, &mut disk, 0, 40, &Err(damaged));
    check_shape(rt, &mut view, &mut disk, &Err(damaged));
}

#[test]
fn a_damaged_file_is_refused(rt: HostRuntime) {
    check_damaged(&rt, 4, PageFault::Repeats(4));
    check_damaged(&rt, 9, PageFault::Outside(9));
}

// Makes the disk of the numbers 0 to 32 whose byte at `at` is changed.
fn try_changed(alloc: Global, at: usize, byte: u8) -> Result<MemoryDisk, AllocError> {
    let mut bytes = two_leaves(alloc, file_of(alloc, &NUMBERS)?, 4)?;
    if at < bytes.len() {
        bytes[at] = byte;
    }
    disk_of(alloc, bytes, &[])
}

// Says why that disk is not opened by a metric of points of `dim` coordinates.
fn refusal(rt: &(impl AllocGlobal + Abort), at: usize, byte: u8, dim: u8) -> Option<OpenFault>
    requires some { 1 ≤ dim }
    requires few { dim ≤ 64 }
{
    let mut disk = try_changed(rt.alloc(), at, byte).expect(rt, "memory");
    View::open_read(&mut disk, L1::new(dim)).err()
}

#[test]
fn a_file_that_is_not_opened(rt: HostRuntime) {
    let version = Some(OpenFault::Head(HeadFault::Version));
    holds(&rt, refusal(&rt, 9, 2, 1) == None);
    holds(&rt, refusal(&rt, 9, 1, 1) == version);
    holds(&rt, refusal(&rt, 9, 1, 2) == version);
    holds(
        &rt,
        refusal(&rt, 9, 2, 2) == Some(OpenFault::Head(HeadFault::Space)),
    );
    holds(&rt, refusal(&rt, 4096, 0, 2) == Some(OpenFault::Unfinished));
}

// Checks each call of an index that only reads, over the numbers 0 to 32.
fn check_index<D: Disk, M: Metric>(
    rt: &(impl AllocGlobal + Abort),
    index: &mut Index<M>,
    disk: &mut D,
)
    requires { MayGoOn index.old (D.state disk.old) }
    ensures { MayGoOn index.new (D.state disk.new) }
{
    holds(
        rt,
        (index.count(), index.live(), index.head()) == (33, NUMBERS, HEAD),
    );
    let found = index_range(rt, index, disk);
    holds(rt, has_hits(&found, &Ok(&NEAR)));
    let found = index_nearest(rt, index, disk, 3);
    holds(rt, has_hits(&found, &Ok(&NEAR)));
    let shape = index.shape(rt.alloc(), disk);
    holds(rt, has_shape(&shape, &NUMBERS, &Ok(&LINES)));
}

// Says why a disk is not opened for writing.
fn open_fault<D: Disk>(disk: &mut D) -> Option<OpenFault> {
    Index::open_write(disk, L1::new(1)).err()
}

// Sets the number of threads of an index, and keeps 256 of its nodes.
fn keep_in_index<D: Disk, M: Metric>(
    rt: &(impl AllocGlobal + Abort),
    index: &mut Index<M>,
    disk: &D,
)
    requires { MayGoOn index.old (D.state disk.now) }
    ensures { MayGoOn index.new (D.state disk.now) }
{
    let _disk = disk;
    index.set_workers(64);
    index.use_cache(rt.alloc(), 256).expect(rt, "memory");
}

#[test]
fn an_index_is_opened_after_a_sync(rt: HostRuntime) {
    let mut disk = numbers(&rt, &[0, 3]);
    holds(&rt, open_fault(&mut disk) == Some(OpenFault::Disk));
    holds(&rt, disk.moments() == 1);
    holds(&rt, open_fault(&mut disk) == Some(OpenFault::Disk));
    let mut index = opened(&rt, &mut disk);
    holds(&rt, disk.moments() == 9);
    keep_in_index(&rt, &mut index, &disk);
    check_index(&rt, &mut index, &mut disk);
    check_index(&rt, &mut index, &mut disk);
    holds(&rt, disk.moments() == 12);
}
