ghost use Rattle.std.specs.Prelude.{◌≡◌, ◌*◌, ◌≤◌, ◌<◌, ◌^◌, All, IsTrue, length, IfOk};
ghost use Rattle.vector_kinds.specs.Vectors.{vector_space};
ghost use Rattle.node_page.specs.Heads.{IsValidHead};
ghost use Rattle.node_page.specs.Opening.{IsValidLive};
ghost use Rattle.page_store.specs.Numbers.{AreNumbers};

use crate::groups::line;
use crate::work::holds;
use bulk_load::{Alone, BuildFault, build};
use meeting::{Meeting, Seen, Threaded};
use metric_laws::Rows;
use node_page::Head;
use page_store::{Placed, Staged};
use std::alloc::{AllocError, Global};
use std::process::Abort;
use std::thread::Threads;
use tree_shape::{
    InnerEntries, InnerRef, LAST_GENERATION, LeafEntries, LeafRef, Live, MOST_PAGES, Node,
};
use vector_kinds::L1;

// Gives a head of one dimension under L1 and of at most `limit` objects.
#[tactic(auto, unfolding(node_page::specs::Heads::is_version, node_page::specs::Heads::is_space, node_page::specs::Heads::is_policy, node_page::specs::Heads::is_limit))]
fn head_of(limit: u32) -> Head
    requires some { 1 ≤ limit }
    requires most { limit ≤ 2 ^ 24 }
    ensures valid { IsValidHead result }
    ensures dim { result.dim ≡ 1 }
    ensures limit { result.limit ≡ limit }
{
    Head {
        version: 2,
        kind: 2,
        dim: 1,
        promote: 2,
        split: 1,
        limit,
    }
}

// Gives a tag for each of `count` rows: 100 and its place.
fn tags_of(alloc: Global, count: u32) -> Result<Vec<u64>, AllocError>
    ensures { IfOk result (λ tags. length tags.items ≡ count) }
{
    let mut tags = Vec::new(alloc);
    for row in 0..count {
        tags.push(100 + u64::from(row))?;
    }
    Ok(tags)
}

// Gives the numbers 0 to 32, each as a point.
fn numbers(rt: &(impl AllocGlobal + Abort)) -> Rows
    ensures points { length result.points ≡ 33 }
    ensures fit { All (λ p. IsTrue ((vector_space 2 1).is_point p)) result.points }
{
    let (rows, _) = line(rt.alloc(), 33, 1).expect(rt, "memory");
    rows
}

// Gives `count` points out of order: row i is (i + 1) * 121509 modulo 65536.
fn scattered(alloc: Global, count: u32) -> Result<Rows, BuildFault>
    ensures points { IfOk result (λ rows. length rows.points ≡ count) }
    ensures fit { IfOk result (λ rows. All (λ p. IsTrue ((vector_space 2 1).is_point p)) rows.points) }
{
    let mut rows = Rows::new(alloc, 1);
    for row in 0..count {
        let x = (u64::from(row) + 1) * 121_509 % 65_536;
        if rows.push(&[x as u32]).is_err() {
            return Err(BuildFault::Memory);
        }
    }
    Ok(rows)
}

// Describes the live tree of an index with no objects, whose root is page 3.
fn empty(generation: u64, pages: u32) -> Live
    ensures { result ≡ record { side = 0; generation = generation; root = 3; height = 0; count = 0; pages = pages } }
{
    Live {
        side: 0,
        generation,
        root: 3,
        height: 0,
        count: 0,
        pages,
    }
}

// Loads rows of one coordinate, with their tags, by threads.
fn load<R: AllocGlobal + Abort + Threads + Sync>(
    rt: &R,
    workers: usize,
    live: &Live,
    numbers: &[u32],
    rows: &Rows,
) -> Result<Placed, BuildFault>
    requires workers { (1 ≤ workers) × (workers ≤ 64) }
    requires some { 0 < length rows.now.points }
    requires few { length rows.now.points ≤ 2 ^ 24 }
    requires fit { All (λ p. IsTrue ((vector_space 2 1).is_point p)) rows.now.points }
    requires live { IsValidLive (length rows.now.points) (live.now.pages * 4096) live.now }
    requires empty { live.now.count ≡ 0 }
    requires numbers { AreNumbers live.now.pages numbers.now }
{
    let count = rows.len() as u32;
    let tags = tags_of(rt.alloc(), count).expect(rt, "memory");
    let head = head_of(count);
    let seen = Seen::new();
    build(
        &Threaded::new(rt),
        rt.alloc(),
        Meeting::of_none(&seen),
        workers,
        &head,
        live,
        numbers,
        rows,
        &tags,
    )
}

// Says whether an entry is the number `number`, below the seed `seed`.
fn is_number(entry: LeafRef, number: u32, seed: u32) -> bool {
    entry.id == number
        && entry.tag == 100 + u64::from(number)
        && entry.parent == u64::from(number.abs_diff(seed))
        && entry.point == [number].as_slice()
}

// Says whether entries are the numbers from `from` up to `to`, below the seed `seed`.
fn are_numbers(entries: &LeafEntries, seed: u32, from: u32, to: u32) -> bool
    requires { from ≤ to }
{
    let count = (to - from) as usize;
    let mut is_so = entries.len() == count;
    for index in 0..entries.len().min(count) {
        is_so = is_so && is_number(entries.at(index), from + index as u32, seed);
    }
    is_so
}

// Says whether a node is a leaf of these numbers.
fn is_leaf(node: &Node, seed: u32, from: u32, to: u32) -> bool
    requires { from ≤ to }
{
    match node {
        Node::Leaf(entries) => are_numbers(entries, seed, from, to),
        Node::Inner { .. } => false,
    }
}

// Says whether an entry has this page, this radius and this seed.
fn is_above(entry: InnerRef, page: u32, radius: u64, seed: u32) -> bool {
    (entry.child, entry.radius, entry.parent) == (page, radius, 0)
        && entry.point == [seed].as_slice()
}

// Says whether entries have these pages, radii and seeds.
fn are_above(entries: &InnerEntries, wanted: &[(u32, u64, u32)]) -> bool {
    let mut is_so = entries.len() == wanted.len();
    for index in 0..entries.len().min(wanted.len()) {
        let (page, radius, seed) = wanted[index];
        is_so = is_so && is_above(entries.at(index), page, radius, seed);
    }
    is_so
}

// Says whether a node is a root over leaves with these pages, radii and seeds.
fn is_root(node: &Node, wanted: &[(u32, u64, u32)]) -> bool {
    match node {
        Node::Inner { level, entries } => *level == 1 && are_above(entries, wanted),
        Node::Leaf(_) => false,
    }
}

// Says whether two leaves have the same entries.
fn are_leaves_same(left: &LeafEntries, right: &LeafEntries) -> bool {
    let mut is_so = left.len() == right.len();
    for index in 0..left.len().min(right.len()) {
        let (a, b) = (left.at(index), right.at(index));
        is_so = is_so && (a.id, a.tag, a.parent) == (b.id, b.tag, b.parent) && a.point == b.point;
    }
    is_so
}

// Says whether two inner nodes have the same entries.
fn are_inner_same(left: &InnerEntries, right: &InnerEntries) -> bool {
    let mut is_so = left.len() == right.len();
    for index in 0..left.len().min(right.len()) {
        let (a, b) = (left.at(index), right.at(index));
        is_so = is_so
            && (a.child, a.radius, a.parent) == (b.child, b.radius, b.parent)
            && a.point == b.point;
    }
    is_so
}

// Says whether two nodes are the same.
fn are_same(left: &Node, right: &Node) -> bool {
    match (left, right) {
        (Node::Leaf(left), Node::Leaf(right)) => are_leaves_same(left, right),
        (
            Node::Inner { level, entries },
            Node::Inner {
                level: other,
                entries: others,
            },
        ) => level == other && are_inner_same(entries, others),
        _ => false,
    }
}

// Says whether the node at `place` is staged for `page`, and is a leaf of these numbers.
fn has_leaf(staged: &Staged, place: usize, page: u32, numbers: (u32, u32), seed: u32) -> bool {
    let (from, to) = numbers;
    place < staged.len()
        && from <= to
        && staged.page_at(place) == page
        && is_leaf(staged.node_at(place), seed, from, to)
}

// Says whether the node at `place` is staged for `page`, and is a root with these entries.
fn has_root(staged: &Staged, place: usize, page: u32, wanted: &[(u32, u64, u32)]) -> bool {
    place < staged.len() && staged.page_at(place) == page && is_root(staged.node_at(place), wanted)
}

// Loads the numbers 0 to 32 into an empty index of four pages.
fn placed_numbers<R: AllocGlobal + Abort + Threads + Sync>(rt: &R) -> Placed {
    let rows = numbers(rt);
    load(rt, 2, &empty(1, 4), &[], &rows).expect(rt, "placed")
}

#[test]
fn children_are_numbered_before_their_parent(rt: HostRuntime) {
    let next = Live {
        side: 1,
        generation: 2,
        root: 8,
        height: 1,
        count: 33,
        pages: 9,
    };
    let placed = placed_numbers(&rt);
    holds(&rt, placed.next == next);
    holds(&rt, placed.left.as_slice() == [3].as_slice());
    holds(&rt, placed.staged.len() == 5);
    holds(&rt, has_leaf(&placed.staged, 0, 4, (0, 6), 0));
    holds(&rt, has_leaf(&placed.staged, 1, 5, (6, 13), 8));
    holds(&rt, has_leaf(&placed.staged, 2, 6, (13, 21), 16));
    holds(&rt, has_leaf(&placed.staged, 3, 7, (21, 33), 24));
    let entries = [(4, 5, 0), (5, 4, 8), (6, 4, 16), (7, 8, 24)];
    holds(&rt, has_root(&placed.staged, 4, 8, &entries));
}

// Says whether the same nodes are staged for the same pages.
fn are_staged_same(left: &Staged, right: &Staged) -> bool {
    let mut is_so = left.len() == right.len();
    for place in 0..left.len().min(right.len()) {
        is_so = is_so
            && left.page_at(place) == right.page_at(place)
            && are_same(left.node_at(place), right.node_at(place));
    }
    is_so
}

// Loads 65536 points out of order in the parts of `workers` workers. The caller makes all of them.
fn placed_alone(rt: &(impl AllocGlobal + Abort), workers: usize) -> Placed
    requires some { 1 ≤ workers }
    requires few { workers ≤ 64 }
{
    let rows = scattered(rt.alloc(), 65_536).expect(rt, "memory");
    let tags = tags_of(rt.alloc(), 65_536).expect(rt, "memory");
    build(
        &Alone,
        rt.alloc(),
        L1::new(1),
        workers,
        &head_of(65_536),
        &empty(1, 4),
        &[],
        &rows,
        &tags,
    )
    .expect(rt, "placed")
}

// Loads 65536 points out of order by `workers` workers.
fn placed_by<R: AllocGlobal + Abort + Threads + Sync>(rt: &R, workers: usize) -> Placed
    requires some { 1 ≤ workers }
    requires few { workers ≤ 64 }
{
    let rows = scattered(rt.alloc(), 65_536).expect(rt, "memory");
    load(rt, workers, &empty(1, 4), &[], &rows).expect(rt, "placed")
}

#[test]
fn any_number_of_workers_gives_the_same_nodes(rt: HostRuntime) {
    let by_one = placed_by(&rt, 1);
    holds(&rt, by_one.next.height == 3);
    for workers in [2usize, 64] {
        let placed = placed_by(&rt, workers);
        holds(&rt, placed.next == by_one.next);
        holds(&rt, are_staged_same(&placed.staged, &by_one.staged));
    }
    let alone = placed_alone(&rt, 64);
    holds(&rt, alone.next == by_one.next);
    holds(&rt, are_staged_same(&alone.staged, &by_one.staged));
}

// Says whether two workers of a load met.
fn has_met<R: AllocGlobal + Abort + Threads + Sync>(rt: &R, workers: usize) -> bool
    requires some { 1 ≤ workers }
    requires few { workers ≤ 64 }
{
    let rows = numbers(rt);
    let tags = tags_of(rt.alloc(), 33).expect(rt, "memory");
    let seen = Seen::new();
    let metric = Meeting {
        plain: L1::new(1),
        first: &[1],
        second: &[32],
        seen: &seen,
    };
    let placed = build(
        &Threaded::new(rt),
        rt.alloc(),
        metric,
        workers,
        &head_of(33),
        &empty(1, 4),
        &[],
        &rows,
        &tags,
    );
    holds(rt, placed.is_ok());
    seen.met()
}

#[test]
fn two_workers_of_a_load_meet(rt: HostRuntime) {
    holds(&rt, has_met(&rt, 2));
    holds(&rt, !has_met(&rt, 1));
}

// Checks that a load is refused.
fn check_fault(rt: &impl Abort, placed: Result<Placed, BuildFault>, wanted: BuildFault) {
    holds(rt, placed.err() == Some(wanted));
}

// Says that a full file needs `needed` pages more.
fn no_room(needed: u32) -> BuildFault {
    BuildFault::NoRoom {
        pages: MOST_PAGES,
        needed,
    }
}

#[test]
fn a_full_file_has_room_for_what_numbers_are_handed_in(rt: HostRuntime) {
    let rows = numbers(&rt);
    let full = empty(1, MOST_PAGES);
    let placed = load(&rt, 1, &full, &[4, 6, 7, 8, 10], &rows).expect(&rt, "placed");
    holds(
        &rt,
        (placed.next.root, placed.next.pages) == (10, MOST_PAGES),
    );
    check_fault(&rt, load(&rt, 1, &full, &[], &rows), no_room(5));
    check_fault(&rt, load(&rt, 1, &full, &[4, 6], &rows), no_room(3));
    let last = empty(LAST_GENERATION, 4);
    check_fault(&rt, load(&rt, 1, &last, &[], &rows), BuildFault::Worn);
}
