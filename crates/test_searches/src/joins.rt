ghost use Rattle.std.specs.Prelude.{◌≤◌, length};

use crate::given::{holds, leaves, six};
use disk_model::{Disk, MemoryDisk};
use log_model::{Joined, Mark};
use metric_join::{JoinFault, join};
use metric_laws::Meter;
use node_page::NodeFault;
use page_store::{DiskPages, ImagePages, PageFault};
use scan_model::Pair;
use small_trees::{Entry, one_leaf, pad};
use std::alloc::{AllocError, Global};
use std::process::Abort;
use tree_shape::Live;
use vector_kinds::L1;

// Makes the object `id` at the number `point`.
const fn at(id: u32, point: u32) -> Entry {
    Entry {
        id,
        tag: 0,
        parent: 0,
        point,
    }
}

// Gives the bytes of a leaf of these objects.
fn leaf(rt: &(impl AllocGlobal + Abort), objects: &[Entry]) -> Vec<u8>
    requires { length objects.now ≤ 32 }
{
    one_leaf(Vec::new(rt.alloc()), objects).expect(rt, "memory")
}

// Gives the numbers 0, 5 and 9.
fn three(rt: &(impl AllocGlobal + Abort)) -> Vec<u8> {
    leaf(rt, &[at(0, 0), at(1, 5), at(2, 9)])
}

// Gives the numbers 4 and 9.
fn two(rt: &(impl AllocGlobal + Abort)) -> Vec<u8> {
    leaf(rt, &[at(0, 4), at(1, 9)])
}

// Describes the live tree with this root and this height below `pages` pages.
fn live(generation: u64, root: u32, height: u32, pages: u32) -> Live {
    Live {
        side: 0,
        generation,
        root,
        height,
        count: 33,
        pages,
    }
}

// Is one side of a join: the file's bytes and the live slot.
#[derive(Clone, Copy)]
struct Side<'a> {
    bytes: &'a [u8],
    live: &'a Live,
}

// Joins two sides of points of one coordinate within `r`. Counts the pages that each side was asked for, and the
// distances computed.
fn ask(
    alloc: Global,
    left: Side,
    right: Side,
    r: u64,
) -> (Result<Joined, JoinFault>, (u64, u64), u64) {
    let mut one = ImagePages::new(left.bytes, 1, left.live.pages.min(100));
    let mut other = ImagePages::new(right.bytes, 1, right.live.pages.min(100));
    let mut ruler = Meter::new(L1::new(1));
    let joined = join(
        alloc, &mut one, &mut other, &mut ruler, left.live, right.live, r,
    );
    (joined, (one.asked, other.asked), ruler.used())
}

// Does so where nothing is refused.
fn joined_of(
    rt: &(impl AllocGlobal + Abort),
    left: Side,
    right: Side,
    r: u64,
) -> (Joined, (u64, u64), u64) {
    let (joined, asked, used) = ask(rt.alloc(), left, right, r);
    (joined.expect(rt, "joined"), asked, used)
}

// Says why a join within 0 is refused.
fn fault_of(alloc: Global, left: Side, right: Side) -> Option<JoinFault> {
    let (joined, _, _) = ask(alloc, left, right, 0);
    joined.err()
}

// Says whether the record at `i` is of page 3 on this side, and has these marks.
fn has_record(joined: &Joined, i: usize, right: bool, marks: &[Mark]) -> bool {
    match joined.log.records.as_slice().get(i) {
        Some(record) => {
            (record.right, record.page) == (right, 3) && record.marks.as_slice() == marks
        }
        None => false,
    }
}

// Counts the marks of one kind.
fn count_in(marks: &[Mark], mark: Mark) -> usize {
    let mut count = 0usize;
    for one in marks {
        if *one == mark {
            count = count.saturating_add(1);
        }
    }
    count
}

// Counts the marks of one kind in all records.
fn count(joined: &Joined, mark: Mark) -> usize {
    let mut all = 0usize;
    for record in joined.log.records.as_slice() {
        all = all.saturating_add(count_in(record.marks.as_slice(), mark));
    }
    all
}

// Lists the pairs of three numbers and two within 1.
const CLOSE: [Pair; 2] = [
    Pair {
        left: 1,
        right: 0,
        dist: 1,
    },
    Pair {
        left: 2,
        right: 1,
        dist: 0,
    },
];

// Joins three numbers and two within 1.
fn three_and_two(rt: &(impl AllocGlobal + Abort)) -> (Joined, (u64, u64), u64) {
    let left = three(rt);
    let right = two(rt);
    let one = Side {
        bytes: &left,
        live: &live(2, 3, 0, 4),
    };
    let other = Side {
        bytes: &right,
        live: &live(5, 3, 0, 4),
    };
    joined_of(rt, one, other, 1)
}

#[test]
fn three_numbers_and_two(rt: HostRuntime) {
    let (joined, asked, used) = three_and_two(&rt);
    holds(&rt, joined.pairs.as_slice() == CLOSE.as_slice());
    holds(&rt, joined.log.answers.as_slice() == CLOSE.as_slice());
    holds(
        &rt,
        (joined.log.left, joined.log.right, joined.log.r) == ((2, 3), (5, 3), 1),
    );
    holds(&rt, (asked, used) == ((2, 4), 6));
    holds(&rt, joined.log.records.as_slice().len() == 4);
    holds(
        &rt,
        has_record(&joined, 0, false, &[Mark::Near, Mark::Near, Mark::Near]),
    );
    holds(&rt, has_record(&joined, 1, true, &[Mark::Far, Mark::Far]));
    holds(&rt, has_record(&joined, 2, true, &[Mark::Near, Mark::Far]));
    holds(&rt, has_record(&joined, 3, true, &[Mark::Far, Mark::Near]));
}

// Joins the numbers 0 to 32 with the number 40 within 8.
fn leaves_and_forty(rt: &(impl AllocGlobal + Abort)) -> (Joined, (u64, u64), u64) {
    let left = leaves(rt, 4);
    let right = leaf(rt, &[at(0, 40)]);
    let one = Side {
        bytes: &left,
        live: &live(34, 5, 1, 6),
    };
    let other = Side {
        bytes: &right,
        live: &live(2, 3, 0, 4),
    };
    joined_of(rt, one, other, 8)
}

// Is the pair of 32 and 40.
const EIGHT_APART: Pair = Pair {
    left: 32,
    right: 0,
    dist: 8,
};

// Joins a left root of rank 2, whose leaves have rank 1, with a right root of rank 1.
#[test]
fn trees_of_heights_one_and_nought(rt: HostRuntime) {
    let (joined, asked, used) = leaves_and_forty(&rt);
    holds(&rt, joined.pairs.as_slice() == [EIGHT_APART].as_slice());
    holds(&rt, joined.log.records.as_slice().len() == 36);
    holds(&rt, (asked, used) == ((6, 34), 33));
}

// Says whether each of `pairs` is of an object with itself.
fn are_same(pairs: &[Pair]) -> bool {
    let mut is_so = true;
    for pair in pairs {
        is_so = is_so && (pair.left, pair.dist) == (pair.right, 0);
    }
    is_so
}

// Joins the numbers 0 to 32 with themselves within 0.
fn with_itself(rt: &(impl AllocGlobal + Abort)) -> (Joined, u64) {
    let bytes = leaves(rt, 4);
    let side = Side {
        bytes: &bytes,
        live: &live(34, 5, 1, 6),
    };
    let (joined, _, used) = joined_of(rt, side, side, 0);
    (joined, used)
}

// Skips those of each leaf's objects that are not as far from the routing point as the other object.
#[test]
fn a_tree_joined_with_itself(rt: HostRuntime) {
    let (joined, used) = with_itself(&rt);
    holds(&rt, joined.pairs.as_slice().len() == 33);
    holds(&rt, are_same(joined.pairs.as_slice()));
    holds(&rt, joined.log.records.as_slice().len() == 38);
    holds(&rt, used == 100);
    holds(&rt, count(&joined, Mark::Far) == 2 + 14 + 16);
    holds(
        &rt,
        count(&joined, Mark::Skip) == 16 * 16 + 17 * 17 - 30 - 33,
    );
}

// Checks that two leaves have no pairs within 9 where one is empty. The log has `records` records.
fn check_no_pairs(rt: &(impl AllocGlobal + Abort), left: &[u8], right: &[u8], records: usize) {
    let tree = live(1, 3, 0, 4);
    let one = Side {
        bytes: left,
        live: &tree,
    };
    let other = Side {
        bytes: right,
        live: &tree,
    };
    let (joined, _, used) = joined_of(rt, one, other, 9);
    holds(rt, joined.pairs.as_slice().len() == 0);
    holds(rt, joined.log.records.as_slice().len() == records);
    holds(rt, used == 0);
}

#[test]
fn a_tree_without_objects(rt: HostRuntime) {
    let some = three(&rt);
    let none = leaf(&rt, &[]);
    check_no_pairs(&rt, &some, &none, 4);
    check_no_pairs(&rt, &none, &some, 1);
    check_no_pairs(&rt, &none, &none, 1);
}

// Gives a tree whose root names the page `child` six times, and whose page 5 holds no node.
fn faulty(rt: &(impl AllocGlobal + Abort), child: u32) -> Vec<u8> {
    let mut bytes = six(rt, child);
    bytes.push(77).expect(rt, "memory");
    pad(&mut bytes, 6 * 4096).expect(rt, "memory");
    bytes
}

// Checks that such a tree of `pages` pages is refused on each side, and on the left first.
fn check_first_walk(
    rt: &(impl AllocGlobal + Abort),
    good: &[u8],
    child: u32,
    pages: u32,
    fault: PageFault,
) {
    let bytes = faulty(rt, child);
    let bad = Side {
        bytes: &bytes,
        live: &live(1, 3, 1, pages),
    };
    let fine = Side {
        bytes: good,
        live: &live(1, 3, 0, 4),
    };
    let left = Some(JoinFault::Left(fault));
    let right = Some(JoinFault::Right(fault));
    holds(rt, fault_of(rt.alloc(), bad, fine) == left);
    holds(rt, fault_of(rt.alloc(), fine, bad) == right);
    holds(rt, fault_of(rt.alloc(), bad, bad) == left);
}

// Reaches page 4 six times, or names a page that the file has not or one that holds no node.
#[test]
fn a_first_walk_is_refused_where_it_meets_a_fault(rt: HostRuntime) {
    let good = three(&rt);
    check_first_walk(&rt, &good, 4, 5, PageFault::Repeats(4));
    check_first_walk(&rt, &good, 9, 5, PageFault::Outside(9));
    check_first_walk(&rt, &good, 5, 6, PageFault::Bad(5, NodeFault::Kind));
}

// Checks the words of a fault.
fn check_words(rt: &(impl AllocGlobal + Abort), fault: JoinFault, dimension: &str) {
    let text = format!(in rt.alloc(); "{}", fault).expect(rt, "memory");
    holds(rt, text.as_str() == dimension);
}

#[test]
fn faults_as_words(rt: HostRuntime) {
    check_words(
        &rt,
        JoinFault::Left(PageFault::Repeats(7)),
        "left: page 7 is reached twice",
    );
    check_words(
        &rt,
        JoinFault::Right(PageFault::Disk),
        "right: a page could not be read",
    );
    check_words(&rt, JoinFault::Memory, "out of memory");
}

// Makes a disk of `bytes` that all calls from `stop` on fail.
fn try_disk(alloc: Global, bytes: Vec<u8>, stop: Option<u64>) -> Result<MemoryDisk, AllocError> {
    let room = (bytes.len() as u64).max(65536);
    MemoryDisk::new(alloc, bytes, room, 100, Vec::new(alloc), stop)
}

// Does the same, and ends the test where memory is lacking.
fn disk_of(rt: &(impl AllocGlobal + Abort), bytes: Vec<u8>, stop: Option<u64>) -> MemoryDisk {
    try_disk(rt.alloc(), bytes, stop).expect(rt, "memory")
}

// Says why a join of two leaves on disks is refused.
fn fault_on<D: Disk, E: Disk>(alloc: Global, left: &mut D, right: &mut E) -> Option<JoinFault> {
    let tree = live(1, 3, 0, 4);
    let mut one = DiskPages::new(left, 1, 4);
    let mut other = DiskPages::new(right, 1, 4);
    let mut ruler = Meter::new(L1::new(1));
    join(alloc, &mut one, &mut other, &mut ruler, &tree, &tree, 1).err()
}

// Says why a join of three numbers and two is refused, where each disk fails from a call on.
fn refusal(
    rt: &(impl AllocGlobal + Abort),
    left_stop: Option<u64>,
    right_stop: Option<u64>,
) -> Option<JoinFault> {
    let mut left = disk_of(rt, three(rt), left_stop);
    let mut right = disk_of(rt, two(rt), right_stop);
    fault_on(rt.alloc(), &mut left, &mut right)
}

// Reads one page of each side in the first walk. Then the walk of pairs reads one left page, and the right one for each
// object.
#[test]
fn a_disk_that_fails(rt: HostRuntime) {
    let left = Some(JoinFault::Left(PageFault::Disk));
    let right = Some(JoinFault::Right(PageFault::Disk));
    holds(&rt, refusal(&rt, Some(0), None) == left);
    holds(&rt, refusal(&rt, None, Some(0)) == right);
    holds(&rt, refusal(&rt, Some(1), None) == left);
    holds(&rt, refusal(&rt, None, Some(1)) == right);
    holds(&rt, refusal(&rt, None, Some(3)) == right);
    holds(&rt, refusal(&rt, Some(2), Some(4)) == None);
}
