ghost use Rattle.std.specs.Prelude.{◌≡◌, ◌*◌, ◌^◌, ◌≤◌, IfOk};
ghost use Rattle.std.specs.List.{AllByRecursion};
ghost use Rattle.node_page.specs.Heads.{IsValidHead};
ghost use Rattle.node_page.specs.Nodes.{IsValidNode};
ghost use Rattle.node_page.specs.Opening.{IsValidLive};
ghost use Rattle.page_store.specs.Reading.{IsWithin, nodes_of, reading};
ghost use Rattle.page_store.specs.Numbers.{AreNumbers};
ghost use Rattle.page_store.specs.Placing.{AreOutside};

use crate::work::holds;
use insert_path::{PlaceFault, place};
use metric_laws::{Meter, Ruler};
use node_page::{Head, encode_node};
use page_store::{ImagePages, PageFault, Placed, Staged, own_node};
use std::process::Abort;
use tree_shape::{InnerEntries, InnerRef, Live, Node};
use vector_kinds::L1;

// Is an index file in memory, without its head and slots.
#[derive(Drop)]
struct File {
    bytes: Vec<u8>,
    live: Live,
}

// Gives a head of one dimension under L1 and of at most `limit` objects, with the promotion mM_RAD and the hyperplane.
#[tactic(auto, unfolding(node_page::specs::Heads::is_version, node_page::specs::Heads::is_space, node_page::specs::Heads::is_policy, node_page::specs::Heads::is_limit))]
fn head_of(limit: u32) -> Head
    requires some { 1 ≤ limit }
    requires most { limit ≤ 2 ^ 24 }
    ensures valid { IsValidHead result }
    ensures dim { result.dim ≡ 1 }
    ensures limit { result.limit ≡ limit }
{
    Head {
        version: 2,
        kind: 2,
        dim: 1,
        promote: 2,
        split: 1,
        limit,
    }
}

// Writes a node into its page.
fn write_node(rt: &impl Abort, bytes: &mut [u8], dim: u8, page: u32, node: &Node)
    requires some { 1 ≤ dim }
    requires few { dim ≤ 64 }
    requires valid { IsValidNode dim node.now }
{
    let mut buffer = [0; 4096];
    encode_node(node, dim, &mut buffer);
    let at = page as usize * 4096;
    assert!(rt; at + 4096 <= bytes.len());
    bytes[at..at + 4096].copy_from_slice(&buffer);
}

// Writes the staged nodes.
fn write_staged(rt: &impl Abort, bytes: &mut [u8], dim: u8, next: &Live, staged: &Staged)
    requires some { 1 ≤ dim }
    requires few { dim ≤ 64 }
    requires valid { AllByRecursion (λ s. IsWithin next.now.pages s.page × IsValidNode dim s.node) staged.now }
{
    for i in 0..staged.len() {
        let page = staged.page_at(i);
        let node = staged.node_at(i);
        write_node(rt, bytes, dim, page, node);
    }
}

// Places an object at `x` over the file.
fn place_at(
    rt: &(impl AllocGlobal + Abort),
    file: &File,
    head: &Head,
    numbers: &[u32],
    x: u32,
) -> Result<Placed, PlaceFault>
    requires head { IsValidHead head.now }
    requires dim { head.now.dim ≡ 1 }
    requires live { IsValidLive head.now.limit (file.now.live.pages * 4096) file.now.live }
    requires numbers { AreNumbers file.now.live.pages numbers.now }
    requires outside { AreOutside (nodes_of (reading head.now.dim file.now.live.pages file.now.bytes.items)) file.now.live numbers.now }
    ensures nodes { IfOk result (λ placed.
        AllByRecursion (λ s. IsWithin placed.next.pages s.page × IsValidNode head.now.dim s.node) placed.staged) }
    ensures valid { IfOk result (λ placed. IsValidLive head.now.limit (placed.next.pages * 4096) placed.next) }
{
    let mut ruler = Meter::new(L1::new(head.dim));
    let point = [x];
    assert!(rt; ruler.is_point(&point));
    let mut pages = ImagePages::new(&file.bytes, head.dim, file.live.pages);
    let placed = place(
        rt.alloc(),
        &mut pages,
        &mut ruler,
        head,
        &file.live,
        numbers,
        &point,
        100,
    );
    let most = u64::from(file.live.height) + 1;
    holds(rt, placed.is_err() || pages.asked <= most);
    placed
}

// Inserts an object at `x` into the file.
fn insert(rt: &(impl AllocGlobal + Abort), file: &mut File, head: &Head, numbers: &[u32], x: u32)
    requires head { IsValidHead head.now }
    requires dim { head.now.dim ≡ 1 }
    requires live { IsValidLive head.now.limit (file.old.live.pages * 4096) file.old.live }
    requires numbers { AreNumbers file.old.live.pages numbers.now }
    requires outside { AreOutside (nodes_of (reading head.now.dim file.old.live.pages file.old.bytes.items)) file.old.live numbers.now }
    ensures { IsValidLive head.now.limit (file.new.live.pages * 4096) file.new.live }
{
    let placed = place_at(rt, file, head, numbers, x).expect(rt, "placed");
    write_staged(rt, &mut file.bytes, head.dim, &placed.next, &placed.staged);
    file.live = placed.next;
}

// Inserts an object at `x` into a tree of one leaf on page 3 or 4, and gives the new node the other one.
fn insert_low(rt: &(impl AllocGlobal + Abort), file: &mut File, head: &Head, x: u32)
    requires head { IsValidHead head.now }
    requires dim { head.now.dim ≡ 1 }
    requires live { IsValidLive head.now.limit (file.old.live.pages * 4096) file.old.live }
    ensures { IsValidLive head.now.limit (file.new.live.pages * 4096) file.new.live }
{
    assert!(rt; file.live.height == 0);
    if file.live.pages == 4 {
        return insert(rt, file, head, &[], x);
    }
    let free = if file.live.root == 3 { 4 } else { 3 };
    insert(rt, file, head, &[free], x);
}

// Gives a new file: an empty leaf on page 3, and room for more.
fn new_file(rt: &(impl AllocGlobal + Abort)) -> File
    ensures live { result.live ≡ record { side = 0; generation = 1; root = 3; height = 0; count = 0; pages = 4 } }
{
    let bytes = vec![in rt.alloc(); 0u8; 327_680].expect(rt, "memory");
    let live = Live {
        side: 0,
        generation: 1,
        root: 3,
        height: 0,
        count: 0,
        pages: 4,
    };
    File { bytes, live }
}

// Gives the node of a page.
fn node_of(rt: &(impl AllocGlobal + Abort), file: &File, page: u32) -> Node
    requires { file.now.live.pages ≤ 2 ^ 24 }
{
    let mut pages = ImagePages::new(&file.bytes, 1, file.live.pages);
    own_node(rt.alloc(), &mut pages, page).expect(rt, "a node")
}

// Says what an entry of a root should say of its leaf.
#[derive(Clone, Copy)]
struct Wanted {
    child: u32,
    radius: u64,
    point: u32,
    count: usize,
}

// Says whether an entry of a root is this one.
fn is_entry(entry: InnerRef, wanted: &Wanted) -> bool {
    (entry.child, entry.radius, entry.parent) == (wanted.child, wanted.radius, 0)
        && entry.point == [wanted.point].as_slice()
}

// Says whether a node is a root above leaves, with these entries.
fn is_root(node: &Node, wanted: &[Wanted]) -> bool {
    match node {
        Node::Inner { level, entries } => *level == 1 && are_entries(entries, wanted),
        Node::Leaf(_) => false,
    }
}

// Says whether a root's entries are these.
fn are_entries(entries: &InnerEntries, wanted: &[Wanted]) -> bool {
    let mut is_so = entries.len() == wanted.len();
    for index in 0..entries.len().min(wanted.len()) {
        is_so = is_so && is_entry(entries.at(index), &wanted[index]);
    }
    is_so
}

// Counts the objects of a leaf.
fn objects_of(node: &Node) -> Option<usize> {
    match node {
        Node::Leaf(entries) => Some(entries.len()),
        Node::Inner { .. } => None,
    }
}

// Checks the number of objects in a leaf.
fn check_leaf(rt: &(impl AllocGlobal + Abort), file: &File, wanted: &Wanted)
    requires { file.now.live.pages ≤ 2 ^ 24 }
{
    let node = node_of(rt, file, wanted.child);
    holds(rt, objects_of(&node) == Some(wanted.count));
}

// Checks a root above leaves, and the numbers of objects in them.
fn check_root(rt: &(impl AllocGlobal + Abort), file: &File, wanted: &[Wanted])
    requires { file.now.live.pages ≤ 2 ^ 24 }
{
    let root = node_of(rt, file, file.live.root);
    holds(rt, is_root(&root, wanted));
    for one in wanted {
        check_leaf(rt, file, one);
    }
}

// Checks a refusal.
fn check_fault(rt: &impl Abort, placed: Result<Placed, PlaceFault>, wanted: PlaceFault) {
    holds(rt, placed.err() == Some(wanted));
}

// Makes an entry that should stand in a root.
const fn leaf(child: u32, radius: u64, point: u32, count: usize) -> Wanted {
    Wanted {
        child,
        radius,
        point,
        count,
    }
}

#[test]
fn the_33rd_number_splits_the_leaf(rt: HostRuntime) {
    let head = head_of(64);
    let mut file = new_file(&rt);
    for x in 0..32 {
        insert_low(&rt, &mut file, &head, x);
    }
    holds(&rt, (file.live.root, file.live.pages) == (3, 5));
    insert_low(&rt, &mut file, &head, 32);
    let live = Live {
        side: 1,
        generation: 34,
        root: 6,
        height: 1,
        count: 33,
        pages: 7,
    };
    holds(&rt, file.live == live);
    let leaves = [leaf(4, 8, 7, 16), leaf(5, 8, 24, 17)];
    check_root(&rt, &file, &leaves);
}

#[test]
fn forty_equal_points_fill_three_leaves(rt: HostRuntime) {
    let head = head_of(64);
    let mut file = new_file(&rt);
    for _x in 0..40 {
        insert(&rt, &mut file, &head, &[], 5);
    }
    holds(&rt, (file.live.height, file.live.root) == (1, 53));
    let leaves = [leaf(52, 0, 5, 28), leaf(37, 0, 5, 6), leaf(50, 0, 5, 6)];
    check_root(&rt, &file, &leaves);
}

#[test]
fn each_refusal_has_its_cause(rt: HostRuntime) {
    let head = head_of(3);
    let mut file = new_file(&rt);
    file.live.pages = 16_777_216;
    let fault = PlaceFault::NoRoom {
        pages: 16_777_216,
        needed: 1,
    };
    check_fault(&rt, place_at(&rt, &file, &head, &[], 1), fault);
    let placed = place_at(&rt, &file, &head, &[4], 1).expect(&rt, "placed");
    holds(
        &rt,
        (placed.next.root, placed.next.pages) == (4, 16_777_216),
    );
    file.live.pages = 4;
    file.live.height = 1;
    let fault = PlaceFault::Page(PageFault::Level(3));
    check_fault(&rt, place_at(&rt, &file, &head, &[], 1), fault);
    file.live.generation = 281_474_976_710_655;
    let worn = PlaceFault::Worn;
    check_fault(&rt, place_at(&rt, &file, &head, &[], 1), worn);
    file.live.count = 3;
    let full = PlaceFault::Full;
    check_fault(&rt, place_at(&rt, &file, &head, &[], 1), full);
}
