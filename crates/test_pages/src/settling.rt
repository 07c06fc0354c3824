ghost use Rattle.std.specs.Prelude.{◌≡◌, ◌≤◌, ◌^◌, length, IfOk};

use crate::caches::holds;
use page_store::{NewTree, Numbering, Placed, RoomFault, Staged, settle};
use std::alloc::{AllocError, Global};
use std::process::Abort;
use tree_shape::{LeafEntries, Live, Node};

// Makes three empty leaves. The last is the root.
fn three_leaves(alloc: Global, root: u32) -> Result<NewTree, AllocError>
    ensures { IfOk result (λ tree. (length tree.nodes.items ≡ 3) × (tree.root ≡ root) × (tree.height ≡ 0) × (tree.added ≡ 5)) }
{
    let mut nodes = Vec::new(alloc);
    nodes.push(Node::Leaf(LeafEntries::new(Vec::new(alloc))))?;
    nodes.push(Node::Leaf(LeafEntries::new(Vec::new(alloc))))?;
    nodes.push(Node::Leaf(LeafEntries::new(Vec::new(alloc))))?;
    Ok(NewTree {
        nodes,
        root,
        height: 0,
        added: 5,
        left: Vec::new(alloc),
    })
}

// Describes a live tree of two objects in a file of `pages` pages.
fn live_of(pages: u32) -> Live
    ensures { (result.pages ≡ pages) × (result.count ≡ 2) × (result.generation ≡ 7) }
{
    Live {
        side: 1,
        generation: 7,
        root: 3,
        height: 0,
        count: 2,
        pages,
    }
}

// Settles three leaves on the pages 4, 7 and then at the file's end.
fn settled(alloc: Global, pages: u32) -> Result<Placed, RoomFault>
    requires low { 9 ≤ pages }
    requires high { pages ≤ 2 ^ 24 }
{
    let numbers = [4, 7];
    let numbering = Numbering {
        numbers: &numbers,
        first: pages,
    };
    let Ok(tree) = three_leaves(alloc, pages) else {
        return Err(RoomFault::Memory);
    };
    settle(alloc, &numbering, &live_of(pages), tree)
}

// Says whether the nodes are staged for `pages` in turn.
fn are_staged(staged: &Staged, pages: &[u32]) -> bool {
    let mut is_so = staged.len() == pages.len();
    for place in 0..staged.len().min(pages.len()) {
        is_so = is_so && staged.page_at(place) == pages[place];
    }
    is_so
}

// Settles the leaves in a file of nine pages.
fn check_settled(rt: &(impl AllocGlobal + Abort)) {
    let placed = settled(rt.alloc(), 9).expect(rt, "settled");
    holds(rt, are_staged(&placed.staged, &[4, 7, 9]));
    let next = Live {
        side: 0,
        generation: 8,
        root: 9,
        height: 0,
        count: 7,
        pages: 10,
    };
    holds(rt, placed.next == next);
}

// Settles the leaves in a file that has room for one page more, and gives its pages then.
fn last_pages(rt: &(impl AllocGlobal + Abort)) -> u32 {
    let placed = settled(rt.alloc(), 16_777_215).expect(rt, "settled");
    placed.next.pages
}

#[test]
fn new_nodes_get_the_numbers_and_then_pages_from_the_end(rt: HostRuntime) {
    check_settled(&rt);
    let full = RoomFault::NoRoom {
        pages: 16_777_216,
        needed: 1,
    };
    holds(&rt, settled(rt.alloc(), 16_777_216).err() == Some(full));
    holds(&rt, last_pages(&rt) == 16_777_216);
}
