ghost use Rattle.std.specs.Prelude.{◌≡◌, ◌≢◌, ◌+◌, ◌-◌, ◌*◌, ◌≤◌, ◌<◌, ◌^◌, [], length, reverse, ℕ, IfOk, IfErr, OnOk};
ghost use Rattle.std.specs.List.{AllByRecursion};
ghost use Rattle.node_page.specs.Nodes.{IsValidNode};
ghost use Rattle.node_page.specs.Opening.{IsValidLive};
ghost use Rattle.node_page.specs.declared.head.Head.{Head};
ghost use Rattle.page_store.specs.Numbers.{number_at, numbered, AreNumbers};
ghost use Rattle.page_store.specs.Placing.{HasRoomCause, IsPlacement};
ghost use Rattle.page_store.specs.declared.settling.RoomFault.TheVariants.{Memory as NoMemory};

use crate::numbering::Numbering;
use crate::staging::{Placed, Staged};
use metric_laws::Listed;
use std::alloc::{AllocError, Global};
use thiserror::Error;
use tree_shape::{Live, MOST_PAGES, Node};

/// A tree whose new nodes have no pages yet.
#[derive(Drop)]
pub struct NewTree {
    /// The new nodes, in the order in which they get their pages.
    pub nodes: Vec<Node>,
    /// The root's page.
    pub root: u32,
    /// The root's level.
    pub height: u32,
    /// The number of objects that the tree has more than the old one.
    pub added: u32,
    /// The pages of the old tree that are not in this tree.
    pub left: Vec<u32>,
}

/// Why new nodes could not get pages.
#[derive(Clone, Copy, Debug, PartialEq, Eq, Error)]
pub enum RoomFault {
    /// The new nodes need `needed` pages after `pages`, more than the file may have.
    #[error("no room for {needed} pages after {pages}")]
    NoRoom { pages: u32, needed: u32 },
    /// Memory ran out.
    #[error("out of memory")]
    Memory,
}

impl From<AllocError> for RoomFault {
    ghost from_gives = { λ _ fault. fault ≡ NoMemory };

    fn from(_error: AllocError) -> RoomFault {
        RoomFault::Memory
    }
}

// Stages the nodes, each on its page. They are given in reverse order.
fn stage_all(
    numbering: &Numbering<'_>,
    nodes: &mut Vec<Node>,
    staged: &mut Staged,
) -> Result<(), AllocError>
    requires first { numbering.now.first ≤ 2 ^ 24 }
    requires few { length nodes.old.items ≤ 2 ^ 26 }
    requires numbers { AreNumbers numbering.now.first numbering.now.numbers.now }
    requires none { staged.old ≡ [] }
    ensures { OnOk result (staged.new ≡ numbered (number_at numbering.now.numbers.now numbering.now.first) 0 (reverse nodes.old.items)) }
{
    for place in 0..nodes.len() {
        let Some(node) = nodes.pop() else {
            unreachable!()
        };
        staged.stage(numbering.page_at(place), node)?;
    }
    Ok(())
}

// Gives the new nodes their pages.
fn number_nodes(
    alloc: Global,
    numbering: &Numbering<'_>,
    mut nodes: Vec<Node>,
) -> Result<Staged, AllocError>
    requires first { numbering.now.first ≤ 2 ^ 24 }
    requires few { length nodes.items ≤ 2 ^ 26 }
    requires numbers { AreNumbers numbering.now.first numbering.now.numbers.now }
    ensures { IfOk result (λ staged. staged ≡ numbered (number_at numbering.now.numbers.now numbering.now.first) 0 nodes.items) }
{
    nodes.reverse();
    let mut staged = Staged::new(alloc);
    stage_all(numbering, &mut nodes, &mut staged)?;
    Ok(staged)
}

// Returns the side of a file's other slot.
fn other_side(side: u8) -> u8
    ensures { result ≡ 1 - side }
{
    if side == 0 { 1 } else { 0 }
}

/// Gives the nodes of a new tree their pages, and returns what the next live slot holds. `NoRoom` comes exactly where the nodes
/// beyond the given numbers need more pages than a file may have.
/// Clauses: what is asked of the caller (`first`, `low_pages`, `pages`, `count`, `generation`, `few`, `numbers`, `height`, `root`); the
/// answer (`staged`, `next`, `left`, `placement`); when it succeeds (`room`); the cause of an error (`cause`).
pub fn settle(
    alloc: Global,
    numbering: &Numbering<'_>,
    live: &Live,
    tree: NewTree,
) -> Result<Placed, RoomFault>
    requires first { numbering.now.first ≡ live.now.pages }
    requires low_pages { 3 ≤ live.now.pages }
    requires pages { live.now.pages ≤ 2 ^ 24 }
    requires count { live.now.count + tree.added ≤ 2 ^ 24 }
    requires generation { live.now.generation < 2 ^ 48 - 1 }
    requires few { length tree.nodes.items ≤ 2 ^ 26 }
    requires numbers { AreNumbers numbering.now.first numbering.now.numbers.now }
    requires height { tree.height ≤ 14 }
    requires root { (i : ℕ) × (i < length tree.nodes.items) × (tree.root ≡ number_at numbering.now.numbers.now numbering.now.first i) }

    // Node i stands on page i of the numbers, and further nodes on the pages from the end on.
    ensures staged { IfOk result (λ placed. placed.staged ≡
        numbered (number_at numbering.now.numbers.now numbering.now.first) 0 tree.nodes.items) }
    ensures next { IfOk result (λ placed. placed.next ≡ record {
      side = 1 - live.now.side;
      generation = live.now.generation + 1;
      root = tree.root;
      height = tree.height;
      count = live.now.count + tree.added;
      pages = live.now.pages + (length tree.nodes.items - length numbering.now.numbers.now);
    }) }
    ensures left { IfOk result (λ placed. placed.left ≡ tree.left.items) }

    // The placement can be committed under each head that allows this number of objects and whose pages can hold the nodes.
    ensures placement { IfOk result (λ placed. (head : Head) → live.now.count + tree.added ≤ head.limit →
        AllByRecursion (IsValidNode head.dim) tree.nodes.items →
        IsPlacement head live.now numbering.now.numbers.now tree.added placed) }

    // When settling fails.
    ensures room { OnOk result (live.now.pages + (length tree.nodes.items - length numbering.now.numbers.now) ≤ 2 ^ 24) }
    ensures cause { IfErr result (HasRoomCause live.now (length tree.nodes.items - length numbering.now.numbers.now)) }
{
    let NewTree {
        nodes,
        root,
        height,
        added,
        left,
    } = tree;
    let needed = nodes.len().saturating_sub(numbering.numbers.len()) as u32;
    if needed > MOST_PAGES - live.pages {
        return Err(RoomFault::NoRoom {
            pages: live.pages,
            needed,
        });
    }
    let staged = number_nodes(alloc, numbering, nodes)?;
    let next = Live {
        side: other_side(live.side),
        generation: live.generation + 1,
        root,
        height,
        count: live.count + added,
        pages: live.pages + needed,
    };
    Ok(Placed {
        staged,
        next,
        left: Listed::new(left),
    })
}
