// Collects the objects of a live tree by a walk over its pages.
ghost use Rattle.std.specs.Prelude.{◌≡◌, ◌++◌, Some, IsTrue, IfOk, IfErr, OnOk};
ghost use Rattle.metric_laws.specs.Space.{Space};
ghost use Rattle.outside_io.specs.Causes.{Rose};
ghost use Rattle.tree_shape.specs.Tree.{IsSoundTree, leaf_entries, objects};
ghost use Rattle.page_store.specs.Reading.{nodes_of};
ghost use Rattle.page_store.specs.Shelf.{HoldsSame, IsPassing};

use page_store::{PageFault, Pages, SharedNode};
use page_tour::Tour;
use std::alloc::{AllocError, Global};
use tree_shape::{LeafEntry, Live, Node};

// Appends the objects of a node; an inner node has none.
fn push_objects(
    alloc: Global,
    node: SharedNode,
    found: &mut Vec<LeafEntry>,
) -> Result<(), AllocError>
    ensures { OnOk result (found.new.items ≡ found.old.items ++ leaf_entries (Some node)) }
{
    match node.into_value(alloc)? {
        Node::Leaf(entries) => {
            let mut entries = entries.into_vec(alloc)?;
            found.append(&mut entries)
        }
        Node::Inner { .. } => Ok(()),
    }
}

/// Returns the objects of the live tree, in pre-order, by a walk by child numbers. It opens at most as many pages as there are. It
/// refuses a further one, which never happens on a sound tree.
pub fn collect<P: Pages>(
    alloc: Global,
    pages: &mut P,
    live: &Live,
) -> Result<Vec<LeafEntry>, PageFault>
    ensures same { HoldsSame (P.shelf pages.old) (P.shelf pages.new) }
    ensures keeps { P.keeps pages.old pages.new }
    ensures found { IfOk result (λ found. IsTrue (P.shelf pages.old).is_known → (s : Space) →
        IsSoundTree s (nodes_of (P.shelf pages.old).read) live.now →
        found.items ≡ objects (nodes_of (P.shelf pages.old).read) live.now) }
    ensures disk { IfErr result (λ fault. fault ≡ PageFault.Disk → Rose (P.shelf pages.old).faults (P.shelf pages.new).faults) }
    ensures sound { IfErr result (λ fault. IsTrue (P.shelf pages.old).is_known → (s : Space) →
        IsSoundTree s (nodes_of (P.shelf pages.old).read) live.now → IsPassing fault) }
{
    let mut found = Vec::new(alloc);
    let mut tour = Tour::begin(alloc, live)?;
    while let Some((_, node)) = tour.next(alloc, pages)? {
        push_objects(alloc, node, &mut found)?;
    }
    Ok(found)
}
