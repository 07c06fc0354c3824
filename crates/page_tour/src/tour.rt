// A walk of a tree by child numbers.
ghost use Rattle.std.specs.Prelude.{◌≡◌, ◌≤◌, ◌+◌, ◌++◌, [], ◌∷◌, reverse, IsTrue, IfOk, IfErr, IfSome, IfNone, OnOk};
ghost use Rattle.metric_laws.specs.Space.{Space};
ghost use Rattle.tree_shape.specs.Tree.{IsSoundTree};
ghost use Rattle.page_store.specs.Reading.{nodes_of};
ghost use Rattle.page_store.specs.Shelf.{HoldsSame, IsPassing};
ghost use Rattle.page_store.specs.Tours.{children, HasTourCause};
ghost use Rattle.page_tour.specs.Courses.{HasNodes, OpensNext, StopsNext};

use page_store::{PageFault, Pages, SharedNode};
use std::alloc::{AllocError, Global};
use std::marker::Model;
use tree_shape::{Live, Node};

/// A walk in pre-order, in progress. Contracts see the pages that it has still to open, the next one first, how many pages it has
/// opened, and how many it may open.
#[derive(Drop)]
pub struct Tour {
    // The pages that are still to come, the next one last.
    stack: Vec<u32>,
    opened: u32,
    most: u32,
}

impl Model for Tour {
    ghost use Rattle.std.specs.Prelude.{◌≤◌, reverse};
    ghost use Rattle.page_tour.specs.Courses.{Course};

    ghost Value = { Course };

    ghost view = { λ t. record { coming = reverse t.stack.items; opened = t.opened; most = t.most } };

    ghost invariant = { λ t. t.opened ≤ t.most };
}

// Pushes the pages that `node` names on the stack, so that the first of them is on top.
fn push_children(stack: &mut Vec<u32>, node: &Node) -> Result<(), AllocError>
    ensures { OnOk result (reverse stack.new.items ≡ children node.now ++ reverse stack.old.items) }
{
    if let Node::Inner { entries, .. } = node {
        for index in (0..entries.len()).rev() {
            stack.push(entries.at(index).child)?;
        }
    }
    Ok(())
}

impl Tour {
    /// Begins a walk at the root of `live`. It may open as many pages as the file has.
    pub fn begin(alloc: Global, live: &Live) -> Result<Self, AllocError>
        ensures { IfOk result (λ tour. tour ≡ record { coming = live.now.root ∷ []; opened = 0; most = live.now.pages }) }
    {
        Ok(Tour {
            stack: vec![in alloc; live.root]?,
            opened: 0,
            most: live.pages,
        })
    }

    /// Opens the next page and returns its number and its node. Returns `None` where no page is left. After as many pages as it may
    /// open, one more is refused unasked, with [`PageFault::Repeats`]. After an error the walk can't go on.
    pub fn next<P: Pages>(
        &mut self,
        alloc: Global,
        pages: &mut P,
    ) -> Result<Option<(u32, SharedNode)>, PageFault>
        ensures same { HoldsSame (P.shelf pages.old) (P.shelf pages.new) }
        ensures keeps { P.keeps pages.old pages.new }
        ensures no_fault { OnOk result ((P.shelf pages.new).faults ≡ (P.shelf pages.old).faults) }
        ensures reads { (P.shelf pages.new).reads ≤ (P.shelf pages.old).reads + 1 }
        ensures ended { IfOk result (λ found. IfNone found ((self.old.coming ≡ []) × (self.new ≡ self.old) × (pages.new ≡ pages.old))) }
        ensures opened { IfOk result (λ found. IfSome found (λ one.
            OpensNext (P.shelf pages.old) (P.shelf pages.new) self.old self.new one.0 one.1)) }
        ensures stop { IfErr result (StopsNext (P.shelf pages.old) (P.shelf pages.new) self.old) }
    {
        let Some(page) = self.stack.pop() else {
            return Ok(None);
        };
        if self.opened == self.most {
            return Err(PageFault::Repeats(page));
        }
        let node = pages.node(alloc, page, None)?;
        push_children(&mut self.stack, node.as_ref())?;
        self.opened += 1;
        Ok(Some((page, node)))
    }
}

/// Returns the number of the tree's nodes, by a walk.
pub fn count_nodes<P: Pages>(alloc: Global, pages: &mut P, live: &Live) -> Result<u32, PageFault>
    ensures same { HoldsSame (P.shelf pages.old) (P.shelf pages.new) }
    ensures keeps { P.keeps pages.old pages.new }
    ensures no_fault { OnOk result ((P.shelf pages.new).faults ≡ (P.shelf pages.old).faults) }
    ensures reads { (P.shelf pages.new).reads ≤ (P.shelf pages.old).reads + live.now.pages }
    ensures counted { IfOk result (λ count. IsTrue (P.shelf pages.old).is_known →
        HasNodes (nodes_of (P.shelf pages.old).read) live.now count) }
    ensures cause { IfErr result (HasTourCause live.now (P.shelf pages.old) (P.shelf pages.new)) }
    ensures sound { IfErr result (λ fault. IsTrue (P.shelf pages.old).is_known → (s : Space) →
        IsSoundTree s (nodes_of (P.shelf pages.old).read) live.now → IsPassing fault) }
{
    let mut tour = Tour::begin(alloc, live)?;
    let mut count = 0;
    while let Some(_) = tour.next(alloc, pages)? {
        count += 1;
    }
    Ok(count)
}
